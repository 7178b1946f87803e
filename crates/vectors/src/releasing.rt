// Order sheets and the copy.
ghost use Rattle.std.specs.Prelude.{◌≤◌};

use message::{Mdid, Pdid};
use refusal::Refusal;
use release::Totals;
use sheet::{Row, Sheet, Source, Time};

// Row R of document 01, ids 7 to 7, 1 to 1, from 100 s to 101 s; and a byte behind it.
fn row_r() -> [u8; 33] {
    *b"\x00\x00\x00\x07\x00\x00\x00\x07\x00\x00\x00\x01\x00\x00\x00\x01\
        \x00\x00\x00\x64\x00\x00\x00\x00\x00\x00\x01\x94\x00\x00\x00\x00\x00"
}

// A sheet that has no row: all its numbers are zero.
fn no_sheet() -> Sheet {
    let none = Time {
        seconds: 0,
        nanos: 0,
    };
    let row = Row {
        first_mdid: Mdid(0),
        last_mdid: Mdid(0),
        first_pdid: Pdid(0),
        last_pdid: Pdid(0),
        start: none,
        end: none,
        acquired_only: false,
    };
    Sheet {
        rows: [row; 32],
        count: 0,
    }
}

fn row(rt: &HostRuntime, r: Row) {
    let _ = print!(rt;
        "{} {} {} {} {} {} {} {} {} ",
        r.first_mdid.0,
        r.last_mdid.0,
        r.first_pdid.0,
        r.last_pdid.0,
        r.start.seconds,
        r.start.nanos,
        r.end.seconds,
        r.end.nanos,
        r.acquired_only as u8
    );
}

// Number, place and how many rows; and the sheet that was read, or none.
fn told(rt: &HostRuntime, s: &[u8]) -> Sheet {
    let read = sheet::read_sheet(s);
    crate::told(rt, read.err());
    let sheet = read.unwrap_or(no_sheet());
    let _ = print!(rt; "{} ", sheet.count);
    sheet
}

// Number, place, how many rows, and the first row.
fn sheet(rt: &HostRuntime, s: &[u8]) {
    let rows = told(rt, s).rows;
    row(rt, rows[0]);
    crate::end(rt);
}

// R with this last byte, and the byte behind it.
fn row_with(last: u8) -> [u8; 33] {
    let mut r = row_r();
    wire::put_byte(&mut r, 31, last);
    r
}

// The first `count` bytes of R with this last byte and the byte behind it.
fn sheet_r(rt: &HostRuntime, last: u8, count: usize)
    requires { count ≤ 33 }
{
    let r = row_with(last);
    sheet(rt, &r[0..count]);
}

// Two rows, R and R with this last byte: number, place and how many rows; and the second row and the last.
fn two_rows(rt: &HostRuntime, last: u8) {
    let mut two = [0u8; 64];
    let r = row_r();
    wire::put_part(&mut two, 0, &r, 0, 32);
    wire::put_part(&mut two, 32, &r, 0, 32);
    wire::put_byte(&mut two, 63, last);
    let rows = told(rt, &two).rows;
    row(rt, rows[1]);
    row(rt, rows[31]);
    crate::end(rt);
}

// Whether one of the first `count` rows of the sheet of R with this last byte grants package 1 of a message, at a time in nanoseconds.
fn granted_in(rt: &HostRuntime, last: u8, count: usize, m: Source, time: u64) {
    let r = row_with(last);
    let read = sheet::read_sheet(&r[0..32]).unwrap_or(no_sheet());
    let granted = sheet::in_sheet(read.rows, count, m, Pdid(1), time);
    let _ = println!(rt; "{} ", granted as u8);
}

// The same under R, of a message that is not simulated.
fn granted(rt: &HostRuntime, count: usize, message: u32, time: u64) {
    let m = Source {
        mdid: Mdid(message),
        simulated: false,
    };
    granted_in(rt, 0x00, count, m, time);
}

// And under R with this last byte, of message 7 at 100 s, simulated or not.
fn granted_by(rt: &HostRuntime, last: u8, simulated: bool) {
    let m = Source {
        mdid: Mdid(7),
        simulated,
    };
    granted_in(rt, last, 1, m, 100_000_000_000);
}

// Number, place, bytes, messages and packages.
fn answer(rt: &HostRuntime, a: Result<Totals, Refusal>) {
    crate::told(rt, a.err());
    let t = a.unwrap_or(Totals {
        bytes: 0,
        messages: 0,
        packages: 0,
    });
    let _ = print!(rt; "{} {} {} ", t.bytes, t.messages, t.packages);
}

// What is measured; and what is written, with the buffer.
fn copied(rt: &HostRuntime, recording: &[u8], sheet: &[u8], out: &mut [u8]) {
    answer(rt, release::measure(recording, sheet));
    crate::end(rt);
    answer(rt, release::write(recording, sheet, out));
    crate::show(rt, out);
}

// The copy of M's first `count` bytes under `rows` bytes of R and the byte behind it, in a buffer of `room` bytes.
fn under_r(rt: &HostRuntime, count: usize, rows: usize, room: usize)
    requires { (count ≤ 56) × (rows ≤ 33) × (room ≤ 44) }
{
    let m = crate::message_m();
    let r = row_r();
    let mut out = [0xEEu8; 44];
    copied(rt, &m[0..count], &r[0..rows], &mut out[0..room]);
}

// The copy of M with flags 88, which is simulated, under R with this last byte.
fn simulated_under(rt: &HostRuntime, last: u8) {
    let m = crate::changed(0, 0x10000088);
    let r = row_with(last);
    let mut out = [0xEEu8; 44];
    copied(rt, &m, &r[0..32], &mut out);
}

pub fn releasing(rt: &HostRuntime) {
    // P9, a sheet of 33 bytes, R for acquired data only, and a spare bit that is not zero.
    sheet_r(rt, 0x00, 32);
    sheet_r(rt, 0x00, 33);
    sheet_r(rt, 0x01, 32);
    sheet_r(rt, 0x02, 32);
    // Two rows are read, the second for acquired data only; where the second is refused, all rows are zero.
    two_rows(rt, 0x01);
    two_rows(rt, 0x02);
    // R's sheet has one row: none of no rows grants, and above 32 all rows are asked.
    granted(rt, 0, 7, 100_000_000_000);
    granted(rt, 1, 7, 100_000_000_000);
    granted(rt, 33, 7, 100_000_000_000);
    granted(rt, 33, 8, 100_000_000_000);
    // Its window starts at 100 s and ends at 101 s, which is left out.
    granted(rt, 1, 7, 99_999_999_999);
    granted(rt, 1, 7, 100_999_999_999);
    granted(rt, 1, 7, 101_000_000_000);
    // Simulated messages are granted in by R, and not where it is for acquired data only.
    granted_by(rt, 0x00, true);
    granted_by(rt, 0x01, true);
    granted_by(rt, 0x01, false);
    // P1 and P10, measured and written; a buffer of 44 bytes keeps its last four, and one of 39 is ROOM, 40, for writing alone.
    under_r(rt, 0, 32, 44);
    under_r(rt, 56, 32, 44);
    under_r(rt, 56, 32, 39);
    // M, simulated, under R, and under R for acquired data only.
    simulated_under(rt, 0x00);
    simulated_under(rt, 0x01);
    // A bad sheet is found before a bad recording.
    under_r(rt, 1, 33, 39);
}
