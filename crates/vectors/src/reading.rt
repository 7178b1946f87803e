// Headers, option runs and recordings.
ghost use Rattle.std.specs.Prelude.{◌≤◌};

use message::{Counts, Header};
use refusal::Refusal;

// W, flags, message id, sequence number, length, seconds and nanoseconds.
fn fields(rt: &HostRuntime, h: Header) {
    let _ = print!(rt;
        "{} {} {} {} {} {} {} ",
        h.words, h.flags, h.id.0, h.sequence, h.length, h.seconds, h.nanos
    );
}

// Number, place, the header's fields, and the option run.
fn header(rt: &HostRuntime, s: &[u8]) {
    let read = message::read_header(s);
    crate::told(rt, read.err());
    if let Ok(h) = read {
        fields(rt, h);
    }
    crate::show(rt, message::option_run(s));
}

// Number, place, messages and packages.
fn checked(rt: &HostRuntime, s: &[u8]) {
    let checked = message::check(s);
    crate::told(rt, checked.err());
    let Counts { messages, packages } = checked.unwrap_or(Counts {
        messages: 0,
        packages: 0,
    });
    let _ = println!(rt; "{messages} {packages} ");
}

// Number, place, the header's fields, where the payload and the next message begin, and how many packages there are, of the message at a
// place of M.
fn message_at(rt: &HostRuntime, at: usize) {
    let m = crate::message_m();
    let read = message::message_at(&m, at);
    crate::told(rt, read.err());
    if let Ok(k) = read {
        fields(rt, k.header);
        let _ = print!(rt; "{} {} {} ", k.payload, k.next, k.packages);
    }
    crate::end(rt);
}

// Number, place and the number told.
fn count(rt: &HostRuntime, c: Result<usize, Refusal>) {
    crate::counted(rt, c);
    crate::end(rt);
}

// A bare option run, and a bare run of packages, of so many bytes 0x20.
fn bare_runs(rt: &HostRuntime, bytes: usize)
    requires { bytes ≤ 65537 }
{
    let s = crate::long();
    count(rt, message::option_run_length(&s[0..bytes]));
    count(rt, message::count_packages(&s[0..bytes]));
}

// The header of M's first so many bytes.
fn header_of(rt: &HostRuntime, count: usize)
    requires { count ≤ 56 }
{
    let m = crate::message_m();
    header(rt, &m[0..count]);
}

// The header of M with the option bytes of P7, and this length byte in them.
fn header_with_options(rt: &HostRuntime, length: u8) {
    let mut n = crate::message_n();
    n[25] = length;
    header(rt, &n);
}

// M's first so many bytes.
fn cut(rt: &HostRuntime, count: usize)
    requires { count ≤ 56 }
{
    let m = crate::message_m();
    checked(rt, &m[0..count]);
}

// M with the option bytes of P7, which say so many packages.
fn saying(rt: &HostRuntime, packages: u8) {
    let n = crate::saying(packages);
    checked(rt, &n);
}

// M with this word at this place.
fn with(rt: &HostRuntime, at: usize, word: u32) {
    let m = crate::changed(at, word);
    checked(rt, &m);
}

// P4: M with the first byte 11 and length 18 (hex).
fn too_short_for_options(rt: &HostRuntime) {
    let mut m = crate::changed(12, 0x18);
    m[0] = 0x11;
    checked(rt, &m);
}

pub fn reading(rt: &HostRuntime) {
    header_of(rt, 56);
    // P7: the option run is the first 6 bytes; with 05 for 06, OPTION at 24.
    header_with_options(rt, 0x06);
    header_with_options(rt, 0x05);
    // A header alone is read with CUT as well.
    header_of(rt, 24);
    // P2, an empty recording, and M.
    cut(rt, 23);
    cut(rt, 0);
    cut(rt, 56);
    // P3, TYPE, and P4.
    with(rt, 0, 0x20000080);
    with(rt, 0, 0x10010080);
    too_short_for_options(rt);
    // P5, and P6 with 3B9ACA00 and 3B9AC9FF nanoseconds.
    with(rt, 12, 0x3C);
    with(rt, 20, 0x3B9ACA00);
    with(rt, 20, 0x3B9AC9FF);
    // P8: the first L is 11, 33, 17 and 16.
    with(rt, 28, 0x000B0000);
    with(rt, 28, 0x00210000);
    with(rt, 28, 0x00110000);
    with(rt, 28, 0x00100000);
    // Flags 0090 and 0000: FRAGMENT and STANDARD.
    with(rt, 0, 0x10000090);
    with(rt, 0, 0x10000000);
    // M with option 0x87: it says two packages, and one.
    saying(rt, 2);
    saying(rt, 1);
    // M at its place; behind its end, and further behind, SHORT.
    message_at(rt, 0);
    message_at(rt, 56);
    message_at(rt, 57);
    // Each byte is an option; as a package's L they are 8,224, of which seven fit into 65,536 bytes. One byte more is LARGE.
    bare_runs(rt, 65536);
    bare_runs(rt, 65537);
}
