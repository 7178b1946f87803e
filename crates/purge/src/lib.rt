// A tenant taken out of a recording, in the recording's own buffer. Everything is checked before the first store. Then one pass goes through
// the buffer with two places: what is kept is stored from the front on, and the place where it ends is never ahead of the place that is read next.
#![tactic(auto)]

ghost use Rattle.std.specs.Prelude.{◌≡◌, [], ◌+◌, ◌≤◌, length, drop};
ghost use Rattle.std.proofs.lemmas.List.Edits.{sets};
ghost use Rattle.rules.specs.Bytes.{pad, part, padded};
ghost use Rattle.sheet.specs.Table.{rows_in};
ghost use Rattle.numbered.specs.Parts.{message_by};
ghost use Rattle.rules.specs.Clean.{clean_piece};
ghost use Rattle.rules.specs.Options.{option_size};
ghost use Rattle.rules.specs.Reading.{message_at};
ghost use Rattle.message.specs.Answers.{spot_of_message};
ghost use Rattle.compose.specs.Told.{told};
ghost use Rattle.rules.specs.Outcome.{good};
ghost use Rattle.purge.specs.Purge.{count_set, purge};
ghost use Rattle.purge.specs.Parts.{WholeRun, Standing, KeptUnless, Slid, count_at, Headed, headed, loses_by, KeptAt, KeptAll};

use compose::{put_header, record_of};
use message::{Header, Message, Package, check, message_at, package_at, package_time};
use refusal::Refusal;
use sheet::{near_grants, near_rows, read_table, source_of};
use wire::{byte_at, put_byte, put_part, put_word, put_zeros};

// Moves 64 bytes through a local array: all of them are read before the first is stored, so that they are moved at once.
fn move_chunk(s: &mut [u8], to: usize, from: usize)
    requires { (to + 64 ≤ length s.old) × (from + 64 ≤ length s.old) }
    ensures { s.new ≡ sets s.old to (part from (from + 64) s.old) }
{
    let mut chunk = [0u8; 64];
    let from_end = from + 64;
    put_part(&mut chunk, 0, &s[from..from_end], 0, 64);
    let to_end = to + 64;
    put_part(&mut s[to..to_end], 0, &chunk, 0, 64);
}

// Moves as many chunks as n bytes have, and says how many bytes they are.
fn move_chunks(s: &mut [u8], to: usize, from: usize, n: usize) -> usize
    requires { (to ≤ from) × (from + n ≤ length s.old) }
    ensures { (result ≤ n) × (s.new ≡ sets s.old to (part from (from + result) s.old)) }
{
    let mut i = 0;
    while 64 <= n - i {
        move_chunk(s, to + i, from + i);
        i += 64;
    }
    i
}

// Moves n bytes one by one.
fn move_bytes(s: &mut [u8], to: usize, from: usize, n: usize)
    requires { (to ≤ from) × (from + n ≤ length s.old) }
    ensures { s.new ≡ sets s.old to (part from (from + n) s.old) }
{
    for i in 0..n {
        s[to + i] = s[from + i];
    }
}

// Moves the n bytes from `from` on down to `to`. What stays where it is, is not stored again.
fn move_down(s: &mut [u8], to: usize, from: usize, n: usize)
    requires { (to ≤ from) × (from + n ≤ length s.old) }
    ensures { s.new ≡ sets s.old to (part from (from + n) s.old) }
{
    if to == from {
        return;
    }
    let i = move_chunks(s, to, from, n);
    move_bytes(s, to + i, from + i, n - i);
}

// What is left of a message's packages: how many, and the bytes that they take.
#[derive(Clone, Copy)]
struct Left {
    bytes: usize,
    packages: usize,
}

// Moves package p, which stands at `at`, down to `to`. Its reserved byte and its padding become zero.
fn keep_package(s: &mut [u8], at: usize, p: Package, to: usize)
    requires { Standing s.old at p × (to ≤ at) }
    ensures { s.new ≡ sets s.old to (clean_piece (part at p.next s.old)) }
{
    let size = p.to - at;
    move_down(s, to, at, size);
    put_byte(s, to + 6, 0);
    put_zeros(s, to + size, p.next - p.to);
}

// Keeps package p, which stands at `at`, behind those kept so far, unless it is granted.
fn keep_unless(s: &mut [u8], at: usize, p: Package, granted: bool, to: usize, left: Left) -> Left
    requires { Standing s.old at p × (to ≤ at) × (left.bytes ≤ 65536) × (left.packages ≤ 65536) }
    ensures { KeptUnless s.old s.new at p granted to left result }
{
    if granted {
        return left;
    }
    keep_package(s, at, p, to);
    Left {
        bytes: left.bytes + (p.next - at),
        packages: left.packages + 1,
    }
}

// Keeps the packages of the message with header h that the sheet does not grant. They stand from `from` to the end of s, and slide down to `to`.
// Only the rows that can grant something in this message are asked, which `near` is lent for.
fn keep_packages(
    s: &mut [u8],
    h: Header,
    from: usize,
    to: usize,
    table: &[u64],
    near: &mut [u64; 128],
) -> Left
    requires { (to ≤ from) × (from ≤ length s.old) × (length s.old ≤ 65536) × (length table.now ≤ 224) }
    ensures { Slid (rows_in table.now) (message_by h) from to s.old s.new result }
{
    let many = near_rows(table, source_of(h), near);
    let mut left = Left {
        bytes: 0,
        packages: 0,
    };
    let mut at = from;
    while at < s.len() {
        let Ok(Some(p)) = package_at(s, at) else {
            return left;
        };
        let next = p.next;
        let id = p.id;
        let time = package_time(h.seconds, h.nanos, p.delta);
        let granted = near_grants(&near[..many], id, time);
        left = keep_unless(s, at, p, granted, to + left.bytes, left);
        at = next;
    }
    left
}

// How many bytes the option at place i has: one, or what its length byte says.
fn option_size(o: &[u8], i: usize) -> usize
    requires { i ≤ 65536 }
    ensures { result ≡ option_size (drop i o.now) }
{
    if byte_at(o, i) < 0x80 {
        return 1;
    }
    byte_at(o, i + 1) as usize
}

// Sets the option at place i to the number `count`, if it is a package count.
fn set_count(o: &mut [u8], i: usize, count: u32)
    requires { i ≤ 65536 }
    ensures { o.new ≡ count_at o.old i count }
{
    if byte_at(o, i) == 0x87 {
        put_word(o, i + 2, count);
    }
}

// Sets each package count of an option run.
fn set_counts(o: &mut [u8], count: u32)
    requires { WholeRun o.old × (length o.old ≤ 65536) }
    ensures { o.new ≡ count_set count [] o.old }
{
    let mut i = 0;
    while i < o.len() {
        let size = option_size(o, i);
        set_count(o, i, count);
        i += size;
    }
}

// n rounded up to a multiple of 4.
fn round_up(n: usize) -> usize
    requires { n ≤ 65536 }
    ensures { result ≡ pad n }
{
    (n + 3) / 4 * 4
}

// Moves an option run of n bytes down, and fills it with zeros to whole words.
fn move_run(s: &mut [u8], to: usize, from: usize, n: usize)
    requires { (to ≤ from) × (from + n ≤ length s.old) × (length s.old ≤ 65536) }
    ensures { s.new ≡ sets s.old to (padded (part from (from + n) s.old)) }
{
    move_down(s, to, from, n);
    put_zeros(s, to + n, round_up(n) - n);
}

// Ends a message whose option run and packages stand behind the place of its header: the counts are set, and the header is stored.
fn put_front(s: &mut [u8], to: usize, h: Header, left: Left)
    requires { Headed s.old to h left }
    ensures { s.new ≡ headed s.old to h left }
{
    let run = to + 24;
    let end = run + h.run;
    set_counts(&mut s[run..end], left.packages as u32);
    put_header(&mut s[to..], record_of(h), h.run as u8, left.bytes as u16);
}

// Whether a message that had so many packages, and has so many left, loses its last one.
fn loses_last(had: usize, left: usize) -> bool
    ensures { result ≡ loses_by had left }
{
    if had == 0 {
        return false;
    }
    left == 0
}

// Keeps what the sheet leaves of message m, which stands at `at`, from `to` on, and says where it ends.
// Its option run goes down first, then its packages, one by one; the counts and the header follow once it is known how many are left.
fn keep_message(
    s: &mut [u8],
    at: usize,
    m: Message,
    to: usize,
    table: &[u64],
    near: &mut [u64; 128],
) -> usize
    requires { (to ≤ at) × (length s.old ≤ 65536) × (good (spot_of_message m) ≡ message_at s.old at) × (length table.now ≤ 224) }
    ensures { KeptAt (rows_in table.now) at m.next to s.old s.new result }
{
    let h = m.header;
    let next = m.next;
    let body = to + 24 + round_up(h.run);
    move_run(s, to + 24, at + 24, h.run);
    let left = keep_packages(&mut s[..next], h, m.payload, body, table, near);
    if loses_last(m.packages, left.packages) {
        return to;
    }
    put_front(s, to, h, left);
    body + left.bytes
}

// Keeps what the sheet leaves of a recording that passes, and says where it ends.
fn keep_messages(s: &mut [u8], table: &[u64]) -> usize
    requires { (length s.old ≤ 65536) × (length table.now ≤ 224) }
    ensures { KeptAll (rows_in table.now) s.old s.new result }
{
    // Room for all 32 rows of a sheet, four numbers each.
    let mut near = [0u64; 128];
    let mut to = 0;
    let mut at = 0;
    while at < s.len() {
        let Ok(m) = message_at(s, at) else {
            return to;
        };
        let next = m.next;
        to = keep_message(s, at, m, to, table, &mut near);
        at = next;
    }
    to
}

// Takes every package that the sheet grants out of the recording that fills the buffer, and says how many bytes are in use. Those behind them become zero.
pub fn purge(buffer: &mut [u8], sheet: &[u8]) -> Result<usize, Refusal>
    ensures { told result buffer.new ≡ purge buffer.old sheet.now }
{
    let mut table = [0u64; 224];
    let rows = read_table(sheet, &mut table)?;
    check(buffer)?;
    let end = 7 * rows;
    let bytes = keep_messages(buffer, &table[..end]);
    put_zeros(buffer, bytes, buffer.len() - bytes);
    Ok(bytes)
}
