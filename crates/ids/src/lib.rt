// Ids as a line of text, read into ranges and written from them. A line is a list: an item, alone or followed by a comma and a list.
// The item reader and the list reader call each other, and what is unread gets shorter with each call; they go at most 33 items deep, and lend each other
// the numbers that they read.
#![tactic(auto)]

ghost use Rattle.std.specs.Prelude.{◌≡◌, List, map, ℕ, ◌+◌, ◌%◌, ◌≤◌, ◌<◌, length, get_or, take, drop};
ghost use Rattle.std.proofs.lemmas.List.Edits.{sets};
ghost use Rattle.refusal.specs.Numbers.{outcome_of};
ghost use Rattle.ids.specs.Line.{decimal};
ghost use Rattle.ids.specs.Reader.{is_digit, digits, item_at, list_at, read_ids};
ghost use Rattle.ids.specs.Writer.{id_text, item_text, line_text, ranges_kept, write_ids};
ghost use Rattle.compose.specs.Told as compose;
ghost use Rattle.ids.specs.Told.{range_in, answer, told, handed_over, ranges_in};
ghost use Rattle.ids.specs.Parts.{told_item, rest_at, form_of, pair_fits, held_ranges, with_range, Held, line_told, read_on, fault_at, no_ids};

use refusal::{Refusal, Why, refuse};
use wire::{byte_at, put_byte};

// An inclusive range of ids.
#[derive(Clone, Copy, PartialEq, Eq)]
pub struct IdRange {
    pub first: u32,
    pub last: u32,
}

// The ranges of a line and their number; ranges behind the last are zero.
#[derive(Clone, Copy)]
pub struct Ids {
    pub ranges: [IdRange; 32],
    pub count: usize,
}

// The digits at a place: the number that they say, and how many they are, at most 10.
#[derive(Clone, Copy)]
struct DigitsRead {
    value: u64,
    count: usize,
}

fn digits_at(s: &[u8], at: usize) -> DigitsRead
    requires { at ≤ length s.now }
    ensures { (result.count ≡ digits 10 (drop at s.now)) × (result.value ≡ decimal 0 (take result.count (drop at s.now))) }
{
    let mut value: u64 = 0;
    for n in 0..10 {
        let x = byte_at(s, at + n);
        if !x.is_ascii_digit() {
            return DigitsRead { value, count: n };
        }
        value = value * 10 + u64::from(x - 48);
    }
    DigitsRead { value, count: 10 }
}

// The ids of an item and how many bytes it has.
#[derive(Clone, Copy)]
struct Item {
    first: u64,
    last: u64,
    size: usize,
}

fn item_at(s: &[u8], at: usize) -> Result<Item, Refusal>
    requires { at ≤ length s.now }
    ensures { told_item at result ≡ item_at at (drop at s.now) }
{
    let a = digits_at(s, at);
    if a.count == 0 {
        return refuse(Why::Text, at);
    }
    let m = at + a.count;
    if byte_at(s, m) != 45 {
        return Ok(Item {
            first: a.value,
            last: a.value,
            size: a.count,
        });
    }
    let b = digits_at(s, m + 1);
    if b.count == 0 {
        return refuse(Why::Text, m + 1);
    }
    Ok(Item {
        first: a.value,
        last: b.value,
        size: a.count + 1 + b.count,
    })
}

// The form of what follows an item: nothing, or a comma and a list.
fn form_at(s: &[u8], from: usize) -> Result<(), Refusal>
    requires { from ≤ length s.now }
    ensures { outcome_of result ≡ form_of (rest_at from (drop from s.now)) }
{
    let mut at = from;
    while at < s.len() {
        if s[at] != 44 {
            return refuse(Why::Text, at);
        }
        let item = item_at(s, at + 1)?;
        at = at + 1 + item.size;
    }
    Ok(())
}

// The item at place `at` is at fault. What follows it is looked at for its form alone, in a loop, since it may be long.
fn fault(s: &[u8], at: usize, next: usize) -> Result<usize, Refusal>
    requires { next ≤ length s.now }
    ensures { (numbers : List ℕ) → line_told result numbers ≡ fault_at at (rest_at next (drop next s.now)) }
{
    form_at(s, next)?;
    refuse(Why::Text, at)
}

// Whether both ids are below 2^32, the first not above the last.
#[tactic(auto, unfolding(crate::specs::Reader::item_fits))]
fn fits(first: u64, last: u64) -> bool
    ensures { result ≡ pair_fits first last }
{
    first < 4294967296 && last < 4294967296 && first <= last
}

// Stores first and last of the range with index n.
fn put_range(numbers: &mut [u32], n: usize, first: u32, last: u32)
    requires { (n < 32) × (length numbers.old ≡ 64) }
    ensures { numbers.new ≡ with_range numbers.old n first last }
{
    let at = 2 * n;
    numbers[at] = first;
    numbers[at + 1] = last;
}

// The item reader: an item stands at place `at`, n ranges are read before it, and the list reader goes on behind it.
#[cycle(read_item_read_list)]
fn read_item(s: &[u8], at: usize, numbers: &mut [u32], n: usize) -> Result<usize, Refusal>
    requires { (at ≤ length s.now) × Held numbers.old n }
    ensures { line_told result numbers.new ≡ read_on (take n (held_ranges numbers.old)) (list_at 0 at (drop at s.now)) }
{
    let item = item_at(s, at)?;
    let next = at + item.size;
    if n == 32 || !fits(item.first, item.last) {
        return fault(s, at, next);
    }
    put_range(numbers, n, item.first as u32, item.last as u32);
    read_list(s, next, numbers, n + 1)
}

// The list reader: n ranges are read, the last of them up to place `at`. It stands alone there, or a comma follows and the item reader goes on.
#[cycle(read_item_read_list)]
fn read_list(s: &[u8], at: usize, numbers: &mut [u32], n: usize) -> Result<usize, Refusal>
    requires { (at ≤ length s.now) × Held numbers.old n }
    ensures { line_told result numbers.new ≡ read_on (take n (held_ranges numbers.old)) (rest_at at (drop at s.now)) }
{
    if at == s.len() {
        return Ok(n);
    }
    if s[at] != 44 {
        return refuse(Why::Text, at);
    }
    // Handed on as a whole, it would be copied with the bytes that no case uses, and each item would wait for that: lines of many ranges took a half longer.
    let count = read_item(s, at + 1, numbers, n)?;
    Ok(count)
}

// The range with index i, of ranges of which first and last are lent.
fn range_at(ends: &[u32], i: usize) -> IdRange
    requires { (i < 32) × (length ends.now ≡ 64) }
    ensures { result ≡ get_or (ranges_in 32 ends.now) i no_ids }
{
    let at = 2 * i;
    IdRange {
        first: ends[at],
        last: ends[at + 1],
    }
}

// All 32 of them.
fn ranges_of(ends: &[u32]) -> [IdRange; 32]
    requires { length ends.now ≡ 64 }
    ensures { result ≡ ranges_in 32 ends.now }
{
    let mut ranges = [IdRange { first: 0, last: 0 }; 32];
    for i in 0..32 {
        ranges[i] = range_at(ends, i);
    }
    ranges
}

// The ranges of a line of ids.
pub fn read_ids(line: &[u8]) -> Result<Ids, Refusal>
    ensures { told result ≡ answer (read_ids line.now) }
{
    if 65536 < line.len() {
        return refuse(Why::Large, 65536);
    }
    let mut numbers = [0u32; 64];
    let count = read_item(line, 0, &mut numbers, 0)?;
    Ok(Ids {
        ranges: ranges_of(&numbers),
        count,
    })
}

// How many digits n has in decimal.
fn digits_of(n: u32) -> usize
    ensures { (result ≡ length (id_text n)) × (result ≤ 10) }
{
    if n < 10 { 1 } else { digits_of(n / 10) + 1 }
}

fn low_digit(n: u32) -> u8
    ensures { result ≡ 0x30 + n % 10 }
{
    (48 + n % 10) as u8
}

// Stores n in decimal from place `at` on, and says where it ends.
fn put_id(out: &mut [u8], at: usize, n: u32) -> usize
    requires { at < 4294967296 }
    ensures { (out.new ≡ sets out.old at (id_text n)) × (result ≡ at + length (id_text n)) × (result ≤ at + 10) }
{
    if n < 10 {
        put_byte(out, at, low_digit(n));
        return at + 1;
    }
    let end = put_id(out, at, n / 10);
    put_byte(out, end, low_digit(n));
    end + 1
}

// How many bytes the item of a range has.
fn item_len(r: IdRange) -> usize
    ensures { (result ≡ length (item_text (range_in r))) × (result ≤ 21) }
{
    if r.first == r.last {
        return digits_of(r.first);
    }
    digits_of(r.first) + 1 + digits_of(r.last)
}

// Stores the item of a range from place `at` on, and says where it ends.
fn put_item(out: &mut [u8], at: usize, r: IdRange) -> usize
    requires { at < 65536 }
    ensures { (out.new ≡ sets out.old at (item_text (range_in r))) × (result ≡ at + length (item_text (range_in r))) × (result ≤ at + 21) }
{
    let end = put_id(out, at, r.first);
    if r.first == r.last {
        return end;
    }
    put_byte(out, end, 45);
    put_id(out, end + 1, r.last)
}

// No range is inverted, and none is the 33rd.
fn order_of(ends: &[u32], n: usize) -> Result<(), Refusal>
    requires { length ends.now ≡ 64 }
    ensures { outcome_of result ≡ ranges_kept 0 (handed_over n (ranges_in 32 ends.now)) }
{
    for i in 0..n {
        if i == 32 {
            return refuse(Why::Text, i);
        }
        let r = range_at(ends, i);
        if r.last < r.first {
            return refuse(Why::Text, i);
        }
    }
    Ok(())
}

// How many bytes the line of the first n ranges has.
fn line_len(ends: &[u32], n: usize) -> usize
    requires { (1 ≤ n) × (n ≤ 32) × (length ends.now ≡ 64) }
    ensures { result ≡ length (line_text (map range_in (take n (ranges_in 32 ends.now)))) }
{
    let mut len = item_len(range_at(ends, 0));
    for i in 1..n {
        len = len + 1 + item_len(range_at(ends, i));
    }
    len
}

// Stores the line of the first n ranges.
fn put_line(out: &mut [u8], ends: &[u32], n: usize)
    requires { (1 ≤ n) × (n ≤ 32) × (length ends.now ≡ 64) }
    ensures { out.new ≡ sets out.old 0 (line_text (map range_in (take n (ranges_in 32 ends.now)))) }
{
    let mut at = put_item(out, 0, range_at(ends, 0));
    for i in 1..n {
        put_byte(out, at, 44);
        at = put_item(out, at + 1, range_at(ends, i));
    }
}

// Writes ranges as a line, the first `count` of those of which first and last are lent. A 33rd is refused, whatever it would be.
pub fn write_ends(ends: &[u32; 64], count: usize, out: &mut [u8]) -> Result<usize, Refusal>
    ensures { compose.told result out.new ≡ write_ids (handed_over count (ranges_in 32 ends.now)) out.old }
{
    if count == 0 {
        return refuse(Why::Text, 0);
    }
    order_of(ends, count)?;
    let bytes = line_len(ends, count);
    if out.len() < bytes {
        return refuse(Why::Room, bytes);
    }
    put_line(out, ends, count);
    Ok(bytes)
}

// First and last of 32 ranges, in turn.
fn ends_of(ranges: [IdRange; 32]) -> [u32; 64]
    ensures { ranges_in 32 result ≡ ranges }
{
    let mut ends = [0u32; 64];
    for i in 0..32 {
        let r = ranges[i];
        put_range(&mut ends, i, r.first, r.last);
    }
    ends
}

// Writes ranges as a line, the first `count` of the array.
pub fn write_ids(ranges: [IdRange; 32], count: usize, out: &mut [u8]) -> Result<usize, Refusal>
    ensures { compose.told result out.new ≡ write_ids (handed_over count ranges) out.old }
{
    let ends = ends_of(ranges);
    write_ends(&ends, count, out)
}
