// What is kept of a damaged recording: every message that passes every check, and a report of the stretches that were skipped.
// A survey finds both and writes nothing; only then are the messages stored.
#![tactic(auto)]

ghost use Rattle.std.specs.Prelude.{◌≡◌, ◌≤◌, ◌<◌, min, length, drop};
ghost use Rattle.std.proofs.lemmas.List.Edits.{sets};
ghost use Rattle.salvage.specs.Salvage as rule;
ghost use Rattle.rules.specs.Reading.{message_at};
ghost use Rattle.salvage.specs.Told.{stretch_of, end_of, report, told, surveyed, skips_end, slot_of, start_of, reported, Fit};
ghost use Rattle.salvage.specs.Claims.{without};

use message::{count_packages, front_run, header_in, miscounts};
use refusal::{Refusal, Why, refuse};

// A stretch that was skipped: where it starts, and how many bytes it has.
#[derive(Clone, Copy, PartialEq, Eq, Default)]
pub struct Stretch {
    pub start: usize,
    pub size: usize,
}

// How much was written, and the first `count` stretches; those behind the last are zero.
#[derive(Clone, Copy)]
pub struct Salvaged {
    pub bytes: usize,
    pub messages: usize,
    pub stretches: [Stretch; 64],
    pub count: usize,
}

// The stretch from one place to another.
fn stretch_of(start: usize, end: usize) -> Stretch
    requires { start ≤ end }
    ensures { result ≡ stretch_of start end }
{
    Stretch {
        start,
        size: end - start,
    }
}

// 4 bytes are skipped, or what is left.
fn skip_of(left: usize) -> usize
    ensures { result ≡ min 4 left }
{
    if left < 4 { left } else { 4 }
}

// Where the skips that begin at place `at` end. No message begins with a byte that does not say version 1, so that none is looked for at such an offset.
fn skips_end(s: &[u8], at: usize) -> usize
    requires { at < length s.now }
    ensures { result ≡ skips_end 4 at (drop at s.now) }
{
    let mut end = at + skip_of(s.len() - at);
    while end < s.len() {
        if s[end] / 16 == 1 {
            return end;
        }
        end += skip_of(s.len() - end);
    }
    end
}

// Which stretch a skip at place `at` belongs to: the last of `count`, if that ends there, or one more.
fn slot_of(count: usize, end: usize, at: usize) -> usize
    requires { count ≤ 64 }
    ensures { result ≡ slot_of count end at }
{
    if count == 0 {
        return 0;
    }
    if end == at { count - 1 } else { count }
}

// Where that stretch begins.
fn start_of(count: usize, last: usize, end: usize, at: usize) -> usize
    ensures { result ≡ start_of count last end at }
{
    if count == 0 {
        return at;
    }
    if end == at { last } else { at }
}

// Where the message at place `at` ends, if one that passes every check stands there. Why one is refused is not asked, so that all stays in registers in
// the loop over the offsets.
fn end_at(s: &[u8], at: usize) -> Option<usize>
    ensures { result ≡ end_of (message_at s.now at) }
{
    let Ok(run) = front_run(s, at) else {
        return None;
    };
    let h = header_in(s, at, run);
    let from = at + (24 + 4 * h.words as usize);
    let next = at + h.length as usize;
    let Ok(packages) = count_packages(&s[from..next]) else {
        return None;
    };
    let options = at + 24;
    let to = options + h.run;
    if miscounts(&s[options..to], packages) {
        return None;
    }
    Some(next)
}

// What is kept and what is skipped, at each offset. The last stretch, if there is one, runs from `last` to `end`.
fn survey(s: &[u8]) -> Result<Salvaged, Refusal>
    ensures { report result ≡ surveyed s.now }
{
    if 65536 < s.len() {
        return refuse(Why::Large, 65536);
    }
    let mut stretches = [Stretch::default(); 64];
    let mut count: usize = 0;
    let mut last: usize = 0;
    let mut end: usize = 0;
    let mut bytes: usize = 0;
    let mut messages: usize = 0;
    let mut at: usize = 0;
    while at < s.len() {
        match end_at(s, at) {
            Some(next) => {
                bytes += next - at;
                messages += 1;
                at = next;
            }
            None => {
                let slot = slot_of(count, end, at);
                if slot == 64 {
                    return refuse(Why::Holes, at);
                }
                last = start_of(count, last, end, at);
                end = skips_end(s, at);
                stretches[slot] = stretch_of(last, end);
                count = slot + 1;
                at = end;
            }
        }
    }
    Ok(Salvaged {
        bytes,
        messages,
        stretches,
        count,
    })
}

// Stores what is between the first `count` stretches, which are in order and inside s: the kept messages, one behind the other. The stretches are taken by
// value, since whoever lends an array copies it first.
fn deliver(s: &[u8], stretches: [Stretch; 64], count: usize, out: &mut [u8])
    requires { (length s.now ≤ 65536) × (count ≤ 64) × Fit 0 (length s.now) (reported stretches count) }
    ensures { out.new ≡ sets out.old 0 (without (reported stretches count) 0 s.now) }
{
    let mut from: usize = 0;
    let mut to: usize = 0;
    for i in 0..count {
        let h = stretches[i];
        let n = h.start - from;
        wire::put_part(out, to, s, from, n);
        to += n;
        from = h.start + h.size;
    }
    wire::put_part(out, to, s, from, s.len() - from);
}

// Writes the kept messages of s unchanged, and reports what was skipped.
pub fn salvage(s: &[u8], out: &mut [u8]) -> Result<Salvaged, Refusal>
    ensures { told result out.new ≡ rule.salvage s.now out.old }
{
    let found = survey(s)?;
    if out.len() < found.bytes {
        return refuse(Why::Room, found.bytes);
    }
    deliver(s, found.stretches, found.count, out);
    Ok(found)
}
