// Chapter 24 read: headers, option runs, packages, messages, and a recording checked.
#![tactic(auto)]

ghost use Rattle.std.specs.Prelude.{◌≡◌, true, [], ◌+◌, ◌*◌, ◌/◌, ◌<◌, length};
ghost use Rattle.rules.specs.Outcome.{good};
ghost use Rattle.refusal.specs.Numbers.{outcome_of, option_of};
ghost use Rattle.rules.specs.Options as options;
ghost use Rattle.rules.specs.Message as rule;
ghost use Rattle.rules.specs.Reading as reading;
ghost use Rattle.rules.specs.Walk as walks;
ghost use Rattle.rules.specs.Packages.{package_time};
ghost use Rattle.message.specs.Answers as spec;
ghost use Rattle.message.specs.Runs as runs;

use refusal::{Refusal, Why, refuse};

// A message id and a package id: one never stands in for the other.
#[derive(Clone, Copy, PartialEq, Eq)]
pub struct Mdid(pub u32);

#[derive(Clone, Copy, PartialEq, Eq)]
pub struct Pdid(pub u32);

// The numbers of a header that passes checks 1 to 7; `flags` is bits 7 to 0, and `run` how long the option run is.
#[derive(Clone, Copy, PartialEq, Eq)]
pub struct Header {
    pub words: u8,
    pub flags: u8,
    pub id: Mdid,
    pub sequence: u32,
    pub length: u32,
    pub seconds: u32,
    pub nanos: u32,
    pub run: usize,
}

// A package: its data are the run's bytes from `from` to `to`, and the next one begins at `next`.
#[derive(Clone, Copy, PartialEq, Eq)]
pub struct Package {
    pub id: Pdid,
    pub length: u16,
    pub status: u8,
    pub delta: u32,
    pub from: usize,
    pub to: usize,
    pub next: usize,
}

// A message: its payload is the recording's bytes from `payload` to `next`, where the next message begins, and holds `packages` packages.
#[derive(Clone, Copy, PartialEq, Eq)]
pub struct Message {
    pub header: Header,
    pub payload: usize,
    pub next: usize,
    pub packages: usize,
}

// How many messages and packages a recording has.
#[derive(Clone, Copy, PartialEq, Eq)]
pub struct Counts {
    pub messages: usize,
    pub packages: usize,
}

// The numbers of a header that checks 1 to 6 test. The others are read once these and check 7 have passed.
#[derive(Clone, Copy)]
struct Tested {
    version: u8,
    words: u8,
    kind: u8,
    size: u32,
    nanos: u32,
}

#[tactic(auto, unfolding(rules::specs::Message::head))]
fn tested_in(m: &[u8]) -> Tested
    ensures { result ≡ spec.tested_in (rule.head m.now) }
{
    let first = wire::byte_at(m, 0);
    let second = wire::byte_at(m, 1);
    let size = wire::word_at(m, 12);
    let nanos = wire::word_at(m, 20);
    Tested {
        version: first / 16,
        words: first % 16,
        kind: second % 16,
        size,
        nanos,
    }
}

// Where the payload begins.
fn payload_start(words: u8) -> usize
    ensures { (result ≡ 24 + 4 * words) × (result < 2048) }
{
    24 + 4 * words as usize
}

// Checks 1 to 6 of the message at the start of m, which stands at place p.
fn checks_one_to_six(m: &[u8], h: Tested, p: usize) -> Result<(), Refusal>
    ensures { outcome_of result ≡ rule.checks_one_to_six p m.now (spec.head_of h) }
{
    if m.len() < 24 {
        return refuse(Why::Short, p);
    }
    if h.version != 1 {
        return refuse(Why::Version, p);
    }
    if h.kind != 0 {
        return refuse(Why::Kind, p);
    }
    let size = h.size as usize;
    if size < payload_start(h.words) {
        return refuse(Why::Length, p);
    }
    if size % 4 != 0 {
        return refuse(Why::Length, p);
    }
    if m.len() < size {
        return refuse(Why::Cut, p);
    }
    if 999999999 < h.nanos {
        return refuse(Why::Time, p);
    }
    Ok(())
}

// Whether an option of kind k, 0x80 or above, may have n bytes. Here and for a second option each test is a branch of its own: of a `match` the compiler
// made choices among numbers, for which the next option waited, and a run of small options took half as long again.
#[tactic(auto, unfolding(rules::specs::Options::length_allowed))]
fn length_allowed(k: u8, n: u8) -> bool
    ensures { result ≡ options.length_allowed k n }
{
    if n < 2 {
        return false;
    }
    if 60 < n {
        return false;
    }
    if k < 0x82 {
        return true;
    }
    if k <= 0x84 {
        if n < 3 {
            return false;
        }
        return n <= 32;
    }
    if k == 0x85 {
        if n == 6 {
            return true;
        }
        return n == 18;
    }
    if k <= 0x87 {
        return n == 6;
    }
    true
}

// What stands at the start of option bytes: the end of the options, an option with its size, or none that keeps the rules.
#[derive(Clone, Copy)]
enum Opt {
    Ends,
    Takes(usize),
    Bad,
}

#[tactic(auto, unfolding(crate::specs::Answers::option_here, rules::specs::Options::option_fits, rules::specs::Options::option_size))]
fn option_here(o: &[u8]) -> Opt
    ensures { result ≡ spec.option_here o.now }
{
    let k = wire::byte_at(o, 0);
    if k == 0 {
        return Opt::Ends;
    }
    if k < 0x80 {
        return Opt::Takes(1);
    }
    let n = wire::byte_at(o, 1);
    if !length_allowed(k, n) {
        return Opt::Bad;
    }
    let size = n as usize;
    if o.len() < size {
        return Opt::Bad;
    }
    Opt::Takes(size)
}

// Whether an option of kind 0x86, and one of kind 0x87, has been seen.
#[derive(Clone, Copy)]
struct Seen {
    offset: bool,
    count: bool,
}

// Whether an option of kind k would be a second one.
#[tactic(auto, unfolding(crate::specs::Answers::second_by))]
fn is_second(seen: Seen, k: u8) -> bool
    ensures { result ≡ spec.second_by seen k }
{
    if k == 0x86 {
        return seen.offset;
    }
    if k == 0x87 {
        return seen.count;
    }
    false
}

// With an option of kind k.
#[tactic(auto, unfolding(crate::specs::Answers::with_kind))]
fn with_kind(seen: Seen, k: u8) -> Seen
    ensures { result ≡ spec.with_kind seen k }
{
    if k == 0x86 {
        return Seen {
            offset: true,
            ..seen
        };
    }
    if k == 0x87 {
        return Seen {
            count: true,
            ..seen
        };
    }
    seen
}

// What stands at the start of option bytes, behind those seen: a second 0x86 or 0x87 keeps the rules no more than an option with a bad length.
#[tactic(auto, unfolding(crate::specs::Answers::option_next))]
fn option_next(o: &[u8], seen: Seen) -> Opt
    ensures { result ≡ spec.option_next seen o.now }
{
    let second = is_second(seen, wire::byte_at(o, 0));
    match option_here(o) {
        Opt::Takes(n) => {
            if second {
                return Opt::Bad;
            }
            Opt::Takes(n)
        }
        Opt::Ends => Opt::Ends,
        Opt::Bad => Opt::Bad,
    }
}

// How long the option run of the option bytes o is, which stand at place p: check 7.
fn run_of(o: &[u8], p: usize) -> Result<usize, Refusal>
    requires { p + length o.now < 4294967296 }
    ensures { outcome_of result ≡ options.option_run_from [] 0 p 0 o.now }
{
    let mut i = 0;
    let mut seen = Seen {
        offset: false,
        count: false,
    };
    while i < o.len() {
        match option_next(&o[i..], seen) {
            Opt::Takes(n) => {
                seen = with_kind(seen, wire::byte_at(o, i));
                i += n;
            }
            Opt::Ends => {
                return Ok(i);
            }
            Opt::Bad => {
                return refuse(Why::Option, p + i);
            }
        }
    }
    Ok(i)
}

// How far the option at the start of o reaches, by its length alone: one byte at least.
#[tactic(auto, unfolding(crate::specs::Answers::option_step, rules::specs::Options::option_size))]
fn option_step(o: &[u8]) -> usize
    ensures { (result ≡ spec.option_step o.now) × (result < 257) }
{
    if wire::byte_at(o, 0) < 0x80 {
        return 1;
    }
    let n = wire::byte_at(o, 1) as usize;
    if n == 0 {
        return 1;
    }
    n
}

// The number of packages that an option run says, if it has an option 0x87.
fn count_said(o: &[u8]) -> Option<u32>
    ensures { option_of result ≡ options.count_said o.now }
{
    let mut i = 0;
    while i < o.len() {
        let rest = &o[i..];
        if wire::byte_at(rest, 0) == 0x87 {
            return Some(wire::word_at(rest, 2));
        }
        i += option_step(rest);
    }
    None
}

// Checks 1 to 7 of the message at the start of m, which stands at place p: how long its option run is.
fn checks_one_to_seven(m: &[u8], h: Tested, p: usize) -> Result<usize, Refusal>
    requires { p + length m.now < 4294967296 }
    ensures { outcome_of result ≡ rule.option_run_length p m.now (spec.head_of h) }
{
    checks_one_to_six(m, h, p)?;
    let e = payload_start(h.words);
    run_of(&m[24..e], p + 24)
}

// The same by the message's own numbers, of which none is read where m has fewer than 24 bytes.
fn run_here(m: &[u8], p: usize) -> Result<usize, Refusal>
    requires { p + length m.now < 4294967296 }
    ensures { outcome_of result ≡ rule.option_run_length p m.now (rule.head m.now) }
{
    if m.len() < 24 {
        return refuse(Why::Short, p);
    }
    let h = tested_in(m);
    checks_one_to_seven(m, h, p)
}

fn no_header() -> Header
    ensures { result ≡ spec.no_header }
{
    Header {
        words: 0,
        flags: 0,
        id: Mdid(0),
        sequence: 0,
        length: 0,
        seconds: 0,
        nanos: 0,
        run: 0,
    }
}

// The numbers of the header at the start of m, with an option run of so many bytes, and zeros where m has fewer than 24 bytes. A header is read where
// it stands, by whoever needs its numbers, and is never handed on in memory.
#[tactic(auto, unfolding(crate::specs::Answers::header_of, rules::specs::Message::head))]
fn header_of(m: &[u8], run: usize) -> Header
    ensures { result ≡ spec.header_of m.now run }
{
    if m.len() < 24 {
        return no_header();
    }
    Header {
        words: wire::byte_at(m, 0) % 16,
        flags: wire::byte_at(m, 3),
        id: Mdid(wire::word_at(m, 4)),
        sequence: wire::word_at(m, 8),
        length: wire::word_at(m, 12),
        seconds: wire::word_at(m, 16),
        nanos: wire::word_at(m, 20),
        run,
    }
}

// The same for the header at place `at`.
pub fn header_in(s: &[u8], at: usize, run: usize) -> Header
    ensures { result ≡ spec.header_in s.now at run }
{
    if s.len() < at {
        return no_header();
    }
    header_of(&s[at..], run)
}

// 1 where there are bytes between a and e, and 0 otherwise.
#[tactic(auto, unfolding(crate::specs::Answers::one_if_bytes))]
fn one_if_bytes(a: usize, e: usize) -> u8
    ensures { result ≡ spec.one_if_bytes a e }
{
    u8::from(a < e)
}

// Checks 8 and 9 of a message at place p with this header: its payload has bytes where it ends behind its beginning.
fn checks_eight_and_nine(h: Header, p: usize) -> Result<(), Refusal>
    ensures { outcome_of result ≡ spec.eight_and_nine p (spec.head_of_header h) }
{
    if h.flags / 16 % 4 != 0 {
        return refuse(Why::Fragment, p);
    }
    let a = payload_start(h.words);
    let e = h.length as usize;
    if h.flags / 128 % 2 != one_if_bytes(a, e) {
        return refuse(Why::Standard, p);
    }
    Ok(())
}

// Checks 12 and 1 to 7 of the message at place `at` of a recording, and 8 and 9 if they are wanted: how long its option run is.
fn checked_run(s: &[u8], at: usize, nine: bool) -> Result<usize, Refusal>
    ensures { outcome_of result ≡ spec.checked_run s.now at nine }
{
    if 65536 < s.len() {
        return refuse(Why::Large, 65536);
    }
    if s.len() < at {
        return refuse(Why::Short, at);
    }
    let m = &s[at..];
    let run = run_here(m, at)?;
    if nine {
        checks_eight_and_nine(header_of(m, run), at)?;
    }
    Ok(run)
}

// The header of the message at the start of s. It is part of its callers, so that no header is handed on in memory.
#[inline(always)]
pub fn read_header(s: &[u8]) -> Result<Header, Refusal>
    ensures { spec.told_header result ≡ reading.header s.now }
{
    let run = checked_run(s, 0, false)?;
    Ok(header_of(s, run))
}

// Its option run, as a part of s; empty where the header is refused.
pub fn option_run(s: &[u8]) -> &[u8]
    ensures { (result.now ≡ reading.option_run s.now) × spec.PartOf s.entry (reading.option_start s.now) result }
{
    match read_header(s) {
        Ok(h) => {
            let e = 24 + h.run;
            &s[24..e]
        }
        Err(_) => &s[0..0],
    }
}

fn round_up(n: usize) -> usize
    requires { n < 4294967296 }
    ensures { result ≡ (n + 3) / 4 * 4 }
{
    (n + 3) / 4 * 4
}

// How many bytes the package at the start of s takes with its padding, if one that keeps the rules stands there.
#[tactic(auto, unfolding(crate::specs::Answers::piece_here, rules::specs::Packages::package_fits))]
fn piece_here(s: &[u8]) -> Option<usize>
    ensures { result ≡ spec.piece_here s.now }
{
    if s.len() < 12 {
        return None;
    }
    let l = wire::half_at(s, 4) as usize;
    if l < 12 {
        return None;
    }
    let size = round_up(l);
    if s.len() < size {
        return None;
    }
    Some(size)
}

// The package at place `at` of a run; none stands at its end.
pub fn package_at(s: &[u8], at: usize) -> Result<Option<Package>, Refusal>
    ensures { spec.told_package result ≡ walks.package_at s.now at }
{
    if 65536 < s.len() {
        return refuse(Why::Large, 65536);
    }
    if s.len() <= at {
        return Ok(None);
    }
    let c = &s[at..];
    let Some(size) = piece_here(c) else {
        return refuse(Why::Package, at);
    };
    let id = Pdid(wire::word_at(c, 0));
    let length = wire::half_at(c, 4);
    let status = wire::byte_at(c, 7);
    let delta = wire::word_at(c, 8);
    let from = at + 12;
    let to = at + length as usize;
    let next = at + size;
    Ok(Some(Package {
        id,
        length,
        status,
        delta,
        from,
        to,
        next,
    }))
}

// The time of a package in nanoseconds.
pub fn package_time(seconds: u32, nanos: u32, delta: u32) -> u64
    ensures { result ≡ package_time seconds nanos delta }
{
    (seconds as u64) * 1000000000 + (nanos as u64) + (delta as u64)
}

// How many packages the payload q holds, which stands at place p: check 10. It goes by what is left of q: each package waits for the length of the one
// before it, and is read a step sooner where it begins than at a place behind where q begins.
fn packages_of(q: &[u8], p: usize) -> Result<usize, Refusal>
    requires { p + length q.now < 4294967296 }
    ensures { outcome_of result ≡ spec.cut_count p q.now }
{
    let mut rest = q;
    let mut n = 0;
    while 0 < rest.len() {
        let Some(k) = piece_here(rest) else {
            return refuse(Why::Package, p + (q.len() - rest.len()));
        };
        rest = &rest[k..];
        n += 1;
    }
    Ok(n)
}

// Whether an option run says another number of packages.
pub fn miscounts(run: &[u8], packages: usize) -> bool
    ensures { result ≡ options.differs (options.count_said run.now) packages }
{
    match count_said(run) {
        Some(said) => said as usize != packages,
        None => false,
    }
}

// Check 10 and COUNT of the message at the start of m, which stands at place p and has this header.
fn checks_from_ten(m: &[u8], h: Header, p: usize) -> Result<Message, Refusal>
    requires { spec.Opened m.now h p }
    ensures { spec.told_message result ≡ spec.spot_behind_run p m.now (spec.head_of_header h) h.run }
{
    let a = payload_start(h.words);
    let e = h.length as usize;
    let packages = packages_of(&m[a..e], p + a)?;
    let end = 24 + h.run;
    if miscounts(&m[24..end], packages) {
        return refuse(Why::Count, p);
    }
    Ok(Message {
        header: h,
        payload: p + a,
        next: p + e,
        packages,
    })
}

// Whether the message at the start of m, which stands at place p, has no options and passes checks 1 to 9: so do nearly all.
fn is_plain(m: &[u8], p: usize) -> bool
    ensures { result ≡ true → rule.checks_one_to_nine p m.now (rule.head m.now) ≡ good 0 }
{
    if m.len() < 24 {
        return false;
    }
    let h = tested_in(m);
    if h.words != 0 {
        return false;
    }
    if checks_one_to_six(m, h, p).is_err() {
        return false;
    }
    checks_eight_and_nine(header_of(m, 0), p).is_ok()
}

// The same for the message at place `at` of a recording that is not too large.
fn plain_at(s: &[u8], at: usize) -> bool
    ensures { result ≡ true → spec.front_run s.now at ≡ good 0 }
{
    if 65536 < s.len() {
        return false;
    }
    if s.len() < at {
        return false;
    }
    is_plain(&s[at..], at)
}

// How long the option run of the message at place `at` of a recording is, which is checked but for its packages: 12 and 1 to 9. A plain message needs
// no call.
pub fn front_run(s: &[u8], at: usize) -> Result<usize, Refusal>
    ensures { outcome_of result ≡ spec.front_run s.now at }
{
    if plain_at(s, at) {
        return Ok(0);
    }
    // The answer is taken apart, so that that of a plain message stays in registers.
    Ok(checked_run(s, at, true)?)
}

// The header of the message at place `at` of a recording, which is checked so.
pub fn front_at(s: &[u8], at: usize) -> Result<Header, Refusal>
    ensures { spec.told_header result ≡ spec.front_at s.now at }
{
    let run = front_run(s, at)?;
    Ok(header_in(s, at, run))
}

// The message at place `at` of a recording.
pub fn message_at(s: &[u8], at: usize) -> Result<Message, Refusal>
    ensures { spec.told_message result ≡ reading.message_at s.now at }
{
    let run = if plain_at(s, at) {
        0
    } else {
        checked_run(s, at, true)?
    };
    let h = header_in(s, at, run);
    checks_from_ten(&s[at..], h, at)
}

// Where a message that passes every check ends, and how many packages it holds, once checks 1 to 9 have passed, as in `checks_from_ten`. Only `span_at` calls it, so that the compiler makes it part of the loop over a
// recording, and what it says stays in registers.
fn span_from_ten(m: &[u8], h: Header, p: usize) -> Result<(usize, usize), Refusal>
    requires { spec.Opened m.now h p }
    ensures { outcome_of result ≡ spec.span_of (spec.spot_behind_run p m.now (spec.head_of_header h) h.run) }
{
    let from = payload_start(h.words);
    let to = h.length as usize;
    let packages = packages_of(&m[from..to], p + from)?;
    let behind = 24 + h.run;
    if miscounts(&m[24..behind], packages) {
        return refuse(Why::Count, p);
    }
    Ok((p + to, packages))
}

// The span of the message at place `at` of a recording. As `message_at` it calls `checked_run` itself, which then stays a function by itself in every
// program that has `check` and `front_run`, so that these become part of their callers' loops. Its refusal is passed on by a `match`: with `?` the
// compiler laid out the loop otherwise, and recordings of small messages took up to 1.6 times the time.
fn span_at(s: &[u8], at: usize) -> Result<(usize, usize), Refusal>
    ensures { outcome_of result ≡ spec.span_of (reading.message_at s.now at) }
{
    let run = if plain_at(s, at) {
        0
    } else {
        match checked_run(s, at, true) {
            Ok(n) => n,
            Err(r) => {
                return Err(r);
            }
        }
    };
    let head = header_in(s, at, run);
    span_from_ten(&s[at..], head, at)
}

// How many messages and packages a recording has.
pub fn check(s: &[u8]) -> Result<Counts, Refusal>
    ensures { spec.told_check result ≡ reading.checked_recording s.now }
{
    if 65536 < s.len() {
        return refuse(Why::Large, 65536);
    }
    let mut i = 0;
    let mut messages = 0;
    let mut packages = 0;
    while i < s.len() {
        let (next, many) = span_at(s, i)?;
        i = next;
        messages += 1;
        packages += many;
    }
    Ok(Counts { messages, packages })
}

// How long the run of a bare list of options is: LARGE, then check 7 with places in the list.
pub fn option_run_length(o: &[u8]) -> Result<usize, Refusal>
    ensures { outcome_of result ≡ runs.options_of o.now }
{
    if 65536 < o.len() {
        return refuse(Why::Large, 65536);
    }
    run_of(o, 0)
}

// How many packages a bare run holds: LARGE, then check 10 with places in the run.
pub fn count_packages(q: &[u8]) -> Result<usize, Refusal>
    ensures { outcome_of result ≡ runs.cut_of q.now }
{
    if 65536 < q.len() {
        return refuse(Why::Large, 65536);
    }
    packages_of(q, 0)
}
