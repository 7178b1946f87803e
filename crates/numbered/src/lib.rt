// The copy of an input's messages, numbered on from ids and numbers that are lent: the first so many messages or all there are, measured alone or
// measured and then written. The single copy and the step are both uses of it. Measuring goes over the messages once and finds every refusal but
// ROOM; writing goes over them once more.
#![tactic(auto)]

ghost use Rattle.std.specs.Prelude.{◌≡◌, [], false, ◌+◌, ◌-◌, ◌*◌, ◌%◌, ◌^◌, ◌≤◌, ◌<◌, ltb, length, get_or, take, drop, MatchResult};
ghost use Rattle.std.proofs.lemmas.List.Edits.{sets};
ghost use Rattle.rules.specs.Bytes.{put32};
ghost use Rattle.rules.specs.Items.{count};
ghost use Rattle.message.specs.Answers.{payload_from, next_from};
ghost use Rattle.sheet.specs.Table.{rows_in};
ghost use Rattle.numbered.specs.Quota.{bad_ids, some_twice, settled, measured_ids, shorter, most_in};
ghost use Rattle.numbered.specs.Parts.{message_by, WalkedOver, finished, Took, with_package, with_entry, Placed, piece_as, Stored, StoredRun, picked, head_bytes, Place, Sees, slot_of, held_with, number_at, Ready, Delivered, Roomy, Wrote, Tells, Marked, Single, Seated, judged_as, known_of, room_of, Most, refused_ids, Opens, Shut, answered};
ghost use Rattle.numbered.specs.Told.{progress, told_measure, measured, Counts, MarkedBy, state_of, told, told_ids, MeasuredIds, Copied};

use message::{
    Header, Message, Package, front_run, header_in, miscounts, package_at, package_time,
};
use refusal::{Refusal, Why, refuse};
use sheet::{near_grants, near_rows, read_table, source_of};
use wire::{bit_at, put_bit, put_byte, put_part, put_word, word_at};

// The granted packages of a message: how many, and the bytes that they take.
#[derive(Clone, Copy)]
struct Size {
    bytes: usize,
    packages: usize,
}

// One package more, of n bytes, if it is granted.
fn with_package(s: Size, n: usize, granted: bool) -> Size
    requires { (s.bytes ≤ 65536) × (s.packages ≤ 65536) × (n ≤ 65536) }
    ensures { result ≡ with_package s n granted }
{
    if granted {
        return Size {
            bytes: s.bytes + n,
            packages: s.packages + 1,
        };
    }
    s
}

// A walk over the packages of a run: what is granted of them, how many there are, and the place behind the last.
#[derive(Clone, Copy)]
struct Walked {
    size: Size,
    all: usize,
    end: usize,
}

// Walks over the packages of a run, to its end or to a place where no package stands. Of each it marks whether it is granted, so that nobody asks again:
// the first has the mark `first`. Only the rows that can grant something in this message are asked, which `near` is lent for. It goes by what is left of the
// run, as `message::count_packages` does.
fn measure_packages(
    run: &[u8],
    h: Header,
    table: &[u64],
    near: &mut [u64; 128],
    marks: &mut [u8; 683],
    first: usize,
) -> Walked
    requires { (12 * first + length run.now ≤ 65536) × (length table.now ≤ 224) }
    ensures { WalkedOver (rows_in table.now) (message_by h) run.now marks.old marks.new first result }
{
    let many = near_rows(table, source_of(h), near);
    let mut size = Size {
        bytes: 0,
        packages: 0,
    };
    let mut all = 0;
    let mut rest = run;
    while 0 < rest.len() {
        let Ok(Some(p)) = package_at(rest, 0) else {
            let end = run.len() - rest.len();
            return Walked { size, all, end };
        };
        let next = p.next;
        let id = p.id;
        let time = package_time(h.seconds, h.nanos, p.delta);
        let granted = near_grants(&near[..many], id, time);
        put_bit(marks, first + all, granted);
        size = with_package(size, next, granted);
        all += 1;
        rest = &rest[next..];
    }
    let end = run.len();
    Walked { size, all, end }
}

// The checks that are left once the packages of a message were walked over: that they fill its payload, and are as many as it says. Beside a message
// that passes stands what is granted of it.
fn finish_message(input: &[u8], at: usize, h: Header, w: Walked) -> Result<(Message, Size), Refusal>
    requires { (length input.now ≤ 65536) × (payload_from at h ≤ next_from at h) × (next_from at h ≤ length input.now) × (at + 24 + h.run ≤ length input.now) × (w.end ≤ 65536) }
    ensures { result ≡ finished input.now at h w }
{
    let payload = at + (24 + 4 * h.words as usize);
    let next = at + h.length as usize;
    if w.end < next - payload {
        return refuse(Why::Package, payload + w.end);
    }
    let from = at + 24;
    let to = from + h.run;
    if miscounts(&input[from..to], w.all) {
        return refuse(Why::Count, at);
    }
    let size = w.size;
    let message = Message {
        header: h,
        payload,
        next,
        packages: w.all,
    };
    Ok((message, size))
}

// The message at place `at` of an input: checked and measured in one walk over its packages.
fn take_message(
    input: &[u8],
    at: usize,
    table: &[u64],
    near: &mut [u64; 128],
    marks: &mut [u8; 683],
    first: usize,
) -> Result<(Message, Size), Refusal>
    requires { (length input.now ≤ 65536) × (12 * first ≤ at) × (length table.now ≤ 224) }
    ensures { Took (rows_in table.now) input.now at marks.old marks.new first result }
{
    let run = front_run(input, at)?;
    let h = header_in(input, at, run);
    let from = at + (24 + 4 * h.words as usize);
    let next = at + h.length as usize;
    let walked = measure_packages(&input[from..next], h, table, near, marks, first);
    finish_message(input, at, h, walked)
}

// What the copy takes so far.
#[derive(Clone, Copy)]
struct Totals {
    bytes: usize,
    messages: usize,
    packages: usize,
}

// One message more, if it has a granted package.
fn with_entry(t: Totals, s: Size) -> Totals
    requires { (t.bytes ≤ 65536) × (t.messages ≤ 65536) × (t.packages ≤ 65536) × (s.bytes ≤ 65536) × (s.packages ≤ 65536) }
    ensures { result ≡ with_entry t s }
{
    if s.packages == 0 {
        return t;
    }
    Totals {
        bytes: t.bytes + 24 + s.bytes,
        messages: t.messages + 1,
        packages: t.packages + s.packages,
    }
}

// What is taken from the input, messages and bytes, and what is written.
#[derive(Clone, Copy)]
pub struct Progress {
    pub handled: usize,
    pub consumed: usize,
    pub bytes: usize,
    pub messages: usize,
    pub packages: usize,
}

// Where an id stands among ids that are all different, or how many they are.
fn place_of(ids: &[u32], id: u32) -> usize
    requires { (length ids.now ≤ 65536) × (count id ids.now ≤ 1) }
    ensures { Place ids.now id result }
{
    // How many stand from the id on: a sum, which no test ends early, so that several ids are compared at once.
    let mut behind: u32 = 0;
    let mut left = ids.len() as u32;
    for other in ids {
        if *other == id {
            behind += left;
        }
        left -= 1;
    }
    ids.len() - behind as usize
}

// What is taken so far, and what it takes.
fn taken_with(handled: usize, consumed: usize, t: Totals) -> Progress
    ensures { result ≡ progress handled consumed t }
{
    Progress {
        handled,
        consumed,
        bytes: t.bytes,
        messages: t.messages,
        packages: t.packages,
    }
}

// How many fresh ids the messages so far brought, and the place of the message that brought the last of them.
#[derive(Clone, Copy)]
struct Seats {
    many: usize,
    over: usize,
}

// The ids with that of the message at place k: one that is neither known nor among the fresh ones goes behind those, if there is room for it.
// Where there is room for more than 64, there is room for all, and nothing is counted.
fn seat(
    known: &[u32],
    fresh: &mut [u32; 64],
    seats: Seats,
    room: usize,
    id: u32,
    packages: usize,
    k: usize,
) -> Seats
    requires { (length known.now ≤ 65536) × (count id known.now ≤ 1) × (room ≤ 64 → seats.many ≤ room → count id (take seats.many fresh.old) ≤ 1) }
    ensures { Seated known.now fresh.old fresh.new seats result room id packages k }
{
    if packages == 0 {
        return seats;
    }
    if 64 < room {
        return seats;
    }
    let many = seats.many;
    if room < many {
        return seats;
    }
    if place_of(known, id) < known.len() {
        return seats;
    }
    if place_of(&fresh[..many], id) < many {
        return seats;
    }
    if many < room {
        fresh[many] = id;
    }
    Seats {
        many: many + 1,
        over: k,
    }
}

// What measuring comes to, and how many fresh ids it brought.
#[derive(Clone, Copy)]
struct Counted {
    progress: Progress,
    many: usize,
}

// The answer once all is measured: the ids are too many, or all is done.
fn judged(progress: Progress, seats: Seats, room: usize) -> Result<Counted, Refusal>
    ensures { result ≡ judged_as progress seats room }
{
    let many = seats.many;
    if room < many {
        return refuse(Why::Ids, seats.over);
    }
    Ok(Counted { progress, many })
}

// What the copy of the messages within the quota takes under the rows of a table, where these ids are known and there is room for so many more; or why it is
// refused. The ids that are not known are gathered in `fresh`, and `marks` tell of each package whether it is granted.
fn count_messages(
    input: &[u8],
    table: &[u64],
    quota: usize,
    known: &[u32],
    room: usize,
    fresh: &mut [u32; 64],
    marks: &mut [u8; 683],
) -> Result<Counted, Refusal>
    requires { (length known.now ≤ 65536) × Single known.now × (64 < room → 1820 ≤ room) × (length table.now ≤ 224) × Tells marks.old [] }
    ensures { Counts (rows_in table.now) input.now quota known.now room fresh.new marks.new result }
{
    if 65536 < input.len() {
        return refuse(Why::Large, 65536);
    }
    // Room for all 32 rows of a sheet, four numbers each.
    let mut near = [0u64; 128];
    let mut seats = Seats { many: 0, over: 0 };
    let mut totals = Totals {
        bytes: 0,
        messages: 0,
        packages: 0,
    };
    let mut handled = 0;
    let mut at = 0;
    let mut passed = 0;
    while at < input.len() {
        if handled == quota {
            return judged(taken_with(handled, at, totals), seats, room);
        }
        let (m, size) = take_message(input, at, table, &mut near, marks, passed)?;
        let h = m.header;
        totals = with_entry(totals, size);
        seats = seat(known, fresh, seats, room, h.id.0, size.packages, at);
        handled += 1;
        at = m.next;
        passed += m.packages;
    }
    judged(taken_with(handled, at, totals), seats, room)
}

// The same, without the fresh ids.
fn measure_messages(
    input: &[u8],
    table: &[u64],
    quota: usize,
    known: &[u32],
    room: usize,
    marks: &mut [u8; 683],
) -> Result<Progress, Refusal>
    requires { (length known.now ≤ 65536) × Single known.now × (64 < room → 1820 ≤ room) × (length table.now ≤ 224) × Tells marks.old [] }
    ensures { (told_measure result ≡ measured (rows_in table.now) input.now quota known.now room) × MarkedBy (rows_in table.now) input.now quota marks.new result }
{
    let mut fresh = [0u32; 64];
    let counted = count_messages(input, table, quota, known, room, &mut fresh, marks)?;
    Ok(counted.progress)
}

// Stores two words, one behind the other.
fn put_words(out: &mut [u8], at: usize, first: u32, second: u32)
    requires { at ≤ 262144 }
    ensures { out.new ≡ sets out.old at (put32 first (put32 second [])) }
{
    put_word(out, at, first);
    put_word(out, at + 4, second);
}

// Stores package p, which stands at the start of a run, from `at` on, reserved byte and padding zero.
fn write_package(run: &[u8], p: Package, out: &mut [u8], at: usize)
    requires { (at ≤ 262144) × Placed run.now p }
    ensures { out.new ≡ sets out.old at (piece_as run.now p) }
{
    let content = p.to;
    let size = p.next;
    // The last word is stored as zeros first: what the package's own bytes leave of it is the padding, and no branch asks how long that is. The first
    // word is stored by itself: stored with the others, a package without data took half as long again.
    put_word(out, at + (size - 4), 0);
    put_word(out, at, word_at(run, 0));
    put_part(out, at + 4, run, 4, content - 4);
    put_byte(out, at + 6, 0);
}

// Stores it, if it is granted, and says where the next one goes.
fn write_granted(run: &[u8], p: Package, granted: bool, out: &mut [u8], at: usize) -> usize
    requires { (at ≤ 196608) × Placed run.now p }
    ensures { Stored out.old out.new at result granted (piece_as run.now p) p.next }
{
    if granted {
        write_package(run, p, out, at);
        return at + p.next;
    }
    at
}

// The packages of a run that were stored: the bytes that they take, and how many packages the run has.
#[derive(Clone, Copy)]
struct Kept {
    bytes: usize,
    all: usize,
}

// Stores the packages of a run that are marked, from `to` on: the first has the mark `first`.
fn write_packages(run: &[u8], marks: &[u8], first: usize, out: &mut [u8], to: usize) -> Kept
    requires { (length run.now ≤ 65536) × (first ≤ 65536) × (to ≤ 131072) }
    ensures { StoredRun (picked marks.now first) run.now out.old out.new to result }
{
    let mut end = to;
    let mut all = 0;
    let mut rest = run;
    while 0 < rest.len() {
        let Ok(Some(p)) = package_at(rest, 0) else {
            return Kept {
                bytes: end - to,
                all,
            };
        };
        let behind = p.next;
        end = write_granted(rest, p, bit_at(marks, first + all), out, end);
        all += 1;
        rest = &rest[behind..];
    }
    Kept {
        bytes: end - to,
        all,
    }
}

// One id more is held, if it has the place behind those held.
fn held_with(held: usize, place: usize) -> usize
    requires { held ≤ 65536 }
    ensures { result ≡ held_with held place }
{
    if place == held {
        return held + 1;
    }
    held
}

// Stores the header of a message of the copy.
fn write_head(out: &mut [u8], at: usize, h: Header, sequence: u32, size: u32)
    requires { at ≤ 65536 }
    ensures { out.new ≡ sets out.old at (head_bytes h sequence size) }
{
    // Version 1 and no options, two zeros and the flags are the first word.
    let flags = 192 + h.flags / 2 % 8 * 2;
    put_words(out, at, 0x10_00_00_00 + flags as u32, h.id.0);
    put_words(out, at + 8, sequence, size);
    put_words(out, at + 16, h.seconds, h.nanos);
}

// Where the copy ends so far, and how many ids it has delivered.
#[derive(Clone, Copy)]
struct Reached {
    to: usize,
    held: usize,
}

// The number that the id at this place gets next: 0 for a new one.
fn number_at(next: &[u32], place: usize, held: usize) -> u32
    requires { (place ≤ held) × (held ≤ length next.now) }
    ensures { result ≡ number_at next.now place held }
{
    if place == held {
        return 0;
    }
    next[place]
}

// The number behind n, modulo 2^32.
fn one_on(n: u32) -> u32
    ensures { result ≡ (n + 1) % 2 ^ 32 }
{
    n.wrapping_add(1)
}

// An id's place among the bits that tell which ids may be held.
fn slot_of(id: u32) -> usize
    ensures { result ≡ slot_of id }
{
    id as usize % 4096
}

// Where an id stands among those held, or how many they are: where its bit is not set it is new, and nothing is searched.
fn place_seen(ids: &[u32], seen: &[u8], id: u32) -> usize
    requires { (length ids.now ≤ 65536) × (count id ids.now ≤ 1) × Sees seen.now ids.now }
    ensures { Place ids.now id result }
{
    if bit_at(seen, slot_of(id)) {
        return place_of(ids, id);
    }
    ids.len()
}

// Sets the bits of ids.
fn see(ids: &[u32], seen: &mut [u8; 512])
    requires { Sees seen.old [] }
    ensures { Sees seen.new ids.now }
{
    for id in ids {
        put_bit(seen, slot_of(*id), true);
    }
}

// Ends a message whose granted packages are stored, in so many bytes: stores its header before them, if there is one.
fn deliver(
    out: &mut [u8],
    h: Header,
    bytes: usize,
    ids: &mut [u32],
    next: &mut [u32],
    seen: &mut [u8; 512],
    done: Reached,
) -> Reached
    requires { (done.to + (24 + bytes) ≤ 65536) × ((bytes ≡ 0 → ⊥) → Ready ids.old next.old seen.old done.held h.id.0) }
    ensures { Delivered h bytes out.old out.new ids.old ids.new next.old next.new seen.old seen.new done result }
{
    if bytes == 0 {
        return done;
    }
    let size = 24 + bytes;
    let held = done.held;
    let place = place_seen(&ids[..held], seen, h.id.0);
    let sequence = number_at(next, place, held);
    write_head(out, done.to, h, sequence, size as u32);
    ids[place] = h.id.0;
    next[place] = one_on(sequence);
    put_bit(seen, slot_of(h.id.0), true);
    Reached {
        to: done.to + size,
        held: held_with(held, place),
    }
}

// Writes the copy of a recording that passes, numbered on: of a message its packages first, behind the place of its header. It says how many ids are then held.
// Nothing is checked or asked again: the messages pass, `marks` tell what the table's rows grant, and the table is there for the promise alone, which
// says so. Of a message's option run, which its copy leaves out, nothing is needed.
fn write_messages(
    recording: &[u8],
    table: &[u64],
    marks: &[u8],
    ids: &mut [u32],
    next: &mut [u32],
    held: usize,
    out: &mut [u8],
) -> usize
    requires { (length recording.now ≤ 65536) × Roomy (rows_in table.now) recording.now ids.old next.old held × Marked (rows_in table.now) recording.now marks.now }
    ensures { Wrote (rows_in table.now) recording.now ids.old ids.new next.old next.new held result out.old out.new }
{
    // A bit for each slot, of which there are 4,096.
    let mut seen = [0u8; 512];
    see(&ids[..held], &mut seen);
    let mut reached = Reached { to: 0, held };
    let mut at = 0;
    let mut passed = 0;
    while at < recording.len() {
        let h = header_in(recording, at, 0);
        let from = at + (24 + 4 * h.words as usize);
        let behind = at + h.length as usize;
        let kept = write_packages(
            &recording[from..behind],
            marks,
            passed,
            out,
            reached.to + 24,
        );
        reached = deliver(out, h, kept.bytes, ids, next, &mut seen, reached);
        at = behind;
        passed += kept.all;
    }
    reached.held
}

// Whether the id at place i stands again behind it.
fn again(ids: &[u32], i: usize) -> bool
    requires { i < length ids.now }
    ensures { result ≡ ltb 0 (count (get_or ids.now i 0) (drop (i + 1) ids.now)) }
{
    ids[i + 1..].contains(&ids[i])
}

fn some_twice(ids: &[u32]) -> bool
    ensures { result ≡ some_twice ids.now }
{
    for i in 0..ids.len() {
        if again(ids, i) {
            return true;
        }
    }
    false
}

// Whether the first `held` of ids cannot be held: they are more than may be, or one of them stands twice. Measuring alone does not look at them.
#[tactic(auto, unfolding(crate::specs::Quota::bad_ids))]
fn bad_ids(ids: &[u32], held: usize, most: usize, measured: bool) -> bool
    requires { most ≤ length ids.now }
    ensures { result ≡ refused_ids measured most ids.now held }
{
    if measured {
        return false;
    }
    if most < held {
        return true;
    }
    some_twice(&ids[..held])
}

// The most ids that may be held in so many places.
fn most_in(places: usize, held: usize) -> usize
    ensures { result ≡ most_in places held }
{
    if held != 0 {
        return places.min(64);
    }
    if places < 1820 {
        return places.min(64);
    }
    1820
}

fn known_of(held: usize, measured: bool) -> usize
    ensures { result ≡ known_of measured held }
{
    if measured {
        return 0;
    }
    held
}

fn room_of(most: usize, held: usize, measured: bool) -> usize
    requires { measured ≡ false → held ≤ most }
    ensures { result ≡ room_of measured most held }
{
    if measured {
        return 1820;
    }
    most - held
}

// What a copy answers, and how many ids are then held: those that were, where it is refused.
#[derive(Clone, Copy)]
pub struct Numbered {
    pub answer: Result<Progress, Refusal>,
    pub held: usize,
}

// What is done, and how many ids are then held.
#[derive(Clone, Copy)]
struct Done {
    progress: Progress,
    held: usize,
}

fn answered(done: Result<Done, Refusal>, held: usize) -> Numbered
    ensures { result ≡ answered done held }
{
    match done {
        Ok(d) => Numbered {
            answer: Ok(d.progress),
            held: d.held,
        },
        Err(f) => Numbered {
            answer: Err(f),
            held,
        },
    }
}

// Reads a sheet into a table, where the ids can be held, and says where its rows end there.
fn read_rows(
    sheet: &[u8],
    table: &mut [u64; 224],
    ids: &[u32],
    held: usize,
    most: usize,
    measured: bool,
) -> Result<usize, Refusal>
    requires { most ≤ length ids.now }
    ensures { MatchResult result (λ end. Opens measured most ids.now held sheet.now table.new end) (λ f. Shut measured most ids.now held sheet.now f) }
{
    if bad_ids(ids, held, most, measured) {
        return refuse(Why::Ids, 0);
    }
    let n = read_table(sheet, table)?;
    Ok(7 * n)
}

// The copy under the rows of a sheet, with ids that can be held: all messages are measured before the first store.
fn copy_under(
    input: &[u8],
    table: &[u64],
    quota: usize,
    ids: &mut [u32],
    next: &mut [u32],
    held: usize,
    most: usize,
    out: &mut [u8],
    measured: bool,
) -> Result<Done, Refusal>
    requires { (refused_ids measured most ids.old held ≡ false) × Most (shorter (length ids.old) (length next.old)) held most × (length table.now ≤ 224) }
    ensures { Copied (rows_in table.now) measured most input.now quota (state_of ids.old next.old held) out.old (told (answered result held) ids.new next.new out.new) }
{
    let known = known_of(held, measured);
    let room = room_of(most, held, measured);
    // A bit for each package, of which an input has 5,461 at most.
    let mut marks = [0u8; 683];
    let progress = measure_messages(input, table, quota, &ids[..known], room, &mut marks)?;
    if measured {
        return Ok(Done { progress, held });
    }
    if out.len() < progress.bytes {
        return refuse(Why::Room, progress.bytes);
    }
    let consumed = progress.consumed;
    let after = write_messages(&input[..consumed], table, &marks, ids, next, held, out);
    Ok(Done {
        progress,
        held: after,
    })
}

// The copy, or why it is refused.
fn try_copy(
    input: &[u8],
    sheet: &[u8],
    quota: usize,
    ids: &mut [u32],
    next: &mut [u32],
    held: usize,
    out: &mut [u8],
    measured: bool,
) -> Result<Done, Refusal>
    ensures { told (answered result held) ids.new next.new out.new ≡ settled measured (most_in (shorter (length ids.old) (length next.old)) held) input.now sheet.now quota (state_of ids.old next.old held) out.old }
{
    let most = most_in(ids.len().min(next.len()), held);
    let mut table = [0u64; 224];
    let end = read_rows(sheet, &mut table, ids, held, most, measured)?;
    copy_under(
        input,
        &table[..end],
        quota,
        ids,
        next,
        held,
        most,
        out,
        measured,
    )
}

// The copy of the first `quota` messages of an input, or of all there are, under a sheet, into a buffer. The first `held` of ids are message ids, each
// once, and beside each in `next` stands the sequence number that its next message gets; both are kept true, and what is behind them stays.
// `measured` alone, nothing is stored, and neither ids nor room are looked at. One function for both: what is
// measured alone is what a copy measures first.
pub fn copy(
    input: &[u8],
    sheet: &[u8],
    quota: usize,
    ids: &mut [u32],
    next: &mut [u32],
    held: usize,
    out: &mut [u8],
    measured: bool,
) -> Numbered
    ensures { told result ids.new next.new out.new ≡ settled measured (most_in (shorter (length ids.old) (length next.old)) held) input.now sheet.now quota (state_of ids.old next.old held) out.old }
{
    let done = try_copy(input, sheet, quota, ids, next, held, out, measured);
    answered(done, held)
}

// Stores the first n of `fresh` behind the first `held` of ids.
fn put_behind(ids: &mut [u32], held: usize, fresh: &[u32], n: usize)
    requires { (held + n ≤ length ids.old) × (held + n ≤ 65536) × (n ≤ length fresh.now) }
    ensures { ids.new ≡ sets ids.old held (take n fresh.now) }
{
    ids[held..held + n].copy_from_slice(&fresh[..n]);
}

// Measured under the rows of a sheet, with ids that can be held.
fn measure_under(
    input: &[u8],
    table: &[u64],
    quota: usize,
    ids: &mut [u32],
    held: usize,
    most: usize,
) -> Result<Done, Refusal>
    requires { (bad_ids most ids.old held ≡ false) × (most ≤ 64) × (most ≤ length ids.old) × (length table.now ≤ 224) }
    ensures { MeasuredIds (rows_in table.now) most input.now quota ids.old held (told_ids (answered result held) ids.new) }
{
    let mut fresh = [0u32; 64];
    let mut marks = [0u8; 683];
    let counted = count_messages(
        input,
        table,
        quota,
        &ids[..held],
        most - held,
        &mut fresh,
        &mut marks,
    )?;
    put_behind(ids, held, &fresh, counted.many);
    Ok(Done {
        progress: counted.progress,
        held: held + counted.many,
    })
}

// What is measured, or why it is refused.
fn try_measure(
    input: &[u8],
    sheet: &[u8],
    quota: usize,
    ids: &mut [u32],
    held: usize,
) -> Result<Done, Refusal>
    ensures { told_ids (answered result held) ids.new ≡ measured_ids (shorter (length ids.old) 64) input.now sheet.now quota ids.old held }
{
    let most = ids.len().min(64);
    let mut table = [0u64; 224];
    let end = read_rows(sheet, &mut table, ids, held, most, false)?;
    measure_under(input, &table[..end], quota, ids, held, most)
}

// What a copy of the first `quota` messages reports where there is room for it, with the ids that are then held, 64 at most. Nothing is written, and
// no sequence number counted.
pub fn measure(input: &[u8], sheet: &[u8], quota: usize, ids: &mut [u32], held: usize) -> Numbered
    ensures { told_ids result ids.new ≡ measured_ids (shorter (length ids.old) 64) input.now sheet.now quota ids.old held }
{
    let done = try_measure(input, sheet, quota, ids, held);
    answered(done, held)
}
