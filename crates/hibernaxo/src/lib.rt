// The exports for C, Rust and Python: a function for each entry point that documents 01 and 02 name, over numbers, slices and arrays
// alone. Each but link_row, which refuses nothing, returns the refusal number, 0 for success, and stores place and values into a lent array on every call, the
// place first. The definitions ..Told say what comes back; include/hibernaxo.h says it to a caller.
#![tactic(auto)]

ghost use Rattle.std.specs.Prelude.{◌≡◌, refl, ℕ, List, [], ◌∷◌, map, ◌+◌, ◌-◌, ◌*◌, ◌≤◌, ◌<◌, length};
ghost use Rattle.std.proofs.lemmas.List.Edits.{sets};
ghost use Rattle.rules.specs.Bytes.{join};
ghost use Rattle.rules.specs.Reading.{header, checked_recording};
ghost use Rattle.rules.specs.Walk.{package_at};
ghost use Rattle.rules.specs.Writer.{writer};
ghost use Rattle.rules.specs.Clean.{cleaner};
ghost use Rattle.rules.specs.Sheet.{sheet_rows};
ghost use Rattle.rules.specs.Copy.{measurement, copy};
ghost use Rattle.rules.specs.Burst.{randomizer, opener};
ghost use Rattle.purge.specs.Purge as purging;
ghost use Rattle.fragments.specs.Cutting.{cutter};
ghost use Rattle.fragments.specs.Joining.{joiner};
ghost use Rattle.fragments.specs.Told.{cut_numbers};
ghost use Rattle.refusal.specs.Numbers.{number_of};
ghost use Rattle.sheet.specs.Rows.{row_in};
ghost use Rattle.compose.specs.Told.{numbers, told};
ghost use Rattle.release.specs.Told as release;
ghost use Rattle.numbered.specs.Told.{report};
ghost use Rattle.step.specs.Step as rule;
ghost use Rattle.step.specs.Told.{state_in};
ghost use Rattle.ids.specs.Reader.{read_ids};
ghost use Rattle.ids.specs.Writer.{write_ids};
ghost use Rattle.ids.specs.Told.{range_in, handed_over, ranges_in};
ghost use Rattle.salvage.specs.Salvage as salvage;
ghost use Rattle.salvage.specs.Told as salvaged;
ghost use Rattle.capture.specs.Reading.{read_capture};
ghost use Rattle.capture.specs.Writing.{write_capture};
ghost use Rattle.capture.specs.Told.{numbers_read, numbers_written};
ghost use Rattle.radio.specs.Radio.{radio_read, tlv_at, radio_writer};
ghost use Rattle.radio.specs.Row.{link_row};
ghost use Rattle.hibernaxo.specs.Radio as radios;
ghost use Rattle.hibernaxo.specs.Told.{values_told, refused_at, header_told, step_told, check_told, draft, written_values, written_told, row_values, sheet_told, answer_values, copy_told, numbers_from, state_at, state_values, report_values, stepped_told, randomized_told, opened_told, range_values, ids_told, stretch_values, salvage_values, salvage_told, read_values, read_told, sent_values, sent_told, cut_values, cut_told};

use capture::{CaptureRead, CaptureWritten};
use compose::Record;
use fragments::Fragmented;
use ids::IdRange;
use message::{Counts, Header, Mdid};
use numbered::Progress;
use radio::{Head, Heartbeat, LinkMetric, QueueReport, RadioMessage, Reading, Tlv, TxOp};
use refusal::{Refusal, Why, refuse};
use release::Totals;
use salvage::{Salvaged, Stretch};
use sheet::Row;
use step::State;

// What an answer hands over to a caller: N values, the first of them the place, which is 0 on success.
trait Values<const N: usize> {
    ghost told: { Self → List ℕ };

    fn values(self) -> [u64; N]
        ensures { result ≡ told self };

    ghost many: { (x : Self) → length (told x) ≡ N };
}

// A refusal's place, and zeros behind it. Says its number.
fn put_refusal<const N: usize>(x: Refusal, values: &mut [u64; N]) -> u32
    requires { 1 ≤ N }
    ensures { (result ≡ number_of x.why) × (values.new ≡ refused_at x.place (N - 1)) }
{
    values.fill(0);
    values[0] = x.place as u64;
    refusal::number_of(x.why)
}

// What an answer hands over. Says the refusal's number, 0 for success.
fn put<T: Values<N>, const N: usize>(answer: Result<T, Refusal>, values: &mut [u64; N]) -> u32
    requires { 1 ≤ N }
    ensures { (result, values.new) ≡ values_told T.told N answer }
{
    match answer {
        Ok(t) => {
            *values = t.values();
            0
        }
        Err(x) => put_refusal(x, values),
    }
}

// Elements stored from a place on, one by one: an array that is lent to be copied has a place of its own on the stack.
fn put_some<T: Copy, const K: usize>(into: &mut [T], at: usize, some: [T; K])
    requires { at + K ≤ length into.old }
    ensures { into.new ≡ sets into.old at some }
{
    for i in 0..K {
        into[at + i] = some[i];
    }
}

// The values of each item, one behind the other, from a place on.
fn put_each<T: Values<K> + Copy, const K: usize, const M: usize>(
    values: &mut [u64],
    from: usize,
    items: [T; M],
)
    requires { from + K * M ≤ length values.old }
    ensures { values.new ≡ sets values.old from (join (map T.told items)) }
{
    for i in 0..M {
        put_some(values, from + K * i, items[i].values());
    }
}

impl Values<10> for Header {
    ghost told = { λ h. 0 ∷ h.words ∷ h.flags ∷ h.id.0 ∷ h.sequence ∷ h.length ∷ h.seconds ∷ h.nanos ∷ 24 ∷ h.run ∷ [] };

    ghost many = { λ h. refl };

    fn values(self) -> [u64; 10] {
        [
            0,
            self.words as u64,
            self.flags as u64,
            self.id.0 as u64,
            self.sequence as u64,
            self.length as u64,
            self.seconds as u64,
            self.nanos as u64,
            24,
            self.run as u64,
        ]
    }
}

// A header alone: W, flags, message id, sequence number, length, time, and where its option run begins and how long it is.
#[unsafe(no_mangle)]
pub extern "C" fn hibernaxo_header(bytes: &[u8], values: &mut [u64; 10]) -> u32
    ensures { (result, values.new) ≡ header_told (header bytes.now) }
{
    put(message::read_header(bytes), values)
}

// A step of a package walk: a package with its numbers, where its data begin and how long they are, or the end; and the walk's next place.
#[unsafe(no_mangle)]
pub extern "C" fn hibernaxo_package(run: &[u8], at: usize, values: &mut [u64; 9]) -> u32
    ensures { (result, values.new) ≡ step_told at (package_at run.now at) }
{
    let place = at as u64;
    match walk::step_at(run, at) {
        Ok(Some(k)) => {
            *values = [
                0,
                1,
                k.id.0 as u64,
                k.length as u64,
                k.status as u64,
                k.delta as u64,
                k.from as u64,
                k.length as u64 - 12,
                k.next as u64,
            ];
            0
        }
        Ok(None) => {
            *values = [0, 0, 0, 0, 0, 0, 0, 0, place];
            0
        }
        Err(x) => {
            *values = [x.place as u64, 0, 0, 0, 0, 0, 0, 0, place];
            refusal::number_of(x.why)
        }
    }
}

impl Values<3> for Counts {
    ghost told = { λ a. 0 ∷ a.messages ∷ a.packages ∷ [] };

    ghost many = { λ a. refl };

    fn values(self) -> [u64; 3] {
        [0, self.messages as u64, self.packages as u64]
    }
}

// A recording checked: messages and packages.
#[unsafe(no_mangle)]
pub extern "C" fn hibernaxo_check(recording: &[u8], values: &mut [u64; 3]) -> u32
    ensures { (result, values.new) ≡ check_told (checked_recording recording.now) }
{
    put(message::check(recording), values)
}

// Whatever is written or opened: so many bytes, or codeblocks.
impl Values<2> for usize {
    ghost told = { λ n. 0 ∷ n ∷ [] };

    ghost many = { λ n. refl };

    fn values(self) -> [u64; 2] {
        [0, self as u64]
    }
}

// One message written from its parts: bytes.
#[unsafe(no_mangle)]
pub extern "C" fn hibernaxo_write(
    flags: u8,
    message_id: u32,
    sequence: u32,
    seconds: u32,
    nanoseconds: u32,
    options: &[u8],
    packages: &[u8],
    out: &mut [u8],
    values: &mut [u64; 2],
) -> u32
    ensures { (result, values.new, out.new) ≡ written_told (writer (draft flags message_id sequence seconds nanoseconds options.now packages.now) out.old) }
{
    let record = Record {
        flags,
        id: Mdid(message_id),
        sequence,
        seconds,
        nanos: nanoseconds,
    };
    put(compose::write(record, options, packages, out), values)
}

// The clean form of one message: bytes.
#[unsafe(no_mangle)]
pub extern "C" fn hibernaxo_clean(bytes: &[u8], out: &mut [u8], values: &mut [u64; 2]) -> u32
    ensures { (result, values.new, out.new) ≡ written_told (cleaner bytes.now out.old) }
{
    put(compose::clean(bytes, out), values)
}

// A recording purged in its buffer: bytes in use.
#[unsafe(no_mangle)]
pub extern "C" fn hibernaxo_purge(buffer: &mut [u8], sheet: &[u8], values: &mut [u64; 2]) -> u32
    ensures { (result, values.new, buffer.new) ≡ written_told (purging.purge buffer.old sheet.now) }
{
    put(purge::purge(buffer, sheet), values)
}

impl Values<3> for Fragmented {
    ghost told = { λ a. 0 ∷ a.bytes ∷ a.fragments ∷ [] };

    ghost many = { λ a. refl };

    fn values(self) -> [u64; 3] {
        [0, self.bytes as u64, self.fragments as u64]
    }
}

// The clean form of one message, cut into fragments: bytes and fragments.
#[unsafe(no_mangle)]
pub extern "C" fn hibernaxo_cut(
    message: &[u8],
    size: usize,
    out: &mut [u8],
    values: &mut [u64; 3],
) -> u32
    ensures { (result, values.new, out.new) ≡ cut_told (cutter size message.now out.old) }
{
    put(fragments::cut(message, size, out), values)
}

// Fragments joined, or one whole message cleaned: bytes.
#[unsafe(no_mangle)]
pub extern "C" fn hibernaxo_join(fragments: &[u8], out: &mut [u8], values: &mut [u64; 2]) -> u32
    ensures { (result, values.new, out.new) ≡ written_told (joiner fragments.now out.old) }
{
    put(fragments::join(fragments, out), values)
}

impl Values<9> for Row {
    ghost told = { λ r. row_values (row_in r) };

    ghost many = { λ r. refl };

    fn values(self) -> [u64; 9] {
        [
            self.first_mdid.0 as u64,
            self.last_mdid.0 as u64,
            self.first_pdid.0 as u64,
            self.last_pdid.0 as u64,
            self.start.seconds as u64,
            self.start.nanos as u64,
            self.end.seconds as u64,
            self.end.nanos as u64,
            self.acquired_only as u64,
        ]
    }
}

// An order sheet: how many rows, and nine values for each of 32 rows.
#[unsafe(no_mangle)]
pub extern "C" fn hibernaxo_sheet(sheet: &[u8], values: &mut [u64; 290]) -> u32
    ensures { (result, values.new) ≡ sheet_told (sheet_rows sheet.now) }
{
    match sheet::read_sheet(sheet) {
        Ok(read) => {
            *values = [0; 290];
            values[1] = read.count as u64;
            put_each(values, 2, read.rows);
            0
        }
        Err(x) => put_refusal(x, values),
    }
}

impl Values<4> for Totals {
    ghost told = { λ a. 0 ∷ a.bytes ∷ a.messages ∷ a.packages ∷ [] };

    ghost many = { λ a. refl };

    fn values(self) -> [u64; 4] {
        let t = self;
        [0, t.bytes as u64, t.messages as u64, t.packages as u64]
    }
}

// What the copy of a recording under a sheet takes: bytes, messages and packages.
#[unsafe(no_mangle)]
pub extern "C" fn hibernaxo_copy_measure(
    recording: &[u8],
    sheet: &[u8],
    values: &mut [u64; 4],
) -> u32
    ensures { (result, values.new) ≡ answer_values (measurement recording.now sheet.now) }
{
    put(release::measure(recording, sheet), values)
}

// The copy of a recording under a sheet: bytes, messages and packages.
#[unsafe(no_mangle)]
pub extern "C" fn hibernaxo_copy_write(
    recording: &[u8],
    sheet: &[u8],
    out: &mut [u8],
    values: &mut [u64; 4],
) -> u32
    ensures { (result, values.new, out.new) ≡ copy_told (copy recording.now sheet.now out.old) }
{
    put(release::write(recording, sheet, out), values)
}

// 64 numbers of a state's array, from a place on.
fn part_of(state: &[u32; 129], at: usize) -> [u32; 64]
    requires { at ≤ 65 }
    ensures { result ≡ numbers_from 64 at state.now }
{
    let mut part = [0u32; 64];
    for i in 0..64 {
        part[i] = state[at + i];
    }
    part
}

// The state that an array stands for: how many ids are held, then 64 ids, then beside each its next number.
fn state_in(state: &[u32; 129]) -> State
    ensures { state_in result ≡ state_at state.now }
{
    let ids = part_of(state, 1);
    let next = part_of(state, 65);
    let held = state[0] as usize;
    State { ids, next, held }
}

fn put_state(state: &mut [u32; 129], after: State)
    ensures { state.new ≡ state_values (state_in after) }
{
    state[0] = (after.held % 4294967296) as u32;
    put_some(state, 1, after.ids);
    put_some(state, 65, after.next);
}

impl Values<6> for Progress {
    ghost told = { λ a. 0 ∷ a.handled ∷ a.consumed ∷ a.bytes ∷ a.messages ∷ a.packages ∷ [] };

    ghost many = { λ a. refl };

    fn values(self) -> [u64; 6] {
        [
            0,
            self.handled as u64,
            self.consumed as u64,
            self.bytes as u64,
            self.messages as u64,
            self.packages as u64,
        ]
    }
}

// A step of a recording under a sheet, numbered on from a state: messages handled, bytes consumed; bytes, messages and packages written.
#[unsafe(no_mangle)]
pub extern "C" fn hibernaxo_step(
    input: &[u8],
    sheet: &[u8],
    quota: usize,
    state: &mut [u32; 129],
    out: &mut [u8],
    values: &mut [u64; 6],
) -> u32
    ensures { (result, values.new, state.new, out.new) ≡ stepped_told (rule.step input.now sheet.now quota (state_at state.old) out.old) }
{
    let before = state_in(state);
    let done = step::step(input, sheet, quota, before, out);
    put_state(state, done.state);
    put(done.answer, values)
}

// Nothing but that it is done.
impl Values<1> for () {
    ghost told = { λ a. 0 ∷ [] };

    ghost many = { λ a. refl };

    fn values(self) -> [u64; 1] {
        [0]
    }
}

// A buffer randomized.
#[unsafe(no_mangle)]
pub extern "C" fn hibernaxo_randomize(buf: &mut [u8], values: &mut [u64; 1]) -> u32
    ensures { (result, values.new, buf.new) ≡ randomized_told (randomizer buf.old) }
{
    put(burst::randomize(buf), values)
}

// A burst opened: codeblocks.
#[unsafe(no_mangle)]
pub extern "C" fn hibernaxo_open_burst(buf: &mut [u8], values: &mut [u64; 2]) -> u32
    ensures { (result, values.new, buf.new) ≡ opened_told (opener buf.old) }
{
    put(burst::open_burst(buf), values)
}

impl Values<2> for IdRange {
    ghost told = { λ r. range_values (range_in r) };

    ghost many = { λ r. refl };

    fn values(self) -> [u64; 2] {
        [self.first as u64, self.last as u64]
    }
}

// A line of ids: how many ranges, and first and last of 32 ranges.
#[unsafe(no_mangle)]
pub extern "C" fn hibernaxo_read_ids(line: &[u8], values: &mut [u64; 66]) -> u32
    ensures { (result, values.new) ≡ ids_told (read_ids line.now) }
{
    match ids::read_ids(line) {
        Ok(read) => {
            *values = [0; 66];
            values[1] = read.count as u64;
            put_each(values, 2, read.ranges);
            0
        }
        Err(x) => put_refusal(x, values),
    }
}

// Ranges written as a line: bytes.
#[unsafe(no_mangle)]
pub extern "C" fn hibernaxo_write_ids(
    ends: &[u32; 64],
    count: usize,
    out: &mut [u8],
    values: &mut [u64; 2],
) -> u32
    ensures { (result, values.new, out.new) ≡ written_told (write_ids (handed_over count (ranges_in 32 ends.now)) out.old) }
{
    put(ids::write_ends(ends, count, out), values)
}

impl Values<2> for Stretch {
    ghost told = { λ h. stretch_values (salvaged.stretch_in h) };

    ghost many = { λ h. refl };

    fn values(self) -> [u64; 2] {
        [self.start as u64, self.size as u64]
    }
}

// What a salvage answered.
fn put_salvaged(a: Result<Salvaged, Refusal>, values: &mut [u64; 132]) -> u32
    ensures { (result, values.new) ≡ salvage_values (salvaged.report a) }
{
    match a {
        Ok(kept) => {
            *values = [0; 132];
            values[1] = kept.bytes as u64;
            values[2] = kept.messages as u64;
            values[3] = kept.count as u64;
            put_each(values, 4, kept.stretches);
            0
        }
        Err(x) => put_refusal(x, values),
    }
}

// What is kept of a damaged recording: bytes, messages, how many stretches were skipped, and start and length of 64 stretches.
#[unsafe(no_mangle)]
pub extern "C" fn hibernaxo_salvage(
    recording: &[u8],
    out: &mut [u8],
    values: &mut [u64; 132],
) -> u32
    ensures { (result, values.new, out.new) ≡ salvage_told (salvage.salvage recording.now out.old) }
{
    put_salvaged(salvage::salvage(recording, out), values)
}

impl Values<6> for CaptureRead {
    ghost told = { λ a. 0 ∷ a.counts.bytes ∷ a.counts.kept ∷ a.counts.not_for_us ∷ a.counts.cut_short ∷ a.counts.bad_message ∷ [] };

    ghost many = { λ a. refl };

    fn values(self) -> [u64; 6] {
        let counts = self.counts;
        [
            0,
            counts.bytes as u64,
            counts.kept as u64,
            counts.not_for_us as u64,
            counts.cut_short as u64,
            counts.bad_message as u64,
        ]
    }
}

// A capture file read into a recording: bytes; packets kept, not for us, cut short and with a bad message.
#[unsafe(no_mangle)]
pub extern "C" fn hibernaxo_read_capture(
    file: &[u8],
    port: u16,
    out: &mut [u8],
    values: &mut [u64; 6],
) -> u32
    ensures { (result, values.new, out.new) ≡ read_told (read_capture file.now port out.old) }
{
    put(capture::read_capture(file, port, out), values)
}

impl Values<3> for CaptureWritten {
    ghost told = { λ a. 0 ∷ a.bytes ∷ a.messages ∷ [] };

    ghost many = { λ a. refl };

    fn values(self) -> [u64; 3] {
        [0, self.bytes as u64, self.messages as u64]
    }
}

// A recording written as a capture file: bytes and messages.
#[unsafe(no_mangle)]
pub extern "C" fn hibernaxo_write_capture(
    recording: &[u8],
    port: u16,
    out: &mut [u8],
    values: &mut [u64; 3],
) -> u32
    ensures { (result, values.new, out.new) ≡ sent_told (write_capture recording.now port out.old) }
{
    put(capture::write_capture(recording, port, out), values)
}

impl Values<5> for RadioMessage {
    ghost told = { λ a. 0 ∷ a.head.destination ∷ a.head.source ∷ a.head.sequence ∷ a.tlvs ∷ [] };

    ghost many = { λ a. refl };

    fn values(self) -> [u64; 5] {
        [
            0,
            self.head.destination as u64,
            self.head.source as u64,
            self.head.sequence as u64,
            self.tlvs as u64,
        ]
    }
}

// A radio message: destination, source, sequence number, and how many TLVs it has.
#[unsafe(no_mangle)]
pub extern "C" fn hibernaxo_read_radio(bytes: &[u8], values: &mut [u64; 5]) -> u32
    ensures { (result, values.new) ≡ radios.radio_told (radio_read bytes.now) }
{
    put(radio::read(bytes), values)
}

// The values of a TLV of each type, with the place behind it.
fn opportunity_values(t: TxOp, next: u64) -> [u64; 14]
    ensures { result ≡ radios.opportunity_values t next }
{
    [
        0,
        1,
        next,
        t.frequency as u64,
        t.id as u64,
        t.timeout as u64,
        t.start as u64,
        t.stop as u64,
        0,
        0,
        0,
        0,
        0,
        0,
    ]
}

fn heartbeat_values(t: Heartbeat, next: u64) -> [u64; 14]
    ensures { result ≡ radios.heartbeat_values t next }
{
    [0, 5, next, t.timeout as u64, 0, 0, 0, 0, 0, 0, 0, 0, 0, 0]
}

fn metric_values(t: LinkMetric, next: u64) -> [u64; 14]
    ensures { result ≡ radios.metric_values t next }
{
    let rssi = radio::byte_of(t.rssi);
    let cinr = radio::byte_of(t.cinr);
    [
        0,
        6,
        next,
        t.seconds as u64,
        t.micros as u64,
        t.frequency as u64,
        rssi as u64,
        cinr as u64,
        t.errors as u64,
        0,
        0,
        0,
        0,
        0,
    ]
}

fn report_values(t: QueueReport, next: u64) -> [u64; 14]
    ensures { result ≡ radios.report_values t next }
{
    [
        0,
        10,
        next,
        t.seconds as u64,
        t.micros as u64,
        t.mission as u64,
        t.level0 as u64,
        t.level1 as u64,
        t.level2 as u64,
        t.level3 as u64,
        t.level4 as u64,
        t.level5 as u64,
        t.level6 as u64,
        t.level7 as u64,
    ]
}

fn tlv_values(t: Tlv, next: u64) -> [u64; 14]
    ensures { result ≡ radios.tlv_values t next }
{
    match t {
        Tlv::TxOp(x) => opportunity_values(x, next),
        Tlv::Heartbeat(x) => heartbeat_values(x, next),
        Tlv::LinkMetric(x) => metric_values(x, next),
        Tlv::QueueReport(x) => report_values(x, next),
    }
}

// A step over the TLVs of a radio message: a TLV's type, or 0 at the end, the next place, and its fields.
#[unsafe(no_mangle)]
pub extern "C" fn hibernaxo_radio_tlv(bytes: &[u8], at: usize, values: &mut [u64; 14]) -> u32
    ensures { (result, values.new) ≡ radios.tlv_told at (tlv_at bytes.now at) }
{
    let place = at as u64;
    match radio::tlv_at(bytes, at) {
        Ok(Some(found)) => {
            *values = tlv_values(found.tlv, found.next as u64);
            0
        }
        Ok(None) => {
            *values = [0, 0, place, 0, 0, 0, 0, 0, 0, 0, 0, 0, 0, 0];
            0
        }
        Err(x) => {
            *values = [x.place as u64, 0, place, 0, 0, 0, 0, 0, 0, 0, 0, 0, 0, 0];
            refusal::number_of(x.why)
        }
    }
}

// No field is above its bound.
fn all_within(fields: &[u64; 11], bounds: [u64; 11]) -> bool
    ensures { result ≡ radios.all_within 11 0 fields.now bounds }
{
    for i in 0..11 {
        if bounds[i] < fields[i] {
            return false;
        }
    }
    true
}

// A TLV of each type from its fields, if they fit their bits. Whatever stands behind them is not looked at.
fn opportunity_in(fields: &[u64; 11]) -> Option<Tlv>
    ensures { result ≡ radios.opportunity_in fields.now }
{
    let any = 18446744073709551615;
    let bounds = [
        65535, 65535, 255, 4294967295, 4294967295, any, any, any, any, any, any,
    ];
    if !all_within(fields, bounds) {
        return None;
    }
    Some(Tlv::TxOp(TxOp {
        frequency: fields[0] as u16,
        id: fields[1] as u16,
        timeout: fields[2] as u8,
        start: fields[3] as u32,
        stop: fields[4] as u32,
    }))
}

fn heartbeat_in(fields: &[u64; 11]) -> Option<Tlv>
    ensures { result ≡ radios.heartbeat_in fields.now }
{
    let any = 18446744073709551615;
    let bounds = [65535, any, any, any, any, any, any, any, any, any, any];
    if !all_within(fields, bounds) {
        return None;
    }
    Some(Tlv::Heartbeat(Heartbeat {
        timeout: fields[0] as u16,
    }))
}

fn metric_in(fields: &[u64; 11]) -> Option<Tlv>
    ensures { result ≡ radios.metric_in fields.now }
{
    let any = 18446744073709551615;
    let bounds = [
        255, 4294967295, 65535, 255, 255, 255, any, any, any, any, any,
    ];
    if !all_within(fields, bounds) {
        return None;
    }
    let rssi = radio::signed_of(fields[3] as u8);
    let cinr = radio::signed_of(fields[4] as u8);
    Some(Tlv::LinkMetric(LinkMetric {
        seconds: fields[0] as u8,
        micros: fields[1] as u32,
        frequency: fields[2] as u16,
        rssi,
        cinr,
        errors: fields[5] as u8,
    }))
}

fn report_in(fields: &[u64; 11]) -> Option<Tlv>
    ensures { result ≡ radios.report_in fields.now }
{
    let bounds = [
        255, 4294967295, 4294967295, 65535, 65535, 65535, 65535, 65535, 65535, 65535, 65535,
    ];
    if !all_within(fields, bounds) {
        return None;
    }
    Some(Tlv::QueueReport(QueueReport {
        seconds: fields[0] as u8,
        micros: fields[1] as u32,
        mission: fields[2] as u32,
        level0: fields[3] as u16,
        level1: fields[4] as u16,
        level2: fields[5] as u16,
        level3: fields[6] as u16,
        level4: fields[7] as u16,
        level5: fields[8] as u16,
        level6: fields[9] as u16,
        level7: fields[10] as u16,
    }))
}

fn tlv_in(kind: u32, fields: &[u64; 11]) -> Option<Tlv>
    ensures { result ≡ radios.handed kind fields.now }
{
    if kind == 1 {
        return opportunity_in(fields);
    }
    if kind == 5 {
        return heartbeat_in(fields);
    }
    if kind == 6 {
        return metric_in(fields);
    }
    if kind == 10 {
        return report_in(fields);
    }
    None
}

fn put_handed(t: Option<Tlv>, out: &mut [u8], at: usize) -> Result<usize, Refusal>
    ensures { told result out.new ≡ radios.handed_put t at out.old }
{
    match t {
        Some(x) => radio::put_tlv(x, out, at),
        None => refuse(Why::Radio, at),
    }
}

// A TLV put at a place of a buffer: bytes.
#[unsafe(no_mangle)]
pub extern "C" fn hibernaxo_put_radio_tlv(
    kind: u32,
    fields: &[u64; 11],
    out: &mut [u8],
    at: usize,
    values: &mut [u64; 2],
) -> u32
    ensures { (result, values.new, out.new) ≡ written_told (radios.handed_put (radios.handed kind fields.now) at out.old) }
{
    let t = tlv_in(kind, fields);
    put(put_handed(t, out, at), values)
}

// A radio message written from its header's numbers and a run of TLVs: bytes.
#[unsafe(no_mangle)]
pub extern "C" fn hibernaxo_write_radio(
    destination: u16,
    source: u16,
    sequence: u32,
    run: &[u8],
    out: &mut [u8],
    values: &mut [u64; 2],
) -> u32
    ensures { (result, values.new, out.new) ≡ written_told (radio_writer (record { destination = destination; source = source; sequence = sequence }) run.now out.old) }
{
    let head = Head {
        destination,
        source,
        sequence,
    };
    put(radio::write(head, run, out), values)
}

// What a reading is, and its double, which is 0 where it is missing.
fn kind_of(r: Reading) -> u8
    ensures { result ≡ radios.kind_of r }
{
    match r {
        Reading::Missing => 0,
        Reading::Level(_) => 1,
        Reading::Rate(_) => 2,
    }
}

fn value_of(r: Reading) -> f64
    ensures { result ≡ radios.value_of r }
{
    match r {
        Reading::Missing => 0.0,
        Reading::Level(x) => x,
        Reading::Rate(x) => x,
    }
}

// The row of a link metric: what each of its readings is, and its doubles.
#[unsafe(no_mangle)]
pub extern "C" fn hibernaxo_link_row(
    frequency: u16,
    rssi: i8,
    cinr: i8,
    errors: u8,
    kinds: &mut [u8; 3],
    values: &mut [f64; 4],
)
    ensures { (kinds.new, values.new) ≡ radios.row_told (link_row (record { seconds = 0; micros = 0; frequency = frequency; rssi = rssi; cinr = cinr; errors = errors })) }
{
    let row = radio::row_of(LinkMetric {
        seconds: 0,
        micros: 0,
        frequency,
        rssi,
        cinr,
        errors,
    });
    let a = row.rssi;
    let b = row.cinr;
    let c = row.errors;
    *kinds = [kind_of(a), kind_of(b), kind_of(c)];
    *values = [row.frequency, value_of(a), value_of(b), value_of(c)];
}
