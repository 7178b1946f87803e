// RF network messages: a header, then TLVs. They are read TLV by TLV, written from a run of TLVs, and a link metric becomes a row of doubles.
#![tactic(auto)]

ghost use Rattle.std.specs.Prelude.{◌≡◌, true, ◌&&◌, [], leb, ◌+◌, ◌*◌, ◌/◌, ◌%◌, ◌≤◌, ◌<◌, pos, length};
ghost use Rattle.std.proofs.lemmas.List.Edits.{sets};
ghost use Rattle.compose.specs.Told.{told};
ghost use Rattle.refusal.specs.Numbers.{outcome_of};
ghost use Rattle.radio.specs.Quotient.{quotient};
ghost use Rattle.radio.specs.Row.{level_of, rate_of, link_row};
ghost use Rattle.radio.specs.Tlv as tlvs;
ghost use Rattle.radio.specs.Radio as rule;
ghost use Rattle.radio.specs.Told as spec;

use refusal::{Refusal, Why, refuse};

// The numbers of a header beside its length.
#[derive(Clone, Copy)]
pub struct Head {
    pub destination: u16,
    pub source: u16,
    pub sequence: u32,
}

// A transmission opportunity: centre frequency in units of 250 kHz, start and stop in microseconds of the epoch.
#[derive(Clone, Copy)]
pub struct TxOp {
    pub frequency: u16,
    pub id: u16,
    pub timeout: u8,
    pub start: u32,
    pub stop: u32,
}

#[derive(Clone, Copy)]
pub struct Heartbeat {
    pub timeout: u16,
}

// A link metric: the low 6 bits of its second and its microseconds, centre frequency in units of 250 kHz, RSSI in dBm and CINR in dB,
// -128 where there is none, and the error rate in units of 1/256, 0 where there is none.
#[derive(Clone, Copy)]
pub struct LinkMetric {
    pub seconds: u8,
    pub micros: u32,
    pub frequency: u16,
    pub rssi: i8,
    pub cinr: i8,
    pub errors: u8,
}

// A report of the eight traffic engineering queues, their levels in units of 64 bytes.
#[derive(Clone, Copy)]
pub struct QueueReport {
    pub seconds: u8,
    pub micros: u32,
    pub mission: u32,
    pub level0: u16,
    pub level1: u16,
    pub level2: u16,
    pub level3: u16,
    pub level4: u16,
    pub level5: u16,
    pub level6: u16,
    pub level7: u16,
}

#[derive(Clone, Copy)]
pub enum Tlv {
    TxOp(TxOp),
    Heartbeat(Heartbeat),
    LinkMetric(LinkMetric),
    QueueReport(QueueReport),
}

// A reading of the plotting tool.
#[derive(Clone, Copy)]
pub enum Reading {
    Missing,
    Level(f64),
    Rate(f64),
}

// A link metric for the plotting tool: centre frequency in MHz, RSSI in dBm, CINR in dB, and the error rate.
#[derive(Clone, Copy)]
pub struct LinkRow {
    pub frequency: f64,
    pub rssi: Reading,
    pub cinr: Reading,
    pub errors: Reading,
}

// A message that passes, with the number of its TLVs.
#[derive(Clone, Copy)]
pub struct RadioMessage {
    pub head: Head,
    pub tlvs: usize,
}

// A TLV, with the place behind it.
#[derive(Clone, Copy)]
pub struct TlvFound {
    pub tlv: Tlv,
    pub next: usize,
}

// The signed number that a byte is, in two's complement, and the byte of a signed number.
pub fn signed_of(b: u8) -> i8
    ensures { result ≡ tlvs.signed b }
{
    b.cast_signed()
}

pub fn byte_of(z: i8) -> u8
    ensures { result ≡ tlvs.unsigned z }
{
    z.cast_unsigned()
}

// A number of 250 kHz as MHz, a signed number as it is, and a number of 1/256.
fn megahertz(n: u16) -> f64
    ensures { result ≡ quotient (pos n) 4 }
{
    (n as f64) / 4.0
}

fn whole(z: i8) -> f64
    ensures { result ≡ quotient z 1 }
{
    z as f64
}

fn share(n: u8) -> f64
    ensures { result ≡ quotient (pos n) 256 }
{
    (n as f64) / 256.0
}

fn level_of(z: i8) -> Reading
    ensures { result ≡ level_of z }
{
    if z == -128 {
        return Reading::Missing;
    }
    Reading::Level(whole(z))
}

fn rate_of(n: u8) -> Reading
    ensures { result ≡ rate_of n }
{
    if n == 0 {
        return Reading::Missing;
    }
    Reading::Rate(share(n))
}

// The plotting tool's row of a link metric.
pub fn row_of(m: LinkMetric) -> LinkRow
    ensures { result ≡ link_row m }
{
    let frequency = megahertz(m.frequency);
    let rssi = level_of(m.rssi);
    let cinr = level_of(m.cinr);
    let errors = rate_of(m.errors);
    LinkRow {
        frequency,
        rssi,
        cinr,
        errors,
    }
}

// The fields of a TLV of each type, at the start of s.
fn opportunity_of(s: &[u8]) -> TxOp
    ensures { result ≡ tlvs.opportunity_of s.now }
{
    let frequency = wire::half_at(s, 2);
    let id = wire::half_at(s, 5);
    let timeout = wire::byte_at(s, 7);
    let w = wire::word_at(s, 8);
    let last = u32::from(wire::byte_at(s, 12));
    TxOp {
        frequency,
        id,
        timeout,
        start: w / 4096,
        stop: w % 4096 * 256 + last,
    }
}

fn heartbeat_of(s: &[u8]) -> Heartbeat
    ensures { result ≡ tlvs.heartbeat_of s.now }
{
    let timeout = wire::half_at(s, 2);
    Heartbeat { timeout }
}

// The low 6 bits of a number.
fn six_bits(w: u32) -> u8
    ensures { result ≡ w % 64 }
{
    (w % 64) as u8
}

fn metric_of(s: &[u8]) -> LinkMetric
    ensures { result ≡ tlvs.metric_of s.now }
{
    let w = wire::word_at(s, 2);
    let seconds = six_bits(w / 1048576);
    let frequency = wire::half_at(s, 6);
    let rssi = signed_of(wire::byte_at(s, 8));
    let cinr = signed_of(wire::byte_at(s, 9));
    let errors = wire::byte_at(s, 10);
    LinkMetric {
        seconds,
        micros: w % 1048576,
        frequency,
        rssi,
        cinr,
        errors,
    }
}

fn report_of(s: &[u8]) -> QueueReport
    ensures { result ≡ tlvs.report_of s.now }
{
    let w = wire::word_at(s, 2);
    let seconds = six_bits(w / 16777216);
    let mission = wire::word_at(s, 6);
    let level0 = wire::half_at(s, 11);
    let level1 = wire::half_at(s, 13);
    let level2 = wire::half_at(s, 15);
    let level3 = wire::half_at(s, 17);
    let level4 = wire::half_at(s, 19);
    let level5 = wire::half_at(s, 21);
    let level6 = wire::half_at(s, 23);
    let level7 = wire::half_at(s, 25);
    QueueReport {
        seconds,
        micros: w % 1048576,
        mission,
        level0,
        level1,
        level2,
        level3,
        level4,
        level5,
        level6,
        level7,
    }
}

// The TLV at the start of s, which stands at place p, by its type alone.
#[tactic(auto, unfolding(crate::specs::Tlv::typed))]
fn typed(s: &[u8], p: usize) -> Result<Tlv, Refusal>
    ensures { outcome_of result ≡ tlvs.typed p s.now }
{
    let k = wire::byte_at(s, 0);
    if k == 1 {
        return Ok(Tlv::TxOp(opportunity_of(s)));
    }
    if k == 5 {
        return Ok(Tlv::Heartbeat(heartbeat_of(s)));
    }
    if k == 6 {
        return Ok(Tlv::LinkMetric(metric_of(s)));
    }
    if k == 10 {
        return Ok(Tlv::QueueReport(report_of(s)));
    }
    refuse(Why::Radio, p)
}

fn size_of(t: Tlv) -> usize
    ensures { (result ≡ tlvs.tlv_size t) × (result ≤ 27) }
{
    match t {
        Tlv::TxOp(_) => 13,
        Tlv::Heartbeat(_) => 4,
        Tlv::LinkMetric(_) => 11,
        Tlv::QueueReport(_) => 27,
    }
}

// Both are within a second.
fn in_second(a: u32, b: u32) -> bool
    ensures { result ≡ (leb a 999999 && leb b 999999) }
{
    a <= 999999 && b <= 999999
}

// A time within 64 seconds.
fn in_minute(seconds: u8, micros: u32) -> bool
    ensures { result ≡ (leb seconds 63 && leb micros 999999) }
{
    seconds <= 63 && micros <= 999999
}

// The fields of a TLV are within their ranges.
fn fits(t: Tlv) -> bool
    ensures { result ≡ tlvs.tlv_fits t }
{
    match t {
        Tlv::TxOp(x) => in_second(x.start, x.stop),
        Tlv::Heartbeat(_) => true,
        Tlv::LinkMetric(x) => in_minute(x.seconds, x.micros),
        Tlv::QueueReport(x) => in_minute(x.seconds, x.micros),
    }
}

// The bytes at the start of s that are neither a field nor reserved bits.
fn fixed(t: Tlv, s: &[u8]) -> bool
    ensures { result ≡ tlvs.fixed_bytes t s.now }
{
    match t {
        Tlv::TxOp(_) => wire::byte_at(s, 4) == 128,
        Tlv::Heartbeat(_) => true,
        Tlv::LinkMetric(_) => true,
        Tlv::QueueReport(_) => wire::byte_at(s, 10) == 0,
    }
}

#[tactic(auto, unfolding(crate::specs::Tlv::keeps_rules))]
fn keeps(t: Tlv, s: &[u8]) -> bool
    ensures { result ≡ tlvs.keeps_rules t s.now }
{
    let n = size_of(t);
    usize::from(wire::byte_at(s, 1)) == n && n <= s.len() && fixed(t, s) && fits(t)
}

// The TLV at the start of s, which stands at place p.
fn tlv_here(s: &[u8], p: usize) -> Result<Tlv, Refusal>
    ensures { spec.told_found result ≡ tlvs.tlv p s.now }
{
    let t = typed(s, p)?;
    if !keeps(t, s) {
        return refuse(Why::Radio, p);
    }
    Ok(t)
}

// What stands at place `at` of a message: a TLV, or none at its end. The first one stands at 10.
pub fn tlv_at(s: &[u8], at: usize) -> Result<Option<TlvFound>, Refusal>
    ensures { spec.told_tlv result ≡ rule.tlv_at s.now at }
{
    if 65536 < s.len() {
        return refuse(Why::Large, 65536);
    }
    if s.len() <= at {
        return Ok(None);
    }
    let tlv = tlv_here(&s[at..], at)?;
    let next = at + size_of(tlv);
    Ok(Some(TlvFound { tlv, next }))
}

// How many TLVs a run holds, which stands at place 10 of a message.
fn count_tlvs(run: &[u8]) -> Result<usize, Refusal>
    requires { length run.now ≤ 65536 }
    ensures { outcome_of result ≡ spec.tlv_count run.now }
{
    let mut i = 0;
    let mut n = 0;
    while i < run.len() {
        let t = tlv_here(&run[i..], 10 + i)?;
        i += size_of(t);
        n += 1;
    }
    Ok(n)
}

fn head_of(s: &[u8]) -> Head
    ensures { result ≡ rule.head_of s.now }
{
    let destination = wire::half_at(s, 2);
    let source = wire::half_at(s, 4);
    let sequence = wire::word_at(s, 6);
    Head {
        destination,
        source,
        sequence,
    }
}

// Reads the message that is the whole of s.
pub fn read(s: &[u8]) -> Result<RadioMessage, Refusal>
    ensures { spec.told_radio result ≡ rule.radio_read s.now }
{
    if 65536 < s.len() {
        return refuse(Why::Large, 65536);
    }
    if s.len() < 10 {
        return refuse(Why::Radio, 0);
    }
    if 2 + usize::from(wire::half_at(s, 0)) != s.len() {
        return refuse(Why::Radio, 0);
    }
    if s.len() == 10 {
        return refuse(Why::Radio, 0);
    }
    let tlvs = count_tlvs(&s[10..])?;
    let head = head_of(s);
    Ok(RadioMessage { head, tlvs })
}

// Stores a TLV of each type at the start of `out`.
fn put_opportunity(out: &mut [u8], t: TxOp)
    requires { tlvs.tlv_fits (Tlv.TxOp t) ≡ true }
    ensures { out.new ≡ sets out.old 0 (tlvs.tlv_bytes (Tlv.TxOp t)) }
{
    wire::put_half(out, 0, 269);
    wire::put_half(out, 2, t.frequency);
    wire::put_byte(out, 4, 128);
    wire::put_half(out, 5, t.id);
    wire::put_byte(out, 7, t.timeout);
    wire::put_word(out, 8, t.start * 4096 + t.stop / 256);
    wire::put_byte(out, 12, (t.stop % 256) as u8);
}

fn put_heartbeat(out: &mut [u8], t: Heartbeat)
    ensures { out.new ≡ sets out.old 0 (tlvs.tlv_bytes (Tlv.Heartbeat t)) }
{
    wire::put_half(out, 0, 1284);
    wire::put_half(out, 2, t.timeout);
}

fn put_metric(out: &mut [u8], t: LinkMetric)
    requires { tlvs.tlv_fits (Tlv.LinkMetric t) ≡ true }
    ensures { out.new ≡ sets out.old 0 (tlvs.tlv_bytes (Tlv.LinkMetric t)) }
{
    wire::put_half(out, 0, 1547);
    wire::put_word(out, 2, u32::from(t.seconds) * 1048576 + t.micros);
    wire::put_half(out, 6, t.frequency);
    wire::put_byte(out, 8, byte_of(t.rssi));
    wire::put_byte(out, 9, byte_of(t.cinr));
    wire::put_byte(out, 10, t.errors);
}

// The first 11 bytes of a queue report, and four queue levels at a place.
fn put_report_front(out: &mut [u8], t: QueueReport)
    requires { tlvs.tlv_fits (Tlv.QueueReport t) ≡ true }
    ensures { out.new ≡ sets out.old 0 (spec.report_front t) }
{
    wire::put_half(out, 0, 2587);
    wire::put_word(out, 2, u32::from(t.seconds) * 16777216 + t.micros);
    wire::put_word(out, 6, t.mission);
    wire::put_byte(out, 10, 0);
}

fn put_levels(out: &mut [u8], at: usize, a: u16, b: u16, c: u16, d: u16)
    requires { at < 65536 }
    ensures { out.new ≡ sets out.old at (spec.four_levels a b c d) }
{
    wire::put_half(out, at, a);
    wire::put_half(out, at + 2, b);
    wire::put_half(out, at + 4, c);
    wire::put_half(out, at + 6, d);
}

fn put_report(out: &mut [u8], t: QueueReport)
    requires { tlvs.tlv_fits (Tlv.QueueReport t) ≡ true }
    ensures { out.new ≡ sets out.old 0 (tlvs.tlv_bytes (Tlv.QueueReport t)) }
{
    put_report_front(out, t);
    put_levels(out, 11, t.level0, t.level1, t.level2, t.level3);
    put_levels(out, 19, t.level4, t.level5, t.level6, t.level7);
}

// Stores a TLV at the start of `out`.
fn put_first(out: &mut [u8], t: Tlv)
    requires { tlvs.tlv_fits t ≡ true }
    ensures { out.new ≡ sets out.old 0 (tlvs.tlv_bytes t) }
{
    match t {
        Tlv::TxOp(x) => put_opportunity(out, x),
        Tlv::Heartbeat(x) => put_heartbeat(out, x),
        Tlv::LinkMetric(x) => put_metric(out, x),
        Tlv::QueueReport(x) => put_report(out, x),
    }
}

// Puts the TLV of a record at place `at` of `out`, for a run of TLVs that is made one by one.
pub fn put_tlv(t: Tlv, out: &mut [u8], at: usize) -> Result<usize, Refusal>
    ensures { told result out.new ≡ rule.tlv_writer t at out.old }
{
    let n = size_of(t);
    if 65536 < at {
        return refuse(Why::Large, 65536);
    }
    let end = at + n;
    if 65536 < end {
        return refuse(Why::Large, 65536);
    }
    if !fits(t) {
        return refuse(Why::Radio, at);
    }
    if out.len() < end {
        return refuse(Why::Room, end);
    }
    put_first(&mut out[at..], t);
    Ok(n)
}

// Stores the TLV at `at` of a run at `at` of `out`, and says where the next one begins.
fn put_next(out: &mut [u8], run: &[u8], at: usize) -> usize
    requires here { spec.Here run.now at }
    requires run_in_bounds { length run.now ≤ length out.old }
    ensures { spec.Moved out.old run.now at out.new result }
{
    match tlv_here(&run[at..], 10 + at) {
        Err(_) => at,
        Ok(t) => {
            put_first(&mut out[at..], t);
            at + size_of(t)
        }
    }
}

// Stores the TLVs of a run, one behind the other, from the start of `out` on.
fn put_run(out: &mut [u8], run: &[u8])
    requires checked { spec.Checked run.now }
    requires run_in_bounds { length run.now ≤ length out.old }
    ensures { out.new ≡ sets out.old 0 (spec.run_outcome run.now) }
{
    let mut i = 0;
    while i < run.len() {
        i = put_next(out, run, i);
    }
}

// Stores the header in front of n bytes of TLVs.
fn put_head(out: &mut [u8], h: Head, n: usize)
    requires { 8 + n < 65536 }
    ensures { out.new ≡ sets out.old 0 (rule.head_bytes h n []) }
{
    wire::put_half(out, 0, (8 + n) as u16);
    wire::put_half(out, 2, h.destination);
    wire::put_half(out, 4, h.source);
    wire::put_word(out, 6, h.sequence);
}

// A message whose run was checked, written where there is room for it.
fn finish(h: Head, run: &[u8], out: &mut [u8]) -> Result<usize, Refusal>
    requires { spec.Checked run.now }
    ensures { told result out.new ≡ rule.radio_writer h run.now out.old }
{
    let n = 10 + run.len();
    if out.len() < n {
        return refuse(Why::Room, n);
    }
    put_head(out, h, run.len());
    put_run(&mut out[10..], run);
    Ok(n)
}

// Writes a message from its header's numbers and a run of TLVs.
pub fn write(h: Head, run: &[u8], out: &mut [u8]) -> Result<usize, Refusal>
    ensures { told result out.new ≡ rule.radio_writer h run.now out.old }
{
    if 65526 < run.len() {
        return refuse(Why::Large, 65536);
    }
    if run.len() == 0 {
        return refuse(Why::Radio, 0);
    }
    count_tlvs(run)?;
    finish(h, run, out)
}
