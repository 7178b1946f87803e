// Captures from the switch: read into a recording, and written from one.
#![tactic(auto)]

ghost use Rattle.std.specs.Prelude.{◌≡◌, [], ◌+◌, ◌-◌, ◌*◌, ◌%◌, ◌≤◌, ◌<◌, length};
ghost use Rattle.std.proofs.lemmas.List.Edits.{sets};
ghost use Rattle.rules.specs.Bytes.{pad};
ghost use Rattle.refusal.specs.Numbers.{outcome_of};
ghost use Rattle.capture.specs.File.{half_in, word_in, header_good};
ghost use Rattle.capture.specs.Frame.{ip_header, for_us, lengths_fit, carried, checksum};
ghost use Rattle.capture.specs.Reading.{one_message, class_of, read_capture};
ghost use Rattle.capture.specs.Writing.{file_of, write_capture};
ghost use Rattle.capture.specs.Told.{order_by, slot_of, datagram_for_us, packet_by, told_class, Placed, Low, Added, noting, More, counted_in, noted, SpotsIn, Stored, measured, Spotted, told_read, record_front, ip_front, udp_front, front_of, Weighs, Sendable, Sent, Roomy, LaidBehind, Laid, told_write};

use message::{Message, message_at};
use refusal::{Refusal, Why, refuse};

// The number of 16 bits at place k in a byte order.
fn half_in(big: bool, s: &[u8], k: usize) -> u16
    ensures { result ≡ half_in (order_by big) s.now k }
{
    let h = wire::half_at(s, k);
    if big {
        return h;
    }
    h % 256 * 256 + h / 256
}

// The number of 32 bits there.
fn word_in(big: bool, s: &[u8], k: usize) -> u32
    ensures { result ≡ word_in (order_by big) s.now k }
{
    let w = wire::word_at(s, k);
    if big {
        return w;
    }
    wire::reverse(w)
}

// Whether s begins with a good file header in a byte order.
fn header_good(big: bool, s: &[u8]) -> bool
    ensures { result ≡ header_good (order_by big) s.now }
{
    if s.len() < 24 {
        return false;
    }
    if word_in(big, s, 0) != 0xA1_B2_C3_D4 {
        return false;
    }
    if half_in(big, s, 4) != 2 {
        return false;
    }
    if half_in(big, s, 6) != 4 {
        return false;
    }
    word_in(big, s, 20) == 1
}

// A record: where it ends, and how many bytes its packet had on the wire.
#[derive(Clone, Copy)]
struct Slot {
    size: usize,
    original: u32,
}

// The record at the start of s, unless the file's end cuts it.
fn slot_of(big: bool, s: &[u8]) -> Option<Slot>
    ensures { result ≡ slot_of (order_by big) s.now }
{
    if s.len() < 16 {
        return None;
    }
    let size = 16 + word_in(big, s, 8) as usize;
    if s.len() < size {
        return None;
    }
    let original = word_in(big, s, 12);
    Some(Slot { size, original })
}

// How many bytes an IPv4 header says that it has.
fn header_of(ip: &[u8]) -> usize
    ensures { (result ≡ ip_header ip.now) × (result < 64) }
{
    (wire::byte_at(ip, 0) % 16) as usize * 4
}

// Whether what is behind the Ethernet header is seen to be an IPv4 datagram to the port, and no fragment.
fn datagram_for_us(port: u16, ip: &[u8]) -> bool
    requires { length ip.now < 4294967296 }
    ensures { result ≡ datagram_for_us port ip.now }
{
    if wire::byte_at(ip, 0) / 16 != 4 {
        return false;
    }
    let header = header_of(ip);
    if header < 20 {
        return false;
    }
    if wire::half_at(ip, 6) % 0x4000 != 0 {
        return false;
    }
    if wire::byte_at(ip, 9) != 17 {
        return false;
    }
    if ip.len() < header + 4 {
        return false;
    }
    wire::half_at(ip, header + 2) == port
}

// Whether a frame is seen to be for us.
fn for_us(port: u16, frame: &[u8]) -> bool
    requires { length frame.now < 4294967296 }
    ensures { result ≡ for_us port frame.now }
{
    if frame.len() < 34 {
        return false;
    }
    if wire::half_at(frame, 12) != 0x0800 {
        return false;
    }
    datagram_for_us(port, &frame[14..])
}

// Whether the lengths of an IP packet and its datagram fit.
fn lengths_fit(ip: &[u8]) -> bool
    ensures { result ≡ lengths_fit ip.now }
{
    let header = header_of(ip);
    let total = wire::half_at(ip, 2) as usize;
    if total < header + 8 {
        return false;
    }
    if ip.len() < total {
        return false;
    }
    let size = wire::half_at(ip, header + 4) as usize;
    if size < 8 {
        return false;
    }
    header + size <= total
}

// Whether s is exactly one message that passes every check.
fn one_message(s: &[u8]) -> bool
    requires { length s.now ≤ 65536 }
    ensures { result ≡ one_message s.now }
{
    message_at(s, 0).is_ok_and(|m| m.next == s.len())
}

// A packet: kept, with where its message is in the frame, or under which count it comes.
#[derive(Clone, Copy)]
enum Packed {
    Kept(usize, usize),
    NotForUs,
    CutShort,
    BadMessage,
}

fn class_of(port: u16, frame: &[u8], original: u32) -> Packed
    requires { length frame.now < 4294967296 }
    ensures { (told_class frame.now result ≡ class_of port (packet_by frame.now original)) × Placed (length frame.now) result }
{
    if !for_us(port, frame) {
        return Packed::NotForUs;
    }
    if frame.len() != original as usize {
        return Packed::CutShort;
    }
    let ip = &frame[14..];
    if !lengths_fit(ip) {
        return Packed::BadMessage;
    }
    let header = header_of(ip);
    let from = header + 8;
    let to = header + wire::half_at(ip, header + 4) as usize;
    if !one_message(&ip[from..to]) {
        return Packed::BadMessage;
    }
    Packed::Kept(14 + from, 14 + to)
}

// What reading reports: the bytes of the recording, and the four counts.
#[derive(Clone, Copy, PartialEq, Eq, Default)]
pub struct Counts {
    pub bytes: usize,
    pub kept: usize,
    pub not_for_us: usize,
    pub cut_short: usize,
    pub bad_message: usize,
}

// One packet more.
fn with_class(t: Counts, class: Packed) -> Counts
    requires { Low t × Placed 65536 class }
    ensures { Added t class result }
{
    match class {
        Packed::Kept(from, to) => Counts {
            bytes: t.bytes + (to - from),
            kept: t.kept + 1,
            ..t
        },
        Packed::NotForUs => Counts {
            not_for_us: t.not_for_us + 1,
            ..t
        },
        Packed::CutShort => Counts {
            cut_short: t.cut_short + 1,
            ..t
        },
        Packed::BadMessage => Counts {
            bad_message: t.bad_message + 1,
            ..t
        },
    }
}

// Where a message is in the file, and how many bytes it has, in one number.
fn spot_of(from: usize, n: usize) -> u32
    requires { (from < 65536) × (n < 65536) }
    ensures { result ≡ from * 65536 + n }
{
    from as u32 * 65536 + n as u32
}

// Notes where the message of a packet is whose frame begins at `start`, if it is kept.
fn note(spots: &mut [u32; 800], k: usize, start: usize, class: Packed)
    requires { (k < 800) × (start ≤ 65536) × Placed (65536 - start) class }
    ensures { spots.new ≡ noting spots.old k start class }
{
    if let Packed::Kept(from, to) = class {
        spots[k] = spot_of(start + from, to - from);
    }
}

// One packet more, whose frame begins at `start`.
fn with_packet(
    t: Counts,
    port: u16,
    frame: &[u8],
    original: u32,
    start: usize,
    spots: &mut [u32; 800],
) -> Counts
    requires frame_bound { start + length frame.now ≤ 65536 }
    requires low { Low t × (t.kept < 800) }
    ensures { More t result spots.old spots.new start frame.now (class_of port (packet_by frame.now original)) }
{
    let class = class_of(port, frame, original);
    note(spots, t.kept, start, class);
    with_class(t, class)
}

// What the records of a file in a byte order come to, or the first that the file's end cuts; and where the messages are that are kept.
// The record of such a message has 82 bytes at least, so there are fewer than 800 of them.
fn count(file: &[u8], big: bool, port: u16, spots: &mut [u32; 800]) -> Result<Counts, Refusal>
    requires { (24 ≤ length file.now) × (length file.now ≤ 65536) × (length spots.old ≡ 800) }
    ensures { (outcome_of result ≡ counted_in (order_by big) file.now port) × SpotsIn (order_by big) file.now port spots.new }
{
    let mut counts = Counts::default();
    let mut at = 24;
    while at < file.len() {
        let Some(slot) = slot_of(big, &file[at..]) else {
            return refuse(Why::Capture, at);
        };
        let from = at + 16;
        let next = at + slot.size;
        counts = with_packet(counts, port, &file[from..next], slot.original, from, spots);
        at = next;
    }
    Ok(counts)
}

// What reading a file comes to, or why the file is refused; and where the messages are that are kept.
fn measure(file: &[u8], port: u16, spots: &mut [u32; 800]) -> Result<Counts, Refusal>
    requires { length spots.old ≡ 800 }
    ensures { (outcome_of result ≡ measured file.now port) × Spotted file.now port spots.new }
{
    if 65536 < file.len() {
        return refuse(Why::Large, 65536);
    }
    let big = header_good(true, file);
    if !big && !header_good(false, file) {
        return refuse(Why::Capture, 0);
    }
    count(file, big, port, spots)
}

// Stores the message that is noted by a spot from `to` on, and says where the next one goes.
fn put_noted(out: &mut [u8], to: usize, file: &[u8], spot: u32) -> usize
    requires { to ≤ 800 * 65536 }
    ensures { (out.new ≡ sets out.old to (noted file.now spot)) × (result ≡ to + spot % 65536) }
{
    let from = (spot / 65536) as usize;
    let n = (spot % 65536) as usize;
    wire::put_part(out, to, file, from, n);
    to + n
}

// Stores the first n messages that are noted from the start of `out` on.
fn store(file: &[u8], spots: &[u32; 800], n: usize, out: &mut [u8])
    requires { n ≤ 800 }
    ensures { Stored file.now spots.now n out.old out.new }
{
    let mut to = 0;
    for spot in &spots[..n] {
        to = put_noted(out, to, file, *spot);
    }
}

// What was read.
#[derive(Clone, Copy, PartialEq, Eq)]
pub struct CaptureRead {
    pub counts: Counts,
}

// Takes the messages of a capture file's datagrams to the port into a recording.
pub fn read_capture(file: &[u8], port: u16, out: &mut [u8]) -> Result<CaptureRead, Refusal>
    ensures { told_read result out.new ≡ read_capture file.now port out.old }
{
    let mut spots = [0u32; 800];
    let counts = measure(file, port, &mut spots)?;
    if out.len() < counts.bytes {
        return refuse(Why::Room, counts.bytes);
    }
    store(file, &spots, counts.kept, out);
    Ok(CaptureRead { counts })
}

// A sum of two halves, with its carry added in at the low end.
fn carry(n: usize) -> usize
    requires { n < 131071 }
    ensures { (result ≡ carried n) × (result < 65536) }
{
    n % 65536 + n / 65536
}

// The checksum of the IPv4 header before n bytes of data: of its halves, only three are not zero.
fn checksum_of(n: usize) -> u16
    requires { n ≤ 65507 }
    ensures { result ≡ checksum n }
{
    (65535 - carry(17664 + carry(28 + n + 17))) as u16
}

// Stores the header of the record of a packet with n bytes of data.
fn put_record(out: &mut [u8], to: usize, seconds: u32, nanos: u32, n: usize)
    requires { (to ≤ 9000000000) × (n ≤ 65507) }
    ensures { out.new ≡ sets out.old to (record_front seconds nanos n) }
{
    let size = (42 + n) as u32;
    wire::put_word(out, to, seconds);
    wire::put_word(out, to + 4, nanos / 1000);
    wire::put_word(out, to + 8, size);
    wire::put_word(out, to + 12, size);
}

// Stores the Ethernet and the IPv4 header of its frame.
fn put_ip(out: &mut [u8], to: usize, n: usize)
    requires { (to ≤ 9000000000) × (n ≤ 65507) }
    ensures { out.new ≡ sets out.old to (ip_front n) }
{
    wire::put_zeros(out, to, 12);
    wire::put_half(out, to + 12, 0x0800);
    wire::put_half(out, to + 14, 0x4500);
    wire::put_half(out, to + 16, (28 + n) as u16);
    wire::put_word(out, to + 18, 0);
    wire::put_half(out, to + 22, 17);
    wire::put_half(out, to + 24, checksum_of(n));
    wire::put_zeros(out, to + 26, 8);
}

// Stores its UDP header.
fn put_udp(out: &mut [u8], to: usize, port: u16, n: usize)
    requires { (to ≤ 9000000000) × (n ≤ 65507) }
    ensures { out.new ≡ sets out.old to (udp_front port n) }
{
    wire::put_half(out, to, 0);
    wire::put_half(out, to + 2, port);
    wire::put_half(out, to + 4, (8 + n) as u16);
    wire::put_half(out, to + 6, 0);
}

// Stores all of what stands before the data of a packet.
fn put_front(out: &mut [u8], to: usize, seconds: u32, nanos: u32, port: u16, n: usize)
    requires { (to ≤ 8000000000) × (n ≤ 65507) }
    ensures { out.new ≡ sets out.old to (front_of seconds nanos port n) }
{
    put_record(out, to, seconds, nanos, n);
    put_ip(out, to + 16, n);
    put_udp(out, to + 50, port, n);
}

// How many bytes the clean form of a message has.
fn clean_size(m: Message) -> usize
    requires { (m.payload ≤ m.next) × (m.next ≤ 65536) × (m.header.run ≤ 60) }
    ensures { result ≡ 24 + pad m.header.run + (m.next - m.payload) }
{
    let h = m.header;
    24 + (h.run + 3) / 4 * 4 + (m.next - m.payload)
}

// How many bytes a capture file has, and how many messages they carry.
#[derive(Clone, Copy, PartialEq, Eq)]
pub struct CaptureWritten {
    pub bytes: usize,
    pub messages: usize,
}

// What the file of a recording's messages takes, or the first message that is refused.
fn weigh(recording: &[u8]) -> Result<CaptureWritten, Refusal>
    requires { length recording.now ≤ 65536 }
    ensures { Weighs recording.now result }
{
    let mut bytes = 24;
    let mut messages = 0;
    let mut at = 0;
    while at < recording.len() {
        let m = message_at(recording, at)?;
        let next = m.next;
        let n = clean_size(m);
        if 65507 < n {
            return refuse(Why::Large, at);
        }
        bytes += 58 + n;
        messages += 1;
        at = next;
    }
    Ok(CaptureWritten { bytes, messages })
}

// Stores the header of a capture file.
fn put_file(out: &mut [u8])
    ensures { out.new ≡ sets out.old 0 (file_of []) }
{
    wire::put_word(out, 0, 0xA1_B2_C3_D4);
    wire::put_word(out, 4, 0x00_02_00_04);
    wire::put_zeros(out, 8, 8);
    wire::put_word(out, 16, 65549);
    wire::put_word(out, 20, 1);
}

// Stores the record of the message m, the first of s, from `to` on, and says where the next one goes.
fn put_message(out: &mut [u8], to: usize, port: u16, m: Message, s: &[u8]) -> usize
    requires { Sendable s.now m to (length out.old) }
    ensures { Sent s.now m port out.old out.new to result }
{
    let n = clean_size(m);
    let h = m.header;
    put_front(out, to, h.seconds, h.nanos, port, n);
    let from = to + 58;
    // It was weighed, so that it is not refused.
    let _ = compose::clean(s, &mut out[from..]);
    from + n
}

// Stores the records of a recording's messages behind the place of the file's header.
fn put_messages(recording: &[u8], port: u16, out: &mut [u8])
    requires { (length recording.now ≤ 65536) × Roomy recording.now port (length out.old) }
    ensures { LaidBehind recording.now port out.old out.new }
{
    let mut to = 24;
    let mut at = 0;
    while at < recording.len() {
        let Ok(m) = message_at(recording, at) else {
            return;
        };
        let next = m.next;
        to = put_message(out, to, port, m, &recording[at..]);
        at = next;
    }
}

// Stores the capture file of a recording that has one from the start of `out` on.
fn lay(recording: &[u8], port: u16, out: &mut [u8])
    requires { (length recording.now ≤ 65536) × Roomy recording.now port (length out.old) }
    ensures { Laid recording.now port out.old out.new }
{
    put_file(out);
    put_messages(recording, port, out);
}

// Writes the messages of a recording, each in clean form and in a datagram of its own to the port, as a capture file.
pub fn write_capture(recording: &[u8], port: u16, out: &mut [u8]) -> Result<CaptureWritten, Refusal>
    ensures { told_write result out.new ≡ write_capture recording.now port out.old }
{
    if 65536 < recording.len() {
        return refuse(Why::Large, 65536);
    }
    match weigh(recording) {
        // A message that is refused comes before one whose clean form is too large, wherever it stands.
        Err(f) => {
            message::check(recording)?;
            Err(f)
        }
        Ok(t) => {
            if out.len() < t.bytes {
                return refuse(Why::Room, t.bytes);
            }
            lay(recording, port, out);
            Ok(t)
        }
    }
}
