// Messages cut into fragments, and fragments joined into messages. Everything is checked and measured before the first store. A message's
// packages are put at the end of the fragments' bytes, cleaned there, and moved down part by part; joined ones are cleaned where they stand.
#![tactic(auto)]

ghost use Rattle.std.specs.Prelude.{◌≡◌, true, ◌&&◌, ◌||◌, eqb, ◌++◌, ◌+◌, ◌-◌, ◌*◌, ◌/◌, ◌%◌, ◌≤◌, ◌<◌, min, length, take, drop};
ghost use Rattle.std.proofs.lemmas.List.Edits.{sets};
ghost use Rattle.rules.specs.Bytes.{pad, part};
ghost use Rattle.rules.specs.Options.{option_size};
ghost use Rattle.rules.specs.Packages.{package_fits, cut, Piece};
ghost use Rattle.rules.specs.Message.{fragment_bits};
ghost use Rattle.rules.specs.Clean.{clean_piece, cleaner};
ghost use Rattle.compose.specs.Payload.{Cuts, header_of};
ghost use Rattle.fragments.specs.Fragment.{other_bits, MIDDLE, LAST, options_of, offset_option, fragment_bytes, bytes_of, next_number, FIRST, offset_in, without_offset};
ghost use Rattle.fragments.specs.Cutting.{cutter};
ghost use Rattle.fragments.specs.Stored.{WholeOptions, offset_place, CleanedAt, cleaned_of, fragment_by, numbered, bits_at, Movable, Cuttable, fragments_by, fragments_size, fragmented, one_piece, header_at, package_step, scan, package_start, starts, fits_behind, next_fragment, begins_by, Begun, gathered, kept_here, payloads_in, InOrder, kept_by, Storable, whole_by, one_if, Joinable};
ghost use Rattle.fragments.specs.Told.{told_cut, told_next, told_gathered, record_whole};
ghost use Rattle.message.specs.Answers.{told_header, head_of_header};
ghost use Rattle.fragments.specs.Joining.{says_offset, fragments_from, joiner};
ghost use Rattle.compose.specs.Told.{told};
ghost use Rattle.std.proofs.Math.Option.{none};

use compose::Record;
use message::Header;
use refusal::{Refusal, Why, refuse};

// How many bytes were written, and how many fragments they are.
#[derive(Clone, Copy)]
pub struct Fragmented {
    pub bytes: usize,
    pub fragments: usize,
}

// n rounded up to a multiple of 4.
fn round_up(n: usize) -> usize
    requires { n ≤ 65536 }
    ensures { result ≡ pad n }
{
    (n + 3) / 4 * 4
}

// How many bytes the option at the start of o has.
#[tactic(auto, unfolding(rules::specs::Options::option_size))]
fn option_size(o: &[u8]) -> usize
    ensures { result ≡ option_size o.now }
{
    if wire::byte_at(o, 0) < 0x80 {
        return 1;
    }
    wire::byte_at(o, 1) as usize
}

// Where the first option 0x86 of an option run stands, or where the run ends.
fn find_offset(run: &[u8]) -> usize
    requires { WholeOptions run.now }
    ensures { result ≡ offset_place (options_of run.now) }
{
    let mut i = 0;
    while i < run.len() {
        if wire::byte_at(run, i) == 0x86 {
            return i;
        }
        i += option_size(&run[i..]);
    }
    i
}

// Cleans a package where it stands: reserved byte and padding zero.
fn clean_package(c: &mut [u8])
    requires { Piece c.old }
    ensures { c.new ≡ clean_piece c.old }
{
    let n = c.len();
    let l = wire::half_at(c, 4) as usize;
    wire::put_byte(c, 6, 0);
    wire::put_zeros(c, l, n - l);
}

// Cleans the package at place i of a run, and says where the next one begins.
fn clean_next(run: &mut [u8], i: usize) -> usize
    requires run_value { package_fits (drop i run.old) ≡ true }
    requires i_in_bounds { (i ≤ length run.old) × (length run.old ≤ 65536) }
    ensures { CleanedAt run.old i run.new result }
{
    let end = i + round_up(wire::half_at(&run[i..], 4) as usize);
    clean_package(&mut run[i..end]);
    end
}

// Cleans the packages of a run where they stand.
fn clean_run(run: &mut [u8])
    requires cuts { Cuts run.old }
    requires run_len_bound { length run.old ≤ 65536 }
    ensures { run.new ≡ cleaned_of (cut 0 run.old) }
{
    let mut i = 0;
    while i < run.len() {
        i = clean_next(run, i);
    }
}

// Stores the header of a fragment of `size` bytes with so many option words, and its flags, bits 5-4 among them.
fn put_front(out: &mut [u8], r: Record, words: usize, flags: u8, size: usize)
    requires { (words ≤ 15) × (24 + words * 4 ≤ size) × (size < 65560 + words * 4) × (24 ≤ length out.old) }
    ensures { out.new ≡ sets out.old 0 (header_of words flags r.id.0 r.sequence size r.seconds r.nanos) }
{
    let run = words * 4;
    compose::put_header(out, r, run as u8, (size - (24 + run)) as u16);
    wire::put_byte(out, 3, flags);
}

// Stores option 0x86.
fn put_offset(out: &mut [u8], at: usize, offset: usize)
    requires { (at ≤ 65536) × (offset < 4294967296) }
    ensures { out.new ≡ sets out.old at (offset_option offset) }
{
    wire::put_half(out, at, 0x8606);
    wire::put_word(out, at + 2, offset as u32);
}

// Stores a later fragment at the start of `out`; its n bytes of payload stand from `from` on.
fn put_later(out: &mut [u8], r: Record, bits: u8, offset: usize, from: usize, n: usize)
    requires movable { Movable out.old r bits 32 from n }
    requires bits_bound { (bits < 4) × (offset < 4294967296) }
    ensures { out.new ≡ sets out.old 0 (fragment_bytes (fragment_by r bits (offset_option offset) (part from (from + n) out.old))) }
{
    put_front(out, r, 2, r.flags + bits * 16, 32 + n);
    put_offset(out, 24, offset);
    wire::put_half(out, 30, 0);
    out.copy_within(from..from + n, 32);
}

// Stores the first fragment at the start of `out`, 0x86 behind the original options; its n bytes of payload stand from `from` on.
fn put_first(out: &mut [u8], r: Record, options: &[u8], from: usize, n: usize)
    requires movable { Movable out.old r 1 (24 + pad (length options.now + 6)) from n }
    requires options_len_bound { length options.now ≤ 54 }
    ensures { out.new ≡ sets out.old 0 (fragment_bytes (fragment_by r FIRST (options.now ++ offset_option 0) (part from (from + n) out.old))) }
{
    let k = options.len();
    let m = round_up(k + 6);
    put_front(out, r, m / 4, r.flags + 16, 24 + m + n);
    wire::put_part(out, 24, options, 0, k);
    put_offset(out, 24 + k, 0);
    wire::put_zeros(out, 30 + k, m - (k + 6));
    out.copy_within(from..from + n, 24 + m);
}

// The bits of a fragment that ends at a, where the last one ends at n.
#[tactic(auto, unfolding(crate::specs::Stored::bits_at))]
fn bits_at(a: usize, n: usize) -> u8
    ensures { (result ≡ bits_at a n) × (result < 4) }
{
    if a < n { 2 } else { 3 }
}

// Stores a later fragment at place `at`, with sequence number q.
fn put_at(
    out: &mut [u8],
    r: Record,
    q: u32,
    bits: u8,
    offset: usize,
    at: usize,
    from: usize,
    n: usize,
)
    requires movable { Movable out.old r bits (at + 32) from n }
    requires bits_bound { (bits < 4) × (offset < 4294967296) }
    ensures { out.new ≡ sets out.old at (fragment_bytes (fragment_by (numbered r q) bits (offset_option offset) (part from (from + n) out.old))) }
{
    let mine = Record { sequence: q, ..r };
    put_later(&mut out[at..], mine, bits, offset, from - at, n);
}

// Puts the packages of a run, cleaned, at the end of the first n bytes.
fn put_clean(out: &mut [u8], run: &[u8], n: usize)
    requires cuts { Cuts run.now }
    requires run_len_bound { (length run.now ≤ n) × (n ≤ length out.old) × (length run.now ≤ 65536) }
    ensures { out.new ≡ take (n - length run.now) out.old ++ (cleaned_of (cut 0 run.now) ++ drop n out.old) }
{
    let k = run.len();
    wire::put_part(out, n - k, run, 0, k);
    clean_run(&mut out[n - k..n]);
}

// Stores the fragments of a message, n bytes in all. The cleaned payload is put at their end first and then moved down, part by part.
fn put_fragments(out: &mut [u8], r: Record, options: &[u8], packages: &[u8], size: usize, n: usize)
    requires cuttable { Cuttable r options.now packages.now size }
    requires n_value { (n ≡ fragments_size options.now packages.now (length (fragments_by r options.now packages.now size))) × (n ≤ length out.old) × (n ≤ 4294967296) }
    ensures { out.new ≡ sets out.old 0 (bytes_of (fragments_by r options.now packages.now size)) }
{
    let base = n - packages.len();
    put_clean(out, packages, n);
    put_first(out, r, options, base, size);
    let mut at = 24 + round_up(options.len() + 6) + size;
    let mut from = base + size;
    let mut q = r.sequence.wrapping_add(1);
    while from < n {
        let m = size.min(n - from);
        let bits = bits_at(from + m, n);
        put_at(out, r, q, bits, from - base, at, from, m);
        at += 32 + m;
        from += m;
        q = q.wrapping_add(1);
    }
}

// The fragments of a message that was checked, stored where there is room for them.
fn finish_cut(
    r: Record,
    options: &[u8],
    packages: &[u8],
    size: usize,
    out: &mut [u8],
) -> Result<Fragmented, Refusal>
    requires { Cuttable r options.now packages.now size }
    ensures { told_cut result out.new ≡ fragmented r options.now packages.now size out.old }
{
    let k = packages.len().div_ceil(size);
    let n = 24 + round_up(options.len() + 6) + packages.len() + 32 * (k - 1);
    if out.len() < n {
        return refuse(Why::Room, n);
    }
    put_fragments(out, r, options, packages, size, n);
    Ok(Fragmented {
        bytes: n,
        fragments: k,
    })
}

// A message whose payload fits: its clean form.
fn finish_whole(s: &[u8], out: &mut [u8]) -> Result<Fragmented, Refusal>
    ensures { told_cut result out.new ≡ one_piece (cleaner s.now out.old) }
{
    let bytes = compose::clean(s, out)?;
    Ok(Fragmented {
        bytes,
        fragments: 1,
    })
}

// Cuts the clean form of the first message of s into fragments with `size` bytes of payload each.
pub fn cut(s: &[u8], size: usize, out: &mut [u8]) -> Result<Fragmented, Refusal>
    ensures { told_cut result out.new ≡ cutter size s.now out.old }
{
    let m = message::message_at(s, 0)?;
    let h = m.header;
    let from = m.payload;
    let next = m.next;
    let end = 24 + h.run;
    if size < 4 || size % 4 != 0 {
        return refuse(Why::Length, 0);
    }
    let at = find_offset(&s[24..end]);
    if at < h.run {
        return refuse(Why::Option, 24 + at);
    }
    if next - from <= size {
        return finish_whole(s, out);
    }
    if 54 < h.run {
        return refuse(Why::Option, 24);
    }
    finish_cut(
        compose::record_of(h),
        &s[24..end],
        &s[from..next],
        size,
        out,
    )
}

// ---- joining

// The header of the fragment at place i, read with checks 1 to 7.
fn header_at(s: &[u8], i: usize) -> Result<Header, Refusal>
    requires { (i ≤ length s.now) × (length s.now ≤ 65536) }
    ensures { told_header result ≡ header_at s.now i }
{
    match message::read_header(&s[i..]) {
        Ok(h) => Ok(h),
        Err(x) => refuse(x.why, i + x.place),
    }
}

// The words that were passed: their state, and how many packages begin in them.
#[derive(Clone, Copy)]
struct Passed {
    state: usize,
    packages: usize,
}

// The state behind one word, which begins with l.
#[tactic(auto, unfolding(crate::specs::Stored::package_step))]
fn state_step(state: usize, l: usize) -> usize
    requires { (l < 65536) × (state < 4294967296) }
    ensures { (result ≡ package_step state l) × (result < 4294967296) }
{
    match state {
        0 => 1,
        1 if l < 12 => 2,
        1 => round_up(l) - 8,
        2 => 2,
        _ => state.saturating_sub(4),
    }
}

// One word more, which begins with l.
#[tactic(auto, unfolding(crate::specs::Stored::package_start))]
fn package_step(st: Passed, l: usize) -> Passed
    requires { (l < 65536) × (st.state < 4294967296) × (st.packages < 4294967296) }
    ensures { (result.state ≡ package_step st.state l) × (result.packages ≡ st.packages + package_start st.state) × (result.state < 4294967296) }
{
    let state = state_step(st.state, l);
    if st.state == 0 {
        return Passed {
            state,
            packages: st.packages + 1,
        };
    }
    Passed { state, ..st }
}

// How many of n bytes are left of a package whose words are passed: whole words, of which nothing is looked at.
fn rest_in(state: usize, n: usize) -> usize
    ensures { result ≡ min (state / 4 * 4) n }
{
    (state / 4 * 4).min(n)
}

// n bytes less are left of it.
fn without(st: Passed, n: usize) -> Passed
    requires { n ≤ st.state }
    ensures { result ≡ record { state = st.state - n; packages = st.packages } }
{
    Passed {
        state: st.state - n,
        ..st
    }
}

// The words of a run passed as well. What is left of a package is passed at once.
fn scan_run(run: &[u8], start: Passed) -> Passed
    requires { (start.state < 4294967296) × (start.packages ≤ 65536) × (length run.now % 4 ≡ 0) × (length run.now ≤ 65536) }
    ensures { (result.state ≡ scan start.state run.now) × (result.packages ≡ start.packages + starts start.state run.now) × (result.state < 4294967296) }
{
    let mut i = 0;
    let mut st = start;
    while i < run.len() {
        if 4 <= st.state {
            let n = rest_in(st.state, run.len() - i);
            st = without(st, n);
            i += n;
        } else {
            st = package_step(st, wire::half_at(run, i) as usize);
            i += 4;
        }
    }
    st
}

// Whether the first option 0x86 of a run is there and says o.
fn offset_is(run: &[u8], o: usize) -> bool
    requires { WholeOptions run.now }
    ensures { result ≡ says_offset (offset_in (options_of run.now)) o }
{
    let at = find_offset(run);
    at < run.len() && wire::word_at(&run[at..], 2) as usize == o
}

// Flag bits 5-4: a whole message is 0, and the first, a middle and the last fragment of one are 1, 2 and 3.
fn fragment_bits(flags: u8) -> u8
    ensures { result ≡ fragment_bits flags }
{
    flags / 16 % 4
}

// The other flags.
fn other_bits(flags: u8) -> u8
    ensures { result ≡ other_bits flags }
{
    flags / 64 * 64 + flags % 16
}

// Whether the last fragment is still to come behind one with these bits.
fn goes_on(bits: u8) -> bool
    ensures { result ≡ (eqb bits FIRST || eqb bits MIDDLE) }
{
    bits == 1 || bits == 2
}

// Whether a fragment with these bits stands behind another one.
fn goes_behind(bits: u8) -> bool
    ensures { result ≡ (eqb bits MIDDLE || eqb bits LAST) }
{
    bits == 2 || bits == 3
}

// Whether g has the id, time and other flags of h.
fn same_message(g: Header, h: Header) -> bool
    ensures { result ≡ (eqb g.id.0 h.id.0 && eqb g.seconds h.seconds && eqb g.nanos h.nanos && eqb (other_bits g.flags) (other_bits h.flags)) }
{
    g.id.0 == h.id.0
        && g.seconds == h.seconds
        && g.nanos == h.nanos
        && other_bits(g.flags) == other_bits(h.flags)
}

// Whether the fragment with header g and this option run may stand behind one with bits `last`, where h is the first header, q the next number and o the next offset.
#[tactic(auto, unfolding(crate::specs::Stored::fits_behind))]
fn fits_behind(h: Header, last: u8, q: u32, o: usize, g: Header, run: &[u8]) -> bool
    requires { WholeOptions run.now }
    ensures { result ≡ fits_behind (head_of_header h) last q o (head_of_header g) run.now }
{
    goes_on(last)
        && goes_behind(fragment_bits(g.flags))
        && offset_is(run, o)
        && g.sequence == q
        && same_message(g, h)
}

// Where the payload of the next fragment begins and ends, and its bits.
#[derive(Clone, Copy)]
struct Next {
    from: usize,
    to: usize,
    bits: u8,
}

fn next_fragment(s: &[u8], i: usize, h: Header, last: u8, q: u32, o: usize) -> Result<Next, Refusal>
    requires { (i ≤ length s.now) × (length s.now ≤ 65536) }
    ensures { told_next result ≡ next_fragment s.now i (head_of_header h) last q o }
{
    let g = header_at(s, i)?;
    let a = i + 24;
    let e = a + g.run;
    if !fits_behind(h, last, q, o, g, &s[a..e]) {
        return refuse(Why::Gap, i);
    }
    let from = i + (24 + 4 * g.words as usize);
    let to = i + g.length as usize;
    let bits = fragment_bits(g.flags);
    Ok(Next { from, to, bits })
}

// Whether the fragment with header g and this option run may stand first.
#[tactic(auto, unfolding(crate::specs::Stored::begins_by))]
fn begins(g: Header, run: &[u8]) -> bool
    requires { WholeOptions run.now }
    ensures { result ≡ begins_by (head_of_header g) run.now }
{
    match fragment_bits(g.flags) {
        0 => true,
        1 => offset_is(run, 0),
        _ => false,
    }
}

// How long the joined payload is, and what was passed of it.
#[derive(Clone, Copy)]
struct Gathered {
    payload: usize,
    passed: Passed,
}

// The fragments behind the first, whose header is h.
fn follow(s: &[u8], h: Header) -> Result<Gathered, Refusal>
    requires begun { Begun s.now (head_of_header h) h.run }
    requires s_len_bound { length s.now ≤ 65536 }
    ensures { told_gathered result ≡ gathered s.now }
{
    let start = 24 + 4 * h.words as usize;
    let mut i = h.length as usize;
    let mut st = scan_run(
        &s[start..i],
        Passed {
            state: 0,
            packages: 0,
        },
    );
    let mut o = i - start;
    let mut last = fragment_bits(h.flags);
    let mut q = h.sequence.wrapping_add(1);
    while i < s.len() {
        let f = next_fragment(s, i, h, last, q, o)?;
        st = scan_run(&s[f.from..f.to], st);
        o += f.to - f.from;
        last = f.bits;
        q = q.wrapping_add(1);
        i = f.to;
    }
    if goes_on(last) {
        return refuse(Why::Gap, s.len());
    }
    Ok(Gathered {
        payload: o,
        passed: st,
    })
}

// All the fragments read: checks 1 to 7 and GAP, one fragment behind the other.
fn gather(s: &[u8]) -> Result<Gathered, Refusal>
    requires { length s.now ≤ 65536 }
    ensures { told_gathered result ≡ gathered s.now }
{
    if s.is_empty() {
        return refuse(Why::Gap, 0);
    }
    let h = header_at(s, 0)?;
    let end = 24 + h.run;
    if !begins(h, &s[24..end]) {
        return refuse(Why::Gap, 0);
    }
    follow(s, h)
}

// How many bytes of the option at the start of o are kept: none of 0x86.
#[tactic(auto, unfolding(crate::specs::Stored::kept_here))]
fn kept_here(o: &[u8]) -> usize
    ensures { result ≡ kept_here o.now }
{
    if wire::byte_at(o, 0) == 0x86 {
        return 0;
    }
    option_size(o)
}

// How many bytes an option run has without its options 0x86.
fn kept_size(run: &[u8]) -> usize
    requires { WholeOptions run.now }
    ensures { result ≡ length (without_offset (options_of run.now)) }
{
    let mut i = 0;
    let mut n = 0;
    while i < run.len() {
        let m = kept_here(&run[i..]);
        i += option_size(&run[i..]);
        n += m;
    }
    n
}

// Stores an option run without its options 0x86.
fn put_kept(out: &mut [u8], at: usize, run: &[u8])
    requires whole_options { WholeOptions run.now }
    requires at_bound { (at ≤ 65536) × (length run.now ≤ 65536) }
    ensures { out.new ≡ sets out.old at (without_offset (options_of run.now)) }
{
    let mut i = 0;
    let mut k = at;
    while i < run.len() {
        let m = kept_here(&run[i..]);
        wire::put_part(out, k, run, i, m);
        i += option_size(&run[i..]);
        k += m;
    }
}

// Stores the payloads of the fragments of s, one behind the other.
fn put_payloads(out: &mut [u8], at: usize, s: &[u8])
    requires in_order { InOrder s.now }
    requires at_bound { (at ≤ 65536) × (length s.now ≤ 65536) }
    ensures { out.new ≡ sets out.old at (payloads_in (fragments_from none 0 0 s.now)) }
{
    let mut i = 0;
    let mut k = at;
    while i < s.len() {
        let from = i + (24 + 4 * (wire::byte_at(s, i) % 16) as usize);
        let to = i + wire::word_at(&s[i..], 12) as usize;
        wire::put_part(out, k, s, from, to - from);
        k += to - from;
        i = to;
    }
}

// How many bytes of options the joined message has: all of a whole message's, of a first fragment's all but 0x86.
fn kept_of(bits: u8, run: &[u8]) -> usize
    requires { WholeOptions run.now }
    ensures { result ≡ length (kept_by bits run.now) }
{
    if bits == 0 {
        return run.len();
    }
    kept_size(run)
}

// Stores them behind the header.
fn put_kept_of(out: &mut [u8], bits: u8, run: &[u8])
    requires whole_options { WholeOptions run.now }
    requires run_len_bound { length run.now ≤ 65536 }
    ensures { out.new ≡ sets out.old 24 (kept_by bits run.now) }
{
    if bits == 0 {
        wire::put_part(out, 24, run, 0, run.len());
        return;
    }
    put_kept(out, 24, run);
}

// Stores the joined message; its packages are cleaned where they stand.
fn put_joined(out: &mut [u8], r: Record, bits: u8, run: &[u8], s: &[u8], k: usize, n: usize)
    requires whole_options { WholeOptions run.now }
    requires in_order { InOrder s.now }
    requires storable { Storable out.old bits run.now s.now k n }
    ensures { out.new ≡ sets out.old 0 (fragment_bytes (whole_by r (kept_by bits run.now) (payloads_in (fragments_from none 0 0 s.now)))) }
{
    let m = round_up(k);
    put_front(out, r, m / 4, r.flags, n);
    put_kept_of(out, bits, run);
    wire::put_zeros(out, 24 + k, m - k);
    put_payloads(out, 24 + m, s);
    clean_run(&mut out[24 + m..n]);
}

// The numbers of the joined message: those of the first header, bits 5-4 zero.
fn joined_record(h: Header) -> Record
    ensures { result ≡ record_whole h }
{
    Record {
        flags: other_bits(h.flags),
        ..compose::record_of(h)
    }
}

// The joined message, checked from check 9 on and stored where there is room for it. h is the first header.
fn finish_join(
    s: &[u8],
    h: Header,
    payload: usize,
    passed: Passed,
    out: &mut [u8],
) -> Result<usize, Refusal>
    requires { Joinable s.now (head_of_header h) h.run payload passed }
    ensures { told result out.new ≡ joiner s.now out.old }
{
    if h.flags / 128 % 2 != u8::from(0 < payload) {
        return refuse(Why::Standard, 0);
    }
    if passed.state != 0 {
        return refuse(Why::Package, 0);
    }
    let end = 24 + h.run;
    if message::miscounts(&s[24..end], passed.packages) {
        return refuse(Why::Count, 0);
    }
    let bits = fragment_bits(h.flags);
    let k = kept_of(bits, &s[24..end]);
    let n = 24 + round_up(k) + payload;
    if out.len() < n {
        return refuse(Why::Room, n);
    }
    put_joined(out, joined_record(h), bits, &s[24..end], s, k, n);
    Ok(n)
}

// Joins the fragments of s into a clean form, or cleans one whole message.
pub fn join(s: &[u8], out: &mut [u8]) -> Result<usize, Refusal>
    ensures { told result out.new ≡ joiner s.now out.old }
{
    if 65536 < s.len() {
        return refuse(Why::Large, 65536);
    }
    let all = gather(s)?;
    let h = header_at(s, 0)?;
    finish_join(s, h, all.payload, all.passed, out)
}
