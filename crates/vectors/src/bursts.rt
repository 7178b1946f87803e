// The randomizer and bursts.
ghost use Rattle.std.specs.Prelude.{◌≤◌};

// Number, place and codeblocks.
fn opened(rt: &HostRuntime, buf: &mut [u8]) {
    crate::counted(rt, burst::open_burst(buf));
    crate::end(rt);
}

// Number and place.
fn randomized(rt: &HostRuntime, buf: &mut [u8]) {
    crate::told(rt, burst::randomize(buf).err());
    crate::end(rt);
}

// How many bytes of s are not v.
fn others(rt: &HostRuntime, s: &[u8], v: u8) {
    let n = s.iter().filter(|b| **b != v).count();
    let _ = println!(rt; "{n} ");
}

// A marker and two codeblocks of zero bytes.
fn zero_burst() -> [u8; 1544] {
    let mut burst = [0u8; 1544];
    wire::put_part(&mut burst, 0, b"\x03\x47\x76\xC7\x27\x28\x95\xB0", 0, 8);
    burst
}

fn show_part(rt: &HostRuntime, burst: [u8; 1544], from: usize, to: usize)
    requires { (from ≤ to) × (to ≤ 1544) }
{
    crate::show(rt, &burst[from..to]);
}

// Zero bytes open to the sequence, which runs on: bytes 0 to 4, 255 and 768 of P12. The marker stays.
// Opened again, the codeblocks are zero again.
fn twice(rt: &HostRuntime) {
    let mut burst = zero_burst();
    opened(rt, &mut burst);
    show_part(rt, burst, 0, 13);
    show_part(rt, burst, 263, 264);
    show_part(rt, burst, 776, 777);
    opened(rt, &mut burst);
    others(rt, &burst[8..], 0);
}

// The first `count` bytes of a marker and two codeblocks.
fn cut(rt: &HostRuntime, count: usize)
    requires { count ≤ 1544 }
{
    let mut burst = zero_burst();
    opened(rt, &mut burst[0..count]);
}

// 65,537 bytes: LARGE, and no byte has changed.
fn large(rt: &HostRuntime) {
    let mut buf = crate::long();
    randomized(rt, &mut buf);
    others(rt, &buf, 0x20);
}

// Five zero bytes are randomized to the sequence's first.
fn five(rt: &HostRuntime) {
    let mut buf = [0u8; 5];
    randomized(rt, &mut buf);
    crate::show(rt, &buf);
}

pub fn bursts(rt: &HostRuntime) {
    twice(rt);
    // A marker alone: BLOCKS at 8. Seven bytes of it: MARKER at 0.
    cut(rt, 8);
    cut(rt, 7);
    large(rt);
    five(rt);
}
