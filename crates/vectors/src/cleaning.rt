// Clean forms.
ghost use Rattle.std.specs.Prelude.{◌≤◌};

// The answer, and the buffer.
fn cleaned(rt: &HostRuntime, s: &[u8], out: &mut [u8]) {
    crate::counted(rt, compose::clean(s, out));
    crate::show(rt, out);
}

// M, into a buffer of just its size: padding and reserved byte are zero. The clean form again: nothing changes.
fn twice(rt: &HostRuntime) {
    let m = crate::message_m();
    let mut once = [0xEEu8; 56];
    cleaned(rt, &m, &mut once);
    let mut again = [0xEEu8; 60];
    cleaned(rt, &once, &mut again);
}

// M with option bytes behind an 0x00, which say so many packages: two words, the last two bytes zero.
fn with_options(rt: &HostRuntime, packages: u8) {
    let n = crate::saying(packages);
    let mut out = [0xEEu8; 64];
    cleaned(rt, &n, &mut out);
}

// M with other bytes behind it.
fn followed_m() -> [u8; 65537] {
    let m = crate::message_m();
    let mut s = crate::long();
    wire::put_part(&mut s, 0, &m, 0, 56);
    s
}

// The first `count` bytes of M and what follows it, into a buffer of `room` bytes.
fn part(rt: &HostRuntime, count: usize, room: usize)
    requires { (count ≤ 65537) × (room ≤ 56) }
{
    let s = followed_m();
    let mut out = [0xEEu8; 56];
    cleaned(rt, &s[0..count], &mut out[0..room]);
}

pub fn cleaning(rt: &HostRuntime) {
    twice(rt);
    // One byte too few: ROOM, 56, and the buffer is as it was.
    part(rt, 56, 55);
    with_options(rt, 2);
    // P7's message says one package and has two: COUNT at 0, and the buffer is as it was.
    with_options(rt, 1);
    // 23 bytes: SHORT at 0. Behind M, what follows is ignored, up to 65,536 bytes.
    part(rt, 23, 4);
    part(rt, 65537, 4);
    part(rt, 65536, 56);
}
