// Messages from their parts.
ghost use Rattle.std.specs.Prelude.{◌≤◌};

use compose::Record;
use message::Mdid;
use refusal::Refusal;

// The writer, with message 7, number 5 and 100 s, as in M.
fn write(
    flags: u8,
    nanos: u32,
    options: &[u8],
    packages: &[u8],
    out: &mut [u8],
) -> Result<usize, Refusal> {
    let r = Record {
        flags,
        id: Mdid(7),
        sequence: 5,
        seconds: 100,
        nanos,
    };
    compose::write(r, options, packages, out)
}

// The answer and the buffer, which has `room` bytes.
fn written(rt: &HostRuntime, flags: u8, nanos: u32, options: &[u8], packages: &[u8], room: usize)
    requires { room ≤ 68 }
{
    let mut buffer = [0xEEu8; 68];
    let out = &mut buffer[0..room];
    crate::counted(rt, write(flags, nanos, options, packages, out));
    crate::show(rt, out);
}

// M's parts, with this word for the one with the first L, and the first `count` bytes of P7's option run, which says so many packages.
// All flag bits but 7 are 0 in M, and 7 does not count.
fn parts(rt: &HostRuntime, length: u32, count: usize, packages: u8, room: usize)
    requires { (count ≤ 6) × (room ≤ 68) }
{
    let run = [0x87, 0x06, 0x00, 0x00, 0x00, packages];
    let m = crate::changed(28, length);
    written(rt, 0x80, 0, &run[0..count], &m[24..56], room);
}

// No packages.
fn bare(rt: &HostRuntime, flags: u8, nanos: u32, options: &[u8], room: usize)
    requires { room ≤ 68 }
{
    written(rt, flags, nanos, options, b"", room);
}

// An option run and a run of packages of so many bytes, and a buffer of one word.
fn long(rt: &HostRuntime, nanos: u32, options: usize, packages: usize)
    requires { (options ≤ 65537) × (packages ≤ 65537) }
{
    let run = crate::long();
    let other = crate::long();
    written(rt, 0x80, nanos, &run[0..options], &other[0..packages], 4);
}

fn refusing(rt: &HostRuntime) {
    // TIME at 0, before the option run is looked at.
    bare(rt, 0x80, 1000000000, b"\x00", 4);
    // OPTION: 61 bytes, place 60; an 0x00 at its place; an option that ends in the zero fill.
    long(rt, 0, 61, 0);
    bare(rt, 0x80, 0, b"\x01\x00\x01", 4);
    bare(rt, 0x80, 0, b"\x80\x04\x00", 4);
    // PACKAGE, its place in the run: M's first L = 17 makes the second package begin at 20.
    parts(rt, 0x00110000, 0, 0, 4);
    // COUNT at 0: behind PACKAGE, and before ROOM.
    parts(rt, 0x00110000, 6, 1, 4);
    parts(rt, 0x000D0000, 6, 1, 4);
    bare(rt, 0x00, 0, b"\x87\x06\x00\x00\x00\x01", 4);
    // LARGE comes first: 65,513 option bytes; 65,512 are not too many, but more than 60.
    long(rt, 1000000000, 65513, 0);
    long(rt, 0, 65512, 0);
    // 65,516 package bytes with the header are more than 65,536.
    long(rt, 0, 0, 65516);
}

pub fn writing(rt: &HostRuntime) {
    // M's parts give M's clean form; with an option run that says two packages, that of M with these option bytes.
    parts(rt, 0x000D0000, 0, 0, 56);
    parts(rt, 0x000D0000, 6, 2, 68);
    // One byte too few.
    parts(rt, 0x000D0000, 0, 0, 55);
    // No packages: flag 7 is 0. Of the flags, bits 6, 3, 2, 1 and 0 are kept.
    bare(rt, 0xFF, 999999999, b"", 24);
    refusing(rt);
}
