// A package walk in its own struct: each step is taken from the walk that the step before handed back.
use walk::Walk;

// A step: prints what it shows, and hands back the walk.
fn step<'a>(rt: &HostRuntime, w: Walk<'a>) -> Walk<'a> {
    let s = walk::next(w);
    crate::walking::shown(rt, s.step, s.walk.at, s.bytes);
    s.walk
}

fn three_steps(rt: &HostRuntime, run: &[u8]) {
    step(rt, step(rt, step(rt, walk::new(run))));
}

// Three steps of M's payload, with this word for the one with the first L, and what its first step finds by itself.
fn payload(rt: &HostRuntime, length: u32) {
    let m = crate::changed(28, length);
    let run = &m[24..56];
    three_steps(rt, run);
    crate::walking::found(rt, walk::first(run));
    crate::end(rt);
}

pub fn stepping(rt: &HostRuntime) {
    // M's two packages without their padding, and then the end.
    payload(rt, 0x000D0000);
    // With the first L = 17 the second package would begin at 20. PACKAGE there, and again: the walk stays.
    payload(rt, 0x00110000);
}
