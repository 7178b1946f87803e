// Steps of a package walk.
use message::Package;
use refusal::Refusal;

// What a step found: number, place, whether a package is shown, its id, L, status and delta, which are zero where none is.
pub fn found(rt: &HostRuntime, step: Result<Option<Package>, Refusal>) {
    crate::told(rt, step.err());
    let _ = match step {
        Ok(Some(p)) => print!(rt; "1 {} {} {} {} ", p.id.0, p.length, p.status, p.delta),
        _ => print!(rt; "0 0 0 0 0 "),
    };
}

// What a step found, the walk's next place, and the data shown.
pub fn shown(rt: &HostRuntime, step: Result<Option<Package>, Refusal>, next: usize, bytes: &[u8]) {
    found(rt, step);
    let _ = print!(rt; "{next} ");
    crate::show(rt, bytes);
}

fn step(rt: &HostRuntime, run: &[u8], at: usize) {
    shown(
        rt,
        walk::step_at(run, at),
        walk::next_at(run, at),
        walk::data_at(run, at),
    );
}

// The same with the length of the data in their place.
fn long_step(rt: &HostRuntime, run: &[u8], at: usize) {
    found(rt, walk::step_at(run, at));
    let _ = println!(rt;
        "{} {} ",
        walk::next_at(run, at),
        walk::data_at(run, at).len()
    );
}

// A step of M's payload, with this word for the one with the first L.
fn payload(rt: &HostRuntime, length: u32, at: usize) {
    let m = crate::changed(28, length);
    step(rt, &m[24..56], at);
}

// A run of exactly 65,536 bytes, with this word for the one with L, and zero otherwise.
fn whole_run(rt: &HostRuntime, length: u32, at: usize) {
    let mut run = [0u8; 65536];
    wire::put_word(&mut run, 4, length);
    long_step(rt, &run, at);
}

// LARGE comes before the end.
fn large(rt: &HostRuntime) {
    let run = crate::long();
    step(rt, &run, 70000);
}

pub fn walking(rt: &HostRuntime) {
    // M's two packages without their padding, and then the end.
    payload(rt, 0x000D0000, 0);
    payload(rt, 0x000D0000, 16);
    payload(rt, 0x000D0000, 32);
    // With the first L = 17 the second package would begin at 20. PACKAGE there, and the walk stays.
    payload(rt, 0x00110000, 20);
    // L = 65,535 rounds up to the whole run. Behind it is the end, wherever.
    whole_run(rt, 0xFFFF0000, 0);
    whole_run(rt, 0xFFFF0000, 65536);
    whole_run(rt, 0xFFFF0000, 70000);
    // With L = 65,524 the second package would begin at 65,524, where 12 bytes are left, and its L is 0.
    whole_run(rt, 0xFFF40000, 0);
    whole_run(rt, 0xFFF40000, 65524);
    large(rt);
}
