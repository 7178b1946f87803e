// release_long RECORDING SHEET: writes the copy of a recording of any length to standard output, or the line `refused NUMBER PLACE`. It goes over the
// recording twice, window by window, in steps: the first time they are only measured, and the second time written, if none was refused. At the end a line on
// standard error says what was done. Where a third argument says the recording's size, a line on standard error tells how far it is.
#![tactic(auto)]

ghost use Rattle.std.specs.Prelude.{◌≡◌, ◌+◌, ◌≤◌, length, IfOk};
ghost use Rattle.step.specs.Told.{state_in};
ghost use Rattle.release_long.specs.Keeps.{fresh, stepped_on, turned_on, passed_on};

use numbered::Progress;
use refusal::{Refusal, Why};
use std::env::Env;
use std::fs::File;
use std::io;
use std::io::{Error, ErrorKind};
use step::{State, Stepped};

// A proved loop has to end: these are more turns than any recording takes.
const TURNS: usize = 1_000_000_000_000;

// No id is held.
fn no_ids() -> State
    ensures { state_in result ≡ fresh }
{
    State {
        ids: [0; 64],
        next: [0; 64],
        held: 0,
    }
}

// A step over whole messages, measured alone where it does not write: all of them are taken, since the quota is above their bytes.
fn step_over(part: &[u8], sheet: &[u8], state: State, writes: bool, out: &mut [u8]) -> Stepped
    requires { length part.now ≤ 65536 }
    ensures { stepped_on sheet.now writes part.now (state_in state) result }
{
    if writes {
        return step::step(part, sheet, 65537, state, out);
    }
    step::measure(part, sheet, 65537, state)
}

// What a turn takes: so many bytes of a window, with what that wrote, and the state after it.
#[derive(Clone, Copy)]
struct Taken {
    bytes: usize,
    progress: Progress,
    state: State,
}

// Whole messages of a window, in a step.
fn take_part(
    part: &[u8],
    sheet: &[u8],
    state: State,
    writes: bool,
    out: &mut [u8],
) -> Result<Taken, Refusal>
    requires { length part.now ≤ 65536 }
    ensures { turned_on sheet.now writes (state_in state) result }
{
    let stepped = step_over(part, sheet, state, writes, out);
    let progress = stepped.answer?;
    Ok(Taken {
        bytes: part.len(),
        progress,
        state: stepped.state,
    })
}

// What of a window is handed over is taken.
fn hand_window(
    window: &[u8],
    goes_on: bool,
    sheet: &[u8],
    state: State,
    writes: bool,
    out: &mut [u8],
) -> Result<Taken, Refusal>
    requires { length window.now ≤ 65536 }
    ensures { turned_on sheet.now writes (state_in state) result }
{
    let n = windows::hand_over(window, goes_on)?;
    take_part(&window[..n], sheet, state, writes, out)
}

// Where the recording goes on, what is whole by the messages' lengths is taken, if the step takes it: then no message is checked twice. Otherwise all is
// checked first, so that a refusal is that of the window's first bad message.
fn take_window(
    window: &[u8],
    goes_on: bool,
    sheet: &[u8],
    state: State,
    writes: bool,
    out: &mut [u8],
) -> Result<Taken, Refusal>
    requires { length window.now ≤ 65536 }
    ensures { turned_on sheet.now writes (state_in state) result }
{
    if goes_on {
        let n = windows::whole_bytes(window);
        let taken = take_part(&window[..n], sheet, state, writes, out);
        if 0 < n && taken.is_ok() {
            return taken;
        }
    }
    hand_window(window, goes_on, sheet, state, writes, out)
}

// Why a recording is not gone over to its end: a refusal, with its place in the whole recording; or it can't be read, or the copy not written.
#[derive(Clone, Copy)]
enum Stop {
    Refused(Refusal),
    Unread(Error),
    Unwritten(Error),
}

// The refusal of a window that begins at this place.
fn refused_behind(place: usize, f: Refusal) -> Stop {
    Stop::Refused(Refusal {
        why: f.why,
        place: f.place.wrapping_add(place),
    })
}

// The turn that begins at a place of the recording, in buffers that are lent: what the window before it kept back is read again. Where more than a window is
// read, the recording goes on behind it.
fn take_turn(
    recording: &mut File,
    place: usize,
    sheet: &[u8],
    state: State,
    writes: bool,
    buf: &mut [u8],
    out: &mut [u8],
) -> Result<Taken, Stop>
    ensures { turned_on sheet.now writes (state_in state) result }
{
    let n = files::fill_from(recording, place as u64, buf).map_err(Stop::Unread)?;
    let window = &buf[..n.min(65536)];
    take_window(window, 65536 < n, sheet, state, writes, out).map_err(|f| refused_behind(place, f))
}

// How many bytes of the copy are gathered after a turn that took n bytes, and wrote into the buffer behind the first `used`. They are written where less than
// a window's 65,536 bytes are left of the 524,288, and where nothing was taken, so that no turn follows. A pass that measures alone gathers nothing.
fn gather(
    rt: &HostRuntime,
    out: &[u8],
    used: usize,
    n: usize,
    p: Progress,
    writes: bool,
) -> io::Result<usize>
    requires { used ≤ length out.now }
    ensures { IfOk result (λ n. n ≤ 458752) }
{
    if !writes {
        return Ok(0);
    }
    if out.len() - used < p.bytes {
        return Err(Error::from(ErrorKind::WriteZero));
    }
    let all = used + p.bytes;
    if 0 < n && all <= 458752 {
        return Ok(all);
    }
    rt.write_all(&out[..all])?;
    Ok(0)
}

// What is done so far: the place in the recording up to which it is taken, the messages handled, and what was written.
#[derive(Clone, Copy, Default, PartialEq, Eq)]
struct Done {
    place: usize,
    handled: usize,
    bytes: usize,
    messages: usize,
    packages: usize,
}

// One part more, of n bytes.
fn with_part(d: Done, n: usize, p: Progress) -> Done
    requires { (d.place ≤ 65536000000000000) × (n ≤ 65536) }
    ensures { result.place ≡ d.place + n }
{
    Done {
        place: d.place + n,
        handled: d.handled.wrapping_add(p.handled),
        bytes: d.bytes.wrapping_add(p.bytes),
        messages: d.messages.wrapping_add(p.messages),
        packages: d.packages.wrapping_add(p.packages),
    }
}

// How far a pass is, for whoever waits: a line that is rewritten every 4 megabytes, which pass it is and the bytes of all bytes. Their number is shown as it
// was handed in, and nothing is told where it was not.
fn tell(rt: &HostRuntime, writes: bool, size: &[u8], place: usize) {
    if size.is_empty() {
        return;
    }
    if place % 4194304 < 65536 {
        let pass = if writes { 2 } else { 1 };
        let _ = eprint!(rt; "\rpass {pass} of 2: {place} of ");
        let _ = rt.stderr().write_all(size);
        let _ = eprint!(rt; " bytes");
    }
}

// The line that is rewritten ends before anything else is said.
fn end_line(rt: &HostRuntime, size: &[u8]) {
    if !size.is_empty() {
        let _ = eprintln!(rt);
    }
}

// Goes over the recording from its first byte, turn by turn; one that takes nothing is the end. Each is lent what is left of the buffer in which the copy is
// gathered.
fn go_over(
    rt: &HostRuntime,
    recording: &mut File,
    sheet: &[u8],
    writes: bool,
    size: &[u8],
) -> Result<Done, Stop>
    ensures { passed_on sheet.now result }
{
    let mut window = [0u8; 65537];
    let mut out = [0u8; 524288];
    let mut used = 0;
    let mut state = no_ids();
    let mut done = Done::default();
    for _ in 0..TURNS {
        let room = &mut out[used..];
        let taken = take_turn(
            recording,
            done.place,
            sheet,
            state,
            writes,
            &mut window,
            room,
        )?;
        let n = taken.bytes;
        let p = taken.progress;
        used = gather(rt, &out, used, n, p, writes).map_err(Stop::Unwritten)?;
        if n == 0 {
            return Ok(done);
        }
        state = taken.state;
        done = with_part(done, n, p);
        tell(rt, writes, size, done.place);
    }
    Err(Stop::Unread(Error::from(ErrorKind::FileTooLarge)))
}

fn refuse(rt: &HostRuntime, f: Refusal) {
    let _ = println!(rt; "{f}");
}

fn say_why(rt: &HostRuntime, stop: Stop) {
    match stop {
        Stop::Refused(f) => refuse(rt, f),
        Stop::Unread(e) => files::fail(rt, b"recording", e),
        Stop::Unwritten(e) => files::fail(rt, b"standard output", e),
    }
}

// What was done, in a line.
fn sum_up(rt: &HostRuntime, d: Done) {
    let Done {
        place,
        handled,
        bytes,
        messages,
        packages,
    } = d;
    let _ = eprintln!(rt;
        "{handled} messages handled, {place} bytes; written: {messages} messages, {packages} packages, {bytes} bytes"
    );
}

fn changed(rt: &HostRuntime) {
    let _ = eprintln!(rt; "the recording changed while it was copied; the copy is not whole");
}

// The second pass, where the first refused nothing. Where it answers otherwise than the first, the recording changed between them.
fn write_copy(rt: &HostRuntime, recording: &mut File, sheet: &[u8], first: Done, size: &[u8]) {
    let second = go_over(rt, recording, sheet, true, size);
    end_line(rt, size);
    match second {
        Ok(d) if d == first => sum_up(rt, d),
        Ok(_) | Err(Stop::Refused(_)) => changed(rt),
        Err(stop) => say_why(rt, stop),
    }
}

fn copy(rt: &HostRuntime, recording: &mut File, sheet: &[u8], size: &[u8]) {
    let first = go_over(rt, recording, sheet, false, size);
    end_line(rt, size);
    match first {
        Ok(d) => write_copy(rt, recording, sheet, d, size),
        Err(stop) => say_why(rt, stop),
    }
}

// A sheet is looked at before the recording: a step that is asked for no message looks at nothing else.
fn check_sheet(sheet: &[u8]) -> Result<Progress, Refusal> {
    let mut out = [0u8; 1];
    step::step(&sheet[..0], sheet, 0, no_ids(), &mut out).answer
}

fn with_sheet(rt: &HostRuntime, recording: &mut File, sheet: &[u8], size: &[u8]) {
    match check_sheet(sheet) {
        Ok(_) => copy(rt, recording, sheet, size),
        Err(f) => refuse(rt, f),
    }
}

// A sheet that is too long is refused by its whole length, which is counted to the file's end.
fn too_long(rt: &HostRuntime, sheet: &mut File) {
    match files::rest_of(sheet) {
        Ok(n) => refuse(
            rt,
            Refusal {
                why: Why::Row,
                place: 1025 + n,
            },
        ),
        Err(e) => files::fail(rt, b"sheet", e),
    }
}

fn answer(rt: &HostRuntime, recording: &mut File, sheet_file: &mut File, size: &[u8]) {
    let mut sheet = [0u8; 1025];
    match files::fill(sheet_file, &mut sheet) {
        Ok(n) if n <= 1024 => with_sheet(rt, recording, &sheet[..n], size),
        // The buffer is full.
        Ok(_) => too_long(rt, sheet_file),
        Err(e) => files::fail(rt, b"sheet", e),
    }
}

fn main(rt: HostRuntime) {
    let words = files::arg_count(&rt, 5);
    if words != 3 && words != 4 {
        let _ = eprintln!(rt; "usage: release_long RECORDING SHEET [SIZE]");
        return;
    }
    let Some(mut recording) = files::open_arg(&rt, 1) else {
        return;
    };
    let Some(mut sheet) = files::open_arg(&rt, 2) else {
        return;
    };
    // The recording's size, if a third argument says it.
    let mut buf = [0u8; 20];
    let n = rt.arg(3, &mut buf).unwrap_or(0);
    answer(&rt, &mut recording, &mut sheet, &buf[..n]);
}
