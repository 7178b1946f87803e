// A recording of any length, read window by window: what of a window is handed over. A window has at most 65,536 bytes of the recording, from the start
// of a message on; the message that its end cuts is kept back, and begins the next window.
#![tactic(auto)]

ghost use Rattle.std.specs.Prelude.{◌≡◌, ◌≤◌, length};
ghost use Rattle.refusal.specs.Numbers.{number_of, outcome_of};
ghost use Rattle.windows.specs.Window.{is_cut, ending_before, handed_over, whole_bytes};
ghost use Rattle.windows.specs.Told.{Extends};

use message::check;
use refusal::{Refusal, Why, refuse};

// Whether a message was refused because its end is not there.
fn is_cut(why: Why) -> bool
    ensures { result ≡ is_cut (number_of why) }
{
    matches!(why, Why::Short | Why::Cut)
}

// A window of so many bytes is handed over up to the message at this place, which its end cuts. One of 65,536 bytes must hold a whole message.
fn ending_before(length: usize, place: usize) -> Result<usize, Refusal>
    ensures { outcome_of result ≡ ending_before length place }
{
    if place == 0 && 65536 <= length {
        return refuse(Why::Large, 0);
    }
    Ok(place)
}

// How many of a window's first bytes are handed over, where the recording goes on behind it or does not; or the recording is refused.
pub fn hand_over(window: &[u8], goes_on: bool) -> Result<usize, Refusal>
    ensures { outcome_of result ≡ handed_over goes_on window.now }
{
    match check(window) {
        Ok(_) => Ok(window.len()),
        Err(f) if goes_on && is_cut(f.why) => ending_before(window.len(), f.place),
        Err(f) => Err(f),
    }
}

// How many bytes the message at the start of s has by its length alone, if it is whole.
fn extent(s: &[u8]) -> Option<usize>
    ensures { Extends s.now result }
{
    if s.len() < 24 {
        return None;
    }
    let size = wire::word_at(s, 12) as usize;
    if size < 24 {
        return None;
    }
    if s.len() < size {
        return None;
    }
    Some(size)
}

// How many bytes of a window are whole messages by their lengths alone: nothing else of a message is looked at.
pub fn whole_bytes(window: &[u8]) -> usize
    ensures { (result ≡ whole_bytes window.now) × (result ≤ length window.now) }
{
    let mut at = 0;
    while let Some(n) = extent(&window[at..]) {
        at += n;
    }
    at
}
