// Long recordings by quota: a recording of any length, copied step by step, a quota of messages at a time, numbered on from a state. A step is
// `numbered::copy` with the 64 ids that a state holds, and measured alone `numbered::measure`.
#![tactic(auto)]

ghost use Rattle.std.specs.Prelude.{◌≡◌};
ghost use Rattle.step.specs.Step.{step, measured_step};
ghost use Rattle.step.specs.Told.{state_in, told, told_measured};

use numbered::{Progress, copy};
use refusal::Refusal;

// The running numbers: the first `held` of ids are message ids, each once, and beside each stands the sequence number that its next message gets.
// What stands in the other places does not count, and comes back as it was handed in.
#[derive(Clone, Copy)]
pub struct State {
    pub ids: [u32; 64],
    pub next: [u32; 64],
    pub held: usize,
}

#[derive(Clone, Copy)]
pub struct Stepped {
    pub answer: Result<Progress, Refusal>,
    pub state: State,
}

// A step of a recording under a sheet: at most `quota` messages, numbered on from the state, into a buffer.
pub fn step(input: &[u8], sheet: &[u8], quota: usize, state: State, out: &mut [u8]) -> Stepped
    ensures { told result out.new ≡ step input.now sheet.now quota (state_in state) out.old }
{
    let mut ids = state.ids;
    let mut next = state.next;
    let done = copy(
        input, sheet, quota, &mut ids, &mut next, state.held, out, false,
    );
    let held = done.held;
    let answer = done.answer;
    let after = State { ids, next, held };
    Stepped {
        answer,
        state: after,
    }
}

// What a step reports where it has room, measured alone, and the ids that are then held: no number is counted, and those of the state stay as they were.
pub fn measure(input: &[u8], sheet: &[u8], quota: usize, state: State) -> Stepped
    ensures { told_measured result ≡ measured_step input.now sheet.now quota (state_in state) }
{
    let mut ids = state.ids;
    let next = state.next;
    let counted = numbered::measure(input, sheet, quota, &mut ids, state.held);
    let held = counted.held;
    let answer = counted.answer;
    let after = State { ids, next, held };
    Stepped {
        answer,
        state: after,
    }
}
