// The single copy: what a recording releases under an order sheet, measured first and then written. Both are uses of `numbered::copy`: no id is held
// before, so that the sequence numbers are counted afresh, and the quota is the whole recording.
#![tactic(auto)]

ghost use Rattle.std.specs.Prelude.{◌≡◌};
ghost use Rattle.rules.specs.Copy.{measurement, copy};
ghost use Rattle.release.specs.Told.{totals_of, numbers, told};

use numbered::{Progress, copy};
use refusal::Refusal;

// What a copy takes, and what it reports.
#[derive(Clone, Copy)]
pub struct Totals {
    pub bytes: usize,
    pub messages: usize,
    pub packages: usize,
}

impl From<Progress> for Totals {
    fn from(p: Progress) -> Totals
        ensures { result ≡ totals_of p }
    {
        Totals {
            bytes: p.bytes,
            messages: p.messages,
            packages: p.packages,
        }
    }
}

// What the copy of a recording under a sheet takes: nothing is written.
pub fn measure(recording: &[u8], sheet: &[u8]) -> Result<Totals, Refusal>
    ensures { numbers result ≡ measurement recording.now sheet.now }
{
    let mut ids = [0u32; 1];
    let mut next = [0u32; 1];
    let mut nothing = [0u8; 1];
    let all = recording.len();
    let done = copy(
        recording,
        sheet,
        all,
        &mut ids,
        &mut next,
        0,
        &mut nothing,
        true,
    );
    Ok(Totals::from(done.answer?))
}

// The copy of a recording under a sheet, into a buffer. No measurement is trusted: it is made anew.
pub fn write(recording: &[u8], sheet: &[u8], out: &mut [u8]) -> Result<Totals, Refusal>
    ensures { told result out.new ≡ copy recording.now sheet.now out.old }
{
    // A message with a package has 36 bytes at least, so a recording has at most 1,820 of them.
    let mut ids = [0u32; 1820];
    let mut next = [0u32; 1820];
    let all = recording.len();
    let done = copy(recording, sheet, all, &mut ids, &mut next, 0, out, false);
    Ok(Totals::from(done.answer?))
}
