// A package walk: a struct that holds the run it walks and its place, and thin functions over it. step_at, data_at and next_at, which
// have the work, take a plain slice and a place.
#![tactic(auto)]

ghost use Rattle.std.specs.Prelude.{◌≡◌};
ghost use Rattle.rules.specs.Walk.{package_at, data_at, start_at, next_at};
ghost use Rattle.message.specs.Answers.{told_package, PartOf};
ghost use Rattle.walk.specs.Steps as spec;

use message::Package;
use refusal::Refusal;

// What stands at a place of a run.
pub fn step_at(s: &[u8], at: usize) -> Result<Option<Package>, Refusal>
    ensures { told_package result ≡ package_at s.now at }
{
    message::package_at(s, at)
}

// The data of the package at a place, as part of the run; empty where there is none.
pub fn data_at(s: &[u8], at: usize) -> &[u8]
    ensures { (result.now ≡ data_at s.now at) × PartOf s.entry (start_at s.now at) result }
{
    match message::package_at(s, at) {
        Ok(Some(k)) => {
            let a = k.from;
            let e = k.to;
            &s[a..e]
        }
        Ok(None) => &s[0..0],
        Err(_) => &s[0..0],
    }
}

// The place behind the package at a place, and the same place where there is none.
pub fn next_at(s: &[u8], at: usize) -> usize
    ensures { result ≡ next_at s.now at }
{
    match message::package_at(s, at) {
        Ok(Some(k)) => k.next,
        Ok(None) => at,
        Err(_) => at,
    }
}

// A walk carries the run that it walks and its place.
#[derive(Clone, Copy)]
pub struct Walk<'a> {
    pub run: &'a [u8],
    pub at: usize,
}

// What a step hands back: the walk, moved or as it was, what the step found, and the data that it shows, as part of the run.
#[derive(Clone, Copy)]
pub struct Shown<'a> {
    pub walk: Walk<'a>,
    pub step: Result<Option<Package>, Refusal>,
    pub bytes: &'a [u8],
}

pub fn new<'a>(run: &'a [u8]) -> Walk<'a>
    ensures { (result.run ≡ run.entry) × (result.at ≡ 0) }
{
    Walk { run, at: 0 }
}

// The struct is taken apart, the functions that have the work are called on the slice and the place, and the answer is put together.
pub fn next<'a>(w: Walk<'a>) -> Shown<'a>
    ensures { spec.Shows w.entry result }
{
    let run = w.run;
    let at = w.at;
    let step = step_at(run, at);
    let bytes = data_at(run, at);
    let to = next_at(run, at);
    let walk = Walk { run, at: to };
    Shown { walk, step, bytes }
}

// What the first step of a walk finds, of a plain slice.
pub fn first(run: &[u8]) -> Result<Option<Package>, Refusal>
    ensures { told_package result ≡ package_at run.now 0 }
{
    let s = next(new(run));
    s.step
}
