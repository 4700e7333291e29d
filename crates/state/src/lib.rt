// The state of a reduction: what stays the same in a call, what is used up, and the answers.
// Document 01: mark and meter go in and out by value. So they stand in each signature beside the lent slices, and in no struct with them.
#![tactic(auto)]

ghost use Rattle.std.specs.Prelude.{◌≡◌, ◌<◌};
ghost use Rattle.state.specs.State.{metered_at, one_step};

use rows::Ptr;
use rows::refusals::{Out, Refusal};
use tables::Holders;

// What stays the same in a call: library rows, depth, the budget of steps, and the declaration that holds each role.
#[derive(Clone, Copy, Debug, PartialEq, Eq)]
pub struct Given {
    pub nlib: u32,
    pub depth: u32,
    pub steps: u32,
    pub holders: Holders,
}

// What is used up: scratch rows and steps.
#[derive(Clone, Copy, Debug, PartialEq, Eq)]
pub struct Meter {
    pub mark: u32,
    pub steps: u32,
}

impl Meter {
    // The same steps, after rows were written.
    pub fn at(self, mark: u32) -> Meter
        ensures { result ≡ metered_at self mark }
    {
        Meter { mark, ..self }
    }

    // One step more, with the rows of its firing.
    pub fn stepped(self, mark: u32) -> Meter
        requires { self.steps < 4294967295 }
        ensures { result ≡ one_step self mark }
    {
        Meter {
            mark,
            steps: self.steps + 1,
        }
    }
}

// What the tries at a head come to: a firing's term with the meter after it, or final, since no rule fires.
#[derive(Clone, Copy, Debug, PartialEq, Eq)]
pub enum Tried {
    Term(Ptr, Meter),
    Final(Meter),
}

// "an enum of term, final or refusal"
pub type Answer = Result<Tried, Refusal>;

// A reduction's term with the meter after it, or the refusal.
pub type Reduced = Result<(Ptr, Meter), Refusal>;
