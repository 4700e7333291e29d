// The exported call `whnf`: acceptance first, then the reduction; after a refusal from 4 on the rows are given back, zeroed.
#![tactic(auto)]

ghost use Rattle.std.specs.Prelude.{◌≡◌, ◌*◌, ◌≤◌, length};
ghost use Rattle.rules.specs.Maxima.{most_rows, most_declarations};
ghost use Rattle.call.specs.Answers.{Answers, AcceptedAs, zeroed_from, GivenBy};

use reduce::whnf as reduce_whnf;
use rows::Ptr;
use rows::refusals::Refused;
use state::{Given, Meter};
use tables::accept::accept;
use tables::{Asked, Lent, role_holders};

// The term, its steps and rows, and the mark after them.
#[derive(Clone, Copy, Debug, PartialEq, Eq)]
pub struct Answered {
    pub term: Ptr,
    pub steps: u32,
    pub rows: u32,
    pub mark: u32,
}

// Words from `from` to the end are 0 afterwards.
fn zero_from(scratch: &mut [u32], from: usize)
    requires { from ≤ length scratch.old }
    ensures { scratch.new ≡ zeroed_from from scratch.old }
{
    scratch[from..].fill(0);
}

// What stays the same in a call, read once. `as` narrows what the clause shows to fit.
fn given(lent: Lent<'_>, asked: Asked) -> Given
    requires { (length lent.library.now ≤ 9 * most_rows) × (length lent.declarations.now ≤ 16 * most_declarations) }
    ensures { GivenBy lent.entry.library.now lent.entry.declarations.now asked.depth asked.steps result }
{
    Given {
        nlib: (lent.library.len() / 9) as u32,
        depth: asked.depth,
        steps: asked.steps,
        holders: role_holders(lent.declarations),
    }
}

// The reduction of accepted input.
fn reduce(lent: Lent<'_>, scratch: &mut [u32], asked: Asked) -> Result<Answered, Refused>
    requires { AcceptedAs lent scratch.old asked }
    ensures { Answers lent.entry scratch.old asked result scratch.new lent.entry.context.now }
{
    let g = given(lent, asked);
    let mark = asked.mark;
    let m = Meter { mark, steps: 0 };
    match reduce_whnf(lent, scratch, g, m, asked.term, asked.nesting) {
        Ok((term, after)) => Ok(Answered {
            term,
            steps: after.steps,
            rows: after.mark - mark,
            mark: after.mark,
        }),
        Err(refusal) => {
            zero_from(scratch, 9 * mark as usize);
            Err(refusal.at(0))
        }
    }
}

// Any library, context, term and budgets get a term or one numbered refusal.
pub fn whnf(lent: Lent<'_>, scratch: &mut [u32], asked: Asked) -> Result<Answered, Refused>
    ensures { Answers lent.entry scratch.old asked result scratch.new lent.entry.context.now }
{
    // by `match` and not by `?`: so an edit can turn the refusal and keep what the proof names
    match accept(lent, scratch, asked) {
        Ok(()) => reduce(lent, scratch, asked),
        Err(refused) => Err(refused),
    }
}
