// Firings that ask for no side reduction: a pointer that stands already, with the remaining arguments applied to it; a value replaced into a body.
// 4 comes first, then each row in turn. The state goes by value, the term with its count beside it: see crates state and spine.
#![tactic(auto)]

ghost use Rattle.std.specs.Prelude.{◌≡◌, ◌+◌, ◌/◌, ◌<◌, ◌≤◌, ◌∷◌, length, drop, IfSome};
ghost use Rattle.rules.specs.Firings.{itself, opened};
ghost use Rattle.course.specs.Charged.{join_in};
ghost use Rattle.substitution.specs.Stores.{Good};
ghost use Rattle.ways.specs.Steps.{out_step, fire_in};
ghost use Rattle.ways.specs.Spines.{args_of};
ghost use Rattle.rows.specs.Words.{ptr_of, store_of};
ghost use Rattle.state.specs.State.{tally_of, limits_in, Headed, Left};
ghost use Rattle.tables.specs.Read.{value_given};
ghost use Rattle.firing.specs.Fires.{Opens, unfold_step, context_value, HasContext, unfolds_to};

use replace::{Sub, replace};
use rows::refusals::Refusal;
use rows::{Ptr, shift_up};
use spine::{apply, apply_one};
use state::{Answer, Given, Meter, Tried};
use tables::{Decl, value_of};

// The end of a firing whose step is there: the arguments of t from `from` on are applied to f.
fn apply_rest(
    library: &[u32],
    scratch: &mut [u32],
    g: Given,
    m: Meter,
    f: Ptr,
    t: Ptr,
    count: u32,
    from: u32,
) -> Answer
    requires headed { Headed library.now scratch.old g m t count }
    requires row_bound { (f.row < g.nlib + m.mark) × (from ≤ count) × (m.steps < g.steps) }
    ensures { Left library.now scratch.old m result scratch.new (out_step (limits_in g scratch.old)
        m.steps (join_in (g.nlib + length scratch.old / 9) (store_of library.now scratch.old m.mark) (ptr_of f)
        (drop from (args_of (store_of library.now scratch.old m.mark) (ptr_of t))))) }
{
    let (p, mark) = apply(library, scratch, g.nlib, m.mark, f, t, count, from, count)?;
    Ok(Tried::Term(p, m.stepped(mark)))
}

// A pointer that stands already, applied to the arguments of t from `from` on.
pub fn give(
    library: &[u32],
    scratch: &mut [u32],
    g: Given,
    m: Meter,
    f: Ptr,
    t: Ptr,
    count: u32,
    from: u32,
) -> Answer
    requires headed { Headed library.now scratch.old g m t count }
    requires row_bound { (f.row < g.nlib + m.mark) × (from ≤ count) }
    ensures { Left library.now scratch.old m result scratch.new (fire_in (limits_in g scratch.old)
        (tally_of library.now scratch.old m) (itself (ptr_of f)) (drop from
        (args_of (store_of library.now scratch.old m.mark) (ptr_of t)))) }
{
    if g.steps <= m.steps {
        return Err(Refusal::NoStep);
    }
    apply_rest(library, scratch, g, m, f, t, count, from)
}

// A value replaced into a body with the move `by`, then the arguments of t from `from` on: beta and let.
pub fn open(
    library: &[u32],
    scratch: &mut [u32],
    g: Given,
    m: Meter,
    body: Ptr,
    value: Ptr,
    by: u32,
    t: Ptr,
    count: u32,
    from: u32,
) -> Answer
    requires headed { Headed library.now scratch.old g m t count }
    requires opens { Opens (store_of library.now scratch.old m.mark) body value by }
    requires from_le_count { from ≤ count }
    ensures { Left library.now scratch.old m result scratch.new (fire_in (limits_in g scratch.old)
        (tally_of library.now scratch.old m) (opened (ptr_of body) (ptr_of value) by) (drop from
        (args_of (store_of library.now scratch.old m.mark) (ptr_of t)))) }
{
    if g.steps <= m.steps {
        return Err(Refusal::NoStep);
    }
    let x = Sub {
        value: Some(value),
        by,
    };
    let (p, mark) = replace(library, scratch, g.nlib, m.mark, body, 0, x)?;
    apply_rest(library, scratch, g, m.at(mark), p, t, count, from)
}

// A pointer that stands already, applied to a and then to the arguments of t from `from` on: quotients.
pub fn give_with(
    library: &[u32],
    scratch: &mut [u32],
    g: Given,
    m: Meter,
    f: Ptr,
    a: Ptr,
    t: Ptr,
    count: u32,
    from: u32,
) -> Answer
    requires headed { Headed library.now scratch.old g m t count }
    requires good { (Good (store_of library.now scratch.old m.mark) (ptr_of f)) × (Good (store_of library.now scratch.old m.mark) (ptr_of a)) }
    requires from_le_count { from ≤ count }
    ensures { Left library.now scratch.old m result scratch.new (fire_in (limits_in g scratch.old)
        (tally_of library.now scratch.old m) (itself (ptr_of f)) (ptr_of a ∷ drop from
        (args_of (store_of library.now scratch.old m.mark) (ptr_of t)))) }
{
    if g.steps <= m.steps {
        return Err(Refusal::NoStep);
    }
    let (p, mark) = apply_one(library, scratch, g.nlib, m.mark, f, a)?;
    apply_rest(library, scratch, g, m.at(mark), p, t, count, from)
}

// A variable with a context value: the value shifted i + 1.
pub fn variable(
    library: &[u32],
    context: &[u32],
    scratch: &mut [u32],
    g: Given,
    m: Meter,
    i: u32,
    t: Ptr,
    count: u32,
) -> Answer
    requires headed { Headed library.now scratch.old g m t count }
    requires has_context { HasContext context.now g.depth (g.nlib + m.mark) i }
    ensures { Left library.now scratch.old m result scratch.new (unfold_step (limits_in g scratch.old)
        (tally_of library.now scratch.old m) (context_value context.now g.depth
        (store_of library.now scratch.old m.mark) i) (args_of (store_of library.now scratch.old
        m.mark) (ptr_of t))) }
{
    let Some(v) = value_of(context, g.depth, i) else {
        return Ok(Tried::Final(m));
    };
    let f = shift_up(library, scratch, v, i + 1);
    give(library, scratch, g, m, f, t, count, 0)
}

// Delta: a value and equal level counts.
pub fn unfold_def(
    library: &[u32],
    scratch: &mut [u32],
    g: Given,
    m: Meter,
    d: Decl,
    levels: u32,
    t: Ptr,
    count: u32,
) -> Answer
    requires headed { Headed library.now scratch.old g m t count }
    requires row_bound { IfSome (value_given d) (λ v. v.row < g.nlib + m.mark) }
    ensures { Left library.now scratch.old m result scratch.new (unfold_step (limits_in g scratch.old)
        (tally_of library.now scratch.old m) (unfolds_to d levels) (args_of
        (store_of library.now scratch.old m.mark) (ptr_of t))) }
{
    let Some(v) = d.value() else {
        return Ok(Tried::Final(m));
    };
    if d.levels != levels {
        return Ok(Tried::Final(m));
    }
    give(library, scratch, g, m, v, t, count, 0)
}
