// Head reduction: the cycle. `whnf` loops over firings; `at_head` finds the head and tries the rules in the document's order; each
// rule's side reductions go through `side`, the one place where the remaining nesting falls. Document 01: a side answer is taken apart by
// `let .. else`, and the else hands the refusal up. The state goes by value, the term with its count beside it: see crates state and spine.
#![tactic(auto)]

ghost use Rattle.std.specs.Prelude.{◌≡◌, suc, ◌/◌, ◌<◌, length};
ghost use Rattle.rules.specs.RowCheck.{InScope};
ghost use Rattle.rows.specs.Words.{ptr_of, store_of};
ghost use Rattle.state.specs.State.{Left};
ghost use Rattle.cycle.specs.Cycle.{Asked, Counted, Ran, head_by, res_by};
ghost use Rattle.cycle.specs.Members.{projected, recursed, computed, constantly, quotient};
ghost use Rattle.reduce.specs.Members.{OpTried, QuotLeft};

use arith::{Op, compute};
use fields::{field_at, quot_made};
use firing::{give, give_with, open, unfold_def, variable};
use majors::{by_rule, constructor_of, number_at, op_of, write_outcome};
use rows::kinds::Kind;
use rows::refusals::Refusal;
use rows::{Ptr, row_at, shape_of, shift_up};
use spine::{argument, head_of};
use state::{Answer, Given, Meter, Reduced, Tried};
use tables::codes::{DeclKind, Role};
use tables::{Lent, decl_at};

// Positions from 0: the major of Quot.lift and of Quot.ind, and the function of both.
const LIFT_MAJOR: u32 = 5;

const IND_MAJOR: u32 = 4;

const QUOT_FUNCTION: u32 = 3;

// A side reduction: one nesting level deeper, or 6. Inlined, so that what is lent and given is copied once for a level and not twice.
#[inline(always)]
#[cycle(whnf)]
pub fn side(
    lent: Lent<'_>,
    scratch: &mut [u32],
    g: Given,
    m: Meter,
    p: Ptr,
    nesting: u32,
) -> Reduced
    requires { Asked lent.library.now lent.declarations.now lent.rules.now lent.context.now scratch.old g m p }
    ensures { Ran lent.entry.library.now scratch.old m result scratch.new (res_by lent.entry.library.now
        lent.entry.declarations.now lent.entry.rules.now lent.entry.context.now scratch.old g m nesting (ptr_of p)) }
{
    if nesting == 0 {
        return Err(Refusal::NoLevel);
    }
    whnf(lent, scratch, g, m, p, nesting - 1)
}

// Projection: the structure must end in a constructor with an argument at parameters + index.
#[cycle(whnf)]
fn reduce_proj(
    lent: Lent<'_>,
    scratch: &mut [u32],
    g: Given,
    m: Meter,
    structure: Ptr,
    index: u32,
    t: Ptr,
    count: u32,
    nesting: u32,
) -> Answer
    requires counted { Counted lent.library.now lent.declarations.now lent.rules.now lent.context.now scratch.old g m t count }
    requires in_scope { InScope (store_of lent.library.now scratch.old m.mark) g.depth (ptr_of structure) }
    ensures { Left lent.entry.library.now scratch.old m result scratch.new (projected lent.entry.library.now
        lent.entry.declarations.now lent.entry.rules.now lent.entry.context.now scratch.old g m t nesting structure index) }
{
    let got = side(lent, scratch, g, m, structure, nesting);
    let Ok((q, m1)) = got else {
        return Err(got.unwrap_err());
    };
    let Some(a) = field_at(lent.library, lent.declarations, scratch, q, index) else {
        return Ok(Tried::Final(m1));
    };
    give(lent.library, scratch, g, m1, a, t, count, 0)
}

// Quot.lift and Quot.ind with the major at `position`: it must end in Quot.mk with exactly three arguments.
#[cycle(whnf)]
fn quot_major(
    lent: Lent<'_>,
    scratch: &mut [u32],
    g: Given,
    m: Meter,
    position: u32,
    t: Ptr,
    count: u32,
    nesting: u32,
) -> Answer
    requires counted { Counted lent.library.now lent.declarations.now lent.rules.now lent.context.now scratch.old g m t count }
    requires lt_position { (3 < position) × (position < 6) }
    ensures { QuotLeft lent.entry.library.now lent.entry.declarations.now lent.entry.rules.now
        lent.entry.context.now scratch.old g m t nesting position result scratch.new }
{
    if count <= position {
        return Ok(Tried::Final(m));
    }
    let major = argument(lent.library, scratch, t, count, position);
    let got = side(lent, scratch, g, m, major, nesting);
    let Ok((q, m1)) = got else {
        return Err(got.unwrap_err());
    };
    let Some(a) = quot_made(lent.library, lent.declarations, scratch, q) else {
        return Ok(Tried::Final(m1));
    };
    let f = argument(lent.library, scratch, t, count, QUOT_FUNCTION);
    give_with(lent.library, scratch, g, m1, f, a, t, count, position + 1)
}

// Which of the two quotient rules the role asks for, if any.
#[cycle(whnf)]
fn reduce_quot(
    lent: Lent<'_>,
    scratch: &mut [u32],
    g: Given,
    m: Meter,
    declaration: u32,
    t: Ptr,
    count: u32,
    nesting: u32,
) -> Answer
    requires counted { Counted lent.library.now lent.declarations.now lent.rules.now lent.context.now scratch.old g m t count }
    requires declaration_in_bounds { declaration < length lent.declarations.now / 16 }
    ensures { Left lent.entry.library.now scratch.old m result scratch.new (quotient lent.entry.library.now
        lent.entry.declarations.now lent.entry.rules.now lent.entry.context.now scratch.old g m t nesting declaration) }
{
    let Some(role) = decl_at(lent.declarations, declaration).role else {
        return Ok(Tried::Final(m));
    };
    match role {
        Role::QuotLift => quot_major(lent, scratch, g, m, LIFT_MAJOR, t, count, nesting),
        Role::QuotInd => quot_major(lent, scratch, g, m, IND_MAJOR, t, count, nesting),
        _ => Ok(Tried::Final(m)),
    }
}

// A recursor whose count of levels is right: the major as a constructor, and the rule for it. The position is a sum in 64 bits, since
// each count is any u32; `as` widens it: tried with `u64::from`, the proofs did not close, since they read the sum as it stands.
// Where `as` narrows, the count of arguments shows that it fits.
#[cycle(whnf)]
fn reduce_rec(
    lent: Lent<'_>,
    scratch: &mut [u32],
    g: Given,
    m: Meter,
    declaration: u32,
    levels: u32,
    t: Ptr,
    count: u32,
    nesting: u32,
) -> Answer
    requires counted { Counted lent.library.now lent.declarations.now lent.rules.now lent.context.now scratch.old g m t count }
    requires declaration_in_bounds { declaration < length lent.declarations.now / 16 }
    ensures { Left lent.entry.library.now scratch.old m result scratch.new (recursed lent.entry.library.now
        lent.entry.declarations.now lent.entry.rules.now lent.entry.context.now scratch.old g m t nesting declaration levels) }
{
    let d = decl_at(lent.declarations, declaration);
    if d.levels != levels {
        return Ok(Tried::Final(m));
    }
    if d.kind != Some(DeclKind::Recursor) {
        return Ok(Tried::Final(m));
    }
    let before = (d.parameters as u64) + (d.second as u64) + (d.minors as u64);
    let position = before + (d.indices as u64);
    if (count as u64) <= position {
        return Ok(Tried::Final(m));
    }
    let major = argument(lent.library, scratch, t, count, position as u32);
    let got = side(lent, scratch, g, m, major, nesting);
    let Ok((q, m1)) = got else {
        return Err(got.unwrap_err());
    };
    let (made, m2) = constructor_of(lent.library, scratch, g, m1, q)?;
    let Some(made) = made else {
        return Ok(Tried::Final(m2));
    };
    by_rule(
        lent.library,
        lent.rules,
        scratch,
        g,
        m2,
        d.first_rule,
        d.rules,
        made,
        t,
        count,
        before as u32,
        position as u32,
    )
}

// An operation's role; beq and ble only if true and false are held.
fn tried_op(g: Given, role: Option<Role>) -> Option<Op>
    ensures { OpTried g.holders role result }
{
    let op = op_of(role?)?;
    match op {
        Op::Beq | Op::Ble => {
            g.holders.holder(Role::True)?;
            g.holders.holder(Role::False)?;
            Some(op)
        }
        _ => Some(op),
    }
}

// Arithmetic with exactly two arguments: both must end in numbers, first then second.
#[cycle(whnf)]
fn reduce_arith(
    lent: Lent<'_>,
    scratch: &mut [u32],
    g: Given,
    m: Meter,
    declaration: u32,
    t: Ptr,
    count: u32,
    nesting: u32,
) -> Answer
    requires counted { Counted lent.library.now lent.declarations.now lent.rules.now lent.context.now scratch.old g m t count }
    requires declaration_in_bounds { declaration < length lent.declarations.now / 16 }
    ensures { Left lent.entry.library.now scratch.old m result scratch.new (computed lent.entry.library.now
        lent.entry.declarations.now lent.entry.rules.now lent.entry.context.now scratch.old g m t nesting declaration) }
{
    let Some(op) = tried_op(g, decl_at(lent.declarations, declaration).role) else {
        return Ok(Tried::Final(m));
    };
    if count != 2 {
        return Ok(Tried::Final(m));
    }
    let first = argument(lent.library, scratch, t, count, 0);
    let got = side(lent, scratch, g, m, first, nesting);
    let Ok((q, m1)) = got else {
        return Err(got.unwrap_err());
    };
    let Some(x) = number_at(lent.library, scratch, q) else {
        return Ok(Tried::Final(m1));
    };
    let second = argument(lent.library, scratch, t, count, 1);
    let next = side(lent, scratch, g, m1, second, nesting);
    let Ok((q2, m2)) = next else {
        return Err(next.unwrap_err());
    };
    let Some(y) = number_at(lent.library, scratch, q2) else {
        return Ok(Tried::Final(m2));
    };
    write_outcome(lent.library, scratch, g, m2, compute(op, x, y))
}

// A constant: the rules in order, each from the rows and steps that the missed one before it left.
#[cycle(whnf)]
fn constant(
    lent: Lent<'_>,
    scratch: &mut [u32],
    g: Given,
    m: Meter,
    declaration: u32,
    levels: u32,
    t: Ptr,
    count: u32,
    nesting: u32,
) -> Answer
    requires counted { Counted lent.library.now lent.declarations.now lent.rules.now lent.context.now scratch.old g m t count }
    requires declaration_in_bounds { declaration < length lent.declarations.now / 16 }
    ensures { Left lent.entry.library.now scratch.old m result scratch.new (constantly lent.entry.library.now
        lent.entry.declarations.now lent.entry.rules.now lent.entry.context.now scratch.old g m t nesting declaration levels) }
{
    let by_quot = reduce_quot(lent, scratch, g, m, declaration, t, count, nesting)?;
    let Tried::Final(m1) = by_quot else {
        return Ok(by_quot);
    };
    let by_rec = reduce_rec(lent, scratch, g, m1, declaration, levels, t, count, nesting)?;
    let Tried::Final(m2) = by_rec else {
        return Ok(by_rec);
    };
    let by_arith = reduce_arith(lent, scratch, g, m2, declaration, t, count, nesting)?;
    let Tried::Final(m3) = by_arith else {
        return Ok(by_arith);
    };
    let d = decl_at(lent.declarations, declaration);
    unfold_def(lent.library, scratch, g, m3, d, levels, t, count)
}

// The rules at the head, by the head's kind.
#[cycle(whnf)]
fn at_head(lent: Lent<'_>, scratch: &mut [u32], g: Given, m: Meter, t: Ptr, nesting: u32) -> Answer
    requires { Asked lent.library.now lent.declarations.now lent.rules.now lent.context.now scratch.old g m t }
    ensures { Left lent.entry.library.now scratch.old m result scratch.new (head_by lent.entry.library.now
        lent.entry.declarations.now lent.entry.rules.now lent.entry.context.now scratch.old g m nesting (ptr_of t)) }
{
    let s = head_of(lent.library, scratch, t);
    let h = s.head;
    let w = shape_of(row_at(lent.library, scratch, h.row));
    let first = w.first;
    let second = w.second;
    match Kind::known(w.kind) {
        Kind::Variable => variable(
            lent.library,
            lent.context,
            scratch,
            g,
            m,
            first.row + h.shift,
            t,
            s.count,
        ),
        Kind::Constant => constant(
            lent,
            scratch,
            g,
            m,
            first.row,
            first.shift,
            t,
            s.count,
            nesting,
        ),
        Kind::Lambda => {
            if s.count == 0 {
                return Ok(Tried::Final(m));
            }
            let a = argument(lent.library, scratch, t, s.count, 0);
            open(
                lent.library,
                scratch,
                g,
                m,
                second,
                a,
                h.shift,
                t,
                s.count,
                1,
            )
        }
        Kind::Let => {
            let value = shift_up(lent.library, scratch, second, h.shift);
            open(
                lent.library,
                scratch,
                g,
                m,
                w.third,
                value,
                h.shift,
                t,
                s.count,
                0,
            )
        }
        Kind::Projection => {
            let structure = shift_up(lent.library, scratch, first, h.shift);
            reduce_proj(
                lent,
                scratch,
                g,
                m,
                structure,
                second.shift,
                t,
                s.count,
                nesting,
            )
        }
        _ => Ok(Tried::Final(m)),
    }
}

// Weak-head normal form: as long as a rule fires, go on with its result.
#[cycle(whnf)]
pub fn whnf(
    lent: Lent<'_>,
    scratch: &mut [u32],
    g: Given,
    m: Meter,
    t: Ptr,
    nesting: u32,
) -> Reduced
    requires { Asked lent.library.now lent.declarations.now lent.rules.now lent.context.now scratch.old g m t }
    ensures { Ran lent.entry.library.now scratch.old m result scratch.new (res_by lent.entry.library.now
        lent.entry.declarations.now lent.entry.rules.now lent.entry.context.now scratch.old g m (suc nesting) (ptr_of t)) }
{
    let mut at = m;
    let mut p = t;
    loop {
        match at_head(lent, scratch, g, at, p, nesting)? {
            Tried::Term(q, m1) => {
                p = q;
                at = m1;
            }
            Tried::Final(m1) => {
                return Ok((p, m1));
            }
        }
    }
}
