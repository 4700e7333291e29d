// The pieces of inference that ask for the type of no part: rows made, bodies opened, reductions to a sort or to a pi, the forms without parts,
// the structure that a type names, and the walk through its parameters.
#![tactic(auto)]

ghost use Rattle.std.specs.Prelude.{◌≡◌, suc, ◌+◌, ◌/◌, ◌≤◌, ◌<◌, length};
ghost use Rattle.rules.specs.Maxima.{most_level};
ghost use Rattle.course.specs.Charged.{put_in, replace_in};
ghost use Rattle.inferring.specs.Asks.{parameters};
ghost use Rattle.ways.specs.Spines.{args_of};
ghost use Rattle.rows.specs.Words.{ptr_of, store_of, row_of, Held};
ghost use Rattle.rows.specs.Writes.{Due, sort_in};
ghost use Rattle.replace.specs.Replaced.{value_of, height_of, PtrReady};
ghost use Rattle.typing.specs.Here.{here, Scope, Ready};
ghost use Rattle.typing.specs.Gives.{Gives, GivesPtr};
ghost use Rattle.typing.specs.Pieces.{PiIn, pi_ask, Sorted, deeper};
ghost use Rattle.typing.specs.Written.{reduced_by, Written};
ghost use Rattle.pieces.specs.Found.{sort_outcome, pi_outcome};
ghost use Rattle.pieces.specs.Leaves.{no_sub, BodyOf, const_type, LocalReady, LocalType, NumberType, StructureReady, StructureAt, Walking, parameter_ask};

use records::{pi_at, sort_at, type_at, type_of};
use reduce::side;
use replace::{Sub, replace};
use rows::kinds::Kind;
use rows::refusals::{Out, Refusal};
use rows::writer::{make, make_const, make_sort};
use rows::{Ptr, Shape, row_at, shape_of, shift_up};
use spine::{argument, head_of};
use state::{Given, Meter, Reduced};
use tables::codes::{DeclKind, Role};
use tables::{Lent, decl_at};

// A pi's type, shifted; its body as it stands, and the shift that it is under.
#[derive(Clone, Copy, Debug, PartialEq, Eq)]
pub struct ReachedPi {
    pub ty: Ptr,
    pub body: Ptr,
    pub by: u32,
}

// Parameters, the constructor's declaration, and how many arguments the type has.
#[derive(Clone, Copy, Debug, PartialEq, Eq)]
pub struct Structure {
    pub parameters: u32,
    pub constructor: u32,
    pub count: u32,
}

// What was written, with the steps as they were.
fn written(o: Out, m: Meter) -> Reduced
    ensures { result ≡ reduced_by m.steps o }
{
    let (p, mark) = o?;
    Ok((p, m.at(mark)))
}

// A row.
pub fn made(library: &[u32], scratch: &mut [u32], g: Given, m: Meter, w: Shape) -> Reduced
    requires held { Held library.now scratch.old m.mark g.nlib }
    requires due { Due (g.nlib + m.mark) w }
    ensures { Written library.now scratch.old m result scratch.new (put_in
        (g.nlib + length scratch.old / 9) (store_of library.now scratch.old m.mark) (row_of w)) }
{
    written(make(library, scratch, g.nlib, m.mark, w), m)
}

// A replacement at cutoff c.
pub fn opened(
    library: &[u32],
    scratch: &mut [u32],
    g: Given,
    m: Meter,
    b: Ptr,
    c: u32,
    x: Sub,
) -> Reduced
    requires { PtrReady library.now scratch.old g.nlib m.mark b c x }
    ensures { Written library.now scratch.old m result scratch.new (replace_in
        (g.nlib + length scratch.old / 9) (value_of x) x.by (height_of library.now scratch.old m.mark b.row) c
        (store_of library.now scratch.old m.mark) (ptr_of b)) }
{
    written(replace(library, scratch, g.nlib, m.mark, b, c, x), m)
}

// A binder's body under the binder's shift: opened at cutoff 1, with no value; as it stands if the shift is 0.
pub fn body_of(library: &[u32], scratch: &mut [u32], g: Given, m: Meter, b: Ptr, by: u32) -> Reduced
    requires { PtrReady library.now scratch.old g.nlib m.mark b 1 (no_sub by) }
    ensures { BodyOf library.now scratch.old g m b by result scratch.new }
{
    if by == 0 {
        return Ok((b, m));
    }
    let x = Sub { value: None, by };
    opened(library, scratch, g, m, b, 1, x)
}

// Under a new record.
pub fn one_deeper(g: Given) -> Given
    requires { g.depth < 4294967295 }
    ensures { result ≡ deeper g }
{
    Given {
        depth: g.depth + 1,
        ..g
    }
}

// "reduced to a sort", one level deeper; no sort is 9. Document 01: a side answer is taken apart by `let .. else`.
pub fn to_sort(
    lent: Lent<'_>,
    scratch: &mut [u32],
    g: Given,
    m: Meter,
    p: Ptr,
    nesting: u32,
) -> Result<(u32, Meter), Refusal>
    requires ready { Ready (here lent.library.now lent.declarations.now lent.rules.now lent.context.now scratch.old g m) }
    requires scope { Scope (here lent.library.now lent.declarations.now lent.rules.now lent.context.now scratch.old g m) (ptr_of p) }
    ensures { Sorted nesting (here lent.entry.library.now lent.entry.declarations.now lent.entry.rules.now lent.entry.context.now
        scratch.old g m) (ptr_of p) (sort_outcome result) scratch.new }
{
    let got = side(lent, scratch, g, m, p, nesting);
    let Ok((q, after)) = got else {
        return Err(got.unwrap_err());
    };
    let level = sort_at(lent.library, scratch, q).ok_or(Refusal::NoType)?;
    Ok((level, after))
}

// "reduced if not a pi", one level deeper, taken apart likewise; no pi is 9.
pub fn to_pi(
    lent: Lent<'_>,
    scratch: &mut [u32],
    g: Given,
    m: Meter,
    p: Ptr,
    nesting: u32,
) -> Result<(ReachedPi, Meter), Refusal>
    requires ready { Ready (here lent.library.now lent.declarations.now lent.rules.now lent.context.now scratch.old g m) }
    requires scope { Scope (here lent.library.now lent.declarations.now lent.rules.now lent.context.now scratch.old g m) (ptr_of p) }
    ensures { Gives (PiIn g.depth) nesting (here lent.entry.library.now lent.entry.declarations.now lent.entry.rules.now
        lent.entry.context.now scratch.old g m) (pi_ask (ptr_of p)) (pi_outcome result) lent.entry.context.now scratch.new }
{
    let got = side(lent, scratch, g, m, p, nesting);
    let Ok((q, after)) = got else {
        return Err(got.unwrap_err());
    };
    let pi = pi_at(lent.library, scratch, q).ok_or(Refusal::NoType)?;
    let opened = ReachedPi {
        ty: shift_up(lent.library, scratch, pi.ty, q.shift),
        body: pi.body,
        by: q.shift,
    };
    Ok((opened, after))
}

// "Sort n: sort n + 1."
pub fn infer_sort(library: &[u32], scratch: &mut [u32], g: Given, m: Meter, level: u32) -> Reduced
    requires held { Held library.now scratch.old m.mark g.nlib }
    requires level_le_most_level { level ≤ most_level }
    ensures { Written library.now scratch.old m result scratch.new (sort_in
        (g.nlib + length scratch.old / 9) (store_of library.now scratch.old m.mark) (suc level)) }
{
    written(make_sort(library, scratch, g.nlib, m.mark, level + 1), m)
}

// "Constant, counts equal: its type."
pub fn infer_const(decls: &[u32], m: Meter, d: u32, levels: u32) -> Reduced
    requires { d < length decls.now / 16 }
    ensures { result ≡ const_type decls.now m d levels }
{
    if decl_at(decls, d).levels != levels {
        return Err(Refusal::NoType);
    }
    Ok((type_at(decls, d), m))
}

// "Variable i: its context type shifted i + 1."
pub fn infer_local<'a>(
    library: &'a [u32],
    context: &[u32],
    scratch: &'a [u32],
    g: Given,
    m: Meter,
    i: u32,
) -> Reduced
    requires { LocalReady library.now context.now scratch.now g m i }
    ensures { LocalType library.now context.now scratch.now g m i result }
{
    let ty = type_of(context, g.depth, i).ok_or(Refusal::NoType)?;
    Ok((shift_up(library, scratch, ty, i + 1), m))
}

// "Number: constant Nat."
pub fn infer_number(library: &[u32], scratch: &mut [u32], g: Given, m: Meter) -> Reduced
    requires { Held library.now scratch.old m.mark g.nlib }
    ensures { NumberType library.now scratch.old g m result scratch.new }
{
    let nat = g.holders.holder(Role::Nat).ok_or(Refusal::NoType)?;
    written(make_const(library, scratch, g.nlib, m.mark, nat, 0), m)
}

// "its head must be the named structure, given as many levels as the constructor counts"
pub fn structure_at<'a>(
    library: &'a [u32],
    decls: &[u32],
    scratch: &'a [u32],
    g: Given,
    m: Meter,
    t: Ptr,
    c: u32,
) -> Option<Structure>
    requires { StructureReady library.now decls.now scratch.now g m t c }
    ensures { StructureAt library.now decls.now scratch.now g m t c result }
{
    let s = head_of(library, scratch, t);
    let w = shape_of(row_at(library, scratch, s.head.row));
    let words = w.first;
    if w.kind != Kind::Constant.into() {
        return None;
    }
    if words.row != c {
        return None;
    }
    let d = decl_at(decls, c);
    if d.kind != Some(DeclKind::Structure) {
        return None;
    }
    if decl_at(decls, d.second).levels != words.shift {
        return None;
    }
    Some(Structure {
        parameters: d.parameters,
        constructor: d.second,
        count: s.count,
    })
}

// One parameter of the constructor's type w: the argument at i of the structure's type t replaced in; no argument is 9, after the pi.
fn parameter(
    lent: Lent<'_>,
    scratch: &mut [u32],
    g: Given,
    m: Meter,
    w: Ptr,
    t: Ptr,
    count: u32,
    i: u32,
    nesting: u32,
) -> Reduced
    requires ready { Ready (here lent.library.now lent.declarations.now lent.rules.now lent.context.now scratch.old g m) }
    requires walking { Walking (here lent.library.now lent.declarations.now lent.rules.now lent.context.now scratch.old g m) w t count }
    ensures { GivesPtr nesting (here lent.entry.library.now lent.entry.declarations.now lent.entry.rules.now lent.entry.context.now
        scratch.old g m) (parameter_ask (ptr_of w) (args_of (store_of lent.entry.library.now scratch.old m.mark) (ptr_of t)) i) result
        lent.entry.context.now scratch.new }
{
    let (pi, after) = to_pi(lent, scratch, g, m, w, nesting)?;
    if count <= i {
        return Err(Refusal::NoType);
    }
    let a = argument(lent.library, scratch, t, count, i);
    let x = Sub {
        value: Some(a),
        by: pi.by,
    };
    opened(lent.library, scratch, g, after, pi.body, 0, x)
}

// "walked through the parameters, reduced before each parameter"
pub fn walk_parameters(
    lent: Lent<'_>,
    scratch: &mut [u32],
    g: Given,
    m: Meter,
    w: Ptr,
    many: u32,
    t: Ptr,
    count: u32,
    nesting: u32,
) -> Reduced
    requires ready { Ready (here lent.library.now lent.declarations.now lent.rules.now lent.context.now scratch.old g m) }
    requires walking { Walking (here lent.library.now lent.declarations.now lent.rules.now lent.context.now scratch.old g m) w t count }
    ensures { GivesPtr nesting (here lent.entry.library.now lent.entry.declarations.now lent.entry.rules.now lent.entry.context.now
        scratch.old g m) (parameters many (args_of (store_of lent.entry.library.now scratch.old m.mark) (ptr_of t))
        (store_of lent.entry.library.now scratch.old m.mark) (ptr_of w)) result lent.entry.context.now scratch.new }
{
    let mut at = w;
    let mut meter = m;
    for i in 0..many {
        (at, meter) = parameter(lent, scratch, g, meter, at, t, count, i, nesting)?;
    }
    Ok((at, meter))
}
