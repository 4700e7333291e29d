// Replacement down the rows: at cutoff c, with one value or none and a move. Recursive over children in field order, with the recorded height falling.
#![tactic(auto)]

ghost use Rattle.std.specs.Prelude.{◌≡◌};
ghost use Rattle.rules.specs.Replacement.{count};
ghost use Rattle.replace.specs.Replaced.{value_of, IndexReady, FieldReady, RowReady, PtrReady, IndexDone, FieldDone, RowDone, Replaced};

use rows::kinds::{Kind, Tag, field_tag};
use rows::refusals::Out;
use rows::writer::{make, make_var};
use rows::{Ptr, Shape, ptr_bound, row_at, shape_of, shift_up};

// One value or none, and the move of the indices past it.
#[derive(Clone, Copy, Debug, PartialEq, Eq)]
pub struct Sub {
    pub value: Option<Ptr>,
    pub by: u32,
}

impl Sub {
    // How many values there are: 1 or 0.
    pub fn count(self) -> u32
        ensures { result ≡ count (value_of self) }
    {
        u32::from(self.value.is_some())
    }
}

// A variable's row: an index below the cutoff stays, the one at it is the value, one past it moves and is written.
fn on_index(
    library: &[u32],
    scratch: &mut [u32],
    nlib: u32,
    mark: u32,
    row: u32,
    i: u32,
    c: u32,
    x: Sub,
) -> Out
    requires { IndexReady library.now scratch.old nlib mark row i c x }
    ensures { IndexDone library.now scratch.old nlib mark row i c x result scratch.new }
{
    if i < c {
        return Ok((Ptr { row, shift: 0 }, mark));
    }
    match x.value {
        Some(v) if i == c => Ok((shift_up(library, scratch, v, c), mark)),
        _ => make_var(library, scratch, nlib, mark, i - x.count() + x.by),
    }
}

// A field by the table: a plain word stays, a term is replaced in, a body at the next cutoff. Inlined: it is called three times for
// each row, and the calls took a sixth of a replacement.
#[inline(always)]
#[cycle(replace)]
fn on_field(
    library: &[u32],
    scratch: &mut [u32],
    nlib: u32,
    mark: u32,
    tag: Tag,
    p: Ptr,
    c: u32,
    x: Sub,
) -> Out
    requires { FieldReady library.now scratch.old nlib mark tag p c x }
    ensures { FieldDone library.now scratch.old nlib mark tag p c x result scratch.new }
{
    match tag {
        Tag::Plain => Ok((p, mark)),
        Tag::Term => replace(library, scratch, nlib, mark, p, c, x),
        Tag::Body => replace(library, scratch, nlib, mark, p, c + 1, x),
    }
}

// An unshifted row: a variable, or the children in field order and then the new row.
#[cycle(replace)]
fn on_row(
    library: &[u32],
    scratch: &mut [u32],
    nlib: u32,
    mark: u32,
    row: u32,
    c: u32,
    x: Sub,
) -> Out
    requires { RowReady library.now scratch.old nlib mark row c x }
    ensures { RowDone library.now scratch.old nlib mark row c x result scratch.new }
{
    let w = shape_of(row_at(library, scratch, row));
    let (p1, p2, p3) = (w.first, w.second, w.third);
    if w.kind == Kind::Variable.into() {
        return on_index(library, scratch, nlib, mark, row, p1.row, c, x);
    }
    let (q1, m1) = on_field(library, scratch, nlib, mark, field_tag(w.kind, 0), p1, c, x)?;
    let (q2, m2) = on_field(library, scratch, nlib, m1, field_tag(w.kind, 1), p2, c, x)?;
    let (q3, m3) = on_field(library, scratch, nlib, m2, field_tag(w.kind, 2), p3, c, x)?;
    let new = Shape {
        kind: w.kind,
        first: q1,
        second: q2,
        third: q3,
    };
    make(library, scratch, nlib, m3, new)
}

// The three cases of a pointer: bound at most c, shift at least c + n, otherwise.
#[cycle(replace)]
pub fn replace(
    library: &[u32],
    scratch: &mut [u32],
    nlib: u32,
    mark: u32,
    p: Ptr,
    c: u32,
    x: Sub,
) -> Out
    requires { PtrReady library.now scratch.old nlib mark p c x }
    ensures { Replaced library.now scratch.old nlib mark p c x result scratch.new }
{
    if ptr_bound(library, scratch, p) <= u64::from(c) {
        return Ok((p, mark));
    }
    let s = p.shift;
    let n = x.count();
    if c + n <= s {
        let moved = Ptr {
            row: p.row,
            shift: s - n + x.by,
        };
        return Ok((moved, mark));
    }
    let (q, m) = on_row(library, scratch, nlib, mark, p.row, c - s, x)?;
    Ok((shift_up(library, scratch, q, s), m))
}
