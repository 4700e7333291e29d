// The row writer: a row is due, and is written at the mark, or refused with 8 or 5, in that order; a sort's level is asked before, 10.
ghost use Rattle.std.specs.Prelude.{◌≡◌, ◌++◌, ◌+◌, ◌*◌, ◌/◌, ◌<◌, ◌≤◌, length, drop};
ghost use Rattle.rules.specs.Kinds.{const, num};
ghost use Rattle.rules.specs.Rows.{var, leaf};
ghost use Rattle.rules.specs.Arithmetic.{words_value};
ghost use Rattle.course.specs.Charged.{put_in};
ghost use Rattle.rows.specs.Words.{row_of, leaf_shape, pair, words_of, store_of, Held};
ghost use Rattle.rows.specs.Kinds.{code_of};
ghost use Rattle.rows.specs.Writes.{sort_in, Wrote, Due, Pushed};

use super::kinds::{Kind, Sizes, sizes_of, within};
use super::refusals::{Out, Refusal};
use super::{Ptr, Shape};

// A kind, three pairs, bound and height as a row's nine words.
fn nine_words(w: Shape, bound: u32, height: u32) -> [u32; 9]
    ensures { result ≡ words_of w bound height }
{
    [
        w.kind,
        w.first.row,
        w.first.shift,
        w.second.row,
        w.second.shift,
        w.third.row,
        w.third.shift,
        bound,
        height,
    ]
}

// 8 before 5.
fn push(scratch: &mut [u32], nlib: u32, mark: u32, w: Shape, size: Sizes) -> Out
    requires { nlib + mark < 4294967295 }
    ensures { Pushed scratch.old nlib mark w size result scratch.new }
{
    let at = 9 * (mark as usize);
    let end = at + 9;
    let small = within(size);
    if !small {
        return Err(Refusal::NoSize);
    }
    if scratch.len() < end {
        return Err(Refusal::NoFreeRow);
    }
    // `as` narrows: both are within their maxima
    scratch[at..end].copy_from_slice(&nine_words(w, size.bound as u32, size.height as u32));
    let written = Ptr {
        row: nlib + mark,
        shift: 0,
    };
    Ok((written, mark + 1))
}

// The row of a kind and three pairs is due.
pub fn make(library: &[u32], scratch: &mut [u32], nlib: u32, mark: u32, w: Shape) -> Out
    requires held { Held library.now scratch.old mark nlib }
    requires due { Due (nlib + mark) w }
    ensures { Wrote library.now scratch.old mark result scratch.new (put_in
        (nlib + length scratch.old / 9) (store_of library.now scratch.old mark) (row_of w)) }
{
    push(scratch, nlib, mark, w, sizes_of(library, scratch, w))
}

// A row with no children is due: its first pair has its plain words.
fn make_leaf(
    library: &[u32],
    scratch: &mut [u32],
    nlib: u32,
    mark: u32,
    kind: Kind,
    row: u32,
    shift: u32,
) -> Out
    requires held { Held library.now scratch.old mark nlib }
    requires due { Due (nlib + mark) (leaf_shape (code_of kind) (pair row shift)) }
    ensures { Wrote library.now scratch.old mark result scratch.new (put_in
        (nlib + length scratch.old / 9) (store_of library.now scratch.old mark) (row_of (leaf_shape (code_of kind) (pair row shift)))) }
{
    let none = Ptr { row: 0, shift: 0 };
    let w = Shape {
        kind: kind.into(),
        first: Ptr { row, shift },
        second: none,
        third: none,
    };
    make(library, scratch, nlib, mark, w)
}

pub fn make_var(library: &[u32], scratch: &mut [u32], nlib: u32, mark: u32, index: u32) -> Out
    requires { Held library.now scratch.old mark nlib }
    ensures { Wrote library.now scratch.old mark result scratch.new (put_in
        (nlib + length scratch.old / 9) (store_of library.now scratch.old mark) (var index)) }
{
    make_leaf(library, scratch, nlib, mark, Kind::Variable, index, 0)
}

// "A row with level over 255 gives 10 before 8."
pub fn make_sort(library: &[u32], scratch: &mut [u32], nlib: u32, mark: u32, level: u32) -> Out
    requires { Held library.now scratch.old mark nlib }
    ensures { Wrote library.now scratch.old mark result scratch.new (sort_in
        (nlib + length scratch.old / 9) (store_of library.now scratch.old mark) level) }
{
    if 255 < level {
        return Err(Refusal::SortLevel);
    }
    make_leaf(library, scratch, nlib, mark, Kind::Sort, level, 0)
}

pub fn make_const(
    library: &[u32],
    scratch: &mut [u32],
    nlib: u32,
    mark: u32,
    declaration: u32,
    levels: u32,
) -> Out
    requires { Held library.now scratch.old mark nlib }
    ensures { Wrote library.now scratch.old mark result scratch.new (put_in
        (nlib + length scratch.old / 9) (store_of library.now scratch.old mark) (leaf (const declaration levels))) }
{
    make_leaf(
        library,
        scratch,
        nlib,
        mark,
        Kind::Constant,
        declaration,
        levels,
    )
}

// A number's low word, then its high word.
pub fn make_number(
    library: &[u32],
    scratch: &mut [u32],
    nlib: u32,
    mark: u32,
    low: u32,
    high: u32,
) -> Out
    requires { Held library.now scratch.old mark nlib }
    ensures { Wrote library.now scratch.old mark result scratch.new (put_in
        (nlib + length scratch.old / 9) (store_of library.now scratch.old mark) (leaf (num (words_value low high)))) }
{
    make_leaf(library, scratch, nlib, mark, Kind::Number, low, high)
}
