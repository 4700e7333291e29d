// Spines: the head and the count of arguments, the argument at a position, a term applied to a run of another spine's arguments.
// No list of arguments is kept: the rows are walked again. So a term goes down with the count of its arguments beside it: what ties the two
// stands in the rows, and no struct of them could say it.
#![tactic(auto)]

ghost use Rattle.std.specs.Prelude.{◌≡◌, ◌+◌, ◌*◌, ◌/◌, ◌<◌, ◌≤◌, true, length, get_or, eqb};
ghost use Rattle.rules.specs.Kinds.{app};
ghost use Rattle.rules.specs.Rows.{blank, node, up};
ghost use Rattle.course.specs.Charged.{put_in};
ghost use Rattle.rows.specs.Words.{ptr_of, pair_at, words_at, store_of, whole, Stands, Held};
ghost use Rattle.rows.specs.Writes.{Wrote};
ghost use Rattle.spine.specs.Walks.{Walks, HasChild, Walked, Argument, Counted, Applies, run_in};

use rows::kinds::Kind;
use rows::refusals::Out;
use rows::writer::make;
use rows::{Ptr, Shape, kind_of, pair_of, row_at, shift_up};

#[derive(Clone, Copy, Debug, PartialEq, Eq)]
pub struct Spined {
    pub head: Ptr,
    pub count: u32,
}

fn is_app<'a>(library: &'a [u32], scratch: &'a [u32], t: Ptr) -> bool
    requires { Stands library.now scratch.now t.row }
    ensures { result ≡ eqb (get_or (words_at library.now scratch.now t.row) 0 0) 3 }
{
    kind_of(row_at(library, scratch, t.row)) == Kind::Application.into()
}

// Pair j of the row that t points at, taking t's shift on.
fn child<'a>(library: &'a [u32], scratch: &'a [u32], t: Ptr, j: usize) -> Ptr
    requires has_child { HasChild library.now scratch.now t j }
    requires j_bound { j < 3 }
    ensures { ptr_of result ≡ up (whole library.now scratch.now) (ptr_of
        (pair_at (words_at library.now scratch.now t.row) j)) t.shift }
{
    let p = pair_of(row_at(library, scratch, t.row), j);
    shift_up(library, scratch, p, t.shift)
}

// The head, found through applications: how many there are is known at the end alone.
pub fn head_of<'a>(library: &'a [u32], scratch: &'a [u32], t: Ptr) -> Spined
    requires { Walks library.now scratch.now t }
    ensures { Walked (whole library.now scratch.now) (ptr_of t) result }
{
    let mut head = t;
    let mut count = 0;
    while is_app(library, scratch, head) {
        head = child(library, scratch, head, 0);
        count += 1;
    }
    Spined { head, count }
}

// Argument i of the spine at t, which has `count`: the argument of the application count - 1 - i below t.
pub fn argument<'a>(library: &'a [u32], scratch: &'a [u32], t: Ptr, count: u32, i: u32) -> Ptr
    requires counted { Counted library.now scratch.now t count }
    requires i_lt_count { i < count }
    ensures { Argument (whole library.now scratch.now) (ptr_of t) count i result }
{
    let mut at = t;
    for _later in i + 1..count {
        at = child(library, scratch, at, 0);
    }
    child(library, scratch, at, 1)
}

// One application row is due.
pub fn apply_one(library: &[u32], scratch: &mut [u32], nlib: u32, mark: u32, f: Ptr, a: Ptr) -> Out
    requires held { Held library.now scratch.old mark nlib }
    requires row_bound { (f.row < nlib + mark) × (a.row < nlib + mark) }
    ensures { Wrote library.now scratch.old mark result scratch.new (put_in
        (nlib + length scratch.old / 9) (store_of library.now scratch.old mark) (node app (ptr_of f) (ptr_of a) blank)) }
{
    let w = Shape {
        kind: Kind::Application.into(),
        first: f,
        second: a,
        third: Ptr { row: 0, shift: 0 },
    };
    make(library, scratch, nlib, mark, w)
}

// f applied to the arguments from..to of the spine at t, one row each.
pub fn apply(
    library: &[u32],
    scratch: &mut [u32],
    nlib: u32,
    mark: u32,
    f: Ptr,
    t: Ptr,
    count: u32,
    from: u32,
    to: u32,
) -> Out
    requires { Applies library.now scratch.old nlib mark f t count from to }
    ensures { Wrote library.now scratch.old mark result scratch.new (run_in
        (nlib + length scratch.old / 9) (store_of library.now scratch.old mark) (ptr_of f) (ptr_of t) from to) }
{
    let mut result = f;
    let mut at = mark;
    for i in from..to {
        let a = argument(library, scratch, t, count, i);
        (result, at) = apply_one(library, scratch, nlib, at, result, a)?;
    }
    Ok((result, at))
}
