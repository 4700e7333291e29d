// The row check, refusal 2: upward from row 0, to the first row that breaks a rule. Children's recorded bounds and heights count,
// which the rows below have shown right.
ghost use Rattle.std.specs.Prelude.{◌≡◌, ◌+◌, ◌<◌, ◌≤◌};
ghost use Rattle.rules.specs.Rows.{cell_at};
ghost use Rattle.rules.specs.RowCheck.{ChildOk, FieldOk, RowOk};
ghost use Rattle.rows.specs.Words.{ptr_of, row_of, shape_at, shown, tag_at, words_at, whole, Stands, Children, Held};
ghost use Rattle.rows.specs.Checks.{Formed, Ranged, Sized, Says, Right, CheckSays};

use super::kinds::{Kind, Tag, field_tag, sizes_of, used_words, within};
use super::refusals::{Refusal, Refused};
use super::{Ptr, Shape, bound_of, height_of, row_at, shape_of};

// A word past those that a kind uses is 0.
fn idle(used: u8, at: u8, word: u32) -> bool
    ensures { Says (used < at → word ≡ 0) result }
{
    at <= used || word == 0
}

// The kind is one of the nine, and the words that it does not use are 0. It is read as a word, since any may stand there.
fn formed(w: Shape) -> bool
    ensures { Says (Formed w) result }
{
    if 8 < w.kind {
        return false;
    }
    let used = used_words(w.kind);
    idle(used, 2, w.first.shift)
        && idle(used, 3, w.second.row)
        && idle(used, 4, w.second.shift)
        && idle(used, 5, w.third.row)
        && idle(used, 6, w.third.shift)
}

// A variable's index, a sort's level, a declaration's number and a count of levels are in range.
fn in_range(w: Shape, declarations: u32) -> bool
    requires { w.kind ≤ 8 }
    ensures { Says (Ranged declarations (row_of w)) result }
{
    match Kind::known(w.kind) {
        Kind::Variable => w.first.row <= 4095,
        Kind::Sort => w.first.row <= 255,
        Kind::Constant => w.first.row < declarations && w.first.shift <= 16,
        Kind::Projection => w.second.row < declarations,
        _ => true,
    }
}

// A child's row is lower, and a closed child's shift is 0. One test returns before the next; tried as a chain, the proof did not close.
fn child_ok<'a>(library: &'a [u32], scratch: &'a [u32], n: u32, p: Ptr) -> bool
    requires { Stands library.now scratch.now n }
    ensures { Says (ChildOk (whole library.now scratch.now) n (ptr_of p)) result }
{
    if n <= p.row {
        return false;
    }
    let b = bound_of(row_at(library, scratch, p.row));
    if b == 0 {
        return p.shift == 0;
    }
    true
}

// Plain words are no child. The kind is the word that the shape has, as `field_tag` asks for it.
fn field_ok<'a>(library: &'a [u32], scratch: &'a [u32], n: u32, kind: u32, j: u32, p: Ptr) -> bool
    requires kind_bound { (kind ≤ 8) × (j < 3) }
    requires stands { Stands library.now scratch.now n }
    ensures { Says (FieldOk (whole library.now scratch.now) n (shown (tag_at kind j) (ptr_of p)) (tag_at kind j)) result }
{
    match field_tag(kind, j) {
        Tag::Plain => true,
        _ => child_ok(library, scratch, n, p),
    }
}

// Plain words in range, and each field as the table marks it. Here and below one test returns before the next; tried as a chain, the proof
// did not close: it would have to take the joined tests apart again.
fn fields_ok<'a>(
    library: &'a [u32],
    scratch: &'a [u32],
    declarations: u32,
    n: u32,
    w: Shape,
) -> bool
    requires kind_bound { w.kind ≤ 8 }
    requires stands { Stands library.now scratch.now n }
    ensures { Says (RowOk declarations (whole library.now scratch.now) n (row_of w)) result }
{
    if !in_range(w, declarations) {
        return false;
    }
    let kind = w.kind;
    if !field_ok(library, scratch, n, kind, 0, w.first) {
        return false;
    }
    if !field_ok(library, scratch, n, kind, 1, w.second) {
        return false;
    }
    field_ok(library, scratch, n, kind, 2, w.third)
}

// The recorded bound and height are those that the children give, and within the maxima.
fn sized<'a>(library: &'a [u32], scratch: &'a [u32], n: u32) -> bool
    requires stands { Stands library.now scratch.now n }
    requires children { Children library.now scratch.now (shape_at (words_at library.now scratch.now n)) }
    ensures { Says (Sized (whole library.now scratch.now) (cell_at (whole library.now scratch.now) n)) result }
{
    let row = row_at(library, scratch, n);
    let size = sizes_of(library, scratch, shape_of(row));
    if size.bound != u64::from(bound_of(row)) {
        return false;
    }
    if size.height != u64::from(height_of(row)) {
        return false;
    }
    within(size)
}

fn row_passes<'a>(library: &'a [u32], scratch: &'a [u32], declarations: u32, n: u32) -> bool
    requires { Stands library.now scratch.now n }
    ensures { Says (Right declarations library.now scratch.now n) result }
{
    let w = shape_of(row_at(library, scratch, n));
    if !formed(w) {
        return false;
    }
    if !fields_ok(library, scratch, declarations, n, w) {
        return false;
    }
    sized(library, scratch, n)
}

// The row check over library rows and scratch rows below the mark: refusal 2 at the lowest row that breaks a rule.
pub fn check_rows<'a>(
    library: &'a [u32],
    scratch: &'a [u32],
    nlib: u32,
    mark: u32,
    declarations: u32,
) -> Result<(), Refused>
    requires { Held library.now scratch.now mark nlib }
    ensures { CheckSays declarations library.now scratch.now mark nlib result }
{
    for n in 0..nlib + mark {
        if !row_passes(library, scratch, declarations, n) {
            return Err(Refusal::Row.at(n));
        }
    }
    Ok(())
}
