// What inference reads and writes in the words: types of declarations and variables, a record pushed and the spare ones cleared, a sort or a pi.
#![tactic(auto)]

ghost use Rattle.std.specs.Prelude.{◌≡◌, ◌+◌, ◌*◌, ◌≤◌, length};
ghost use Rattle.rules.specs.Accepted.{part};
ghost use Rattle.rows.specs.Words.{shape_at, words_at, Stands};
ghost use Rattle.records.specs.Read.{type_read, found_type, TypeOf, sort_read, pi_read};
ghost use Rattle.records.specs.Write.{pushed, cleared_from};

use rows::kinds::Kind;
use rows::{Ptr, record_at, row_at, shape_of};
use tables::record_of;

// A pi's two parts, as they stand in its row.
#[derive(Clone, Copy, Debug, PartialEq, Eq)]
pub struct Pi {
    pub ty: Ptr,
    pub body: Ptr,
}

// A declaration's type. Where a record lies in what is lent is a clause: the list and the number come from two places.
pub fn type_at(decls: &[u32], d: u32) -> Ptr
    requires { 16 * d + 16 ≤ length decls.now }
    ensures { result ≡ type_read (part 16 decls.now d) }
{
    let w = record_at::<16>(decls, 16 * d as usize);
    Ptr {
        row: w[2],
        shift: w[3],
    }
}

// The context type of variable i.
pub fn type_of(context: &[u32], depth: u32, i: u32) -> Option<Ptr>
    requires { 5 * depth ≤ length context.now }
    ensures { TypeOf context.now depth i (found_type result) }
{
    if depth == 0 {
        return None;
    }
    let w = record_at::<5>(context, 5 * record_of(depth, i) as usize);
    Some(Ptr {
        row: w[0],
        shift: w[1],
    })
}

// The spare record that follows the depth gets this type, and no value: what stood in its value's words is gone.
pub fn push(context: &mut [u32], depth: u32, ty: Ptr)
    requires { 5 * depth + 5 ≤ length context.old }
    ensures { context.new ≡ pushed context.old depth ty }
{
    let at = 5 * depth as usize;
    context[at..at + 5].copy_from_slice(&[ty.row, ty.shift, 0, 0, 0]);
}

// Spare records are zero afterwards.
pub fn clear(context: &mut [u32], depth: u32)
    requires { 5 * depth ≤ length context.old }
    ensures { context.new ≡ cleared_from (5 * depth) context.old }
{
    context[5 * depth as usize..].fill(0);
}

// The level, if the row that q points at is a sort.
#[tactic(auto, unfolding(crate::specs::Read::sort_read))]
pub fn sort_at<'a>(library: &'a [u32], scratch: &'a [u32], q: Ptr) -> Option<u32>
    requires { Stands library.now scratch.now q.row }
    ensures { result ≡ sort_read (shape_at (words_at library.now scratch.now q.row)) }
{
    let w = shape_of(row_at(library, scratch, q.row));
    match Kind::try_from(w.kind) {
        Ok(Kind::Sort) => Some(w.first.row),
        _ => None,
    }
}

// Type and body, if the row that q points at is a pi: q's shift is not yet on them.
#[tactic(auto, unfolding(crate::specs::Read::pi_read))]
pub fn pi_at<'a>(library: &'a [u32], scratch: &'a [u32], q: Ptr) -> Option<Pi>
    requires { Stands library.now scratch.now q.row }
    ensures { result ≡ pi_read (shape_at (words_at library.now scratch.now q.row)) }
{
    let w = shape_of(row_at(library, scratch, q.row));
    match Kind::try_from(w.kind) {
        Ok(Kind::Pi) => Some(Pi {
            ty: w.first,
            body: w.second,
        }),
        _ => None,
    }
}
