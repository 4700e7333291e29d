// The table of kinds, and the bound and height that a row's children give.
ghost use Rattle.std.specs.Prelude.{◌≡◌, ◌<◌, ◌≤◌};
ghost use Rattle.rules.specs.Kinds.{plain, term};
ghost use Rattle.rules.specs.Rows.{cell};
ghost use Rattle.rows.specs.Words.{ptr_of, row_of, tag_at, whole, Stands, Children};
ghost use Rattle.rows.specs.Kinds.{code_of, IsKind, tag_of};
ghost use Rattle.rows.specs.Checks.{used, FieldAdds, sizes_of, Within, Says};

use super::{Ptr, Shape, height_of, ptr_bound, row_at};

// The kinds of rows, each at its number.
#[derive(Clone, Copy, Debug, PartialEq, Eq)]
pub enum Kind {
    Variable,
    Sort,
    Constant,
    Application,
    Lambda,
    Pi,
    Let,
    Projection,
    Number,
}

// A word that is the number of no kind.
#[derive(Clone, Copy, Debug, PartialEq, Eq)]
pub struct UnknownCode(pub u32);

impl TryFrom<u32> for Kind {
    type Error = UnknownCode;

    ghost try_from_gives = { IsKind };

    fn try_from(code: u32) -> Result<Self, UnknownCode> {
        match code {
            0 => Ok(Kind::Variable),
            1 => Ok(Kind::Sort),
            2 => Ok(Kind::Constant),
            3 => Ok(Kind::Application),
            4 => Ok(Kind::Lambda),
            5 => Ok(Kind::Pi),
            6 => Ok(Kind::Let),
            7 => Ok(Kind::Projection),
            8 => Ok(Kind::Number),
            _ => Err(UnknownCode(code)),
        }
    }
}

impl From<Kind> for u32 {
    ghost from_gives = { λ k code. code ≡ code_of k };

    fn from(k: Kind) -> u32 {
        k as u32
    }
}

impl Kind {
    // The kind of a row whose kind is one of the nine.
    pub fn known(code: u32) -> Kind
        requires { code ≤ 8 }
        ensures { code_of result ≡ code }
    {
        Kind::try_from(code).unwrap()
    }
}

// What stands in a field.
#[derive(Clone, Copy, Debug, PartialEq, Eq)]
pub enum Tag {
    Plain,
    Term,
    Body,
}

// Nine kinds by three fields: plain word, term, or body under the binder. A static, since a constant table of an enum is built anew
// wherever it is read.
static FIELDS: [[Tag; 3]; 9] = [
    [Tag::Plain, Tag::Plain, Tag::Plain], // variable
    [Tag::Plain, Tag::Plain, Tag::Plain], // sort
    [Tag::Plain, Tag::Plain, Tag::Plain], // constant
    [Tag::Term, Tag::Term, Tag::Plain], // application
    [Tag::Term, Tag::Body, Tag::Plain], // lambda
    [Tag::Term, Tag::Body, Tag::Plain], // pi
    [Tag::Term, Tag::Term, Tag::Body], // let
    [Tag::Term, Tag::Plain, Tag::Plain], // projection
    [Tag::Plain, Tag::Plain, Tag::Plain], // number
];

// How many of the six words between kind and bound a kind uses.
const USED: [u8; 9] = [1, 1, 2, 4, 4, 4, 6, 4, 2];

#[derive(Clone, Copy, Debug, PartialEq, Eq)]
pub struct Sizes {
    pub bound: u64,
    pub height: u64,
}

// The kind as its word, here and below: a shape has the word, and `tag_at`, `used` and their laws speak of the number.
pub fn field_tag(kind: u32, j: u32) -> Tag
    requires { (kind ≤ 8) × (j < 3) }
    ensures { tag_of result ≡ tag_at kind j }
{
    FIELDS[kind as usize][j as usize]
}

pub fn used_words(kind: u32) -> u8
    requires { kind ≤ 8 }
    ensures { result ≡ used kind }
{
    USED[kind as usize]
}

// The bound and height that a term has as a field.
fn child_sizes<'a>(library: &'a [u32], scratch: &'a [u32], p: Ptr) -> Sizes
    requires { Stands library.now scratch.now p.row }
    ensures { FieldAdds (whole library.now scratch.now) term (ptr_of p) result }
{
    Sizes {
        bound: ptr_bound(library, scratch, p),
        height: u64::from(height_of(row_at(library, scratch, p.row))),
    }
}

// What a field adds to its row's bound and height, by the table: a body's bound is counted one less, not below 0.
fn field_sizes<'a>(library: &'a [u32], scratch: &'a [u32], kind: u32, j: u32, p: Ptr) -> Sizes
    requires kind_bound { (kind ≤ 8) × (j < 3) }
    requires stands { (tag_at kind j ≡ plain → ⊥) → Stands library.now scratch.now p.row }
    ensures { FieldAdds (whole library.now scratch.now) (tag_at kind j) (ptr_of p) result }
{
    match field_tag(kind, j) {
        Tag::Plain => Sizes {
            bound: 0,
            height: 0,
        },
        Tag::Term => child_sizes(library, scratch, p),
        Tag::Body => {
            let inside = child_sizes(library, scratch, p);
            Sizes {
                bound: inside.bound.saturating_sub(1),
                ..inside
            }
        }
    }
}

// A row's bound is at most 4,096, its height at most 2,000.
pub fn within(size: Sizes) -> bool
    ensures { Says (Within size) result }
{
    size.bound <= 4096 && size.height <= 2000
}

// The bound and height of a row of this kind and these pairs, from its children's recorded ones; 64 bits, so that no sum wraps.
pub fn sizes_of<'a>(library: &'a [u32], scratch: &'a [u32], w: Shape) -> Sizes
    requires { Children library.now scratch.now w }
    ensures { result ≡ sizes_of (cell (whole library.now scratch.now) (row_of w)) }
{
    if w.kind == Kind::Variable.into() {
        return Sizes {
            bound: u64::from(w.first.row) + 1,
            height: 1,
        };
    }
    let x = field_sizes(library, scratch, w.kind, 0, w.first);
    let y = field_sizes(library, scratch, w.kind, 1, w.second);
    let z = field_sizes(library, scratch, w.kind, 2, w.third);
    Sizes {
        bound: x.bound.max(y.bound).max(z.bound),
        height: x.height.max(y.height).max(z.height) + 1,
    }
}
