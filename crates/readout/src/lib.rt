// The read-out of a term as text, all shifts carried out. It goes into a lent buffer and stops where that is full: a term whose rows are
// shared may take any number of bytes, and no more time is spent on it than the buffer has room for.
#![tactic(auto)]

ghost use Rattle.std.specs.Prelude.{◌≡◌, ◌+◌, ◌*◌, ◌-◌, ◌≤◌, ◌<◌, leb, IfSome};
ghost use Rattle.readout.specs.Places.{raised, carried_by, Whole, Room, RoomBelow};

use out::{put, put_number, put_text};
use rows::kinds::{Kind, Tag, field_tag};
use rows::{Ptr, Shape, row_at, shape_of};

pub mod out;
pub mod sum;

// Rows are at most this high, so no path down the rows is longer.
const MOST_HIGH: u32 = 2000;

// Two words for each shifted pointer on a path; `Place` counts them, since there is no heap.
const PATH_WORDS: usize = 4000;

// Where the writer stands: binders crossed from the top, shifted pointers passed, and levels that may follow.
#[derive(Clone, Copy, Debug, PartialEq, Eq)]
pub struct Place {
    pub binders: u32,
    pub shifted: u32,
    pub levels: u32,
}

impl Place {
    // The place of a row whose pointer is shifted; the path gets its two words.
    fn at_shifted(self, path: &mut [u32; PATH_WORDS], shift: u32) -> Place
        requires levels_nonzero { 0 < self.levels }
        requires room { Room self }
        ensures room_below { RoomBelow result }
        ensures levels_value { result.levels ≡ self.levels }
    {
        if shift == 0 {
            return self;
        }
        let at = 2 * (self.shifted as usize);
        path[at] = self.binders;
        path[at + 1] = shift;
        Place {
            shifted: self.shifted + 1,
            ..self
        }
    }

    // The place of a child.
    fn below(self, tag: Tag) -> Place
        requires levels_nonzero { 0 < self.levels }
        requires binders_bound { self.binders < 2000 }
        ensures levels_value { result.levels + 1 ≡ self.levels }
        ensures shifted_value { result.shifted ≡ self.shifted }
        ensures at_most_one_more { result.binders ≤ self.binders + 1 }
    {
        Place {
            binders: self.binders + u32::from(tag == Tag::Body),
            levels: self.levels - 1,
            ..self
        }
    }
}

// An index that is loose at a shifted pointer, where `then` binders were crossed, goes up by its shift: it is at least the count of
// binders crossed since.
fn raise(index: u64, binders: u32, then: u32, shift: u32) -> u64
    requires { index < 0x8000_0000_0000_0000 }
    ensures value { result ≡ raised (leb (binders - then) index) shift index }
    ensures upper_bound { result ≤ index + 4294967295 }
{
    if u64::from(binders.saturating_sub(then)) <= index {
        index + u64::from(shift)
    } else {
        index
    }
}

// A variable's index with the shifts of the path carried out, innermost first.
fn carried(path: &[u32; PATH_WORDS], place: Place, index: u32) -> u64
    requires { place.shifted ≤ 2000 }
    ensures { result ≡ carried_by path.now place.binders place.shifted index }
{
    let mut carried = u64::from(index);
    for i in (0..place.shifted as usize).rev() {
        carried = raise(carried, place.binders, path[2 * i], path[2 * i + 1]);
    }
    carried
}

// A letter and one number.
fn put_named(letter: u8, number: u64, out: &mut [u8], at: usize) -> Option<usize> {
    let at = put(out, at, letter)?;
    put_number(out, at, number)
}

// With a dot and the count of levels where any are given.
fn put_constant(words: Ptr, out: &mut [u8], at: usize) -> Option<usize> {
    let at = put_named(b'c', u64::from(words.row), out, at)?;
    if words.shift == 0 {
        return Some(at);
    }
    put_named(b'.', u64::from(words.shift), out, at)
}

// A number of two words, the low one first.
fn put_value(words: Ptr, out: &mut [u8], at: usize) -> Option<usize> {
    let value = 0x1_0000_0000 * u64::from(words.shift) + u64::from(words.row);
    put_named(b'n', value, out, at)
}

fn put_projection(words: Ptr, out: &mut [u8], at: usize) -> Option<usize> {
    let at = put_text(out, at, b"(proj")?;
    let at = put_named(b' ', u64::from(words.row), out, at)?;
    put_named(b' ', u64::from(words.shift), out, at)
}

// A row's kind and pairs, where it stands and has a kind.
fn shape_at<'a>(library: &'a [u32], scratch: &'a [u32], row: u32) -> Option<Shape>
    requires { Whole library.now scratch.now }
    ensures { IfSome result (λ w. w.kind ≤ 8) }
{
    let at = 9 * (row as usize);
    if library.len() + scratch.len() <= at {
        return None;
    }
    let w = shape_of(row_at(library, scratch, row));
    if Kind::try_from(w.kind).is_ok() {
        Some(w)
    } else {
        None
    }
}

// A child after a blank; nothing for a field of plain words. The kind is the word that the shape has, as `field_tag` asks for it.
// Inlined: it is called three times for each row, and the calls took a quarter of a read-out.
#[inline(always)]
#[cycle(put_term)]
fn put_field<'a>(
    library: &'a [u32],
    scratch: &'a [u32],
    kind: u32,
    j: u32,
    p: Ptr,
    place: Place,
    path: &mut [u32; PATH_WORDS],
    out: &mut [u8],
    at: usize,
) -> Option<usize>
    requires kind_bound { (kind ≤ 8) × (j < 3) }
    requires whole { Whole library.now scratch.now }
    requires room_below { RoomBelow place }
{
    let tag = field_tag(kind, j);
    if tag == Tag::Plain {
        return Some(at);
    }
    let at = put(out, at, b' ')?;
    put_term(library, scratch, p, place.below(tag), path, out, at)
}

// A pointer's term: a row without children, or its opening, its children and the bracket that closes it.
#[cycle(put_term)]
fn put_term<'a>(
    library: &'a [u32],
    scratch: &'a [u32],
    p: Ptr,
    place: Place,
    path: &mut [u32; PATH_WORDS],
    out: &mut [u8],
    at: usize,
) -> Option<usize>
    requires whole { Whole library.now scratch.now }
    requires room { Room place }
{
    if place.levels == 0 {
        return None;
    }
    let w = shape_at(library, scratch, p.row)?;
    let here = place.at_shifted(path, p.shift);
    let at = match Kind::known(w.kind) {
        Kind::Variable => return put_named(b'v', carried(path, here, w.first.row), out, at),
        Kind::Sort => return put_named(b's', u64::from(w.first.row), out, at),
        Kind::Constant => return put_constant(w.first, out, at),
        Kind::Number => return put_value(w.first, out, at),
        Kind::Application => put_text(out, at, b"(@")?,
        Kind::Lambda => put_text(out, at, b"(lam")?,
        Kind::Pi => put_text(out, at, b"(pi")?,
        Kind::Let => put_text(out, at, b"(let")?,
        Kind::Projection => put_projection(w.second, out, at)?,
    };
    let at = put_field(library, scratch, w.kind, 0, w.first, here, path, out, at)?;
    let at = put_field(library, scratch, w.kind, 1, w.second, here, path, out, at)?;
    let at = put_field(library, scratch, w.kind, 2, w.third, here, path, out, at)?;
    put(out, at, b')')
}

// The read-out of t from the buffer's front: where it ends, or None where there is no room for it. All rows of a table that is accepted
// can be read; what else is lent is answered None too.
pub fn read_out<'a>(
    library: &'a [u32],
    scratch: &'a [u32],
    t: Ptr,
    out: &mut [u8],
) -> Option<usize> {
    if library.len() % 9 != 0 || scratch.len() % 9 != 0 {
        return None;
    }
    let mut path = [0; PATH_WORDS];
    let top = Place {
        binders: 0,
        shifted: 0,
        levels: MOST_HIGH,
    };
    put_term(library, scratch, t, top, &mut path, out, 0)
}
