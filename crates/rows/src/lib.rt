// Rows of nine words in two lent slices, library and scratch: pointers, row lookup, and the readers of a looked-up part.
// Scratch rows are numbered after library rows; a row is read where it stands.
#![tactic(auto)]

ghost use Rattle.std.specs.Prelude.{◌≡◌, ◌+◌, ◌<◌, ◌≤◌, length, get_or, take, drop};
ghost use Rattle.rules.specs.Rows.{bound, up};
ghost use Rattle.rows.specs.Words.{ptr_of, pair_at, shape_at, words_at, whole, Stands};

pub mod kinds;
pub mod refusals;
pub mod row_check;
pub mod writer;

// Document 01: row number and shift by value, rows in lent slices. So a row is named by its number.
#[derive(Clone, Copy, Debug, PartialEq, Eq)]
pub struct Ptr {
    pub row: u32,
    pub shift: u32,
}

// A row's kind and its three pairs. The kind is the word as it stands: any nine words have a shape, and `Kind` tells which of them are a row.
#[derive(Clone, Copy, Debug, PartialEq, Eq)]
pub struct Shape {
    pub kind: u32,
    pub first: Ptr,
    pub second: Ptr,
    pub third: Ptr,
}

// The record of N words at a place, where it stands.
pub fn record_at<const N: usize>(words: &[u32], at: usize) -> &[u32; N]
    requires { at + N ≤ length words.now }
    ensures { result.now ≡ take N (drop at words.now) }
{
    words[at..at + N].try_into().unwrap()
}

// The nine words of row n, where it stands. Document 01: row lookup takes both lent slices, so they go down as two parameters,
// and what is said of both (`Stands`, `Held`, ..) are clauses. `as usize`: no `From` leads from u32 to usize.
pub fn row_at<'a>(library: &'a [u32], scratch: &'a [u32], n: u32) -> &'a [u32; 9]
    requires { Stands library.now scratch.now n }
    ensures { result.now ≡ words_at library.now scratch.now n }
{
    let at = 9 * (n as usize);
    if at < library.len() {
        record_at(library, at)
    } else {
        record_at(scratch, at - library.len())
    }
}

// As a word: any nine words have one.
pub fn kind_of(row: &[u32; 9]) -> u32
    ensures { result ≡ get_or row.now 0 0 }
{
    row[0]
}

// The pair of field j.
pub fn pair_of(row: &[u32; 9], j: usize) -> Ptr
    requires { j < 3 }
    ensures { result ≡ pair_at row.now j }
{
    Ptr {
        row: row[2 * j + 1],
        shift: row[2 * j + 2],
    }
}

pub fn bound_of(row: &[u32; 9]) -> u32
    ensures { result ≡ get_or row.now 7 0 }
{
    row[7]
}

pub fn height_of(row: &[u32; 9]) -> u32
    ensures { result ≡ get_or row.now 8 0 }
{
    row[8]
}

pub fn shape_of(row: &[u32; 9]) -> Shape
    ensures { result ≡ shape_at row.now }
{
    Shape {
        kind: kind_of(row),
        first: pair_of(row, 0),
        second: pair_of(row, 1),
        third: pair_of(row, 2),
    }
}

// 0 for a closed row, else row bound plus shift: 64 bits, since a shift that no check has seen is any u32. `as` widens:
// tried with `u64::from`, the proofs did not close, since the contracts above read the sum as it stands.
pub fn ptr_bound<'a>(library: &'a [u32], scratch: &'a [u32], p: Ptr) -> u64
    requires { Stands library.now scratch.now p.row }
    ensures { result ≡ bound (whole library.now scratch.now) (ptr_of p) }
{
    let b = bound_of(row_at(library, scratch, p.row));
    if b == 0 {
        return 0;
    }
    (b as u64) + (p.shift as u64)
}

// A closed pointer stays as it is.
pub fn shift_up<'a>(library: &'a [u32], scratch: &'a [u32], p: Ptr, k: u32) -> Ptr
    requires stands { Stands library.now scratch.now p.row }
    requires k_bound { p.shift + k < 4294967296 }
    ensures { ptr_of result ≡ up (whole library.now scratch.now) (ptr_of p) k }
{
    let b = bound_of(row_at(library, scratch, p.row));
    if b == 0 {
        return p;
    }
    Ptr {
        row: p.row,
        shift: p.shift + k,
    }
}
