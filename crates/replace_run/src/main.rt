// Runs replacement at cases whose answers were worked out from the paper: the file stdout has what answers.py makes of them, without this program.
// Whatever the contracts require is tested first, since the rows are data; no case is refused for that.
#![tactic(auto)]

ghost use Rattle.std.specs.Prelude.{◌≡◌, true};
ghost use Rattle.substitution.specs.Stores.{Good};
ghost use Rattle.substitution.specs.Existence.{ValueGood};
ghost use Rattle.rows.specs.Words.{ptr_of, store_of, Held};
ghost use Rattle.replace.specs.Replaced.{value_of};
ghost use Rattle.replace_run.specs.Small.{Small};

use replace::Sub;
use rows::refusals::{Out, Refusal};
use rows::row_check::check_rows;
use rows::{Ptr, bound_of, row_at};
use std::io;

// The library has whole rows, and so has the scratch.
fn held(library: &[u32], scratch: &[u32], nlib: u32, mark: u32) -> bool
    ensures { result ≡ true → Held library.now scratch.now mark nlib }
{
    nlib <= 65536
        && library.len() == 9 * (nlib as usize)
        && scratch.len() % 9 == 0
        && scratch.len() <= 589824
        && 9 * (mark as usize) <= scratch.len()
}

// The pointer stands below the mark, and a closed one has no shift.
fn good<'a>(library: &'a [u32], scratch: &'a [u32], nlib: u32, mark: u32, p: Ptr) -> bool
    requires { Held library.now scratch.now mark nlib }
    ensures { result ≡ true → Good (store_of library.now scratch.now mark) (ptr_of p) }
{
    p.row < nlib + mark && (p.shift == 0 || bound_of(row_at(library, scratch, p.row)) != 0)
}

// The value, if there is one, is good.
fn good_value<'a>(library: &'a [u32], scratch: &'a [u32], nlib: u32, mark: u32, x: Sub) -> bool
    requires { Held library.now scratch.now mark nlib }
    ensures { result ≡ true → ValueGood (store_of library.now scratch.now mark) (value_of x) }
{
    match x.value {
        Some(v) => good(library, scratch, nlib, mark, v),
        None => true,
    }
}

// Numbers whose sums do not wrap.
fn small(p: Ptr, c: u32, x: Sub) -> bool
    ensures { result ≡ true → Small p c x }
{
    c <= 60000 && p.shift <= 60000 && x.value.is_none_or(|v| v.shift <= 60000) && x.by <= 60000
}

// Replacement, where all that it requires holds.
fn replaced(library: &[u32], scratch: &mut [u32], nlib: u32, p: Ptr, c: u32, x: Sub) -> Out {
    if !held(library, scratch, nlib, 0) {
        return Err(Refusal::Sizes);
    }
    check_rows(library, scratch, nlib, 0, 4096).map_err(|refused| refused.refusal)?;
    if !good(library, scratch, nlib, 0, p)
        || !good_value(library, scratch, nlib, 0, x)
        || !small(p, c, x)
    {
        return Err(Refusal::Table);
    }
    replace::replace(library, scratch, nlib, 0, p, c, x)
}

// The library's rows, as answers.py prints them.
const LIBRARY: [u32; 108] = [
    1, 0, 0, 0, 0, 0, 0, 0, 1, 1, 1, 0, 0, 0, 0, 0, 0, 1, 0, 0, 0, 0, 0, 0, 0, 1, 1, 0, 1, 0, 0, 0,
    0, 0, 2, 1, 2, 0, 0, 0, 0, 0, 0, 0, 1, 3, 2, 0, 4, 0, 0, 0, 1, 2, 4, 0, 0, 3, 0, 0, 0, 1, 2, 3,
    3, 0, 3, 0, 0, 0, 2, 2, 6, 2, 0, 3, 0, 3, 0, 2, 2, 7, 2, 0, 3, 2, 0, 0, 1, 2, 8, 7, 1, 0, 0, 0,
    0, 0, 1, 5, 6, 0, 10, 0, 0, 0, 1, 3,
];

const ROWS: u32 = 12;

// Each case's name, pointer (row and shift), cutoff, value or none, move and count of free rows, as answers.py prints them.
const CASES: [(&str, (u32, u32), u32, Option<(u32, u32)>, u32, usize); 18] = [
    ("E2", (2, 0), 0, Some((1, 0)), 0, 3),
    ("E3", (3, 0), 0, Some((1, 0)), 2, 3),
    ("value up under a binder", (6, 0), 0, Some((2, 0)), 0, 3),
    ("value not moved", (2, 0), 0, Some((3, 0)), 2, 3),
    ("closed result", (5, 1), 1, Some((1, 0)), 0, 3),
    (
        "index written though it stays",
        (3, 0),
        0,
        Some((1, 0)),
        1,
        3,
    ),
    ("shared row twice", (7, 0), 0, Some((1, 0)), 3, 3),
    ("shift moved", (3, 2), 0, Some((1, 0)), 5, 3),
    ("bound at the cutoff", (3, 1), 3, Some((1, 0)), 5, 3),
    ("no value, shift moved", (5, 0), 0, None, 3, 3),
    ("no value, past the cutoff", (7, 0), 1, None, 3, 3),
    (
        "let, body at the next cutoff",
        (8, 0),
        0,
        Some((2, 4)),
        2,
        3,
    ),
    ("projection keeps its words", (9, 0), 0, Some((1, 0)), 0, 3),
    ("closed children", (11, 2), 2, Some((3, 0)), 6, 3),
    ("8 before 5", (3, 0), 0, Some((1, 0)), 5000, 0),
    ("5", (3, 0), 0, Some((1, 0)), 0, 0),
    ("5 at the second row", (7, 0), 0, Some((1, 0)), 3, 1),
    ("8 at the new row", (5, 0), 0, Some((3, 4095)), 0, 3),
];

fn at((row, shift): (u32, u32)) -> Ptr {
    Ptr { row, shift }
}

// The pointer, the rows written, and their words; or the refusal.
fn write_out(rt: &impl Print, out: Out, scratch: &[u32]) -> io::Result<()> {
    match out {
        Ok((q, mark)) => {
            print!(rt; " {} {} {mark}", q.row, q.shift)?;
            for word in scratch.iter().take(9 * (mark as usize)) {
                print!(rt; " {word}")?;
            }
            Ok(())
        }
        Err(refusal) => print!(rt; " {refusal}"),
    }
}

// A case's line.
fn run(rt: &impl Print, name: &str, p: Ptr, c: u32, x: Sub, free: usize) -> io::Result<()> {
    let mut scratch = [0; 27];
    let free_rows = &mut scratch[..9 * free.min(3)];
    print!(rt; "{name}:")?;
    let out = replaced(&LIBRARY, free_rows, ROWS, p, c, x);
    write_out(rt, out, free_rows)?;
    println!(rt)
}

fn main(rt: HostRuntime) -> io::Result<()> {
    for (name, p, c, value, by, free) in CASES {
        let x = Sub {
            value: value.map(at),
            by,
        };
        run(&rt, name, at(p), c, x, free)?;
    }
    Ok(())
}
