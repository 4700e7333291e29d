// Runs the walks along spines and a term applied to a run of arguments, on a small table and on a tower of applications.
// The file stdout has what document 01 says of each case: answers.py makes it, without this program.
#![tactic(auto)]

ghost use Rattle.std.specs.Prelude.{length, ◌≤◌, ◌≡◌};
ghost use Rattle.rows.specs.Words.{Held};
ghost use Rattle.spine_run.specs.Ready.{Ready, Shows};

use rows::refusals::Out;
use rows::row_check::check_rows;
use rows::{Ptr, bound_of, ptr_bound, row_at};
use std::io;

const LIBRARY_ROWS: u32 = 7;

const MARK: u32 = 3;

const TOWER_ROWS: u32 = 2000;

// `f`, `f a`, `f a b` and `f a b c`, the inner ones shifted.
const LIBRARY: [u32; 63] = [
    // 0 constant 0
    2, 0, 0, 0, 0, 0, 0, 0, 1,
    // 1 variable 0
    0, 0, 0, 0, 0, 0, 0, 1, 1,
    // 2 variable 1
    0, 1, 0, 0, 0, 0, 0, 2, 1,
    // 3 variable 2
    0, 2, 0, 0, 0, 0, 0, 3, 1,
    // 4 row 0 applied to row 1
    3, 0, 0, 1, 0, 0, 0, 1, 2,
    // 5 row 4 shifted 1, applied to row 2
    3, 4, 1, 2, 0, 0, 0, 2, 3,
    // 6 row 5 shifted 2, applied to row 3
    3, 5, 2, 3, 0, 0, 0, 4, 4,
];

// Other heads, and two rows that are free.
const SCRATCH: [u32; 45] = [
    // 7 lambda constant 0. variable 0
    4, 0, 0, 1, 0, 0, 0, 0, 2,
    // 8 row 7 applied to row 6 shifted 1
    3, 7, 0, 6, 1, 0, 0, 5, 5,
    // 9 variable 0 shifted 4, applied to constant 0
    3, 1, 4, 0, 0, 0, 0, 5, 2,
    // free
    0, 0, 0, 0, 0, 0, 0, 0, 0,
    // free
    0, 0, 0, 0, 0, 0, 0, 0, 0,
];

// The rows' program has this too: a crate for the three lines would be no plainer.
fn write_pointer(rt: &impl Print, p: Ptr) -> io::Result<()> {
    print!(rt; " {} {}", p.row, p.shift)
}

// The rows' program has the like.
fn write_words(rt: &impl Print, words: &[u32], from: usize) -> io::Result<()> {
    for word in words.iter().skip(from) {
        print!(rt; " {word}")?;
    }
    Ok(())
}

fn write_out(rt: &impl Print, answer: Out) -> io::Result<()> {
    match answer {
        Ok((p, mark)) => print!(rt; " = done {} {} {mark}", p.row, p.shift),
        Err(refusal) => print!(rt; " = refused {}", refusal.number()),
    }
}

// Whether all rows pass and t is in scope there: only then is its spine walked.
fn ready<'a>(library: &'a [u32], scratch: &'a [u32], nlib: u32, mark: u32, t: Ptr) -> bool
    requires { Held library.now scratch.now mark nlib }
    ensures { Shows (Ready library.now scratch.now mark t) result }
{
    if check_rows(library, scratch, nlib, mark, 1).is_err() {
        return false;
    }
    if nlib + mark <= t.row {
        return false;
    }
    if 4096 < ptr_bound(library, scratch, t) {
        return false;
    }
    if bound_of(row_at(library, scratch, t.row)) == 0 {
        return t.shift == 0;
    }
    true
}

// A line `head ROW SHIFT = ROW SHIFT COUNT`.
fn show_head<'a>(
    rt: &impl Print,
    library: &'a [u32],
    scratch: &'a [u32],
    nlib: u32,
    mark: u32,
    t: Ptr,
) -> io::Result<()>
    requires { Held library.now scratch.now mark nlib }
{
    if ready(library, scratch, nlib, mark, t) {
        let r = spine::head_of(library, scratch, t);
        print!(rt; "head")?;
        write_pointer(rt, t)?;
        print!(rt; " =")?;
        write_pointer(rt, r.head)?;
        println!(rt; " {}", r.count)?;
    }
    Ok(())
}

// A line `arguments ROW SHIFT = ROW SHIFT ROW SHIFT ..`.
fn show_arguments<'a>(
    rt: &impl Print,
    library: &'a [u32],
    scratch: &'a [u32],
    nlib: u32,
    mark: u32,
    t: Ptr,
) -> io::Result<()>
    requires { Held library.now scratch.now mark nlib }
{
    if ready(library, scratch, nlib, mark, t) {
        let r = spine::head_of(library, scratch, t);
        let count = r.count;
        print!(rt; "arguments")?;
        write_pointer(rt, t)?;
        print!(rt; " =")?;
        for i in 0..count {
            write_pointer(rt, spine::argument(library, scratch, t, count, i))?;
        }
        println!(rt)?;
    }
    Ok(())
}

// A line `apply F, T, FROM TO = ANSWER : WORDS`, the words being those of the scratch from the mark on.
fn show_apply(
    rt: &impl Print,
    library: &[u32],
    scratch: &mut [u32],
    nlib: u32,
    mark: u32,
    f: Ptr,
    t: Ptr,
    from: u32,
    to: u32,
) -> io::Result<()>
    requires { Held library.now scratch.old mark nlib }
{
    let free = 9 * (mark as usize);
    if !ready(library, scratch, nlib, mark, t) {
        return Ok(());
    }
    let r = spine::head_of(library, scratch, t);
    let count = r.count;
    if nlib + mark <= f.row {
        return Ok(());
    }
    if to < from {
        return Ok(());
    }
    if count < to {
        return Ok(());
    }
    let out = spine::apply(library, scratch, nlib, mark, f, t, count, from, to);
    print!(rt; "apply")?;
    write_pointer(rt, f)?;
    write_pointer(rt, t)?;
    print!(rt; " {from} {to}")?;
    write_out(rt, out)?;
    print!(rt; " :")?;
    write_words(rt, scratch, free)?;
    println!(rt)
}

fn walk_case(rt: &impl Print, row: u32, shift: u32) -> io::Result<()> {
    let t = Ptr { row, shift };
    show_head(rt, &LIBRARY, &SCRATCH, LIBRARY_ROWS, MARK, t)?;
    show_arguments(rt, &LIBRARY, &SCRATCH, LIBRARY_ROWS, MARK, t)
}

fn apply_case(rt: &impl Print, f: Ptr, t: Ptr, from: u32, to: u32) -> io::Result<()> {
    let mut scratch = SCRATCH;
    show_apply(
        rt,
        &LIBRARY,
        &mut scratch,
        LIBRARY_ROWS,
        MARK,
        f,
        t,
        from,
        to,
    )
}

// Every run of the three arguments at t.
fn apply_runs(rt: &impl Print, f: Ptr, t: Ptr) -> io::Result<()> {
    for from in 0..=3 {
        for to in from..=3 {
            apply_case(rt, f, t, from, to)?;
        }
    }
    Ok(())
}

// Row 0 is a constant, and row k is row k - 1 applied to it: its height is k + 1.
fn build_tower(words: &mut [u32])
    requires { length words.old ≡ 18000 }
{
    words[0] = 2;
    words[8] = 1;
    for k in 1..TOWER_ROWS {
        let at = 9 * (k as usize);
        words[at] = 3;
        words[at + 1] = k - 1;
        words[at + 8] = k + 1;
    }
}

// The walk down the whole tower.
fn tower_walk(rt: &impl Print) -> io::Result<()> {
    let mut library = [0; 18000];
    let scratch = [0; 9];
    build_tower(&mut library);
    let top = Ptr {
        row: TOWER_ROWS - 1,
        shift: 0,
    };
    show_head(rt, &library, &scratch, TOWER_ROWS, 0, top)
}

// The row that is applied has the height `row + 1`.
fn tower_case(rt: &impl Print, row: u32) -> io::Result<()> {
    let mut library = [0; 18000];
    let mut scratch = [0; 27];
    build_tower(&mut library);
    let f = Ptr { row, shift: 0 };
    let t = Ptr { row: 2, shift: 0 };
    show_apply(rt, &library, &mut scratch, TOWER_ROWS, 0, f, t, 0, 2)
}

fn main(rt: HostRuntime) -> io::Result<()> {
    for (row, shift) in [
        (0, 0),
        (1, 2),
        (4, 0),
        (4, 3),
        (6, 0),
        (6, 5),
        (8, 2),
        (9, 3),
    ] {
        walk_case(&rt, row, shift)?;
    }
    let far = Ptr {
        row: 2,
        shift: 4095,
    };
    apply_runs(&rt, Ptr { row: 7, shift: 0 }, Ptr { row: 6, shift: 5 })?;
    apply_runs(&rt, Ptr { row: 1, shift: 9 }, Ptr { row: 6, shift: 0 })?;
    apply_runs(&rt, far, Ptr { row: 6, shift: 0 })?;
    tower_walk(&rt)?;
    for row in 1997..=1999 {
        tower_case(&rt, row)?;
    }
    Ok(())
}
