// Runs the row check, the row writer, pointer bounds and shifting on a small table, changed one word at a time.
// The file stdout has what document 01 says of each case: answers.py makes it, without this program.
#![tactic(auto)]

ghost use Rattle.std.specs.Prelude.{◌+◌, ◌≤◌};
ghost use Rattle.rows.specs.Writes.{Due};

use rows::kinds::Kind;
use rows::refusals::{Out, Refused};
use rows::{Ptr, Shape};
use std::io;

const LIBRARY_ROWS: u32 = 6;

const MARK: u32 = 4;

const LIBRARY: [u32; 54] = [
    1, 0, 0, 0, 0, 0, 0, 0, 1, 0, 0, 0, 0, 0, 0, 0, 1, 1, 2, 1, 0, 0, 0, 0, 0, 0, 1, 4, 0, 0, 1, 0,
    0, 0, 0, 2, 3, 1, 2, 2, 0, 0, 0, 3, 2, 8, 5, 1, 0, 0, 0, 0, 0, 1,
];

const SCRATCH: [u32; 54] = [
    5, 0, 0, 4, 1, 0, 0, 3, 3, 6, 0, 0, 4, 0, 6, 3, 5, 4, 7, 7, 1, 1, 9, 0, 0, 6, 5, 0, 4095, 0, 0,
    0, 0, 0, 4096, 1, 7, 7, 7, 7, 7, 7, 7, 7, 7, 7, 7, 7, 7, 7, 7, 7, 7, 7,
];

// What a word is changed to.
const VALUES: [u32; 7] = [0, 1, 2, 9, 256, 4096, 4294967295];

// A row with plain words alone. Nothing compares or prints it.
#[derive(Clone, Copy)]
enum Leaf {
    Variable(u32),
    Sort(u32),
    Constant(u32, u32),
    Number(u32, u32),
}

// The spine's program has this too: a crate for the three lines would be no plainer.
fn write_pointer(rt: &impl Print, p: Ptr) -> io::Result<()> {
    print!(rt; " {} {}", p.row, p.shift)
}

// The words from a place on, and the line's end. The spine's program has the like: a crate for the lines would be no plainer.
fn write_words(rt: &impl Print, words: &[u32], from: usize) -> io::Result<()> {
    for word in words.iter().skip(from) {
        print!(rt; " {word}")?;
    }
    println!(rt)
}

fn write_checked(rt: &impl Print, answer: Result<(), Refused>) -> io::Result<()> {
    match answer {
        Ok(()) => println!(rt; " = pass"),
        Err(broken) => println!(rt; " = broken {}", broken.place),
    }
}

// The answer, and then the scratch from the table's mark on.
fn write_out(rt: &impl Print, answer: Out, scratch: &[u32]) -> io::Result<()> {
    match answer {
        Ok((p, mark)) => print!(rt; " = done {} {} {mark} :", p.row, p.shift)?,
        Err(refusal) => print!(rt; " = refused {} :", refusal.number())?,
    }
    write_words(rt, scratch, 36)
}

// Past the end there is nothing to set. The tables' program has this too: a crate for the four lines would be no plainer.
fn set(words: &mut [u32], at: usize, value: u32) {
    if at < words.len() {
        words[at] = value;
    }
}

// The row check with one word of the library changed.
fn check_library(rt: &impl Print, at: usize, value: u32) -> io::Result<()> {
    let mut library = LIBRARY;
    set(&mut library, at, value);
    print!(rt; "library {at} {value}")?;
    let checked = rows::row_check::check_rows(&library, &SCRATCH, LIBRARY_ROWS, MARK, 2);
    write_checked(rt, checked)
}

// The same with a word of the scratch.
fn check_scratch(rt: &impl Print, at: usize, value: u32) -> io::Result<()> {
    let mut scratch = SCRATCH;
    set(&mut scratch, at, value);
    print!(rt; "scratch {at} {value}")?;
    let checked = rows::row_check::check_rows(&LIBRARY, &scratch, LIBRARY_ROWS, MARK, 2);
    write_checked(rt, checked)
}

// A row with children, which stand below the mark. The mark's clause, here and below, is a constant of the table.
fn write_made(rt: &impl Print, mark: u32, w: Shape) -> io::Result<()>
    requires mark_bound { mark ≤ 6 }
    requires due { Due (6 + mark) w }
{
    let mut scratch = SCRATCH;
    let out = rows::writer::make(&LIBRARY, &mut scratch, LIBRARY_ROWS, mark, w);
    write_out(rt, out, &scratch)
}

// An application, lambda or pi where the mark is `mark`: of the nine kinds, the three with two children stand together.
fn make_two(rt: &impl Print, kind: Kind, mark: u32, a: Ptr, b: Ptr) -> io::Result<()> {
    let code = u32::from(kind);
    if code < 3 {
        return Ok(());
    }
    if 5 < code {
        return Ok(());
    }
    if 6 < mark {
        return Ok(());
    }
    if 6 + mark <= a.row {
        return Ok(());
    }
    if 6 + mark <= b.row {
        return Ok(());
    }
    print!(rt; "make {code} {mark}")?;
    write_pointer(rt, a)?;
    write_pointer(rt, b)?;
    let w = Shape {
        kind: code,
        first: a,
        second: b,
        third: Ptr { row: 0, shift: 0 },
    };
    write_made(rt, mark, w)
}

// A let.
fn make_let(rt: &impl Print, mark: u32, a: Ptr, b: Ptr, c: Ptr) -> io::Result<()> {
    if 6 < mark {
        return Ok(());
    }
    if 6 + mark <= a.row {
        return Ok(());
    }
    if 6 + mark <= b.row {
        return Ok(());
    }
    if 6 + mark <= c.row {
        return Ok(());
    }
    let code = u32::from(Kind::Let);
    print!(rt; "make {code} {mark}")?;
    write_pointer(rt, a)?;
    write_pointer(rt, b)?;
    write_pointer(rt, c)?;
    let w = Shape {
        kind: code,
        first: a,
        second: b,
        third: c,
    };
    write_made(rt, mark, w)
}

fn make_cases(rt: &impl Print, mark: u32) -> io::Result<()> {
    let none = Ptr { row: 0, shift: 0 };
    let open = Ptr { row: 4, shift: 2 };
    let top = Ptr { row: 9, shift: 0 };
    let over = Ptr { row: 9, shift: 1 };
    let far = Ptr {
        row: 1,
        shift: 4294967295,
    };
    for (kind, a, b) in [
        (Kind::Application, none, open),
        (Kind::Application, top, open),
        (Kind::Application, open, over),
        (Kind::Application, far, open),
        (Kind::Lambda, open, over),
        (Kind::Pi, over, open),
    ] {
        make_two(rt, kind, mark, a, b)?;
    }
    for (a, b, c) in [(none, open, over), (over, none, none), (none, far, open)] {
        make_let(rt, mark, a, b, c)?;
    }
    Ok(())
}

// A line's name for the row, and the row written.
fn make_leaf(rt: &impl Print, mark: u32, leaf: Leaf, scratch: &mut [u32; 54]) -> io::Result<Out>
    requires { mark ≤ 6 }
{
    let nlib = LIBRARY_ROWS;
    match leaf {
        Leaf::Variable(index) => {
            print!(rt; "variable {index}")?;
            Ok(rows::writer::make_var(&LIBRARY, scratch, nlib, mark, index))
        }
        Leaf::Sort(level) => {
            print!(rt; "sort {level}")?;
            Ok(rows::writer::make_sort(&LIBRARY, scratch, nlib, mark, level))
        }
        Leaf::Constant(declaration, levels) => {
            print!(rt; "constant {declaration} {levels}")?;
            Ok(rows::writer::make_const(&LIBRARY, scratch, nlib, mark, declaration, levels))
        }
        Leaf::Number(low, high) => {
            print!(rt; "number {low} {high}")?;
            Ok(rows::writer::make_number(&LIBRARY, scratch, nlib, mark, low, high))
        }
    }
}

fn leaf_cases(rt: &impl Print, mark: u32) -> io::Result<()>
    requires { mark ≤ 6 }
{
    for leaf in [
        Leaf::Variable(4095),
        Leaf::Variable(4096),
        Leaf::Sort(255),
        Leaf::Sort(256),
        Leaf::Constant(1, 3),
        Leaf::Number(4294967295, 7),
    ] {
        let mut scratch = SCRATCH;
        let out = make_leaf(rt, mark, leaf, &mut scratch)?;
        write_out(rt, out, &scratch)?;
    }
    Ok(())
}

// A pointer's bound, and the pointer shifted up by k.
fn pointer_case(rt: &impl Print, row: u32, shift: u32, k: u32) -> io::Result<()> {
    if 12 <= row {
        return Ok(());
    }
    let p = Ptr { row, shift };
    print!(rt;
        "pointer {row} {shift} {k} = {}",
        rows::ptr_bound(&LIBRARY, &SCRATCH, p)
    )?;
    if 65536 < k {
        return Ok(());
    }
    if 65536 < shift {
        return println!(rt);
    }
    write_pointer(rt, rows::shift_up(&LIBRARY, &SCRATCH, p, k))?;
    println!(rt)
}

fn check_values(rt: &impl Print, at: usize) -> io::Result<()> {
    for value in VALUES {
        check_library(rt, at, value)?;
    }
    for value in VALUES {
        check_scratch(rt, at, value)?;
    }
    Ok(())
}

fn main(rt: HostRuntime) -> io::Result<()> {
    for at in 0..54 {
        check_values(&rt, at)?;
    }
    for mark in [4, 6] {
        make_cases(&rt, mark)?;
    }
    leaf_cases(&rt, 5)?;
    leaf_cases(&rt, 6)?;
    for (row, shift, k) in [
        (0, 0, 5),
        (0, 3, 5),
        (4, 0, 5),
        (4, 3, 65536),
        (7, 4294967295, 0),
        (11, 1, 1),
    ] {
        pointer_case(&rt, row, shift, k)?;
    }
    Ok(())
}
