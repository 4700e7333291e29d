// Runs acceptance on a small table, changed one word, one length or one number at a time, and on tables at their maxima.
// The file stdout has what document 01 and the format say of each case: answers.py makes it, without this program.
#![tactic(auto)]

use rows::Ptr;
use rows::refusals::Refused;
use std::{fmt, io};
use tables::accept::accept;
use tables::{Asked, Lent};

// The list that a word is changed in.
#[derive(Clone, Copy, Debug, PartialEq, Eq)]
enum List {
    Library = 0,
    Scratch = 1,
    Declarations = 2,
    Rules = 3,
    Context = 4,
}

impl fmt::Display for List {
    fn fmt<W: fmt::Write>(&self, f: &mut fmt::Formatter<W>) -> fmt::Result {
        write!(f, "{}", *self as u32)
    }
}

// Words from their letters: '0' is 0, '1' is 1, and so on through the alphabet.
fn lay(words: &mut [u32], text: &[u8]) {
    for (word, letter) in words.iter_mut().zip(text) {
        *word = u32::from(letter.saturating_sub(b'0'));
    }
}

// A small table, all right, and what is asked of it. Nothing compares or prints it.
#[derive(Clone, Copy)]
struct Table {
    library: [u32; 36],
    scratch: [u32; 27],
    declarations: [u32; 96],
    rules: [u32; 280],
    context: [u32; 15],
}

const ASKED: Asked = Asked {
    depth: 2,
    mark: 2,
    term: Ptr { row: 5, shift: 0 },
    steps: 7,
    nesting: 3,
};

impl Table {
    fn new() -> Table {
        let mut table = Table {
            library: [0; 36],
            scratch: [0; 27],
            declarations: [0; 96],
            rules: [9; 280],
            context: [0; 15],
        };
        // sort 0; variable 0; lambda sort 0. variable 0; constant 1
        lay(
            &mut table.library,
            b"100000001\
              000000011\
              400100002\
              210000001",
        );
        // variable 1; row 4 applied to row 1 shifted 1; a row past the mark
        lay(
            &mut table.scratch,
            b"010000021\
              340110022\
              777777777",
        );
        // Nat, an axiom; zero and succ, constructors; a recursor with two rules; a structure; add, a definition with 16 levels
        lay(
            &mut table.declarations,
            b"0000000100000000\
              1000000200000000\
              1000000321000000\
              2100000001200120\
              3000000012000000\
              0@00120900000000",
        );
        // 68 rules for zero between two that no recursor names
        for rule in table.rules[4..276].chunks_exact_mut(4) {
            lay(rule, b"1030");
        }
        // a type; a type and a value; a record past the depth
        lay(
            &mut table.context,
            b"00000\
              10101\
              77777",
        );
        table
    }

    fn list(&mut self, list: List) -> &mut [u32] {
        match list {
            List::Library => &mut self.library,
            List::Scratch => &mut self.scratch,
            List::Declarations => &mut self.declarations,
            List::Rules => &mut self.rules,
            List::Context => &mut self.context,
        }
    }

    fn lent(&self) -> Lent<'_> {
        Lent {
            library: &self.library,
            declarations: &self.declarations,
            rules: &self.rules,
            context: &self.context,
        }
    }
}

// Past the end there is nothing to set. The rows' program has this too: a crate for the four lines would be no plainer.
fn set(words: &mut [u32], at: usize, value: u32) {
    if at < words.len() {
        words[at] = value;
    }
}

fn write_verdict(rt: &impl Print, verdict: Result<(), Refused>) -> io::Result<()> {
    match verdict {
        Ok(()) => println!(rt; " = accepted"),
        Err(r) => println!(rt; " = refused {} {}", r.refusal.number(), r.place),
    }
}

// One word of one list is another.
fn word_case(rt: &impl Print, list: List, at: usize, value: u32) -> io::Result<()> {
    let mut table = Table::new();
    set(table.list(list), at, value);
    print!(rt; "word {list} {at} {value}")?;
    write_verdict(rt, accept(table.lent(), &table.scratch, ASKED))
}

fn words(rt: &impl Print) -> io::Result<()> {
    for (list, from, to) in [
        (List::Declarations, 0, 96),
        (List::Rules, 0, 12),
        (List::Context, 0, 15),
        (List::Library, 9, 18),
        (List::Scratch, 9, 18),
        (List::Scratch, 20, 21),
    ] {
        for at in from..to {
            for value in [0, 1, 2, 3, 4, 6, 15, 16, 17, 64, 65, u32::MAX] {
                word_case(rt, list, at, value)?;
            }
        }
    }
    Ok(())
}

// Two words of the declarations are others.
fn pairs(rt: &impl Print) -> io::Result<()> {
    for (at, value, other, second) in [
        // 64 rules and 65; the last rule and one past; a sum of 2^32
        (61, 1, 62, 64),
        (61, 1, 62, 65),
        (61, 5, 62, 64),
        (61, 6, 62, 64),
        (61, 7, 62, 64),
        (61, 70, 62, 0),
        (61, 71, 62, 0),
        (61, u32::MAX, 62, 1),
        // a role held twice, a K flag below it and above it
        (23, 1, 60, 0),
        (23, 1, 60, 1),
        (87, 3, 60, 1),
        (87, 3, 39, 0),
        (39, 0, 87, 0),
        // a value and its flag
        (4, 1, 5, 2),
        (4, 1, 5, 1),
        (4, 1, 6, 1),
        (84, 0, 85, 0),
        (84, 0, 86, 1),
    ] {
        let mut table = Table::new();
        set(&mut table.declarations, at, value);
        set(&mut table.declarations, other, second);
        print!(rt; "pair {at} {value} {other} {second}")?;
        write_verdict(rt, accept(table.lent(), &table.scratch, ASKED))?;
    }
    Ok(())
}

// The numbers of the call are others.
fn numbers(rt: &impl Print) -> io::Result<()> {
    for (mark, depth, row, shift, steps, nesting) in [
        (0, 0, 2, 0, 0, 0),
        (0, 2, 5, 0, 7, 3),
        (1, 2, 5, 0, 7, 3),
        (3, 2, 5, 0, 7, 3),
        (4, 2, 5, 0, 7, 3),
        (u32::MAX, 2, 5, 0, 7, 3),
        (2, 0, 5, 0, 7, 3),
        (2, 1, 5, 0, 7, 3),
        (2, 3, 5, 0, 7, 3),
        (2, 4, 5, 0, 7, 3),
        (2, u32::MAX, 5, 0, 7, 3),
        (2, 2, 2, 0, 1000000, 500),
        (2, 2, 2, 0, 1000001, 500),
        (2, 2, 2, 0, 1000000, 501),
        (2, 2, 2, 1, 7, 3),
        (2, 2, 1, 1, 7, 3),
        (2, 2, 1, 2, 7, 3),
        (2, 2, 1, u32::MAX, 7, 3),
        (2, 2, 6, 0, 7, 3),
    ] {
        let table = Table::new();
        let term = Ptr { row, shift };
        let asked = Asked {
            depth,
            mark,
            term,
            steps,
            nesting,
        };
        print!(rt; "numbers {mark} {depth} {row} {shift} {steps} {nesting}")?;
        write_verdict(rt, accept(table.lent(), &table.scratch, asked))?;
    }
    Ok(())
}

// The first words of a list alone.
fn first(words: &[u32], n: usize) -> &[u32] {
    &words[..n.min(words.len())]
}

// The lists are cut.
fn lengths(rt: &impl Print) -> io::Result<()> {
    for (library, declarations, rules, context, scratch) in [
        (36, 96, 280, 15, 27),
        (35, 96, 280, 15, 27),
        (27, 96, 280, 15, 27),
        (36, 95, 280, 15, 27),
        (36, 80, 280, 15, 27),
        (36, 16, 280, 15, 27),
        (36, 0, 280, 15, 27),
        (36, 96, 279, 15, 27),
        (36, 96, 8, 15, 27),
        (36, 96, 12, 15, 27),
        (36, 96, 280, 14, 27),
        (36, 96, 280, 10, 27),
        (36, 96, 280, 5, 27),
        (36, 96, 280, 15, 26),
        (36, 96, 280, 15, 18),
        (36, 96, 280, 15, 9),
    ] {
        let table = Table::new();
        print!(rt; "lengths {library} {declarations} {rules} {context} {scratch}")?;
        let lent = Lent {
            library: first(&table.library, library),
            declarations: first(&table.declarations, declarations),
            rules: first(&table.rules, rules),
            context: first(&table.context, context),
        };
        write_verdict(rt, accept(lent, first(&table.scratch, scratch), ASKED))?;
    }
    Ok(())
}

fn zeros<const N: usize>() -> [u32; N] {
    [0; N]
}

// Rows that are sort 0, all of them: kind 1, height 1.
fn sorts(words: &mut [u32]) {
    for (i, word) in words.iter_mut().enumerate() {
        *word = u32::from(i % 9 == 0 || i % 9 == 8);
    }
}

// Lists of this many words, all right, at their maxima or one record past.
fn maxima(rt: &impl Print) -> io::Result<()> {
    let mut words = zeros::<1048580>();
    sorts(&mut words);
    let zeros = zeros::<65552>();
    for (rows, decls, rules, records, used, mark, depth) in [
        (589824, 65536, 1048576, 20480, 589824, 65536, 4096),
        (589833, 65536, 1048576, 20480, 589824, 65536, 4096),
        (589824, 65552, 1048576, 20480, 589824, 65536, 4096),
        (589824, 65536, 1048580, 20480, 589824, 65536, 4096),
        (589824, 65536, 1048576, 20485, 589824, 65536, 4096),
        (589824, 65536, 1048576, 20480, 589833, 65536, 4096),
        (589824, 65536, 1048576, 20480, 589824, 65537, 4096),
        (589824, 65536, 1048576, 20480, 589824, 65536, 4097),
        (9, 0, 0, 0, 0, 0, 0),
        (0, 0, 0, 0, 9, 1, 0),
        (0, 16, 0, 0, 9, 1, 0),
        (0, 0, 0, 5, 9, 1, 1),
        (0, 0, 0, 0, 0, 0, 0),
    ] {
        print!(rt; "large {rows} {decls} {rules} {records} {used} {mark} {depth}")?;
        let lent = Lent {
            library: first(&words, rows),
            declarations: first(&zeros, decls),
            rules: first(&words, rules),
            context: first(&zeros, records),
        };
        let asked = Asked {
            depth,
            mark,
            term: Ptr { row: 0, shift: 0 },
            steps: 1000000,
            nesting: 500,
        };
        write_verdict(rt, accept(lent, first(&words, used), asked))?;
    }
    Ok(())
}

fn main(rt: HostRuntime) -> io::Result<()> {
    words(&rt)?;
    pairs(&rt)?;
    numbers(&rt)?;
    lengths(&rt)?;
    maxima(&rt)
}
