// Reads the text of a run from standard input, or from the file that its argument names, makes the calls, and writes the answers. The
// first line that is wrong is answered by one line with its number, and ends the run.
#![tactic(auto)]

use kept::{Kept, Settings, Statement};
use lists::{List, Lists};
use std::env::FillError;
use std::io::Read;
use std::rt::{Env, Files};
use std::{fs, io};
use stop::Stop;
use text::Reader;

mod answers;
mod calls;
mod kept;
mod keyword;
mod lists;
mod statements;
mod stop;

// One row more than the maximum of library and of scratch, one record more than the maximum of declarations and of context, so that
// refusal 1 can be shown; 16,384 rules.
const ROW_WORDS: usize = 589833;

const DECLARATION_WORDS: usize = 65552;

const RULE_WORDS: usize = 65536;

const CONTEXT_WORDS: usize = 20485;

// The bytes that are read at once; the longest name of a file.
const PIECE: usize = 4096;

// The reader moves on last: where something is wrong, it still has the line that is answered.
fn take_byte(rt: &impl Print, kept: &mut Kept, b: u8) -> Result<(), Stop> {
    let fed = kept.reader.feed(b);
    if let Some(token) = fed.token {
        kept.take_token(token)?;
    }
    if fed.ends {
        kept.finish_line(rt)?;
    }
    kept.reader = fed.reader;
    Ok(())
}

// A proved loop has to end, and nothing says that an input does: the turns are counted, up to a number that no run uses up. The end of
// the input ends a line that has no end of its own.
fn read_all(rt: &impl Print, kept: &mut Kept, input: &mut impl Read) -> Result<(), Stop> {
    let mut piece = [0; PIECE];
    for _ in 0..u64::MAX {
        let got = input.read(&mut piece).map_err(Stop::Read)?;
        if got == 0 {
            return take_byte(rt, kept, b'\n');
        }
        for &b in &piece[..got] {
            take_byte(rt, kept, b)?;
        }
    }
    Ok(())
}

// The words of a list, all zero.
fn no_words<const N: usize>() -> [u32; N] {
    [0; N]
}

fn run_from(rt: &(impl Print + Eprint), input: &mut impl Read) -> io::Result<()> {
    let mut library = no_words::<ROW_WORDS>();
    let mut declarations = no_words::<DECLARATION_WORDS>();
    let mut rules = no_words::<RULE_WORDS>();
    let mut context = no_words::<CONTEXT_WORDS>();
    let mut scratch = no_words::<ROW_WORDS>();
    let mut kept = Kept {
        lists: Lists {
            library: List::new(&mut library),
            declarations: List::new(&mut declarations),
            rules: List::new(&mut rules),
            context: List::new(&mut context),
            scratch: List::new(&mut scratch),
        },
        settings: Settings::default(),
        reader: Reader::default(),
        statement: Statement::default(),
        answer: None,
    };
    match read_all(rt, &mut kept, input) {
        Ok(()) => Ok(()),
        Err(Stop::Line(wrong)) => println!(rt; "line {}: {wrong}", kept.reader.line),
        Err(Stop::Read(error)) => eprintln!(rt; "read: {error}"),
        Err(Stop::Write(error)) => Err(error),
    }
}

fn run_file(rt: &(impl Print + Eprint + Files), name: &str) -> io::Result<()> {
    match fs::open(rt, name) {
        Ok(mut file) => run_from(rt, &mut file),
        Err(error) => eprintln!(rt; "{name}: {error}"),
    }
}

// The name as bytes; std's paths are UTF-8.
fn run_named(rt: &(impl Print + Eprint + Files), name: &[u8]) -> io::Result<()> {
    match str::from_utf8(name) {
        Ok(name) => run_file(rt, name),
        Err(_) => eprintln!(rt; "the file's name: it is not UTF-8"),
    }
}

fn main(rt: HostRuntime) -> io::Result<()> {
    let mut name = [0u8; PIECE];
    match rt.arg(1, &mut name) {
        Ok(n) => run_named(&rt, &name[..n]),
        Err(FillError::NotPresent) => run_from(&rt, &mut rt.reader()),
        Err(FillError::TooLong) => eprintln!(rt; "the file's name: File name too long"),
    }
}
