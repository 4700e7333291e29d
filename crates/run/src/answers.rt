// The lines that a call answers. All but the read-out's are put together in a buffer by `put_text` and `put_number`, whose contracts say
// which bytes.
ghost use Rattle.run.specs.Entries.{Entered};

use crate::lists::Lists;
use call::Answered;
use readout::out::{put, put_number, put_text};
use readout::read_out;
use readout::sum::sum;
use rows::Ptr;
use rows::refusals::Refused;
use std::io;

// The longest such line, `term` with five numbers of ten digits, takes 76 bytes.
const LINE_BYTES: usize = 128;

// A name and a number behind what stands in the line already.
fn put_entry(line: &mut [u8], at: usize, name: &[u8], number: u32) -> Option<usize>
    ensures { Entered line.old at name.now number line.new result }
{
    let at = put_text(line, at, name)?;
    put_number(line, at, u64::from(number))
}

// `term ROW SHIFT steps S rows R mark M`
fn put_answered(line: &mut [u8], answered: Answered) -> Option<usize> {
    let at = put_entry(line, 0, b"term ", answered.term.row)?;
    let at = put_entry(line, at, b" ", answered.term.shift)?;
    let at = put_entry(line, at, b" steps ", answered.steps)?;
    let at = put_entry(line, at, b" rows ", answered.rows)?;
    put_entry(line, at, b" mark ", answered.mark)
}

// `refused N at PLACE`
fn put_refused(line: &mut [u8], refused: Refused) -> Option<usize> {
    let at = put_entry(line, 0, b"refused ", refused.refusal.number())?;
    put_entry(line, at, b" at ", refused.place)
}

// `left A B`
fn put_left(line: &mut [u8], scratch: u32, context: u32) -> Option<usize> {
    let at = put_entry(line, 0, b"left ", scratch)?;
    put_entry(line, at, b" ", context)
}

// What stands in the line up to `end`, and the line's end. A line without room would be left out; none is.
fn write_line(rt: &impl Print, line: &mut [u8], end: Option<usize>) -> io::Result<()> {
    match end
        .and_then(|at| put(line, at, b'\n'))
        .and_then(|n| line.get(..n))
    {
        Some(bytes) => rt.write_all(bytes),
        None => Ok(()),
    }
}

// `reads TERM`, or `reads ...` where TERM takes more than 65,536 bytes
fn write_reading<'a>(
    rt: &impl Print,
    library: &'a [u32],
    scratch: &'a [u32],
    t: Ptr,
) -> io::Result<()> {
    let mut bytes = [0; 65536];
    let end = read_out(library, scratch, t, &mut bytes);
    print!(rt; "reads ")?;
    match end.and_then(|n| bytes.get(..n)) {
        Some(term) => rt.write_all(term)?,
        None => print!(rt; "...")?,
    }
    println!(rt)
}

// `term ROW SHIFT steps S rows R mark M` and the term, or `refused N at PLACE`; and `left A B`
pub fn write_answer(
    rt: &impl Print,
    lists: &Lists,
    answer: Result<Answered, Refused>,
) -> io::Result<()> {
    let library = lists.library.words();
    let scratch = lists.scratch.words();
    let mut line = [0; LINE_BYTES];
    match answer {
        Ok(answered) => {
            let end = put_answered(&mut line, answered);
            write_line(rt, &mut line, end)?;
            write_reading(rt, library, scratch, answered.term)?
        }
        Err(refused) => {
            let end = put_refused(&mut line, refused);
            write_line(rt, &mut line, end)?
        }
    }
    let end = put_left(&mut line, sum(scratch), sum(lists.context.words()));
    write_line(rt, &mut line, end)
}
