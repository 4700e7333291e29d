// Why a run ends before its text does.
use std::{fmt, io};

// What is wrong with a line.
#[derive(Clone, Copy, Debug, PartialEq, Eq)]
pub enum Wrong {
    Stray,
    TooLarge,
    UnknownStatement,
    SecondWord,
    NoWord,
    // the count of numbers that is wanted
    Count(usize),
    NoRoom,
    NoTerm,
    Infer,
}

impl fmt::Display for Wrong {
    fn fmt<W: fmt::Write>(&self, f: &mut fmt::Formatter<W>) -> fmt::Result {
        f.write_str(match self {
            Wrong::Stray => "neither a word nor a number",
            Wrong::TooLarge => "a number over 4294967295",
            Wrong::UnknownStatement => "no such statement",
            Wrong::SecondWord => "a number is wanted after the first word",
            Wrong::NoWord => "a word is wanted before the first number",
            Wrong::Count(0) => "no number is wanted",
            Wrong::Count(1) => "one number is wanted",
            Wrong::Count(_) => "two numbers are wanted",
            Wrong::NoRoom => "no room",
            Wrong::NoTerm => "nothing to do again",
            Wrong::Infer => "infer is not there yet",
        })
    }
}

#[derive(Clone, Copy, Debug)]
pub enum Stop {
    Line(Wrong),
    Read(io::Error),
    Write(io::Error),
}

impl From<Wrong> for Stop {
    ghost use Rattle.std.specs.Prelude.{◌≡◌};
    ghost use Rattle.run.specs.declared.stop.Stop.TheVariants.{Line};

    ghost from_gives = { λ wrong stop. stop ≡ Line wrong };

    fn from(wrong: Wrong) -> Stop {
        Stop::Line(wrong)
    }
}

// A run writes in many places, and reads in one.
impl From<io::Error> for Stop {
    ghost use Rattle.std.specs.Prelude.{◌≡◌};
    ghost use Rattle.run.specs.declared.stop.Stop.TheVariants.{Write};

    ghost from_gives = { λ error stop. stop ≡ Write error };

    fn from(error: io::Error) -> Stop {
        Stop::Write(error)
    }
}
