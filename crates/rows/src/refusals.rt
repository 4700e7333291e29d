// Why a call is refused, by the document's numbers.
ghost use Rattle.std.specs.Prelude.{◌≡◌};
ghost use Rattle.rows.specs.Refusals.{number_of, refused_at};

use super::Ptr;
use std::error::Error;
use std::fmt;

#[derive(Clone, Copy, Debug, PartialEq, Eq)]
pub enum Refusal {
    // 1: a length, the mark, the depth or a budget
    Sizes,
    // 2: a row breaks the row rules
    Row,
    // 3: a declaration, a role, a context record or the asked term breaks its rule
    Table,
    // 4 to 8: no step is left, no row is free, no nesting level is left, a number or a row is too large
    NoStep,
    NoFreeRow,
    NoLevel,
    TooLarge,
    NoSize,
    // 9 to 11: a form has no type, a sort's level is too high, no context record is spare
    NoType,
    SortLevel,
    NoRecord,
}

impl Refusal {
    pub fn number(self) -> u32
        ensures { result ≡ number_of self }
    {
        match self {
            Refusal::Sizes => 1,
            Refusal::Row => 2,
            Refusal::Table => 3,
            Refusal::NoStep => 4,
            Refusal::NoFreeRow => 5,
            Refusal::NoLevel => 6,
            Refusal::TooLarge => 7,
            Refusal::NoSize => 8,
            Refusal::NoType => 9,
            Refusal::SortLevel => 10,
            Refusal::NoRecord => 11,
        }
    }

    pub fn at(self, place: u32) -> Refused
        ensures { result ≡ refused_at self place }
    {
        Refused {
            refusal: self,
            place,
        }
    }
}

// A refusal with its place: the row, declaration or record that it speaks of, else 0.
#[derive(Clone, Copy, Debug, PartialEq, Eq)]
pub struct Refused {
    pub refusal: Refusal,
    pub place: u32,
}

impl fmt::Display for Refusal {
    fn fmt<W: fmt::Write>(&self, f: &mut fmt::Formatter<W>) -> fmt::Result {
        write!(f, "refused {}", self.number())
    }
}

impl Error for Refusal {}

impl fmt::Display for Refused {
    fn fmt<W: fmt::Write>(&self, f: &mut fmt::Formatter<W>) -> fmt::Result {
        write!(f, "{} at {}", self.refusal, self.place)
    }
}

impl Error for Refused {}

// The answer of whatever writes rows: a pointer and the new mark, or the refusal.
pub type Out = Result<(Ptr, u32), Refusal>;
