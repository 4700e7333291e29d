// The keywords, and what follows each of them on its line.
ghost use Rattle.std.specs.Prelude.{◌≡◌};
ghost use Rattle.run.specs.Keywords.{numbers_after};

use crate::stop::Wrong;

#[derive(Clone, Copy, Debug, PartialEq, Eq)]
pub enum Keyword {
    Lib,
    Decl,
    Rule,
    Ctx,
    Scr,
    Fill,
    Spare,
    Mark,
    Depth,
    Steps,
    Nesting,
    Whnf,
    Infer,
    Again,
    Reset,
}

// A word's letters are digits to the base 256, the first letter in front.
impl TryFrom<u64> for Keyword {
    type Error = Wrong;

    ghost use Rattle.run.specs.Keywords.{Spells};

    ghost try_from_gives = { Spells };

    fn try_from(word: u64) -> Result<Keyword, Wrong> {
        match &word.to_be_bytes() {
            b"\0\0\0\0\0lib" => Ok(Keyword::Lib),
            b"\0\0\0\0decl" => Ok(Keyword::Decl),
            b"\0\0\0\0rule" => Ok(Keyword::Rule),
            b"\0\0\0\0\0ctx" => Ok(Keyword::Ctx),
            b"\0\0\0\0\0scr" => Ok(Keyword::Scr),
            b"\0\0\0\0fill" => Ok(Keyword::Fill),
            b"\0\0\0spare" => Ok(Keyword::Spare),
            b"\0\0\0\0mark" => Ok(Keyword::Mark),
            b"\0\0\0depth" => Ok(Keyword::Depth),
            b"\0\0\0steps" => Ok(Keyword::Steps),
            b"\0nesting" => Ok(Keyword::Nesting),
            b"\0\0\0\0whnf" => Ok(Keyword::Whnf),
            b"\0\0\0infer" => Ok(Keyword::Infer),
            b"\0\0\0again" => Ok(Keyword::Again),
            b"\0\0\0reset" => Ok(Keyword::Reset),
            _ => Err(Wrong::UnknownStatement),
        }
    }
}

impl Keyword {
    // How many numbers it takes; None at a list, which takes any count of words.
    pub fn numbers(self) -> Option<usize>
        ensures { result ≡ numbers_after self }
    {
        match self {
            Keyword::Lib | Keyword::Decl | Keyword::Rule | Keyword::Ctx | Keyword::Scr => None,
            Keyword::Again | Keyword::Reset => Some(0),
            Keyword::Whnf | Keyword::Infer => Some(2),
            _ => Some(1),
        }
    }
}
