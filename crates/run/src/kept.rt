// What a run keeps from byte to byte.
ghost use Rattle.std.specs.Prelude.{◌≡◌, None};
ghost use Rattle.run.specs.Lines.{unset, Begins, Pushes};

use crate::keyword::Keyword;
use crate::lists::Lists;
use crate::stop::Wrong;
use rows::Ptr;
use text::Reader;

#[derive(Drop)]
pub struct Kept<'a> {
    pub lists: Lists<'a>,
    pub settings: Settings,
    pub reader: Reader,
    pub statement: Statement,
    // what the last call gave, if that was a term
    pub answer: Option<Ptr>,
}

impl Kept<'_> {
    // All lists empty, all numbers at their start, and no call before.
    pub fn reset(&mut self)
        ensures no_answer { self.new.answer ≡ None }
        ensures library { self.new.lists.library.count ≡ 0 }
        ensures declarations { self.new.lists.declarations.count ≡ 0 }
        ensures rules { self.new.lists.rules.count ≡ 0 }
        ensures context { self.new.lists.context.count ≡ 0 }
        ensures scratch { self.new.lists.scratch.count ≡ 0 }
        ensures settings { self.new.settings ≡ unset }
        ensures statement { self.new.statement ≡ self.old.statement }
    {
        self.lists.clear();
        self.settings = Settings::default();
        self.answer = None;
    }
}

// The numbers that a call takes beside its lists and its term.
#[derive(Clone, Copy, Debug, Default, PartialEq, Eq)]
pub struct Settings {
    pub mark: u32,
    pub depth: u32,
    pub steps: u32,
    pub nesting: u32,
}

// A line as far as it is read: its keyword, and how many numbers are behind it and which; a list's words are none of these. There is no
// heap, so the numbers stand in an array with their count.
#[derive(Clone, Copy, Debug, Default, PartialEq, Eq)]
pub struct Statement {
    pub keyword: Option<Keyword>,
    pub count: usize,
    pub numbers: [u32; 2],
}

impl Statement {
    pub fn begin(&mut self, word: u64) -> Result<(), Wrong>
        ensures { Begins self.old self.new result }
    {
        if self.keyword.is_some() {
            return Err(Wrong::SecondWord);
        }
        self.keyword = Some(Keyword::try_from(word)?);
        Ok(())
    }

    // One number more, where so many are wanted.
    pub fn push(&mut self, number: u32, wanted: usize) -> Result<(), Wrong>
        ensures { Pushes self.old number wanted self.new result }
    {
        if wanted.min(self.numbers.len()) <= self.count {
            return Err(Wrong::Count(wanted));
        }
        self.numbers[self.count] = number;
        self.count += 1;
        Ok(())
    }
}
