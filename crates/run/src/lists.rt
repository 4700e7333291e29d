// The five lists of a run: words lent once, of which the first are in use.
ghost use Rattle.std.specs.Prelude.{◌≡◌, ◌+◌, ◌≤◌, ◌<◌, take, set, length, OnOk, OnErr};
ghost use Rattle.run.specs.Words.{with_junk};

use crate::stop::Wrong;

// A word of `fill` and `spare`.
const JUNK: u32 = 0xffff_ffff;

// Lent words and the count of those in use: there is no heap.
#[derive(Debug, Drop)]
pub struct List<'a> {
    words: &'a mut [u32],
    count: usize,
}

impl<'a> List<'a> {
    pub fn new(words: &'a mut [u32]) -> List<'a>
        ensures { result.count ≡ 0 }
    {
        List { words, count: 0 }
    }

    pub fn words(&self) -> &[u32]
        ensures { result.now ≡ take self.now.count self.now.words.now }
    {
        let count = self.count.min(self.words.len());
        &self.words[..count]
    }

    pub fn words_mut(&mut self) -> &mut [u32]
        ensures { result.now ≡ take self.old.count self.old.words.now }
    {
        let count = self.count.min(self.words.len());
        &mut self.words[..count]
    }

    pub fn push(&mut self, word: u32) -> Result<(), Wrong>
        ensures counted { OnOk result (self.new.count ≡ self.old.count + 1) }
        ensures written { OnOk result (self.new.words.now ≡ set self.old.words.now self.old.count word) }
        ensures full { OnErr result (length self.old.words.now ≤ self.old.count) }
        ensures kept { OnErr result (self.new.count ≡ self.old.count) }
    {
        if self.words.len() <= self.count {
            return Err(Wrong::NoRoom);
        }
        self.words[self.count] = word;
        self.count += 1;
        Ok(())
    }

    // So many words more, none of which means anything.
    pub fn push_junk(&mut self, more: u32) -> Result<(), Wrong>
        ensures counted { OnOk result (self.new.count ≡ self.old.count + more) }
        ensures written { OnOk result (self.new.words.now ≡ with_junk self.old.words.now self.old.count more) }
        ensures full { OnErr result (length self.old.words.now < self.old.count + more) }
        ensures kept { OnErr result (self.new.count ≡ self.old.count) }
    {
        let end = self.count.saturating_add(more as usize);
        if self.words.len() < end {
            return Err(Wrong::NoRoom);
        }
        self.words[self.count..end].fill(JUNK);
        self.count = end;
        Ok(())
    }

    pub fn clear(&mut self)
        ensures { self.new.count ≡ 0 }
    {
        self.count = 0;
    }
}

#[derive(Debug, Drop)]
pub struct Lists<'a> {
    pub library: List<'a>,
    pub declarations: List<'a>,
    pub rules: List<'a>,
    pub context: List<'a>,
    pub scratch: List<'a>,
}

impl Lists<'_> {
    pub fn clear(&mut self)
        ensures library { self.new.library.count ≡ 0 }
        ensures declarations { self.new.declarations.count ≡ 0 }
        ensures rules { self.new.rules.count ≡ 0 }
        ensures context { self.new.context.count ≡ 0 }
        ensures scratch { self.new.scratch.count ≡ 0 }
    {
        self.library.clear();
        self.declarations.clear();
        self.rules.clear();
        self.context.clear();
        self.scratch.clear();
    }
}
