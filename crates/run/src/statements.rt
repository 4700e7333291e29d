// The statements: a keyword, its numbers, and what they do once their line ends.
ghost use Rattle.std.specs.Prelude.{◌≡◌, None, Err};
ghost use Rattle.run.specs.Lines.{unbegun, Answers, Ends};
ghost use Rattle.run.specs.declared.stop.Wrong.TheVariants.{NoWord};

use crate::calls::call_whnf;
use crate::kept::Kept;
use crate::keyword::Keyword;
use crate::stop::{Stop, Wrong};
use rows::Ptr;
use std::mem;
use text::Token;

impl Kept<'_> {
    pub fn take_token(&mut self, token: Token) -> Result<(), Wrong>
        ensures { Answers self.old.statement.keyword token result }
    {
        match token {
            Token::Word(word) => self.statement.begin(word),
            Token::Number(number) => self.take_number(number),
            Token::TooLarge => Err(Wrong::TooLarge),
            Token::Stray => Err(Wrong::Stray),
        }
    }

    fn take_number(&mut self, number: u32) -> Result<(), Wrong>
        ensures { self.old.statement.keyword ≡ None → result ≡ Err NoWord }
    {
        let keyword = self.statement.keyword.ok_or(Wrong::NoWord)?;
        match keyword.numbers() {
            Some(wanted) => self.statement.push(number, wanted),
            None => self.take_word(keyword, number),
        }
    }

    // A word for the keyword's list.
    fn take_word(&mut self, keyword: Keyword, word: u32) -> Result<(), Wrong> {
        match keyword {
            Keyword::Lib => self.lists.library.push(word),
            Keyword::Decl => self.lists.declarations.push(word),
            Keyword::Rule => self.lists.rules.push(word),
            Keyword::Ctx => self.lists.context.push(word),
            _ => self.lists.scratch.push(word),
        }
    }

    // The next line has no keyword yet.
    pub fn finish_line(&mut self, rt: &impl Print) -> Result<(), Stop>
        ensures unbegun { self.new.statement ≡ unbegun }
        ensures ends { Ends self.old.statement result }
    {
        let statement = mem::take(&mut self.statement);
        let Some(keyword) = statement.keyword else {
            return Ok(());
        };
        if let Some(wanted) = keyword.numbers()
            && statement.count < wanted
        {
            return Err(Stop::Line(Wrong::Count(wanted)));
        }
        self.perform(rt, keyword, statement.numbers)
    }

    // What the line's statement does.
    fn perform(&mut self, rt: &impl Print, keyword: Keyword, numbers: [u32; 2]) -> Result<(), Stop>
        ensures { self.new.statement ≡ self.old.statement }
    {
        let [first, second] = numbers;
        match keyword {
            Keyword::Whnf => call_whnf(
                rt,
                self,
                Ptr {
                    row: first,
                    shift: second,
                },
            )?,
            Keyword::Again => {
                let term = self.answer.ok_or(Wrong::NoTerm)?;
                call_whnf(rt, self, term)?
            }
            Keyword::Infer => return Err(Stop::Line(Wrong::Infer)),
            Keyword::Fill => self.lists.scratch.push_junk(first)?,
            Keyword::Spare => self.lists.context.push_junk(first)?,
            Keyword::Mark => self.settings.mark = first,
            Keyword::Depth => self.settings.depth = first,
            Keyword::Steps => self.settings.steps = first,
            Keyword::Nesting => self.settings.nesting = first,
            Keyword::Reset => self.reset(),
            Keyword::Lib | Keyword::Decl | Keyword::Rule | Keyword::Ctx | Keyword::Scr => {}
        }
        Ok(())
    }
}
