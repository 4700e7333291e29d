// The call on the lists as they stand, and what it leaves to the lines after it.
ghost use Rattle.std.specs.Prelude.{◌≡◌};

use crate::answers::write_answer;
use crate::kept::{Kept, Settings};
use crate::lists::Lists;
use call::{Answered, whnf};
use rows::Ptr;
use rows::refusals::Refused;
use std::io;
use tables::{Asked, Lent};

fn whnf_on(lists: &mut Lists, settings: Settings, term: Ptr) -> Result<Answered, Refused> {
    let lent = Lent {
        library: lists.library.words(),
        declarations: lists.declarations.words(),
        rules: lists.rules.words(),
        context: lists.context.words(),
    };
    let asked = Asked {
        depth: settings.depth,
        mark: settings.mark,
        term,
        steps: settings.steps,
        nesting: settings.nesting,
    };
    whnf(lent, lists.scratch.words_mut(), asked)
}

// The term for `again`, and the mark that moves on; after a refusal there is none.
pub fn call_whnf(rt: &impl Print, kept: &mut Kept, term: Ptr) -> io::Result<()>
    ensures { kept.new.statement ≡ kept.old.statement }
{
    let answer = whnf_on(&mut kept.lists, kept.settings, term);
    write_answer(rt, &kept.lists, answer)?;
    if let Ok(answered) = answer {
        kept.settings.mark = answered.mark;
    }
    kept.answer = answer.ok().map(|answered| answered.term);
    Ok(())
}
