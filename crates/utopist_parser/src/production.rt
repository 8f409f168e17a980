//! Forms of the grammar, and lists of them with a separator.
ghost use Rattle.std.specs.Prelude.{◌≡◌, [], IfOk};
ghost use Rattle.token_forms.specs.steps.Answers.{ReadBy, GoesOn};
ghost use Rattle.token_forms.specs.steps.Lists.{next_at, separated_at};
ghost use Rattle.token_forms.specs.steps.Steps.{StepOf};

use sqlite_items::Items;
use std::alloc::{AllocError, Global};
use token_forms::{ParseStop, Reader};
use utopist_lexer::Mark;

/// What the grammar has a rule for.
pub trait Production<'a>: Drop {
    ghost step: { StepOf Self };

    fn read(reader: &mut Reader<'a>) -> Result<Self, ParseStop>
        ensures reads { ReadBy step reader.old result reader.new }
        ensures goes_on { GoesOn reader.old result reader.new };
}

/// Forms with a separator between them, of which there is one at least.
pub fn separated<'a, T: Production<'a>>(
    reader: &mut Reader<'a>,
    separator: Mark,
) -> Result<Items<T>, ParseStop>
    ensures reads { ReadBy (separated_at separator T.step) reader.old result reader.new }
    ensures goes_on { GoesOn reader.old result reader.new }
{
    let mut found = room_for_one(reader.alloc)?;
    found.push(T::read(reader)?)?;
    'forms: while reader.next_is_mark(separator) {
        found.push(read_next(reader, separator)?)?;
    }
    Ok(found)
}

// Most lists are paths of one name: an expression of many paths is not to have room for more.
fn room_for_one<T: Drop>(alloc: Global) -> Result<Items<T>, AllocError>
    ensures { IfOk result (λ found. found ≡ []) }
{
    Ok(Items::from_vec(Vec::with_capacity(alloc, 1)?))
}

fn read_next<'a, T: Production<'a>>(
    reader: &mut Reader<'a>,
    separator: Mark,
) -> Result<T, ParseStop>
    ensures reads { ReadBy (next_at separator T.step) reader.old result reader.new }
    ensures goes_on { GoesOn reader.old result reader.new }
{
    reader.mark(separator)?;
    T::read(reader)
}
