//! What stands one after another with nothing between, as items and concepts do.
ghost use Rattle.std.specs.Prelude.{◌≡◌, Bool, map};
ghost use Rattle.token_forms.specs.steps.Answers.{ReadThrough, GoesOn, StaysOrGoesOn};
ghost use Rattle.token_forms.specs.steps.Steps.{StepOf, next, meets, repeat_at};
ghost use Rattle.token_forms.specs.Symbols.{Symbol};

use sqlite_items::Items;
use token_forms::{ParseStop, Reader};

/// What its first token announces. Contracts see it as its plain tree.
pub trait Entry<'a>: Drop {
    ghost Tree: { Type 0 };

    ghost tree: { Self → Tree };

    ghost begins: { Symbol → Bool };

    ghost step: { StepOf Tree };

    fn is_next(reader: &Reader<'a>) -> bool
        ensures { result ≡ meets begins (next reader.now.symbols) };

    fn read(reader: &mut Reader<'a>) -> Result<Self, ParseStop>
        ensures reads { ReadThrough tree step reader.old result reader.new }
        ensures goes_on { GoesOn reader.old result reader.new };
}

/// All that follow one another, as long as one more is announced.
pub fn repeated<'a, T: Entry<'a>>(reader: &mut Reader<'a>) -> Result<Items<T>, ParseStop>
    ensures reads { ReadThrough (map T.tree) (repeat_at T.begins T.step) reader.old result reader.new }
    ensures stays { StaysOrGoesOn reader.old result reader.new }
{
    let mut found = Items::new(reader.alloc);
    'entries: while T::is_next(reader) {
        found.push(T::read(reader)?)?;
    }
    Ok(found)
}
