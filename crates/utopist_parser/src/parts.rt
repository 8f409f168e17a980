//! What a relation takes.
ghost use Rattle.std.specs.Prelude.{◌≡◌};
ghost use Rattle.token_forms.specs.steps.Answers.{ReadBy, GoesOn, StaysOrGoesOn};
ghost use Rattle.utopist_parser.specs.steps.ReadingFile.{input_at, subtask_at, part_at, some_parts_at, begins_part, parts_at};
ghost use Rattle.token_forms.specs.steps.Steps.{next, meets};

use crate::paths::read_paths;
use crate::production::{Production, separated};
use sqlite_items::Items;
use token_forms::{ParseStop, Reader};
use utopist_lexer::{Kind, Mark};
use utopist_syntax::{Part, Path};

#[tactic(auto, unfolding(crate::specs::steps::ReadingFile::parts_at, crate::specs::steps::ReadingFile::some_parts_at))]
pub fn read_parts<'a>(reader: &mut Reader<'a>) -> Result<Items<Part<'a>>, ParseStop>
    ensures reads { ReadBy parts_at reader.old result reader.new }
    ensures stays { StaysOrGoesOn reader.old result reader.new }
{
    if begins_part(reader) {
        separated(reader, Mark::Comma)
    } else {
        Ok(Items::new(reader.alloc))
    }
}

fn begins_part(reader: &Reader) -> bool
    ensures { result ≡ meets begins_part (next reader.now.symbols) }
{
    reader.next_is(Kind::Name) || reader.next_is_mark(Mark::OpenSquare)
}

impl<'a> Production<'a> for Part<'a> {
    ghost step = { part_at };

    #[tactic(auto, unfolding(crate::specs::steps::ReadingFile::part_at))]
    fn read(reader: &mut Reader<'a>) -> Result<Part<'a>, ParseStop> {
        if reader.next_is_mark(Mark::OpenSquare) {
            read_subtask(reader)
        } else {
            read_input(reader)
        }
    }
}

#[tactic(auto, unfolding(crate::specs::steps::ReadingFile::input_at))]
fn read_input<'a>(reader: &mut Reader<'a>) -> Result<Part<'a>, ParseStop>
    ensures reads { ReadBy input_at reader.old result reader.new }
    ensures goes_on { GoesOn reader.old result reader.new }
{
    let path = Path::read(reader)?;
    Ok(Part::Input(path))
}

#[tactic(auto, unfolding(crate::specs::steps::ReadingFile::subtask_at))]
fn read_subtask<'a>(reader: &mut Reader<'a>) -> Result<Part<'a>, ParseStop>
    ensures reads { ReadBy subtask_at reader.old result reader.new }
    ensures goes_on { GoesOn reader.old result reader.new }
{
    reader.mark(Mark::OpenSquare)?;
    let inputs = read_paths(reader)?;
    reader.mark(Mark::Arrow)?;
    let outputs = read_paths(reader)?;
    reader.mark(Mark::CloseSquare)?;
    Ok(Part::Subtask { inputs, outputs })
}
