//! The kind of a variable, and the bindings of a component.
ghost use Rattle.token_forms.specs.steps.Answers.{ReadBy, GoesOn, StaysOrGoesOn};
ghost use Rattle.utopist_parser.specs.steps.ReadingFile.{bind_at, binds_at, numeric_at, component_at, kind_at};

use crate::production::{Production, separated};
use sqlite_items::Items;
use token_forms::{ParseStop, Reader};
use utopist_lexer::{Mark, Word};
use utopist_syntax::{Bind, Path, VarKind};

#[tactic(auto, unfolding(crate::specs::steps::ReadingFile::kind_at))]
pub fn read_kind<'a>(reader: &mut Reader<'a>) -> Result<(VarKind<'a>, Items<Bind<'a>>), ParseStop>
    ensures reads { ReadBy kind_at reader.old result reader.new }
    ensures goes_on { GoesOn reader.old result reader.new }
{
    if reader.next_is_word(Word::Numeric) {
        read_numeric(reader)
    } else {
        read_component(reader)
    }
}

#[tactic(auto, unfolding(crate::specs::steps::ReadingFile::numeric_at))]
fn read_numeric<'a>(reader: &mut Reader<'a>) -> Result<(VarKind<'a>, Items<Bind<'a>>), ParseStop>
    ensures reads { ReadBy numeric_at reader.old result reader.new }
    ensures goes_on { GoesOn reader.old result reader.new }
{
    reader.word(Word::Numeric)?;
    Ok((VarKind::Numeric, Items::new(reader.alloc)))
}

#[tactic(auto, unfolding(crate::specs::steps::ReadingFile::component_at))]
fn read_component<'a>(reader: &mut Reader<'a>) -> Result<(VarKind<'a>, Items<Bind<'a>>), ParseStop>
    ensures reads { ReadBy component_at reader.old result reader.new }
    ensures goes_on { GoesOn reader.old result reader.new }
{
    let name = reader.name()?;
    let binds = read_binds(reader)?;
    Ok((VarKind::Of(name), binds))
}

#[tactic(auto, unfolding(crate::specs::steps::ReadingFile::binds_at, crate::specs::steps::ReadingFile::some_binds_at))]
fn read_binds<'a>(reader: &mut Reader<'a>) -> Result<Items<Bind<'a>>, ParseStop>
    ensures reads { ReadBy binds_at reader.old result reader.new }
    ensures stays { StaysOrGoesOn reader.old result reader.new }
{
    if !reader.next_is_mark(Mark::OpenRound) {
        return Ok(Items::new(reader.alloc));
    }
    reader.mark(Mark::OpenRound)?;
    let binds = separated(reader, Mark::Comma)?;
    reader.mark(Mark::CloseRound)?;
    Ok(binds)
}

impl<'a> Production<'a> for Bind<'a> {
    ghost step = { bind_at };

    #[tactic(auto, unfolding(crate::specs::steps::ReadingFile::bind_at))]
    fn read(reader: &mut Reader<'a>) -> Result<Bind<'a>, ParseStop> {
        let left = Path::read(reader)?;
        reader.mark(Mark::Equal)?;
        let right = Path::read(reader)?;
        Ok(Bind { left, right })
    }
}
