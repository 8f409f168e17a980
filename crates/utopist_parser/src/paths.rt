//! Names and paths.
ghost use Rattle.token_forms.specs.steps.Answers.{ReadBy, GoesOn};
ghost use Rattle.utopist_parser.specs.steps.Lists.{names_at, path_at, paths_at};
ghost use Rattle.token_forms.specs.steps.Single.{name_at};

use crate::production::{Production, separated};
use sqlite_items::Items;
use token_forms::{ParseStop, Reader};
use utopist_lexer::Mark;
use utopist_syntax::{Name, Path};

impl<'a> Production<'a> for Name<'a> {
    ghost step = { name_at };

    fn read(reader: &mut Reader<'a>) -> Result<Name<'a>, ParseStop> {
        reader.name()
    }
}

impl<'a> Production<'a> for Path<'a> {
    ghost step = { path_at };

    #[tactic(auto, unfolding(crate::specs::steps::Lists::path_at))]
    fn read(reader: &mut Reader<'a>) -> Result<Path<'a>, ParseStop> {
        let parts = separated(reader, Mark::Dot)?;
        Ok(Path { parts })
    }
}

#[tactic(auto, unfolding(crate::specs::steps::Lists::names_at))]
pub fn read_names<'a>(reader: &mut Reader<'a>) -> Result<Items<Name<'a>>, ParseStop>
    ensures reads { ReadBy names_at reader.old result reader.new }
    ensures goes_on { GoesOn reader.old result reader.new }
{
    separated(reader, Mark::Comma)
}

#[tactic(auto, unfolding(crate::specs::steps::Lists::paths_at))]
pub fn read_paths<'a>(reader: &mut Reader<'a>) -> Result<Items<Path<'a>>, ParseStop>
    ensures reads { ReadBy paths_at reader.old result reader.new }
    ensures goes_on { GoesOn reader.old result reader.new }
{
    separated(reader, Mark::Comma)
}
