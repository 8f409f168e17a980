//! Concepts.
ghost use Rattle.std.specs.Prelude.{map};
ghost use Rattle.utopist_lexer.specs.declared.word.Word.TheVariants.{Concept as concept_word};
ghost use Rattle.utopist_syntax.specs.FileTree.{ConceptTree, item_tree, concept_tree};
ghost use Rattle.token_forms.specs.steps.Answers.{ReadBy, ReadThrough, GoesOn, StaysOrGoesOn};
ghost use Rattle.utopist_parser.specs.steps.ReadingFile.{items_at, parents_at, concept_at};
ghost use Rattle.token_forms.specs.steps.Single.{is_word};

use crate::entry::{Entry, repeated};
use crate::paths::read_names;
use sqlite_items::Items;
use token_forms::{ParseStop, Reader};
use utopist_lexer::{Mark, Word};
use utopist_syntax::{Concept, Item, Name};

impl<'a> Entry<'a> for Concept<'a> {
    ghost Tree = { ConceptTree };

    ghost tree = { concept_tree };

    ghost begins = { is_word concept_word };

    ghost step = { concept_at };

    fn is_next(reader: &Reader<'a>) -> bool {
        reader.next_is_word(Word::Concept)
    }

    #[tactic(auto, unfolding(crate::specs::steps::ReadingFile::concept_at))]
    fn read(reader: &mut Reader<'a>) -> Result<Concept<'a>, ParseStop> {
        reader.word(Word::Concept)?;
        let name = reader.name()?;
        let parents = read_parents(reader)?;
        reader.mark(Mark::Colon)?;
        let items = read_items(reader)?;
        reader.mark(Mark::CloseRound)?;
        reader.mark(Mark::Semicolon)?;
        Ok(Concept {
            name,
            parents,
            items,
        })
    }
}

#[tactic(auto, unfolding(crate::specs::steps::ReadingFile::parents_at, crate::specs::steps::ReadingFile::some_parents_at))]
fn read_parents<'a>(reader: &mut Reader<'a>) -> Result<Items<Name<'a>>, ParseStop>
    ensures reads { ReadBy parents_at reader.old result reader.new }
    ensures stays { StaysOrGoesOn reader.old result reader.new }
{
    if !reader.next_is_word(Word::Is) {
        return Ok(Items::new(reader.alloc));
    }
    reader.word(Word::Is)?;
    read_names(reader)
}

#[tactic(auto, unfolding(crate::specs::steps::ReadingFile::items_at))]
fn read_items<'a>(reader: &mut Reader<'a>) -> Result<Items<Item<'a>>, ParseStop>
    ensures reads { ReadThrough (map item_tree) items_at reader.old result reader.new }
    ensures goes_on { GoesOn reader.old result reader.new }
{
    reader.mark(Mark::OpenRound)?;
    repeated(reader)
}
