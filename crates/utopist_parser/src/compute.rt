//! Compute statements.
ghost use Rattle.std.specs.Prelude.{◌≡◌, ◌<◌, length, OnOk};
ghost use Rattle.utopist_lexer.specs.declared.word.Word.TheVariants.{Compute as compute_word};
ghost use Rattle.utopist_syntax.specs.declared.compute.Compute.{Compute as ComputeTree};
ghost use Rattle.utopist_parser.specs.steps.ReadingFile.{compute_at};
ghost use Rattle.token_forms.specs.steps.Single.{is_word};

use crate::entry::Entry;
use crate::given::read_givens;
use crate::paths::read_paths;
use token_forms::{ParseStop, Reader};
use utopist_lexer::{Mark, Word};
use utopist_syntax::Compute;

impl<'a> Entry<'a> for Compute<'a> {
    ghost Tree = { ComputeTree };

    ghost tree = { λ c. c };

    ghost begins = { is_word compute_word };

    ghost step = { compute_at };

    fn is_next(reader: &Reader<'a>) -> bool {
        reader.next_is_word(Word::Compute)
    }

    #[tactic(auto, unfolding(crate::specs::steps::ReadingFile::compute_at))]
    fn read(reader: &mut Reader<'a>) -> Result<Compute<'a>, ParseStop> {
        reader.word(Word::Compute)?;
        let name = reader.name()?;
        reader.mark(Mark::Colon)?;
        reader.mark(Mark::OpenRound)?;
        let givens = read_givens(reader)?;
        reader.word(Word::Find)?;
        let wants = read_paths(reader)?;
        reader.mark(Mark::CloseRound)?;
        reader.mark(Mark::Semicolon)?;
        Ok(Compute {
            name,
            givens,
            wants,
        })
    }
}
