//! A file.
ghost use Rattle.std.specs.Prelude.{◌≡◌};
ghost use Rattle.utopist_syntax.specs.FileTree.{file_tree};
ghost use Rattle.token_forms.specs.steps.Answers.{ReadThrough};
ghost use Rattle.utopist_parser.specs.steps.ReadingFile.{file_at};

use crate::entry::repeated;
use token_forms::{ParseStop, Reader};
use utopist_lexer::Kind;
use utopist_syntax::File;

#[tactic(auto, using(token_forms::proofs::Starts::seen_plainly), unfolding(crate::specs::steps::ReadingFile::file_at, crate::specs::steps::ReadingFile::concepts_at, crate::specs::steps::ReadingFile::computes_at))]
pub fn read_file<'a>(reader: &mut Reader<'a>) -> Result<File<'a>, ParseStop>
    ensures reads { ReadThrough file_tree file_at reader.old result reader.new }
    ensures text { reader.new.text ≡ reader.old.text }
{
    let concepts = repeated(reader)?;
    let computes = repeated(reader)?;
    reader.fixed(Kind::End)?;
    Ok(File { concepts, computes })
}
