//! From a text to its tree.
ghost use Rattle.std.specs.Prelude.{◌≡◌, ◌≤◌, length, IfOk};
ghost use Rattle.priz_base.specs.Reading.{max_input};
ghost use Rattle.utopist_syntax.specs.Shape.{HasShape};
ghost use Rattle.utopist_syntax.specs.FileTree.{file_tree};
ghost use Rattle.utopist_parser.specs.steps.Answers.{fault_by};
ghost use Rattle.utopist_parser.specs.Forms.{ParseOf};
ghost use Rattle.utopist_parser.specs.Slices.{AllSlices};

use crate::file::read_file;
use priz_base::Place;
use std::alloc::Global;
use token_forms::{ParseStop, Reader, Why};
use utopist_lexer::LexFault;
use utopist_syntax::File;

/// Why a text has no tree.
#[derive(Clone, Copy, Debug, PartialEq, Eq)]
pub enum ParseFault {
    /// No token stands there.
    Lex(LexFault),
    /// This token cannot stand here.
    Expected(Place),
    /// With this token an expression is nested more than 64 deep.
    TooDeep(Place),
    NoMem,
}

/// The tree of a file, whose names are slices of the text, in time linear in the text. What recurses does so at most 64 deep.
pub fn parse<'a>(alloc: Global, text: &'a str) -> Result<File<'a>, ParseFault>
    requires { length text.now ≤ max_input }
    ensures tree { ParseOf text.entry.now result }
    ensures shape { IfOk result (λ f. HasShape (file_tree f)) }
    ensures slices { IfOk result (λ f. AllSlices text.entry.now (file_tree f)) }
{
    let mut reader = Reader::new(alloc, text);
    match read_file(&mut reader) {
        Ok(file) => Ok(file),
        Err(ParseStop::Wrong(why)) => match reader.place() {
            Some(Ok(place)) => Err(fault_by(why, place)),
            Some(Err(fault)) => Err(ParseFault::Lex(fault)),
            None => unreachable!(),
        },
        Err(ParseStop::NoMem) => Err(ParseFault::NoMem),
    }
}

// What is wrong with the token at this place.
fn fault_by(why: Why, place: Place) -> ParseFault
    ensures { result ≡ fault_by why place }
{
    match why {
        Why::Unexpected => ParseFault::Expected(place),
        Why::TooDeep => ParseFault::TooDeep(place),
    }
}
