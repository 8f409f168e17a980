ghost use Rattle.std.specs.Prelude.{◌≤◌, length, IfOk};
ghost use Rattle.priz_base.specs.Reading.{max_input};
ghost use Rattle.utopist_syntax.specs.Shape.{HasShape};
ghost use Rattle.utopist_syntax.specs.FileTree.{file_tree};
ghost use Rattle.file_accept.specs.steps.FormOf.{FormOf};

use crate::fault::FileFault;
use crate::unbuilt::{LeftOut, first_left_out};
use concept_unfold::is_built;
use std::alloc::Global;
use utopist_parser::parse;
use utopist_syntax::File;

/// The file that the text reads as, if its forms are built.
pub(crate) fn file_of<'a>(alloc: Global, text: &'a str) -> Result<File<'a>, FileFault>
    requires few { length text.now ≤ max_input }
    ensures form { FormOf text.entry.now result }
    ensures shape { IfOk result (λ f. HasShape (file_tree f)) }
{
    let file = parse(alloc, text)?;
    if is_built(&file) {
        return Ok(file);
    }
    match first_left_out(text, LeftOut::not_solved()) {
        Some(place) => Err(FileFault::Expected(place)),
        None => unreachable!(),
    }
}
