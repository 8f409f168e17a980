#![tactic(auto, using(priz_base::proofs::Kept::kept))]

ghost use Rattle.std.specs.Prelude.{codes};
ghost use Rattle.std.specs.List.{join_by};
ghost use Rattle.priz_base.specs.Printing.{Prints};
ghost use Rattle.utopist_syntax.specs.ItemText.{task_text, part_text, parts_text};

use crate::pieces::print_if;
use crate::print_path::{print_path, print_paths};
use crate::{Part, Path};
use priz_base::NoMem;

/// Appends the parts of a relation and a space, or nothing where there are none.
pub fn print_parts(parts: &[Part], out: &mut Vec<u8>) -> Result<(), NoMem>
    ensures { Prints (parts_text parts.now) result out.old.items out.new.items }
{
    if parts.is_empty() {
        return Ok(());
    }
    print_list(parts, out)?;
    out.push(b' ')?;
    Ok(())
}

fn print_list(parts: &[Part], out: &mut Vec<u8>) -> Result<(), NoMem>
    ensures { Prints (join_by part_text (codes ", ") parts.now) result out.old.items out.new.items }
{
    let mut first = true;
    for part in parts {
        print_if(!first, b", ", out)?;
        print_part(part, out)?;
        first = false;
    }
    Ok(())
}

fn print_part(part: &Part, out: &mut Vec<u8>) -> Result<(), NoMem>
    ensures { Prints (part_text part.now) result out.old.items out.new.items }
{
    match part {
        Part::Input(path) => print_path(path, out),
        Part::Subtask { inputs, outputs } => {
            out.push(b'[')?;
            print_task(inputs.as_slice(), outputs.as_slice(), out)?;
            out.push(b']')?;
            Ok(())
        }
    }
}

fn print_task(inputs: &[Path], outputs: &[Path], out: &mut Vec<u8>) -> Result<(), NoMem>
    ensures { Prints (task_text inputs.now outputs.now) result out.old.items out.new.items }
{
    print_paths(inputs, out)?;
    print_if(!inputs.is_empty(), b" ", out)?;
    out.extend_from_slice(b"-> ")?;
    print_paths(outputs, out)?;
    Ok(())
}
