#![tactic(auto, using(priz_base::proofs::Kept::kept))]

ghost use Rattle.priz_base.specs.Printing.{Prints};
ghost use Rattle.utopist_syntax.specs.PathText.{names_text, path_text, paths_text};

use crate::pieces::print_if;
use crate::{Name, Path};
use priz_base::NoMem;

/// Appends a path, its names joined by dots.
pub fn print_path(path: &Path, out: &mut Vec<u8>) -> Result<(), NoMem>
    ensures { Prints (path_text path.now) result out.old.items out.new.items }
{
    print_names(path.parts.as_slice(), b".", out)
}

/// Appends names with a text between each two.
pub fn print_names(names: &[Name], between: &[u8], out: &mut Vec<u8>) -> Result<(), NoMem>
    ensures { Prints (names_text between.now names.now) result out.old.items out.new.items }
{
    let mut first = true;
    for name in names {
        print_if(!first, between, out)?;
        out.extend_from_slice(name.text().as_bytes())?;
        first = false;
    }
    Ok(())
}

/// Appends paths with commas between them.
pub fn print_paths(paths: &[Path], out: &mut Vec<u8>) -> Result<(), NoMem>
    ensures { Prints (paths_text paths.now) result out.old.items out.new.items }
{
    let mut first = true;
    for path in paths {
        print_if(!first, b", ", out)?;
        print_path(path, out)?;
        first = false;
    }
    Ok(())
}
