#![tactic(auto, using(priz_base::proofs::Kept::kept))]

ghost use Rattle.std.specs.Prelude.{codes};
ghost use Rattle.std.specs.List.{join_by};
ghost use Rattle.priz_base.specs.Printing.{Prints};
ghost use Rattle.utopist_syntax.specs.ItemText.{bind_text, binds_text};

use crate::Bind;
use crate::pieces::print_if;
use crate::print_path::print_path;
use priz_base::NoMem;

/// Appends the bindings of a variable in parentheses, or nothing where there are none.
pub fn print_binds(binds: &[Bind], out: &mut Vec<u8>) -> Result<(), NoMem>
    ensures { Prints (binds_text binds.now) result out.old.items out.new.items }
{
    if binds.is_empty() {
        return Ok(());
    }
    out.extend_from_slice(b" (")?;
    print_list(binds, out)?;
    out.push(b')')?;
    Ok(())
}

fn print_list(binds: &[Bind], out: &mut Vec<u8>) -> Result<(), NoMem>
    ensures { Prints (join_by bind_text (codes ", ") binds.now) result out.old.items out.new.items }
{
    let mut first = true;
    for bind in binds {
        print_if(!first, b", ", out)?;
        print_bind(bind, out)?;
        first = false;
    }
    Ok(())
}

fn print_bind(bind: &Bind, out: &mut Vec<u8>) -> Result<(), NoMem>
    ensures { Prints (bind_text bind.now) result out.old.items out.new.items }
{
    print_path(&bind.left, out)?;
    out.extend_from_slice(b" = ")?;
    print_path(&bind.right, out)?;
    Ok(())
}
