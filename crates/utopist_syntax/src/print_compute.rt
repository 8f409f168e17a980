#![tactic(auto, using(priz_base::proofs::Kept::kept))]

ghost use Rattle.std.specs.Prelude.{codes};
ghost use Rattle.std.specs.List.{join_by};
ghost use Rattle.priz_base.specs.Printing.{Prints};
ghost use Rattle.utopist_syntax.specs.ComputeText.{value_text, given_text, givens_text, compute_text};

use crate::pieces::print_if;
use crate::print_path::{print_path, print_paths};
use crate::{Compute, GivenPath, print_fraction};
use priz_base::NoMem;
use priz_frac::Frac;

/// Appends a compute statement, on one line.
pub fn print_compute(compute: &Compute, out: &mut Vec<u8>) -> Result<(), NoMem>
    ensures { Prints (compute_text compute.now) result out.old.items out.new.items }
{
    out.extend_from_slice(b"compute ")?;
    out.extend_from_slice(compute.name.text().as_bytes())?;
    out.extend_from_slice(b" : ( ")?;
    print_givens(compute.givens.as_slice(), out)?;
    out.extend_from_slice(b"find ")?;
    print_paths(compute.wants.as_slice(), out)?;
    out.extend_from_slice(b" );\n")?;
    Ok(())
}

fn print_givens(givens: &[GivenPath], out: &mut Vec<u8>) -> Result<(), NoMem>
    ensures { Prints (givens_text givens.now) result out.old.items out.new.items }
{
    if givens.is_empty() {
        return Ok(());
    }
    out.extend_from_slice(b"given ")?;
    print_list(givens, out)?;
    out.extend_from_slice(b"; ")?;
    Ok(())
}

fn print_list(givens: &[GivenPath], out: &mut Vec<u8>) -> Result<(), NoMem>
    ensures { Prints (join_by given_text (codes ", ") givens.now) result
        out.old.items out.new.items }
{
    let mut first = true;
    for given in givens {
        print_if(!first, b", ", out)?;
        print_given(given, out)?;
        first = false;
    }
    Ok(())
}

fn print_given(given: &GivenPath, out: &mut Vec<u8>) -> Result<(), NoMem>
    ensures { Prints (given_text given.now) result out.old.items out.new.items }
{
    print_path(&given.path, out)?;
    print_value(given.value, out)?;
    Ok(())
}

/// Appends the value of what is given, behind ` = `, or nothing where there is none.
pub fn print_value(value: Option<Frac>, out: &mut Vec<u8>) -> Result<(), NoMem>
    ensures { Prints (value_text value) result out.old.items out.new.items }
{
    match value {
        None => Ok(()),
        Some(fraction) => {
            out.extend_from_slice(b" = ")?;
            print_fraction(fraction, out)
        }
    }
}
