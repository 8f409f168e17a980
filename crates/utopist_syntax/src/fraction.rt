#![tactic(auto, using(priz_base::proofs::Kept::kept))]

ghost use Rattle.priz_base.specs.Printing.{Prints};
ghost use Rattle.utopist_syntax.specs.FractionText.{fraction_text};

use crate::pieces::print_number;
use priz_base::NoMem;
use priz_frac::Frac;

/// Appends a fraction: its numerator, and behind `/` its denominator, if that isn't 1.
pub fn print_fraction(fraction: Frac, out: &mut Vec<u8>) -> Result<(), NoMem>
    ensures { Prints (fraction_text fraction) result out.old.items out.new.items }
{
    print_number(fraction.num(), out)?;
    if fraction.den() == 1 {
        return Ok(());
    }
    out.push(b'/')?;
    print_number(fraction.den(), out)
}
