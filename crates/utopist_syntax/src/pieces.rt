#![tactic(auto, using(priz_base::proofs::Kept::kept))]

ghost use Rattle.std.specs.Fmt.{signed_decimal};
ghost use Rattle.priz_base.specs.Printing.{Prints};
ghost use Rattle.utopist_syntax.specs.Round.{if_needed};

use itoa::Buffer;
use priz_base::NoMem;

/// Appends a text.
pub fn print_text(text: &[u8], out: &mut Vec<u8>) -> Result<(), NoMem>
    ensures { Prints text.now result out.old.items out.new.items }
{
    out.extend_from_slice(text)?;
    Ok(())
}

/// Appends a text where it is needed.
pub fn print_if(needed: bool, text: &[u8], out: &mut Vec<u8>) -> Result<(), NoMem>
    ensures { Prints (if_needed needed text.now) result out.old.items out.new.items }
{
    if needed {
        out.extend_from_slice(text)?;
    }
    Ok(())
}

/// Appends a number in decimal.
pub fn print_number(n: i64, out: &mut Vec<u8>) -> Result<(), NoMem>
    ensures { Prints (signed_decimal n) result out.old.items out.new.items }
{
    out.extend_from_slice(Buffer::new().format(n).as_bytes())?;
    Ok(())
}
