#![tactic(auto, using(priz_base::proofs::Kept::kept))]

ghost use Rattle.std.specs.Prelude.{◌≡◌};
ghost use Rattle.priz_base.specs.Printing.{Prints};
ghost use Rattle.utopist_syntax.specs.ExprText.{op_text, cmp_text, loop_text, out_text, sub_spelling};

use crate::pieces::print_number;
use body_lang::{Cmp, LoopKind, Op};
use priz_base::NoMem;

/// An operator, with its spaces.
pub fn operator(op: Op) -> &'static [u8]
    ensures { result.now ≡ op_text op }
{
    match op {
        Op::Add => b" + ",
        Op::Sub => b" - ",
        Op::Mul => b" * ",
        Op::Div => b" / ",
    }
}

/// A comparison, with its spaces.
pub fn comparison(cmp: Cmp) -> &'static [u8]
    ensures { result.now ≡ cmp_text cmp }
{
    match cmp {
        Cmp::Less => b" < ",
        Cmp::AtMost => b" <= ",
        Cmp::Same => b" = ",
    }
}

/// The word of a loop.
pub fn loop_word(kind: LoopKind) -> &'static [u8]
    ensures { result.now ≡ loop_text kind }
{
    match kind {
        LoopKind::Sum => b"sum",
        LoopKind::Prod => b"prod",
        LoopKind::Iter => b"iter",
    }
}

/// Appends the number of a subtask, and which of its outputs is asked for.
pub fn print_sub(k: i64, output: i64, out: &mut Vec<u8>) -> Result<(), NoMem>
    ensures { Prints (sub_spelling k output) result out.old.items out.new.items }
{
    out.push(b'$')?;
    print_number(k, out)?;
    print_output(output, out)?;
    Ok(())
}

// Which output is asked for, where it isn't the first.
fn print_output(output: i64, out: &mut Vec<u8>) -> Result<(), NoMem>
    ensures { Prints (out_text output) result out.old.items out.new.items }
{
    if output == 1 {
        return Ok(());
    }
    out.push(b'.')?;
    print_number(output, out)?;
    Ok(())
}
