#![tactic(auto, using(priz_base::proofs::Kept::kept))]

ghost use Rattle.std.specs.Prelude.{◌++◌, codes};
ghost use Rattle.priz_base.specs.Printing.{Prints};
ghost use Rattle.utopist_syntax.specs.View.{tree_of, trees_of};
ghost use Rattle.utopist_syntax.specs.ExprText.{text_at, args_text, call_text, expr_text};

use crate::pieces::{print_if, print_number};
use crate::position::Position;
use crate::print_path::print_path;
use crate::words::{comparison, loop_word, operator, print_sub};
use crate::{Expr, Name};
use priz_base::NoMem;

/// Appends an expression that stands alone.
pub fn print_expr(expr: &Expr, out: &mut Vec<u8>) -> Result<(), NoMem>
    ensures { Prints (expr_text (tree_of expr.now)) result out.old.items out.new.items }
{
    print_at(Position::Alone, expr, out)
}

#[cycle(expr)]
fn print_at(position: Position, expr: &Expr, out: &mut Vec<u8>) -> Result<(), NoMem>
    ensures { Prints (text_at position (tree_of expr.now)) result out.old.items out.new.items }
{
    match expr {
        Expr::Num(n) => print_number(*n, out),
        Expr::Path(path) => print_path(path, out),
        Expr::Neg(inner) => print_part(b"-", Position::Negated, inner.get(), out),
        Expr::Op { op, left, right } => {
            let round = position.is_round_for(*op);
            print_if(round, b"(", out)?;
            print_at(Position::LeftOf(*op), left.get(), out)?;
            print_part(operator(*op), Position::RightOf(*op), right.get(), out)?;
            print_if(round, b")", out)?;
            Ok(())
        }
        Expr::If {
            cmp,
            left,
            right,
            yes,
            no,
        } => {
            let round = position.is_round_for_choice();
            print_if(round, b"(", out)?;
            print_part(b"if ", Position::Compared, left.get(), out)?;
            print_part(comparison(*cmp), Position::Compared, right.get(), out)?;
            print_part(b" then ", Position::Alone, yes.get(), out)?;
            print_part(b" else ", Position::Alone, no.get(), out)?;
            print_if(round, b")", out)?;
            Ok(())
        }
        Expr::Loop {
            kind,
            name,
            first,
            second,
            each,
        } => {
            print_head(loop_word(*kind), name, out)?;
            print_part(b", ", Position::Alone, first.get(), out)?;
            print_part(b", ", Position::Alone, second.get(), out)?;
            print_part(b", ", Position::Alone, each.get(), out)?;
            out.push(b')')?;
            Ok(())
        }
        Expr::Call {
            k,
            out: output,
            place: _,
            args,
        } => print_call(*k, *output, args.as_slice(), out),
    }
}

// A part of an expression, and what stands before it.
#[cycle(expr)]
fn print_part(
    before: &[u8],
    position: Position,
    part: &Expr,
    out: &mut Vec<u8>,
) -> Result<(), NoMem>
    ensures { Prints (before.now ++ text_at position (tree_of part.now)) result
        out.old.items out.new.items }
{
    out.extend_from_slice(before)?;
    print_at(position, part, out)
}

#[cycle(expr)]
fn print_call(k: i64, output: i64, args: &[Expr], out: &mut Vec<u8>) -> Result<(), NoMem>
    ensures { Prints (call_text k output (args_text (trees_of args.now))) result
        out.old.items out.new.items }
{
    print_sub(k, output, out)?;
    out.push(b'(')?;
    print_args(args, out)?;
    out.push(b')')?;
    Ok(())
}

#[cycle(expr)]
fn print_args(args: &[Expr], out: &mut Vec<u8>) -> Result<(), NoMem>
    ensures { Prints (args_text (trees_of args.now)) result out.old.items out.new.items }
{
    let mut first = true;
    for arg in args {
        print_if(!first, b", ", out)?;
        print_at(Position::Alone, arg, out)?;
        first = false;
    }
    Ok(())
}

// The word of a loop, and its name.
fn print_head(word: &[u8], name: &Name, out: &mut Vec<u8>) -> Result<(), NoMem>
    ensures { Prints (word.now ++ (codes "(" ++ name.now.text)) result out.old.items out.new.items }
{
    out.extend_from_slice(word)?;
    out.push(b'(')?;
    out.extend_from_slice(name.text().as_bytes())?;
    Ok(())
}
