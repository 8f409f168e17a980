#![tactic(auto, using(priz_base::proofs::Kept::kept))]

ghost use Rattle.std.specs.Prelude.{[], ◌++◌, suc, pos, slice_index_or, codes};
ghost use Rattle.priz_base.specs.Printing.{Prints};
ghost use Rattle.body_lang.specs.View.{body_tree, body_trees};
ghost use Rattle.utopist_syntax.specs.declared.position.Position.TheVariants.{Alone};
ghost use Rattle.utopist_syntax.specs.ExprText.{sub_spelling};
ghost use Rattle.problem_text.specs.BodyText.{local_text, loop_head_text, body_at, arguments_at};
ghost use Rattle.problem_text.specs.steps.Scopes.{HasVars, names_of_inputs};

use crate::scope::{Scope, one_more};
use crate::variables::{print_count, print_name};
use body_lang::{Body, LoopKind};
use priz_base::NoMem;
use sqlite_items::at;
use utopist_syntax::{
    Position, comparison, loop_word, operator, print_fraction, print_if, print_sub,
};

/// Appends a body, or a part of it, at its position.
#[cycle(body)]
pub(crate) fn print_at(
    scope: &Scope,
    position: Position,
    body: &Body,
    out: &mut Vec<u8>,
) -> Result<(), NoMem>
    requires { HasVars scope.now }
    ensures { Prints (body_at (names_of_inputs scope.now) scope.now.rounds position
        (body_tree body.now)) result out.old.items out.new.items }
{
    match body {
        Body::Num(x) => print_fraction(*x, out),
        Body::Input(i) => print_input(scope, *i, out),
        Body::Local(j) => print_local(u64::from(*j), out),
        Body::Neg(inner) => print_part(b"-", scope, Position::Negated, inner.get(), out),
        Body::Op { op, left, right } => {
            let round = position.is_round_for(*op);
            print_if(round, b"(", out)?;
            print_at(scope, Position::LeftOf(*op), left.get(), out)?;
            print_part(
                operator(*op),
                scope,
                Position::RightOf(*op),
                right.get(),
                out,
            )?;
            print_if(round, b")", out)?;
            Ok(())
        }
        Body::If {
            cmp,
            left,
            right,
            yes,
            no,
        } => {
            let round = position.is_round_for_choice();
            print_if(round, b"(", out)?;
            print_part(b"if ", scope, Position::Compared, left.get(), out)?;
            print_part(
                comparison(*cmp),
                scope,
                Position::Compared,
                right.get(),
                out,
            )?;
            print_part(b" then ", scope, Position::Alone, yes.get(), out)?;
            print_part(b" else ", scope, Position::Alone, no.get(), out)?;
            print_if(round, b")", out)?;
            Ok(())
        }
        Body::Sum {
            first,
            second,
            each,
        } => {
            print_head(LoopKind::Sum, scope.rounds, out)?;
            print_part(b", ", scope, Position::Alone, first.get(), out)?;
            print_part(b", ", scope, Position::Alone, second.get(), out)?;
            print_round(scope, each.get(), out)?;
            Ok(())
        }
        Body::Prod {
            first,
            second,
            each,
        } => {
            print_head(LoopKind::Prod, scope.rounds, out)?;
            print_part(b", ", scope, Position::Alone, first.get(), out)?;
            print_part(b", ", scope, Position::Alone, second.get(), out)?;
            print_round(scope, each.get(), out)?;
            Ok(())
        }
        Body::Iter {
            first,
            second,
            each,
        } => {
            print_head(LoopKind::Iter, scope.rounds, out)?;
            print_part(b", ", scope, Position::Alone, first.get(), out)?;
            print_part(b", ", scope, Position::Alone, second.get(), out)?;
            print_round(scope, each.get(), out)?;
            Ok(())
        }
        Body::Call {
            k,
            out: output,
            args,
        } => {
            print_called(*k, *output, out)?;
            out.push(b'(')?;
            print_arguments(scope, args.as_slice(), out)?;
            out.push(b')')?;
            Ok(())
        }
    }
}

// A part of a body, and what stands before it.
#[cycle(body)]
fn print_part(
    before: &[u8],
    scope: &Scope,
    position: Position,
    part: &Body,
    out: &mut Vec<u8>,
) -> Result<(), NoMem>
    requires { HasVars scope.now }
    ensures { Prints (before.now ++ body_at (names_of_inputs scope.now)
        scope.now.rounds position (body_tree part.now)) result out.old.items out.new.items }
{
    out.extend_from_slice(before)?;
    print_at(scope, position, part, out)
}

// The part of a loop that it repeats, and the end of the loop.
#[cycle(body)]
fn print_round(scope: &Scope, each: &Body, out: &mut Vec<u8>) -> Result<(), NoMem>
    requires { HasVars scope.now }
    ensures { Prints ((codes ", " ++ body_at (names_of_inputs scope.now)
        (suc scope.now.rounds) Alone (body_tree each.now)) ++ codes ")")
        result out.old.items out.new.items }
{
    let inside = Scope {
        problem: scope.problem,
        inputs: scope.inputs,
        rounds: one_more(scope.rounds)?,
    };
    print_part(b", ", &inside, Position::Alone, each, out)?;
    out.push(b')')?;
    Ok(())
}

#[cycle(body)]
fn print_arguments(scope: &Scope, args: &[Body], out: &mut Vec<u8>) -> Result<(), NoMem>
    requires { HasVars scope.now }
    ensures { Prints (arguments_at (names_of_inputs scope.now) scope.now.rounds
        (body_trees args.now)) result out.old.items out.new.items }
{
    let mut first = true;
    for arg in args {
        print_if(!first, b", ", out)?;
        print_at(scope, Position::Alone, arg, out)?;
        first = false;
    }
    Ok(())
}

fn print_input(scope: &Scope, input: u32, out: &mut Vec<u8>) -> Result<(), NoMem>
    requires { HasVars scope.now }
    ensures { Prints (slice_index_or (names_of_inputs scope.now) input [])
        result out.old.items out.new.items }
{
    match at(scope.inputs, input as usize) {
        None => Ok(()),
        Some(var) => print_name(scope.problem, *var, out),
    }
}

// The number of a subtask, and which of its outputs is asked for; in the text both count from 1.
fn print_called(k: u32, output: u32, out: &mut Vec<u8>) -> Result<(), NoMem>
    ensures { Prints (sub_spelling (pos (suc k)) (pos (suc output))) result
        out.old.items out.new.items }
{
    print_sub(i64::from(k) + 1, i64::from(output) + 1, out)
}

fn print_local(local: u64, out: &mut Vec<u8>) -> Result<(), NoMem>
    ensures { Prints (local_text local) result out.old.items out.new.items }
{
    out.push(b'%')?;
    print_count(local, out)
}

// The word of a loop, and its variable.
fn print_head(kind: LoopKind, rounds: u64, out: &mut Vec<u8>) -> Result<(), NoMem>
    ensures { Prints (loop_head_text kind rounds) result out.old.items out.new.items }
{
    out.extend_from_slice(loop_word(kind))?;
    out.push(b'(')?;
    print_local(rounds, out)
}
