//! The value of a body.
ghost use Rattle.std.specs.Prelude.{ℕ};
ghost use Rattle.body_lang.specs.View.{body_tree};
ghost use Rattle.body_lang.specs.Precision.{narrowly};
ghost use Rattle.body_lang.specs.Meaning.{Calls};
ghost use Rattle.body_lang.specs.Operation.{operate, as_run};
ghost use Rattle.body_lang.specs.Rounds.{one_round, rounds, round_count, rounds_between, replacements, replacements_for};
ghost use Rattle.priz_frac.specs.Whole.{whole_of};
ghost use Rattle.proof_term.specs.steps.HasNoCall.{HasNoCall};
ghost use Rattle.proof_term.specs.steps.Agrees.{Agrees, means, repeated_part};

use crate::locals::{Locals, local_at};
use crate::numbers::{holds, is_whole, operate, round_count, round_value, run_fault, value_at};
use body_lang::{Body, Op, RunFault};
use priz_frac::Frac;

/// The values at a point of a body: of the statement's inputs, and of the loops around.
#[derive(Clone, Copy)]
pub(crate) struct Frame<'a> {
    pub inputs: &'a [Frac],
    pub locals: &'a Locals<'a>,
}

/// The value of a body that calls nothing, and the turns that are left.
#[cycle(evaluation)]
pub(crate) fn evaluate(body: &Body, frame: &Frame, turns: u32) -> Result<(Frac, u32), RunFault>
    requires { HasNoCall (body_tree body.now) }
    ensures { (owner : ℕ) (calls : Calls) → Agrees owner result
        (means owner calls frame.now (body_tree body.now) turns) }
{
    match body {
        Body::Num(value) => Ok((*value, turns)),
        Body::Input(i) => Ok((value_at(frame.inputs, *i), turns)),
        Body::Local(j) => Ok((local_at(frame.locals, *j), turns)),
        Body::Neg(inner) => {
            let (x, turns) = evaluate(inner.get(), frame, turns)?;
            Ok((x.neg(), turns))
        }
        Body::Op { op, left, right } => {
            let (x, turns) = evaluate(left.get(), frame, turns)?;
            let (y, turns) = evaluate(right.get(), frame, turns)?;
            joined(*op, x, y, turns)
        }
        Body::If {
            cmp,
            left,
            right,
            yes,
            no,
        } => {
            let (x, turns) = evaluate(left.get(), frame, turns)?;
            let (y, turns) = evaluate(right.get(), frame, turns)?;
            if holds(*cmp, x, y) {
                evaluate(yes.get(), frame, turns)
            } else {
                evaluate(no.get(), frame, turns)
            }
        }
        Body::Sum {
            first,
            second,
            each,
        } => {
            let (x, turns) = evaluate(first.get(), frame, turns)?;
            let (y, turns) = evaluate(second.get(), frame, turns)?;
            let zero = Frac::from_whole(0);
            gather(Op::Add, zero, (x, y), each.get(), frame, turns)
        }
        Body::Prod {
            first,
            second,
            each,
        } => {
            let (x, turns) = evaluate(first.get(), frame, turns)?;
            let (y, turns) = evaluate(second.get(), frame, turns)?;
            let one = Frac::from_whole(1);
            gather(Op::Mul, one, (x, y), each.get(), frame, turns)
        }
        Body::Iter {
            first,
            second,
            each,
        } => {
            let (x, turns) = evaluate(first.get(), frame, turns)?;
            let (y, turns) = evaluate(second.get(), frame, turns)?;
            replace(x, y, each.get(), frame, turns)
        }
        Body::Call { .. } => unreachable!(),
    }
}

fn joined(op: Op, x: Frac, y: Frac, turns: u32) -> Result<(Frac, u32), RunFault>
    ensures { (owner : ℕ) → Agrees owner result (as_run owner turns (operate narrowly op x y)) }
{
    match operate(op, x, y) {
        Ok(value) => Ok((value, turns)),
        Err(fault) => Err(run_fault(fault)),
    }
}

// A turn, and the part that a loop repeats, with its variable's value.
#[cycle(evaluation)]
fn round(value: Frac, each: &Body, frame: &Frame, turns: u32) -> Result<(Frac, u32), RunFault>
    requires { HasNoCall (body_tree each.now) }
    ensures { (owner : ℕ) (calls : Calls) → Agrees owner result
        (one_round narrowly owner (repeated_part owner calls frame.now (body_tree each.now))
        value turns) }
{
    if turns == 0 {
        return Err(RunFault::Turns);
    }
    let locals = Locals::Inside {
        value,
        around: &*frame.locals,
    };
    let inside = Frame {
        inputs: &*frame.inputs,
        locals: &locals,
    };
    evaluate(each, &inside, turns - 1)
}

// A sum or a product, from the first bound to the second.
#[cycle(evaluation)]
fn gather(
    op: Op,
    start: Frac,
    bounds: (Frac, Frac),
    each: &Body,
    frame: &Frame,
    turns: u32,
) -> Result<(Frac, u32), RunFault>
    requires { HasNoCall (body_tree each.now) }
    ensures { (owner : ℕ) (calls : Calls) → Agrees owner result
        (rounds_between narrowly owner (repeated_part owner calls frame.now (body_tree each.now))
        op start (whole_of bounds.0) (whole_of bounds.1) turns) }
{
    let (first, second) = bounds;
    if !is_whole(first) || !is_whole(second) {
        return Err(RunFault::NotWhole);
    }
    gather_between(op, start, bounds, each, frame, turns)
}

#[cycle(evaluation)]
fn gather_between(
    op: Op,
    start: Frac,
    bounds: (Frac, Frac),
    each: &Body,
    frame: &Frame,
    turns: u32,
) -> Result<(Frac, u32), RunFault>
    requires { HasNoCall (body_tree each.now) }
    ensures { (owner : ℕ) (calls : Calls) → Agrees owner result
        (rounds narrowly owner (repeated_part owner calls frame.now (body_tree each.now))
        op (round_count bounds.0.num bounds.1.num) bounds.0.num start turns) }
{
    let (first, second) = bounds;
    let count = round_count(first, second);
    let mut total = start;
    let mut left = turns;
    for k in 0..count {
        let (value, rest) = round(round_value(first, second, k), each, frame, left)?;
        (total, left) = joined(op, total, value, rest)?;
    }
    Ok((total, left))
}

// A value that is replaced so many times.
#[cycle(evaluation)]
fn replace(
    start: Frac,
    times: Frac,
    each: &Body,
    frame: &Frame,
    turns: u32,
) -> Result<(Frac, u32), RunFault>
    requires { HasNoCall (body_tree each.now) }
    ensures { (owner : ℕ) (calls : Calls) → Agrees owner result
        (replacements_for narrowly owner (repeated_part owner calls frame.now (body_tree each.now))
        start (whole_of times) turns) }
{
    let Some(count) = times.whole() else {
        return Err(RunFault::NotWhole);
    };
    if count < 0 {
        return Err(RunFault::NegativeBound);
    }
    replace_times(count as u64, start, each, frame, turns)
}

#[cycle(evaluation)]
fn replace_times(
    count: u64,
    start: Frac,
    each: &Body,
    frame: &Frame,
    turns: u32,
) -> Result<(Frac, u32), RunFault>
    requires { HasNoCall (body_tree each.now) }
    ensures { (owner : ℕ) (calls : Calls) → Agrees owner result
        (replacements narrowly owner (repeated_part owner calls frame.now (body_tree each.now))
        count start turns) }
{
    let mut value = start;
    let mut left = turns;
    for _round in 0..count {
        (value, left) = round(value, each, frame, left)?;
    }
    Ok((value, left))
}
