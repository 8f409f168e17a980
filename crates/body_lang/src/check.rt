ghost use Rattle.std.specs.Prelude.{◌≡◌, ℕ, suc, ◌^◌, min, slice_get};
ghost use Rattle.body_lang.specs.BodyTree.{count_of};
ghost use Rattle.body_lang.specs.View.{body_tree, body_trees};
ghost use Rattle.body_lang.specs.Verdicts.{fault_unless};
ghost use Rattle.body_lang.specs.Checked.{checked, all_checked, call_checked};

use crate::{Arity, Body, BodyFault};
use sqlite_items::at;

/// Names the first bad node of a body, from left to right, a node before its parts.
///
/// `inputs` counts the statement's inputs, and `arities` the inputs and outputs of each of its subtasks.
/// Takes no memory.
pub fn check_body(body: &Body, inputs: u32, arities: &[Arity]) -> Result<(), BodyFault>
    ensures { result ≡ checked inputs arities.now 0 (body_tree body.now) }
{
    check_inside(body, inputs, arities, 0)
}

// `loops` counts the enclosing loops, up to 2^32, which no Local reaches.
#[cycle(checking)]
fn check_inside(body: &Body, inputs: u32, arities: &[Arity], loops: u64) -> Result<(), BodyFault>
    ensures { (d : ℕ) → loops ≡ min d (2 ^ 32) → result ≡ checked inputs arities.now d (body_tree body.now) }
{
    match body {
        Body::Num(_) => Ok(()),
        Body::Input(i) => fault_unless(*i < inputs, BodyFault::BadInput),
        Body::Local(j) => fault_unless(u64::from(*j) < loops, BodyFault::BadLocal),
        Body::Neg(inner) => check_inside(inner.get(), inputs, arities, loops),
        Body::Op { op: _, left, right } => {
            check_inside(left.get(), inputs, arities, loops)?;
            check_inside(right.get(), inputs, arities, loops)
        }
        Body::If {
            cmp: _,
            left,
            right,
            yes,
            no,
        } => {
            check_inside(left.get(), inputs, arities, loops)?;
            check_inside(right.get(), inputs, arities, loops)?;
            check_inside(yes.get(), inputs, arities, loops)?;
            check_inside(no.get(), inputs, arities, loops)
        }
        Body::Sum {
            first,
            second,
            each,
        }
        | Body::Prod {
            first,
            second,
            each,
        }
        | Body::Iter {
            first,
            second,
            each,
        } => {
            check_inside(first.get(), inputs, arities, loops)?;
            check_inside(second.get(), inputs, arities, loops)?;
            check_inside(each.get(), inputs, arities, deeper(loops))
        }
        Body::Call { k, out, args } => {
            check_call(*k, *out, args.as_slice(), arities)?;
            check_all(args.as_slice(), inputs, arities, loops)
        }
    }
}

#[cycle(checking)]
fn check_all(args: &[Body], inputs: u32, arities: &[Arity], loops: u64) -> Result<(), BodyFault>
    ensures { (d : ℕ) → loops ≡ min d (2 ^ 32) → result ≡ all_checked inputs arities.now d (body_trees args.now) }
{
    for arg in args {
        check_inside(arg, inputs, arities, loops)?;
    }
    Ok(())
}

// The call itself, and not its arguments.
#[tactic(auto, using(crate::proofs::Arguments::argument_count))]
fn check_call(k: u32, out: u32, args: &[Body], arities: &[Arity]) -> Result<(), BodyFault>
    ensures { result ≡ call_checked (slice_get arities.now k) out (count_of (body_trees args.now)) }
{
    match at(arities, k as usize) {
        None => Err(BodyFault::BadCall),
        Some(arity) => {
            fault_unless(out < arity.outputs, BodyFault::BadCall)?;
            fault_unless(args.len() == arity.inputs as usize, BodyFault::BadArity)
        }
    }
}

// The count inside one more loop.
fn deeper(loops: u64) -> u64
    ensures { (d : ℕ) → loops ≡ min d (2 ^ 32) → result ≡ min (suc d) (2 ^ 32) }
{
    if loops < 1 << 32 { loops + 1 } else { loops }
}

fn fault_unless(good: bool, fault: BodyFault) -> Result<(), BodyFault>
    ensures { result ≡ fault_unless good fault }
{
    if good { Ok(()) } else { Err(fault) }
}
