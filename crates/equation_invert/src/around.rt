ghost use Rattle.std.specs.Prelude.{◌≡◌, IfOk};
ghost use Rattle.body_lang.specs.BodyTree.{op as operated};
ghost use Rattle.body_lang.specs.Equations.{IsArithmetic};
ghost use Rattle.body_lang.specs.Inverse.{left_part as left_tree, right_part as right_tree};
ghost use Rattle.body_lang.specs.View.{body_tree};
ghost use Rattle.equation_invert.specs.steps.Around.{inside_tree};

use crate::copies::copy_of;
use body_lang::{Body, Op};
use priz_base::NoMem;
use sqlite_items::Boxed;
use std::alloc::Global;

/// What stands around a part of a side, from the inside to the other side of the equation.
#[derive(Clone, Copy)]
pub(crate) enum Around<'a> {
    /// The part is a whole side, and this is the other one.
    Equals(&'a Body),
    /// A minus sign, and what stands around that.
    Minus(&'a Around<'a>),
    /// The part is on the left of this operator, and this body on the right.
    LeftOf(Op, &'a Body, &'a Around<'a>),
    RightOf(Op, &'a Body, &'a Around<'a>),
}

/// What the part inside equals.
pub(crate) fn inside_of(alloc: Global, around: &Around) -> Result<Body, NoMem>
    requires { IsArithmetic (inside_tree around.now) }
    ensures { IfOk result (λ b. body_tree b ≡ inside_tree around.now) }
{
    match around {
        Around::Equals(other) => copy_of(alloc, other),
        Around::Minus(around) => {
            let whole = inside_of(alloc, around)?;
            Ok(Body::Neg(Boxed::new(alloc, whole)?))
        }
        Around::LeftOf(op, right, around) => {
            let whole = inside_of(alloc, around)?;
            let right = copy_of(alloc, right)?;
            left_part(alloc, *op, right, whole)
        }
        Around::RightOf(op, left, around) => {
            let whole = inside_of(alloc, around)?;
            let left = copy_of(alloc, left)?;
            right_part(alloc, *op, left, whole)
        }
    }
}

// What the left part of an operation equals, where the whole equals `whole`.
fn left_part(alloc: Global, op: Op, right: Body, whole: Body) -> Result<Body, NoMem>
    ensures { IfOk result (λ b. body_tree b ≡ left_tree op (body_tree right) (body_tree whole)) }
{
    match op {
        Op::Add => operation(alloc, Op::Sub, whole, right),
        Op::Sub => operation(alloc, Op::Add, whole, right),
        Op::Mul => operation(alloc, Op::Div, whole, right),
        Op::Div => operation(alloc, Op::Mul, whole, right),
    }
}

// What its right part equals.
fn right_part(alloc: Global, op: Op, left: Body, whole: Body) -> Result<Body, NoMem>
    ensures { IfOk result (λ b. body_tree b ≡ right_tree op (body_tree left) (body_tree whole)) }
{
    match op {
        Op::Add => operation(alloc, Op::Sub, whole, left),
        Op::Sub => operation(alloc, Op::Sub, left, whole),
        Op::Mul => operation(alloc, Op::Div, whole, left),
        Op::Div => operation(alloc, Op::Div, left, whole),
    }
}

fn operation(alloc: Global, op: Op, left: Body, right: Body) -> Result<Body, NoMem>
    ensures { IfOk result (λ b. body_tree b ≡ operated op (body_tree left) (body_tree right)) }
{
    let left = Boxed::new(alloc, left)?;
    let right = Boxed::new(alloc, right)?;
    Ok(Body::Op { op, left, right })
}
