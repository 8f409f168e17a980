ghost use Rattle.std.specs.Prelude.{◌≡◌, ◌≢◌, ◌≤◌, ◌↔◌, None, IfOk, IfSome};
ghost use Rattle.std.specs.Option.{option_map};
ghost use Rattle.body_lang.specs.Equations.{IsArithmetic, AreArithmetic};
ghost use Rattle.body_lang.specs.ExactValue.{SolvesFor};
ghost use Rattle.body_lang.specs.Inverse.{inverse};
ghost use Rattle.body_lang.specs.Occurrences.{occurrences, occurrences_in};
ghost use Rattle.body_lang.specs.View.{body_tree};
ghost use Rattle.equation_invert.specs.steps.Around.{inside_tree, inverse_inside};

use crate::around::{Around, inside_of};
use crate::occurrences::count;
use body_lang::{Body, Equation, numbers_are_narrow};
use priz_base::NoMem;
use std::alloc::Global;

/// Solves an equation for variable v, where v stands in it exactly once.
///
/// The side that holds v is turned inside out: from `a / v = b` comes `a / b`. It walks the equation a fixed number of
/// times, and copies each part of the answer once.
pub fn invert(alloc: Global, equation: &Equation, v: u32) -> Result<Option<Body>, NoMem>
    requires { AreArithmetic equation.now }
    ensures none { IfOk result (λ b. (b ≡ None) ↔ (occurrences_in v equation.now ≢ 1)) }
    ensures inverse { IfOk result (λ b. option_map body_tree b ≡ inverse v equation.now) }
    ensures without { IfOk result (λ b. IfSome b (λ x. occurrences v (body_tree x) ≡ 0)) }
    ensures value { IfOk result (λ b. IfSome b (λ x. SolvesFor equation.now v (body_tree x))) }
{
    numbers_are_narrow(&equation.left);
    numbers_are_narrow(&equation.right);
    solve(alloc, equation, v)
}

// Opens the side in which v stands.
fn solve(alloc: Global, equation: &Equation, v: u32) -> Result<Option<Body>, NoMem>
    requires { AreArithmetic equation.now }
    ensures { IfOk result (λ b. option_map body_tree b ≡ inverse v equation.now) }
{
    let Equation { left, right } = equation;
    match (count(left, v), count(right, v)) {
        (1, 0) => solve_inside(alloc, left, v, &Around::Equals(right)),
        (0, 1) => solve_inside(alloc, right, v, &Around::Equals(left)),
        _ => Ok(None),
    }
}

// What v equals, if it stands in this part: all that stands around it, turned inside out.
fn solve_inside(alloc: Global, part: &Body, v: u32, around: &Around) -> Result<Option<Body>, NoMem>
    requires part { IsArithmetic (body_tree part.now) }
    requires around { IsArithmetic (inside_tree around.now) }
    requires once { occurrences v (body_tree part.now) ≤ 1 }
    ensures { IfOk result (λ b. option_map body_tree b
        ≡ inverse_inside v (body_tree part.now) (inside_tree around.now)) }
{
    match part {
        Body::Num(_) => Ok(None),
        Body::Input(i) => {
            if *i == v {
                Ok(Some(inside_of(alloc, around)?))
            } else {
                Ok(None)
            }
        }
        Body::Neg(part) => solve_inside(alloc, part.get(), v, &Around::Minus(around)),
        Body::Op { op, left, right } => {
            let (left, right) = (left.get(), right.get());
            match solve_inside(alloc, left, v, &Around::LeftOf(*op, right, around))? {
                Some(found) => Ok(Some(found)),
                None => solve_inside(alloc, right, v, &Around::RightOf(*op, left, around)),
            }
        }
        _ => unreachable!(),
    }
}
