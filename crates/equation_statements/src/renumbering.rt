ghost use Rattle.std.specs.Prelude.{◌≡◌, ◌<◌, ◌==◌, [], not, IfOk};
ghost use Rattle.std.specs.List.{filter, position_or_len};
ghost use Rattle.body_lang.specs.Equations.{IsArithmetic};
ghost use Rattle.body_lang.specs.Occurrences.{occurrences};
ghost use Rattle.body_lang.specs.Reads.{IsClosed};
ghost use Rattle.body_lang.specs.View.{body_tree};
ghost use Rattle.equation_statements.specs.SolvingStatements.{renumbered};

use crate::variables::Variables;
use body_lang::Body;
use priz_base::{NoMem, Var};
use sqlite_items::Boxed;
use std::alloc::Global;

/// The same arithmetic, in which each variable goes by its place among the variables but v.
pub(crate) fn over_places(
    alloc: Global,
    variables: &Variables,
    v: Var,
    body: &Body,
) -> Result<Body, NoMem>
    requires v { v < 1024 }
    requires arithmetic { IsArithmetic (body_tree body.now) }
    requires closed { IsClosed 1024 [] 0 (body_tree body.now) }
    requires without { occurrences v (body_tree body.now) ≡ 0 }
    ensures { IfOk result (λ b. body_tree b
        ≡ renumbered (λ w. position_or_len (λ u. u == w) (filter (λ u. not (u == v)) variables.now))
        (body_tree body.now)) }
{
    match body {
        Body::Num(x) => Ok(Body::Num(*x)),
        Body::Input(w) => Ok(Body::Input(variables.place_without(v, Var(*w)))),
        Body::Neg(part) => {
            let part = over_places(alloc, variables, v, part.get())?;
            Ok(Body::Neg(Boxed::new(alloc, part)?))
        }
        Body::Op { op, left, right } => {
            let left = over_places(alloc, variables, v, left.get())?;
            let right = over_places(alloc, variables, v, right.get())?;
            Ok(Body::Op {
                op: *op,
                left: Boxed::new(alloc, left)?,
                right: Boxed::new(alloc, right)?,
            })
        }
        _ => unreachable!(),
    }
}
