//! Nodes of the tree.
ghost use Rattle.std.specs.Prelude.{◌≡◌, IfOk};
ghost use Rattle.utopist_syntax.specs.ExprTree.{num, path, neg, op as op_tree, choice, loop as loop_tree, call};
ghost use Rattle.utopist_syntax.specs.View.{tree_of, trees_of};

use body_lang::{Cmp, LoopKind, Op};
use priz_base::Place;
use sqlite_items::{Boxed, Items};
use std::alloc::{AllocError, Global};
use utopist_syntax::{Expr, Name, Path};

#[tactic(auto, using(crate::proofs::Trees::num_tree))]
pub fn number_of<'a>(n: i64) -> Expr<'a>
    ensures { tree_of result ≡ num n }
{
    Expr::Num(n)
}

#[tactic(auto, using(crate::proofs::Trees::path_tree))]
pub fn variable_of<'a>(variable: Path<'a>) -> Expr<'a>
    ensures { tree_of result ≡ path variable.entry.parts }
{
    Expr::Path(variable)
}

#[tactic(auto, using(crate::proofs::Trees::call_tree))]
pub fn call_of<'a>(k: i64, out: i64, place: Place, args: Items<Expr<'a>>) -> Expr<'a>
    ensures { tree_of result ≡ call k out place (trees_of args.entry) }
{
    Expr::Call {
        k,
        out,
        place,
        args,
    }
}

#[tactic(auto, using(crate::proofs::Trees::neg_tree))]
pub fn negation_of<'a>(alloc: Global, part: Expr<'a>) -> Result<Expr<'a>, AllocError>
    ensures { IfOk result (λ e. tree_of e ≡ neg (tree_of part.entry)) }
{
    let part = Boxed::new(alloc, part)?;
    Ok(Expr::Neg(part))
}

#[tactic(auto, using(crate::proofs::Trees::op_tree))]
pub fn operation_of<'a>(
    alloc: Global,
    op: Op,
    left: Expr<'a>,
    right: Expr<'a>,
) -> Result<Expr<'a>, AllocError>
    ensures { IfOk result (λ e. tree_of e ≡ op_tree op (tree_of left.entry) (tree_of right.entry)) }
{
    let left = Boxed::new(alloc, left)?;
    let right = Boxed::new(alloc, right)?;
    Ok(Expr::Op { op, left, right })
}

#[tactic(auto, using(crate::proofs::Trees::loop_tree))]
pub fn loop_of<'a>(
    alloc: Global,
    kind: LoopKind,
    name: Name<'a>,
    first: Expr<'a>,
    second: Expr<'a>,
    each: Expr<'a>,
) -> Result<Expr<'a>, AllocError>
    ensures { IfOk result (λ e. tree_of e ≡ loop_tree kind name.entry (tree_of first.entry) (tree_of second.entry) (tree_of each.entry)) }
{
    let first = Boxed::new(alloc, first)?;
    let second = Boxed::new(alloc, second)?;
    let each = Boxed::new(alloc, each)?;
    Ok(Expr::Loop {
        kind,
        name,
        first,
        second,
        each,
    })
}

#[tactic(auto, using(crate::proofs::Trees::choice_tree))]
pub fn choice_of<'a>(
    alloc: Global,
    cmp: Cmp,
    left: Expr<'a>,
    right: Expr<'a>,
    yes: Expr<'a>,
    no: Expr<'a>,
) -> Result<Expr<'a>, AllocError>
    ensures { IfOk result (λ e. tree_of e ≡ choice cmp (tree_of left.entry) (tree_of right.entry) (tree_of yes.entry) (tree_of no.entry)) }
{
    let left = Boxed::new(alloc, left)?;
    let right = Boxed::new(alloc, right)?;
    let yes = Boxed::new(alloc, yes)?;
    let no = Boxed::new(alloc, no)?;
    Ok(Expr::If {
        cmp,
        left,
        right,
        yes,
        no,
    })
}
