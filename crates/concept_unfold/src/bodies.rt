//! The body of a statement.
ghost use Rattle.std.specs.Prelude.{◌≡◌, ◌≤◌, ◌+◌, ◌<◌, ◌^◌, ◌≤ℤ◌, pos, ℕ, List, length, IfOk};
ghost use Rattle.std.specs.Option.{option_map};
ghost use Rattle.body_lang.specs.View.{body_tree};
ghost use Rattle.utopist_syntax.specs.View.{tree_of};
ghost use Rattle.utopist_syntax.specs.FileTree.{body_expr_tree};
ghost use Rattle.concept_unfold.specs.Built.{IsBuiltExpr, IsBuiltBody};
ghost use Rattle.concept_unfold.specs.Paths.{inputs_of, input_names, first_name};
ghost use Rattle.concept_unfold.specs.steps.RoundNames.{round_names};
ghost use Rattle.concept_unfold.specs.steps.InputPlaces.{ArePlaces};
ghost use Rattle.concept_unfold.specs.Nodes.{nodes, body_nodes};
ghost use Rattle.concept_unfold.specs.Bodies.{named, loop_body as kind_of_loop, expr_body, body_over};

use crate::inputs::{Inputs, first_text};
use crate::rounds::{Rounds, number_of};
use body_lang::{Body, LoopKind};
use priz_base::NoMem;
use priz_frac::Frac;
use sqlite_items::{Boxed, Items};
use std::alloc::Global;
use utopist_syntax::{Expr, Part, Path};

/// The body of a relation of these parts, if there is one.
pub(crate) fn body_of(
    alloc: Global,
    parts: &[Part],
    body: &Option<Expr>,
) -> Result<Option<Body>, NoMem>
    requires built { IsBuiltBody (body_expr_tree body.now) }
    requires few { length (inputs_of parts.now) + body_nodes (body_expr_tree body.now) < 2 ^ 32 }
    ensures { IfOk result (λ b. option_map body_tree b
        ≡ body_over (input_names parts.now) (body_expr_tree body.now)) }
{
    let Some(expr) = body else {
        return Ok(None);
    };
    let inputs = Inputs::of(alloc, parts)?;
    let body = body_at(alloc, &inputs, &Rounds::Outermost, expr)?;
    Ok(Some(body))
}

// Inside the rounds of these loops.
fn body_at(alloc: Global, inputs: &Inputs, rounds: &Rounds, expr: &Expr) -> Result<Body, NoMem>
    requires built { IsBuiltExpr (tree_of expr.now) }
    requires inputs { inputs.now.count < 2 ^ 32 }
    requires few { length (round_names rounds.now) + nodes (tree_of expr.now) < 2 ^ 32 }
    ensures { (names : List (List ℕ)) → ArePlaces inputs.now names
        → IfOk result (λ b. body_tree b
        ≡ expr_body names (round_names rounds.now) (tree_of expr.now)) }
{
    match expr {
        Expr::Num(n) => Ok(Body::Num(Frac::from_whole(*n))),
        Expr::Path(path) => Ok(named(inputs, rounds, path)),
        Expr::Neg(inner) => {
            let inner = body_at(alloc, inputs, rounds, inner.get())?;
            Ok(Body::Neg(Boxed::new(alloc, inner)?))
        }
        Expr::Op { op, left, right } => {
            let left = Boxed::new(alloc, body_at(alloc, inputs, rounds, left.get())?)?;
            let right = Boxed::new(alloc, body_at(alloc, inputs, rounds, right.get())?)?;
            Ok(Body::Op {
                op: *op,
                left,
                right,
            })
        }
        Expr::If {
            cmp,
            left,
            right,
            yes,
            no,
        } => {
            let left = Boxed::new(alloc, body_at(alloc, inputs, rounds, left.get())?)?;
            let right = Boxed::new(alloc, body_at(alloc, inputs, rounds, right.get())?)?;
            let yes = Boxed::new(alloc, body_at(alloc, inputs, rounds, yes.get())?)?;
            let no = Boxed::new(alloc, body_at(alloc, inputs, rounds, no.get())?)?;
            Ok(Body::If {
                cmp: *cmp,
                left,
                right,
                yes,
                no,
            })
        }
        Expr::Loop {
            kind,
            name,
            first,
            second,
            each,
        } => {
            let first = Boxed::new(alloc, body_at(alloc, inputs, rounds, first.get())?)?;
            let second = Boxed::new(alloc, body_at(alloc, inputs, rounds, second.get())?)?;
            let round = Rounds::Inside {
                name: name.text(),
                around: &*rounds,
            };
            let each = Boxed::new(alloc, body_at(alloc, inputs, &round, each.get())?)?;
            Ok(loop_body(*kind, first, second, each))
        }
        Expr::Call { .. } => Ok(Body::Call {
            k: 0,
            out: 0,
            args: Items::new(alloc),
        }),
    }
}

fn loop_body(kind: LoopKind, first: Boxed<Body>, second: Boxed<Body>, each: Boxed<Body>) -> Body
    ensures { body_tree result
        ≡ kind_of_loop kind (body_tree first) (body_tree second) (body_tree each) }
{
    match kind {
        LoopKind::Sum => Body::Sum {
            first,
            second,
            each,
        },
        LoopKind::Prod => Body::Prod {
            first,
            second,
            each,
        },
        LoopKind::Iter => Body::Iter {
            first,
            second,
            each,
        },
    }
}

// What a path stands for.
fn named(inputs: &Inputs, rounds: &Rounds, path: &Path) -> Body
    requires inputs { inputs.now.count < 2 ^ 32 }
    requires few { length (round_names rounds.now) < 2 ^ 32 }
    ensures { (names : List (List ℕ)) → ArePlaces inputs.now names
        → body_tree result ≡ named names (round_names rounds.now) (first_name path.now).text }
{
    let name = first_text(path);
    match number_of(rounds, name) {
        Some(j) => Body::Local(j),
        None => Body::Input(inputs.place(name) as u32),
    }
}
