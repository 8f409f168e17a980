//! The rules on the body of a relation.
ghost use Rattle.std.specs.Prelude.{◌≡◌, ◌||◌, ◌++◌, ◌∷◌, [], is_some, IfOk};
ghost use Rattle.std.specs.Str.{bytes_eq};
ghost use Rattle.name_sets.specs.Paths.{texts, path_position};
ghost use Rattle.concept_rules.specs.Declarations.{is_among, declared, is_declared as are_declared};
ghost use Rattle.utopist_syntax.specs.View.{tree_of, trees_of};
ghost use Rattle.utopist_syntax.specs.FileTree.{ItemTree};
ghost use Rattle.concept_rules.specs.BodyFault.{is_local, readable_path, free_name, in_bounds, in_round, expr_fault, exprs_fault};
ghost use Rattle.concept_rules.specs.ItemRules.{spelled_inputs};
ghost use Rattle.concept_rules.specs.Checks.{Checks};
ghost use Rattle.concept_rules.specs.steps.LoopNames.{loop_names};
ghost use Rattle.concept_rules.specs.steps.Points.{AtEachPoint};
ghost use Rattle.concept_rules.specs.steps.InBody.{point_in, InEachBody, body_behind};

use crate::calls::{Sizes, expect_call, numbered, sizes_of};
use crate::fault::{ModelFault, Rule, UnfoldFault};
use crate::kinds::{Seen, is_declared};
use crate::line::Line;
use crate::loops::{Loops, has};
use crate::path_rules::{broken_at, broken_on};
use name_sets::PathSet;
use priz_base::NoMem;
use std::alloc::Global;
use utopist_syntax::{Expr, Name, Part, Path};

/// A relation: its name, its parts and its body, if it has one.
#[derive(Clone, Copy)]
pub(crate) struct Relation<'s, 'a> {
    pub name: &'s Name<'a>,
    pub parts: &'s [Part<'a>],
    pub body: &'s Option<Expr<'a>>,
}

// Where a body stands: the items before its relation, the name of this, and what the body may read and call.
#[derive(Clone, Copy)]
struct Surroundings<'s, 'a> {
    seen: &'s Seen<'s, 'a>,
    here: &'s Line,
    name: &'s Name<'a>,
    inputs: &'s PathSet<'a>,
    arities: &'s [Sizes],
}

/// Checks the body of a relation.
pub(crate) fn check_body<'s, 'a>(
    alloc: Global,
    seen: &'s Seen<'s, 'a>,
    here: &'s Line,
    relation: &Relation<'s, 'a>,
) -> Result<(), UnfoldFault>
    ensures { AtEachPoint seen.now here.now (λ f before. (last : ItemTree)
        → declared last ≡ relation.now.name.now.text ∷ []
        → Checks (body_behind (before ++ last ∷ []) relation.now) result) }
{
    let Some(expr) = relation.body else {
        return Ok(());
    };
    let inputs = inputs_of(alloc, relation.parts)?;
    let sizes = sizes_of(alloc, relation.parts)?;
    let surroundings = Surroundings {
        seen,
        here,
        name: relation.name,
        inputs: &inputs,
        arities: sizes.as_slice(),
    };
    check_expr(&surroundings, &Loops::Outermost, &Loops::Outermost, expr)?;
    Ok(())
}

fn inputs_of<'a>(alloc: Global, parts: &[Part<'a>]) -> Result<PathSet<'a>, NoMem>
    ensures { IfOk result (λ inputs. inputs ≡ spelled_inputs parts.now) }
{
    let mut inputs = PathSet::new(alloc);
    for part in parts {
        if let Part::Input(path) = part {
            inputs.add(path.parts.as_slice())?;
        }
    }
    Ok(inputs)
}

// Inside of the loops `around`, of which only `rounds` hold it in their rounds.
#[cycle(body)]
fn check_expr(
    at: &Surroundings,
    around: &Loops,
    rounds: &Loops,
    expr: &Expr,
) -> Result<(), ModelFault>
    ensures { InEachBody at.now (λ items.
        result ≡ expr_fault (point_in at.now items around.now rounds.now) (tree_of expr.now)) }
{
    match expr {
        Expr::Num(_) => Ok(()),
        Expr::Path(path) => expect_readable(at.inputs, rounds, path),
        Expr::Neg(inner) => check_expr(at, around, rounds, inner.get()),
        Expr::Op { op: _, left, right } => {
            check_expr(at, around, rounds, left.get())?;
            check_expr(at, around, rounds, right.get())
        }
        Expr::If {
            cmp: _,
            left,
            right,
            yes,
            no,
        } => {
            check_expr(at, around, rounds, left.get())?;
            check_expr(at, around, rounds, right.get())?;
            check_expr(at, around, rounds, yes.get())?;
            check_expr(at, around, rounds, no.get())
        }
        Expr::Loop {
            kind: _,
            name,
            first,
            second,
            each,
        } => {
            expect_free(at, around, name)?;
            check_inside(at, around, rounds, name, first.get())?;
            check_inside(at, around, rounds, name, second.get())?;
            check_round(at, around, rounds, name, each.get())
        }
        Expr::Call {
            k,
            out,
            place,
            args,
        } => {
            expect_call(numbered(at.arities, k), out, args.len(), *place)?;
            check_exprs(at, around, rounds, args.as_slice())
        }
    }
}

// A part of a loop of this name.
#[cycle(body)]
fn check_inside(
    at: &Surroundings,
    around: &Loops,
    rounds: &Loops,
    name: &Name,
    part: &Expr,
) -> Result<(), ModelFault>
    ensures { InEachBody at.now (λ items. result ≡ expr_fault
        (in_bounds name.now (point_in at.now items around.now rounds.now)) (tree_of part.now)) }
{
    let inside = Loops::Inside {
        name: name.text(),
        around: &*around,
    };
    check_expr(at, &inside, rounds, part)
}

// The part that a loop of this name evaluates in each round.
#[cycle(body)]
fn check_round(
    at: &Surroundings,
    around: &Loops,
    rounds: &Loops,
    name: &Name,
    each: &Expr,
) -> Result<(), ModelFault>
    ensures { InEachBody at.now (λ items. result ≡ expr_fault
        (in_round name.now (point_in at.now items around.now rounds.now)) (tree_of each.now)) }
{
    let round = Loops::Inside {
        name: name.text(),
        around: &*rounds,
    };
    check_inside(at, around, &round, name, each)
}

#[cycle(body)]
fn check_exprs(
    at: &Surroundings,
    around: &Loops,
    rounds: &Loops,
    exprs: &[Expr],
) -> Result<(), ModelFault>
    ensures { InEachBody at.now (λ items.
        result ≡ exprs_fault (point_in at.now items around.now rounds.now) (trees_of exprs.now)) }
{
    for expr in exprs {
        check_expr(at, around, rounds, expr)?;
    }
    Ok(())
}

// The loop's name is new.
fn expect_free(at: &Surroundings, around: &Loops, name: &Name) -> Result<(), ModelFault>
    ensures { InEachBody at.now (λ items.
        result ≡ free_name items (loop_names around.now) name.now) }
{
    if is_taken(at, around, name) {
        return Err(broken_at(name, Rule::ShadowedName));
    }
    Ok(())
}

fn is_taken(at: &Surroundings, around: &Loops, name: &Name) -> bool
    ensures { InEachBody at.now (λ items. result
        ≡ (is_among name.now.text (loop_names around.now) || are_declared items name.now.text)) }
{
    has(around, name.text()) || is_up_to(at, name)
}

// An item up to the relation declares the name.
fn is_up_to(at: &Surroundings, name: &Name) -> bool
    ensures { InEachBody at.now (λ items. result ≡ are_declared items name.now.text) }
{
    is_declared(at.seen, at.here, name.text()) || has_same_text(name, at.name)
}

fn has_same_text(name: &Name, other: &Name) -> bool
    ensures { result ≡ bytes_eq name.now.text other.now.text }
{
    name.text() == other.text()
}

// The path is spelled as an input, or is a loop in whose round it stands.
fn expect_readable(inputs: &PathSet, rounds: &Loops, path: &Path) -> Result<(), ModelFault>
    ensures { result ≡ readable_path inputs.now (loop_names rounds.now) path.now.parts }
{
    let names = path.parts.as_slice();
    if is_input(inputs, names) || is_round(rounds, names) {
        return Ok(());
    }
    Err(broken_on(names, Rule::UnknownPath))
}

fn is_input(inputs: &PathSet, path: &[Name]) -> bool
    ensures { result ≡ is_some (path_position (texts path.now) inputs.now) }
{
    inputs.place(path).is_some()
}

fn is_round(rounds: &Loops, path: &[Name]) -> bool
    ensures { result ≡ is_local (loop_names rounds.now) (texts path.now) }
{
    match path {
        [name] => has(rounds, name.text()),
        _ => false,
    }
}
