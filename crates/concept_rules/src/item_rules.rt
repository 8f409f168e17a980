//! The rules on items.
ghost use Rattle.std.specs.Prelude.{◌≡◌, IfOk};
ghost use Rattle.utopist_syntax.specs.View.{tree_of};
ghost use Rattle.utopist_syntax.specs.FileTree.{item_tree};
ghost use Rattle.concept_rules.specs.ItemRules.{known_concept, known_kind, side_fault, parts_fault, part_fault, item_fault};
ghost use Rattle.concept_rules.specs.Checks.{Checks};
ghost use Rattle.concept_rules.specs.steps.Variables.{bound_by};
ghost use Rattle.concept_rules.specs.steps.Points.{AtEachExtent, AtEachPoint};

use crate::bind_rules::{Typed, check_binds};
use crate::body_rules::{Relation, check_body};
use crate::fault::{ModelFault, Rule, UnfoldFault};
use crate::kinds::Seen;
use crate::line::Line;
use crate::new_names::{expect_new_names, expect_undeclared};
use crate::path_rules::{broken_at, expect_all_numeric, expect_numeric};
use name_sets::PathSet;
use std::alloc::Global;
use utopist_syntax::{Expr, Item, Name, Part, VarKind};

/// Checks an item at this point, and gives the left paths of its bindings.
pub(crate) fn check_item<'s, 'a>(
    alloc: Global,
    seen: &'s Seen<'s, 'a>,
    here: &'s Line,
    item: &'s Item<'a>,
) -> Result<PathSet<'a>, UnfoldFault>
    ensures rules { AtEachPoint seen.now here.now (λ f before.
        Checks (item_fault f.before before (item_tree item.now)) result) }
    ensures bound { IfOk result (λ paths. paths ≡ bound_by (item_tree item.now)) }
{
    match item {
        Item::Var { names, kind, binds } => {
            expect_new_names(alloc, seen, here, names.as_slice())?;
            expect_known_kind(seen, kind)?;
            let variables = Typed {
                kind,
                binds: binds.as_slice(),
            };
            check_binds(alloc, seen, here, &variables)
        }
        Item::Eq { left, right } => {
            check_side(seen, here, left)?;
            check_side(seen, here, right)?;
            Ok(PathSet::new(alloc))
        }
        Item::Rel {
            name,
            parts,
            output,
            body,
        } => {
            expect_undeclared(seen, here, name)?;
            check_parts(seen, here, parts.as_slice())?;
            expect_numeric(seen, here, output.parts.as_slice())?;
            let relation = Relation {
                name,
                parts: parts.as_slice(),
                body,
            };
            check_body(alloc, seen, here, &relation)?;
            Ok(PathSet::new(alloc))
        }
    }
}

/// The name is that of a concept before this one.
pub(crate) fn expect_known_concept(seen: &Seen, name: &Name) -> Result<(), ModelFault>
    ensures { AtEachExtent seen.now (λ f. result ≡ known_concept f.before name.now) }
{
    if !seen.checked.has(name.text()) {
        return Err(broken_at(name, Rule::UnknownConcept));
    }
    Ok(())
}

fn expect_known_kind(seen: &Seen, kind: &VarKind) -> Result<(), ModelFault>
    ensures { AtEachExtent seen.now (λ f. result ≡ known_kind f.before kind.now) }
{
    match kind {
        VarKind::Numeric => Ok(()),
        VarKind::Of(concept) => expect_known_concept(seen, concept),
    }
}

fn check_side(seen: &Seen, here: &Line, side: &Expr) -> Result<(), ModelFault>
    ensures { AtEachPoint seen.now here.now (λ f before.
        result ≡ side_fault f.before before (tree_of side.now)) }
{
    match side {
        Expr::Path(path) => expect_numeric(seen, here, path.parts.as_slice()),
        Expr::Neg(inner) => check_side(seen, here, inner.get()),
        Expr::Op { op: _, left, right } => {
            check_side(seen, here, left.get())?;
            check_side(seen, here, right.get())
        }
        Expr::Num(_) | Expr::If { .. } | Expr::Loop { .. } | Expr::Call { .. } => Ok(()),
    }
}

fn check_parts(seen: &Seen, here: &Line, parts: &[Part]) -> Result<(), ModelFault>
    ensures { AtEachPoint seen.now here.now (λ f before.
        result ≡ parts_fault f.before before parts.now) }
{
    for part in parts {
        check_part(seen, here, part)?;
    }
    Ok(())
}

fn check_part(seen: &Seen, here: &Line, part: &Part) -> Result<(), ModelFault>
    ensures { AtEachPoint seen.now here.now (λ f before.
        result ≡ part_fault f.before before part.now) }
{
    match part {
        Part::Input(path) => expect_numeric(seen, here, path.parts.as_slice()),
        Part::Subtask { inputs, outputs } => {
            expect_all_numeric(seen, here, inputs.as_slice())?;
            expect_all_numeric(seen, here, outputs.as_slice())
        }
    }
}
