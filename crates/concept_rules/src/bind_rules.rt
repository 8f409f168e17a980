//! The rules on bindings.
ghost use Rattle.std.specs.Prelude.{◌≡◌, [], Option, is_some, IfOk};
ghost use Rattle.std.specs.Option.{option_copied};
ghost use Rattle.utopist_syntax.specs.declared.item.VarKind.{VarKind};
ghost use Rattle.concept_rules.specs.Overlap.{left_paths, is_overlapping as overlaps};
ghost use Rattle.concept_rules.specs.BindRules.{known_path, are_other_kinds as have_other_kinds, bind_fault, binds_fault};
ghost use Rattle.concept_rules.specs.Checks.{Checks};
ghost use Rattle.concept_rules.specs.steps.Points.{AtEachExtent, AtEachPoint};

use crate::fault::{ModelFault, Rule, UnfoldFault};
use crate::kinds::{Seen, is_same_kind, kind_along, kind_of_path};
use crate::line::Line;
use crate::overlap::is_bound_inside;
use crate::path_rules::broken_on;
use name_sets::PathSet;
use std::alloc::Global;
use utopist_syntax::{Bind, Name, VarKind};

/// The type of an item's variables, and their bindings.
#[derive(Clone, Copy)]
pub(crate) struct Typed<'s, 'a> {
    pub kind: &'s VarKind<'a>,
    pub binds: &'s [Bind<'a>],
}

/// The type of an item's variables, and those of its paths that were bound.
#[derive(Clone, Copy)]
struct Bound<'s, 'p, 'a> {
    kind: &'s VarKind<'a>,
    paths: &'p PathSet<'a>,
}

/// Checks the bindings of an item's variables, and gives their left paths.
pub(crate) fn check_binds<'s, 'a>(
    alloc: Global,
    seen: &Seen<'s, 'a>,
    here: &Line,
    variables: &Typed<'s, 'a>,
) -> Result<PathSet<'a>, UnfoldFault>
    ensures rules { AtEachPoint seen.now here.now (λ f before. Checks
        (binds_fault f.before before variables.now.kind.now [] variables.now.binds.now) result) }
    ensures bound { IfOk result (λ paths. paths ≡ left_paths variables.now.binds.now) }
{
    let mut paths = PathSet::new(alloc);
    for bind in variables.binds {
        let bound = Bound {
            kind: variables.kind,
            paths: &paths,
        };
        check_bind(seen, here, &bound, bind)?;
        paths.add(bind.left.parts.as_slice())?;
    }
    Ok(paths)
}

fn check_bind<'s, 'a>(
    seen: &Seen<'s, 'a>,
    here: &Line,
    bound: &Bound<'s, '_, 'a>,
    bind: &Bind<'a>,
) -> Result<(), ModelFault>
    ensures { AtEachPoint seen.now here.now (λ f before. result
        ≡ bind_fault f.before before bound.now.kind.now bound.now.paths.now bind.now) }
{
    let left = bind.left.parts.as_slice();
    let right = bind.right.parts.as_slice();
    let left_kind = kind_along(seen, bound.kind, left);
    expect_known(left, left_kind.is_some())?;
    let right_kind = kind_of_path(seen, here, right);
    if is_overlapping(seen, bound, left) || are_other_kinds(left_kind, right_kind) {
        return Err(broken_on(left, Rule::BadBinding));
    }
    expect_known(right, right_kind.is_some())
}

fn expect_known(names: &[Name], is_known: bool) -> Result<(), ModelFault>
    ensures { (kind : Option VarKind) → is_known ≡ is_some kind
        → result ≡ known_path names.now kind }
{
    if !is_known {
        return Err(broken_on(names, Rule::UnknownPath));
    }
    Ok(())
}

fn is_overlapping<'s, 'a>(seen: &Seen<'s, 'a>, bound: &Bound<'s, '_, 'a>, left: &[Name]) -> bool
    ensures { AtEachExtent seen.now (λ f. result
        ≡ overlaps f.before bound.now.kind.now bound.now.paths.now left.now) }
{
    bound.paths.clashes(left) || is_bound_inside(seen, bound.kind, left)
}

fn are_other_kinds(kind: Option<&VarKind>, other: Option<&VarKind>) -> bool
    ensures { result ≡ have_other_kinds (option_copied kind.entry) (option_copied other.entry) }
{
    match (kind, other) {
        (Some(kind), Some(other)) => !is_same_kind(kind, other),
        _ => false,
    }
}
