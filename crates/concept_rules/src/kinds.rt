//! Which paths are known, and their types.
ghost use Rattle.std.specs.Prelude.{◌≡◌, option_map, option_and_then};
ghost use Rattle.std.specs.Option.{option_copied};
ghost use Rattle.concept_rules.specs.Declarations.{is_declared, variable as variable_named};
ghost use Rattle.concept_rules.specs.Kinds.{variable_in as variable_inside, kind_along as kind_from, kind_of_path as kind_behind, is_same_kind as are_same_kind};
ghost use Rattle.concept_rules.specs.steps.Variables.{outline, outline_found};
ghost use Rattle.concept_rules.specs.steps.Extent.{item_standing, outline_standing};
ghost use Rattle.concept_rules.specs.steps.Points.{AtEachExtent, AtEachPoint};

use crate::declarations::{Declaration, Declarations};
use crate::line::Line;
use crate::lineages::Lineages;
use name_sets::PathSet;
use sqlite_items::at;
use utopist_syntax::{Concept, Item, Name, VarKind};

/// The concepts of a file, and what was found in its first part.
#[derive(Clone, Copy)]
pub(crate) struct Seen<'s, 'a> {
    pub concepts: &'s [Concept<'a>],
    pub checked: &'s Lineages<'a>,
    pub declared: &'s Declarations<'a>,
}

/// The type of a variable, and the left paths of its bindings, if it has any.
#[derive(Clone, Copy)]
pub(crate) struct Known<'s, 'a> {
    pub kind: &'s VarKind<'a>,
    pub bound: Option<&'s PathSet<'a>>,
}

/// Whether an item before this point declares the name.
pub(crate) fn is_declared(seen: &Seen, here: &Line, name: &str) -> bool
    ensures { AtEachPoint seen.now here.now (λ f before. result ≡ is_declared before name.now) }
{
    seen.declared.find(here, name).is_some()
}

/// The variable of these concepts that has the name.
fn variable<'s, 'a>(seen: &Seen<'s, 'a>, among: &Line, name: &str) -> Option<Known<'s, 'a>>
    ensures { AtEachPoint seen.now among.now (λ f before.
        outline_found result ≡ option_map outline (variable_named before name.now)) }
{
    match seen.declared.find(among, name) {
        Some(found) => variable_at(seen, found),
        None => None,
    }
}

fn variable_at<'s, 'a>(seen: &Seen<'s, 'a>, found: Declaration) -> Option<Known<'s, 'a>>
    ensures { outline_found result
        ≡ outline_standing seen.now.concepts.now seen.now.declared.now found }
{
    match item_at(seen.concepts, found) {
        Some(Item::Var { kind, .. }) => Some(Known {
            kind,
            bound: seen.declared.bound(found),
        }),
        _ => None,
    }
}

fn item_at<'s, 'a>(concepts: &'s [Concept<'a>], found: Declaration) -> Option<&'s Item<'a>>
    ensures { option_copied result ≡ item_standing concepts.now found.concept found.item }
{
    match at(concepts, found.concept as usize) {
        Some(concept) => concept.items.get(found.item),
        None => None,
    }
}

/// The variable inside a type that has the name.
fn variable_in<'s, 'a>(seen: &Seen<'s, 'a>, kind: &VarKind, name: &str) -> Option<Known<'s, 'a>>
    ensures { AtEachExtent seen.now (λ f.
        outline_found result ≡ option_map outline (variable_inside f.before kind.now name.now)) }
{
    match kind {
        VarKind::Numeric => None,
        VarKind::Of(concept) => match seen.checked.line(concept.text()) {
            Some(line) => variable(seen, line, name),
            None => None,
        },
    }
}

/// The type of a path that begins inside a type, where it is known.
pub(crate) fn kind_along<'s, 'a>(
    seen: &Seen<'s, 'a>,
    kind: &'s VarKind<'a>,
    segments: &[Name],
) -> Option<&'s VarKind<'a>>
    ensures { AtEachExtent seen.now (λ f.
        option_copied result ≡ kind_from f.before kind.now segments.now) }
{
    let mut inside = Some(kind);
    for segment in segments {
        inside = kind_of(variable_within(seen, inside, segment.text()));
    }
    inside
}

/// The variable inside a type, if there is one, that has the name.
pub(crate) fn variable_within<'s, 'a>(
    seen: &Seen<'s, 'a>,
    kind: Option<&'s VarKind<'a>>,
    name: &str,
) -> Option<Known<'s, 'a>>
    ensures { AtEachExtent seen.now (λ f. outline_found result ≡ option_map outline
        (option_and_then (λ k. variable_inside f.before k name.now) (option_copied kind.entry))) }
{
    match kind {
        Some(kind) => variable_in(seen, kind, name),
        None => None,
    }
}

/// The type of a variable, if there is one.
pub(crate) fn kind_of<'s, 'a>(variable: Option<Known<'s, 'a>>) -> Option<&'s VarKind<'a>>
    ensures { option_copied result ≡ option_map (λ o. o.kind) (outline_found variable.entry) }
{
    match variable {
        Some(variable) => Some(variable.kind),
        None => None,
    }
}

/// The type of a path before this point, where it is known.
pub(crate) fn kind_of_path<'s, 'a>(
    seen: &Seen<'s, 'a>,
    here: &Line,
    path: &[Name],
) -> Option<&'s VarKind<'a>>
    ensures { AtEachPoint seen.now here.now (λ f before.
        option_copied result ≡ kind_behind f.before before path.now) }
{
    match path {
        [first, rest @ ..] => match variable(seen, here, first.text()) {
            Some(variable) => kind_along(seen, variable.kind, rest),
            None => None,
        },
        [] => None,
    }
}

/// Whether both are numeric, or both the same concept.
pub(crate) fn is_same_kind(kind: &VarKind, other: &VarKind) -> bool
    ensures { result ≡ are_same_kind kind.now other.now }
{
    match (kind, other) {
        (VarKind::Numeric, VarKind::Numeric) => true,
        (VarKind::Of(concept), VarKind::Of(same)) => concept.text() == same.text(),
        _ => false,
    }
}
