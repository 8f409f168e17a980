//! What a concept has from its parents.
ghost use Rattle.std.specs.Prelude.{◌≡◌, ◌<◌, [], map, fold, All, Contains, IfOk, OnOk};
ghost use Rattle.std.specs.List.{list_any};
ghost use Rattle.name_sets.specs.Paths.{texts};
ghost use Rattle.utopist_syntax.specs.FileTree.{item_tree};
ghost use Rattle.concept_rules.specs.Declarations.{is_declared as is_declared_by, declared as declared_names};
ghost use Rattle.concept_rules.specs.Lineage.{take_concept as with_concept, take_parent as with_parent, lineage, ancestors};
ghost use Rattle.concept_rules.specs.ConceptRules.{share_name, brings_name, brings_names, new_items, parent_fault, parents_fault};
ghost use Rattle.concept_rules.specs.Checks.{Checks};
ghost use Rattle.concept_rules.specs.steps.Extent.{concept_of, own_items, IsLine};
ghost use Rattle.concept_rules.specs.steps.Points.{AtEachExtent, AtEachPoint, AtEachLine};

use crate::fault::{Rule, UnfoldFault};
use crate::kinds::{Seen, is_declared};
use crate::line::Line;
use crate::path_rules::broken_at;
use sqlite_items::at;
use std::alloc::Global;
use utopist_syntax::{Item, Name};

/// The ancestors of a concept with these parents.
pub(crate) fn line_of_parents(
    alloc: Global,
    seen: &Seen,
    parents: &[Name],
) -> Result<Line, UnfoldFault>
    ensures rules { AtEachExtent seen.now (λ f.
        Checks (parents_fault f.before [] parents.now) result) }
    ensures line { IfOk result (λ line. AtEachExtent seen.now (λ f.
        IsLine f.all f.concept line (ancestors f.before parents.now))) }
{
    let mut taken = Line::new(alloc);
    for parent in parents {
        take_parent(seen, &mut taken, parent)?;
    }
    Ok(taken)
}

fn take_parent(seen: &Seen, taken: &mut Line, parent: &Name) -> Result<(), UnfoldFault>
    ensures rules { AtEachLine seen.now taken.old (λ f concepts.
        Checks (parent_fault f.before concepts parent.now) result) }
    ensures line { OnOk result (AtEachLine seen.now taken.old (λ f concepts.
        IsLine f.all f.concept taken.new (with_parent (lineage f.before) concepts parent.now))) }
{
    match seen.checked.line(parent.text()) {
        Some(line) => take_line(seen, taken, line.concepts(), parent),
        None => Err(UnfoldFault::Model(broken_at(parent, Rule::UnknownConcept))),
    }
}

fn take_line(seen: &Seen, taken: &mut Line, line: &[u32], parent: &Name) -> Result<(), UnfoldFault>
    requires { All (λ n. n < 1024) line.now }
    ensures rules { AtEachLine seen.now taken.old (λ f concepts. All (λ n. n < f.concept) line.now
        → Checks (new_items parent.now
        (brings_names concepts (map (concept_of f.all) line.now))) result) }
    ensures line { OnOk result (AtEachLine seen.now taken.old (λ f concepts.
        All (λ n. n < f.concept) line.now → IsLine f.all f.concept taken.new
        (fold with_concept concepts (map (concept_of f.all) line.now)))) }
{
    for concept in line {
        take_concept(seen, taken, *concept, parent)?;
    }
    Ok(())
}

fn take_concept(
    seen: &Seen,
    taken: &mut Line,
    concept: u32,
    parent: &Name,
) -> Result<(), UnfoldFault>
    requires { concept < 1024 }
    ensures rules { AtEachLine seen.now taken.old (λ f concepts. concept < f.concept
        → Checks (new_items parent.now (brings_name concepts (concept_of f.all concept))) result) }
    ensures line { OnOk result (AtEachLine seen.now taken.old (λ f concepts. concept < f.concept
        → IsLine f.all f.concept taken.new (with_concept concepts (concept_of f.all concept)))) }
{
    if taken.has(concept) {
        return Ok(());
    }
    if shares_name(seen, &*taken, concept) {
        return Err(UnfoldFault::Model(broken_at(parent, Rule::DuplicateName)));
    }
    taken.push(concept)?;
    Ok(())
}

// Whether an item of the concept declares a name that an item of these concepts declares.
fn shares_name(seen: &Seen, taken: &Line, concept: u32) -> bool
    requires { ¬ Contains taken.now concept }
    ensures { AtEachPoint seen.now taken.now (λ f before.
        result ≡ share_name (own_items f.all concept) before) }
{
    if seen.checked.has_together(concept, taken) {
        return false;
    }
    match at(seen.concepts, concept as usize) {
        Some(concept) => items_share_name(seen, taken, concept.items.as_slice()),
        None => false,
    }
}

fn items_share_name(seen: &Seen, taken: &Line, items: &[Item]) -> bool
    ensures { AtEachPoint seen.now taken.now (λ f before.
        result ≡ share_name (map item_tree items.now) before) }
{
    for item in items {
        if item_shares_name(seen, taken, item) {
            return true;
        }
    }
    false
}

fn item_shares_name(seen: &Seen, taken: &Line, item: &Item) -> bool
    ensures { AtEachPoint seen.now taken.now (λ f before.
        result ≡ list_any (is_declared_by before) (declared_names (item_tree item.now))) }
{
    match item {
        Item::Var { names, .. } => is_one_declared(seen, taken, names.as_slice()),
        Item::Eq { .. } => false,
        Item::Rel { name, .. } => is_declared(seen, taken, name.text()),
    }
}

fn is_one_declared(seen: &Seen, taken: &Line, names: &[Name]) -> bool
    ensures { AtEachPoint seen.now taken.now (λ f before.
        result ≡ list_any (is_declared_by before) (texts names.now)) }
{
    for name in names {
        if is_declared(seen, taken, name.text()) {
            return true;
        }
    }
    false
}
