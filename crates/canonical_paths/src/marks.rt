//! Which concepts are reached from one.
ghost use Rattle.std.specs.Prelude.{◌≡◌, ◌∷◌, [], ◌<◌, ℕ, suc, List, map, length, slice_get, All, Some, Ok, IfOk};
ghost use Rattle.utopist_syntax.specs.declared.item.Bind.{Bind};
ghost use Rattle.utopist_syntax.specs.FileTree.{var, item_tree, concept_tree};
ghost use Rattle.concept_rules.specs.Lineages.{AreLineages};
ghost use Rattle.concept_rules.specs.ConceptRules.{concepts_fault};
ghost use Rattle.canonical_paths.specs.Components.{HasFewPaths};
ghost use Rattle.canonical_paths.specs.steps.Settings.{items_of_line};
ghost use Rattle.canonical_paths.specs.steps.Ready.{StandOnce};
ghost use Rattle.canonical_paths.specs.steps.Marks.{IsTypeOf, MarksMore, IsOnlyMark, AreMarkedFrom, AreMarked};

use concept_rules::Lineages;
use priz_base::NoMem;
use sqlite_items::Items;
use std::alloc::Global;
use utopist_syntax::{Concept, Item, Name, VarKind};

/// Marks what is reached from the asked concept: itself, and the types of the components of what is marked. They stand
/// before it.
pub(crate) fn reached_from(
    alloc: Global,
    concepts: &[Concept],
    lineages: &Lineages,
    asked: u32,
) -> Result<Items<bool>, NoMem>
    requires kept { concepts_fault [] (map concept_tree concepts.now) ≡ Ok tt }
    requires lineages { AreLineages (map concept_tree concepts.now) lineages.now }
    requires asked { asked < length concepts.now }
    requires few { HasFewPaths (map concept_tree concepts.now) asked }
    ensures { IfOk result (AreMarked (map concept_tree concepts.now) asked) }
{
    let count = asked as usize + 1;
    let mut marks = one_mark(alloc, asked)?;
    for done in 0..count {
        mark_behind(concepts, lineages, count - 1 - done, &mut marks);
    }
    Ok(marks)
}

// Marks up to this one, which alone is set.
fn one_mark(alloc: Global, asked: u32) -> Result<Items<bool>, NoMem>
    ensures { IfOk result (IsOnlyMark asked) }
{
    let mut marks = Items::new(alloc);
    for _place in 0..asked {
        marks.push(false)?;
    }
    marks.push(true)?;
    Ok(marks)
}

// Marks the types of the components of a concept, if it is marked.
fn mark_behind(concepts: &[Concept], lineages: &Lineages, at: usize, marks: &mut Items<bool>)
    requires kept { concepts_fault [] (map concept_tree concepts.now) ≡ Ok tt }
    requires lineages { AreLineages (map concept_tree concepts.now) lineages.now }
    requires at { at < length concepts.now }
    requires marks { at < length marks.old }
    ensures { (asked : ℕ) → AreMarkedFrom (map concept_tree concepts.now) asked (suc at) marks.old
        → AreMarkedFrom (map concept_tree concepts.now) asked at marks.new }
{
    if marks.as_slice()[at] {
        mark_line(concepts, lineages, lineages.line_of(at), marks);
    }
}

fn mark_line(concepts: &[Concept], lineages: &Lineages, line: &[u32], marks: &mut Items<bool>)
    requires line { All (λ n. n < length concepts.now) line.now }
    requires once { StandOnce lineages.now.names }
    ensures { MarksMore (IsTypeOf lineages.now.names
        (items_of_line (map concept_tree concepts.now) line.now)) marks.old marks.new }
{
    for which in line {
        let concept = &concepts[*which as usize];
        mark_items(lineages, concept.items.as_slice(), marks);
    }
}

fn mark_items(lineages: &Lineages, items: &[Item], marks: &mut Items<bool>)
    requires { StandOnce lineages.now.names }
    ensures { MarksMore (IsTypeOf lineages.now.names (map item_tree items.now)) marks.old marks.new }
{
    for item in items {
        mark_item(lineages, item, marks);
    }
}

fn mark_item(lineages: &Lineages, item: &Item, marks: &mut Items<bool>)
    requires { StandOnce lineages.now.names }
    ensures { MarksMore (IsTypeOf lineages.now.names (item_tree item.now ∷ []))
        marks.old marks.new }
{
    match item {
        Item::Var { names, kind, .. } => mark_kind(lineages, names.as_slice(), kind, marks),
        Item::Eq { .. } => {}
        Item::Rel { .. } => {}
    }
}

// Variables without a name are no components.
fn mark_kind(lineages: &Lineages, names: &[Name], kind: &VarKind, marks: &mut Items<bool>)
    requires { StandOnce lineages.now.names }
    ensures { (binds : List Bind) → MarksMore
        (IsTypeOf lineages.now.names (var names.now kind.now binds ∷ [])) marks.old marks.new }
{
    match kind {
        VarKind::Numeric => {}
        VarKind::Of(name) => {
            if !names.is_empty() {
                mark_name(lineages, name, marks);
            }
        }
    }
}

fn mark_name(lineages: &Lineages, name: &Name, marks: &mut Items<bool>)
    requires { StandOnce lineages.now.names }
    ensures { MarksMore (λ n. slice_get lineages.now.names n ≡ Some name.now.text)
        marks.old marks.new }
{
    if let Some(number) = lineages.number(name.text()) {
        if number < marks.len() {
            marks.set(number, true);
        }
    }
}
