//! The walk of a concept: its items and those of its components, where their paths are canonical.
ghost use Rattle.std.specs.Prelude.{◌≡◌, ◌<◌, ◌++◌, ◌∷◌, [], map, length, IfOk, OnOk};
ghost use Rattle.utopist_syntax.specs.declared.item.VarKind.{VarKind};
ghost use Rattle.utopist_syntax.specs.FileTree.{item_tree};
ghost use Rattle.concept_walk.specs.steps.Trails.{trail_path};
ghost use Rattle.concept_walk.specs.Walks.{IsWalk, Stops, AreFound, whole_walk};
ghost use Rattle.concept_walk.specs.steps.Bringing.{IsComponent, AreItems, AreVariablesOf, IsVariable, AreNext, Bring, component_visits, visits_at, visits_of};

use crate::found::{Walked, add_variable, meet};
use crate::trail::Trail;
use canonical_paths::Layouts;
use concept_rules::{Lineages, UnfoldFault};
use std::alloc::Global;
use utopist_syntax::{Concept, Item, Name, VarKind};

/// The concepts of a file, and what was laid out for the one that is asked.
#[derive(Clone, Copy)]
pub struct Walk<'t, 'a> {
    pub concepts: &'t [Concept<'a>],
    pub lineages: &'t Lineages<'a>,
    pub layouts: &'t Layouts<'a>,
    pub asked: u32,
    /// Where a limit is named.
    pub named: &'t Name<'a>,
}

/// Walks through the asked concept, and finds the variables of its problem, its equations and its relations.
pub fn walk_concept<'t, 'a>(
    alloc: Global,
    walk: &Walk<'t, 'a>,
) -> Result<Walked<'t, 'a>, UnfoldFault>
    requires { IsWalk walk.now }
    ensures found { IfOk result (AreFound walk.now (whole_walk walk.now)) }
    ensures stops { Stops walk.now result }
{
    let mut found = Walked::new(alloc);
    let trail = Trail::Outermost;
    let outermost = Component {
        concept: walk.asked,
        start: 0,
        trail: &trail,
    };
    walk_component(alloc, walk, &outermost, &mut found)?;
    Ok(found)
}

/// A component: the number of its concept, that of the first path inside of it, and its own path.
#[derive(Clone, Copy)]
pub(crate) struct Component<'c> {
    pub concept: u32,
    pub start: u32,
    pub trail: &'c Trail<'c>,
}

#[cycle(walk)]
fn walk_component<'t, 'a>(
    alloc: Global,
    walk: &Walk<'t, 'a>,
    component: &Component,
    found: &mut Walked<'t, 'a>,
) -> Result<(), UnfoldFault>
    requires walk { IsWalk walk.now }
    requires component { IsComponent walk.now component.now }
    requires next { AreNext walk.now
        (component_visits walk.now component.now.concept (trail_path component.now.trail.now))
        found.old }
    ensures visits { OnOk result (Bring walk.now
        (component_visits walk.now component.now.concept (trail_path component.now.trail.now))
        found.old found.new) }
    ensures stops { Stops walk.now result }
{
    for which in walk.lineages.line_of(component.concept as usize) {
        let concept = &walk.concepts[*which as usize];
        walk_items(alloc, walk, component, concept.items.as_slice(), found)?;
    }
    Ok(())
}

#[cycle(walk)]
fn walk_items<'t, 'a>(
    alloc: Global,
    walk: &Walk<'t, 'a>,
    component: &Component,
    items: &'t [Item<'a>],
    found: &mut Walked<'t, 'a>,
) -> Result<(), UnfoldFault>
    requires walk { IsWalk walk.now }
    requires component { IsComponent walk.now component.now }
    requires own { AreItems walk.now component.now.concept (map item_tree items.now) }
    requires next { AreNext walk.now
        (visits_at walk.now (trail_path component.now.trail.now) (map item_tree items.now))
        found.old }
    ensures visits { OnOk result (Bring walk.now
        (visits_at walk.now (trail_path component.now.trail.now) (map item_tree items.now))
        found.old found.new) }
    ensures stops { Stops walk.now result }
{
    for item in items {
        walk_item(alloc, walk, component, item, found)?;
    }
    Ok(())
}

#[cycle(walk)]
fn walk_item<'t, 'a>(
    alloc: Global,
    walk: &Walk<'t, 'a>,
    component: &Component,
    item: &'t Item<'a>,
    found: &mut Walked<'t, 'a>,
) -> Result<(), UnfoldFault>
    requires walk { IsWalk walk.now }
    requires component { IsComponent walk.now component.now }
    requires own { AreItems walk.now component.now.concept (item_tree item.now ∷ []) }
    requires next { AreNext walk.now
        (visits_at walk.now (trail_path component.now.trail.now) (item_tree item.now ∷ []))
        found.old }
    ensures visits { OnOk result (Bring walk.now
        (visits_at walk.now (trail_path component.now.trail.now) (item_tree item.now ∷ []))
        found.old found.new) }
    ensures stops { Stops walk.now result }
{
    match item {
        Item::Var { names, kind, .. } => {
            walk_variables(alloc, walk, component, kind, names.as_slice(), found)
        }
        Item::Eq { .. } | Item::Rel { .. } => Ok(meet(walk, component, item, found)?),
    }
}

#[cycle(walk)]
fn walk_variables<'t, 'a>(
    alloc: Global,
    walk: &Walk<'t, 'a>,
    component: &Component,
    kind: &VarKind,
    names: &[Name],
    found: &mut Walked<'t, 'a>,
) -> Result<(), UnfoldFault>
    requires walk { IsWalk walk.now }
    requires component { IsComponent walk.now component.now }
    requires own { AreVariablesOf walk.now component.now.concept kind.now names.now }
    requires next { AreNext walk.now
        (visits_of walk.now (trail_path component.now.trail.now) kind.now names.now) found.old }
    ensures visits { OnOk result (Bring walk.now
        (visits_of walk.now (trail_path component.now.trail.now) kind.now names.now)
        found.old found.new) }
    ensures stops { Stops walk.now result }
{
    for name in names {
        walk_variable(alloc, walk, component, kind, name, found)?;
    }
    Ok(())
}

#[cycle(walk)]
fn walk_variable<'t, 'a>(
    alloc: Global,
    walk: &Walk<'t, 'a>,
    component: &Component,
    kind: &VarKind,
    name: &Name,
    found: &mut Walked<'t, 'a>,
) -> Result<(), UnfoldFault>
    requires walk { IsWalk walk.now }
    requires component { IsComponent walk.now component.now }
    requires own { IsVariable walk.now component.now.concept kind.now name.now.text }
    requires next { AreNext walk.now
        (visits_of walk.now (trail_path component.now.trail.now) kind.now (name.now ∷ []))
        found.old }
    ensures visits { OnOk result (Bring walk.now
        (visits_of walk.now (trail_path component.now.trail.now) kind.now (name.now ∷ []))
        found.old found.new) }
    ensures stops { Stops walk.now result }
{
    let slot = walk
        .layouts
        .variable(component.concept, name.text())
        .unwrap();
    let number = component.start + slot.at;
    if walk.layouts.table(walk.asked)[number as usize] != number {
        return Ok(());
    }
    match kind {
        VarKind::Numeric => add_variable(alloc, walk, component, name, number, found),
        VarKind::Of(_) => {
            let trail = Trail::Inside {
                name: name.text(),
                around: component.trail,
            };
            let inside = Component {
                concept: slot.concept.unwrap(),
                start: number + 1,
                trail: &trail,
            };
            walk_component(alloc, walk, &inside, found)
        }
    }
}
