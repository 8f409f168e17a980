//! What a walk has found so far.
ghost use Rattle.std.specs.Prelude.{◌≡◌, ◌++◌, ◌∷◌, [], ◌<◌, Contains, Some, slice_get, OnOk};
ghost use Rattle.statement_set.specs.Problem.{var_count, empty_task};
ghost use Rattle.utopist_syntax.specs.FileTree.{item_tree};
ghost use Rattle.concept_walk.specs.Limits.{max_variables};
ghost use Rattle.concept_walk.specs.Dotted.{dotted};
ghost use Rattle.concept_walk.specs.Visits.{Visit, variable, item_visit};
ghost use Rattle.concept_walk.specs.steps.Trails.{trail_path};
ghost use Rattle.concept_walk.specs.Walks.{IsWalk, Stops, items_in, paths_in};
ghost use Rattle.concept_walk.specs.steps.Bringing.{IsComponent, AreNext, Bring};

use crate::trail::dotted_name;
use crate::walk::{Component, Walk};
use concept_rules::{Limit, Rule, UnfoldFault, broken_at};
use priz_base::NoMem;
use sqlite_items::Items;
use statement_set::Problem;
use std::alloc::Global;
use utopist_syntax::{Item, Name};

const MAX_VARIABLES: u32 = 1024;

/// A problem has no more equations and relations than it may have nodes.
const MAX_ITEMS: usize = 262_144;

/// An equation or a relation in a component, of which the concept's number and the number of the first path inside of it
/// are given.
#[derive(Clone, Copy)]
pub struct Met<'t, 'a> {
    pub concept: u32,
    pub start: u32,
    pub item: &'t Item<'a>,
}

/// The variables by their names and by the numbers of their paths, and the equations and relations. Of these, one more
/// than a problem may have is kept, and no further one.
#[derive(Drop)]
pub struct Walked<'t, 'a> {
    pub problem: Problem,
    pub variables: Items<u32>,
    pub items: Items<Met<'t, 'a>>,
}

impl<'t, 'a> Walked<'t, 'a> {
    /// What has found nothing. Takes no memory.
    pub(crate) fn new(alloc: Global) -> Walked<'t, 'a>
        ensures problem { result.problem ≡ empty_task }
        ensures variables { result.variables ≡ [] }
        ensures items { result.items ≡ [] }
    {
        Walked {
            problem: Problem::new(alloc),
            variables: Items::new(alloc),
            items: Items::new(alloc),
        }
    }
}

/// Adds a numeric variable of a component, whose path has this number.
pub(crate) fn add_variable(
    alloc: Global,
    walk: &Walk,
    component: &Component,
    name: &Name,
    number: u32,
    found: &mut Walked,
) -> Result<(), UnfoldFault>
    requires walk { IsWalk walk.now }
    requires number { slice_get (paths_in walk.now walk.now.asked) number
        ≡ Some (trail_path component.now.trail.now ++ name.now.text ∷ []) }
    requires next { AreNext walk.now
        (variable (trail_path component.now.trail.now ++ name.now.text ∷ []) ∷ []) found.old }
    ensures visits { OnOk result (Bring walk.now
        (variable (trail_path component.now.trail.now ++ name.now.text ∷ []) ∷ [])
        found.old found.new) }
    ensures stops { Stops walk.now result }
{
    if found.problem.vars() >= MAX_VARIABLES {
        let fault = broken_at(walk.named, Rule::TooMany(Limit::Variables));
        return Err(UnfoldFault::Model(fault));
    }
    note_variable(alloc, component, name, number, found)?;
    Ok(())
}

fn note_variable(
    alloc: Global,
    component: &Component,
    name: &Name,
    number: u32,
    found: &mut Walked,
) -> Result<(), NoMem>
    requires room { var_count found.old.problem < max_variables }
    requires fresh { ¬ Contains found.old.problem.names
        (dotted (trail_path component.now.trail.now ++ name.now.text ∷ [])) }
    ensures problem { OnOk result (found.new.problem ≡ record found.old.problem {
      names = found.old.problem.names
          ++ dotted (trail_path component.now.trail.now ++ name.now.text ∷ []) ∷ [];
    }) }
    ensures variables { OnOk result (found.new.variables ≡ found.old.variables ++ number ∷ []) }
    ensures items { OnOk result (found.new.items ≡ found.old.items) }
{
    let text = dotted_name(alloc, component.trail, name.text())?;
    found.problem.add_var(text.as_str())?;
    found.variables.push(number)?;
    Ok(())
}

/// Adds an equation or a relation of a component, unless there are too many.
pub(crate) fn meet<'t, 'a>(
    walk: &Walk,
    component: &Component,
    item: &'t Item<'a>,
    found: &mut Walked<'t, 'a>,
) -> Result<(), NoMem>
    requires component { IsComponent walk.now component.now }
    requires own { Contains (items_in walk.now component.now.concept) (item_tree item.now) }
    ensures { (v : Visit)
        → item_visit (trail_path component.now.trail.now) (item_tree item.now) ≡ Some v
        → OnOk result (Bring walk.now (v ∷ []) found.old found.new) }
{
    let _ = walk;
    if found.items.len() <= MAX_ITEMS {
        found.items.push(Met {
            concept: component.concept,
            start: component.start,
            item,
        })?;
    }
    Ok(())
}
