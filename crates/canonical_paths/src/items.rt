//! The variables of items.
ghost use Rattle.std.specs.Prelude.{◌≡◌, ◌∷◌, ℕ, [], map, slice_get, OnOk};
ghost use Rattle.utopist_syntax.specs.FileTree.{item_tree};
ghost use Rattle.canonical_paths.specs.steps.PathLists.{ForEachLists, AreClosed, HasGrown};
ghost use Rattle.canonical_paths.specs.steps.Kinds.{IsKindBelow};
ghost use Rattle.canonical_paths.specs.steps.Ready.{IsNumbered, HasNumber, KindStands, TakesVariables, TakesItems, ItemsNext, VariablesNext};

use crate::aliases::add_component;
use crate::layout::Layout;
use concept_rules::Lineages;
use priz_base::NoMem;
use std::alloc::Global;
use utopist_syntax::{Bind, Item, Name, VarKind};

/// Adds the variables of these items to their concept so far. Layouts stand in the order of the
/// concepts.
pub(crate) fn add_items<'a>(
    alloc: Global,
    lineages: &Lineages<'a>,
    layouts: &[Layout<'a>],
    so_far: &mut Layout<'a>,
    items: &[Item<'a>],
) -> Result<(), NoMem>
    requires next { ItemsNext lineages.now.names layouts.now so_far.old (map item_tree items.now) }
    requires closed { AreClosed layouts.now }
    ensures { OnOk result
        (TakesItems lineages.now.names layouts.now so_far.old so_far.new (map item_tree items.now)) }
{
    for item in items {
        add_item(alloc, lineages, layouts, so_far, item)?;
    }
    Ok(())
}

fn add_item<'a>(
    alloc: Global,
    lineages: &Lineages<'a>,
    layouts: &[Layout<'a>],
    so_far: &mut Layout<'a>,
    item: &Item<'a>,
) -> Result<(), NoMem>
    requires next { ItemsNext lineages.now.names layouts.now so_far.old (item_tree item.now ∷ []) }
    requires closed { AreClosed layouts.now }
    ensures { OnOk result
        (TakesItems lineages.now.names layouts.now so_far.old so_far.new (item_tree item.now ∷ [])) }
{
    match item {
        Item::Var {
            names: variables,
            kind,
            binds,
        } => {
            let concept = number_of_kind(lineages, kind);
            add_variables(
                alloc,
                layouts,
                so_far,
                variables.as_slice(),
                concept,
                binds.as_slice(),
            )
        }
        Item::Eq { .. } => Ok(()),
        Item::Rel { .. } => Ok(()),
    }
}

// The number of the concept that a component's type is; none for a number.
fn number_of_kind(lineages: &Lineages, kind: &VarKind) -> Option<u32>
    requires { HasNumber lineages.now.names kind.now }
    ensures { (count : ℕ) → KindStands lineages.now.names count kind.now
        → IsKindBelow lineages.now.names count kind.now result }
{
    match kind {
        VarKind::Numeric => None,
        VarKind::Of(name) => Some(number_of_name(lineages, name)),
    }
}

fn number_of_name(lineages: &Lineages, name: &Name) -> u32
    requires { IsNumbered lineages.now.names name.now.text }
    ensures { slice_get lineages.now.names result ≡ Some name.now.text }
{
    lineages.number(name.text()).unwrap() as u32
}

fn add_variables<'a>(
    alloc: Global,
    layouts: &[Layout<'a>],
    so_far: &mut Layout<'a>,
    variables: &[Name<'a>],
    concept: Option<u32>,
    binds: &[Bind<'a>],
) -> Result<(), NoMem>
    requires next { VariablesNext layouts.now so_far.old variables.now concept binds.now }
    requires closed { AreClosed layouts.now }
    ensures { OnOk result
        (TakesVariables layouts.now so_far.old so_far.new variables.now concept binds.now) }
{
    for name in variables {
        add_variable(alloc, layouts, so_far, name, concept, binds)?;
    }
    Ok(())
}

fn add_variable<'a>(
    alloc: Global,
    layouts: &[Layout<'a>],
    so_far: &mut Layout<'a>,
    name: &Name<'a>,
    concept: Option<u32>,
    binds: &[Bind<'a>],
) -> Result<(), NoMem>
    requires next { VariablesNext layouts.now so_far.old (name.now ∷ []) concept binds.now }
    requires closed { AreClosed layouts.now }
    ensures { OnOk result (ForEachLists layouts.now so_far.old (λ w.
        HasGrown w layouts.now so_far.old so_far.new name.now.text concept binds.now)) }
{
    match concept {
        None => so_far.add(alloc, name.text(), None, &[], &[]),
        Some(c) => add_component(alloc, layouts, so_far, name, c, binds),
    }
}
