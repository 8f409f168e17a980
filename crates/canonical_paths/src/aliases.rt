//! What bindings bind, by numbers.
ghost use Rattle.std.specs.Prelude.{◌≡◌, ◌<◌, ◌≤◌, ◌∷◌, [], List, Some, length, IfOk, IfSome, OnOk};
ghost use Rattle.canonical_paths.specs.PathNames.{PathNames};
ghost use Rattle.canonical_paths.specs.Limits.{max_declared};
ghost use Rattle.canonical_paths.specs.steps.Layouts.{AreLayouts, inner_paths};
ghost use Rattle.canonical_paths.specs.steps.PathLists.{ForEachLists, AreClosed, IsAliasOf, AreAliasesOf, HasGrown};
ghost use Rattle.canonical_paths.specs.steps.Ready.{AreSmall, BindsNext, VariablesNext};

use crate::layout::{Layout, find};
use crate::tables::Alias;
use priz_base::NoMem;
use std::alloc::Global;
use utopist_syntax::{Bind, Name};

/// What a binding of a component of this type binds: both of its sides have one type.
fn alias_of(layouts: &[Layout], so_far: &Layout, concept: u32, bind: &Bind) -> Alias
    requires next { BindsNext layouts.now so_far.now concept (bind.now ∷ []) }
    requires concept { concept < length layouts.now }
    ensures { ForEachLists layouts.now so_far.now (λ w.
        IsAliasOf w (inner_paths w.concepts (Some concept)) bind.now result) }
{
    if bind.left.parts.as_slice().is_empty() {
        alias_of_all(layouts, so_far, concept, bind)
    } else {
        alias_inside(layouts, so_far, concept, bind)
    }
}

// A binding without a left path binds all that is inside of the component.
fn alias_of_all(layouts: &[Layout], so_far: &Layout, concept: u32, bind: &Bind) -> Alias
    requires next { BindsNext layouts.now so_far.now concept (bind.now ∷ []) }
    requires concept { concept < length layouts.now }
    requires all { bind.now.left.parts ≡ [] }
    ensures { ForEachLists layouts.now so_far.now (λ w.
        IsAliasOf w (inner_paths w.concepts (Some concept)) bind.now result) }
{
    let right = find(layouts, so_far, bind.right.parts.as_slice()).unwrap();
    Alias {
        left: 0,
        size: count_inside(layouts, Some(concept)),
        right: right.at + 1,
    }
}

fn alias_inside(layouts: &[Layout], so_far: &Layout, concept: u32, bind: &Bind) -> Alias
    requires next { BindsNext layouts.now so_far.now concept (bind.now ∷ []) }
    requires concept { concept < length layouts.now }
    requires some { 0 < length bind.now.left.parts }
    ensures { ForEachLists layouts.now so_far.now (λ w.
        IsAliasOf w (inner_paths w.concepts (Some concept)) bind.now result) }
{
    let component = &layouts[concept as usize];
    let left = find(layouts, component, bind.left.parts.as_slice()).unwrap();
    let right = find(layouts, so_far, bind.right.parts.as_slice()).unwrap();
    Alias {
        left: left.at,
        size: count_inside(layouts, left.concept) + 1,
        right: right.at,
    }
}

// How many paths there are inside of a variable of this type.
fn count_inside(layouts: &[Layout], concept: Option<u32>) -> u32
    requires concept { IfSome concept (λ c. c < length layouts.now) }
    requires small { AreSmall layouts.now }
    ensures count { (concepts : List (List PathNames)) → AreLayouts concepts layouts.now
        → result ≡ length (inner_paths concepts concept) }
    ensures few { result ≤ max_declared }
{
    match concept {
        None => 0,
        Some(c) => layouts[c as usize].len(),
    }
}

/// What the bindings of a component of this type bind, in order.
fn aliases_of(
    alloc: Global,
    layouts: &[Layout],
    so_far: &Layout,
    concept: u32,
    binds: &[Bind],
) -> Result<Vec<Alias>, NoMem>
    requires next { BindsNext layouts.now so_far.now concept binds.now }
    requires concept { concept < length layouts.now }
    ensures { IfOk result (λ v. ForEachLists layouts.now so_far.now (λ w.
        AreAliasesOf w (inner_paths w.concepts (Some concept)) binds.now v.items)) }
{
    let mut aliases = Vec::new(alloc);
    for bind in binds {
        aliases.push(alias_of(layouts, so_far, concept, bind))?;
    }
    Ok(aliases)
}

/// Adds a component to the concept so far.
pub(crate) fn add_component<'a>(
    alloc: Global,
    layouts: &[Layout<'a>],
    so_far: &mut Layout<'a>,
    name: &Name<'a>,
    concept: u32,
    binds: &[Bind<'a>],
) -> Result<(), NoMem>
    requires next { VariablesNext layouts.now so_far.old (name.now ∷ []) (Some concept) binds.now }
    requires closed { AreClosed layouts.now }
    ensures { OnOk result (ForEachLists layouts.now so_far.old (λ w.
        HasGrown w layouts.now so_far.old so_far.new name.now.text (Some concept) binds.now)) }
{
    let component = &layouts[concept as usize];
    let aliases = aliases_of(alloc, layouts, &*so_far, concept, binds)?;
    so_far.add(
        alloc,
        name.text(),
        Some(concept),
        aliases.as_slice(),
        component.table(),
    )
}
