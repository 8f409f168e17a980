//! Where declared paths stand.
ghost use Rattle.std.specs.Prelude.{◌≡◌, ◌+◌, ◌<◌, ◌≤◌, ◌^◌, length, All, Contains, IfSome, IsSome, OnOk};
ghost use Rattle.name_sets.specs.Paths.{texts};
ghost use Rattle.utopist_syntax.specs.declared.item.VarKind.{VarKind};
ghost use Rattle.concept_rules.specs.Kinds.{kind_of_path};
ghost use Rattle.canonical_paths.specs.Limits.{max_declared};
ghost use Rattle.canonical_paths.specs.steps.Tables.{IsAliasIn};
ghost use Rattle.canonical_paths.specs.steps.Layouts.{no_variables, HasSlot, HasOneMore};
ghost use Rattle.canonical_paths.specs.steps.PathLists.{ForEachLists, IsComplete, IsSlotOf};
ghost use Rattle.canonical_paths.specs.steps.Kinds.{IsKindBelow, ForEachTypes};

use crate::slot::Slot;
use crate::tables::{Alias, add_entries};
use name_sets::NameSet;
use priz_base::NoMem;
use sqlite_items::{Items, at};
use std::alloc::Global;
use std::marker::Model;
use utopist_syntax::Name;

/// The variables of a concept by their names, and the table of its canonical paths.
#[derive(Drop)]
pub(crate) struct Layout<'a> {
    names: NameSet<'a>,
    slots: Items<Slot>,
    table: Items<u32>,
}

impl<'a> Model for Layout<'a> {
    ghost use Rattle.canonical_paths.specs.LaidOut.{LaidOut};

    ghost Value = { LaidOut };

    ghost view = { λ l. record { names = l.names; slots = l.slots; table = l.table } };
}

impl<'a> Layout<'a> {
    pub(crate) fn new(alloc: Global) -> Layout<'a>
        ensures { result ≡ no_variables }
    {
        Layout {
            names: NameSet::new(alloc),
            slots: Items::new(alloc),
            table: Items::new(alloc),
        }
    }

    /// Adds a variable: a number, or a component of a concept, of which the table is given, and
    /// what of it is bound.
    pub(crate) fn add(
        &mut self,
        alloc: Global,
        name: &'a str,
        concept: Option<u32>,
        aliases: &[Alias],
        inside: &[u32],
    ) -> Result<(), NoMem>
        requires fresh { ¬ Contains self.old.names name.now }
        requires room { length self.old.table + length inside.now + 1 < 2 ^ 32 }
        requires inside { All (λ n. n < length inside.now) inside.now }
        requires aliases { All (IsAliasIn (length inside.now) (length self.old.table)) aliases.now }
        ensures { OnOk result
            (HasOneMore self.old self.new name.now concept aliases.now inside.now) }
    {
        let at = self.table.len() as u32;
        add_entries(alloc, &mut self.table, aliases, inside)?;
        self.slots.push(Slot { at, concept })?;
        self.names.add(name)?;
        Ok(())
    }

    /// For each declared path the number of its canonical path.
    pub(crate) fn table(&self) -> &[u32]
        ensures { result.now ≡ self.now.table }
    {
        self.table.as_slice()
    }

    /// How many declared paths there are.
    pub(crate) fn len(&self) -> u32
        requires { length self.now.table ≤ max_declared }
        ensures { result ≡ length self.now.table }
    {
        self.table.len() as u32
    }

    /// Where the variable of that name stands.
    pub(crate) fn slot(&self, name: &str) -> Option<Slot>
        ensures slot { IfSome result (HasSlot self.now name.now) }
        ensures known { length self.now.names ≡ length self.now.slots
            → Contains self.now.names name.now → IsSome result }
    {
        let place = self.names.place(name)?;
        at(self.slots.as_slice(), place).copied()
    }
}

/// The path of these names in a concept of that layout; none where it isn't declared.
pub(crate) fn find(layouts: &[Layout], layout: &Layout, path: &[Name]) -> Option<Slot>
    ensures place { ForEachLists layouts.now layout.now (λ w.
        IfSome result (IsSlotOf w (texts path.now))) }
    ensures known { ForEachLists layouts.now layout.now (λ w. IsComplete w layouts.now
        → Contains w.paths (texts path.now) → IsSome result) }
    ensures kind { ForEachTypes layouts.now layout.now (λ t. (kind : VarKind)
        → kind_of_path t.concepts t.items path.now ≡ Some kind
        → IfSome result (λ s. IsKindBelow t.names (length layouts.now) kind s.concept)) }
{
    let [name, rest @ ..] = path else {
        return None;
    };
    let slot = layout.slot(name.text())?;
    if rest.is_empty() {
        return Some(slot);
    }
    let inside = at(layouts, slot.concept? as usize)?;
    let found = find(layouts, inside, rest)?;
    behind(slot, found)
}

// A variable inside of a component, as one of the concept around.
fn behind(component: Slot, inside: Slot) -> Option<Slot>
    ensures slot { IfSome result (λ s.
        (s.at ≡ component.at + inside.at + 1) × (s.concept ≡ inside.concept)) }
    ensures fits { component.at + inside.at + 1 < 2 ^ 32 → IsSome result }
{
    let at = component.at.checked_add(inside.at)?.checked_add(1)?;
    Some(Slot {
        at,
        concept: inside.concept,
    })
}
