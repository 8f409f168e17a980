//! The own items of a concept.
ghost use Rattle.std.specs.Prelude.{◌≡◌, ◌<◌, length, OnOk};
ghost use Rattle.name_sets.specs.Paths.{texts};
ghost use Rattle.utopist_syntax.specs.FileTree.{item_tree};
ghost use Rattle.concept_rules.specs.Declarations.{declared as declared_names};
ghost use Rattle.concept_rules.specs.Lineage.{all_items};
ghost use Rattle.concept_rules.specs.ConceptRules.{items_fault};
ghost use Rattle.concept_rules.specs.Checks.{Checks};
ghost use Rattle.concept_rules.specs.steps.DeclaredNames.{DeclaresAll};
ghost use Rattle.concept_rules.specs.steps.Extent.{own_items, IsAfter};
ghost use Rattle.concept_rules.specs.steps.Points.{AtEachItems};

use crate::declarations::{Declaration, Declarations};
use crate::fault::UnfoldFault;
use crate::item_rules::check_item;
use crate::kinds::Seen;
use crate::line::Line;
use crate::lineages::Lineages;
use priz_base::NoMem;
use std::alloc::Global;
use utopist_syntax::{Concept, Item, Name};

/// A concept of a file behind those that were checked, and the concepts whose items it has.
#[derive(Clone, Copy)]
pub(crate) struct Current<'s, 'a> {
    pub concepts: &'s [Concept<'a>],
    pub which: usize,
    pub checked: &'s Lineages<'a>,
    pub here: &'s Line,
}

/// Checks the own items of a concept, and what they declare is declared.
pub(crate) fn check_items<'a>(
    alloc: Global,
    current: &Current<'_, 'a>,
    declared: &mut Declarations<'a>,
) -> Result<(), UnfoldFault>
    requires which { current.now.which < length current.now.concepts.now }
    requires few { current.now.which < 1024 }
    ensures rules { AtEachItems current.now declared.old (λ all before ancestors. Checks
        (items_fault before (all_items ancestors) (own_items all current.now.which)) result) }
    ensures next { OnOk result (AtEachItems current.now declared.old (λ all before ancestors.
        IsAfter all current.now.which before current.now.here.now
        current.now.concepts.now current.now.checked.now declared.new)) }
{
    let items = current.concepts[current.which].items.as_slice();
    for place in 0..items.len() {
        let seen = Seen {
            concepts: current.concepts,
            checked: current.checked,
            declared: &*declared,
        };
        let bound = check_item(alloc, &seen, current.here, &items[place])?;
        let declaration = Declaration {
            concept: current.which as u32,
            item: place,
        };
        declare(declared, declaration, &items[place])?;
        declared.bind(declaration, bound)?;
    }
    Ok(())
}

/// What the item declares is declared.
fn declare<'a>(
    declared: &mut Declarations<'a>,
    declaration: Declaration,
    item: &Item<'a>,
) -> Result<(), NoMem>
    ensures names { OnOk result (DeclaresAll declared.old declared.new declaration.concept
        declaration.item (declared_names (item_tree item.now))) }
    ensures bound { declared.new.bound ≡ declared.old.bound }
{
    match item {
        Item::Var { names, .. } => declare_all(declared, declaration, names.as_slice()),
        Item::Eq { .. } => Ok(()),
        Item::Rel { name, .. } => declared.add(name.text(), declaration),
    }
}

fn declare_all<'a>(
    declared: &mut Declarations<'a>,
    declaration: Declaration,
    names: &[Name<'a>],
) -> Result<(), NoMem>
    ensures names { OnOk result (DeclaresAll declared.old declared.new declaration.concept
        declaration.item (texts names.now)) }
    ensures bound { declared.new.bound ≡ declared.old.bound }
{
    for name in names {
        declared.add(name.text(), declaration)?;
    }
    Ok(())
}
