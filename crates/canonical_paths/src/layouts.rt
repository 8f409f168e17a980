//! The layouts of a concept and of all that it reaches.
ghost use Rattle.std.specs.Prelude.{◌≡◌, ◌∷◌, [], ◌++◌, ◌<◌, ◌≤◌, ◌^◌, map, length, slice_get, Some, Ok, reverse, IfOk};
ghost use Rattle.std.specs.Option.{option_copied};
ghost use Rattle.utopist_syntax.specs.declared.item.VarKind.{VarKind};
ghost use Rattle.utopist_syntax.specs.FileTree.{concept_tree};
ghost use Rattle.name_sets.specs.Paths.{texts};
ghost use Rattle.concept_rules.specs.Declarations.{Variable, variable};
ghost use Rattle.concept_rules.specs.Kinds.{kind_of_path};
ghost use Rattle.concept_rules.specs.Lineages.{AreLineages};
ghost use Rattle.concept_rules.specs.ConceptRules.{concepts_fault};
ghost use Rattle.canonical_paths.specs.Tables.{IsTable};
ghost use Rattle.canonical_paths.specs.Components.{effective_in, declared_in, canonical_in, HasFewPaths};
ghost use Rattle.canonical_paths.specs.Layouts.{AreLaidOut, ForEachReached, IsFoundAt};
ghost use Rattle.canonical_paths.specs.steps.AllLayouts.{HaveAllLayouts};
ghost use Rattle.canonical_paths.specs.steps.Marks.{marked, AreSomeMarked};

use crate::concept::lay_out;
use crate::layout::{Layout, find};
use crate::marks::reached_from;
use crate::slot::Slot;
use concept_rules::Lineages;
use priz_base::NoMem;
use sqlite_items::{Items, at};
use std::alloc::Global;
use std::marker::Model;
use utopist_syntax::{Concept, Name};

/// The layouts of a concept and of all that it reaches through its components. A concept has the number of its place
/// in the file.
#[derive(Drop)]
pub struct Layouts<'a> {
    layouts: Items<Layout<'a>>,
}

impl<'a> Model for Layouts<'a> {
    ghost use Rattle.std.specs.Prelude.{List};
    ghost use Rattle.canonical_paths.specs.LaidOut.{LaidOut};

    ghost Value = { List LaidOut };

    ghost view = { λ l. l.layouts };
}

impl<'a> Layouts<'a> {
    /// Lays out the asked concept, the types of its components, and so on. What isn't reached costs a step, and has no
    /// paths here.
    pub fn of(
        alloc: Global,
        concepts: &[Concept<'a>],
        lineages: &Lineages<'a>,
        asked: u32,
    ) -> Result<Layouts<'a>, NoMem>
        requires kept { concepts_fault [] (map concept_tree concepts.now) ≡ Ok tt }
        requires lineages { AreLineages (map concept_tree concepts.now) lineages.now }
        requires asked { asked < length concepts.now }
        requires few { HasFewPaths (map concept_tree concepts.now) asked }
        ensures { IfOk result (AreLaidOut (map concept_tree concepts.now) asked) }
    {
        let marks = reached_from(alloc, concepts, lineages, asked)?;
        let layouts = lay_out_all(alloc, concepts, lineages, marks.as_slice())?;
        Ok(Layouts { layouts })
    }

    /// For each declared path of the concept, in order, the number of its canonical path.
    pub fn table(&self, concept: u32) -> &[u32]
        ensures { ForEachReached self.now concept (λ all reached c.
            IsTable (canonical_in all c) (declared_in all c) result.now) }
    {
        match self.layout(concept) {
            Some(layout) => layout.table(),
            None => &[],
        }
    }

    /// Where the path stands among the declared paths of the concept; maybe none where it isn't one of them.
    pub fn find(&self, concept: u32, path: &[Name]) -> Option<Slot>
        ensures { ForEachReached self.now concept (λ all reached c. (kind : VarKind)
            → kind_of_path (reverse all) (effective_in all c) path.now ≡ Some kind
            → IsFoundAt all reached c (texts path.now) kind result) }
    {
        let layout = self.layout(concept)?;
        find(self.layouts.as_slice(), layout, path)
    }

    /// Where the path of this one name stands; maybe none where it isn't that of a variable.
    pub fn variable(&self, concept: u32, name: &str) -> Option<Slot>
        ensures { ForEachReached self.now concept (λ all reached c. (v : Variable)
            → variable (effective_in all c) name.now ≡ Some v
            → IsFoundAt all reached c (name.now ∷ []) v.kind result) }
    {
        let layout = self.layout(concept)?;
        layout.slot(name)
    }

    fn layout(&self, concept: u32) -> Option<&Layout<'a>>
        ensures { option_copied result ≡ slice_get self.now concept }
    {
        at(self.layouts.as_slice(), concept as usize)
    }
}

// The layouts of all concepts that have marks, where what isn't marked has an empty one.
fn lay_out_all<'a>(
    alloc: Global,
    concepts: &[Concept<'a>],
    lineages: &Lineages<'a>,
    marks: &[bool],
) -> Result<Items<Layout<'a>>, NoMem>
    requires kept { concepts_fault [] (map concept_tree concepts.now) ≡ Ok tt }
    requires lineages { AreLineages (map concept_tree concepts.now) lineages.now }
    requires marks { AreSomeMarked (map concept_tree concepts.now) marks.now }
    requires numbers { length marks.now ≤ 2 ^ 32 }
    ensures laid { IfOk result
        (HaveAllLayouts (map concept_tree concepts.now) (marked marks.now)) }
    ensures count { IfOk result (λ layouts. length layouts ≡ length marks.now) }
{
    let mut layouts = Items::new(alloc);
    for _number in 0..marks.len() {
        let layout = next_layout(alloc, concepts, lineages, marks, layouts.as_slice())?;
        layouts.push(layout)?;
    }
    Ok(layouts)
}

// The layout of the concept that comes next behind those that have layouts, if it is marked; else an empty one.
fn next_layout<'a>(
    alloc: Global,
    concepts: &[Concept<'a>],
    lineages: &Lineages<'a>,
    marks: &[bool],
    layouts: &[Layout<'a>],
) -> Result<Layout<'a>, NoMem>
    requires kept { concepts_fault [] (map concept_tree concepts.now) ≡ Ok tt }
    requires lineages { AreLineages (map concept_tree concepts.now) lineages.now }
    requires marks { AreSomeMarked (map concept_tree concepts.now) marks.now }
    requires numbers { length marks.now ≤ 2 ^ 32 }
    requires next { length layouts.now < length marks.now }
    requires laid { HaveAllLayouts (map concept_tree concepts.now) (marked marks.now) layouts.now }
    ensures { IfOk result (λ l. HaveAllLayouts (map concept_tree concepts.now)
        (marked marks.now) (layouts.now ++ l ∷ [])) }
{
    if marks[layouts.len()] {
        lay_out(
            alloc,
            lineages,
            layouts,
            concepts,
            lineages.line_of(layouts.len()),
        )
    } else {
        Ok(Layout::new(alloc))
    }
}
