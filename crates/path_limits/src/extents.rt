//! The extents of the concepts of a file.
ghost use Rattle.std.specs.Prelude.{◌≡◌, ◌<◌, ℕ, List, [], map, length, slice_get, All, Some, Ok, IfOk};
ghost use Rattle.std.specs.List.{flat_map};
ghost use Rattle.utopist_syntax.specs.FileTree.{ConceptTree, concept_tree};
ghost use Rattle.concept_rules.specs.Lineages.{AreLineages};
ghost use Rattle.concept_rules.specs.ConceptRules.{concepts_fault};
ghost use Rattle.canonical_paths.specs.PathNames.{PathNames};
ghost use Rattle.canonical_paths.specs.Components.{declared_in};
ghost use Rattle.path_limits.specs.Extents.{extent_of, AreExtents};
ghost use Rattle.path_limits.specs.PathLimits.{path_limits};
ghost use Rattle.path_limits.specs.steps.Measured.{AreOf};

use crate::extent::PathExtent;
use crate::limits::{MAX_DECLARED, MAX_SEGMENTS, expect_at_most};
use crate::own_items::extent_of_items;
use concept_rules::{Limit, Lineages, ModelFault, Rule, broken_at};
use priz_base::NoMem;
use sqlite_items::{Items, at};
use std::alloc::Global;
use std::marker::Model;
use utopist_syntax::{Concept, Name};

/// How many declared paths each concept of a file has, and how many segments the longest of them has, each stopped one
/// past its limit. A concept has the number of its place in the file.
#[derive(Drop)]
pub struct Extents {
    extents: Items<PathExtent>,
}

impl Model for Extents {
    ghost use Rattle.std.specs.Prelude.{List};
    ghost use Rattle.path_limits.specs.declared.extent.PathExtent.{PathExtent};

    ghost Value = { List PathExtent };

    ghost view = { λ e. e.extents };
}

impl Extents {
    /// Measures each concept once, behind the types of its components.
    pub fn of(alloc: Global, concepts: &[Concept], lineages: &Lineages) -> Result<Extents, NoMem>
        requires kept { concepts_fault [] (map concept_tree concepts.now) ≡ Ok tt }
        requires lineages { AreLineages (map concept_tree concepts.now) lineages.now }
        ensures { IfOk result (AreExtents (map concept_tree concepts.now)) }
    {
        let mut own = Items::new(alloc);
        let mut extents = Items::new(alloc);
        for concept in concepts {
            own.push(extent_of_items(lineages, extents.as_slice(), concept.items.as_slice()))?;
            let line = lineages.line_of(extents.len());
            extents.push(extent_of_line(own.as_slice(), line))?;
        }
        Ok(Extents { extents })
    }

    /// Checks both limits for the concept of this number, at the name of its compute statement.
    pub fn check(&self, named: &Name, asked: u32) -> Result<(), ModelFault>
        ensures { (all : List ConceptTree) → AreExtents all self.now → (c : ConceptTree)
            → slice_get all asked ≡ Some c → result ≡ path_limits named.now (declared_in all c) }
    {
        let Some(extent) = at(self.extents.as_slice(), asked as usize) else {
            return Err(broken_at(named, Rule::UnknownConcept));
        };
        expect_at_most(named, Limit::Segments, MAX_SEGMENTS, extent.segments)?;
        expect_at_most(named, Limit::Paths, MAX_DECLARED, extent.paths)
    }
}

// The extent of the own paths of all concepts of a line.
fn extent_of_line(own: &[PathExtent], line: &[u32]) -> PathExtent
    requires { All (λ n. n < length own.now) line.now }
    ensures { (paths : ConceptTree → List PathNames) (cs : List ConceptTree)
        → AreOf paths own.now line.now cs → result ≡ extent_of (flat_map paths cs) }
{
    let mut extent = PathExtent::none();
    for which in line {
        extent = extent.join(own[*which as usize]);
    }
    extent
}
