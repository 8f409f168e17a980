#![tactic(auto, using(priz_base::proofs::Kept::kept))]

ghost use Rattle.std.specs.List.{flat_map};
ghost use Rattle.priz_base.specs.Printing.{Prints};
ghost use Rattle.utopist_syntax.specs.Canonical.{canonical};
ghost use Rattle.utopist_syntax.specs.ConceptText.{concept_text};
ghost use Rattle.utopist_syntax.specs.ComputeText.{compute_text};

use crate::print_compute::print_compute;
use crate::print_concept::print_concept;
use crate::{Compute, Concept, File};
use priz_base::NoMem;
use std::alloc::Global;

/// Appends the canonical text of a file. No memory is taken but what `out` grows by.
pub fn print(_alloc: Global, file: &File, out: &mut Vec<u8>) -> Result<(), NoMem>
    ensures { Prints (canonical file.now) result out.old.items out.new.items }
{
    print_concepts(file.concepts.as_slice(), out)?;
    print_computes(file.computes.as_slice(), out)
}

fn print_concepts(concepts: &[Concept], out: &mut Vec<u8>) -> Result<(), NoMem>
    ensures { Prints (flat_map concept_text concepts.now) result out.old.items out.new.items }
{
    for concept in concepts {
        print_concept(concept, out)?;
    }
    Ok(())
}

fn print_computes(computes: &[Compute], out: &mut Vec<u8>) -> Result<(), NoMem>
    ensures { Prints (flat_map compute_text computes.now) result out.old.items out.new.items }
{
    for compute in computes {
        print_compute(compute, out)?;
    }
    Ok(())
}
