//! Calls of subtasks.
ghost use Rattle.std.specs.Prelude.{◌≡◌, ◌++◌, ◌∷◌, [], map, IfOk, OnOk};
ghost use Rattle.concept_rules.specs.BodyFault.{is_number_of as has_number, call_fault};
ghost use Rattle.concept_rules.specs.ItemRules.{arities_of};
ghost use Rattle.concept_rules.specs.steps.Arities.{arity_behind, arity_found, sizes_numbered};

use crate::fault::{ModelFault, Rule};
use priz_base::{NoMem, Place};
use sqlite_items::Items;
use std::alloc::Global;
use utopist_syntax::Part;

/// How many inputs and outputs a subtask has.
#[derive(Clone, Copy)]
pub(crate) struct Sizes {
    pub inputs: usize,
    pub outputs: usize,
}

/// The sizes of the subtasks among these parts.
pub(crate) fn sizes_of(alloc: Global, parts: &[Part]) -> Result<Items<Sizes>, NoMem>
    ensures { IfOk result (λ sizes. map arity_behind sizes ≡ arities_of parts.now) }
{
    let mut sizes = Items::new(alloc);
    for part in parts {
        add_sizes(&mut sizes, part)?;
    }
    Ok(sizes)
}

fn add_sizes(sizes: &mut Items<Sizes>, part: &Part) -> Result<(), NoMem>
    ensures { OnOk result (map arity_behind sizes.new
        ≡ map arity_behind sizes.old ++ arities_of (part.now ∷ [])) }
{
    if let Part::Subtask { inputs, outputs } = part {
        sizes.push(Sizes {
            inputs: inputs.len(),
            outputs: outputs.len(),
        })?;
    }
    Ok(())
}

/// The sizes of the subtask of that number, which count from 1.
pub(crate) fn numbered(subtasks: &[Sizes], k: &i64) -> Option<Sizes>
    ensures { result ≡ sizes_numbered subtasks.now k.now }
{
    if *k < 1 {
        return None;
    }
    subtasks.get((*k - 1) as usize).copied()
}

/// The call fits the subtask, if there is one.
pub(crate) fn expect_call(
    subtask: Option<Sizes>,
    out: &i64,
    args: usize,
    place: Place,
) -> Result<(), ModelFault>
    ensures { result ≡ call_fault place (arity_found subtask) out.now args }
{
    match subtask {
        None => Err(ModelFault {
            place,
            rule: Rule::BadCall,
        }),
        Some(sizes) => {
            if !is_number_of(sizes.outputs, out) {
                return Err(ModelFault {
                    place,
                    rule: Rule::BadCall,
                });
            }
            if sizes.inputs != args {
                return Err(ModelFault {
                    place,
                    rule: Rule::BadArity,
                });
            }
            Ok(())
        }
    }
}

// The number is one from 1 up to the count.
fn is_number_of(count: usize, number: &i64) -> bool
    ensures { result ≡ has_number count number.now }
{
    *number >= 1 && ((*number - 1) as usize) < count
}
