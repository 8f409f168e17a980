ghost use Rattle.std.specs.Prelude.{◌≡◌, ◌<◌, ◌+◌, ◌∷◌, [], length, ℕ, List, None, Contains, IfOk, OnOk};
ghost use Rattle.utopist_syntax.specs.FileTree.{ConceptTree, file_tree};
ghost use Rattle.concept_rules.specs.Limits.{max_computes};
ghost use Rattle.concept_rules.specs.ConceptRules.{concept_name_fault, concept_fault, file_fault};
ghost use Rattle.concept_rules.specs.Checks.{Checks};
ghost use Rattle.concept_rules.specs.Lineages.{AreLineages};
ghost use Rattle.concept_rules.specs.steps.DeclaredNames.{item_in};
ghost use Rattle.concept_rules.specs.steps.Extent.{extent, concept_of, AreLines, Reached};
ghost use Rattle.concept_rules.specs.steps.Points.{AtEachConcept};

use crate::computes::check_each_compute;
use crate::declarations::Declarations;
use crate::fault::{Limit, ModelFault, Rule, UnfoldFault};
use crate::kinds::Seen;
use crate::lineages::Lineages;
use crate::own_items::{Current, check_items};
use crate::parents::line_of_parents;
use crate::path_rules::broken_at;
use std::alloc::Global;
use utopist_syntax::{Concept, File, Name};

const MAX_CONCEPTS: usize = 1024;

const MAX_COMPUTES: usize = 64;

/// Names the first rule of concepts that a file breaks, and where; else it answers the lineages of its concepts.
pub fn check_concepts<'a>(alloc: Global, file: &File<'a>) -> Result<Lineages<'a>, UnfoldFault>
    ensures rules { Checks (file_fault max_computes (file_tree file.now)) result }
    ensures lineages { IfOk result (AreLineages (file_tree file.now).concepts) }
{
    check_concepts_within(alloc, file, MAX_COMPUTES)
}

/// The same, where a file may have only so many compute statements.
pub fn check_concepts_within<'a>(
    alloc: Global,
    file: &File<'a>,
    most_computes: usize,
) -> Result<Lineages<'a>, UnfoldFault>
    ensures rules { Checks (file_fault most_computes (file_tree file.now)) result }
    ensures lineages { IfOk result (AreLineages (file_tree file.now).concepts) }
{
    let concepts = file.concepts.as_slice();
    let mut found = Findings::new(alloc);
    for which in 0..concepts.len() {
        check_concept(alloc, concepts, which, &mut found)?;
    }
    let seen = Seen {
        concepts,
        checked: &found.checked,
        declared: &found.declared,
    };
    check_each_compute(&seen, file.computes.as_slice(), most_computes)?;
    Ok(found.checked)
}

/// What was found of the concepts that were checked.
#[derive(Drop)]
struct Findings<'a> {
    checked: Lineages<'a>,
    declared: Declarations<'a>,
}

impl<'a> Findings<'a> {
    fn new(alloc: Global) -> Findings<'a>
        ensures checked { result.checked ≡ record { names = []; lines = [] } }
        ensures declared { (name : List ℕ) (n : ℕ) → item_in result.declared name n ≡ None }
        ensures bound { result.declared.bound ≡ [] }
    {
        Findings {
            checked: Lineages::new(alloc),
            declared: Declarations::new(alloc),
        }
    }
}

/// Checks the concept of that number, and adds it to those that were checked.
fn check_concept<'a>(
    alloc: Global,
    concepts: &[Concept<'a>],
    which: usize,
    found: &mut Findings<'a>,
) -> Result<(), UnfoldFault>
    requires which { which < length concepts.now }
    ensures rules { AtEachConcept concepts.now which found.old (λ all before.
        Checks (concept_fault before (concept_of all which)) result) }
    ensures next { OnOk result (AtEachConcept concepts.now which found.old (λ all before.
        Reached (extent all (which + 1) (concept_of all which ∷ before) 0) concepts.now
        found.new.checked found.new.declared)) }
{
    let concept = &concepts[which];
    check_name(&found.checked, &concept.name, which)?;
    let seen = Seen {
        concepts,
        checked: &found.checked,
        declared: &found.declared,
    };
    let mut here = line_of_parents(alloc, &seen, concept.parents.as_slice())?;
    here.push(which as u32)?;
    let current = Current {
        concepts,
        which,
        checked: &found.checked,
        here: &here,
    };
    check_items(alloc, &current, &mut found.declared)?;
    found.checked.add(concept.name.text(), here)?;
    Ok(())
}

fn check_name(checked: &Lineages, name: &Name, which: usize) -> Result<(), ModelFault>
    ensures rules { (all before : List ConceptTree) → AreLines all which before checked.now
        → result ≡ concept_name_fault before name.now }
    ensures few { OnOk result (which < 1024) }
    ensures new { OnOk result (¬ Contains checked.now.names name.now.text) }
{
    if which >= MAX_CONCEPTS {
        return Err(broken_at(name, Rule::TooMany(Limit::Concepts)));
    }
    if checked.has(name.text()) {
        return Err(broken_at(name, Rule::DuplicateName));
    }
    Ok(())
}
