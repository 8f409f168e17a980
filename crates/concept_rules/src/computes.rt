//! The rules on compute statements.
ghost use Rattle.std.specs.Prelude.{◌≡◌};
ghost use Rattle.concept_rules.specs.ConceptRules.{goal_fault, compute_fault, computes_fault};
ghost use Rattle.concept_rules.specs.Checks.{Checks};
ghost use Rattle.concept_rules.specs.steps.Points.{AtEachExtent, AtEachPoint};

use crate::fault::{Limit, ModelFault, Rule, UnfoldFault};
use crate::kinds::Seen;
use crate::line::Line;
use crate::path_rules::{broken_at, expect_all_numeric, expect_givens_numeric};
use utopist_syntax::Compute;

/// Checks the compute statements, of which there may be so many.
pub(crate) fn check_each_compute(
    seen: &Seen,
    computes: &[Compute],
    most: usize,
) -> Result<(), UnfoldFault>
    ensures { AtEachExtent seen.now (λ f.
        Checks (computes_fault most f.before 0 computes.now) result) }
{
    for which in 0..computes.len() {
        check_compute(seen, &computes[which], which, most)?;
    }
    Ok(())
}

fn check_compute(
    seen: &Seen,
    compute: &Compute,
    which: usize,
    most: usize,
) -> Result<(), ModelFault>
    ensures { AtEachExtent seen.now (λ f. result ≡ compute_fault most f.before which compute.now) }
{
    let name = &compute.name;
    if which >= most {
        return Err(broken_at(name, Rule::TooMany(Limit::Computes)));
    }
    match seen.checked.line(name.text()) {
        Some(line) => check_goal(seen, line, compute),
        None => Err(broken_at(name, Rule::UnknownConcept)),
    }
}

fn check_goal(seen: &Seen, here: &Line, compute: &Compute) -> Result<(), ModelFault>
    ensures { AtEachPoint seen.now here.now (λ f items.
        result ≡ goal_fault f.before items compute.now) }
{
    expect_givens_numeric(seen, here, compute.givens.as_slice())?;
    expect_all_numeric(seen, here, compute.wants.as_slice())
}
