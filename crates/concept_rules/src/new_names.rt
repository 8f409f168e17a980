//! The rules on names that an item declares.
ghost use Rattle.std.specs.Prelude.{◌≡◌, ◌||◌, [], Contains, IsFalse, OnOk};
ghost use Rattle.concept_rules.specs.Declarations.{is_among, is_declared as are_declared};
ghost use Rattle.concept_rules.specs.ItemRules.{new_name, new_names};
ghost use Rattle.concept_rules.specs.Checks.{Checks};
ghost use Rattle.concept_rules.specs.steps.Points.{AtEachPoint};

use crate::fault::{ModelFault, Rule, UnfoldFault};
use crate::kinds::{Seen, is_declared};
use crate::line::Line;
use crate::path_rules::broken_at;
use name_sets::NameSet;
use std::alloc::Global;
use utopist_syntax::Name;

/// No item before declares the name.
pub(crate) fn expect_undeclared(seen: &Seen, here: &Line, name: &Name) -> Result<(), ModelFault>
    ensures { AtEachPoint seen.now here.now (λ f before. result ≡ new_name before [] name.now) }
{
    if is_declared(seen, here, name.text()) {
        return Err(broken_at(name, Rule::DuplicateName));
    }
    Ok(())
}

/// None of the names is declared before, or among them.
pub(crate) fn expect_new_names(
    alloc: Global,
    seen: &Seen,
    here: &Line,
    names: &[Name],
) -> Result<(), UnfoldFault>
    ensures { AtEachPoint seen.now here.now (λ f before.
        Checks (new_names before [] names.now) result) }
{
    let mut others = NameSet::new(alloc);
    for name in names {
        expect_new_name(seen, here, &others, name)?;
        others.add(name.text())?;
    }
    Ok(())
}

fn expect_new_name(
    seen: &Seen,
    here: &Line,
    others: &NameSet,
    name: &Name,
) -> Result<(), ModelFault>
    ensures rule { AtEachPoint seen.now here.now (λ f before.
        result ≡ new_name before others.now name.now) }
    ensures new { OnOk result (¬ Contains others.now name.now.text) }
{
    if is_taken(seen, here, others, name) {
        return Err(broken_at(name, Rule::DuplicateName));
    }
    Ok(())
}

fn is_taken(seen: &Seen, here: &Line, others: &NameSet, name: &Name) -> bool
    ensures rule { AtEachPoint seen.now here.now (λ f before.
        result ≡ (are_declared before name.now.text || is_among name.now.text others.now)) }
    ensures new { IsFalse result → ¬ Contains others.now name.now.text }
{
    is_listed(others, name) || is_declared(seen, here, name.text())
}

fn is_listed(names: &NameSet, name: &Name) -> bool
    ensures same { result ≡ is_among name.now.text names.now }
    ensures new { IsFalse result → ¬ Contains names.now name.now.text }
{
    names.has(name.text())
}
