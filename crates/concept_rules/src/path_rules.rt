//! The rules on paths.
ghost use Rattle.std.specs.Prelude.{◌≡◌};
ghost use Rattle.concept_rules.specs.Paths.{first_of, given_paths};
ghost use Rattle.concept_rules.specs.PathRules.{broken_at as broken, numeric_path, numeric_paths};
ghost use Rattle.concept_rules.specs.steps.Points.{AtEachPoint};

use crate::fault::{ModelFault, Rule};
use crate::kinds::{Seen, kind_of_path};
use crate::line::Line;
use priz_base::Place;
use utopist_syntax::{GivenPath, Name, Path, VarKind};

/// A rule fails at this name.
pub fn broken_at(name: &Name, rule: Rule) -> ModelFault
    ensures { result ≡ broken name.now rule }
{
    ModelFault {
        place: name.place(),
        rule,
    }
}

/// A rule fails at the first of these names.
pub fn broken_on(names: &[Name], rule: Rule) -> ModelFault
    ensures { result ≡ broken (first_of names.now) rule }
{
    let place = match names {
        [name, ..] => name.place(),
        [] => Place {
            at: 0,
            line: 1,
            col: 1,
        },
    };
    ModelFault { place, rule }
}

/// The path is known, and numeric.
pub(crate) fn expect_numeric(seen: &Seen, here: &Line, names: &[Name]) -> Result<(), ModelFault>
    ensures { AtEachPoint seen.now here.now (λ f before.
        result ≡ numeric_path f.before before names.now) }
{
    match kind_of_path(seen, here, names) {
        Some(VarKind::Numeric) => Ok(()),
        Some(VarKind::Of(_)) => Err(broken_on(names, Rule::NotNumeric)),
        None => Err(broken_on(names, Rule::UnknownPath)),
    }
}

/// Each of the paths is known, and numeric.
pub(crate) fn expect_all_numeric(seen: &Seen, here: &Line, paths: &[Path]) -> Result<(), ModelFault>
    ensures { AtEachPoint seen.now here.now (λ f before.
        result ≡ numeric_paths f.before before paths.now) }
{
    for path in paths {
        expect_numeric(seen, here, path.parts.as_slice())?;
    }
    Ok(())
}

/// Each path that is given is known, and numeric.
pub(crate) fn expect_givens_numeric(
    seen: &Seen,
    here: &Line,
    givens: &[GivenPath],
) -> Result<(), ModelFault>
    ensures { AtEachPoint seen.now here.now (λ f before.
        result ≡ numeric_paths f.before before (given_paths givens.now)) }
{
    for given in givens {
        expect_numeric(seen, here, given.path.parts.as_slice())?;
    }
    Ok(())
}
