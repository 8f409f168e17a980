//! Bindings that overlap.
ghost use Rattle.std.specs.Prelude.{◌≡◌, false};
ghost use Rattle.std.specs.Option.{option_map_or};
ghost use Rattle.name_sets.specs.Paths.{texts};
ghost use Rattle.concept_rules.specs.Overlap.{clashes as clash_with, is_bound_inside as bound_inside};
ghost use Rattle.concept_rules.specs.steps.Variables.{outline_found};
ghost use Rattle.concept_rules.specs.steps.Points.{AtEachExtent};

use crate::kinds::{Known, Seen, kind_of, variable_within};
use utopist_syntax::{Name, VarKind};

/// Inside this type, the declaration of a segment has a binding that clashes with what is behind it.
pub(crate) fn is_bound_inside<'s, 'a>(
    seen: &Seen<'s, 'a>,
    kind: &'s VarKind<'a>,
    left: &[Name],
) -> bool
    ensures { AtEachExtent seen.now (λ f. result ≡ bound_inside f.before kind.now left.now) }
{
    let mut inside = Some(kind);
    for i in 0..left.len() {
        let variable = variable_within(seen, inside, left[i].text());
        if is_bound(variable, &left[i + 1..]) {
            return true;
        }
        inside = kind_of(variable);
    }
    false
}

// A binding of the variable, if there is one, clashes with the path.
fn is_bound(variable: Option<Known>, path: &[Name]) -> bool
    ensures { result ≡ option_map_or (λ o. clash_with o.bound (texts path.now))
        (outline_found variable.entry) false }
{
    match variable {
        Some(
            Known {
                bound: Some(paths),
                ..
            },
        ) => paths.clashes(path),
        _ => false,
    }
}
