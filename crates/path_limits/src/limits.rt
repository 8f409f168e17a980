//! The limits.
ghost use Rattle.std.specs.Prelude.{◌≡◌, ◌<◌, ◌+◌, ◌^◌, ℕ, min};
ghost use Rattle.path_limits.specs.PathLimits.{within_limit};

use concept_rules::{Limit, ModelFault, Rule, broken_at};
use utopist_syntax::Name;

/// The most segments of a declared path.
pub(crate) const MAX_SEGMENTS: u32 = 32;

/// The most declared paths.
pub(crate) const MAX_DECLARED: u32 = 8192;

/// Checks that there are no more than the most. The count is stopped one past it.
pub(crate) fn expect_at_most(
    named: &Name,
    limit: Limit,
    most: u32,
    count: u32,
) -> Result<(), ModelFault>
    ensures { (n : ℕ) → count ≡ min n (most + 1) → result ≡ within_limit named.now limit most n }
{
    if count > most {
        return Err(broken_at(named, Rule::TooMany(limit)));
    }
    Ok(())
}
