//! The extent of a list of paths.
ghost use Rattle.std.specs.Prelude.{◌≡◌, ◌∷◌, [], ◌++◌, List, length};
ghost use Rattle.std.specs.List.{flat_map};
ghost use Rattle.utopist_syntax.specs.Named.{Named};
ghost use Rattle.canonical_paths.specs.PathNames.{PathNames};
ghost use Rattle.canonical_paths.specs.DeclaredPaths.{variable_paths};
ghost use Rattle.path_limits.specs.Extents.{extent_of};

use crate::limits::{MAX_DECLARED, MAX_SEGMENTS};

/// How many paths there are, and how many segments the longest of them has, each stopped one past its limit.
#[derive(Clone, Copy)]
pub(crate) struct PathExtent {
    pub paths: u32,
    pub segments: u32,
}

impl PathExtent {
    /// That of no path.
    pub(crate) fn none() -> PathExtent
        ensures { result ≡ extent_of [] }
    {
        PathExtent {
            paths: 0,
            segments: 0,
        }
    }

    /// That of both lists of paths together.
    pub(crate) fn join(self, other: PathExtent) -> PathExtent
        ensures { (these those : List PathNames) → self ≡ extent_of these → other ≡ extent_of those
            → result ≡ extent_of (these ++ those) }
    {
        PathExtent {
            paths: self.paths.saturating_add(other.paths).min(MAX_DECLARED + 1),
            segments: self.segments.max(other.segments),
        }
    }

    /// That of so many variables, each with these paths inside.
    pub(crate) fn of_variables(self, count: usize) -> PathExtent
        ensures { (inside : List PathNames) (names : List Named) → self ≡ extent_of inside
            → count ≡ length names
            → result ≡ extent_of (flat_map (λ n. variable_paths inside n.text) names) }
    {
        if count == 0 {
            return PathExtent::none();
        }
        let each = self.paths.saturating_add(1);
        let many = count.min(MAX_DECLARED as usize + 1) as u32;
        PathExtent {
            paths: each.saturating_mul(many).min(MAX_DECLARED + 1),
            segments: self.segments.saturating_add(1).min(MAX_SEGMENTS + 1),
        }
    }
}
