//! What a path of an item is looked up in.
ghost use Rattle.std.specs.Prelude.{◌≡◌, ◌<◌, ◌++◌, Some, length};
ghost use Rattle.canonical_paths.specs.PathNames.{PathNames, names_in};
ghost use Rattle.concept_walk.specs.Visits.{visited_variables};
ghost use Rattle.concept_walk.specs.Walks.{IsPlace, whole_walk};
ghost use Rattle.walk_variables.specs.Numbering.{number_in};
ghost use Rattle.walk_variables.specs.Sites.{IsSite, IsNumericHere};

use concept_walk::Walk;
use priz_base::Var;
use utopist_syntax::Path;

/// A component of a walk: its concept, and the number of the first path inside of it.
#[derive(Clone, Copy)]
pub struct Site<'t, 'a> {
    pub walk: &'t Walk<'t, 'a>,
    /// For each declared path of the asked concept the variable that it is in the problem.
    pub numbers: &'t [u32],
    pub concept: u32,
    pub start: u32,
}

impl<'t, 'a> Site<'t, 'a> {
    /// The variable of a known numeric path. Takes no memory.
    pub fn var_of(&self, path: &Path) -> Var
        requires site { IsSite self.now }
        requires known { IsNumericHere self.now path.now }
        ensures number { (at : PathNames)
            → IsPlace self.now.walk.now self.now.concept self.now.start at
            → result ≡ number_in self.now.walk.now (at ++ names_in path.now) }
        ensures below { result < length (visited_variables (whole_walk self.now.walk.now)) }
    {
        let slot = self
            .walk
            .layouts
            .find(self.concept, path.parts.as_slice())
            .unwrap();
        let place = self.start + slot.at;
        let canonical = self.walk.layouts.table(self.walk.asked)[place as usize];
        Var(self.numbers[canonical as usize])
    }
}
