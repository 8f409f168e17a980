ghost use Rattle.std.specs.Prelude.{◌≡◌};
ghost use Rattle.worked_problems.specs.declared.build_fault.BuildFault.TheVariants.{NoMem as no_mem};

use priz_base::NoMem;

/// Why rows are not taken.
#[derive(Clone, Copy, PartialEq, Eq, Debug)]
pub enum BuildFault {
    NoMem,
    /// More than 1,024 names.
    TooManyNames,
    NameTwice,
    /// More than 4,096 statements.
    TooManyStatements,
    /// More than 255 subtasks, those of all statements together.
    TooManySubtasks,
    /// A statement with a number of no variable, or with a subtask that lacks inputs or outputs, or has an input twice.
    BadStatement,
    /// A given of no variable.
    UnknownGiven,
    GivenTwice,
    /// A want of no variable.
    UnknownWant,
}

impl From<NoMem> for BuildFault {
    ghost from_gives = { λ _ e. e ≡ no_mem };

    fn from(_error: NoMem) -> BuildFault {
        BuildFault::NoMem
    }
}
