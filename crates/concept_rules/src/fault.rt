//! Which rule a file breaks, and where.
ghost use Rattle.std.specs.Prelude.{◌≡◌};
ghost use Rattle.concept_rules.specs.declared.fault.UnfoldFault.TheVariants as fault;

use priz_base::{NoMem, Place};

/// What there are too many of.
#[derive(Clone, Copy, Debug, PartialEq, Eq)]
pub enum Limit {
    Concepts,
    Computes,
    /// Segments of a declared path of a concept.
    Segments,
    /// Declared paths of a concept.
    Paths,
    Variables,
    /// The size of a problem.
    Size,
    Statements,
    Subtasks,
}

/// The rule that is broken.
#[derive(Clone, Copy, Debug, PartialEq, Eq)]
pub enum Rule {
    UnknownConcept,
    DuplicateName,
    UnknownPath,
    NotNumeric,
    BadBinding,
    /// A loop has a name that is taken.
    ShadowedName,
    BadCall,
    BadArity,
    /// A variable is given twice.
    DuplicateInput,
    TooMany(Limit),
}

/// The first rule that a file breaks, and the place of the name that breaks it.
#[derive(Clone, Copy, Debug, PartialEq, Eq)]
pub struct ModelFault {
    pub place: Place,
    pub rule: Rule,
}

/// Why a file has no problem.
#[derive(Clone, Copy, Debug, PartialEq, Eq)]
pub enum UnfoldFault {
    /// A rule fails.
    Model(ModelFault),
    /// Want of memory.
    NoMem,
}

impl From<ModelFault> for UnfoldFault {
    ghost from_gives = { λ f e. e ≡ fault.Model f };

    fn from(broken: ModelFault) -> UnfoldFault {
        UnfoldFault::Model(broken)
    }
}

impl From<NoMem> for UnfoldFault {
    ghost from_gives = { λ _ e. e ≡ fault.NoMem };

    fn from(_want: NoMem) -> UnfoldFault {
        UnfoldFault::NoMem
    }
}
