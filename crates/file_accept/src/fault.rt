ghost use Rattle.std.specs.Prelude.{◌≡◌};
ghost use Rattle.file_accept.specs.declared.fault.FileFault.TheVariants.{NoMem};
ghost use Rattle.file_accept.specs.steps.Faults.{parse_fault, unfold_fault};

use concept_rules::{ModelFault, UnfoldFault};
use priz_base::Place;
use std::alloc::{AllocError, AllocFailed};
use utopist_lexer::LexFault;
use utopist_parser::ParseFault;

/// Why a text has no problems.
#[derive(Clone, Copy, Debug, PartialEq, Eq)]
pub enum FileFault {
    /// No token stands there.
    Lex(LexFault),
    /// This token cannot stand here, or begins a form that is not answered.
    Expected(Place),
    /// With this token an expression is nested more than 64 deep.
    TooDeep(Place),
    /// The file breaks a rule of concepts or of unfolding.
    Model(ModelFault),
    /// Want of memory.
    NoMem,
}

impl From<AllocError> for FileFault {
    ghost from_gives = { λ _ e. e ≡ NoMem };

    fn from(_error: AllocError) -> FileFault {
        FileFault::NoMem
    }
}

impl<T: Drop> From<AllocFailed<T>> for FileFault {
    ghost from_gives = { λ _ e. e ≡ NoMem };

    fn from(_error: AllocFailed<T>) -> FileFault {
        FileFault::NoMem
    }
}

impl From<ParseFault> for FileFault {
    ghost from_gives = { λ f e. e ≡ parse_fault f };

    fn from(fault: ParseFault) -> FileFault {
        match fault {
            ParseFault::Lex(fault) => FileFault::Lex(fault),
            ParseFault::Expected(place) => FileFault::Expected(place),
            ParseFault::TooDeep(place) => FileFault::TooDeep(place),
            ParseFault::NoMem => FileFault::NoMem,
        }
    }
}

impl From<UnfoldFault> for FileFault {
    ghost from_gives = { λ f e. e ≡ unfold_fault f };

    fn from(fault: UnfoldFault) -> FileFault {
        match fault {
            UnfoldFault::Model(fault) => FileFault::Model(fault),
            UnfoldFault::NoMem => FileFault::NoMem,
        }
    }
}
