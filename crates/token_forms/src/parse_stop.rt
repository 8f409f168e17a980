//! Why a reading stops.
ghost use Rattle.std.specs.Prelude.{◌≡◌};
ghost use Rattle.token_forms.specs.declared.parse_stop.ParseStop.TheVariants.{NoMem};

use std::alloc::{AllocError, AllocFailed};

/// Why a token is wrong.
#[derive(Clone, Copy)]
pub enum Why {
    /// No form goes on with it.
    Unexpected,
    /// With it the nesting is too deep.
    TooDeep,
}

/// Why a reading stops.
#[derive(Clone, Copy)]
pub enum ParseStop {
    NoMem,
    /// The token that the reader stands at is the first wrong one.
    Wrong(Why),
}

impl From<AllocError> for ParseStop {
    ghost from_gives = { λ _ e. e ≡ NoMem };

    fn from(_error: AllocError) -> ParseStop {
        ParseStop::NoMem
    }
}

impl From<priz_base::NoMem> for ParseStop {
    ghost from_gives = { λ _ e. e ≡ NoMem };

    fn from(_error: priz_base::NoMem) -> ParseStop {
        ParseStop::NoMem
    }
}

impl<T: Drop> From<AllocFailed<T>> for ParseStop {
    ghost from_gives = { λ _ e. e ≡ NoMem };

    fn from(_error: AllocFailed<T>) -> ParseStop {
        ParseStop::NoMem
    }
}
