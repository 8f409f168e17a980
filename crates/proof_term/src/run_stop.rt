ghost use Rattle.std.specs.Prelude.{◌≡◌};
ghost use Rattle.proof_term.specs.declared.run_stop.RunStop.TheVariants.{NoMem as no_mem};

use body_lang::RunFault;
use std::alloc::AllocError;

/// Why a block gives no values.
#[derive(Clone, Copy, PartialEq, Eq, Debug)]
pub enum RunStop {
    /// The first fault, and the statement whose step or body it ends.
    Fault { stmt: u32, kind: RunFault },
    /// Want of memory.
    NoMem,
}

impl From<AllocError> for RunStop {
    ghost from_gives = { λ _ e. e ≡ no_mem };

    fn from(_error: AllocError) -> RunStop {
        RunStop::NoMem
    }
}
