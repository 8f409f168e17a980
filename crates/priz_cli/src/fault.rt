ghost use Rattle.std.specs.Prelude.{◌≡◌};
ghost use Rattle.priz_cli.specs.declared.fault.Fault.TheVariants as fault;
ghost use Rattle.priz_cli.specs.steps.Faults.{fault_of_file};

use crate::refusal::Refusal;
use file_accept::FileFault;
use priz_base::NoMem;

/// Why an input has no text that is to be written.
#[derive(Clone, Copy, Debug, PartialEq, Eq)]
pub(crate) enum Fault {
    /// It is none that the mode takes.
    Refused(Refusal),
    /// Want of memory.
    NoMem,
}

impl From<NoMem> for Fault {
    ghost from_gives = { λ _ e. e ≡ fault.NoMem };

    fn from(_want: NoMem) -> Fault {
        Fault::NoMem
    }
}

impl From<FileFault> for Fault {
    ghost from_gives = { λ f e. e ≡ fault_of_file f };

    fn from(fault: FileFault) -> Fault {
        match fault {
            FileFault::Lex(fault) => Fault::Refused(Refusal::Lex(fault)),
            FileFault::Expected(place) => Fault::Refused(Refusal::Expected(place)),
            FileFault::TooDeep(place) => Fault::Refused(Refusal::TooDeep(place)),
            FileFault::Model(fault) => Fault::Refused(Refusal::Model(fault)),
            FileFault::NoMem => Fault::NoMem,
        }
    }
}
