ghost use Rattle.std.specs.Prelude.{◌≡◌};
ghost use Rattle.priz_cli.specs.Statuses.{status_of};

use crate::refusal::Refusal;
use answer_core::Answer;
use sqlite_items::Items;

/// What the program did.
#[derive(Debug, Drop)]
pub enum Outcome {
    /// The report of these answers was written.
    Solved(Items<Answer>),
    /// The words ask for nothing that the program does.
    Usage,
    /// The input is no file that the program accepts.
    Refused(Refusal),
    /// The input has more bytes than the limit.
    InputTooLong,
    /// The input could not be read.
    ReadFault,
    /// The report could not be written whole.
    WriteFault,
    /// Want of memory.
    NoMem,
}

/// The status that the program ends with.
pub fn status(outcome: &Outcome) -> u8
    ensures { result ≡ status_of outcome.now }
{
    match outcome {
        Outcome::Solved(_) => 0,
        Outcome::Usage => 2,
        Outcome::Refused(_) => 3,
        Outcome::ReadFault => 4,
        Outcome::WriteFault => 5,
        Outcome::NoMem => 6,
        Outcome::InputTooLong => 7,
    }
}
