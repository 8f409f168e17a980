ghost use Rattle.std.specs.Prelude.{◌≡◌, suc, IfOk};

use priz_base::{NoMem, Var};
use statement_set::Problem;

/// What the variables of a body's part are: its statement's inputs, and those of the loops whose
/// rounds hold it.
#[derive(Clone, Copy)]
pub(crate) struct Scope<'t> {
    pub problem: &'t Problem,
    pub inputs: &'t [Var],
    pub rounds: u64,
}

/// One more loop. More of them than a number of 64 bits counts have no room in any memory.
pub(crate) fn one_more(rounds: u64) -> Result<u64, NoMem>
    ensures { IfOk result (λ n. n ≡ suc rounds) }
{
    rounds.checked_add(1).ok_or(NoMem)
}
