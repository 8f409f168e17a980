use crate::Values;
use kripke_check::Worlds;
use proof_term::Block;

/// The answer to a problem.
#[derive(Debug, Drop)]
pub enum Answer {
    /// The goal can be computed, by this block.
    Program {
        block: Block,
        separate: bool,
        values: Values,
    },
    /// The goal cannot be computed, as these worlds show.
    NoProgram {
        worlds: Worlds,
    },
}
