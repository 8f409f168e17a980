use crate::Block;
use sqlite_items::Items;

/// A use of a statement, with an answer to each of its subtasks.
#[cycle(proof)]
#[derive(Debug, Drop)]
pub struct Step {
    pub stmt: u32,
    pub subs: Items<Sub>,
}

/// How a subtask is answered: its results are known, or a block computes them.
#[cycle(proof)]
#[derive(Debug, Drop)]
pub enum Sub {
    Known,
    Body(Block),
}
