use priz_base::Var;
use sqlite_items::Items;

/// A program from the inputs to the outputs is needed. It has an input and an output at least; outputs may repeat.
#[derive(Debug, Drop)]
pub struct Subtask {
    pub inputs: Items<Var>,
    pub outputs: Items<Var>,
}

/// A subtask as a problem lends it.
#[derive(Clone, Copy, Debug)]
pub struct SubView<'a> {
    pub inputs: &'a [Var],
    pub outputs: &'a [Var],
}
