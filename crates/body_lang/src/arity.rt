/// What a subtask takes and gives: how many inputs, and how many outputs.
#[derive(Clone, Copy, PartialEq, Eq, Debug)]
pub struct Arity {
    pub inputs: u32,
    pub outputs: u32,
}
