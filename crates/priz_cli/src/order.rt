use answer_core::Effort;

/// What the words of the command line ask for.
#[derive(Clone, Copy, PartialEq, Eq, Debug)]
pub struct Order {
    /// What is to be done.
    pub mode: Mode,
    /// What may be spent on each answer.
    pub effort: Effort,
}

/// What the program can do with an input.
#[derive(Clone, Copy, PartialEq, Eq, Debug)]
pub enum Mode {
    /// Answers each compute statement of a file.
    Solve,
}
