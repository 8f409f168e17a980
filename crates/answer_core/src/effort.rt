/// What may be spent on an answer.
#[derive(Clone, Copy, PartialEq, Eq, Debug)]
pub struct Effort {
    /// How many turns the run of a program may take: one for each step, and one for each round of a loop.
    pub turns: u32,
}
