/// What a loop makes of its rounds: their sum, their product, or a value that each round replaces.
#[derive(Clone, Copy, PartialEq, Eq, Debug)]
pub enum LoopKind {
    Sum,
    Prod,
    Iter,
}
