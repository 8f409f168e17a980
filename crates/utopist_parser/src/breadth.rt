/// What may stand in an expression.
#[derive(Clone, Copy, PartialEq, Eq, Debug)]
pub enum Breadth {
    /// Choices, calls and loops beside arithmetic.
    All,
    /// Numbers, paths, operators and parentheses alone.
    Arithmetic,
}

/// The room of a whole expression: what is read at a room is nested at most one more.
pub const MOST_ROOM: u32 = 63;
