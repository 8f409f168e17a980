use crate::{Cmp, Op};
use priz_frac::Frac;
use sqlite_items::{Boxed, Items};

/// An expression of a statement's inputs, which gives the value of its output.
///
/// Its parts are taken from left to right, and the first fault ends the run. `check_body` passes it
/// just where the number of each input is below the count of inputs, that of each local below the
/// count of the loops around it, and each call has a subtask with as many inputs as it has arguments,
/// and with the output that it asks for.
#[derive(Drop)]
pub enum Body {
    Num(Frac),
    /// The value of the statement's input with this number, from 0 on.
    Input(u32),
    /// The variable of the enclosing loop with this number, the outermost being 0.
    Local(u32),
    Neg(Boxed<Body>),
    Op {
        op: Op,
        left: Boxed<Body>,
        right: Boxed<Body>,
    },
    /// Takes both sides of the comparison, and then one branch only.
    If {
        cmp: Cmp,
        left: Boxed<Body>,
        right: Boxed<Body>,
        yes: Boxed<Body>,
        no: Boxed<Body>,
    },
    /// The sum of `each` over the whole numbers from `first` to `second`, 0 where there are none.
    ///
    /// The variable of a loop encloses `each` alone, here and in the other loops.
    Sum {
        first: Boxed<Body>,
        second: Boxed<Body>,
        each: Boxed<Body>,
    },
    /// The product of `each` over the whole numbers from `first` to `second`, 1 where there are none.
    Prod {
        first: Boxed<Body>,
        second: Boxed<Body>,
        each: Boxed<Body>,
    },
    /// Starts with the value of `first`, and replaces it by that of `each`, `second` times.
    Iter {
        first: Boxed<Body>,
        second: Boxed<Body>,
        each: Boxed<Body>,
    },
    /// What the statement's subtask with this number gives for the arguments: its output with the number `out`.
    /// Both count from 0 on.
    Call {
        k: u32,
        out: u32,
        args: Items<Body>,
    },
}
