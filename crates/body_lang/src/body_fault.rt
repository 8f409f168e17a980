/// What is wrong with a node of a body.
#[derive(Clone, Copy, PartialEq, Eq, Debug)]
pub enum BodyFault {
    /// The statement has no input with this number.
    BadInput,
    /// No enclosing loop has this number.
    BadLocal,
    /// The statement has no subtask with this number, or that has no such output.
    BadCall,
    /// The call gives more or fewer arguments than its subtask has inputs.
    BadArity,
}
