/// Operands with operators of one level between them, grouped from the left.
#[derive(Clone, Copy, PartialEq, Eq, Debug)]
pub enum Group {
    /// Terms, which are added and subtracted.
    Chain,
    /// Factors, which are multiplied and divided.
    Term,
}
