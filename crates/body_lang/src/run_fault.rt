/// Why the run of a body ends without a value.
#[derive(Clone, Copy, PartialEq, Eq, Debug)]
pub enum RunFault {
    /// The divisor of a quotient is 0.
    ZeroDivisor,
    /// A part of a result in lowest terms is past 2^63 - 1.
    Width,
    /// A bound of a loop is no whole number.
    NotWhole,
    /// `Iter` is to make fewer than 0 rounds.
    NegativeBound,
    /// A round is due, and no turn is left.
    Turns,
}
