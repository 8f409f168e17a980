//! Why there is no fraction.

/// Why a call gives no fraction.
#[derive(Clone, Copy, Debug, PartialEq, Eq)]
pub enum FracFault {
    /// A part of the result in lowest terms is past 2^63 - 1.
    Width,
    /// The divisor is 0.
    ZeroDivisor,
}
