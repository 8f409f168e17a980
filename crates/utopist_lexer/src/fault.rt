//! Why a text has no token.
use priz_base::Place;

/// Why no token stands at a place.
#[derive(Clone, Copy, Debug, PartialEq, Eq)]
pub enum LexKind {
    /// A character that begins no token.
    BadChar,
    /// Digits that a letter, a dot or the like follows directly, or `$` without digits.
    BadNumber,
    /// A number past 2^63 - 1.
    NumberTooWide,
    /// A name of more than 255 bytes.
    NameTooLong,
}

/// Why no token stands here. The place is that of its first character.
#[derive(Clone, Copy, Debug, PartialEq, Eq)]
pub struct LexFault {
    pub place: Place,
    pub kind: LexKind,
}
