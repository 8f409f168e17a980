//! Classes of characters.
ghost use Rattle.std.specs.Prelude.{◌≡◌};
ghost use Rattle.utopist_lexer.specs.Characters.{is_blank, is_start, is_continue, has};

use unicode_ident::{is_xid_continue, is_xid_start};

pub fn is_blank(c: char) -> bool
    ensures { result ≡ is_blank c }
{
    c == ' ' || c == '\t' || c == '\n' || c == '\r'
}

/// Most characters are answered without Unicode's tables.
#[tactic(auto, using(crate::proofs::CharacterFacts::start_ascii))]
pub fn is_start(c: char) -> bool
    ensures { result ≡ is_start c }
{
    if c.is_ascii() {
        c.is_ascii_alphabetic() || c == '_'
    } else {
        is_xid_start(c)
    }
}

pub fn is_continue(c: char) -> bool
    ensures { result ≡ is_continue c }
{
    if c.is_ascii() {
        c.is_ascii_alphanumeric() || c == '_'
    } else {
        is_xid_continue(c)
    }
}

/// The characters that a run goes on with.
#[derive(Clone, Copy)]
pub enum Class {
    Identifier,
    Digits,
}

impl Class {
    pub fn has(self, c: char) -> bool
        ensures { result ≡ has self c }
    {
        match self {
            Class::Identifier => is_continue(c),
            Class::Digits => c.is_ascii_digit(),
        }
    }
}
