//! Keywords.
ghost use Rattle.std.specs.Prelude.{◌≡◌};
ghost use Rattle.utopist_lexer.specs.Spelling.{word_text};

/// A keyword.
#[derive(Clone, Copy, Debug, PartialEq, Eq)]
pub enum Word {
    Concept,
    Is,
    Var,
    Numeric,
    Eq,
    Rel,
    Compute,
    Given,
    Find,
    If,
    Then,
    Else,
    Sum,
    Prod,
    Iter,
}

impl Word {
    /// Its characters.
    pub fn text(self) -> &'static [u8]
        ensures { result.now ≡ word_text self }
    {
        match self {
            Word::Concept => b"concept",
            Word::Is => b"is",
            Word::Var => b"var",
            Word::Numeric => b"numeric",
            Word::Eq => b"eq",
            Word::Rel => b"rel",
            Word::Compute => b"compute",
            Word::Given => b"given",
            Word::Find => b"find",
            Word::If => b"if",
            Word::Then => b"then",
            Word::Else => b"else",
            Word::Sum => b"sum",
            Word::Prod => b"prod",
            Word::Iter => b"iter",
        }
    }
}

pub const WORDS: [Word; 15] = [
    Word::Concept,
    Word::Is,
    Word::Var,
    Word::Numeric,
    Word::Eq,
    Word::Rel,
    Word::Compute,
    Word::Given,
    Word::Find,
    Word::If,
    Word::Then,
    Word::Else,
    Word::Sum,
    Word::Prod,
    Word::Iter,
];
