//! Marks.
ghost use Rattle.std.specs.Prelude.{◌≡◌};
ghost use Rattle.utopist_lexer.specs.Spelling.{mark_text};

/// A mark.
#[derive(Clone, Copy, Debug, PartialEq, Eq)]
pub enum Mark {
    OpenRound,
    CloseRound,
    OpenSquare,
    CloseSquare,
    OpenCurly,
    CloseCurly,
    Colon,
    Semicolon,
    Comma,
    Dot,
    Equal,
    Less,
    AtMost,
    Plus,
    Minus,
    Star,
    Slash,
    Arrow,
}

impl Mark {
    /// Its characters.
    pub fn text(self) -> &'static [u8]
        ensures { result.now ≡ mark_text self }
    {
        match self {
            Mark::OpenRound => b"(",
            Mark::CloseRound => b")",
            Mark::OpenSquare => b"[",
            Mark::CloseSquare => b"]",
            Mark::OpenCurly => b"{",
            Mark::CloseCurly => b"}",
            Mark::Colon => b":",
            Mark::Semicolon => b";",
            Mark::Comma => b",",
            Mark::Dot => b".",
            Mark::Equal => b"=",
            Mark::Less => b"<",
            Mark::AtMost => b"<=",
            Mark::Plus => b"+",
            Mark::Minus => b"-",
            Mark::Star => b"*",
            Mark::Slash => b"/",
            Mark::Arrow => b"->",
        }
    }
}
