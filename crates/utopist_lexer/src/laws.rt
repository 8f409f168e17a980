//! Laws of the lexical relation.
ghost use Rattle.std.specs.Prelude.{ℕ, List};
ghost use Rattle.utopist_lexer.specs.OneReading.{OneList, OneFault, NotBoth};

/// A text has one list of tokens, or one first fault behind one list of tokens.
pub fn texts_have_one_reading()
    ensures list { (text : List ℕ) → OneList text }
    ensures fault { (text : List ℕ) → OneFault text }
    ensures either { (text : List ℕ) → NotBoth text }
{}
