//! Laws of the lexical relation.
ghost use Rattle.std.specs.Prelude.{ℕ, List};
ghost use Rattle.std.specs.Str.{IsUtf8};
ghost use Rattle.utopist_lexer.specs.Scanning.{Scan};
ghost use Rattle.token_lists.specs.Next.{NextExists, BehindStands, AnswersExist};
ghost use Rattle.token_lists.specs.AllTokens.{HasTokens};
ghost use Rattle.token_lists.specs.TokensFrom.{TokensExist, FirstAreAll, OneListFrom, NextIsFirst, EndHasNone, FaultHasNone};

/// At each place of a text a token is next, or the end, or a fault; so the lexer has an answer.
pub fn next_exists()
    ensures next { (s : Scan) → NextExists s }
    ensures behind { (s : Scan) → BehindStands s }
    ensures answer { (text : List ℕ) → IsUtf8 text → AnswersExist text }
{}

/// A text has a list of tokens, or a first fault behind one; and so has what is left at a place.
pub fn texts_have_a_reading()
    ensures text { (text : List ℕ) → HasTokens text }
    ensures left { (text : List ℕ) → TokensExist text }
    ensures all { (text : List ℕ) → FirstAreAll text }
{}

/// What is next is the first of the tokens of what is left, or the end or fault behind them.
pub fn next_is_first()
    ensures one { (whole left : List ℕ) → OneListFrom whole left }
    ensures token { (s : Scan) → NextIsFirst s }
    ensures end { (s : Scan) → EndHasNone s }
    ensures fault { (s : Scan) → FaultHasNone s }
{}
