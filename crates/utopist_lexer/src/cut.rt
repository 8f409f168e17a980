//! Cutting a text before a part of it.
ghost use Rattle.std.specs.Prelude.{◌≡◌, ℕ, List, ◌++◌};
ghost use Rattle.utopist_lexer.specs.Cutting.{Parts};

/// The text in two parts, of which the second is its end that is given.
pub fn cut_before<'a>(text: &'a str, rest: &str) -> (&'a str, &'a str)
    requires { (front : List ℕ) × (text.now ≡ front ++ rest.now) }
    ensures parts { Parts text.entry.now result.0.now result.1.now }
    ensures rest { result.1.now ≡ rest.now }
{
    text.split_at(text.len() - rest.len())
}
