//! The first character of a text.
ghost use Rattle.std.specs.Prelude.{◌≡◌, ◌<◌, ◌++◌, length, IfSome};
ghost use Rattle.std.specs.Char.{encode_utf8};
ghost use Rattle.utopist_lexer.specs.Cutting.{FirstOf};

/// The first character, and what follows it.
pub fn first_char(text: &str) -> Option<(char, &str)>
    ensures first { FirstOf text.now result }
    ensures bytes { IfSome result (λ x. text.now ≡ encode_utf8 x.0 ++ x.1.now) }
    ensures shorter { IfSome result (λ x. length x.1.now < length text.now) }
{
    let mut left = text.chars();
    let c = left.next()?;
    Some((c, left.as_str()))
}
