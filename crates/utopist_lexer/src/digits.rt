//! The value of digits.
ghost use Rattle.std.specs.Str.{chars};
ghost use Rattle.utopist_lexer.specs.Lexical.{AreDigits};
ghost use Rattle.utopist_lexer.specs.Cutting.{IsValue};

/// The value of digits, or none where it is past 2^63 - 1.
pub fn value_of(digits: &str) -> Option<i64>
    requires { AreDigits (chars digits.now) }
    ensures { IsValue (chars digits.now) result }
{
    digits.parse::<i64>().ok()
}
