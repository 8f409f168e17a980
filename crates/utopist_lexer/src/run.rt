//! Runs of characters of one class.
ghost use Rattle.std.specs.Prelude.{◌≡◌};
ghost use Rattle.std.specs.Str.{chars};
ghost use Rattle.utopist_lexer.specs.Characters.{has};
ghost use Rattle.utopist_lexer.specs.Cutting.{Parts, IsRun};

use crate::classes::Class;
use crate::cut::cut_before;
use crate::first::first_char;

/// The longest front of a class, and what follows it.
pub fn cut_run(text: &str, class: Class) -> (&str, &str)
    ensures parts { Parts text.now result.0.now result.1.now }
    ensures run { IsRun (has class) (chars result.0.now) (chars result.1.now) }
{
    let mut rest = text;
    'run: while let Some((c, after)) = first_char(rest) {
        if !class.has(c) {
            break;
        }
        rest = after;
    }
    cut_before(text, rest)
}
