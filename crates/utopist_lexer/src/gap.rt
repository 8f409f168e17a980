//! Blanks and comments.
ghost use Rattle.std.specs.Prelude.{◌≡◌, false};
ghost use Rattle.std.specs.Str.{chars};
ghost use Rattle.utopist_lexer.specs.Cutting.{Parts};
ghost use Rattle.utopist_lexer.specs.Gap.{past_gap};

use crate::classes::is_blank;
use crate::cut::cut_before;
use crate::first::first_char;

/// The blanks and comments at the front, and what stands behind them.
pub fn cut_gap(text: &str) -> (&str, &str)
    ensures parts { Parts text.now result.0.now result.1.now }
    ensures rest { chars result.1.now ≡ past_gap false (chars text.now) }
{
    let mut rest = text;
    let mut inside = false;
    'gap: while let Some((c, after)) = first_char(rest) {
        if inside {
            inside = c != '\n';
        } else if c == '#' {
            inside = true;
        } else if !is_blank(c) {
            break;
        }
        rest = after;
    }
    cut_before(text, rest)
}
