//! Counting bytes, lines and columns.
ghost use Rattle.std.specs.Prelude.{◌≡◌, length};
ghost use Rattle.std.specs.Char.{len_utf8};
ghost use Rattle.std.specs.Str.{chars};
ghost use Rattle.utopist_lexer.specs.Places.{place_past, place_behind};
ghost use Rattle.utopist_lexer.specs.Cutting.{HasRoom};

use crate::first::first_char;
use priz_base::Place;

/// The place behind a text that begins at a place.
pub fn place_behind(start: Place, text: &str) -> Place
    requires { HasRoom start (length text.now) }
    ensures { result ≡ place_behind start (chars text.now) }
{
    let mut place = start;
    let mut rest = text;
    'characters: while let Some((c, after)) = first_char(rest) {
        place = place_past(place, c);
        rest = after;
    }
    place
}

fn place_past(place: Place, c: char) -> Place
    requires { HasRoom place (len_utf8 c) }
    ensures { result ≡ place_past place c }
{
    let at = place.at + c.len_utf8() as u32;
    if c == '\n' {
        Place {
            at,
            line: place.line + 1,
            col: 1,
        }
    } else {
        Place {
            at,
            line: place.line,
            col: place.col + 1,
        }
    }
}
