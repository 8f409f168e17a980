//! The token at the front of a text.
ghost use Rattle.std.specs.Prelude.{◌≡◌, ◌↔◌, IsTrue};
ghost use Rattle.std.specs.Str.{chars};
ghost use Rattle.utopist_lexer.specs.Characters.{is_start, has, starts_otherwise};
ghost use Rattle.utopist_lexer.specs.Lexical.{IsFree};
ghost use Rattle.utopist_lexer.specs.Cutting.{StartsBy, StartsWith, TokenOf, FrontOf, OutputAt, DigitsIfAny, IsOutput};
ghost use Rattle.utopist_lexer.specs.steps.Tables.{word_of, front_mark};

use crate::classes::{Class, is_continue, is_start};
use crate::cut::cut_before;
use crate::digits::value_of;
use crate::fault::LexKind;
use crate::first::first_char;
use crate::mark::Mark;
use crate::run::cut_run;
use crate::token::Kind;
use crate::word::{WORDS, Word};

/// What the token at the front is, its characters, and what follows it. At the end of the text it is the end.
pub fn front_of(text: &str) -> Result<(Kind, &str, &str), LexKind>
    ensures { FrontOf text.now result }
{
    let Some((c, behind)) = first_char(text) else {
        return Ok((Kind::End, text, text));
    };
    token_of(text, c, behind)
}

// The token that begins with this character, behind which this stands.
fn token_of<'a>(
    text: &'a str,
    c: char,
    behind: &'a str,
) -> Result<(Kind, &'a str, &'a str), LexKind>
    requires { StartsWith text.now c behind.now }
    ensures { TokenOf text.entry.now result }
{
    if is_start(c) {
        identifier_of(text)
    } else if c.is_ascii_digit() {
        number_of(text)
    } else if c == '$' {
        sub_of(text, behind)
    } else {
        mark_of(text)
    }
}

const MAX_NAME: usize = 255;

fn identifier_of(text: &str) -> Result<(Kind, &str, &str), LexKind>
    requires { StartsBy is_start text.now }
    ensures { TokenOf text.now result }
{
    let (name, rest) = cut_run(text, Class::Identifier);
    match word_of(name) {
        Some(word) => Ok((Kind::Word(word), name, rest)),
        None if name.len() > MAX_NAME => Err(LexKind::NameTooLong),
        None => Ok((Kind::Name, name, rest)),
    }
}

fn number_of(text: &str) -> Result<(Kind, &str, &str), LexKind>
    requires { StartsBy (has Class.Digits) text.now }
    ensures { TokenOf text.now result }
{
    let (digits, rest) = cut_run(text, Class::Digits);
    if !is_free(rest) {
        return Err(LexKind::BadNumber);
    }
    match value_of(digits) {
        Some(value) => Ok((Kind::Number(value), digits, rest)),
        None => Err(LexKind::NumberTooWide),
    }
}

// Behind the $ stand digits, and perhaps a dot and digits.
fn sub_of<'a>(text: &'a str, behind: &'a str) -> Result<(Kind, &'a str, &'a str), LexKind>
    requires { StartsWith text.now 36 behind.now }
    ensures { TokenOf text.entry.now result }
{
    let (digits, rest) = cut_run(behind, Class::Digits);
    if digits.is_empty() {
        return Err(LexKind::BadNumber);
    }
    let (output, rest) = output_at(rest);
    if !is_free(rest) {
        return Err(LexKind::BadNumber);
    }
    match value_of(digits) {
        Some(k) => match output_of(output) {
            Some(out) => {
                let (sub, rest) = cut_before(text, rest);
                Ok((Kind::Sub { k, out }, sub, rest))
            }
            None => Err(LexKind::NumberTooWide),
        },
        None => Err(LexKind::NumberTooWide),
    }
}

// The digits behind a dot at the front, and what follows them; or none, and the text.
fn output_at(text: &str) -> (Option<&str>, &str)
    ensures { OutputAt text.now result.0 result.1.now }
{
    let Some((c, behind)) = first_char(text) else {
        return (None, text);
    };
    if c != '.' {
        return (None, text);
    }
    let (output, rest) = cut_run(behind, Class::Digits);
    if output.is_empty() {
        (None, text)
    } else {
        (Some(output), rest)
    }
}

// The value of the digits, or 1 where there are none.
fn output_of(digits: Option<&str>) -> Option<i64>
    requires { DigitsIfAny digits }
    ensures { IsOutput digits.entry result }
{
    match digits {
        Some(digits) => value_of(digits),
        None => Some(1),
    }
}

fn mark_of(text: &str) -> Result<(Kind, &str, &str), LexKind>
    requires { StartsBy starts_otherwise text.now }
    ensures { TokenOf text.now result }
{
    match front_mark(text.as_bytes()) {
        Some(mark) => {
            let (front, rest) = text.split_at(mark.text().len());
            Ok((Kind::Mark(mark), front, rest))
        }
        None => Err(LexKind::BadChar),
    }
}

// Whether neither a dot nor what continues an identifier stands at the front.
fn is_free(text: &str) -> bool
    ensures { IsTrue result ↔ IsFree (chars text.now) }
{
    match first_char(text) {
        Some((c, _)) => c != '.' && !is_continue(c),
        None => true,
    }
}

fn word_of(text: &str) -> Option<Word>
    ensures { result ≡ word_of text.now }
{
    WORDS.iter().copied().find(|w| w.text() == text.as_bytes())
}

fn front_mark(text: &[u8]) -> Option<Mark>
    ensures { result ≡ front_mark text.now }
{
    match text {
        [b'<', b'=', ..] => Some(Mark::AtMost),
        [b'-', b'>', ..] => Some(Mark::Arrow),
        [b'(', ..] => Some(Mark::OpenRound),
        [b')', ..] => Some(Mark::CloseRound),
        [b'[', ..] => Some(Mark::OpenSquare),
        [b']', ..] => Some(Mark::CloseSquare),
        [b'{', ..] => Some(Mark::OpenCurly),
        [b'}', ..] => Some(Mark::CloseCurly),
        [b':', ..] => Some(Mark::Colon),
        [b';', ..] => Some(Mark::Semicolon),
        [b',', ..] => Some(Mark::Comma),
        [b'.', ..] => Some(Mark::Dot),
        [b'=', ..] => Some(Mark::Equal),
        [b'<', ..] => Some(Mark::Less),
        [b'+', ..] => Some(Mark::Plus),
        [b'-', ..] => Some(Mark::Minus),
        [b'*', ..] => Some(Mark::Star),
        [b'/', ..] => Some(Mark::Slash),
        _ => None,
    }
}
