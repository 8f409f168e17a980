//! The tokens of a text, one at a time.
ghost use Rattle.std.specs.Prelude.{◌≡◌, ◌≤◌, length, IfOk};
ghost use Rattle.std.specs.Str.{chars, encode_utf8_all};
ghost use Rattle.priz_base.specs.Reading.{max_input};
ghost use Rattle.utopist_lexer.specs.Scanning.{tok, NextOf};

use crate::fault::LexFault;
use crate::front::front_of;
use crate::gap::cut_gap;
use crate::places::place_behind;
use crate::token::{Kind, Token};
use priz_base::Place;
use std::marker::Model;

/// Reads a text from left to right. Contracts see the characters of the text, and of what is left of it.
#[derive(Drop)]
pub struct Lexer<'a> {
    text: &'a str,
    rest: &'a str,
    place: Place,
}

impl<'a> Model for Lexer<'a> {
    ghost use Rattle.std.specs.Str.{chars};
    ghost use Rattle.utopist_lexer.specs.Scanning.{Scan};
    ghost use Rattle.utopist_lexer.specs.Cutting.{IsReached};

    ghost Value = { Scan };

    ghost view = { λ s. record { whole = chars s.text.now; left = chars s.rest.now } };

    ghost invariant = { λ s. IsReached s.text.now s.rest.now s.place };
}

impl<'a> Lexer<'a> {
    pub fn new(text: &'a str) -> Lexer<'a>
        requires { length text.now ≤ max_input }
        ensures { result ≡ record { whole = chars text.entry.now; left = chars text.entry.now } }
    {
        Lexer {
            text,
            rest: text,
            place: Place {
                at: 0,
                line: 1,
                col: 1,
            },
        }
    }

    /// The next token. The end is given again after the end, and a fault again after a fault.
    pub fn next(&mut self) -> Result<Token<'a>, LexFault>
        ensures next { NextOf self.old result self.new.left }
        ensures whole { self.new.whole ≡ self.old.whole }
        ensures text { IfOk result (λ t. encode_utf8_all (chars t.text.now) ≡ t.text.now) }
    {
        let (gap, front) = cut_gap(self.rest);
        let place = place_behind(self.place, gap);
        match front_of(front) {
            Ok((kind, text, rest)) => {
                self.rest = rest;
                self.place = place_behind(place, text);
                Ok(token_at(kind, text, place))
            }
            Err(kind) => Err(LexFault { place, kind }),
        }
    }
}

fn token_at(kind: Kind, text: &str, place: Place) -> Token<'_>
    ensures token { tok result ≡ record { kind = kind; text = chars text.now; place = place } }
    ensures text { result.text.now ≡ text.now }
{
    Token {
        kind,
        text,
        at: place.at,
        line: place.line,
        col: place.col,
    }
}
