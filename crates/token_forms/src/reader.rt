//! A text, token by token.
ghost use Rattle.std.specs.Prelude.{◌≡◌, ◌≤◌, pos, ◌≤ℤ◌, ◌<ℤ◌, drop, length, IfOk};
ghost use Rattle.std.specs.Str.{chars};
ghost use Rattle.priz_base.specs.Reading.{max_input};
ghost use Rattle.token_forms.specs.steps.Answers.{ReadBy, GoesOn};
ghost use Rattle.token_forms.specs.steps.Single.{is_kind, is_word, is_mark, is_sub, fixed_at, word_at, mark_at, name_at, number_at, divisor_at, sub_at};
ghost use Rattle.token_forms.specs.steps.Steps.{next, meets};
ghost use Rattle.token_forms.specs.steps.Views.{StartsAs, StandsAt};

use crate::parse_stop::{ParseStop, Why};
use priz_base::Place;
use std::alloc::Global;
use std::marker::Model;
use utopist_lexer::{Kind, LexFault, Lexer, Mark, Token, Word};
use utopist_syntax::Name;

/// Takes the tokens of a text from its lexer, one at a time. Contracts see the text, and the symbols that are left of it.
#[derive(Drop)]
pub struct Reader<'a> {
    pub alloc: Global,
    lexer: Lexer<'a>,
    /// The next token, or why there is none; and nothing behind the end.
    front: Option<Result<Token<'a>, LexFault>>,
}

impl<'a> Model for Reader<'a> {
    ghost use Rattle.token_forms.specs.steps.Left.{Left};
    ghost use Rattle.token_forms.specs.steps.Ahead.{left_at};
    ghost use Rattle.token_forms.specs.steps.Reading.{IsAt};

    ghost Value = { Left };

    ghost view = { λ r. left_at r.lexer r.front };

    ghost invariant = { λ r. IsAt r.lexer r.front };
}

impl<'a> Reader<'a> {
    pub fn new(alloc: Global, text: &'a str) -> Reader<'a>
        requires { length text.now ≤ max_input }
        ensures { StartsAs (chars text.entry.now) result }
    {
        let mut lexer = Lexer::new(text);
        let front = Some(lexer.next());
        Reader {
            alloc,
            lexer,
            front,
        }
    }

    pub fn next_is(&self, kind: Kind) -> bool
        ensures { result ≡ meets (is_kind kind) (next self.now.symbols) }
    {
        matches!(&self.front, Some(Ok(token)) if token.kind.is(kind))
    }

    pub fn next_is_word(&self, word: Word) -> bool
        ensures { result ≡ meets (is_word word) (next self.now.symbols) }
    {
        self.next_is(Kind::Word(word))
    }

    pub fn next_is_mark(&self, mark: Mark) -> bool
        ensures { result ≡ meets (is_mark mark) (next self.now.symbols) }
    {
        self.next_is(Kind::Mark(mark))
    }

    pub fn next_is_sub(&self) -> bool
        ensures { result ≡ meets is_sub (next self.now.symbols) }
    {
        match &self.front {
            Some(Ok(token)) => matches!(token.kind, Kind::Sub { k, out } if k >= 0 && out >= 0),
            _ => false,
        }
    }

    /// The place of the next token, or why there is none; and nothing behind the end.
    pub fn place(&self) -> Option<Result<Place, LexFault>>
        ensures { StandsAt self.now result }
    {
        match &self.front {
            Some(Ok(token)) => Some(Ok(token.place())),
            Some(Err(fault)) => Some(Err(*fault)),
            None => None,
        }
    }

    /// Passes the next token, if there is one.
    pub fn advance(&mut self)
        ensures symbols { self.new.symbols ≡ drop 1 self.old.symbols }
        ensures text { self.new.text ≡ self.old.text }
    {
        if let Some(Ok(token)) = &self.front {
            if token.kind.is(Kind::End) {
                self.front = None;
            } else {
                self.front = Some(self.lexer.next());
            }
        }
    }

    #[tactic(auto, unfolding(crate::specs::steps::Single::fixed_at))]
    pub fn fixed(&mut self, kind: Kind) -> Result<(), ParseStop>
        ensures reads { ReadBy (fixed_at kind) self.old result self.new }
        ensures goes_on { GoesOn self.old result self.new }
    {
        if !self.next_is(kind) {
            return Err(ParseStop::Wrong(Why::Unexpected));
        }
        self.advance();
        Ok(())
    }

    pub fn word(&mut self, word: Word) -> Result<(), ParseStop>
        ensures reads { ReadBy (word_at word) self.old result self.new }
        ensures goes_on { GoesOn self.old result self.new }
    {
        self.fixed(Kind::Word(word))
    }

    pub fn mark(&mut self, mark: Mark) -> Result<(), ParseStop>
        ensures reads { ReadBy (mark_at mark) self.old result self.new }
        ensures goes_on { GoesOn self.old result self.new }
    {
        self.fixed(Kind::Mark(mark))
    }

    #[tactic(auto, unfolding(crate::specs::steps::Single::name_at))]
    pub fn name(&mut self) -> Result<Name<'a>, ParseStop>
        ensures reads { ReadBy name_at self.old result self.new }
        ensures goes_on { GoesOn self.old result self.new }
    {
        let Some(Ok(token)) = &self.front else {
            return Err(ParseStop::Wrong(Why::Unexpected));
        };
        match token.kind {
            Kind::Name => {
                let name = Name::new(token.text, token.place());
                self.advance();
                Ok(name)
            }
            _ => Err(ParseStop::Wrong(Why::Unexpected)),
        }
    }

    #[tactic(auto, unfolding(crate::specs::steps::Single::number_at))]
    pub fn number(&mut self) -> Result<i64, ParseStop>
        ensures reads { ReadBy number_at self.old result self.new }
        ensures natural { IfOk result (λ n. pos 0 ≤ℤ n) }
        ensures goes_on { GoesOn self.old result self.new }
    {
        let Some(Ok(token)) = &self.front else {
            return Err(ParseStop::Wrong(Why::Unexpected));
        };
        match token.kind {
            Kind::Number(n) if n >= 0 => {
                self.advance();
                Ok(n)
            }
            _ => Err(ParseStop::Wrong(Why::Unexpected)),
        }
    }

    #[tactic(auto, unfolding(crate::specs::steps::Single::divisor_at))]
    pub fn divisor(&mut self) -> Result<i64, ParseStop>
        ensures reads { ReadBy divisor_at self.old result self.new }
        ensures positive { IfOk result (λ d. pos 0 <ℤ d) }
        ensures goes_on { GoesOn self.old result self.new }
    {
        let Some(Ok(token)) = &self.front else {
            return Err(ParseStop::Wrong(Why::Unexpected));
        };
        match token.kind {
            Kind::Number(n) if n > 0 => {
                self.advance();
                Ok(n)
            }
            _ => Err(ParseStop::Wrong(Why::Unexpected)),
        }
    }

    #[tactic(auto, unfolding(crate::specs::steps::Single::sub_at))]
    pub fn sub(&mut self) -> Result<((i64, i64), Place), ParseStop>
        ensures reads { ReadBy sub_at self.old result self.new }
        ensures goes_on { GoesOn self.old result self.new }
    {
        let Some(Ok(token)) = &self.front else {
            return Err(ParseStop::Wrong(Why::Unexpected));
        };
        match token.kind {
            Kind::Sub { k, out } if k >= 0 && out >= 0 => {
                let place = token.place();
                self.advance();
                Ok(((k, out), place))
            }
            _ => Err(ParseStop::Wrong(Why::Unexpected)),
        }
    }
}
