//! The forms that are read, and that a mode leaves out.
ghost use Rattle.std.specs.Prelude.{◌≡◌, ◌≤◌, length};
ghost use Rattle.std.specs.Str.{chars};
ghost use Rattle.priz_base.specs.Reading.{max_input};
ghost use Rattle.file_accept.specs.Unbuilt.{word_opens, mark_opens, opens, context_behind, LeftOutOf, not_solved};

use priz_base::Place;
use utopist_lexer::{Kind, Lexer, Mark, Word};

/// The forms that a mode leaves out.
#[derive(Clone, Copy)]
pub(crate) struct LeftOut {
    /// The parents of a concept.
    pub(crate) parents: bool,
    /// Variables of a concept, and their bindings.
    pub(crate) components: bool,
    pub(crate) equations: bool,
    /// Subtasks among the parts of a relation.
    pub(crate) subtasks: bool,
    /// Calls of subtasks in a body.
    pub(crate) calls: bool,
}

impl LeftOut {
    /// What `solve` leaves out.
    pub(crate) fn not_solved() -> LeftOut
        ensures { result ≡ not_solved }
    {
        LeftOut {
            parents: true,
            components: true,
            equations: true,
            subtasks: true,
            calls: true,
        }
    }

    fn has_word(self, word: Word) -> bool
        ensures { result ≡ word_opens self word }
    {
        match word {
            Word::Is => self.parents,
            Word::Eq => self.equations,
            _ => false,
        }
    }

    fn has_mark(self, mark: Mark) -> bool
        ensures { result ≡ mark_opens self mark }
    {
        matches!(mark, Mark::OpenSquare) && self.subtasks
    }
}

/// What stands before a token.
#[derive(Clone, Copy, PartialEq, Eq, Debug)]
pub(crate) struct Context {
    /// The last keyword is `var`.
    pub(crate) in_var: bool,
    /// The last token is a colon.
    pub(crate) behind_colon: bool,
}

impl Context {
    /// Whether this token begins a form that is left out.
    fn opens(self, left_out: LeftOut, kind: Kind) -> bool
        ensures { result ≡ opens left_out self kind }
    {
        match kind {
            Kind::Name => left_out.components && self.in_var && self.behind_colon,
            Kind::Word(word) => left_out.has_word(word),
            Kind::Mark(mark) => left_out.has_mark(mark),
            // A call of a subtask.
            Kind::Sub { .. } => left_out.calls,
            Kind::Number(_) | Kind::End => false,
        }
    }

    /// What stands before the token behind this one.
    fn behind(self, kind: Kind) -> Context
        ensures { result ≡ context_behind self kind }
    {
        match kind {
            Kind::Word(word) => Context {
                in_var: matches!(word, Word::Var),
                behind_colon: false,
            },
            Kind::Mark(mark) => Context {
                in_var: self.in_var,
                behind_colon: matches!(mark, Mark::Colon),
            },
            Kind::Name | Kind::Number(_) | Kind::Sub { .. } | Kind::End => Context {
                in_var: self.in_var,
                behind_colon: false,
            },
        }
    }
}

/// The place of the first token that begins a form that is left out. No memory is taken, and no token behind it is cut.
pub(crate) fn first_left_out(text: &str, left_out: LeftOut) -> Option<Place>
    requires { length text.now ≤ max_input }
    ensures { LeftOutOf left_out (chars text.entry.now) result }
{
    let mut lexer = Lexer::new(text);
    let mut context = Context {
        in_var: false,
        behind_colon: false,
    };
    'tokens: loop {
        let Ok(token) = lexer.next() else {
            return None;
        };
        if token.kind.is(Kind::End) {
            return None;
        }
        if context.opens(left_out, token.kind) {
            return Some(token.place());
        }
        context = context.behind(token.kind);
    }
}
