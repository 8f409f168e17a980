//! Operators, comparisons and kinds of loops.
ghost use Rattle.std.specs.Prelude.{◌≡◌};
ghost use Rattle.token_forms.specs.steps.Answers.{ReadBy, GoesOn};
ghost use Rattle.utopist_parser.specs.steps.ReadingExpr.{sign_of, scale_of, operator_of, loop_of, cmp_of};
ghost use Rattle.token_forms.specs.steps.Steps.{next, pick_at};

use crate::group::Group;
use body_lang::{Cmp, LoopKind, Op};
use token_forms::{ParseStop, Reader, Why};
use utopist_lexer::{Mark, Word};

/// The operator of a group that stands there.
pub fn operator_of(reader: &Reader, group: Group) -> Option<Op>
    ensures { result ≡ operator_of group (next reader.now.symbols) }
{
    match group {
        Group::Chain => sign_of(reader),
        Group::Term => scale_of(reader),
    }
}

fn sign_of(reader: &Reader) -> Option<Op>
    ensures { result ≡ sign_of (next reader.now.symbols) }
{
    if reader.next_is_mark(Mark::Plus) {
        Some(Op::Add)
    } else if reader.next_is_mark(Mark::Minus) {
        Some(Op::Sub)
    } else {
        None
    }
}

fn scale_of(reader: &Reader) -> Option<Op>
    ensures { result ≡ scale_of (next reader.now.symbols) }
{
    if reader.next_is_mark(Mark::Star) {
        Some(Op::Mul)
    } else if reader.next_is_mark(Mark::Slash) {
        Some(Op::Div)
    } else {
        None
    }
}

fn loop_of(reader: &Reader) -> Option<LoopKind>
    ensures { result ≡ loop_of (next reader.now.symbols) }
{
    if reader.next_is_word(Word::Sum) {
        Some(LoopKind::Sum)
    } else if reader.next_is_word(Word::Prod) {
        Some(LoopKind::Prod)
    } else if reader.next_is_word(Word::Iter) {
        Some(LoopKind::Iter)
    } else {
        None
    }
}

fn cmp_of(reader: &Reader) -> Option<Cmp>
    ensures { result ≡ cmp_of (next reader.now.symbols) }
{
    if reader.next_is_mark(Mark::Less) {
        Some(Cmp::Less)
    } else if reader.next_is_mark(Mark::AtMost) {
        Some(Cmp::AtMost)
    } else if reader.next_is_mark(Mark::Equal) {
        Some(Cmp::Same)
    } else {
        None
    }
}

pub fn read_loop_kind(reader: &mut Reader) -> Result<LoopKind, ParseStop>
    ensures reads { ReadBy (pick_at loop_of) reader.old result reader.new }
    ensures goes_on { GoesOn reader.old result reader.new }
{
    match loop_of(reader) {
        Some(kind) => {
            reader.advance();
            Ok(kind)
        }
        None => Err(ParseStop::Wrong(Why::Unexpected)),
    }
}

pub fn read_cmp(reader: &mut Reader) -> Result<Cmp, ParseStop>
    ensures reads { ReadBy (pick_at cmp_of) reader.old result reader.new }
    ensures goes_on { GoesOn reader.old result reader.new }
{
    match cmp_of(reader) {
        Some(cmp) => {
            reader.advance();
            Ok(cmp)
        }
        None => Err(ParseStop::Wrong(Why::Unexpected)),
    }
}
