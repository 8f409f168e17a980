//! Expressions.
ghost use Rattle.std.specs.Prelude.{◌≡◌, ◌≤◌, ◌+◌, ◌-◌, suc, Ok, IfOk};
ghost use Rattle.token_forms.specs.steps.Answers.{Gives, ReadThrough, GoesOn};
ghost use Rattle.utopist_parser.specs.steps.ReadingExpr.{as_nested, settled, begins_call, begins_loop, begins_choice, factor_at, expr_at, group_within, operand_at};
ghost use Rattle.token_forms.specs.steps.Steps.{next, meets, deeper};

use crate::breadth::{Breadth, MOST_ROOM};
use crate::forms::{
    read_call, read_choice, read_literal, read_loop, read_negated, read_round, read_variable,
};
use crate::group::Group;
use crate::nested::NestedExpr;
use crate::nodes::operation_of;
use crate::operators::operator_of;
use token_forms::{ParseStop, Reader, Why};
use utopist_lexer::{Kind, Mark, Word};

#[cycle(reading)]
pub fn read_expr<'a>(reader: &mut Reader<'a>, breadth: Breadth, room: u32) -> NestedExpr<'a>
    requires { room ≤ MOST_ROOM }
    ensures reads { ReadThrough as_nested (settled (expr_at breadth room)) reader.old result reader.new }
    ensures within { IfOk result (λ x. (1 ≤ x.1) × (x.1 ≤ room + 1)) }
    ensures goes_on { GoesOn reader.old result reader.new }
{
    if begins_choice(reader, breadth) {
        let below = one_below(reader, room)?;
        read_choice(reader, breadth, below)
    } else {
        read_group(reader, Group::Chain, breadth, room)
    }
}

/// A chain or a term.
#[cycle(reading)]
pub fn read_group<'a>(
    reader: &mut Reader<'a>,
    group: Group,
    breadth: Breadth,
    room: u32,
) -> NestedExpr<'a>
    requires { room ≤ MOST_ROOM }
    ensures reads { ReadThrough as_nested (settled (group_within group breadth room)) reader.old result reader.new }
    ensures within { IfOk result (λ x. (1 ≤ x.1) × (x.1 ≤ room + 1)) }
    ensures goes_on { GoesOn reader.old result reader.new }
{
    let (mut tree, mut nest) = read_operand(reader, group, breadth, room)?;
    'parts: while let Some(op) = operator_of(reader, group) {
        if nest > room {
            return Err(ParseStop::Wrong(Why::TooDeep));
        }
        reader.advance();
        let (part, deep) = read_operand(reader, group, breadth, room - 1)?;
        tree = operation_of(reader.alloc, op, tree, part)?;
        nest = nest.max(deep) + 1;
    }
    Ok((tree, nest))
}

#[cycle(reading)]
fn read_operand<'a>(
    reader: &mut Reader<'a>,
    group: Group,
    breadth: Breadth,
    room: u32,
) -> NestedExpr<'a>
    requires { room ≤ MOST_ROOM }
    ensures reads { ReadThrough as_nested (settled (operand_at group breadth room)) reader.old result reader.new }
    ensures within { IfOk result (λ x. (1 ≤ x.1) × (x.1 ≤ room + 1)) }
    ensures goes_on { GoesOn reader.old result reader.new }
{
    match group {
        Group::Chain => read_group(reader, Group::Term, breadth, room),
        Group::Term => read_factor(reader, breadth, room),
    }
}

#[cycle(reading)]
pub fn read_factor<'a>(reader: &mut Reader<'a>, breadth: Breadth, room: u32) -> NestedExpr<'a>
    requires { room ≤ MOST_ROOM }
    ensures reads { ReadThrough as_nested (settled (factor_at breadth room)) reader.old result reader.new }
    ensures within { IfOk result (λ x. (1 ≤ x.1) × (x.1 ≤ room + 1)) }
    ensures goes_on { GoesOn reader.old result reader.new }
{
    if reader.next_is_mark(Mark::Minus) {
        let below = one_below(reader, room)?;
        read_negated(reader, breadth, below)
    } else if reader.next_is_mark(Mark::OpenRound) {
        let below = one_below(reader, room)?;
        read_round(reader, breadth, below)
    } else if begins_call(reader, breadth) {
        let below = one_below(reader, room)?;
        read_call(reader, breadth, below)
    } else if begins_loop(reader, breadth) {
        let below = one_below(reader, room)?;
        read_loop(reader, breadth, below)
    } else if reader.next_is(Kind::Name) {
        read_variable(reader)
    } else {
        read_literal(reader)
    }
}

// The room for what is one level below, where there is room for it.
fn one_below(reader: &Reader, room: u32) -> Result<u32, ParseStop>
    ensures gives { Gives (λ x. x) result reader.now.symbols (deeper room reader.now.symbols (Ok (room - 1, reader.now.symbols))) }
    ensures below { IfOk result (λ x. room ≡ suc x) }
{
    if room == 0 {
        Err(ParseStop::Wrong(Why::TooDeep))
    } else {
        Ok(room - 1)
    }
}

fn begins_call(reader: &Reader, breadth: Breadth) -> bool
    ensures { result ≡ meets (begins_call breadth) (next reader.now.symbols) }
{
    breadth == Breadth::All && reader.next_is_sub()
}

fn begins_loop(reader: &Reader, breadth: Breadth) -> bool
    ensures { result ≡ meets (begins_loop breadth) (next reader.now.symbols) }
{
    breadth == Breadth::All
        && (reader.next_is_word(Word::Sum)
            || reader.next_is_word(Word::Prod)
            || reader.next_is_word(Word::Iter))
}

fn begins_choice(reader: &Reader, breadth: Breadth) -> bool
    ensures { result ≡ meets (begins_choice breadth) (next reader.now.symbols) }
{
    breadth == Breadth::All && reader.next_is_word(Word::If)
}
