//! The forms of expressions. The room is that of their parts.
ghost use Rattle.std.specs.Prelude.{◌≡◌, ◌<◌, ◌≤◌, ◌+◌, ℕ, Ok, IfOk};
ghost use Rattle.utopist_lexer.specs.declared.mark.Mark.TheVariants.{Comma};
ghost use Rattle.utopist_syntax.specs.ExprTree.{ExprTrees};
ghost use Rattle.utopist_syntax.specs.View.{trees_of};
ghost use Rattle.token_forms.specs.steps.Answers.{Gives, ReadThrough, GoesOn};
ghost use Rattle.token_forms.specs.steps.Lists.{separated_at};
ghost use Rattle.utopist_parser.specs.steps.ReadingExpr.{as_nested, settled, behind_step, negated_step, round_step, call_step, loop_step, choice_step, literal_step, variable_step, trees_in, most, factor_at, chain_at, expr_at};
ghost use Rattle.token_forms.specs.steps.Steps.{on_ok};

use crate::breadth::{Breadth, MOST_ROOM};
use crate::expr::{read_expr, read_factor, read_group};
use crate::group::Group;
use crate::nested::NestedExpr;
use crate::nodes::{call_of, choice_of, loop_of, negation_of, number_of, variable_of};
use crate::operators::{read_cmp, read_loop_kind};
use crate::production::Production;
use sqlite_items::Items;
use token_forms::{ParseStop, Reader};
use utopist_lexer::{Kind, Mark, Word};
use utopist_syntax::{Expr, Path};

const COMMA: Kind = Kind::Mark(Mark::Comma);

#[cycle(reading)]
pub fn read_negated<'a>(reader: &mut Reader<'a>, breadth: Breadth, room: u32) -> NestedExpr<'a>
    requires { room < MOST_ROOM }
    ensures reads { ReadThrough as_nested (negated_step (settled (factor_at breadth room))) reader.old result reader.new }
    ensures within { IfOk result (λ x. (1 ≤ x.1) × (x.1 ≤ room + 2)) }
    ensures goes_on { GoesOn reader.old result reader.new }
{
    reader.mark(Mark::Minus)?;
    let (part, nest) = read_factor(reader, breadth, room)?;
    let tree = negation_of(reader.alloc, part)?;
    Ok((tree, nest + 1))
}

#[cycle(reading)]
pub fn read_round<'a>(reader: &mut Reader<'a>, breadth: Breadth, room: u32) -> NestedExpr<'a>
    requires { room < MOST_ROOM }
    ensures reads { ReadThrough as_nested (round_step (settled (expr_at breadth room))) reader.old result reader.new }
    ensures within { IfOk result (λ x. (1 ≤ x.1) × (x.1 ≤ room + 2)) }
    ensures goes_on { GoesOn reader.old result reader.new }
{
    reader.mark(Mark::OpenRound)?;
    let (tree, nest) = read_expr(reader, breadth, room)?;
    reader.mark(Mark::CloseRound)?;
    Ok((tree, nest + 1))
}

#[cycle(reading)]
pub fn read_call<'a>(reader: &mut Reader<'a>, breadth: Breadth, room: u32) -> NestedExpr<'a>
    requires { room < MOST_ROOM }
    ensures reads { ReadThrough as_nested (call_step (settled (expr_at breadth room))) reader.old result reader.new }
    ensures within { IfOk result (λ x. (1 ≤ x.1) × (x.1 ≤ room + 2)) }
    ensures goes_on { GoesOn reader.old result reader.new }
{
    let ((k, out), place) = reader.sub()?;
    reader.mark(Mark::OpenRound)?;
    let (args, nest) = read_args(reader, breadth, room)?;
    reader.mark(Mark::CloseRound)?;
    Ok((call_of(k, out, place, args), nest + 1))
}

// The arguments of a call, and the most of their nestings.
#[cycle(reading)]
fn read_args<'a>(
    reader: &mut Reader<'a>,
    breadth: Breadth,
    room: u32,
) -> Result<(Items<Expr<'a>>, u32), ParseStop>
    requires { room < MOST_ROOM }
    ensures reads { Gives {V = ExprTrees × ℕ} (λ x. (trees_of x.0, x.1)) result reader.new.symbols (on_ok (separated_at Comma (settled (expr_at breadth room)) 63 reader.old.symbols) (λ p. Ok ((trees_in p.0, most p.0), p.1))) }
    ensures within { IfOk result (λ x. x.1 ≤ room + 1) }
    ensures goes_on { GoesOn reader.old result reader.new }
{
    let (first, mut nest) = read_expr(reader, breadth, room)?;
    let mut found = Items::new(reader.alloc);
    found.push(first)?;
    'parts: while reader.next_is_mark(Mark::Comma) {
        let (part, deep) = read_behind(reader, COMMA, breadth, room)?;
        found.push(part)?;
        nest = nest.max(deep);
    }
    Ok((found, nest))
}

// An expression behind a token of this kind.
#[cycle(reading)]
fn read_behind<'a>(
    reader: &mut Reader<'a>,
    kind: Kind,
    breadth: Breadth,
    room: u32,
) -> NestedExpr<'a>
    requires { room < MOST_ROOM }
    ensures reads { ReadThrough as_nested (behind_step kind (settled (expr_at breadth room))) reader.old result reader.new }
    ensures within { IfOk result (λ x. (1 ≤ x.1) × (x.1 ≤ room + 1)) }
    ensures goes_on { GoesOn reader.old result reader.new }
{
    reader.fixed(kind)?;
    read_expr(reader, breadth, room)
}

#[cycle(reading)]
pub fn read_loop<'a>(reader: &mut Reader<'a>, breadth: Breadth, room: u32) -> NestedExpr<'a>
    requires { room < MOST_ROOM }
    ensures reads { ReadThrough as_nested (loop_step (settled (expr_at breadth room))) reader.old result reader.new }
    ensures within { IfOk result (λ x. (1 ≤ x.1) × (x.1 ≤ room + 2)) }
    ensures goes_on { GoesOn reader.old result reader.new }
{
    let kind = read_loop_kind(reader)?;
    reader.mark(Mark::OpenRound)?;
    let name = reader.name()?;
    let (first, n) = read_behind(reader, COMMA, breadth, room)?;
    let (second, m) = read_behind(reader, COMMA, breadth, room)?;
    let (each, k) = read_behind(reader, COMMA, breadth, room)?;
    reader.mark(Mark::CloseRound)?;
    let tree = loop_of(reader.alloc, kind, name, first, second, each)?;
    Ok((tree, n.max(m.max(k)) + 1))
}

#[cycle(reading)]
pub fn read_choice<'a>(reader: &mut Reader<'a>, breadth: Breadth, room: u32) -> NestedExpr<'a>
    requires { room < MOST_ROOM }
    ensures reads { ReadThrough as_nested (choice_step (settled (chain_at breadth room)) (settled (expr_at breadth room))) reader.old result reader.new }
    ensures within { IfOk result (λ x. (1 ≤ x.1) × (x.1 ≤ room + 2)) }
    ensures goes_on { GoesOn reader.old result reader.new }
{
    reader.word(Word::If)?;
    let (left, a) = read_group(reader, Group::Chain, breadth, room)?;
    let cmp = read_cmp(reader)?;
    let (right, b) = read_group(reader, Group::Chain, breadth, room)?;
    let (yes, c) = read_behind(reader, Kind::Word(Word::Then), breadth, room)?;
    let (no, d) = read_behind(reader, Kind::Word(Word::Else), breadth, room)?;
    let tree = choice_of(reader.alloc, cmp, left, right, yes, no)?;
    Ok((tree, a.max(b).max(c.max(d)) + 1))
}

pub fn read_variable<'a>(reader: &mut Reader<'a>) -> NestedExpr<'a>
    ensures reads { ReadThrough as_nested variable_step reader.old result reader.new }
    ensures within { IfOk result (λ x. x.1 ≡ 1) }
    ensures goes_on { GoesOn reader.old result reader.new }
{
    let path = Path::read(reader)?;
    Ok((variable_of(path), 1))
}

pub fn read_literal<'a>(reader: &mut Reader<'a>) -> NestedExpr<'a>
    ensures reads { ReadThrough as_nested literal_step reader.old result reader.new }
    ensures within { IfOk result (λ x. x.1 ≡ 1) }
    ensures goes_on { GoesOn reader.old result reader.new }
{
    let n = reader.number()?;
    Ok((number_of(n), 1))
}
