ghost use Rattle.std.specs.Prelude.{◌≡◌};
ghost use Rattle.utopist_syntax.specs.Round.{is_sum as is_sum_op, rounds_op, rounds_choice};

use body_lang::Op;

/// Where a part of an expression stands.
#[derive(Clone, Copy, PartialEq, Eq, Debug)]
pub enum Position {
    /// The whole of what brackets, commas or words enclose.
    Alone,
    /// A side of a comparison.
    Compared,
    /// The operand of a unary minus.
    Negated,
    LeftOf(Op),
    RightOf(Op),
}

impl Position {
    /// Whether a node of this operator has parentheses here.
    pub fn is_round_for(self, op: Op) -> bool
        ensures { result ≡ rounds_op self op }
    {
        match self {
            Position::Alone | Position::Compared => false,
            Position::Negated => true,
            Position::LeftOf(outer) => is_sum(op) && !is_sum(outer),
            Position::RightOf(outer) => is_sum(op) || !is_sum(outer),
        }
    }

    /// Whether a choice has parentheses here.
    pub fn is_round_for_choice(self) -> bool
        ensures { result ≡ rounds_choice self }
    {
        self != Position::Alone
    }
}

fn is_sum(op: Op) -> bool
    ensures { result ≡ is_sum_op op }
{
    op == Op::Add || op == Op::Sub
}
