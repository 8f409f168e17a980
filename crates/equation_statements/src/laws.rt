// Laws of the statements of an equation, which have no code.
ghost use Rattle.std.specs.Prelude.{All};
ghost use Rattle.body_lang.specs.Equations.{Sides, AreArithmetic};
ghost use Rattle.body_lang.specs.ExactValue.{NumbersAreFractions};
ghost use Rattle.equation_statements.specs.SolvingStatements.{solving_statements};
ghost use Rattle.equation_statements.specs.Examples.{QuotientIsSolvedForEach, SquareIsSolvedForOne};
ghost use Rattle.equation_statements.specs.Laws.{IsSolvingStatement};

/// Small equations give the statements that they give by hand.
pub fn equations_give_statements()
    ensures each { QuotientIsSolvedForEach }
    ensures one { SquareIsSolvedForOne }
{}

/// What an equation says of each of its statements.
pub fn statements_solve_their_equation()
    ensures { (e : Sides) → AreArithmetic e → NumbersAreFractions e
        → All (IsSolvingStatement e) (solving_statements e) }
{}
