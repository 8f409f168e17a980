// Laws of equations, which have no code.
ghost use Rattle.std.specs.Prelude.{◌≡◌, ◌≢◌, ◌↔◌, ℕ, List, Ok, Some};
ghost use Rattle.priz_frac.specs.Ratio.{Ratio};
ghost use Rattle.body_lang.specs.BodyTree.{BodyTree};
ghost use Rattle.body_lang.specs.Equations.{Sides, IsArithmetic, AreArithmetic};
ghost use Rattle.body_lang.specs.Occurrences.{occurrences, occurrences_in};
ghost use Rattle.body_lang.specs.Inverse.{inverse};
ghost use Rattle.body_lang.specs.ExactValue.{NumbersAreFractions, HasValue, SolvesFor};
ghost use Rattle.body_lang.specs.Meaning.{Calls, mean};
ghost use Rattle.body_lang.specs.Precision.{exactly};
ghost use Rattle.body_lang.specs.EquationExamples.{EachVariableIsSolvedFor, DivisorIsSolvedFor, OthersAreNotSolvedFor, SolvedValueIsTheVariables};

/// The exact meaning of arithmetic depends on the values of its variables alone.
pub fn arithmetic_has_one_exact_value()
    ensures { (owner : ℕ) (calls : Calls) (inputs : List Ratio) (body : BodyTree)
        → IsArithmetic body → (locals : List Ratio) (turns : ℕ) (x : Ratio)
        → HasValue inputs body x
        ↔ (mean exactly owner calls inputs body locals turns ≡ Ok (x, turns)) }
{}

/// Small equations, solved by hand.
#[tactic(auto, unfolding(priz_frac::specs::Gcd::gcd))]
pub fn equations_are_solved_as_they_should()
    ensures each { EachVariableIsSolvedFor }
    ensures divisor { DivisorIsSolvedFor }
    ensures others { OthersAreNotSolvedFor }
    ensures value { SolvedValueIsTheVariables }
{}

/// What an equation that is solved for a variable holds, and what its value is.
///
/// It is arithmetic without the variable, in which each other one stands as often as in the equation.
pub fn inverses_solve_equations()
    ensures arithmetic { (e : Sides) (v : ℕ) (b : BodyTree) → AreArithmetic e
        → inverse v e ≡ Some b → IsArithmetic b }
    ensures without { (e : Sides) (v : ℕ) (b : BodyTree) → AreArithmetic e
        → inverse v e ≡ Some b → occurrences v b ≡ 0 }
    ensures others { (e : Sides) (v w : ℕ) (b : BodyTree) → AreArithmetic e
        → inverse v e ≡ Some b → w ≢ v → occurrences w b ≡ occurrences_in w e }
    ensures value { (e : Sides) (v : ℕ) (b : BodyTree) → AreArithmetic e → NumbersAreFractions e
        → inverse v e ≡ Some b → SolvesFor e v b }
{}
