// A law has no code: its contract is the law.
ghost use Rattle.std.specs.Prelude.{◌≡◌, ◌↔◌, ℕ, List, Ok};
ghost use Rattle.priz_frac.specs.Ratio.{Ratio};
ghost use Rattle.priz_frac.specs.Lowest.{IsLowest};
ghost use Rattle.priz_frac.specs.Narrow.{IsNarrow};
ghost use Rattle.body_lang.specs.declared.arity.Arity.{Arity};
ghost use Rattle.body_lang.specs.BodyTree.{BodyTree};
ghost use Rattle.body_lang.specs.Checked.{checked};
ghost use Rattle.body_lang.specs.Reads.{IsClosed};
ghost use Rattle.body_lang.specs.Meaning.{Calls, mean};
ghost use Rattle.body_lang.specs.Precision.{Precision, narrowly, exactly};
ghost use Rattle.body_lang.specs.Keeping.{MeaningKeeps};
ghost use Rattle.body_lang.specs.Follows.{RunFollows, RunFollowsOnRows, CallsFollow, CallsFollowOnRows};
ghost use Rattle.body_lang.specs.OperationExamples.{InputsAreRead, ResultsAreInLowestTerms, DivisionByZeroIsAFault, WidthIsAFault, LeftIsTakenFirst, OneBranchIsTaken, SidesAreTakenFirst};
ghost use Rattle.body_lang.specs.LoopExamples.{RoundsTakeTurns, TurnComesBeforePart, EachNumberHasARound, EmptyLoopsTakeNoTurn, BoundsAreWhole, ReplacementsAreCounted, LoopsAreNested, ExactLoopsGoOn};
ghost use Rattle.body_lang.specs.CallExamples.{CallsAreAnswered, OutputsAreTold, ArgumentsAreTakenFirst, AnswersHaveTheTurnsLeft};

/// What small bodies mean, worked out by hand.
#[tactic(auto, unfolding(priz_frac::specs::Gcd::gcd))]
pub fn bodies_mean_what_they_should()
    ensures inputs { InputsAreRead }
    ensures lowest_terms { ResultsAreInLowestTerms }
    ensures zero_divisor { DivisionByZeroIsAFault }
    ensures width { WidthIsAFault }
    ensures left_first { LeftIsTakenFirst }
    ensures one_branch { OneBranchIsTaken }
    ensures sides_first { SidesAreTakenFirst }

    ensures turns { RoundsTakeTurns }
    ensures turn_first { TurnComesBeforePart }
    ensures rounds { EachNumberHasARound }
    ensures empty_loops { EmptyLoopsTakeNoTurn }
    ensures whole_bounds { BoundsAreWhole }
    ensures replacements { ReplacementsAreCounted }
    ensures nested_loops { LoopsAreNested }
    ensures exact_loops { ExactLoopsGoOn }

    ensures calls { CallsAreAnswered }
    ensures outputs { OutputsAreTold }
    ensures arguments_first { ArgumentsAreTakenFirst }
    ensures turns_left { AnswersHaveTheTurnsLeft }
{}

/// Where the narrow meaning ends in a value, the exact meaning ends in the same.
///
/// So width and turns change no value: they only stop a run.
pub fn exact_meaning_ends_in_the_narrow_value()
    ensures same { (owner : ℕ) (f g : Calls) → CallsFollow f g
        → (inputs : List Ratio) (body : BodyTree) (locals : List Ratio) (turns : ℕ)
        → RunFollows (mean narrowly owner f inputs body locals turns)
        (mean exactly owner g inputs body locals) }
    ensures on_rows { (owner : ℕ) (f g : Calls) → CallsFollowOnRows f g
        → (inputs : List Ratio) (body : BodyTree) (locals : List Ratio) (turns : ℕ)
        → RunFollowsOnRows (mean narrowly owner f inputs body locals turns)
        (mean exactly owner g inputs body locals) }
{}

/// Values in lowest terms stay so, in both meanings; those that fit as well, in the narrow one.
pub fn values_are_in_lowest_terms()
    ensures lowest { (precision : Precision) → MeaningKeeps IsLowest precision }
    ensures narrow { MeaningKeeps IsNarrow narrowly }
{}

/// A body passes the check just where all that it reads is there.
pub fn checked_bodies_read_what_is_there()
    ensures { (inputs : ℕ) (arities : List Arity) (loops : ℕ) (body : BodyTree)
        → (checked inputs arities loops body ≡ Ok tt) ↔ IsClosed inputs arities loops body }
{}
