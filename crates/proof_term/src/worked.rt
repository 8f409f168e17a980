// Worked instances: what a proof is, and what a run gives, on small problems. They have no code.

ghost use Rattle.statement_set.specs.Worked.{squares_sum, two_outputs};
ghost use Rattle.proof_term.specs.Proof.{done, step, no_more, known, block, ProvesGoal};
ghost use Rattle.proof_term.specs.RunExamples.{SquaresAreSummed, KnownResultsAreTaken, TriangleIsSummed, SecondOutputsAreCalled};

/// Statement 1 gives t, and a nested block with statement 0 answers its subtask. Without that step nothing does.
pub fn squares_sum_proved()
    ensures nested { ProvesGoal squares_sum (step 1 (block (step 0 no_more done) no_more) done) }
    ensures empty { ¬ ProvesGoal squares_sum (step 1 (block done no_more) done) }
{}

/// The subtask's result is not in scope, so that it is not known.
pub fn unknown_result_refused()
    ensures { ¬ ProvesGoal squares_sum (step 1 (known no_more) done) }
{}

/// A subtask with two outputs needs both: a nested block with statement 0 alone lacks the second.
pub fn two_outputs_proved()
    ensures both { ProvesGoal two_outputs (step 3 (block (step 0 no_more (step 1 no_more done)) no_more) done) }
    ensures first_alone { ¬ ProvesGoal two_outputs (step 3 (block (step 0 no_more done) no_more) done) }
{}

/// Blocks inside blocks, subtasks that are known, and calls of a second output.
#[tactic(auto, unfolding(priz_frac::specs::Gcd::gcd))]
pub fn nested_blocks_run()
    ensures squares { SquaresAreSummed }
    ensures known { KnownResultsAreTaken }
    ensures triangle { TriangleIsSummed }
    ensures outputs { SecondOutputsAreCalled }
{}
