// The test for separate blocks goes through the steps as the check of a proof does.

ghost use Rattle.std.specs.Prelude.{◌↔◌, All, IsTrue, [], ◌∷◌};
ghost use Rattle.statement_set.specs.Problem.{var_count, IsSubtaskOver};
ghost use Rattle.proof_term.specs.Plain.{subs_of};
ghost use Rattle.term_check.specs.Separate.{IsSeparateFrom, AreSeparateFrom};

use crate::scope::{are_new, with_all};
use priz_base::VarSet;
use proof_term::{Block, Sub};
use statement_set::{Problem, Subtask};

/// Whether the inputs of each subtask in the block are new where it is answered.
#[cycle(separation)]
pub fn is_separate(p: &Problem, known: &VarSet, b: &Block) -> bool
    ensures { IsTrue result ↔ IsSeparateFrom p.now known.now b.now }
{
    p.is_well_formed();
    let mut scope = known.copy();
    for s in b.steps.as_slice() {
        if s.stmt >= p.statements() {
            return false;
        }
        let statement = p.statement(s.stmt);
        if !are_separate(p, &scope, statement.subs.as_slice(), s.subs.as_slice()) {
            return false;
        }
        scope.add(statement.output);
    }
    true
}

// The same for the subtasks of one step.
#[cycle(separation)]
fn are_separate(p: &Problem, scope: &VarSet, tasks: &[Subtask], subs: &[Sub]) -> bool
    requires { All (IsSubtaskOver (var_count p.now)) tasks.now }
    ensures { IsTrue result ↔ AreSeparateFrom p.now scope.now tasks.now (subs_of subs.now) }
{
    if tasks.len() != subs.len() {
        return false;
    }
    for (i, task) in tasks.iter().enumerate() {
        if !is_new(p, scope, task, &subs[i]) {
            return false;
        }
    }
    true
}

// The same for one subtask.
#[cycle(separation)]
fn is_new(p: &Problem, scope: &VarSet, task: &Subtask, sub: &Sub) -> bool
    requires { IsSubtaskOver (var_count p.now) task.now }
    ensures { IsTrue result ↔ AreSeparateFrom p.now scope.now (task.now ∷ []) (subs_of (sub.now ∷ [])) }
{
    if !are_new(task.inputs.as_slice(), scope) {
        return false;
    }
    match sub {
        Sub::Known => true,
        Sub::Body(b) => {
            p.is_well_formed();
            let inner = with_all(scope, task.inputs.as_slice());
            is_separate(p, &inner, b)
        }
    }
}
