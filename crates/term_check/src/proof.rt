// The check of a proof goes through the steps of a block with the set of what is in scope.

ghost use Rattle.std.specs.Prelude.{◌↔◌, All, IsTrue, [], ◌∷◌};
ghost use Rattle.statement_set.specs.Problem.{var_count, IsSubtaskOver};
ghost use Rattle.proof_term.specs.Proof.{proves, answers};
ghost use Rattle.proof_term.specs.Plain.{subs_of};

use crate::scope::{has_all, with_all};
use priz_base::{Var, VarSet};
use proof_term::{Block, Sub};
use statement_set::{Problem, Subtask};

/// Whether the block gives the wants from what is known. What it adds to the scope ends with it.
#[cycle(proof)]
pub fn gives(p: &Problem, known: &VarSet, b: &Block, wants: &[Var]) -> bool
    ensures { IsTrue result ↔ proves p.now known.now b.now wants.now }
{
    p.is_well_formed();
    let mut scope = known.copy();
    for s in b.steps.as_slice() {
        if s.stmt >= p.statements() {
            return false;
        }
        let statement = p.statement(s.stmt);
        if !has_all(&scope, statement.inputs.as_slice()) {
            return false;
        }
        if !answered(p, &scope, statement.subs.as_slice(), s.subs.as_slice()) {
            return false;
        }
        scope.add(statement.output);
    }
    has_all(&scope, wants)
}

// Whether each subtask is answered, and nothing else is.
#[cycle(proof)]
fn answered(p: &Problem, scope: &VarSet, tasks: &[Subtask], subs: &[Sub]) -> bool
    requires { All (IsSubtaskOver (var_count p.now)) tasks.now }
    ensures { IsTrue result ↔ answers p.now scope.now tasks.now (subs_of subs.now) }
{
    if tasks.len() != subs.len() {
        return false;
    }
    for (i, task) in tasks.iter().enumerate() {
        if !is_answered(p, scope, task, &subs[i]) {
            return false;
        }
    }
    true
}

// Whether one subtask is answered: its results are in scope, or a block gives them from the scope and the inputs.
#[cycle(proof)]
fn is_answered(p: &Problem, scope: &VarSet, task: &Subtask, sub: &Sub) -> bool
    requires { IsSubtaskOver (var_count p.now) task.now }
    ensures { IsTrue result ↔ answers p.now scope.now (task.now ∷ []) (subs_of (sub.now ∷ [])) }
{
    match sub {
        Sub::Known => has_all(scope, task.outputs.as_slice()),
        Sub::Body(b) => {
            p.is_well_formed();
            let inner = with_all(scope, task.inputs.as_slice());
            gives(p, &inner, b, task.outputs.as_slice())
        }
    }
}
