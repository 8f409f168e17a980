ghost use Rattle.std.specs.Prelude.{◌≡◌, ◌<◌, ◌≤◌, ℕ, ◌↔◌, [], ◌∷◌, All, Contains, IfOk, IsTrue};
ghost use Rattle.priz_base.specs.Sets.{IsWithin};
ghost use Rattle.statement_set.specs.Problem.{given_vars, AreVars, var_count, IsPlain};
ghost use Rattle.statement_set.specs.Countermodel.{IsCountermodel, RefutesAlone};
ghost use Rattle.answer_core.specs.steps.Found.{IsFound};

use kripke_check::Worlds;
use priz_base::{NoMem, Var, VarSet};
use proof_term::{Block, Step};
use saturate::Closure;
use sqlite_items::Items;
use statement_set::Problem;
use std::alloc::Global;

/// What forward search finds.
#[derive(Drop)]
pub(crate) enum Found {
    Derived(Block),
    Refuted(Worlds),
}

/// Learns the lowest ready statement until all wants are known or none is ready.
pub(crate) fn search(alloc: Global, problem: &Problem) -> Result<Found, NoMem>
    requires { IsPlain problem.now }
    ensures { IfOk result (IsFound problem.now) }
{
    let wanted = set_of(problem.wants());
    let mut closure = Closure::new(alloc, problem)?;
    learn_givens(problem, &mut closure);
    let mut block = Block::new(alloc);
    'learning: while !wanted.is_within(closure.known()) {
        let Some(n) = closure.next() else {
            return Ok(Found::Refuted(world_of(alloc, closure.known())?));
        };
        block.push(Step {
            stmt: n,
            subs: Items::new(alloc),
        })?;
        closure.learn(problem.output(n));
    }
    Ok(Found::Derived(block))
}

fn set_of(vars: &[Var]) -> VarSet
    requires { AreVars 1024 vars.now }
    ensures { (n : ℕ) → Contains result n ↔ Contains vars.now n }
{
    let mut set = VarSet::new();
    for var in vars {
        set.add(*var);
    }
    set
}

fn learn_givens(problem: &Problem, closure: &mut Closure)
    requires task { closure.old.task ≡ problem.now }
    requires nothing { closure.old.known ≡ [] }
    ensures task { closure.new.task ≡ problem.now }
    ensures known { (n : ℕ) → Contains closure.new.known n ↔ Contains (given_vars problem.now) n }
    ensures vars { AreVars (var_count problem.now) closure.new.known }
{
    for given in problem.givens() {
        closure.learn(given.var);
    }
}

fn world_of(alloc: Global, known: &VarSet) -> Result<Worlds, NoMem>
    ensures { IfOk result (λ w. w ≡ known.now ∷ []) }
{
    let mut worlds = Worlds::new(alloc);
    worlds.push(known)?;
    Ok(worlds)
}
