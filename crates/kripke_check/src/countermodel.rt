ghost use Rattle.std.specs.Prelude.{◌↔◌, ◌<◌, ◌≤◌, ℕ, All, Any, Contains, IsTrue};
ghost use Rattle.priz_base.specs.Sets.{IsWithin};
ghost use Rattle.statement_set.specs.Problem.{AreVars, given_vars};
ghost use Rattle.statement_set.specs.Goal.{IsDerivable};
ghost use Rattle.statement_set.specs.Countermodel.{Refutes, IsCountermodel};
ghost use Rattle.kripke_check.specs.steps.Obeys.{Keeps, ForcesSubtask, Obeys, ObeysAll, AboveObey, AreSame};

use crate::Worlds;
use priz_base::{Var, VarSet};
use statement_set::{Given, Problem, Statement, Subtask};

/// Whether the worlds are a countermodel of the problem's goal. Takes no memory.
///
/// Worlds that are equal are looked at once, so that time goes with the number of worlds times that of distinct ones.
pub fn check(p: &Problem, w: &Worlds) -> bool
    ensures exact { IsTrue result ↔ IsCountermodel p.now w.now }
    ensures sound { IsTrue result → ¬ IsDerivable p.now }
{
    let worlds = w.sets();
    match worlds.last() {
        None => false,
        Some(root) => are_vars(worlds, p.vars()) && refutes(p, worlds, root),
    }
}

// Whether each member of each world is below n.
fn are_vars(worlds: &[VarSet], n: u32) -> bool
    requires { n ≤ 1024 }
    ensures { IsTrue result ↔ All (AreVars n) worlds.now }
{
    let vars = first_vars(n);
    worlds.iter().all(|world| world.is_within(&vars))
}

// The set of the first n variables.
fn first_vars(n: u32) -> VarSet
    requires { n ≤ 1024 }
    ensures { (v : ℕ) → Contains result v ↔ (v < n) }
{
    let mut vars = VarSet::new();
    for v in 0..n {
        vars.add(Var(v));
    }
    vars
}

// Whether the root, which is one of the worlds, refutes the goal.
fn refutes(p: &Problem, worlds: &[VarSet], root: &VarSet) -> bool
    requires { Contains worlds.now root.now }
    ensures { IsTrue result ↔ Refutes p.now (given_vars p.now) worlds.now root.now }
{
    has_givens(root, p.givens()) && !has_all(root, p.wants()) && above_obey(p, worlds, root)
}

fn has_givens(world: &VarSet, givens: &[Given]) -> bool
    ensures { IsTrue result ↔ All (λ g. Contains world.now g.var) givens.now }
{
    givens.iter().all(|g| world.has(g.var))
}

fn has_all(world: &VarSet, vars: &[Var]) -> bool
    ensures { IsTrue result ↔ IsWithin vars.now world.now }
{
    vars.iter().all(|v| world.has(*v))
}

// Whether each world above the root obeys every statement. Of equal worlds the last one is asked.
fn above_obey(p: &Problem, worlds: &[VarSet], root: &VarSet) -> bool
    ensures { IsTrue result ↔ AboveObey worlds.now p.now root.now }
{
    for (i, world) in worlds.iter().enumerate() {
        if root.is_within(world)
            && !has_same(&worlds[i + 1..], world)
            && !obeys_all(p, worlds, world)
        {
            return false;
        }
    }
    true
}

// Whether one of the worlds has the same members.
fn has_same(worlds: &[VarSet], world: &VarSet) -> bool
    ensures { IsTrue result ↔ Any (AreSame world.now) worlds.now }
{
    worlds
        .iter()
        .any(|other| world.is_within(other) && other.is_within(world))
}

fn obeys_all(p: &Problem, worlds: &[VarSet], world: &VarSet) -> bool
    ensures { IsTrue result ↔ ObeysAll worlds.now p.now world.now }
{
    for n in 0..p.statements() {
        if !obeys(worlds, world, p.statement(n)) {
            return false;
        }
    }
    true
}

// Whether the world has the output, if it has the inputs and forces the subtasks.
fn obeys(worlds: &[VarSet], world: &VarSet, s: &Statement) -> bool
    ensures { IsTrue result ↔ Obeys worlds.now world.now s.now }
{
    world.has(s.output)
        || !has_all(world, s.inputs.as_slice())
        || !forces_subtasks(worlds, world, s.subs.as_slice())
}

fn forces_subtasks(worlds: &[VarSet], world: &VarSet, subs: &[Subtask]) -> bool
    ensures { IsTrue result ↔ All (ForcesSubtask worlds.now world.now) subs.now }
{
    subs.iter().all(|t| forces_subtask(worlds, world, t))
}

// Whether each world above this one that has the subtask's inputs has its outputs.
fn forces_subtask(worlds: &[VarSet], world: &VarSet, t: &Subtask) -> bool
    ensures { IsTrue result ↔ ForcesSubtask worlds.now world.now t.now }
{
    worlds.iter().all(|above| keeps(world, t, above))
}

fn keeps(world: &VarSet, t: &Subtask, above: &VarSet) -> bool
    ensures { IsTrue result ↔ Keeps world.now t.now above.now }
{
    !world.is_within(above)
        || !has_all(above, t.inputs.as_slice())
        || has_all(above, t.outputs.as_slice())
}
