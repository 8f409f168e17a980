ghost use Rattle.std.specs.Prelude.{◌≡◌, ℕ, ◌<◌, ◌≤◌, ◌↔◌, [], Contains, IfOk, MatchOption, IsTrue, length, take};
ghost use Rattle.priz_base.specs.Sets.{Adds, IsWithin};
ghost use Rattle.statement_set.specs.Problem.{var_count};
ghost use Rattle.saturate.specs.Ready.{Progress, IsReady, ReadyAt, IsLowestReady};
ghost use Rattle.saturate.specs.Met.{AreMet};

use priz_base::{NoMem, Var, VarSet};
use statement_set::{Problem, Statement};
use std::alloc::Global;
use std::marker::Model;

/// The variables of a problem that are known so far.
#[derive(Drop)]
pub struct Closure<'p> {
    problem: &'p Problem,
    known: VarSet,
    // For each statement, how many of its inputs, from the first on, were seen to be known.
    met: Vec<usize>,
}

impl<'p> Model for Closure<'p> {
    ghost use Rattle.std.specs.Coded.{codes};
    ghost use Rattle.body_lang.specs.steps.Coding.{coded_body};
    ghost use Rattle.saturate.specs.Ready.{Progress};

    ghost Value = { Progress };

    ghost coded = { Prim.hlevel (codes, coded_body) };

    ghost view = { λ c. record { task = c.problem.now; known = c.known } };

    ghost use Rattle.std.specs.Vec.{vec_items};
    ghost use Rattle.saturate.specs.Met.{AreMet};

    ghost invariant = { λ c. AreMet c.problem.now.statements c.known (vec_items c.met) };
}

impl<'p> Closure<'p> {
    /// Nothing is known.
    pub fn new(alloc: Global, problem: &'p Problem) -> Result<Closure<'p>, NoMem>
        ensures { IfOk result (λ c. c ≡ record { task = problem.now; known = [] }) }
    {
        Ok(Closure {
            problem,
            known: VarSet::new(),
            met: Vec::from_elem(alloc, 0, problem.statements() as usize)?,
        })
    }

    /// The variable is known from now on.
    pub fn learn(&mut self, v: Var)
        requires { v < var_count self.old.task }
        ensures task { self.new.task ≡ self.old.task }
        ensures known { Adds self.old.known self.new.known v }
    {
        prove!(v.0 < self.problem.vars());
        self.known.add(v);
    }

    pub fn known(&self) -> &VarSet
        ensures { result.now ≡ self.now.known }
    {
        &self.known
    }

    /// The lowest-numbered statement without subtasks whose inputs are known and whose output is not.
    pub fn next(&mut self) -> Option<u32>
        ensures same { self.new ≡ self.old }
        ensures which { MatchOption result ((n : ℕ) → ¬ ReadyAt self.old.task self.old.known n) (λ n. IsLowestReady self.old.task self.old.known n) }
    {
        next_ready(self.problem, &self.known, &mut self.met)
    }
}

fn next_ready(p: &Problem, known: &VarSet, met: &mut [usize]) -> Option<u32>
    requires { AreMet p.now.statements known.now met.old }
    ensures met { AreMet p.now.statements known.now met.new }
    ensures which { MatchOption result ((n : ℕ) → ¬ ReadyAt p.now known.now n) (λ n. IsLowestReady p.now known.now n) }
{
    for n in 0..p.statements() {
        if is_ready(known, p.statement(n), &mut met[n as usize]) {
            return Some(n);
        }
    }
    None
}

fn is_ready(known: &VarSet, s: &Statement, met: &mut usize) -> bool
    requires { IsWithin (take met.old s.now.inputs) known.now }
    ensures met { IsWithin (take met.new s.now.inputs) known.now }
    ensures ready { IsTrue result ↔ IsReady known.now s.now }
{
    if !s.subs.is_empty() {
        return false;
    }
    let inputs = s.inputs.as_slice();
    *met = known_from(known, inputs, *met);
    if *met < inputs.len() {
        return false;
    }
    !known.has(s.output)
}

// How many inputs, from the first on, are known, where so many are known to be.
fn known_from(known: &VarSet, inputs: &[Var], met: usize) -> usize
    requires { IsWithin (take met inputs.now) known.now }
    ensures known { IsWithin (take result inputs.now) known.now }
    ensures all { IsWithin inputs.now known.now → length inputs.now ≤ result }
{
    let mut i = met;
    'looking: while i < inputs.len() {
        if !known.has(inputs[i]) {
            return i;
        }
        i += 1;
    }
    i
}
