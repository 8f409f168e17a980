ghost use Rattle.std.specs.Prelude.{◌≡◌, ℕ, ◌<◌, ◌≤◌, ◌-◌, ◌↔◌, [], ◌∷◌, ◌++◌, length, slice_get, All, Contains, IfOk, OnOk, OnErr, IsSome, IfSome, IsSomeAnd};
ghost use Rattle.std.specs.Option.{option_copied, option_map};
ghost use Rattle.body_lang.specs.View.{body_tree};
ghost use Rattle.statement_set.specs.Problem.{Task, var_count, given_vars, subtasks_of, subtask_count, AreVars, IsStatementOf, IsEquationOver, IsStatementOver, IsWellFormed, HasNarrowSides, HasNarrowBody, HasNarrowValue, empty_task};

use crate::{Given, Names, Statement, SubView};
use body_lang::{Body, Equation, numbers_are_narrow};
use priz_base::{NoMem, Var};
use sqlite_items::Items;
use std::alloc::Global;
use std::marker::Model;

/// Named variables, equations, statements and a goal.
///
/// A variable, a statement and a subtask of a statement go by their numbers, in the order in which they were added.
#[derive(Drop)]
pub struct Problem {
    names: Names,
    equations: Items<Equation>,
    statements: Items<Statement>,
    givens: Items<Given>,
    wants: Items<Var>,
}

impl Model for Problem {
    ghost use Rattle.std.specs.Coded.{codes};
    ghost use Rattle.body_lang.specs.steps.Coding.{coded_body};
    ghost use Rattle.statement_set.specs.Problem.{Task, IsWellFormed};

    ghost Value = { Task };

    ghost coded = { Prim.hlevel (codes, coded_body) };

    ghost view = { λ p. record { names = p.names; equations = p.equations; statements = p.statements; givens = p.givens; wants = p.wants } };

    ghost invariant = { λ p. IsWellFormed (record { names = p.names; equations = p.equations; statements = p.statements; givens = p.givens; wants = p.wants }) };
}

impl Problem {
    /// Takes no memory.
    pub fn new(alloc: Global) -> Problem
        ensures { result ≡ empty_task }
    {
        Problem {
            names: Names::new(alloc),
            equations: Items::new(alloc),
            statements: Items::new(alloc),
            givens: Items::new(alloc),
            wants: Items::new(alloc),
        }
    }

    pub fn add_var(&mut self, name: &str) -> Result<Var, NoMem>
        requires room { var_count self.old < 1024 }
        requires fresh { ¬ Contains self.old.names name.now }
        ensures number { IfOk result (λ v. v ≡ var_count self.old) }
        ensures ok { OnOk result (self.new ≡ record self.old { names = self.old.names ++ name.now ∷ [] }) }
        ensures err { OnErr result (self.new ≡ self.old) }
    {
        let v = Var(self.names.len() as u32);
        self.names.add(name)?;
        Ok(v)
    }

    pub fn add_equation(&mut self, e: Equation) -> Result<(), NoMem>
        requires { IsEquationOver (var_count self.old) e }
        ensures ok { OnOk result (self.new ≡ record self.old { equations = self.old.equations ++ e ∷ [] }) }
        ensures err { OnErr result (self.new ≡ self.old) }
    {
        has_narrow_sides(&e);
        self.equations.push(e)?;
        Ok(())
    }

    pub fn add_statement(&mut self, s: Statement) -> Result<u32, NoMem>
        requires room { length self.old.statements < 4096 }
        requires vars { IsStatementOver (var_count self.old) s }
        requires subtasks { length s.subs ≤ 255 - subtask_count self.old }
        ensures number { IfOk result (λ n. n ≡ length self.old.statements) }
        ensures ok { OnOk result (self.new ≡ record self.old { statements = self.old.statements ++ s ∷ [] }) }
        ensures err { OnErr result (self.new ≡ self.old) }
    {
        let n = self.statements.len() as u32;
        has_narrow_body(&s);
        self.statements.push(s)?;
        Ok(n)
    }

    pub fn add_given(&mut self, g: Given) -> Result<(), NoMem>
        requires var { g.var < var_count self.old }
        requires fresh { ¬ Contains (given_vars self.old) g.var }
        ensures ok { OnOk result (self.new ≡ record self.old { givens = self.old.givens ++ g ∷ [] }) }
        ensures err { OnErr result (self.new ≡ self.old) }
    {
        has_narrow_value(&g);
        let Given { var, value } = g;
        self.givens.push(Given { var, value })?;
        Ok(())
    }

    /// Wants may repeat.
    pub fn add_want(&mut self, v: Var) -> Result<(), NoMem>
        requires { v < var_count self.old }
        ensures ok { OnOk result (self.new ≡ record self.old { wants = self.old.wants ++ v ∷ [] }) }
        ensures err { OnErr result (self.new ≡ self.old) }
    {
        self.wants.push(v)?;
        Ok(())
    }

    /// Takes the goal away, so that another can be added. Takes no memory.
    pub fn clear_goal(&mut self, alloc: Global)
        ensures { self.new ≡ record self.old { givens = []; wants = [] } }
    {
        self.givens = Items::new(alloc);
        self.wants = Items::new(alloc);
    }

    /// What holds of every problem.
    pub fn is_well_formed(&self)
        ensures { IsWellFormed self.now }
    {
        let _ = &self.wants;
    }

    pub fn vars(&self) -> u32
        ensures count { result ≡ var_count self.now }
        ensures few { result ≤ 1024 }
    {
        self.names.len() as u32
    }

    pub fn name(&self, v: Var) -> &str
        requires { v < var_count self.now }
        ensures { slice_get self.now.names v ≡ Some result.now }
    {
        self.names.name(v.0 as usize)
    }

    pub fn find(&self, name: &str) -> Option<Var>
        ensures found { IsSome result ↔ Contains self.now.names name.now }
        ensures place { IfSome result (λ v. slice_get self.now.names v ≡ Some name.now) }
        ensures only { IfSome result (λ v. (u : ℕ) → slice_get self.now.names u ≡ Some name.now → u ≡ v) }
        ensures few { IfSome result (λ v. v < 1024) }
    {
        let i = self.names.place(name)?;
        Some(Var(i as u32))
    }

    pub fn equations(&self) -> &[Equation]
        ensures list { result.now ≡ self.now.equations }
        ensures over { All (IsEquationOver (var_count self.now)) self.now.equations }
    {
        self.equations.as_slice()
    }

    pub fn statements(&self) -> u32
        ensures { result ≡ length self.now.statements }
    {
        self.statements.len() as u32
    }

    pub fn statement(&self, s: u32) -> &Statement
        requires { s < length self.now.statements }
        ensures which { IsStatementOf self.now s result.now }
        ensures over { IsStatementOver (var_count self.now) result.now }
    {
        &self.statements.as_slice()[s as usize]
    }

    pub fn inputs(&self, s: u32) -> &[Var]
        requires { s < length self.now.statements }
        ensures list { IsSomeAnd (slice_get self.now.statements s) (λ t. result.now ≡ t.inputs) }
        ensures vars { AreVars (var_count self.now) result.now }
    {
        let statement = self.statement(s);
        statement.inputs.as_slice()
    }

    pub fn subs(&self, s: u32) -> u32
        requires { s < length self.now.statements }
        ensures { result ≡ length (subtasks_of self.now s) }
    {
        let statement = &self.statements.as_slice()[s as usize];
        statement.subs.len() as u32
    }

    pub fn subtask(&self, s: u32, k: u32) -> SubView<'_>
        requires statement { s < length self.now.statements }
        requires subtask { k < length (subtasks_of self.now s) }
        ensures inputs { IsSomeAnd (slice_get (subtasks_of self.now s) k) (λ u. result.inputs.now ≡ u.inputs) }
        ensures outputs { IsSomeAnd (slice_get (subtasks_of self.now s) k) (λ u. result.outputs.now ≡ u.outputs) }
        ensures input_vars { AreVars (var_count self.now) result.inputs.now }
        ensures output_vars { AreVars (var_count self.now) result.outputs.now }
    {
        let statement = self.statement(s);
        let u = &statement.subs.as_slice()[k as usize];
        SubView {
            inputs: u.inputs.as_slice(),
            outputs: u.outputs.as_slice(),
        }
    }

    pub fn output(&self, s: u32) -> Var
        requires { s < length self.now.statements }
        ensures which { IsSomeAnd (slice_get self.now.statements s) (λ t. result ≡ t.output) }
        ensures var { result < var_count self.now }
    {
        let statement = self.statement(s);
        statement.output
    }

    /// None where none was written.
    pub fn body(&self, s: u32) -> Option<&Body>
        requires { s < length self.now.statements }
        ensures { IsSomeAnd (slice_get self.now.statements s) (λ t. option_map body_tree (option_copied result) ≡ t.body) }
    {
        let statement = self.statement(s);
        statement.body.as_ref()
    }

    pub fn givens(&self) -> &[Given]
        ensures list { result.now ≡ self.now.givens }
        ensures vars { AreVars (var_count self.now) (given_vars self.now) }
        ensures few { var_count self.now ≤ 1024 }
    {
        self.givens.as_slice()
    }

    pub fn wants(&self) -> &[Var]
        ensures list { result.now ≡ self.now.wants }
        ensures vars { AreVars (var_count self.now) self.now.wants }
        ensures few { var_count self.now ≤ 1024 }
    {
        self.wants.as_slice()
    }
}

fn has_narrow_sides(e: &Equation)
    ensures { HasNarrowSides e.now }
{
    numbers_are_narrow(&e.left);
    numbers_are_narrow(&e.right);
}

fn has_narrow_body(s: &Statement)
    ensures { HasNarrowBody s.now }
{
    if let Some(body) = &s.body {
        numbers_are_narrow(body);
    }
}

fn has_narrow_value(g: &Given)
    ensures { HasNarrowValue g.now }
{
    if let Some(value) = g.value {
        let _ = value.num();
    }
}
