ghost use Rattle.std.specs.Prelude.{◌≡◌, ◌<◌, ◌==◌, ℕ, List, [], ◌++◌, not, All, IfOk, OnOk, Some};
ghost use Rattle.std.specs.List.{filter};
ghost use Rattle.body_lang.specs.Equations.{IsArithmetic};
ghost use Rattle.body_lang.specs.Occurrences.{occurrences};
ghost use Rattle.body_lang.specs.Reads.{IsClosed};
ghost use Rattle.body_lang.specs.View.{body_tree};
ghost use Rattle.statement_set.specs.Problem.{IsEquationOver, IsStatementOver};
ghost use Rattle.equation_statements.specs.SolvingStatements.{variables_in, variables_on, firsts, solving_statements};
ghost use Rattle.equation_statements.specs.steps.Places.{statement_for};

use crate::renumbering::over_places;
use crate::variables::Variables;
use body_lang::{Body, Equation};
use equation_invert::invert;
use priz_base::{NoMem, Var};
use sqlite_items::Items;
use statement_set::Statement;
use std::alloc::Global;

/// The statements that an equation gives: one for each variable that stands in it exactly once, in the order in which
/// these stand there.
///
/// Its inputs are the equation's other variables, in the order in which they stand there first, and its body is the
/// equation solved for the variable. It walks the equation a fixed number of times for each variable.
pub fn statements_of(alloc: Global, equation: &Equation) -> Result<Items<Statement>, NoMem>
    requires { IsEquationOver 1024 equation.now }
    ensures list { IfOk result (λ ss. ss ≡ solving_statements equation.now) }
    ensures over { (n : ℕ) → IsEquationOver n equation.now
        → IfOk result (λ ss. All (IsStatementOver n) ss) }
{
    let variables = variables_of(alloc, equation)?;
    statements_for(alloc, equation, &variables)
}

// The statements for those of the equation's variables that it can be solved for.
fn statements_for(
    alloc: Global,
    equation: &Equation,
    variables: &Variables,
) -> Result<Items<Statement>, NoMem>
    requires over { IsEquationOver 1024 equation.now }
    requires variables { variables.now ≡ firsts (variables_on equation.now) }
    ensures { IfOk result (λ ss. ss ≡ solving_statements equation.now) }
{
    let mut statements = Items::new(alloc);
    for v in variables.as_slice() {
        let solved = invert(alloc, equation, v.0)?;
        if let Some(solved) = &solved {
            let statement = statement_of(alloc, variables, *v, solved)?;
            statements.push(statement)?;
        }
    }
    Ok(statements)
}

// The variables of an equation, in the order in which they stand there first.
fn variables_of(alloc: Global, equation: &Equation) -> Result<Variables, NoMem>
    requires { IsEquationOver 1024 equation.now }
    ensures { IfOk result (λ vs. vs ≡ firsts (variables_on equation.now)) }
{
    let mut variables = Variables::new(alloc)?;
    add_variables(&equation.left, &mut variables)?;
    add_variables(&equation.right, &mut variables)?;
    Ok(variables)
}

// Adds those of a part, which stands behind all that was seen before.
fn add_variables(body: &Body, variables: &mut Variables) -> Result<(), NoMem>
    requires arithmetic { IsArithmetic (body_tree body.now) }
    requires closed { IsClosed 1024 [] 0 (body_tree body.now) }
    ensures { (before : List ℕ) → variables.old ≡ firsts before
        → OnOk result (variables.new ≡ firsts (before ++ variables_in (body_tree body.now))) }
{
    match body {
        Body::Num(_) => Ok(()),
        Body::Input(v) => variables.add(Var(*v)),
        Body::Neg(part) => add_variables(part.get(), variables),
        Body::Op { op: _, left, right } => {
            add_variables(left.get(), variables)?;
            add_variables(right.get(), variables)
        }
        _ => unreachable!(),
    }
}

// The statement for v, of an equation over these variables that is solved for it.
fn statement_of(
    alloc: Global,
    variables: &Variables,
    v: Var,
    solved: &Body,
) -> Result<Statement, NoMem>
    requires v { v < 1024 }
    requires arithmetic { IsArithmetic (body_tree solved.now) }
    requires closed { IsClosed 1024 [] 0 (body_tree solved.now) }
    requires without { occurrences v (body_tree solved.now) ≡ 0 }
    ensures { IfOk result (λ s. s ≡ statement_for variables.now v (body_tree solved.now)) }
{
    let inputs = others_of(alloc, variables.as_slice(), v)?;
    let body = over_places(alloc, variables, v, solved)?;
    Ok(Statement {
        inputs,
        subs: Items::new(alloc),
        output: v,
        body: Some(body),
    })
}

// The variables but v.
fn others_of(alloc: Global, variables: &[Var], v: Var) -> Result<Items<Var>, NoMem>
    ensures { IfOk result (λ vs. vs ≡ filter (λ w. not (w == v)) variables.now) }
{
    let mut others = Items::new(alloc);
    for w in variables {
        if *w != v {
            others.push(*w)?;
        }
    }
    Ok(others)
}
