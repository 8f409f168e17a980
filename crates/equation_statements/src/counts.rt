ghost use Rattle.std.specs.Prelude.{◌≡◌, ◌+◌, ◌-◌, ◌^◌, ◌==◌, ℕ, [], length, min, not};
ghost use Rattle.std.specs.List.{filter, list_any};
ghost use Rattle.body_lang.specs.Equations.{IsArithmetic};
ghost use Rattle.body_lang.specs.Occurrences.{occurrences};
ghost use Rattle.body_lang.specs.Reads.{IsClosed};
ghost use Rattle.body_lang.specs.View.{body_tree};
ghost use Rattle.statement_set.specs.Problem.{IsEquationOver};
ghost use Rattle.equation_statements.specs.SolvingStatements.{variables_in, solving_statements};
ghost use Rattle.equation_statements.specs.steps.Sightings.{IsSeen};

use body_lang::{Body, Equation};
use priz_base::{Var, VarSet};

/// The variables that were seen at all, and those that were seen twice or more.
#[derive(Drop)]
struct Sightings {
    once: VarSet,
    again: VarSet,
}

/// How many statements an equation gives. Takes no memory, and walks the equation twice.
pub fn count_of(equation: &Equation) -> usize
    requires { IsEquationOver 1024 equation.now }
    ensures { result ≡ length (solving_statements equation.now) }
{
    let mut seen = Sightings {
        once: VarSet::new(),
        again: VarSet::new(),
    };
    see(&equation.left, &mut seen);
    see(&equation.right, &mut seen);
    let left = count_without(&equation.left, &seen.again);
    left.saturating_add(count_without(&equation.right, &seen.again))
}

fn see(body: &Body, seen: &mut Sightings)
    requires arithmetic { IsArithmetic (body_tree body.now) }
    requires closed { IsClosed 1024 [] 0 (body_tree body.now) }
    ensures { (v n : ℕ) → IsSeen seen.old v n
        → IsSeen seen.new v (n + occurrences v (body_tree body.now)) }
{
    match body {
        Body::Num(_) => {}
        Body::Input(v) => {
            let v = Var(*v);
            if seen.once.has(v) {
                seen.again.add(v);
            } else {
                seen.once.add(v);
            }
        }
        Body::Neg(part) => see(part.get(), seen),
        Body::Op { op: _, left, right } => {
            see(left.get(), seen);
            see(right.get(), seen);
        }
        _ => unreachable!(),
    }
}

// How many inputs of arithmetic stand for no variable of the set, up to the type's last value.
fn count_without(body: &Body, set: &VarSet) -> usize
    requires { IsArithmetic (body_tree body.now) }
    ensures { result ≡ min (2 ^ 64 - 1)
        (length (filter (λ w. not (list_any (λ u. u == w) set.now))
        (variables_in (body_tree body.now)))) }
{
    match body {
        Body::Num(_) => 0,
        Body::Input(v) => { if set.has(Var(*v)) { 0 } else { 1 } }
        Body::Neg(part) => count_without(part.get(), set),
        Body::Op { op: _, left, right } => {
            let left = count_without(left.get(), set);
            left.saturating_add(count_without(right.get(), set))
        }
        _ => unreachable!(),
    }
}
