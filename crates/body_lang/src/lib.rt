//! Bodies: the expressions that give a statement's output, and what they mean.
#![tactic(auto)]

mod arity;
mod body;
mod body_fault;
mod check;
mod cmp;
mod equation;
mod equation_laws;
mod laws;
mod loop_kind;
mod numbers;
mod op;
mod run_fault;
#[cfg(test)]
mod tests;

pub use arity::Arity;
pub use body::Body;
pub use body_fault::BodyFault;
pub use check::check_body;
pub use cmp::Cmp;
pub use equation::Equation;
pub use equation_laws::{
    arithmetic_has_one_exact_value, equations_are_solved_as_they_should, inverses_solve_equations,
};
pub use laws::{
    bodies_mean_what_they_should, checked_bodies_read_what_is_there,
    exact_meaning_ends_in_the_narrow_value, values_are_in_lowest_terms,
};
pub use loop_kind::LoopKind;
pub use numbers::numbers_are_narrow;
pub use op::Op;
pub use run_fault::RunFault;
