//! The statements of an equation: one for each variable that stands in it once.
#![tactic(auto)]

mod counts;
mod laws;
mod renumbering;
mod statements;
#[cfg(test)]
mod tests;
mod variables;

pub use counts::count_of;
pub use laws::{equations_give_statements, statements_solve_their_equation};
pub use statements::statements_of;
