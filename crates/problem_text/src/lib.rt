//! The text of a problem: its variables, its statements with their bodies, and its goal.
#![tactic(auto)]

mod body;
mod problem;
mod scope;
mod statement;
#[cfg(test)]
mod tests;
mod variables;

pub use problem::print_problem;
