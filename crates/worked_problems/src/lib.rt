//! Problems, blocks and worlds from rows of numbers, for tables of worked problems.
#![tactic(auto)]

mod block;
mod build_fault;
mod problem;
mod rows;
mod statement;
#[cfg(test)]
mod tests;
mod world_fault;
mod worlds;

pub use block::{StepRow, SubRow, build_block};
pub use build_fault::BuildFault;
pub use problem::build_problem;
pub use rows::{ProblemRow, StatementRow, SubtaskRow};
pub use world_fault::WorldFault;
pub use worlds::build_worlds;
