//! Checks of blocks: that they prove the goal of a problem, and that they are separate.
#![tactic(auto)]

mod checker;
mod proof;
mod scope;
mod separation;

pub use checker::TermChecker;
