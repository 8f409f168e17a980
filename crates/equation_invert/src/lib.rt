//! Equations, solved for one of their variables.
#![tactic(auto)]

mod around;
mod copies;
mod occurrences;
mod solving;
#[cfg(test)]
mod tests;

pub use solving::invert;
