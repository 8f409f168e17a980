//! The text of certificates: blocks and lists of worlds.
#![tactic(auto)]

mod proof_line;
#[cfg(test)]
mod tests;
mod worlds_line;

pub use proof_line::write_proof;
pub use worlds_line::write_worlds;
