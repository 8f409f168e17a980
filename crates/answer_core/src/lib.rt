//! The answer to one problem, and the lines that report it.
#![tactic(auto)]

mod answering;
mod effort;
mod report;
mod search;
#[cfg(test)]
mod tests;
mod values;
mod verdict;
mod wording;

pub use answering::answer;
pub use effort::Effort;
pub use report::render;
pub use values::Values;
pub use verdict::Answer;
