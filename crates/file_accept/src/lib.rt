//! From the text of a file to the problems of its compute statements, or to the first cause of its refusal.
#![tactic(auto)]

mod fault;
mod laws;
mod problems;
mod reading;
#[cfg(test)]
mod tests;
#[cfg(test)]
mod tests_concepts;
#[cfg(test)]
mod tests_limits;
#[cfg(test)]
mod tests_problems;
#[cfg(test)]
mod tests_rules;
mod unbuilt;

pub use fault::FileFault;
pub use laws::texts_are_refused_for_one_cause;
pub use problems::problems_of;
