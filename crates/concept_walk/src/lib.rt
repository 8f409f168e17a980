//! The walk of a concept: its variables, and its equations and relations, through all of its components.
#![tactic(auto)]

mod found;
mod laws;
mod trail;
mod walk;

pub use found::{Met, Walked};
pub use laws::{items_are_known, known_variables_are_walked, walked_names_differ};
pub use walk::{Walk, walk_concept};
