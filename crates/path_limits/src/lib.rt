//! The limits on the declared paths of a concept that is asked.
#![tactic(auto)]

mod extent;
mod extents;
mod laws;
mod limits;
mod own_items;
#[cfg(test)]
mod tests;

pub use extents::Extents;
pub use laws::limits_leave_few_paths;
