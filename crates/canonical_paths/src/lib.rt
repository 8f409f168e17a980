//! Canonical paths of the variables of a concept, as a table over its declared paths.
#![tactic(auto)]

mod aliases;
mod concept;
mod items;
mod laws;
mod layout;
mod layouts;
mod marks;
mod slot;
mod tables;
#[cfg(test)]
mod tests;

pub use laws::{
    canonical_paths_are_declared, canonical_paths_stand_for_themselves,
    checked_concepts_are_scoped, declared_paths_differ, layouts_have_canonical_paths,
    tables_name_canonical_paths,
};
pub use layouts::Layouts;
pub use slot::Slot;
