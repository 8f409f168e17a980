//! Names and paths of a text, looked up by hash: no name is copied.
#![tactic(auto)]

mod edge;
mod ends;
mod names;
mod paths;
#[cfg(test)]
mod tests;
mod trie;

pub use names::NameSet;
pub use paths::PathSet;
