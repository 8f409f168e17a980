//! The canonical text of a file has the tokens of its tree, and is read as the same tree but for the places.
#![tactic(auto)]

mod laws;
#[cfg(test)]
mod tests;

pub use laws::{canonical_text_has_its_tokens, canonical_text_is_read_back};
