//! Each text has tokens, up to its end or its first fault.
#![tactic(auto)]

mod laws;

pub use laws::{next_exists, next_is_first, texts_have_a_reading};
