//! Forms of a grammar over the tokens of a text, and a reader of them.
#![tactic(auto)]

mod laws;
mod parse_stop;
mod reader;

pub use laws::symbols_begin_forms;
pub use parse_stop::{ParseStop, Why};
pub use reader::Reader;
