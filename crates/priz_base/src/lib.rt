//! What the other crates share: variables and their sets, places in a text, and byte streams that count their faults.
#![tactic(auto)]

mod mem_sink;
mod mem_source;
mod no_mem;
mod place;
mod reading;
mod sink;
mod source;
mod std_sink;
mod std_source;
mod sure_sink;
mod sure_source;
#[cfg(test)]
mod tests;
mod var;
mod var_set;
mod writing;

pub use mem_sink::MemSink;
pub use mem_source::MemSource;
pub use no_mem::NoMem;
pub use place::Place;
pub use reading::{MAX_INPUT, ReadStop, read_all};
pub use sink::{Push, Sink};
pub use source::{Pull, Source};
pub use std_sink::StdSink;
pub use std_source::StdSource;
pub use sure_sink::SureSink;
pub use sure_source::SureSource;
pub use var::Var;
pub use var_set::VarSet;
pub use writing::{write_all, write_pieces};
