//! Reading a file of concepts and compute statements.
#![tactic(auto)]

mod binds;
mod breadth;
mod compute;
mod concept;
mod entry;
mod expr;
mod file;
mod forms;
mod given;
mod group;
mod item;
mod laws;
mod nested;
mod nodes;
mod operators;
mod parser;
mod parts;
mod paths;
mod production;

pub use laws::{
    examples_are_read_as_they_should, symbols_begin_what_goes_on, texts_have_one_answer,
};
pub use parser::{ParseFault, parse};
