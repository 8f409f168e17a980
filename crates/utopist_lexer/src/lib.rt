//! From a text to its tokens.
#![tactic(auto)]

mod classes;
mod cut;
mod digits;
mod fault;
mod first;
mod front;
mod gap;
mod laws;
mod lexer;
mod mark;
mod places;
mod run;
#[cfg(test)]
mod tests;
mod token;
mod word;

pub use fault::{LexFault, LexKind};
pub use laws::texts_have_one_reading;
pub use lexer::Lexer;
pub use mark::Mark;
pub use token::{Kind, Token};
pub use word::Word;
