//! The tree of the language, and its canonical text.
#![tactic(auto)]

mod compute;
mod concept;
mod expr;
mod file;
mod fraction;
mod item;
mod name;
mod path;
mod pieces;
mod position;
mod print_binds;
mod print_compute;
mod print_concept;
mod print_file;
mod print_item;
mod print_parts;
mod print_path;
mod print_tree;
#[cfg(test)]
mod tests;
mod words;

pub use compute::{Compute, GivenPath};
pub use concept::Concept;
pub use expr::Expr;
pub use file::File;
pub use fraction::print_fraction;
pub use item::{Bind, Item, Part, VarKind};
pub use name::Name;
pub use path::Path;
pub use pieces::{print_if, print_number, print_text};
pub use position::Position;
pub use print_compute::print_value;
pub use print_file::print;
pub use print_tree::print_expr;
pub use words::{comparison, loop_word, operator, print_sub};
