//! The rules of concepts: the first one that a file breaks, and where.
#![tactic(auto)]

mod bind_rules;
mod body_rules;
mod calls;
mod check;
mod computes;
mod declarations;
mod fault;
mod item_rules;
mod kinds;
mod line;
mod lineages;
mod loops;
mod new_names;
mod overlap;
mod own_items;
mod parents;
mod path_rules;

pub use check::{check_concepts, check_concepts_within};
pub use fault::{Limit, ModelFault, Rule, UnfoldFault};
pub use lineages::Lineages;
pub use path_rules::{broken_at, broken_on};
