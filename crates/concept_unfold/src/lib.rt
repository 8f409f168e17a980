//! Of a file that breaks no rule of concepts, the problems of its compute statements.
#![tactic(auto)]

mod bodies;
mod built;
mod goal;
mod inputs;
mod items;
mod limits;
mod numbers;
mod rounds;
mod unfolding;

pub use built::is_built;
pub use unfolding::unfold;
