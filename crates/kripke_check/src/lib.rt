//! Worlds of finite Kripke models, and the check that they are a countermodel of a goal.
#![tactic(auto)]

mod countermodel;
mod laws;
mod worlds;

pub use countermodel::check;
pub use laws::worlds_force_by_place;
pub use worlds::Worlds;
