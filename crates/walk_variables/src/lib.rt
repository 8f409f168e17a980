//! Which variable of a problem a path of a component is.
#![tactic(auto)]

mod numbers;
mod site;

pub use numbers::numbers_of;
pub use site::Site;
