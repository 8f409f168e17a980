//! Problems of structural synthesis, and the logic that says what they mean.
#![tactic(auto)]

mod given;
mod laws;
mod names;
mod problem;
mod statement;
mod subtask;
mod worked;

pub use given::Given;
pub use laws::{closed_set_refutes, countermodel_refutes, forcing_is_kept, rules_keep_forcing};
pub use names::Names;
pub use problem::Problem;
pub use statement::Statement;
pub use subtask::{SubView, Subtask};
pub use worked::{
    last_world_needs_the_first, peirce_refuted, squares_sum_derived, squares_sum_formula,
    two_outputs_formula,
};
