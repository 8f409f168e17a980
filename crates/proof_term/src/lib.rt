//! Proofs as nested blocks.
#![tactic(auto)]

mod block;
mod evaluate;
mod laws;
mod locals;
mod numbers;
mod run_stop;
mod runner;
mod step;
mod worked;

pub use block::Block;
pub use laws::proof_derives;
pub use run_stop::RunStop;
pub use runner::run_block;
pub use step::{Step, Sub};
pub use worked::{
    nested_blocks_run, squares_sum_proved, two_outputs_proved, unknown_result_refused,
};
