ghost use Rattle.std.specs.Prelude.{◌≤◌, length};
ghost use Rattle.priz_base.specs.Reading.{max_input};
ghost use Rattle.priz_cli.specs.steps.MadeOf.{MadeOf};
ghost use Rattle.priz_cli.specs.steps.TextOf.{TextOf};

use crate::fault::Fault;
use crate::order::{Mode, Order};
use crate::outcome::Outcome;
use crate::refusal::Refusal;
use crate::solve::{Solution, answer_all};
use answer_core::Effort;
use file_accept::problems_of;
use std::alloc::Global;
use std::str;

/// What a mode makes of an input: the outcome, and the text that is to be written for it.
#[derive(Drop)]
pub(crate) struct Made {
    pub(crate) outcome: Outcome,
    pub(crate) text: Vec<u8>,
}

/// Does what was asked for on the bytes that were read.
pub(crate) fn make(alloc: Global, order: &Order, bytes: &[u8]) -> Result<Made, Fault>
    requires few { length bytes.now ≤ max_input }
    ensures { MadeOf order.now.mode order.now.effort bytes.now result }
{
    match order.mode {
        Mode::Solve => solve(alloc, &order.effort, bytes),
    }
}

fn solve(alloc: Global, effort: &Effort, bytes: &[u8]) -> Result<Made, Fault>
    requires few { length bytes.now ≤ max_input }
    ensures { MadeOf Mode.Solve effort.now bytes.now result }
{
    let problems = problems_of(alloc, text_of(bytes)?)?;
    let Solution { answers, report } = answer_all(alloc, problems.as_slice(), effort)?;
    Ok(Made {
        outcome: Outcome::Solved(answers),
        text: report,
    })
}

// The bytes as a text.
fn text_of(bytes: &[u8]) -> Result<&str, Fault>
    requires few { length bytes.now ≤ max_input }
    ensures { TextOf bytes.entry.now result }
{
    match str::from_utf8(bytes) {
        Ok(text) => Ok(text),
        Err(error) => Err(Fault::Refused(Refusal::NotUtf8(error.valid_up_to() as u32))),
    }
}
