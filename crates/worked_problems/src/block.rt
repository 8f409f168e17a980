ghost use Rattle.std.specs.Prelude.{◌≡◌, map, IfOk};
ghost use Rattle.worked_problems.specs.BlockRows.{answer_of, row_answer, row_steps};

use priz_base::NoMem;
use proof_term::{Block, Step, Sub};
use sqlite_items::Items;
use std::alloc::Global;

/// A step: the number of its statement, and an answer to each subtask.
#[cycle(row)]
#[derive(Clone, Copy)]
pub struct StepRow<'a> {
    pub stmt: u32,
    pub subs: &'a [SubRow<'a>],
}

/// An answer: the results are known, or steps give them.
#[cycle(row)]
#[derive(Clone, Copy)]
pub enum SubRow<'a> {
    Known,
    Body(&'a [StepRow<'a>]),
}

/// The block of these steps.
#[cycle(build)]
pub fn build_block(alloc: Global, rows: &[StepRow<'_>]) -> Result<Block, NoMem>
    ensures { IfOk result (λ b. b ≡ row_steps rows.now) }
{
    let mut block = Block::new(alloc);
    for row in rows {
        let subs = build_subs(alloc, row.subs)?;
        block.push(Step {
            stmt: row.stmt,
            subs,
        })?;
    }
    Ok(block)
}

#[cycle(build)]
fn build_subs(alloc: Global, rows: &[SubRow<'_>]) -> Result<Items<Sub>, NoMem>
    ensures { IfOk result (λ subs. map answer_of subs ≡ map row_answer rows.now) }
{
    let mut subs = Items::new(alloc);
    for row in rows {
        subs.push(build_sub(alloc, row)?)?;
    }
    Ok(subs)
}

#[cycle(build)]
fn build_sub(alloc: Global, row: &SubRow<'_>) -> Result<Sub, NoMem>
    ensures { IfOk result (λ sub. answer_of sub ≡ row_answer row.now) }
{
    match row {
        SubRow::Known => Ok(Sub::Known),
        SubRow::Body(steps) => Ok(Sub::Body(build_block(alloc, steps)?)),
    }
}
