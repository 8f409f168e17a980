ghost use Rattle.std.specs.Prelude.{◌≡◌, OnOk, OnErr};
ghost use Rattle.proof_term.specs.Proof.{done, push};
ghost use Rattle.proof_term.specs.Plain.{subs_of};

use crate::Step;
use priz_base::NoMem;
use sqlite_items::Items;
use std::alloc::Global;
use std::marker::Model;

/// Steps, taken in order.
#[cycle(proof)]
#[derive(Debug, Drop)]
pub struct Block {
    pub steps: Items<Step>,
}

impl Model for Block {
    ghost use Rattle.std.specs.Prelude.{ℕ};
    ghost use Rattle.proof_term.specs.Proof.{Steps};
    ghost use Rattle.proof_term.specs.steps.Coding.{coded_steps};

    ghost Value = { Steps };

    ghost coded = { coded_steps };

    ghost use Rattle.proof_term.specs.Plain.{steps_of, block_size};

    ghost view = { λ b. steps_of b.steps };

    ghost size = { block_size };

    ghost use Rattle.proof_term.specs.steps.Falls.{size_falls};

    ghost size_decreases = { λ b h. size_falls b.steps };
}

impl Block {
    /// No steps. Takes no memory.
    pub fn new(alloc: Global) -> Block
        ensures { result ≡ done }
    {
        Block {
            steps: Items::new(alloc),
        }
    }

    /// Adds a step at the end.
    pub fn push(&mut self, s: Step) -> Result<(), NoMem>
        ensures ok { OnOk result (self.new ≡ push self.old s.stmt (subs_of s.subs)) }
        ensures err { OnErr result (self.new ≡ self.old) }
    {
        self.steps.push(s)?;
        Ok(())
    }
}
