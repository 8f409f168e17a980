ghost use Rattle.std.specs.Prelude.{◌≡◌, ℕ, ◌<◌, ◌≤◌, List, length};
ghost use Rattle.std.specs.declared.option.Option.{Option};
ghost use Rattle.priz_base.specs.Faults.{Rose, last_count};
ghost use Rattle.priz_base.specs.Source.{FitsPull, Pulls};

/// What a pull answers.
#[derive(Clone, Copy, Debug, PartialEq, Eq)]
pub enum Pull {
    /// So many bytes came, at least one.
    Got(usize),
    /// No byte is left.
    End,
    /// The outside failed.
    Failed,
}

/// Gives bytes.
pub trait Source {
    // the bytes not yet given, told or not
    ghost left: { Self → Option (List ℕ) };

    // how often it has failed
    ghost faults: { Self → ℕ };

    /// Puts bytes at the front of `into`.
    fn pull(&mut self, into: &mut [u8]) -> Pull
        requires { 0 < length into.old }
        ensures count { FitsPull result into.new }
        ensures bytes { Pulls (left self.old) (left self.new) result into.new }
        ensures later { faults self.old ≤ faults self.new }
        ensures last { faults self.new ≤ last_count }
        ensures cause { result ≡ Pull.Failed → Rose (faults self.old) (faults self.new) };
}
