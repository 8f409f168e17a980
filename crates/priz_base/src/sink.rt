ghost use Rattle.std.specs.Prelude.{◌≡◌, ℕ, ◌<◌, ◌≤◌, List, length};
ghost use Rattle.std.specs.declared.option.Option.{Option};
ghost use Rattle.priz_base.specs.Faults.{Rose, last_count};
ghost use Rattle.priz_base.specs.Sink.{FitsPush, Pushes};

/// What a push answers.
#[derive(Clone, Copy, Debug, PartialEq, Eq)]
pub enum Push {
    /// So many bytes were taken, at least one.
    Took(usize),
    /// The outside failed.
    Failed,
}

/// Takes bytes.
pub trait Sink {
    // the bytes taken so far, told or not
    ghost written: { Self → Option (List ℕ) };

    // how often it has failed
    ghost faults: { Self → ℕ };

    /// Takes bytes from the front of `from`.
    fn push(&mut self, from: &[u8]) -> Push
        requires { 0 < length from.now }
        ensures count { FitsPush result from.now }
        ensures bytes { Pushes (written self.old) (written self.new) result from.now }
        ensures later { faults self.old ≤ faults self.new }
        ensures last { faults self.new ≤ last_count }
        ensures cause { result ≡ Push.Failed → Rose (faults self.old) (faults self.new) };
}
