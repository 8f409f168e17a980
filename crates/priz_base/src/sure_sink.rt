ghost use Rattle.std.specs.Prelude.{◌≡◌, ◌≢◌, ◌<◌, ◌≤◌, length, None};
ghost use Rattle.priz_base.specs.Faults.{Rose, last_count};
ghost use Rattle.priz_base.specs.Sink.{FitsPush, Pushes};

use crate::sink::{Push, Sink};

/// Takes all bytes, keeps none, and never fails.
#[derive(Drop)]
pub struct SureSink;

impl SureSink {
    pub fn new() -> SureSink {
        SureSink
    }
}

impl Sink for SureSink {
    ghost written = { λ s. None };

    ghost faults = { λ s. 0 };

    fn push(&mut self, from: &[u8]) -> Push
        requires { 0 < length from.now }
        ensures count { FitsPush result from.now }
        ensures bytes { Pushes None None result from.now }
        ensures later { 0 ≤ 0 }
        ensures last { 0 ≤ last_count }
        ensures cause { result ≡ Push.Failed → Rose 0 0 }
        ensures sure { result ≢ Push.Failed }
        ensures all { result ≡ Push.Took (length from.now) }
    {
        Push::Took(from.len())
    }
}
