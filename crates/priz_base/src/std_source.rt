ghost use Rattle.std.specs.Prelude.{◌≡◌, ◌<◌, ◌≤◌, length, None};
ghost use Rattle.priz_base.specs.Faults.{Rose, last_count};
ghost use Rattle.priz_base.specs.Source.{FitsPull, Pulls};

use crate::source::{Pull, Source};
use std::io::Read;
use std::marker::Model;

/// A source over a reader: one pull is one read, an error is a failure, and a read of 0 bytes is the end. It tells no
/// bytes; contracts see its reader and its count of faults.
#[derive(Drop)]
pub struct StdSource<R: Read> {
    reader: R,
    faults: u64,
}

impl<R: Read> Model for StdSource<R> {
    ghost use Rattle.std.specs.Prelude.{◌<◌, ◌^◌};
    ghost use Rattle.priz_base.specs.System.{Counting};

    ghost Value = { Counting R };

    ghost view = { λ s. record { inner = s.reader; faults = s.faults } };

    ghost invariant = { λ s. s.faults < 2 ^ 64 };
}

impl<R: Read> StdSource<R> {
    pub fn new(reader: R) -> StdSource<R>
        ensures { result ≡ record { inner = reader; faults = 0 } }
    {
        StdSource { reader, faults: 0 }
    }
}

impl<R: Read> Source for StdSource<R> {
    ghost left = { λ s. None };

    ghost faults = { λ s. s.faults };

    fn pull(&mut self, into: &mut [u8]) -> Pull
        requires { 0 < length into.old }
        ensures count { FitsPull result into.new }
        ensures bytes { Pulls None None result into.new }
        ensures later { self.old.faults ≤ self.new.faults }
        ensures last { self.new.faults ≤ last_count }
        ensures cause { result ≡ Pull.Failed → Rose self.old.faults self.new.faults }
        ensures reader { Pulls (R.remaining self.old.inner) (R.remaining self.new.inner)
            result into.new }
    {
        match self.reader.read(into) {
            Ok(0) => Pull::End,
            Ok(count) => Pull::Got(count),
            Err(_) => {
                self.faults = self.faults.saturating_add(1);
                Pull::Failed
            }
        }
    }
}
