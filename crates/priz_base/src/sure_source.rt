ghost use Rattle.std.specs.Prelude.{◌≡◌, ◌≢◌, ◌<◌, ◌≤◌, length, take, Some};
ghost use Rattle.priz_base.specs.Faults.{Rose, last_count};
ghost use Rattle.priz_base.specs.Source.{FitsPull, Pulls};

use crate::source::{Pull, Source};
use std::marker::Model;

/// Gives the bytes of a slice, at most `most` per call, and never fails.
#[derive(Drop)]
pub struct SureSource<'a> {
    rest: &'a [u8],
    most: usize,
}

impl<'a> Model for SureSource<'a> {
    ghost use Rattle.std.specs.Prelude.{◌≤◌};
    ghost use Rattle.priz_base.specs.Memory.{Sure};

    ghost Value = { Sure };

    ghost view = { λ s. record { left = s.rest.now; most = s.most } };

    ghost invariant = { λ s. 1 ≤ s.most };
}

impl<'a> SureSource<'a> {
    pub fn new(bytes: &'a [u8], most: usize) -> SureSource<'a>
        requires { 1 ≤ most }
        ensures { result ≡ record { left = bytes.entry.now; most = most } }
    {
        SureSource { rest: bytes, most }
    }
}

impl<'a> Source for SureSource<'a> {
    ghost left = { λ s. Some s.left };

    ghost faults = { λ s. 0 };

    fn pull(&mut self, into: &mut [u8]) -> Pull
        requires { 0 < length into.old }
        ensures count { FitsPull result into.new }
        ensures bytes { Pulls (Some self.old.left) (Some self.new.left) result into.new }
        ensures later { 0 ≤ 0 }
        ensures last { 0 ≤ last_count }
        ensures cause { result ≡ Pull.Failed → Rose 0 0 }
        ensures sure { result ≢ Pull.Failed }
        ensures most { FitsPull result (take self.old.most into.new) }
        ensures same_most { self.new.most ≡ self.old.most }
    {
        let count = self.most.min(self.rest.len()).min(into.len());
        if count == 0 {
            return Pull::End;
        }
        let (front, after) = self.rest.split_at(count);
        into[..count].copy_from_slice(front);
        self.rest = after;
        Pull::Got(count)
    }
}
