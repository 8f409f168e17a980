ghost use Rattle.std.specs.Prelude.{◌≡◌, ◌+◌, ◌<◌, ◌≤◌, ◌↔◌, length, take, min, Some, Contains};
ghost use Rattle.priz_base.specs.Faults.{Rose, last_count, next_count};
ghost use Rattle.priz_base.specs.Source.{FitsPull, Pulls, CountsPull};

use crate::source::{Pull, Source};
use std::marker::Model;

/// Gives the bytes of a slice, at most `most` per call, and fails at the calls that `fails` numbers from 0, at the
/// end of the bytes too.
#[derive(Drop)]
pub struct MemSource<'a> {
    rest: &'a [u8],
    most: usize,
    fails: &'a [u64],
    calls: u64,
    faults: u64,
}

impl<'a> Model for MemSource<'a> {
    ghost use Rattle.std.specs.Prelude.{◌≤◌, ◌^◌, ◌<◌};
    ghost use Rattle.priz_base.specs.Memory.{Failing};

    ghost Value = { Failing };

    ghost view = { λ s. record {
      left = s.rest.now;
      most = s.most;
      fails = s.fails.now;
      calls = s.calls;
      faults = s.faults;
    } };

    ghost invariant = { λ s. (1 ≤ s.most) × (s.faults < 2 ^ 64) };
}

impl<'a> MemSource<'a> {
    pub fn new(bytes: &'a [u8], most: usize, fails: &'a [u64]) -> MemSource<'a>
        requires { 1 ≤ most }
        ensures { result ≡ record {
          left = bytes.entry.now;
          most = most;
          fails = fails.entry.now;
          calls = 0;
          faults = 0;
        } }
    {
        MemSource {
            rest: bytes,
            most,
            fails,
            calls: 0,
            faults: 0,
        }
    }
}

impl<'a> Source for MemSource<'a> {
    ghost left = { λ s. Some s.left };

    ghost faults = { λ s. s.faults };

    fn pull(&mut self, into: &mut [u8]) -> Pull
        requires { 0 < length into.old }
        ensures count { FitsPull result into.new }
        ensures bytes { Pulls (Some self.old.left) (Some self.new.left) result into.new }
        ensures later { self.old.faults ≤ self.new.faults }
        ensures last { self.new.faults ≤ last_count }
        ensures cause { result ≡ Pull.Failed → Rose self.old.faults self.new.faults }
        ensures counted { CountsPull result self.old.faults self.new.faults }
        ensures named { result ≡ Pull.Failed ↔ Contains self.old.fails self.old.calls }
        ensures most { FitsPull result (take self.old.most into.new) }
        ensures calls { self.new.calls ≡ next_count self.old.calls }
        ensures same_fails { self.new.fails ≡ self.old.fails }
        ensures same_most { self.new.most ≡ self.old.most }
    {
        let fails_now = self.fails.contains(&self.calls);
        self.calls = self.calls.saturating_add(1);
        if fails_now {
            self.faults = self.faults.saturating_add(1);
            return Pull::Failed;
        }
        let count = self.most.min(self.rest.len()).min(into.len());
        if count == 0 {
            return Pull::End;
        }
        let (front, after) = self.rest.split_at(count);
        into[..count].copy_from_slice(front);
        self.rest = after;
        Pull::Got(count)
    }
}
