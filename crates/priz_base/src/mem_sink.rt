ghost use Rattle.std.specs.Prelude.{◌≡◌, ◌+◌, ◌-◌, ◌^◌, ◌<◌, ◌≤◌, ◌⊎◌, ◌↔◌, [], length, take, min, Some, Contains, IfOk};
ghost use Rattle.priz_base.specs.Faults.{Rose, last_count, next_count};
ghost use Rattle.priz_base.specs.Sink.{FitsPush, Pushes, CountsPush};

use crate::no_mem::NoMem;
use crate::sink::{Push, Sink};
use std::alloc::Global;
use std::marker::Model;

/// Holds bytes: takes at most `most` per call, and fails at the calls that `fails` numbers from 0 and where its
/// room is full.
#[derive(Drop)]
pub struct MemSink<'a> {
    bytes: Vec<u8>,
    room: usize,
    most: usize,
    fails: &'a [u64],
    calls: u64,
    faults: u64,
}

impl<'a> Model for MemSink<'a> {
    ghost use Rattle.std.specs.Prelude.{◌≤◌, ◌^◌, ◌<◌, vec_len, vec_capacity};
    ghost use Rattle.priz_base.specs.Memory.{Holding};

    ghost Value = { Holding };

    ghost view = { λ s. record {
      written = s.bytes.items;
      room = s.room;
      most = s.most;
      fails = s.fails.now;
      calls = s.calls;
      faults = s.faults;
    } };

    ghost invariant = { λ s. (1 ≤ s.most) × (vec_len s.bytes ≤ s.room)
        × (s.room ≤ vec_capacity s.bytes) × (s.faults < 2 ^ 64) };
}

impl<'a> MemSink<'a> {
    /// Takes the memory for all its room.
    pub fn new(
        alloc: Global,
        room: usize,
        most: usize,
        fails: &'a [u64],
    ) -> Result<MemSink<'a>, NoMem>
        requires { 1 ≤ most }
        ensures { IfOk result (λ s. s ≡ record {
          written = [];
          room = room;
          most = most;
          fails = fails.entry.now;
          calls = 0;
          faults = 0;
        }) }
    {
        let bytes = Vec::with_capacity(alloc, room)?;
        Ok(MemSink {
            bytes,
            room,
            most,
            fails,
            calls: 0,
            faults: 0,
        })
    }

    /// The bytes taken so far.
    pub fn written(&self) -> &[u8]
        ensures { result.now ≡ self.now.written }
    {
        &self.bytes
    }
}

impl<'a> Sink for MemSink<'a> {
    ghost written = { λ s. Some s.written };

    ghost faults = { λ s. s.faults };

    fn push(&mut self, from: &[u8]) -> Push
        requires { 0 < length from.now }
        ensures count { FitsPush result from.now }
        ensures bytes { Pushes (Some self.old.written) (Some self.new.written) result from.now }
        ensures later { self.old.faults ≤ self.new.faults }
        ensures last { self.new.faults ≤ last_count }
        ensures cause { result ≡ Push.Failed → Rose self.old.faults self.new.faults }
        ensures counted { CountsPush result self.old.faults self.new.faults }
        ensures named { result ≡ Push.Failed ↔
            (Contains self.old.fails self.old.calls ⊎ (length self.old.written ≡ self.old.room)) }
        ensures most { FitsPush result (take self.old.most from.now) }
        ensures within { length self.new.written ≤ self.new.room }
        ensures calls { self.new.calls ≡ next_count self.old.calls }
        ensures same_fails { self.new.fails ≡ self.old.fails }
        ensures same_room { self.new.room ≡ self.old.room }
        ensures same_most { self.new.most ≡ self.old.most }
    {
        let fails_now = self.fails.contains(&self.calls);
        self.calls = self.calls.saturating_add(1);
        let room = self.room - self.bytes.len();
        if fails_now || room == 0 {
            self.faults = self.faults.saturating_add(1);
            return Push::Failed;
        }
        let count = self.most.min(room).min(from.len());
        self.bytes.extend_from_slice(&from[..count]).unwrap();
        Push::Took(count)
    }
}
