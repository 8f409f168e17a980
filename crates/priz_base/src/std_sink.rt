ghost use Rattle.std.specs.Prelude.{◌≡◌, ◌<◌, ◌≤◌, length, None};
ghost use Rattle.priz_base.specs.Faults.{Rose, last_count};
ghost use Rattle.priz_base.specs.Sink.{FitsPush, Pushes};
ghost use Rattle.priz_base.specs.System.{PassesOn};

use crate::sink::{Push, Sink};
use std::io::Write;
use std::marker::Model;

/// A sink over a writer: one push is one write and one flush, and an error of either and a write of 0 bytes are
/// failures. It tells no bytes, since a flush may fail after a write; contracts see its writer and its count of faults.
#[derive(Drop)]
pub struct StdSink<W: Write> {
    writer: W,
    faults: u64,
}

impl<W: Write> Model for StdSink<W> {
    ghost use Rattle.std.specs.Prelude.{◌<◌, ◌^◌};
    ghost use Rattle.priz_base.specs.System.{Counting};

    ghost Value = { Counting W };

    ghost view = { λ s. record { inner = s.writer; faults = s.faults } };

    ghost invariant = { λ s. s.faults < 2 ^ 64 };
}

impl<W: Write> StdSink<W> {
    pub fn new(writer: W) -> StdSink<W>
        ensures { result ≡ record { inner = writer; faults = 0 } }
    {
        StdSink { writer, faults: 0 }
    }
}

impl<W: Write> Sink for StdSink<W> {
    ghost written = { λ s. None };

    ghost faults = { λ s. s.faults };

    fn push(&mut self, from: &[u8]) -> Push
        requires { 0 < length from.now }
        ensures count { FitsPush result from.now }
        ensures bytes { Pushes None None result from.now }
        ensures later { self.old.faults ≤ self.new.faults }
        ensures last { self.new.faults ≤ last_count }
        ensures cause { result ≡ Push.Failed → Rose self.old.faults self.new.faults }
        ensures writer { PassesOn (W.contents self.old.inner) (W.contents self.new.inner)
            result from.now }
    {
        let count = match self.writer.write(from) {
            Ok(count) => count,
            Err(_) => 0,
        };
        if count > 0 && self.writer.flush().is_ok() {
            Push::Took(count)
        } else {
            self.faults = self.faults.saturating_add(1);
            Push::Failed
        }
    }
}
