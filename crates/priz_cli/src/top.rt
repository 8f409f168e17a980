ghost use Rattle.std.specs.Prelude.{◌≡◌, ◌≤◌, map, string_bytes, Some};
ghost use Rattle.priz_cli.specs.Words.{asked_order};
ghost use Rattle.priz_cli.specs.Modes.{reads};
ghost use Rattle.priz_cli.specs.Messages.{message_of};
ghost use Rattle.priz_cli.specs.Ends.{Ends, EndsAndSays, Settles, source_state, streams};
ghost use Rattle.priz_cli.specs.steps.InputOf.{InputOf};

use crate::fault::Fault;
use crate::make::{Made, make};
use crate::message::message;
use crate::order::{Mode, Order};
use crate::outcome::Outcome;
use crate::words::asked_order;
use priz_base::{NoMem, ReadStop, Sink, Source, read_all, write_all};
use std::alloc::Global;

/// The whole program: does what the words ask for, and then writes the message of the outcome.
pub fn run<S: Source, K: Sink>(
    alloc: Global,
    words: &[String],
    source: &mut S,
    sink: &mut K,
) -> Outcome
    ensures ends { EndsAndSays (asked_order (map string_bytes words.now)) result (message_of result)
        (streams (S.left source.old) (S.faults source.old) (K.written sink.old) (K.faults sink.old))
        (streams (S.left source.new) (S.faults source.new) (K.written sink.new) (K.faults sink.new)) }
    ensures settled { Settles (asked_order (map string_bytes words.now)) result (S.left source.old) }
{
    let outcome = priz(alloc, words, source, sink);
    message(&outcome, sink);
    outcome
}

/// Does what the words ask for.
pub fn priz<S: Source, K: Sink>(
    alloc: Global,
    words: &[String],
    source: &mut S,
    sink: &mut K,
) -> Outcome
    ensures ends { Ends (asked_order (map string_bytes words.now)) result
        (streams (S.left source.old) (S.faults source.old) (K.written sink.old) (K.faults sink.old))
        (streams (S.left source.new) (S.faults source.new) (K.written sink.new) (K.faults sink.new)) }
    ensures settled { Settles (asked_order (map string_bytes words.now)) result (S.left source.old) }
{
    match asked_order(alloc, words) {
        Ok(Some(order)) => work(alloc, &order, source, sink),
        Ok(None) => Outcome::Usage,
        Err(NoMem) => Outcome::NoMem,
    }
}

// Reads what the mode reads, makes its text, and writes it.
fn work<S: Source, K: Sink>(alloc: Global, order: &Order, source: &mut S, sink: &mut K) -> Outcome
    ensures ends { Ends (Some order.now) result
        (streams (S.left source.old) (S.faults source.old) (K.written sink.old) (K.faults sink.old))
        (streams (S.left source.new) (S.faults source.new) (K.written sink.new) (K.faults sink.new)) }
{
    let bytes = match read_for(alloc, order.mode, source) {
        Ok(bytes) => bytes,
        Err(ReadStop::ReadFault) => return Outcome::ReadFault,
        Err(ReadStop::TooLong) => return Outcome::InputTooLong,
        Err(ReadStop::NoMem) => return Outcome::NoMem,
    };
    let Made { outcome, text } = match make(alloc, order, &bytes) {
        Ok(made) => made,
        Err(Fault::Refused(refusal)) => return Outcome::Refused(refusal),
        Err(Fault::NoMem) => return Outcome::NoMem,
    };
    if write_all(sink, &text) {
        outcome
    } else {
        Outcome::WriteFault
    }
}

// The bytes that a mode reads.
fn read_for<S: Source>(alloc: Global, mode: Mode, source: &mut S) -> Result<Vec<u8>, ReadStop>
    ensures later { S.faults source.old ≤ S.faults source.new }
    ensures input { InputOf (reads mode) (source_state (S.left source.old) (S.faults source.old))
        (source_state (S.left source.new) (S.faults source.new)) result }
{
    match mode {
        Mode::Solve => read_all(alloc, source),
    }
}
