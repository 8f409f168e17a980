ghost use Rattle.priz_base.specs.Writing.{Writes};
ghost use Rattle.priz_cli.specs.Messages.{message_of, refusal_text, utf8_text, placed_text};

use crate::outcome::Outcome;
use crate::refusal::Refusal;
use crate::wording::{lex_text, rule_text};
use itoa::Buffer;
use priz_base::{Place, Sink, write_all, write_pieces};

/// Writes the line that says why there is no report; for a report none is written. False means that the sink failed on
/// the way.
pub fn message<K: Sink>(outcome: &Outcome, sink: &mut K) -> bool
    ensures { Writes (message_of outcome.now) result
        (K.written sink.old) (K.written sink.new) (K.faults sink.old) (K.faults sink.new) }
{
    match outcome {
        Outcome::Solved(_) => write_all(sink, b""),
        Outcome::Usage => write_all(sink, USAGE),
        Outcome::Refused(refusal) => write_refusal(*refusal, sink),
        Outcome::InputTooLong => write_all(sink, b"priz: input too long\n"),
        Outcome::ReadFault => write_all(sink, b"priz: read fault\n"),
        Outcome::WriteFault => write_all(sink, b"priz: write fault\n"),
        Outcome::NoMem => write_all(sink, b"priz: out of memory\n"),
    }
}

const USAGE: &[u8] =
    b"priz: usage: priz MODE [COUNT] [--budget N] [--turns N] [--explain] [--code]\n";

fn write_refusal<K: Sink>(refusal: Refusal, sink: &mut K) -> bool
    ensures { Writes (refusal_text refusal) result
        (K.written sink.old) (K.written sink.new) (K.faults sink.old) (K.faults sink.new) }
{
    match refusal {
        Refusal::NotUtf8(at) => write_not_utf8(at, sink),
        Refusal::Lex(fault) => write_placed(fault.place, lex_text(fault.kind), sink),
        Refusal::Expected(place) => write_placed(place, b"unexpected token", sink),
        Refusal::TooDeep(place) => write_placed(place, b"nesting too deep", sink),
        Refusal::Model(fault) => write_placed(fault.place, rule_text(fault.rule), sink),
    }
}

fn write_not_utf8<K: Sink>(at: u32, sink: &mut K) -> bool
    ensures { Writes (utf8_text at) result
        (K.written sink.old) (K.written sink.new) (K.faults sink.old) (K.faults sink.new) }
{
    let mut byte = Buffer::new();
    let pieces = [
        b"priz: byte ".as_slice(),
        byte.format(at).as_bytes(),
        b": not UTF-8\n".as_slice(),
    ];
    write_pieces(sink, &pieces)
}

// What is wrong at a place.
fn write_placed<K: Sink>(place: Place, what: &[u8], sink: &mut K) -> bool
    ensures { Writes (placed_text place what.now) result
        (K.written sink.old) (K.written sink.new) (K.faults sink.old) (K.faults sink.new) }
{
    let mut line = Buffer::new();
    let mut column = Buffer::new();
    let pieces = [
        b"priz: line ".as_slice(),
        line.format(place.line).as_bytes(),
        b", column ".as_slice(),
        column.format(place.col).as_bytes(),
        b": ".as_slice(),
        what,
        b"\n".as_slice(),
    ];
    write_pieces(sink, &pieces)
}
