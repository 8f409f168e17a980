ghost use Rattle.priz_base.specs.Writing.{Writes, pieces_text};

use crate::sink::{Push, Sink};

/// Writes all the bytes. False means that the sink failed on the way.
pub fn write_all<K: Sink>(sink: &mut K, bytes: &[u8]) -> bool
    ensures { Writes bytes.now result
        (K.written sink.old) (K.written sink.new) (K.faults sink.old) (K.faults sink.new) }
{
    let mut done = 0;
    'pushes: while done < bytes.len() {
        match sink.push(&bytes[done..]) {
            Push::Took(count) => done += count,
            Push::Failed => return false,
        }
    }
    true
}

/// Writes all the pieces, one after another. False means that the sink failed on the way.
pub fn write_pieces<K: Sink>(sink: &mut K, pieces: &[&[u8]]) -> bool
    ensures { Writes (pieces_text pieces.now) result
        (K.written sink.old) (K.written sink.new) (K.faults sink.old) (K.faults sink.new) }
{
    for piece in pieces {
        if !write_all(sink, piece) {
            return false;
        }
    }
    true
}
