ghost use Rattle.std.specs.Prelude.{◌≡◌, ◌≤◌, IsErrOf};
ghost use Rattle.priz_base.specs.Faults.{Rose};
ghost use Rattle.priz_base.specs.Reading.{ReadsWhole};

use crate::source::{Pull, Source};
use std::alloc::Global;

/// The most bytes of an input.
pub const MAX_INPUT: usize = 1_048_576;

const CHUNK: usize = 4096;

/// Why a source wasn't read to its end.
#[derive(Clone, Copy, Debug, PartialEq, Eq)]
pub enum ReadStop {
    /// A pull failed.
    ReadFault,
    /// There are more than [`MAX_INPUT`] bytes.
    TooLong,
    /// There was no memory for the bytes.
    NoMem,
}

/// All the bytes of a source.
pub fn read_all<S: Source>(alloc: Global, source: &mut S) -> Result<Vec<u8>, ReadStop>
    ensures bytes { ReadsWhole (S.left source.old) (S.left source.new) result }
    ensures later { S.faults source.old ≤ S.faults source.new }
    ensures fault { IsErrOf result ReadStop.ReadFault →
        Rose (S.faults source.old) (S.faults source.new) }
{
    let mut chunk = [0u8; CHUNK];
    let mut bytes = Vec::new(alloc);
    'pulls: while bytes.len() <= MAX_INPUT {
        let room = CHUNK.min(MAX_INPUT + 1 - bytes.len());
        match source.pull(&mut chunk[..room]) {
            Pull::Got(count) => {
                if bytes.extend_from_slice(&chunk[..count]).is_err() {
                    return Err(ReadStop::NoMem);
                }
            }
            Pull::End => return Ok(bytes),
            Pull::Failed => return Err(ReadStop::ReadFault),
        }
    }
    Err(ReadStop::TooLong)
}
