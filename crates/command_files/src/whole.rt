// A source that is read whole.
ghost use Rattle.command_files.specs.Whole.{ReadsAll};

use sigstore_keys::{ArtifactSource, ReadFault};
use sigstore_types_parts::Bytes;
use std::alloc::Global;
use std::{error, fmt};

/// Why a source isn't read whole.
#[derive(Clone, Copy, Debug, PartialEq, Eq, Drop)]
pub enum WholeFault {
    /// A read failed.
    Failed,
    /// More bytes than the limit were given.
    TooLong,
    /// An allocation was refused.
    NoMemory,
}

const PIECE: usize = 65536;

/// All that a source gives up to its end, of at most `max` bytes. Errors: `Failed` where a read failed, `TooLong`
/// where more than `max` bytes were given, of which at most one more is taken; `NoMemory`.
pub fn read_whole<A: ArtifactSource>(
    alloc: Global,
    source: &mut A,
    max: u64,
) -> Result<Bytes, WholeFault>
    ensures { ReadsAll (A.seen source.old) (A.seen source.new) max result }
{
    let mut piece = [0u8; PIECE];
    let mut bytes = Vec::new(alloc);
    let mut left = max;
    'pieces: loop {
        let room = (PIECE as u64 - 1).min(left) as usize + 1;
        match source.read(&mut piece[..room]) {
            Ok(0) => return Ok(Bytes::from_vec(bytes)),
            Ok(count) => {
                if count as u64 > left {
                    return Err(WholeFault::TooLong);
                }
                if bytes.extend_from_slice(&piece[..count]).is_err() {
                    return Err(WholeFault::NoMemory);
                }
                left -= count as u64;
            }
            Err(ReadFault::Failed) => return Err(WholeFault::Failed),
        }
    }
}

impl fmt::Display for WholeFault {
    fn fmt<W: fmt::Write>(&self, f: &mut fmt::Formatter<W>) -> fmt::Result {
        f.write_str(match self {
            WholeFault::Failed => "Failed",
            WholeFault::TooLong => "TooLong",
            WholeFault::NoMemory => "NoMemory",
        })
    }
}

impl error::Error for WholeFault {}
