// What a source gives to its end, in pieces, through hashers.
ghost use Rattle.sigstore_keys.specs.Hasher.{Fed};
ghost use Rattle.sigstore_keys.specs.Reader.{ReadsInto, HashesToEnd};

use crate::hasher::{HashUpdate, Sha256Hasher};
use crate::source::{ArtifactSource, ReadFault};
use sigstore_types_parts::Sha256Hash;
use std::{error, fmt};

/// Why a source isn't read to its end: a read failed, or it gave more bytes than the limit.
#[derive(Clone, Copy, Debug, PartialEq, Eq, Drop)]
pub enum ReadError {
    /// A read failed.
    Failed,
    /// More bytes than the limit were given.
    TooLong { max: u64 },
}

const PIECE: usize = 65536;

// Gives a piece to each hasher.
fn update_each<H: HashUpdate>(hashers: &mut [H], piece: &[u8])
    ensures { Fed H.grows hashers.old hashers.new piece.now }
{
    'each: for hasher in hashers.iter_mut() {
        hasher.update(piece);
    }
}

/// Reads to the end, in pieces that each hasher takes, and gives the number of bytes; takes no memory.
/// Errors: `Failed` where a read failed, `TooLong` where more than `max` bytes were given; at most one
/// more is taken. After a refusal the hashers have seen what was given before.
pub fn hash_reader<H: HashUpdate, A: ArtifactSource>(
    source: &mut A,
    max: u64,
    hashers: &mut [H],
) -> Result<u64, ReadError>
    ensures { ReadsInto H.grows (A.seen source.old) (A.seen source.new) hashers.old hashers.new max result }
{
    let mut piece = [0u8; PIECE];
    let mut left = max;
    'pieces: loop {
        let room = (PIECE as u64 - 1).min(left) as usize + 1;
        match source.read(&mut piece[..room]) {
            Ok(0) => return Ok(max - left),
            Ok(count) => {
                if count as u64 > left {
                    return Err(ReadError::TooLong { max });
                }
                update_each(hashers, &piece[..count]);
                left -= count as u64;
            }
            Err(ReadFault::Failed) => return Err(ReadError::Failed),
        }
    }
}

/// Reads to the end and gives the SHA-256 value of what was read. Errors as `hash_reader`.
pub fn sha256_reader<A: ArtifactSource>(source: &mut A, max: u64) -> Result<Sha256Hash, ReadError>
    ensures { HashesToEnd (A.seen source.old) (A.seen source.new) max result }
{
    let mut hashers = [Sha256Hasher::new()];
    match hash_reader(source, max, &mut hashers) {
        Ok(_) => {
            let [hasher] = hashers;
            Ok(hasher.finalize())
        }
        Err(fault) => Err(fault),
    }
}

impl fmt::Display for ReadError {
    fn fmt<W: fmt::Write>(&self, f: &mut fmt::Formatter<W>) -> fmt::Result {
        f.write_str(match self {
            ReadError::Failed => "Failed",
            ReadError::TooLong { .. } => "TooLong",
        })
    }
}

impl error::Error for ReadError {}
