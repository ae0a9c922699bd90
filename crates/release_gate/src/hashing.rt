// A file of a folder, read to its end in pieces and never held.
ghost use Rattle.foundation.specs.Watched.{Since};
ghost use Rattle.sigstore_keys.specs.Hasher.{Fed};
ghost use Rattle.release_gate.specs.Given.{HashesFile};

use crate::folder::Folder;
use sigstore_keys::{HashUpdate, ReadError};

const PIECE: usize = 65536;

// Gives a piece to each hasher.
fn update_each<H: HashUpdate>(hashers: &mut [H], piece: &[u8])
    ensures { Fed H.grows hashers.old hashers.new piece.now }
{
    'each: for hasher in hashers.iter_mut() {
        hasher.update(piece);
    }
}

/// Reads a file to its end, in pieces that each hasher takes, and gives the number of bytes. Errors: `Failed` where a
/// reading failed, `TooLong` where the file has more than `max` bytes, of which at most one more is taken.
pub(crate) fn hash_file<H: HashUpdate, D: Folder>(
    folder: &mut D,
    name: &str,
    max: u64,
    hashers: &mut [H],
) -> Result<u64, ReadError>
    ensures since { Since (D.seen folder.old) (D.seen folder.new) }
    ensures reads { HashesFile D.gave H.grows D.seen folder.old folder.new name.now hashers.old hashers.new max result }
{
    let mut piece = [0u8; PIECE];
    let mut left = max;
    'pieces: loop {
        let room = (PIECE as u64 - 1).min(left) as usize + 1;
        match folder.read_at(name, max - left, &mut piece[..room]) {
            Ok(0) => return Ok(max - left),
            Ok(count) => {
                if count as u64 > left {
                    return Err(ReadError::TooLong { max });
                }
                update_each(hashers, &piece[..count]);
                left -= count as u64;
            }
            Err(_) => return Err(ReadError::Failed),
        }
    }
}
