// Files of the runtime, read to their end within a limit.
ghost use Rattle.std.specs.Io.{ReadsAtMost};
ghost use Rattle.sigstore_types_parts.specs.File.{WithinLimit};

use crate::bytes::Bytes;
use std::alloc::Global;
use std::fs;
use std::io::{ErrorKind, Read};
use std::rt::Files;

const PIECE: usize = 65536;

/// Why a file isn't read: there is none, it is longer than the limit (`seen` bytes of it were taken),
/// a call of the system failed, or out of memory.
#[derive(Clone, Copy, Debug, PartialEq, Eq, Drop)]
pub enum FileFault {
    Absent,
    TooLong { seen: u64 },
    Failed,
    NoMemory,
}

/// Why a piece of a file isn't read: a call of the system failed, or out of memory.
#[derive(Clone, Copy, Debug, PartialEq, Eq, Drop)]
pub enum PieceFault {
    Failed,
    NoMemory,
}

/// The next piece; an interrupted read is tried again, at most 100 times.
pub fn read_piece<F: Read>(file: &mut F, piece: &mut [u8]) -> Result<usize, PieceFault>
    ensures { ReadsAtMost result piece.new }
{
    for _ in 0..100 {
        match file.read(piece) {
            Ok(count) => return Ok(count),
            Err(e) if e.kind() == ErrorKind::Interrupted => {}
            Err(e) if e.kind() == ErrorKind::OutOfMemory => return Err(PieceFault::NoMemory),
            Err(_) => return Err(PieceFault::Failed),
        }
    }
    Err(PieceFault::Failed)
}

// What an open file holds, of which at most one byte more than `max` is taken.
fn read_within<F: Read>(alloc: Global, file: &mut F, max: u64) -> Result<Bytes, FileFault>
    ensures { WithinLimit max result }
{
    let mut piece = [0u8; PIECE];
    let mut bytes = Vec::new(alloc);
    let mut left = max;
    loop {
        let room = (PIECE as u64 - 1).min(left) as usize + 1;
        let count = match read_piece(file, &mut piece[..room]) {
            Ok(0) => return Ok(Bytes::from_vec(bytes)),
            Ok(count) => count,
            Err(PieceFault::Failed) => return Err(FileFault::Failed),
            Err(PieceFault::NoMemory) => return Err(FileFault::NoMemory),
        };
        if count as u64 > left {
            let seen = bytes.len() as u64 + count as u64;
            return Err(FileFault::TooLong { seen });
        }
        if bytes.extend_from_slice(&piece[..count]).is_err() {
            return Err(FileFault::NoMemory);
        }
        left -= count as u64;
    }
}

/// The file at a path. `Absent` where there is none, `TooLong` where it holds more than `max` bytes.
pub fn read_file<X: Files>(rt: &X, alloc: Global, path: &str, max: u64) -> Result<Bytes, FileFault>
    ensures { WithinLimit max result }
{
    match fs::open(rt, path) {
        Ok(mut file) => read_within(alloc, &mut file, max),
        Err(e) if e.kind() == ErrorKind::NotFound => Err(FileFault::Absent),
        Err(e) if e.kind() == ErrorKind::OutOfMemory => Err(FileFault::NoMemory),
        Err(_) => Err(FileFault::Failed),
    }
}
