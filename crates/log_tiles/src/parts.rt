// The parts of a tree over which the hashes of a path or of a proof stand (RFC 6962, sections 2.1.1 and 2.1.2).
ghost use Rattle.std.specs.Prelude.{◌≡◌, ◌<◌, ◌≤◌, ◌+◌, ◌^◌, ◌++◌, ◌∷◌, [], IfOk};
ghost use Rattle.log_tiles.specs.Reading.{ArePathParts, AreProofParts};

use crate::place::{Part, halves};
use foundation::{NoMemory, Sequence};
use std::alloc::Global;

// One part more.
fn with_part(mut parts: Sequence<Part>, last: Part) -> Result<Sequence<Part>, NoMemory>
    ensures { IfOk result (λ longer. longer ≡ parts ++ last ∷ []) }
{
    parts.push(last)?;
    Ok(parts)
}

/// The parts in which a leaf isn't, the smallest first.
pub fn path_parts(alloc: Global, index: u64, part: Part) -> Result<Sequence<Part>, NoMemory>
    requires some { 0 < part.count }
    requires fits { part.start + part.count < 2 ^ 64 }
    ensures { IfOk result (ArePathParts index part) }
{
    if part.count == 1 {
        return Ok(Sequence::new(alloc));
    }
    let (left, right) = halves(part);
    if index < left.count {
        let parts = path_parts(alloc, index, left)?;
        with_part(parts, right)
    } else {
        let parts = path_parts(alloc, index - left.count, right)?;
        with_part(parts, left)
    }
}

/// The parts over which the hashes of a proof for the tree over the first leaves stand.
pub fn proof_parts(
    alloc: Global,
    first: u64,
    whole: bool,
    part: Part,
) -> Result<Sequence<Part>, NoMemory>
    requires some { 0 < first }
    requires within { first ≤ part.count }
    requires fits { part.start + part.count < 2 ^ 64 }
    ensures { IfOk result (AreProofParts first whole part) }
{
    if first == part.count {
        return if whole {
            Ok(Sequence::new(alloc))
        } else {
            with_part(Sequence::new(alloc), part)
        };
    }
    let (left, right) = halves(part);
    if left.count < first {
        let parts = proof_parts(alloc, first - left.count, false, right)?;
        with_part(parts, left)
    } else {
        let parts = proof_parts(alloc, first, whole, left)?;
        with_part(parts, right)
    }
}
