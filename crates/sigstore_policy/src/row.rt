// Whether pieces stand for a text, by a row of answers for its ends.
//
// Trying each run's length and going back on a failure takes time that grows as a power of the
// text's length. A row has one answer for each end of the text, and each piece makes the row of one
// piece more, so that a match takes as many steps as pieces times octets.
ghost use Rattle.std.specs.Prelude.{◌≡◌, ◌+◌, ◌<◌, List, [], ◌∷◌, length, map, reverse, false, slice_index_or, IfOk};
ghost use Rattle.sigstore_policy.specs.Pattern.{Piece, fits};
ghost use Rattle.sigstore_policy.specs.Piece.{piece_in, begin_of, step_of, IsRow};

use crate::pattern::PatternPiece;
use foundation::NoMemory;
use std::alloc::Global;

/// Whether the pieces stand for the whole text.
pub(crate) fn fits(alloc: Global, pieces: &[PatternPiece], text: &[u8]) -> Result<bool, NoMemory>
    ensures { IfOk result (λ b. b ≡ fits (map piece_in pieces.now) text.now) }
{
    let back = backwards(alloc, text)?;
    let row = row_of(alloc, pieces, back.as_slice())?;
    Ok(row[back.len()])
}

// The octets from the last to the first.
fn backwards(alloc: Global, text: &[u8]) -> Result<Vec<u8>, NoMemory>
    ensures { IfOk result (λ back. back.items ≡ reverse text.now) }
{
    let mut octets = Vec::from_slice(alloc, text)?;
    octets.reverse();
    Ok(octets)
}

// The row of some pieces.
fn row_of(alloc: Global, pieces: &[PatternPiece], back: &[u8]) -> Result<Vec<bool>, NoMemory>
    ensures { IfOk result (λ row. IsRow (map piece_in pieces.now) back.now row.items) }
{
    let mut row = empty_row(alloc, back)?;
    let mut rest = pieces;
    'pieces: while let [front @ .., piece] = rest {
        row = row_before(alloc, piece, back, row.as_slice())?;
        rest = front;
    }
    Ok(row)
}

// The row of no pieces: they stand for the empty text alone.
fn empty_row(alloc: Global, back: &[u8]) -> Result<Vec<bool>, NoMemory>
    ensures { IfOk result (λ row. IsRow [] back.now row.items) }
{
    let mut row = vec![in alloc; false; back.len() + 1]?;
    row[0] = true;
    Ok(row)
}

// The row of one piece more.
fn row_before(
    alloc: Global,
    piece: &PatternPiece,
    back: &[u8],
    later: &[bool],
) -> Result<Vec<bool>, NoMemory>
    requires { length later.now ≡ length back.now + 1 }
    ensures { IfOk result (λ row. (pieces : List Piece) → IsRow pieces back.now later.now
        → IsRow (piece_in piece.now ∷ pieces) back.now row.items) }
{
    let mut row = Vec::new(alloc);
    let mut here = begins(piece, later[0]);
    row.push(here)?;
    for (k, c) in back.iter().enumerate() {
        here = extends(piece, *c, here, later, k);
        row.push(here)?;
    }
    Ok(row)
}

// Whether a piece and later ones stand for the empty text, by whether the later ones do.
fn begins(piece: &PatternPiece, later: bool) -> bool
    ensures { result ≡ begin_of (piece_in piece.now) later }
{
    match piece {
        PatternPiece::AnyRun => later,
        PatternPiece::RunWithin => later,
        _ => false,
    }
}

// Whether a piece and later ones stand for an end of the text with one octet more, by whether they do without it and
// what the later ones stand for.
fn extends(piece: &PatternPiece, c: u8, here: bool, later: &[bool], k: usize) -> bool
    requires { k + 1 < length later.now }
    ensures { result ≡ step_of (piece_in piece.now) c here
        (slice_index_or later.now k false) (slice_index_or later.now (k + 1) false) }
{
    match piece {
        PatternPiece::AnyRun => later[k + 1] || here,
        PatternPiece::RunWithin => later[k + 1] || (piece.passes(c) && here),
        _ => piece.passes(c) && later[k],
    }
}
