// Patterns of texts that are asked for, and how they are read.
ghost use Rattle.std.specs.Prelude.{◌≡◌, ◌≤◌, ◌∷◌, length, map, IfOk};
ghost use Rattle.sigstore_policy.specs.Pattern.{piece_of, pieces_of, like};
ghost use Rattle.sigstore_policy.specs.Piece.{piece_in, passes_of};

use crate::row::fits;
use foundation::NoMemory;
use std::alloc::Global;

/// A piece of a pattern: a run of octets, or one.
#[derive(Clone, Copy, Drop)]
pub(crate) enum PatternPiece {
    /// `**`: any run.
    AnyRun,
    /// `*`: any run without `/`.
    RunWithin,
    /// `?`: any octet but `/`.
    AnyWithin,
    /// That octet.
    Same(u8),
}

/// A piece that was read, and what is left of the pattern after it.
#[derive(Drop)]
struct ReadPiece<'p> {
    piece: PatternPiece,
    rest: &'p [u8],
}

impl PatternPiece {
    /// Whether an octet passes its test.
    pub(crate) fn passes(&self, c: u8) -> bool
        ensures { result ≡ passes_of (piece_in self.now) c }
    {
        match self {
            PatternPiece::AnyRun => true,
            PatternPiece::RunWithin => c != b'/',
            PatternPiece::AnyWithin => c != b'/',
            PatternPiece::Same(own) => c == *own,
        }
    }
}

/// Whether a text is of a pattern, as a whole: `*` stands for any run of octets without `/`, `**` for any run, `?` for
/// one octet that isn't `/`, and any other octet for itself. It takes as many steps as the pattern has octets, times
/// those of the text.
pub(crate) fn matches_like(alloc: Global, pattern: &str, text: &str) -> Result<bool, NoMemory>
    ensures { IfOk result (λ b. b ≡ like pattern.now text.now) }
{
    let pieces = read_pieces(alloc, pattern.as_bytes())?;
    Ok(fits(alloc, pieces.as_slice(), text.as_bytes())?)
}

// The pieces of a pattern.
fn read_pieces(alloc: Global, pattern: &[u8]) -> Result<Vec<PatternPiece>, NoMemory>
    ensures { IfOk result (λ read. map piece_in read.items ≡ pieces_of pattern.now) }
{
    let mut pieces = Vec::new(alloc);
    let mut left = pattern;
    'pieces: while let [first, later @ ..] = left {
        let read = read_piece(*first, later);
        pieces.push(read.piece)?;
        left = read.rest;
    }
    Ok(pieces)
}

// The piece that begins with an octet.
fn read_piece<'p>(first: u8, later: &'p [u8]) -> ReadPiece<'p>
    ensures whole { pieces_of (first ∷ later.now) ≡ piece_in result.piece ∷ pieces_of result.rest.now }
    ensures shorter { length result.rest.now ≤ length later.now }
{
    match (first, later) {
        (b'*', [b'*', rest @ ..]) => ReadPiece {
            piece: PatternPiece::AnyRun,
            rest,
        },
        _ => ReadPiece {
            piece: single(first),
            rest: later,
        },
    }
}

// The piece of an octet by itself.
fn single(c: u8) -> PatternPiece
    ensures { piece_in result ≡ piece_of c }
{
    match c {
        b'*' => PatternPiece::RunWithin,
        b'?' => PatternPiece::AnyWithin,
        _ => PatternPiece::Same(c),
    }
}
