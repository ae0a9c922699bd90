// Whether a pattern matches a path.
ghost use Rattle.std.specs.Prelude.{◌≡◌, ◌≢◌, map, option_map, Ok, Err, IfOk, IfErr};
ghost use Rattle.sigstore_tuf_text.specs.Pattern.{cut, all_fit, pieces_after, segment_of, segments_of, matches};
ghost use Rattle.sigstore_tuf_text.specs.Piece.{piece_in};

use crate::error::{Error, Rule};
use crate::piece::{PatternPiece, read_piece};
use crate::row::{characters, fits};
use foundation::NoMemory;
use std::alloc::Global;

/// Whether a pattern matches a path: as many segments, and each for its own. Errors:
/// `Malformed(Pattern)` where any segment is outside the grammar.
#[tactic(auto, unfolding(crate::specs::Pattern::matches))]
pub fn matches(alloc: Global, pattern: &str, path: &str) -> Result<bool, Error>
    ensures ok { IfOk result (λ b. matches pattern.now path.now ≡ Ok b) }
    ensures err { IfErr result (λ e. e ≢ Error.NoMemory → matches pattern.now path.now ≡ Err e) }
{
    let patterns = read_segments(alloc, pattern)?;
    let segments = cut(alloc, path)?;
    Ok(all_fit(alloc, patterns.as_slice(), segments.as_slice())?)
}

// The parts of a text between its `/`.
fn cut<'t>(alloc: Global, text: &'t str) -> Result<Vec<&'t str>, NoMemory>
    ensures { IfOk result (λ parts. map (λ part. part.now) parts.items ≡ cut text.now) }
{
    Ok(text.split('/').collect(alloc)?)
}

// The pieces of each segment.
fn read_segments(alloc: Global, pattern: &str) -> Result<Vec<Vec<PatternPiece>>, Error>
    ensures ok { IfOk result (λ v. segments_of (cut pattern.now) ≡ Ok (map (λ pieces. map piece_in pieces.items) v.items)) }
    ensures err { IfErr result (λ e. e ≢ Error.NoMemory → segments_of (cut pattern.now) ≡ Err e) }
{
    let segments = cut(alloc, pattern)?;
    let mut read = Vec::new(alloc);
    for segment in &segments {
        match read_segment(alloc, segment)? {
            Some(pieces) => read.push(pieces)?,
            None => return Err(Error::Malformed(Rule::Pattern)),
        }
    }
    Ok(read)
}

// The pieces of a segment, or none where it is malformed; `**` alone is any text.
fn read_segment(alloc: Global, text: &str) -> Result<Option<Vec<PatternPiece>>, NoMemory>
    ensures { IfOk result (λ read. option_map (λ pieces. map piece_in pieces.items) read ≡ segment_of text.now) }
{
    if text == "**" {
        return Ok(Some(vec![in alloc; PatternPiece::Run]?));
    }
    let characters = characters(alloc, text)?;
    read_pieces(alloc, characters.as_slice())
}

// The pieces of a text, or none where it is malformed.
fn read_pieces(alloc: Global, text: &[char]) -> Result<Option<Vec<PatternPiece>>, NoMemory>
    ensures { IfOk result (λ read. option_map (λ pieces. map piece_in pieces.items) read ≡ pieces_after text.now 0) }
{
    let mut pieces = Vec::new(alloc);
    let mut left = text;
    'pieces: while let [first, later @ ..] = left {
        match read_piece(alloc, *first, later)? {
            Some(read) => {
                pieces.push(read.piece)?;
                left = read.rest;
            }
            None => return Ok(None),
        }
    }
    Ok(Some(pieces))
}

// As many segments, and each for its own.
fn all_fit(
    alloc: Global,
    patterns: &[Vec<PatternPiece>],
    segments: &[&str],
) -> Result<bool, NoMemory>
    ensures { IfOk result (λ b. b ≡
        all_fit (map (λ pieces. map piece_in pieces.items) patterns.now) (map (λ s. s.now) segments.now)) }
{
    if patterns.len() != segments.len() {
        return Ok(false);
    }
    for (k, pieces) in patterns.iter().enumerate() {
        if !fits(alloc, pieces.as_slice(), segments[k])? {
            return Ok(false);
        }
    }
    Ok(true)
}
