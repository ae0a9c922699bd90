// The first block of a text.
ghost use Rattle.std.specs.Prelude.{◌≡◌, [], ◌∷◌, length, nat_lt, ◌&&◌, MatchOption, IfOk};
ghost use Rattle.std.specs.Option.{option_and_then};
ghost use Rattle.sigstore_pem.specs.Pem.{is_opening, lines_of, from_opening, is_first, base64_before, octets_of, block_of};

use crate::lines::cut_line;
use base64::DecodeAllocError;
use base64::engine::general_purpose::STANDARD;
use foundation::NoMemory;
use sigstore_types_parts::Bytes;
use std::alloc::Global;

// Whether a line opens a block.
fn is_opening(line: &[u8]) -> bool
    ensures { result ≡ is_opening line.now }
{
    line.starts_with(b"-----BEGIN ")
}

// The first line that opens a block, and what stands behind its end.
pub(crate) fn opening(text: &[u8]) -> Option<(&[u8], &[u8])>
    ensures { MatchOption result (from_opening (lines_of text.now) ≡ [])
        (λ parts. from_opening (lines_of text.now) ≡ parts.0.now ∷ lines_of parts.1.now) }
{
    let mut rest = text;
    'lines: while let Some((line, next)) = cut_line(rest) {
        if is_opening(line) {
            return Some((line, next));
        }
        rest = next;
    }
    None
}

// Whether the first line of a text is the wanted one.
fn is_first(wanted: &[u8], text: &[u8]) -> bool
    ensures { result ≡ is_first wanted.now (lines_of text.now) }
{
    match cut_line(text) {
        Some((line, _)) => line == wanted,
        None => false,
    }
}

// Whether a line that isn't full is the last one of a block.
fn is_last(line: &[u8], end: &[u8], behind: &[u8]) -> bool
    ensures { result ≡ (nat_lt 0 (length line.now) && nat_lt (length line.now) 64 && is_first end.now (lines_of behind.now)) }
{
    !line.is_empty() && line.len() < 64 && is_first(end, behind)
}

// The base64 text before the first line `end`.
fn base64_before(alloc: Global, end: &[u8], text: &[u8]) -> Result<Option<Bytes>, NoMemory>
    ensures { IfOk result (λ base64. base64 ≡ base64_before end.now (lines_of text.now)) }
{
    let mut base64 = Vec::new(alloc);
    let mut rest = text;
    'lines: while let Some((line, next)) = cut_line(rest) {
        if line == end {
            return Ok(Some(Bytes::from_vec(base64)));
        }
        if line.len() != 64 {
            if !is_last(line, end, next) {
                return Ok(None);
            }
            base64.extend_from_slice(line)?;
            return Ok(Some(Bytes::from_vec(base64)));
        }
        base64.extend_from_slice(line)?;
        rest = next;
    }
    Ok(None)
}

// The octets that base64 spells.
fn octets(alloc: Global, base64: &[u8]) -> Result<Option<Bytes>, NoMemory>
    ensures { IfOk result (λ octets. octets ≡ octets_of base64.now) }
{
    match STANDARD.decode(alloc, base64) {
        Ok(octets) => Ok(Some(Bytes::from_vec(octets))),
        Err(DecodeAllocError::OutOfMemory) => Err(NoMemory),
        Err(_) => Ok(None),
    }
}

// What a text holds before its first line `end`.
fn octets_before(alloc: Global, end: &[u8], text: &[u8]) -> Result<Option<Bytes>, NoMemory>
    ensures { IfOk result (λ octets. octets ≡ option_and_then octets_of (base64_before end.now (lines_of text.now))) }
{
    match base64_before(alloc, end, text)? {
        Some(base64) => Ok(octets(alloc, base64.as_bytes())?),
        None => Ok(None),
    }
}

// What the first block of a text holds, where it begins with the line `begin`.
pub(crate) fn content(
    alloc: Global,
    begin: &[u8],
    end: &[u8],
    text: &[u8],
) -> Result<Option<Bytes>, NoMemory>
    ensures { IfOk result (λ octets. octets ≡ block_of begin.now end.now (from_opening (lines_of text.now))) }
{
    let Some((line, rest)) = opening(text) else {
        return Ok(None);
    };
    if line != begin {
        return Ok(None);
    }
    Ok(octets_before(alloc, end, rest)?)
}
