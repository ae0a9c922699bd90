// The lines of a text.
ghost use Rattle.std.specs.Prelude.{◌≡◌, ◌+◌, [], ◌∷◌, length, Ok, Err, MatchOption, MatchResult};
ghost use Rattle.sigstore_entries.specs.Checkpoint.{lines_of, text_of, ended_of};

use memchr::memchr;
use sigstore_types_parts::{CheckpointRule, TypesError};
use std::str;

// The first line, where it ends with a line feed, and what stands behind that.
pub(crate) fn cut_line(text: &[u8]) -> Option<(&[u8], &[u8])>
    ensures { MatchOption result (lines_of text.now ≡ text.now ∷ [])
        (λ parts. (lines_of text.now ≡ parts.0.now ∷ lines_of parts.1.now) × (length text.now ≡ length parts.0.now + 1 + length parts.1.now)) }
{
    match memchr(b'\n', text) {
        Some(end) => {
            let (line, rest) = text.split_at(end);
            let (_, behind) = rest.split_at(1);
            Some((line, behind))
        }
        None => None,
    }
}

// The same of a line that has to end so.
pub(crate) fn ended_line(rule: CheckpointRule, text: &[u8]) -> Result<(&[u8], &[u8]), TypesError>
    ensures { MatchResult result (λ parts. ended_of rule (lines_of text.now) ≡ Ok (parts.0.now, lines_of parts.1.now))
        (λ e. ended_of rule (lines_of text.now) ≡ Err e) }
{
    match cut_line(text) {
        Some(parts) => Ok(parts),
        None => Err(TypesError::Checkpoint(rule)),
    }
}

// A line in UTF-8.
pub(crate) fn line_text(rule: CheckpointRule, line: &[u8]) -> Result<&str, TypesError>
    ensures { MatchResult result (λ text. text_of rule line.now ≡ Ok text.now) (λ e. text_of rule line.now ≡ Err e) }
{
    match str::from_utf8(line) {
        Ok(text) => Ok(text),
        Err(_) => Err(TypesError::Checkpoint(rule)),
    }
}
