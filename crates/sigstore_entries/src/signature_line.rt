// The signature lines of a checkpoint.
ghost use Rattle.std.specs.Prelude.{◌≡◌, ◌≢◌, Ok, Err, IfOk, IfErr, MatchResult};
ghost use Rattle.sigstore_entries.specs.Checkpoint.{lines_of, octets_of, word_of, named_of, signature_of, signatures_of};

use crate::lines::{cut_line, line_text};
use base64::DecodeAllocError;
use base64::engine::general_purpose::STANDARD;
use foundation::{Duplicate, NoMemory, Sequence};
use sigstore_types_parts::{Bytes, CheckpointRule, KeyHint, SignatureBytes, Text, TypesError};
use std::alloc::Global;
use std::str;

/// A signature on a checkpoint (C2SP signed-note).
#[derive(Debug, PartialEq, Drop)]
pub struct CheckpointSignature {
    /// Who signed, as the line names it.
    pub name: Text,
    /// The hint to the key that signed.
    pub key_id: KeyHint,
    pub signature: SignatureBytes,
}

impl Duplicate for CheckpointSignature {
    fn duplicate(&self, alloc: Global) -> Result<CheckpointSignature, NoMemory> {
        Ok(CheckpointSignature {
            name: self.name.duplicate(alloc)?,
            key_id: self.key_id.duplicate(alloc)?,
            signature: self.signature.duplicate(alloc)?,
        })
    }
}

// The octets that base64 spells.
pub(crate) fn octets(alloc: Global, rule: CheckpointRule, text: &[u8]) -> Result<Bytes, TypesError>
    ensures ok { IfOk result (λ octets. octets_of rule text.now ≡ Ok octets) }
    ensures err { IfErr result (λ e. e ≢ TypesError.NoMemory → octets_of rule text.now ≡ Err e) }
{
    match STANDARD.decode(alloc, text) {
        Ok(octets) => Ok(Bytes::from_vec(octets)),
        Err(DecodeAllocError::OutOfMemory) => Err(TypesError::NoMemory),
        Err(_) => Err(TypesError::Checkpoint(rule)),
    }
}

// What stands before the first space, and what stands behind it.
fn word(text: &str) -> Result<(&str, &str), TypesError>
    ensures { MatchResult result (λ parts. word_of text.now ≡ Ok (parts.0.now, parts.1.now)) (λ e. word_of text.now ≡ Err e) }
{
    match text.split_once(' ') {
        Some(parts) => Ok(parts),
        None => Err(TypesError::Checkpoint(CheckpointRule::Signature)),
    }
}

// The name and the base64 of a line.
#[tactic(auto, unfolding(crate::specs::Checkpoint::named_of))]
fn named(line: &[u8]) -> Result<(&str, &str), TypesError>
    ensures { MatchResult result (λ parts. named_of line.now ≡ Ok (parts.0.now, parts.1.now)) (λ e. named_of line.now ≡ Err e) }
{
    let text = line_text(CheckpointRule::Signature, line)?;
    let (dash, rest) = word(text)?;
    let (name, base64) = word(rest)?;
    if dash == "—" && !name.is_empty() {
        Ok((name, base64))
    } else {
        Err(TypesError::Checkpoint(CheckpointRule::Signature))
    }
}

// The signature of a line.
#[tactic(auto, unfolding(crate::specs::Checkpoint::signature_of))]
fn read_signature(alloc: Global, line: &[u8]) -> Result<CheckpointSignature, TypesError>
    ensures ok { IfOk result (λ s. signature_of line.now ≡ Ok s) }
    ensures err { IfErr result (λ e. e ≢ TypesError.NoMemory → signature_of line.now ≡ Err e) }
{
    let (name, base64) = named(line)?;
    let octets = octets(alloc, CheckpointRule::Signature, base64.as_bytes())?;
    if octets.as_bytes().len() <= 4 {
        return Err(TypesError::Checkpoint(CheckpointRule::Signature));
    }
    let (hint, signature) = octets.as_bytes().split_at(4);
    Ok(CheckpointSignature {
        name: Text::new(alloc, name)?,
        key_id: KeyHint::try_from(hint)?,
        signature: SignatureBytes::from_bytes(alloc, signature)?,
    })
}

// The signatures of the lines up to the end of a text.
pub(crate) fn read_signatures(
    alloc: Global,
    text: &[u8],
) -> Result<Sequence<CheckpointSignature>, TypesError>
    ensures ok { IfOk result (λ s. signatures_of (lines_of text.now) ≡ Ok s) }
    ensures err { IfErr result (λ e. e ≢ TypesError.NoMemory → signatures_of (lines_of text.now) ≡ Err e) }
{
    let mut found = Sequence::new(alloc);
    let mut rest = text;
    'lines: while let Some((line, next)) = cut_line(rest) {
        found.push(read_signature(alloc, line)?)?;
        if next.is_empty() {
            return Ok(found);
        }
        rest = next;
    }
    found.push(read_signature(alloc, rest)?)?;
    Ok(found)
}
