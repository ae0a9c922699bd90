// Witnesses.
ghost use Rattle.std.specs.Prelude.{◌≡◌, ◌≢◌, take, length, Ok, Err, IfOk, IfErr, MatchResult};
ghost use Rattle.std.specs.List.{list_all};
ghost use Rattle.log_witnesses.specs.Witness.{key_id_of, is_visible, is_name, at_plus, octets_of, digits_of, key_of, key_in, checked_name, identified, witness_of};

use crate::error::WitnessError;
use base64::DecodeAllocError;
use base64::engine::general_purpose::STANDARD;
use foundation::{Duplicate, NoMemory};
use hex::FromHexError;
use sha2::{Digest, Sha256};
use sigstore_types_parts::{Bytes, Hash, KeyHint, Text};
use std::alloc::Global;

/// A witness of checkpoints: its name, and its Ed25519 key (C2SP tlog-cosignature).
#[derive(Debug, PartialEq, Eq, Drop)]
pub struct Witness {
    name: Text,
    key: Bytes,
}

// What stands before the first plus, and what stands behind it.
fn at_plus(text: &str) -> Result<(&str, &str), WitnessError>
    ensures { MatchResult result (λ parts. at_plus text.now ≡ Ok (parts.0.now, parts.1.now)) (λ e. at_plus text.now ≡ Err e) }
{
    match text.split_once('+') {
        Some(parts) => Ok(parts),
        None => Err(WitnessError::Form),
    }
}

// Whether an octet is no space and no control character.
fn is_visible(octet: u8) -> bool
    ensures { result ≡ is_visible octet }
{
    b' ' < octet
}

fn are_visible(octets: &[u8]) -> bool
    ensures { result ≡ list_all is_visible octets.now }
{
    octets.iter().all(|octet| is_visible(*octet))
}

// Whether a text may be a name.
fn is_name(name: &[u8]) -> bool
    ensures { result ≡ is_name name.now }
{
    !name.is_empty() && are_visible(name)
}

fn check_name(name: &str) -> Result<(), WitnessError>
    ensures { result ≡ checked_name name.now }
{
    if is_name(name.as_bytes()) {
        Ok(())
    } else {
        Err(WitnessError::Form)
    }
}

// The octets that base64 spells.
fn octets(alloc: Global, text: &[u8]) -> Result<Bytes, WitnessError>
    ensures ok { IfOk result (λ octets. octets_of text.now ≡ Ok octets) }
    ensures err { IfErr result (λ e. e ≢ WitnessError.NoMemory → octets_of text.now ≡ Err e) }
{
    match STANDARD.decode(alloc, text) {
        Ok(octets) => Ok(Bytes::from_vec(octets)),
        Err(DecodeAllocError::OutOfMemory) => Err(WitnessError::NoMemory),
        Err(_) => Err(WitnessError::Form),
    }
}

// The octets that hexadecimal spells.
fn digits(alloc: Global, text: &[u8]) -> Result<Bytes, WitnessError>
    ensures ok { IfOk result (λ octets. digits_of text.now ≡ Ok octets) }
    ensures err { IfErr result (λ e. e ≢ WitnessError.NoMemory → digits_of text.now ≡ Err e) }
{
    match hex::decode(alloc, text) {
        Ok(octets) => Ok(Bytes::from_vec(octets)),
        Err(FromHexError::OutOfMemory) => Err(WitnessError::NoMemory),
        Err(_) => Err(WitnessError::Form),
    }
}

// The key behind its type.
fn typed_key(octets: &[u8]) -> Result<&[u8], WitnessError>
    ensures { MatchResult result (λ key. key_of octets.now ≡ Ok key.now) (λ e. key_of octets.now ≡ Err e) }
{
    match octets.split_first() {
        Some((kind, key)) if *kind == 4 && key.len() == 32 => Ok(key),
        _ => Err(WitnessError::KeyType),
    }
}

// The key that a text in base64 tells.
fn read_key(alloc: Global, text: &str) -> Result<Bytes, WitnessError>
    ensures ok { IfOk result (λ key. key_in text.now ≡ Ok key) }
    ensures err { IfErr result (λ e. e ≢ WitnessError.NoMemory → key_in text.now ≡ Err e) }
{
    let octets = octets(alloc, text.as_bytes())?;
    Ok(Bytes::new(alloc, typed_key(octets.as_bytes())?)?)
}

// The witness, where the octets are its key ID.
fn identified(id: &[u8], witness: Witness) -> Result<Witness, WitnessError>
    ensures { result ≡ identified id.now witness }
{
    if id == witness.key_id().as_bytes() {
        Ok(witness)
    } else {
        Err(WitnessError::KeyId)
    }
}

impl Witness {
    /// The witness that a text tells: its name, its key ID in hexadecimal, and in base64 the octet 04 and its key of 32
    /// octets, a plus between them (C2SP signed-note, "verifier keys"). Errors, in order: `Form` where there aren't two
    /// pluses, or the name is empty or has a space or a control character, or the key ID isn't hexadecimal, or the key isn't
    /// base64; `KeyType` where the key isn't of a witness, as that of a log; `KeyId` where the ID isn't of name and key.
    #[tactic(auto, unfolding(crate::specs::Witness::witness_of))]
    pub fn from_vkey(alloc: Global, text: &str) -> Result<Witness, WitnessError>
        ensures ok { IfOk result (λ w. witness_of text.now ≡ Ok w) }
        ensures err { IfErr result (λ e. e ≢ WitnessError.NoMemory → witness_of text.now ≡ Err e) }
    {
        let (name, rest) = at_plus(text)?;
        let (id, key) = at_plus(rest)?;
        check_name(name)?;
        let id = digits(alloc, id.as_bytes())?;
        let key = read_key(alloc, key)?;
        let name = Text::new(alloc, name)?;
        Ok(identified(id.as_bytes(), Witness { name, key })?)
    }

    /// Its name.
    pub fn name(&self) -> &str
        ensures { result.now ≡ self.now.name }
    {
        self.name.as_str()
    }

    /// Its Ed25519 key.
    pub fn key(&self) -> &[u8]
        ensures { result.now ≡ self.now.key }
    {
        self.key.as_bytes()
    }

    /// Its key ID: the first four octets of the SHA-256 value of its name, a line feed, the octet 04 and its key.
    pub fn key_id(&self) -> KeyHint
        ensures { result ≡ key_id_of self.now }
    {
        let mut hasher = Sha256::new();
        hasher.update(self.name.as_str().as_bytes());
        hasher.update([b'\n', 4u8]);
        hasher.update(self.key.as_bytes());
        let digest = hasher.finalize();
        let (front, _) = digest.split_at(4);
        let mut id = [0u8; 4];
        id.copy_from_slice(front);
        Hash::new(id)
    }
}

impl Duplicate for Witness {
    fn duplicate(&self, alloc: Global) -> Result<Witness, NoMemory> {
        Ok(Witness {
            name: self.name.duplicate(alloc)?,
            key: self.key.duplicate(alloc)?,
        })
    }
}
