// Whether a file is the one that was pinned, and whether a document is fresh.
ghost use Rattle.std.specs.Prelude.{◌≡◌, ◌≢◌, Ok, Err, IfOk, IfErr};
ghost use Rattle.std.specs.Option.{option_copied};
ghost use Rattle.sha2.specs.Sha256.{sha256};
ghost use Rattle.sha2.specs.Sha512.{sha512};
ghost use Rattle.sigstore_tuf_parts.specs.Integrity.{integrity_of, length_of, digests_of, digest_of, spells, version_of, is_past, fresh_of};

use crate::timestamp::MetaFile;
use jiff::Timestamp;
use sha2::{Digest, Sha256, Sha512};
use sigstore_tuf_text::{Error, Mismatch};
use sigstore_types_parts::{Text, TextMap};
use std::alloc::Global;

/// Whether bytes have the pinned length and digests, each where it is there. Errors:
/// `IntegrityMismatch` with `Length`, `Digest` for one that differs, then `NoDigest` for a map
/// without a supported digest.
#[tactic(auto, unfolding(crate::specs::Integrity::integrity_of))]
pub fn check_integrity(
    length: Option<u64>,
    hashes: Option<&TextMap<Text>>,
    bytes: &[u8],
) -> Result<(), Error>
    ensures { result ≡ integrity_of length (option_copied hashes.entry) bytes.now }
{
    check_length(length, bytes)?;
    match hashes {
        Some(hashes) => check_digests(hashes, bytes),
        None => Ok(()),
    }
}

fn check_length(length: Option<u64>, bytes: &[u8]) -> Result<(), Error>
    ensures { result ≡ length_of length bytes.now }
{
    match length {
        Some(length) => if bytes.len() as u64 == length {
            Ok(())
        } else {
            Err(Error::IntegrityMismatch(Mismatch::Length))
        },
        None => Ok(()),
    }
}

fn check_digests(hashes: &TextMap<Text>, bytes: &[u8]) -> Result<(), Error>
    ensures { result ≡ digests_of hashes.now bytes.now }
{
    check_sha256(hashes.get("sha256"), bytes)?;
    check_sha512(hashes.get("sha512"), bytes)?;
    if hashes.get("sha256").is_some() || hashes.get("sha512").is_some() {
        Ok(())
    } else {
        Err(Error::IntegrityMismatch(Mismatch::NoDigest))
    }
}

fn check_sha256(text: Option<&Text>, bytes: &[u8]) -> Result<(), Error>
    ensures { result ≡ digest_of (sha256 bytes.now) (option_copied text.entry) }
{
    match text {
        Some(text) => if spells_sha256(&Sha256::digest(bytes), text) {
            Ok(())
        } else {
            Err(Error::IntegrityMismatch(Mismatch::Digest))
        },
        None => Ok(()),
    }
}

fn check_sha512(text: Option<&Text>, bytes: &[u8]) -> Result<(), Error>
    ensures { result ≡ digest_of (sha512 bytes.now) (option_copied text.entry) }
{
    match text {
        Some(text) => if spells_sha512(&Sha512::digest(bytes), text) {
            Ok(())
        } else {
            Err(Error::IntegrityMismatch(Mismatch::Digest))
        },
        None => Ok(()),
    }
}

// The text spells the digest in hexadecimal, in either case.
fn spells_sha256(digest: &[u8; 32], text: &Text) -> bool
    ensures { result ≡ spells digest.now text.now }
{
    let mut digits = [0u8; 64];
    match hex::encode_to_slice(digest.as_slice(), &mut digits) {
        Ok(()) => text.as_str().as_bytes().eq_ignore_ascii_case(&digits),
        Err(_) => false,
    }
}

fn spells_sha512(digest: &[u8; 64], text: &Text) -> bool
    ensures { result ≡ spells digest.now text.now }
{
    let mut digits = [0u8; 128];
    match hex::encode_to_slice(digest.as_slice(), &mut digits) {
        Ok(()) => text.as_str().as_bytes().eq_ignore_ascii_case(&digits),
        Err(_) => false,
    }
}

/// Whether a document's version is its pin's. Errors: `IntegrityMismatch(Version)`.
pub fn check_version(pin: &MetaFile, version: u64) -> Result<(), Error>
    ensures { result ≡ version_of pin.now version }
{
    if version == pin.version {
        Ok(())
    } else {
        Err(Error::IntegrityMismatch(Mismatch::Version))
    }
}

/// Whether a document that expires at that moment has expired now; at the moment itself it has not.
pub fn is_past(expires: Timestamp, now: Timestamp) -> bool
    ensures { result ≡ is_past expires now }
{
    expires < now
}

/// Whether a role's document hasn't expired now. Errors: `Expired`.
#[tactic(auto, unfolding(crate::specs::Integrity::fresh_of))]
pub fn check_fresh(
    alloc: Global,
    role: &str,
    expires: Timestamp,
    now: Timestamp,
) -> Result<(), Error>
    ensures ok { IfOk result (λ v. fresh_of role.now expires now ≡ Ok v) }
    ensures err { IfErr result (λ e. e ≢ Error.NoMemory → fresh_of role.now expires now ≡ Err e) }
{
    if is_past(expires, now) {
        return Err(Error::Expired {
            role: Text::new(alloc, role)?,
            expires,
        });
    }
    Ok(())
}
