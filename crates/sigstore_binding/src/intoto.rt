// Entries of the kind intoto: an envelope, by its payload and its type.
ghost use Rattle.std.specs.Prelude.{◌≡◌, ◌≢◌, Some, Ok, Err, IfOk, IfErr};
ghost use Rattle.sigstore_binding.specs.Checks.{Same, check_of, checks_of};
ghost use Rattle.sigstore_binding.specs.Rows.{hex_bytes_of, twice_of, intoto_v002};
ghost use Rattle.sigstore_binding.specs.Verifier.{readings_by, signatory_as};

use crate::check::{check_algorithm, hex_bytes, same, sole, twice};
use crate::envelope::HashedEnvelope;
use crate::error::BindingError;
use crate::signed::SignedBy;
use crate::verifier::check_certified;
use sigstore_rekor_parts::{HexHash, IntotoV002Body};
use sigstore_types_parts::{Armor, Sha256Hash, SignatureBytes, Text};
use std::alloc::Global;

// A text is the digest in hexadecimal, in either case.
fn check_digest(alloc: Global, logged: &HexHash, own: &Sha256Hash) -> Result<(), BindingError>
    ensures ok { IfOk result (λ x. check_of (Same (hex_bytes_of logged.now) (Some own.now) BindingError.EntryMismatch) ≡ Ok x) }
    ensures err { IfErr result (λ e. e ≢ BindingError.NoMemory →
        check_of (Same (hex_bytes_of logged.now) (Some own.now) BindingError.EntryMismatch) ≡ Err e) }
{
    let digest = hex_bytes(alloc, logged)?;
    same(
        digest.as_bytes(),
        Some(own.as_bytes()),
        BindingError::EntryMismatch,
    )
}

// A payload's type is this one.
fn check_type(logged: &Text, own: &Text) -> Result<(), BindingError>
    ensures { result ≡ check_of (Same (Ok logged.now) (Some own.now) BindingError.EntryMismatch) }
{
    same(
        logged.as_str().as_bytes(),
        Some(own.as_str().as_bytes()),
        BindingError::EntryMismatch,
    )
}

// What was written in base64 once more is the signature.
fn check_twice(
    alloc: Global,
    logged: &SignatureBytes,
    own: &SignatureBytes,
) -> Result<(), BindingError>
    ensures ok { IfOk result (λ x. check_of (Same (twice_of logged.now) (Some own.now) BindingError.EntryMismatch) ≡ Ok x) }
    ensures err { IfErr result (λ e. e ≢ BindingError.NoMemory →
        check_of (Same (twice_of logged.now) (Some own.now) BindingError.EntryMismatch) ≡ Err e) }
{
    let signature = twice(alloc, logged)?;
    same(
        signature.as_bytes(),
        Some(own.as_bytes()),
        BindingError::EntryMismatch,
    )
}

/// Compares a body of version 0.0.2. Errors, in order: `Unsupported` for another algorithm than SHA-256;
/// `MalformedEntry` for the payload's digest, `EntryMismatch`; `EntryMismatch` for the payload's type and for another
/// number of signatures than one; `MalformedEntry` for the signature, `EntryMismatch`; those of its verifier.
pub(crate) fn check_v002<M: Armor>(
    alloc: Global,
    armor: &M,
    who: SignedBy<'_>,
    envelope: &HashedEnvelope<'_>,
    body: &IntotoV002Body,
) -> Result<(), BindingError>
    ensures ok { IfOk result (λ x. checks_of (intoto_v002 (readings_by M.Armor armor.now) (signatory_as who.entry) envelope.now body.now) ≡ Ok x) }
    ensures err { IfErr result (λ e. e ≢ BindingError.NoMemory →
        checks_of (intoto_v002 (readings_by M.Armor armor.now) (signatory_as who.entry) envelope.now body.now) ≡ Err e) }
{
    let logged = &body.spec.content;
    check_algorithm(logged.payload_hash.algorithm)?;
    check_digest(alloc, &logged.payload_hash.value, envelope.payload_digest())?;
    check_type(
        &logged.envelope.payload_type,
        &envelope.envelope().payload_type,
    )?;
    let one = sole(&logged.envelope.signatures)?;
    check_twice(alloc, &one.sig, &envelope.envelope().signature.sig)?;
    check_certified(alloc, armor, who, &one.public_key)?;
    Ok(())
}
