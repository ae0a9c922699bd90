// Entries of the kind dsse: an envelope, by its payload.
ghost use Rattle.std.specs.Prelude.{◌≡◌, ◌≢◌, Some, Ok, Err, IfOk, IfErr};
ghost use Rattle.hex.specs.Hex as hex;
ghost use Rattle.sigstore_binding.specs.Checks.{holds_or, is_own, checks_of};
ghost use Rattle.sigstore_binding.specs.Rows.{dsse_v001};
ghost use Rattle.sigstore_binding.specs.Verifier.{readings_by, signatory_as};

use crate::check::{check_algorithm, check_signature, same, sole};
use crate::envelope::HashedEnvelope;
use crate::error::BindingError;
use crate::signed::SignedBy;
use crate::verifier::check_enveloped;
use sigstore_rekor_parts::DsseV001Body;
use sigstore_types_parts::{Armor, Text};
use std::alloc::Global;

// A text is a SHA-256 value in lower-case hexadecimal.
fn check_payload(digest: &[u8; 32], logged: &Text) -> Result<(), BindingError>
    ensures { result ≡ holds_or BindingError.EntryMismatch (is_own logged.now (Some (hex.encode_lower digest.now))) }
{
    let mut digits = [0u8; 64];
    match hex::encode_to_slice(digest.as_slice(), &mut digits) {
        Ok(()) => same(
            logged.as_str().as_bytes(),
            Some(digits.as_slice()),
            BindingError::EntryMismatch,
        ),
        Err(_) => Err(BindingError::EntryMismatch),
    }
}

/// Compares a body of version 0.0.1. Errors, in order: `Unsupported` for another algorithm than SHA-256;
/// `EntryMismatch` for the payload's digest, for another number of signatures than one, for the signature; those of
/// its verifier.
pub(crate) fn check_v001<M: Armor>(
    alloc: Global,
    armor: &M,
    who: SignedBy<'_>,
    envelope: &HashedEnvelope<'_>,
    body: &DsseV001Body,
) -> Result<(), BindingError>
    ensures ok { IfOk result (λ x. checks_of (dsse_v001 (readings_by M.Armor armor.now) (signatory_as who.entry) envelope.now body.now) ≡ Ok x) }
    ensures err { IfErr result (λ e. e ≢ BindingError.NoMemory →
        checks_of (dsse_v001 (readings_by M.Armor armor.now) (signatory_as who.entry) envelope.now body.now) ≡ Err e) }
{
    check_algorithm(body.spec.payload_hash.algorithm)?;
    check_payload(
        envelope.payload_digest().as_array(),
        &body.spec.payload_hash.value,
    )?;
    let one = sole(&body.spec.signatures)?;
    check_signature(&one.signature, &envelope.envelope().signature.sig)?;
    check_enveloped(alloc, armor, who, &one.verifier)?;
    Ok(())
}
