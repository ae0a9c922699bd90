// Entries of the kind hashedrekord: what is signed, by its SHA-256 value.
ghost use Rattle.std.specs.Prelude.{◌≡◌, ◌≢◌, Ok, Err, IfOk, IfErr, option_copied};
ghost use Rattle.sigstore_binding.specs.Checks.{checks_of};
ghost use Rattle.sigstore_binding.specs.Rows.{hashed_rekord_v001, hashed_rekord_v002};
ghost use Rattle.sigstore_binding.specs.Verifier.{readings_by, signatory_as};

use crate::check::{check_algorithm, check_signature, hex_sha256, same, sha256_value};
use crate::error::BindingError;
use crate::signed::SignedBy;
use crate::verifier::{check_armored, check_raw};
use crate::window::check_window;
use sigstore_rekor_parts::{HashedRekordV001Body, HashedRekordV002Body};
use sigstore_types_parts::{Armor, SignatureBytes};
use std::alloc::Global;

/// Compares a body of version 0.0.1, and the time at which it was logged. Errors, in order: `MalformedEntry` for its
/// hash, `ArtifactMismatch`; those of its verifier; `EntryMismatch` for its signature; `IntegratedTime`.
pub(crate) fn check_v001<M: Armor>(
    alloc: Global,
    armor: &M,
    who: SignedBy<'_>,
    digest: Option<&[u8]>,
    signature: &SignatureBytes,
    time: Option<i64>,
    body: &HashedRekordV001Body,
) -> Result<(), BindingError>
    ensures ok { IfOk result (λ x.
        checks_of (hashed_rekord_v001 (readings_by M.Armor armor.now) (signatory_as who.entry) (option_copied digest.entry) signature.now time body.now) ≡ Ok x) }
    ensures err { IfErr result (λ e. e ≢ BindingError.NoMemory →
        checks_of (hashed_rekord_v001 (readings_by M.Armor armor.now) (signatory_as who.entry) (option_copied digest.entry) signature.now time body.now) ≡ Err e) }
{
    let logged = hex_sha256(&body.spec.data_.hash.value)?;
    same(logged.as_bytes(), digest, BindingError::ArtifactMismatch)?;
    check_armored(alloc, armor, who, &body.spec.signature.public_key)?;
    check_signature(&body.spec.signature.content, signature)?;
    check_window(who, time)?;
    Ok(())
}

/// Compares a body of version 0.0.2. Errors, in order: `Unsupported` for another algorithm than SHA-256;
/// `MalformedEntry` for its digest, `ArtifactMismatch`; `EntryMismatch` for its verifier, then for its signature.
pub(crate) fn check_v002(
    who: SignedBy<'_>,
    digest: Option<&[u8]>,
    signature: &SignatureBytes,
    body: &HashedRekordV002Body,
) -> Result<(), BindingError>
    ensures ok { IfOk result (λ x. checks_of (hashed_rekord_v002 (signatory_as who.entry) (option_copied digest.entry) signature.now body.now) ≡ Ok x) }
    ensures err { IfErr result (λ e. checks_of (hashed_rekord_v002 (signatory_as who.entry) (option_copied digest.entry) signature.now body.now) ≡ Err e) }
{
    let logged = &body.spec.hashed_rekord_v002;
    check_algorithm(logged.data_.algorithm)?;
    let value = sha256_value(&logged.data_.digest)?;
    same(value.as_bytes(), digest, BindingError::ArtifactMismatch)?;
    check_raw(who, &logged.signature.verifier)?;
    check_signature(&logged.signature.content, signature)?;
    Ok(())
}
