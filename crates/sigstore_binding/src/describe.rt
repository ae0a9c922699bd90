// Whether an entry is of a signature.
ghost use Rattle.std.specs.Prelude.{◌≡◌, ◌≢◌, Ok, Err, IfOk, IfErr, option_copied};
ghost use Rattle.sigstore_rekor_parts.specs.Body.{body_of};
ghost use Rattle.sigstore_binding.specs.Checks.{checks_of};
ghost use Rattle.sigstore_binding.specs.Described.{describes_of};
ghost use Rattle.sigstore_binding.specs.Rows.{Message, Envelope, signed_as, has_row, row_of};
ghost use Rattle.sigstore_binding.specs.Verifier.{readings_by, signatory_as, or_malformed};

use crate::check::holds;
use crate::envelope::HashedEnvelope;
use crate::error::BindingError;
use crate::signed::{Signed, SignedBy};
use crate::{dsse, hashed_rekord, intoto};
use sigstore_entries::{KindVersion, TransparencyLogEntry};
use sigstore_rekor_parts::{Error, RekorEntryBody};
use sigstore_types_parts::{Armor, SignatureBytes};
use std::alloc::Global;

// Whether entries of a kind are compared with what was signed.
fn has_row(signed: Signed<'_>, kind: KindVersion) -> bool
    ensures { result ≡ has_row (signed_as signed.entry) kind }
{
    match (signed, kind) {
        (Signed::Message { .. }, KindVersion::HashedRekordV001 | KindVersion::HashedRekordV002) => {
            true
        }
        (
            Signed::Envelope(_),
            KindVersion::HashedRekordV002 | KindVersion::DsseV001 | KindVersion::IntotoV002,
        ) => true,
        _ => false,
    }
}

// The body of an entry.
fn read_body(alloc: Global, entry: &TransparencyLogEntry) -> Result<RekorEntryBody, BindingError>
    ensures ok { IfOk result (λ body. or_malformed (body_of entry.now.kind_version entry.now.canonicalized_body) ≡ Ok body) }
    ensures err { IfErr result (λ e. e ≢ BindingError.NoMemory →
        or_malformed (body_of entry.now.kind_version entry.now.canonicalized_body) ≡ Err e) }
{
    match RekorEntryBody::parse(alloc, &entry.canonicalized_body, entry.kind_version) {
        Ok(body) => Ok(body),
        Err(Error::NoMemory) => Err(BindingError::NoMemory),
        Err(_) => Err(BindingError::MalformedEntry),
    }
}

// A body compared with a message.
fn check_message<M: Armor>(
    alloc: Global,
    armor: &M,
    who: SignedBy<'_>,
    digest: Option<&[u8]>,
    signature: &SignatureBytes,
    time: Option<i64>,
    body: &RekorEntryBody,
) -> Result<(), BindingError>
    ensures ok { IfOk result (λ x.
        checks_of (row_of (readings_by M.Armor armor.now) (signatory_as who.entry) (Message (option_copied digest.entry) signature.now) time body.now) ≡ Ok x) }
    ensures err { IfErr result (λ e. e ≢ BindingError.NoMemory →
        checks_of (row_of (readings_by M.Armor armor.now) (signatory_as who.entry) (Message (option_copied digest.entry) signature.now) time body.now) ≡ Err e) }
{
    match body {
        RekorEntryBody::HashedRekordV001(body) => {
            hashed_rekord::check_v001(alloc, armor, who, digest, signature, time, body)
        }
        RekorEntryBody::HashedRekordV002(body) => {
            hashed_rekord::check_v002(who, digest, signature, body)
        }
        _ => Err(BindingError::Unsupported),
    }
}

// A body compared with an envelope.
fn check_envelope<M: Armor>(
    alloc: Global,
    armor: &M,
    who: SignedBy<'_>,
    envelope: &HashedEnvelope<'_>,
    time: Option<i64>,
    body: &RekorEntryBody,
) -> Result<(), BindingError>
    ensures ok { IfOk result (λ x. checks_of (row_of (readings_by M.Armor armor.now) (signatory_as who.entry) (Envelope envelope.now) time body.now) ≡ Ok x) }
    ensures err { IfErr result (λ e. e ≢ BindingError.NoMemory →
        checks_of (row_of (readings_by M.Armor armor.now) (signatory_as who.entry) (Envelope envelope.now) time body.now) ≡ Err e) }
{
    match body {
        RekorEntryBody::HashedRekordV002(body) => {
            let digest = envelope.encoding_digest().as_bytes();
            hashed_rekord::check_v002(who, Some(digest), &envelope.envelope().signature.sig, body)
        }
        RekorEntryBody::DsseV001(body) => dsse::check_v001(alloc, armor, who, envelope, body),
        RekorEntryBody::IntotoV002(body) => intoto::check_v002(alloc, armor, who, envelope, body),
        _ => Err(BindingError::Unsupported),
    }
}

// What a body's row names is compared.
fn check_row<M: Armor>(
    alloc: Global,
    armor: &M,
    who: SignedBy<'_>,
    signed: Signed<'_>,
    time: Option<i64>,
    body: &RekorEntryBody,
) -> Result<(), BindingError>
    ensures ok { IfOk result (λ x.
        checks_of (row_of (readings_by M.Armor armor.now) (signatory_as who.entry) (signed_as signed.entry) time body.now) ≡ Ok x) }
    ensures err { IfErr result (λ e. e ≢ BindingError.NoMemory →
        checks_of (row_of (readings_by M.Armor armor.now) (signatory_as who.entry) (signed_as signed.entry) time body.now) ≡ Err e) }
{
    match signed {
        Signed::Message { digest, signature } => {
            check_message(alloc, armor, who, digest, signature, time, body)
        }
        Signed::Envelope(envelope) => check_envelope(alloc, armor, who, envelope, time, body),
    }
}

/// Whether an entry is of this very signature. Errors, in order: `Unsupported` for a kind of entries that isn't
/// compared with what was signed; `MalformedEntry` for its body; those of what its kind names, in the order of its
/// row, of which `IntegratedTime` is the last: it comes for hashedrekord 0.0.1 under a certificate alone.
#[tactic(auto, unfolding(crate::specs::Described::describes_of))]
pub fn describe_entry<M: Armor>(
    alloc: Global,
    armor: &M,
    who: SignedBy<'_>,
    signed: Signed<'_>,
    entry: &TransparencyLogEntry,
) -> Result<(), BindingError>
    ensures ok { IfOk result (λ x. describes_of (readings_by M.Armor armor.now) (signatory_as who.entry) (signed_as signed.entry) entry.now ≡ Ok x) }
    ensures err { IfErr result (λ e. e ≢ BindingError.NoMemory →
        describes_of (readings_by M.Armor armor.now) (signatory_as who.entry) (signed_as signed.entry) entry.now ≡ Err e) }
{
    holds(
        has_row(signed, entry.kind_version),
        BindingError::Unsupported,
    )?;
    let body = read_body(alloc, entry)?;
    check_row(alloc, armor, who, signed, entry.integrated_time, &body)
}
