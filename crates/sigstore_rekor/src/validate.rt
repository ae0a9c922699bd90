// Whether an entry of a log of Rekor's second version is of what was sent.
ghost use Rattle.std.specs.Prelude.{◌≡◌, ◌≢◌, Ok, Err, IfOk, IfErr};
ghost use Rattle.sigstore_rekor.specs.Validate.{is_v2, are_same_details, is_same_verifier, verifier_of, data_of, logged_of, body_of_request, logged_in, untimed_of, shown_of, validated_of};

use crate::hashed_rekord_v2::{HashedRekordV2, VerifierV2};
use sigstore_entries::{InclusionProof, KindVersion, TransparencyLogEntry};
use sigstore_rekor_parts::{
    Error, HashedRekordV002Data, HashedRekordV002DataInner, HashedRekordV002Verifier,
    RekorEntryBody, RekorV2KeyDetails, ResponseRule,
};
use sigstore_types_parts::HashAlgorithm;
use std::alloc::Global;

fn is_v2(kind: KindVersion) -> bool
    ensures { result ≡ is_v2 kind }
{
    match kind {
        KindVersion::HashedRekordV002 => true,
        _ => false,
    }
}

fn are_same_details(a: RekorV2KeyDetails, b: RekorV2KeyDetails) -> bool
    ensures { result ≡ are_same_details a b }
{
    match (a, b) {
        (RekorV2KeyDetails::PkixEcdsaP256Sha256, RekorV2KeyDetails::PkixEcdsaP256Sha256) => true,
    }
}

// The only verifier is the one that was sent.
fn is_same_verifier(logged: &HashedRekordV002Verifier, sent: &VerifierV2) -> bool
    ensures { result ≡ is_same_verifier logged.now sent.now }
{
    match (&logged.x509_certificate, &logged.public_key, sent) {
        (Some(logged), None, VerifierV2::Certificate(sent)) => {
            logged.raw_bytes.as_bytes() == sent.as_bytes()
        }
        (None, Some(logged), VerifierV2::PublicKey(sent)) => {
            logged.raw_bytes.as_bytes() == sent.as_bytes()
        }
        _ => false,
    }
}

fn check_data(logged: &HashedRekordV002DataInner, request: &HashedRekordV2) -> Result<(), Error>
    ensures { result ≡ data_of logged.now request.now }
{
    if !logged.algorithm.is_same(HashAlgorithm::Sha2256) {
        return Err(Error::InvalidResponse {
            rule: ResponseRule::Algorithm,
        });
    }
    if logged.digest.as_bytes() != request.digest().as_bytes() {
        return Err(Error::InvalidResponse {
            rule: ResponseRule::Digest,
        });
    }
    Ok(())
}

fn check_verifier(logged: &HashedRekordV002Verifier, request: &HashedRekordV2) -> Result<(), Error>
    ensures { result ≡ verifier_of logged.now request.now }
{
    if !are_same_details(logged.key_details, request.key_details()) {
        return Err(Error::InvalidResponse {
            rule: ResponseRule::KeyDetails,
        });
    }
    if !is_same_verifier(logged, request.verifier()) {
        return Err(Error::InvalidResponse {
            rule: ResponseRule::Verifier,
        });
    }
    Ok(())
}

#[tactic(auto, unfolding(crate::specs::Validate::logged_of))]
fn check_logged(logged: &HashedRekordV002Data, request: &HashedRekordV2) -> Result<(), Error>
    ensures { result ≡ logged_of logged.now request.now }
{
    check_data(&logged.data_, request)?;
    if logged.signature.content.as_bytes() != request.signature().as_bytes() {
        return Err(Error::InvalidResponse {
            rule: ResponseRule::Signature,
        });
    }
    check_verifier(&logged.signature.verifier, request)
}

fn check_body(body: &RekorEntryBody, request: &HashedRekordV2) -> Result<(), Error>
    ensures { result ≡ body_of_request body.now request.now }
{
    match body {
        RekorEntryBody::HashedRekordV002(body) => {
            check_logged(&body.spec.hashed_rekord_v002, request)
        }
        _ => Err(Error::InvalidResponse {
            rule: ResponseRule::Kind,
        }),
    }
}

// What was logged is what was sent.
#[tactic(auto, unfolding(crate::specs::Validate::logged_in))]
fn check_entry_body(
    alloc: Global,
    entry: &TransparencyLogEntry,
    request: &HashedRekordV2,
) -> Result<(), Error>
    ensures ok { IfOk result (λ u. logged_in entry.now request.now ≡ Ok u) }
    ensures err { IfErr result (λ e. e ≢ Error.NoMemory → logged_in entry.now request.now ≡ Err e) }
{
    if !is_v2(entry.kind_version) {
        return Err(Error::InvalidResponse {
            rule: ResponseRule::Kind,
        });
    }
    let body = RekorEntryBody::parse(
        alloc,
        &entry.canonicalized_body,
        KindVersion::HashedRekordV002,
    )?;
    let found = check_body(&body, request);
    drop(body);
    match found {
        Ok(()) => Ok(()),
        Err(e) => Err(e),
    }
}

fn check_untimed(entry: &TransparencyLogEntry) -> Result<(), Error>
    ensures { result ≡ untimed_of entry.now }
{
    if entry.integrated_time.is_some() {
        return Err(Error::InvalidResponse {
            rule: ResponseRule::IntegratedTime,
        });
    }
    if entry.inclusion_promise.is_some() {
        return Err(Error::InvalidResponse {
            rule: ResponseRule::InclusionPromise,
        });
    }
    Ok(())
}

fn check_shown(proof: &Option<InclusionProof>) -> Result<(), Error>
    ensures { result ≡ shown_of proof.now }
{
    match proof {
        Some(proof) => if proof.checkpoint.is_empty() {
            Err(Error::InvalidResponse {
                rule: ResponseRule::EmptyCheckpoint,
            })
        } else {
            Ok(())
        },
        None => Err(Error::InvalidResponse {
            rule: ResponseRule::InclusionProof,
        }),
    }
}

/// Whether an entry is of what was sent, with a proof that tells a checkpoint; no signature of it is judged.
/// Errors: `InvalidResponse` with `Kind` for another kind than hashedrekord 0.0.2, those of
/// `RekorEntryBody::parse`, then `Algorithm`, `Digest`, `Signature`, `KeyDetails`, `Verifier`, `IntegratedTime`,
/// `InclusionPromise`, `InclusionProof` and `EmptyCheckpoint`.
#[tactic(auto, unfolding(crate::specs::Validate::validated_of))]
pub fn validate_v2_entry(
    alloc: Global,
    entry: &TransparencyLogEntry,
    request: &HashedRekordV2,
) -> Result<(), Error>
    ensures ok { IfOk result (λ u. validated_of entry.now request.now ≡ Ok u) }
    ensures err { IfErr result (λ e. e ≢ Error.NoMemory → validated_of entry.now request.now ≡ Err e) }
{
    check_entry_body(alloc, entry, request)?;
    check_untimed(entry)?;
    Ok(check_shown(&entry.inclusion_proof)?)
}
