// Whose signatures a checkpoint has.
ghost use Rattle.std.specs.Prelude.{◌≡◌, ◌≢◌, Some, None, is_some, Ok, Err, IfOk, IfErr, OnOk, Result, ⊤, List, ℕ};
ghost use Rattle.std.specs.List.{list_any};
ghost use Rattle.sigstore_keys.specs.Good.{Judge, is_good};
ghost use Rattle.sigstore_keys.specs.Keyring.{lesser, least_signer_of};
ghost use Rattle.sigstore_keys.specs.declared.error.Error.{Error as CryptoError};
ghost use Rattle.sigstore_keys.specs.declared.error.Error.TheVariants as crypto;
ghost use Rattle.sigstore_entries.specs.Checkpoint.{signed_data_of};
ghost use Rattle.sigstore_log.specs.Signed.{looked_at, is_signed_by, line_signer, least_signer_in, signer_of, proof_signer, is_of_tree, checkpoint_judged};
ghost use Rattle.sigstore_log.specs.Signed.{has_hint, is_line_good, hinted_of, verified_of};

use crate::error::LogError;
use jiff::Timestamp;
use sigstore_entries::{Checkpoint, CheckpointSignature, InclusionProof, KindVersion};
use sigstore_keys::{
    CheckpointFault, CryptoProvider, Error, HashedMessage, Keyring, VerificationKey,
    compute_key_hint,
};
use sigstore_types_parts::{DerPublicKey, KeyHint, Sha256Hash};
use std::alloc::Global;

// The lines that are looked at.
#[tactic(auto, using(crate::proofs::Looking::first_hundred))]
fn looked_at(lines: &[CheckpointSignature]) -> &[CheckpointSignature]
    ensures { result.now ≡ looked_at lines.now }
{
    let (first, _) = lines.split_at(100usize.min(lines.len()));
    first
}

// The lesser of two ids, by their bytes.
fn lesser(found: Option<Sha256Hash>, other: Option<Sha256Hash>) -> Option<Sha256Hash>
    ensures { result ≡ lesser found other }
{
    let Some(id) = found else {
        return other;
    };
    let Some(another) = other else {
        return Some(id);
    };
    if id > another {
        Some(another)
    } else {
        Some(id)
    }
}

// The least id of the logs of lines.
fn least_signer_in<C: CryptoProvider>(
    provider: &C,
    logs: &Keyring,
    now: Timestamp,
    signed: &HashedMessage<'_>,
    lines: &[CheckpointSignature],
) -> Option<Sha256Hash>
    ensures { result ≡ least_signer_in (line_signer (C.accepts provider.now) logs.now now signed.now) None lines.now }
{
    let mut found = None;
    'lines: for line in lines {
        let signer = logs.least_signer_hashed(provider, &line.key_id, now, signed, &line.signature);
        found = lesser(found, signer);
    }
    found
}

/// The log that signed a checkpoint: the least id, by its bytes, of those of these logs whose signature some line of the
/// first hundred has; the line has the first four bytes of the log's id, the log's window has started by now, and the
/// line's signature is good under its key (C2SP tlog-checkpoint over signed-note). None where none of the logs signed.
/// The text's digests are taken once.
pub fn checkpoint_signer<C: CryptoProvider>(
    provider: &C,
    logs: &Keyring,
    now: Timestamp,
    checkpoint: &Checkpoint,
) -> Option<Sha256Hash>
    ensures value { result ≡ signer_of (C.accepts provider.now) logs.now now checkpoint.now }
    ensures signed { is_some result ≡ is_signed_by (C.accepts provider.now) logs.now now checkpoint.now }
{
    let signed = HashedMessage::new(checkpoint.signed_data());
    least_signer_in(
        provider,
        logs,
        now,
        &signed,
        looked_at(checkpoint.signatures()),
    )
}

// Whether a proof is of a checkpoint's tree.
fn is_of_tree(kind: KindVersion, proof: &InclusionProof, checkpoint: &Checkpoint) -> bool
    ensures { result ≡ is_of_tree kind proof.now checkpoint.now }
{
    match kind {
        KindVersion::HashedRekordV002 => true,
        _ => *checkpoint.root_hash() == proof.root_hash,
    }
}

/// The log that signed a proof's checkpoint, which has to be of the proof's tree. Errors: `Checkpoint`.
pub(crate) fn check_checkpoint<C: CryptoProvider>(
    provider: &C,
    logs: &Keyring,
    now: Timestamp,
    kind: KindVersion,
    proof: &InclusionProof,
) -> Result<Sha256Hash, LogError>
    ensures ok { OnOk result (checkpoint_judged (C.accepts provider.now) logs.now now kind proof.now proof.now.checkpoint.checkpoint ≡ Ok tt) }
    ensures log { IfOk result (λ id. proof_signer (C.accepts provider.now) logs.now now proof.now.checkpoint.checkpoint ≡ Some id) }
    ensures err { IfErr result (λ e. checkpoint_judged (C.accepts provider.now) logs.now now kind proof.now proof.now.checkpoint.checkpoint ≡ Err e) }
{
    match proof.checkpoint.checkpoint() {
        Some(checkpoint) if is_of_tree(kind, proof, checkpoint) => {
            match checkpoint_signer(provider, logs, now, checkpoint) {
                Some(id) => Ok(id),
                None => Err(LogError::Checkpoint),
            }
        }
        _ => Err(LogError::Checkpoint),
    }
}

// Whether a line has a hint.
fn has_hint(hint: &KeyHint, line: &CheckpointSignature) -> bool
    ensures { result ≡ has_hint hint.now line.now }
{
    line.key_id == *hint
}

fn has_any(hint: &KeyHint, lines: &[CheckpointSignature]) -> bool
    ensures { result ≡ list_any (has_hint hint.now) lines.now }
{
    lines.iter().any(|line| has_hint(hint, line))
}

fn is_line_good<C: CryptoProvider>(
    provider: &C,
    key: &VerificationKey,
    hint: &KeyHint,
    signed: &HashedMessage<'_>,
    line: &CheckpointSignature,
) -> bool
    ensures { result ≡ is_line_good (C.accepts provider.now) key.now hint.now signed.now line.now }
{
    has_hint(hint, line) && key.verify_hashed(provider, signed, &line.signature).is_ok()
}

fn has_good<C: CryptoProvider>(
    provider: &C,
    key: &VerificationKey,
    hint: &KeyHint,
    checkpoint: &Checkpoint,
) -> bool
    ensures { result ≡ list_any (is_line_good (C.accepts provider.now) key.now hint.now (signed_data_of checkpoint.now)) (looked_at checkpoint.now.signatures) }
{
    let signed = HashedMessage::new(checkpoint.signed_data());
    looked_at(checkpoint.signatures())
        .iter()
        .any(|line| is_line_good(provider, key, hint, &signed, line))
}

fn check_hinted<C: CryptoProvider>(
    provider: &C,
    key: &VerificationKey,
    hint: &KeyHint,
    checkpoint: &Checkpoint,
) -> Result<(), Error>
    ensures { result ≡ hinted_of (C.accepts provider.now) key.now hint.now checkpoint.now }
{
    if !has_any(hint, looked_at(checkpoint.signatures())) {
        return Err(Error::Checkpoint(CheckpointFault::NoHint));
    }
    if has_good(provider, key, hint, checkpoint) {
        Ok(())
    } else {
        Err(Error::Checkpoint(CheckpointFault::Refused))
    }
}

/// Signed texts whose signature lines name their keys by hints.
pub trait CheckpointVerifyExt {
    ghost verified: { Judge → List ℕ → Self → Result ⊤ CryptoError };

    /// Whether a signature line with the hint of this key, which is a SubjectPublicKeyInfo in DER, has a good
    /// signature; of a text with more lines the first hundred are looked at. Errors, in order: `InvalidKey` where the
    /// key isn't read, `Checkpoint(NoHint)` where no line has its hint, `Checkpoint(Refused)` where no line with it
    /// is good.
    fn verify_signature<C: CryptoProvider>(
        &self,
        alloc: Global,
        provider: &C,
        key: &DerPublicKey,
    ) -> Result<(), Error>
        ensures ok { IfOk result (λ x. verified (C.accepts provider.now) key.now self.now ≡ Ok x) }
        ensures err { IfErr result (λ e. e ≢ crypto.NoMemory → verified (C.accepts provider.now) key.now self.now ≡ Err e) };
}

impl CheckpointVerifyExt for Checkpoint {
    ghost verified = { verified_of };

    fn verify_signature<C: CryptoProvider>(
        &self,
        alloc: Global,
        provider: &C,
        key: &DerPublicKey,
    ) -> Result<(), Error> {
        let read = VerificationKey::from_spki(alloc, key)?;
        check_hinted(provider, &read, &compute_key_hint(key), self)?;
        Ok(())
    }
}
