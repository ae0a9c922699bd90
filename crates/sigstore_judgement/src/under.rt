// The judgement of a bundle under a trust file, both from their bytes.
ghost use Rattle.std.specs.Prelude.{◌≡◌, ◌≢◌, Ok, Err, IfOk, IfErr};
ghost use Rattle.sigstore_keys.specs.Crypto.{crypto_with};
ghost use Rattle.sigstore_judgement.specs.Under.{trust_of, bundle_of, asked_with, JudgesBundle};
ghost use Rattle.sigstore_judgement.specs.UnderRules.{rules_asked_with, JudgesByRules};

use crate::asked::{Asked, Case, RulesAsked, RulesCase};
use crate::error::{Error, lowered};
use crate::report::JudgedBundle;
use crate::rules::{JudgedByRule, RulesError};
use crate::verifier::Verifier;
use jiff::Timestamp;
use sigstore_keys::{ArtifactSource, CryptoProvider, Providers};
use sigstore_policy::Policy;
use sigstore_types::{Bundle, TrustedRoot};
use sigstore_types_parts::Armor;
use std::alloc::Global;

/// The trust file, from its bytes. Errors: `TrustRoot`.
pub fn read_trust(alloc: Global, bytes: &[u8]) -> Result<TrustedRoot, Error>
    ensures ok { IfOk result (λ trust. trust_of bytes.now ≡ Ok trust) }
    ensures err { IfErr result (λ e. e ≢ Error.NoMemory → trust_of bytes.now ≡ Err e) }
{
    match TrustedRoot::from_json(alloc, bytes) {
        Ok(trust) => Ok(trust),
        Err(e) => Err(lowered(e, Error::TrustRoot)),
    }
}

fn read_bundle(alloc: Global, bytes: &[u8]) -> Result<Bundle, Error>
    ensures ok { IfOk result (λ bundle. bundle_of bytes.now ≡ Ok bundle) }
    ensures err { IfErr result (λ e. e ≢ Error.NoMemory → bundle_of bytes.now ≡ Err e) }
{
    match Bundle::from_json(alloc, bytes) {
        Ok(bundle) => Ok(bundle),
        Err(e) => Err(lowered(e, Error::InvalidBundle)),
    }
}

/// Judges a bundle under a trust file over an artifact that is read to its end, and keeps the digests that were
/// needed. Errors are those of the first that refuses: `TrustRoot` for the file's bytes, those of `Verifier::new`,
/// `InvalidBundle` for the bundle's bytes, those of `Verifier::verify_reader_kept`.
pub fn judge_bundle<C: CryptoProvider, M: Armor, A: ArtifactSource, P: Policy>(
    alloc: Global,
    providers: &Providers<'_, C, M>,
    file: &[u8],
    now: Timestamp,
    artifact: &mut A,
    asked: &Asked<'_, P>,
) -> Result<JudgedBundle, Error>
    ensures { JudgesBundle (asked_with P.Policy (crypto_with C.CryptoProvider M.Armor providers.now) now asked.now) file.now
        (A.seen artifact.old) (A.seen artifact.new) result }
{
    let trust = match read_trust(alloc, file) {
        Ok(trust) => trust,
        Err(e) => return Err(e),
    };
    let verifier = match Verifier::new(alloc, providers.provider, providers.armor, &trust) {
        Ok(verifier) => verifier,
        Err(e) => return Err(e),
    };
    let bundle = match read_bundle(alloc, asked.bundle) {
        Ok(bundle) => bundle,
        Err(e) => return Err(e),
    };
    let kept = verifier.verify_reader_kept(
        alloc,
        artifact,
        asked.max_artifact,
        &Case {
            bundle: &bundle,
            policy: asked.policy,
            moment: now,
        },
    );
    drop(bundle);
    kept
}

/// Judges a bundle under a trust file and rules, of which one has to accept, over an artifact that is read once. Errors:
/// `Shared` with the first of `TrustRoot` for the file's bytes, those of `Verifier::new`, `InvalidBundle` for the bundle's
/// bytes; those of `Verifier::verify_reader_by_rules`.
pub fn judge_bundle_by_rules<C: CryptoProvider, M: Armor, A: ArtifactSource>(
    alloc: Global,
    providers: &Providers<'_, C, M>,
    file: &[u8],
    now: Timestamp,
    artifact: &mut A,
    asked: &RulesAsked<'_>,
) -> Result<JudgedByRule, RulesError>
    ensures { JudgesByRules (rules_asked_with (crypto_with C.CryptoProvider M.Armor providers.now) now asked.now) file.now
        (A.seen artifact.old) (A.seen artifact.new) result }
{
    let trust = match read_trust(alloc, file) {
        Ok(trust) => trust,
        Err(e) => return Err(RulesError::Shared(e)),
    };
    let verifier = match Verifier::new(alloc, providers.provider, providers.armor, &trust) {
        Ok(verifier) => verifier,
        Err(e) => return Err(RulesError::Shared(e)),
    };
    let bundle = match read_bundle(alloc, asked.bundle) {
        Ok(bundle) => bundle,
        Err(e) => return Err(RulesError::Shared(e)),
    };
    let judged = verifier.verify_reader_by_rules(
        alloc,
        artifact,
        asked.max_artifact,
        &RulesCase {
            bundle: &bundle,
            rules: asked.rules,
            moment: now,
        },
    );
    drop(bundle);
    judged
}
