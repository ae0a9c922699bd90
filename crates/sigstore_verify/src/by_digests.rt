// The top call over an artifact that is told by its digests: nothing of it is read.
ghost use Rattle.std.specs.Prelude.{◌≡◌, ◌≢◌, Ok, Err, IfOk, IfErr};
ghost use Rattle.sigstore_keys.specs.Crypto.{crypto_with, crypto_by};
ghost use Rattle.sigstore_judgement.specs.Under.{bundle_of};
ghost use Rattle.sigstore_judgement.specs.declared.rules.ReadArtifact.TheVariants.{Digests};
ghost use Rattle.sigstore_verify.specs.Inputs.{anchor_with, places_by};
ghost use Rattle.sigstore_verify.specs.ByDigests.{told_asked_with, told_verdict_by, TellsVerdict, PromisesByDigests};

use crate::anchor::Anchor;
use crate::by_rules::{RuleAcceptance, RulesFault, ruled};
use crate::chain::chain_from_root;
use crate::from_root::tuf_fault;
use foundation::Sequence;
use jiff::Timestamp;
use sigstore_judgement::{
    Error, JudgedByRule, ReadArtifact, RulesCase, RulesError, Verifier, read_trust,
};
use sigstore_keys::{CryptoProvider, Providers};
use sigstore_policy::SigningPolicy;
use sigstore_tuf::{MetadataStore, Repository};
use sigstore_types::Bundle;
use sigstore_types_parts::{Armor, ArtifactDigest, TypesError};
use std::alloc::Global;

/// What is asked of an artifact that is told by its digests: its bundle's text, and the rules, of which one has to accept.
#[derive(Drop)]
pub struct DigestsAsked<'a> {
    pub bundle: &'a [u8],
    pub rules: &'a [SigningPolicy],
}

fn read_bundle(alloc: Global, bytes: &[u8]) -> Result<Bundle, Error>
    ensures ok { IfOk result (λ bundle. bundle_of bytes.now ≡ Ok bundle) }
    ensures err { IfErr result (λ e. e ≢ Error.NoMemory → bundle_of bytes.now ≡ Err e) }
{
    match Bundle::from_json(alloc, bytes) {
        Ok(bundle) => Ok(bundle),
        Err(TypesError::NoMemory) => Err(Error::NoMemory),
        Err(_) => Err(Error::InvalidBundle),
    }
}

/// Judges a bundle under a trusted root and rules, of which one has to accept, over an artifact that is told by its digests.
/// Errors: `Shared` with the first of `TrustRoot` for the file's bytes, those of `Verifier::new`, `InvalidBundle` for the
/// bundle's bytes; else `Each`, where a rule that needs a digest that isn't told has `UnsupportedArtifact`.
pub fn judge_digests<C: CryptoProvider, M: Armor>(
    alloc: Global,
    providers: &Providers<'_, C, M>,
    file: &[u8],
    now: Timestamp,
    digests: Sequence<ArtifactDigest>,
    asked: &DigestsAsked<'_>,
) -> Result<JudgedByRule, RulesError>
    ensures { TellsVerdict (told_verdict_by (told_asked_with (crypto_with C.CryptoProvider M.Armor providers.now) now asked.now) file.now (Digests digests)) result }
{
    let artifact = ReadArtifact::Digests(digests);
    let trust = match read_trust(alloc, file) {
        Ok(trust) => trust,
        Err(e) => return Err(RulesError::Shared(e)),
    };
    let verifier = match Verifier::new(alloc, providers.provider, providers.armor, &trust) {
        Ok(verifier) => verifier,
        Err(e) => return Err(RulesError::Shared(e)),
    };
    let bundle = match read_bundle(alloc, asked.bundle) {
        Ok(bundle) => bundle,
        Err(e) => return Err(RulesError::Shared(e)),
    };
    let judged = verifier.judge_by_rules(
        alloc,
        &artifact,
        &RulesCase {
            bundle: &bundle,
            rules: asked.rules,
            moment: now,
        },
    );
    drop(bundle);
    judged
}

/// Verifies a bundle over an artifact that is told by its digests, from a pinned TUF root under rules, of which one has to
/// accept: as `verify_from_root_by_rules`, but nothing of the artifact is read, so that whoever tells the digests answers for
/// them. Ok with the number of the first rule that accepts and the digests that it needed. Errors: `Root` for what all rules
/// share; else `Each`, where a rule that needs a digest that isn't told has `UnsupportedArtifact`.
pub fn verify_digests_from_root<R: Repository, S: MetadataStore, C: CryptoProvider, M: Armor>(
    alloc: Global,
    anchor: &Anchor<'_, C, M>,
    repo: &mut R,
    store: &mut S,
    digests: Sequence<ArtifactDigest>,
    asked: &DigestsAsked<'_>,
) -> Result<RuleAcceptance, RulesFault>
    ensures { PromisesByDigests (anchor_with C.CryptoProvider M.Armor anchor.entry.now)
        (told_asked_with (crypto_with C.CryptoProvider M.Armor anchor.entry.now.providers) anchor.entry.now.now asked.now) digests
        (places_by (R.seen repo.old) (S.seen store.old)) (places_by (R.seen repo.new) (S.seen store.new)) result }
{
    let chain = match chain_from_root(alloc, anchor, repo, store) {
        Ok(chain) => chain,
        Err(e) => return Err(RulesFault::Root(tuf_fault(e))),
    };
    let judged = judge_digests(
        alloc,
        &anchor.providers,
        chain.file.as_bytes(),
        anchor.now,
        digests,
        asked,
    );
    ruled(judged, chain)
}
