// The judgement of a bundle, before and after its artifact is had.
ghost use Rattle.std.specs.Prelude.{◌≡◌, ◌≢◌, Ok, Err, IfOk, IfErr};
ghost use Rattle.sigstore_keys.specs.Key.{spki_key_of};
ghost use Rattle.sigstore_certificate.specs.Certified.{certified_of};
ghost use Rattle.sigstore_judgement.specs.Artifact.{kind_in, digest_had, bytes_had};
ghost use Rattle.sigstore_judgement.specs.Claim.{claim_as, needed_of};
ghost use Rattle.sigstore_judgement.specs.Content.{signs_digest, supported_of};
ghost use Rattle.sigstore_judgement.specs.Error.{by_crypto, by_certificate};
ghost use Rattle.sigstore_judgement.specs.Evidence.{managed_evidence, owner_evidence, report_of};
ghost use Rattle.sigstore_judgement.specs.Grounds.{grounds_by, trust_in};
ghost use Rattle.sigstore_judgement.specs.Judged.{ready_as, bundle_in, ready_with, claimed_of, ready_of, prepared_of, managed_vouched_of, intermediates_in, owner_vouched_of, vouched_of, judged_had};
ghost use Rattle.sigstore_policy.specs.Policy.{meaning_of};
ghost use Rattle.sigstore_judgement.specs.Signer.{Managed, Certified, signer_as, first_checks_of};

use crate::artifact::{ArtifactInput, KnownArtifact};
use crate::claim::{Claim, needed, read_claim};
use crate::conditions::check_conditions;
use crate::content::{check_supported, judge_content, open_content, scheme_of, signature_in};
use crate::entries::{check_described, check_log, check_log_count};
use crate::error::{Error, uncertified};
use crate::evidence::{Evidence, earliest, joined, report};
use crate::grounds::Grounds;
use crate::parties::count_parties;
use crate::report::VerificationResult;
use crate::signing::{Owner, Signing, who_signed};
use crate::tokens::{TimeEvidence, check_tokens};
use crate::verified::verified_times;
use foundation::Sequence;
use jiff::Timestamp;
use sigstore_certificate::{Presented, TrustedAuthorities, judge_certificate};
use sigstore_keys::{CryptoProvider, SigningScheme, VerificationKey};
use sigstore_policy::{PolicyKind, PublicKeyVerificationPolicy};
use sigstore_types::{Bundle, SignatureContent};
use sigstore_types_parts::{Armor, DerPublicKey, HashAlgorithm};
use std::alloc::Global;

/// What was prepared of a bundle for an artifact: who signed, their key under the scheme of this bundle, what it says
/// of the artifact, and the digests of that which are needed.
#[derive(Drop)]
pub struct Ready<'a> {
    pub(crate) bundle: &'a Bundle,
    pub(crate) signer: Signing<'a>,
    pub(crate) key: VerificationKey,
    pub(crate) claim: Claim<'a>,
    pub(crate) needed: Sequence<HashAlgorithm>,
}

impl<'a> Ready<'a> {
    /// The algorithms of the digests that are needed of the artifact, in their order.
    pub fn needed(&self) -> &[HashAlgorithm]
        ensures { result.now ≡ (ready_as self.now).needed }
    {
        self.needed.as_slice()
    }
}

// The signer's key, under its own scheme.
fn key_of(alloc: Global, der: &DerPublicKey) -> Result<VerificationKey, Error>
    ensures ok { IfOk result (λ key. by_crypto (spki_key_of der.now) ≡ Ok key) }
    ensures err { IfErr result (λ e. e ≢ Error.NoMemory → by_crypto (spki_key_of der.now) ≡ Err e) }
{
    match VerificationKey::from_spki(alloc, der) {
        Ok(key) => Ok(key),
        Err(sigstore_keys::Error::NoMemory) => Err(Error::NoMemory),
        Err(_) => Err(Error::Crypto),
    }
}

// The digests that are needed, and whether the artifact serves.
fn digests_needed(
    alloc: Global,
    handed: ArtifactInput,
    scheme: SigningScheme,
    content: &SignatureContent,
    claim: &Claim<'_>,
) -> Result<Sequence<HashAlgorithm>, Error>
    ensures list { IfOk result (λ list. list ≡ needed_of scheme (claim_as claim.now)) }
    ensures ok { IfOk result (λ list. supported_of (kind_in handed) (signs_digest scheme content.now) (needed_of scheme (claim_as claim.now)) ≡ Ok tt) }
    ensures err { IfErr result (λ e. e ≢ Error.NoMemory →
        supported_of (kind_in handed) (signs_digest scheme content.now) (needed_of scheme (claim_as claim.now)) ≡ Err e) }
{
    let list = needed(alloc, scheme, claim)?;
    check_supported(handed, scheme, content, list.as_slice())?;
    Ok(list)
}

// What a bundle says of its artifact, with the digests that are needed.
fn claim_and_digests<'b>(
    alloc: Global,
    handed: ArtifactInput,
    scheme: SigningScheme,
    content: &'b SignatureContent,
) -> Result<(Claim<'b>, Sequence<HashAlgorithm>), Error>
    ensures list { IfOk result (λ had. had.1 ≡ needed_of scheme (claim_as had.0)) }
    ensures ok { IfOk result (λ had. claimed_of (kind_in handed) scheme content.now ≡ Ok (claim_as had.0)) }
    ensures err { IfErr result (λ e. e ≢ Error.NoMemory → claimed_of (kind_in handed) scheme content.now ≡ Err e) }
{
    let claim = read_claim(alloc, content)?;
    match digests_needed(alloc, handed, scheme, content, &claim) {
        Ok(list) => Ok((claim, list)),
        Err(e) => {
            drop(claim);
            Err(e)
        }
    }
}

// What is needed of a signer, who is only lent here: a refusal then has nothing large to let go.
#[tactic(auto, unfolding(crate::specs::Judged::ready_of))]
fn key_and_claim<'b>(
    alloc: Global,
    handed: ArtifactInput,
    signer: &Signing<'_>,
    bundle: &'b Bundle,
) -> Result<(VerificationKey, Claim<'b>, Sequence<HashAlgorithm>), Error>
    ensures list { IfOk result (λ had. had.2 ≡ needed_of had.0.scheme (claim_as had.1)) }
    ensures ok { IfOk result (λ had. ready_of (kind_in handed) (signer_as signer.now) bundle.now
        ≡ Ok (ready_with (signer_as signer.now) had.0 (claim_as had.1))) }
    ensures err { IfErr result (λ e. e ≢ Error.NoMemory → ready_of (kind_in handed) (signer_as signer.now) bundle.now ≡ Err e) }
{
    let key = key_of(alloc, signer.key())?;
    let scheme = scheme_of(key.scheme, &bundle.content)?;
    match claim_and_digests(alloc, handed, scheme, &bundle.content) {
        Ok((claim, list)) => {
            let key = key.key;
            Ok((VerificationKey { scheme, key }, claim, list))
        }
        Err(e) => Err(e),
    }
}

/// Everything that doesn't need the artifact, so that a bundle that can't be accepted costs no reading of a long
/// file. Errors, in order: those of `who_signed`; `Crypto` for the signer's key and its scheme; those of `read_claim`;
/// `UnsupportedArtifact` where the scheme signs the artifact itself and its bytes aren't kept; where a digest that is
/// needed can't be had, `UnsupportedArtifact` if one was handed in and else `Crypto`.
#[tactic(auto, unfolding(crate::specs::Judged::prepared_of), using(crate::proofs::FirstChecks::signed_passes))]
pub(crate) fn prepare<'a>(
    alloc: Global,
    handed: ArtifactInput,
    policy: PolicyKind<'a>,
    bundle: &'a Bundle,
) -> Result<Ready<'a>, Error>
    ensures bundle { IfOk result (λ ready. bundle_in ready ≡ bundle.now) }
    ensures ok { IfOk result (λ ready. prepared_of (kind_in handed) (meaning_of policy.entry) bundle.now ≡ Ok (ready_as ready)) }
    ensures err { IfErr result (λ e. e ≢ Error.NoMemory → prepared_of (kind_in handed) (meaning_of policy.entry) bundle.now ≡ Err e) }
    ensures memory { IfErr result (λ e. e ≡ Error.NoMemory → first_checks_of (meaning_of policy.entry) bundle.now ≡ Ok tt) }
{
    let signer = who_signed(alloc, policy, bundle)?;
    match key_and_claim(alloc, handed, &signer, bundle) {
        Ok((key, claim, needed)) => Ok(Ready {
            bundle,
            signer,
            key,
            claim,
            needed,
        }),
        Err(e) => {
            drop(signer);
            Err(e)
        }
    }
}

// Under a managed key the log vouches, where the policy verifies it, and the tokens tell when.
#[tactic(auto, unfolding(crate::specs::Judged::managed_vouched_of))]
fn managed_vouched<C: CryptoProvider, M: Armor>(
    alloc: Global,
    grounds: &Grounds<'_, C, M>,
    signer: &Signing<'_>,
    policy: &PublicKeyVerificationPolicy,
    bundle: &Bundle,
) -> Result<Evidence, Error>
    requires same { signer_as signer.now ≡ Managed policy.now }
    ensures ok { IfOk result (λ evidence. managed_vouched_of (grounds_by C.CryptoProvider M.Armor grounds.now) policy.now bundle.now ≡ Ok evidence) }
    ensures err { IfErr result (λ e. e ≢ Error.NoMemory → managed_vouched_of (grounds_by C.CryptoProvider M.Armor grounds.now) policy.now bundle.now ≡ Err e) }
{
    let entries = bundle.verification_material.tlog_entries.as_slice();
    let logged = check_log(alloc, grounds, signer, policy.verify_tlog, entries)?;
    check_log_count(policy.verify_tlog, policy.logs, logged.count)?;
    let integrated_time = earliest(logged.times.as_slice());
    let tokens = bundle.verification_material.rfc3161_timestamps.as_slice();
    let stamped = check_tokens(alloc, grounds, signature_in(&bundle.content), tokens)?;
    let times = joined(logged.times, stamped.times.as_slice())?;
    let parties = count_parties(alloc, stamped.authorities, policy.verify_tlog, entries)?;
    Ok(Evidence {
        integrated_time,
        times,
        sct_count: 0,
        log_count: logged.count,
        parties,
    })
}

// How many certificate logs saw the certificate, where it is valid at the verified times and names whom it has to.
fn check_certificate<C: CryptoProvider, M: Armor>(
    alloc: Global,
    grounds: &Grounds<'_, C, M>,
    owner: &Owner<'_>,
    bundle: &Bundle,
    times: &[Timestamp],
) -> Result<u64, Error>
    ensures ok { IfOk result (λ scts. by_certificate (certified_of (trust_in (grounds_by C.CryptoProvider M.Armor grounds.now))
        owner.now.policy.now owner.now.info owner.now.certificate.now (intermediates_in bundle.now) times.now) ≡ Ok scts) }
    ensures err { IfErr result (λ e. e ≢ Error.NoMemory → by_certificate (certified_of (trust_in (grounds_by C.CryptoProvider M.Armor grounds.now))
        owner.now.policy.now owner.now.info owner.now.certificate.now (intermediates_in bundle.now) times.now) ≡ Err e) }
{
    let authorities = TrustedAuthorities {
        anchors: grounds.material.anchors.as_slice(),
        ct_logs: &grounds.material.ct_logs,
    };
    let presented = Presented {
        info: &owner.info,
        leaf: owner.certificate,
        intermediates: bundle.intermediates(),
    };
    match judge_certificate(
        alloc,
        grounds.provider,
        &authorities,
        owner.policy,
        &presented,
        times,
    ) {
        Ok(scts) => Ok(scts),
        Err(fault) => Err(uncertified(fault)),
    }
}

// Under a certificate: the verified times, the certificate at each of them with whom it names, and the log, where the
// policy verifies it.
#[tactic(auto, unfolding(crate::specs::Judged::owner_vouched_of))]
fn owner_vouched<C: CryptoProvider, M: Armor>(
    alloc: Global,
    grounds: &Grounds<'_, C, M>,
    signer: &Signing<'_>,
    owner: &Owner<'_>,
    bundle: &Bundle,
) -> Result<Evidence, Error>
    requires same { signer_as signer.now ≡ Certified owner.now.policy.now owner.now.info owner.now.certificate.now }
    ensures ok { IfOk result (λ evidence.
        owner_vouched_of (grounds_by C.CryptoProvider M.Armor grounds.now) owner.now.policy.now owner.now.info owner.now.certificate.now bundle.now
        ≡ Ok evidence) }
    ensures err { IfErr result (λ e. e ≢ Error.NoMemory →
        owner_vouched_of (grounds_by C.CryptoProvider M.Armor grounds.now) owner.now.policy.now owner.now.info owner.now.certificate.now bundle.now
        ≡ Err e) }
{
    let policy = owner.policy;
    let TimeEvidence { times, authorities } = verified_times(alloc, grounds, bundle)?;
    let sct_count = check_certificate(alloc, grounds, owner, bundle, times.as_slice())?;
    let entries = bundle.verification_material.tlog_entries.as_slice();
    let logged = check_log(alloc, grounds, signer, policy.verify_tlog, entries)?;
    check_log_count(policy.verify_tlog, policy.logs, logged.count)?;
    let integrated_time = earliest(logged.times.as_slice());
    let parties = count_parties(alloc, authorities, true, entries)?;
    Ok(Evidence {
        integrated_time,
        times,
        sct_count,
        log_count: logged.count,
        parties,
    })
}

// What vouches for the signer.
fn vouched<C: CryptoProvider, M: Armor>(
    alloc: Global,
    grounds: &Grounds<'_, C, M>,
    signer: &Signing<'_>,
    bundle: &Bundle,
) -> Result<Evidence, Error>
    ensures ok { IfOk result (λ evidence. vouched_of (grounds_by C.CryptoProvider M.Armor grounds.now) (signer_as signer.now) bundle.now ≡ Ok evidence) }
    ensures err { IfErr result (λ e. e ≢ Error.NoMemory → vouched_of (grounds_by C.CryptoProvider M.Armor grounds.now) (signer_as signer.now) bundle.now
        ≡ Err e) }
{
    match signer {
        Signing::Managed(policy) => managed_vouched(alloc, grounds, signer, policy, bundle),
        Signing::Certified(owner) => owner_vouched(alloc, grounds, signer, owner, bundle),
    }
}

// What was found of a bundle that is to be accepted.
#[tactic(auto, unfolding(crate::specs::Judged::judged_had))]
fn accepted<C: CryptoProvider, M: Armor>(
    alloc: Global,
    grounds: &Grounds<'_, C, M>,
    ready: &Ready<'_>,
    had: &KnownArtifact<'_>,
) -> Result<Evidence, Error>
    ensures ok { IfOk result (λ evidence.
        judged_had (grounds_by C.CryptoProvider M.Armor grounds.now) (ready_as ready.now) (bundle_in ready.now) (digest_had had.now) (bytes_had had.now)
        ≡ Ok (report_of (signer_as ready.now.signer) evidence)) }
    ensures err { IfErr result (λ e. e ≢ Error.NoMemory →
        judged_had (grounds_by C.CryptoProvider M.Armor grounds.now) (ready_as ready.now) (bundle_in ready.now) (digest_had had.now) (bytes_had had.now)
        ≡ Err e) }
{
    let bundle = ready.bundle;
    let evidence = vouched(alloc, grounds, &ready.signer, bundle)?;
    let opened = open_content(alloc, &bundle.content)?;
    judge_content(grounds.provider, &ready.key, &opened, &ready.claim, had)?;
    check_described(alloc, grounds, &ready.signer, bundle, &opened, had)?;
    check_conditions(alloc, ready.signer.conditions(), &ready.claim, &evidence)?;
    Ok(evidence)
}

/// The judgement of what was prepared over what is had of the artifact. The log comes first: what was never logged
/// isn't worth a look at its signature. Errors, in order: where the policy verifies the log, `TransparencyLog` for the
/// first entry that isn't logged, and `TooFewLogs`; `Timestamp` for the first token that is no trusted authority's; those
/// of `judge_content`; those of `check_described` for the first entry that isn't of this bundle; those of
/// `check_conditions`. Under a certificate those of `verified_times`, of `judge_certificate`, of `check_log` and of
/// `check_log_count` come first.
pub(crate) fn judge<C: CryptoProvider, M: Armor>(
    alloc: Global,
    grounds: &Grounds<'_, C, M>,
    ready: Ready<'_>,
    had: &KnownArtifact<'_>,
) -> Result<VerificationResult, Error>
    ensures ok { IfOk result (λ report.
        judged_had (grounds_by C.CryptoProvider M.Armor grounds.now) (ready_as ready.entry) (bundle_in ready.entry) (digest_had had.now) (bytes_had had.now)
        ≡ Ok report) }
    ensures err { IfErr result (λ e. e ≢ Error.NoMemory →
        judged_had (grounds_by C.CryptoProvider M.Armor grounds.now) (ready_as ready.entry) (bundle_in ready.entry) (digest_had had.now) (bytes_had had.now)
        ≡ Err e) }
{
    match accepted(alloc, grounds, &ready, had) {
        Ok(evidence) => Ok(report(ready.signer, evidence)),
        Err(e) => {
            drop(ready);
            Err(e)
        }
    }
}
