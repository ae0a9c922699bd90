// The verification of a bundle over an artifact.
ghost use Rattle.std.specs.Prelude.{◌≡◌, ◌≢◌, Ok, Err, IfOk, IfErr};
ghost use Rattle.sigstore_keys.specs.Crypto.{crypto_with};
ghost use Rattle.sigstore_judgement.specs.Artifact.{Blob, Digest, artifact_of};
ghost use Rattle.sigstore_judgement.specs.Grounds.{grounds_by, grounds_at, terms_over, terms_for};
ghost use Rattle.sigstore_policy.specs.Policy.{meaning_of};
ghost use Rattle.sigstore_judgement.specs.Trust.{material_of};
ghost use Rattle.sigstore_judgement.specs.Promise.{Verifies, VerifiesKept, VerifiesHanded, VerifiesUnder};

use crate::artifact::{ArtifactInput, KnownArtifact};
use crate::asked::Case;
use crate::error::Error;
use crate::grounds::Grounds;
use crate::judge::{judge, prepare};
use crate::report::{JudgedBundle, VerificationResult};
use crate::taking::{digests_in, read_digests};
use crate::trust::{Material, material_in};
use jiff::Timestamp;
use sigstore_keys::{ArtifactSource, CryptoProvider, Providers};
use sigstore_policy::{Policy, PolicyKind};
use sigstore_types::{Bundle, TrustedRoot};
use sigstore_types_parts::{Armor, Artifact, ArtifactDigest};
use std::alloc::Global;
use std::slice;

// An artifact that is read.
fn judge_read<C: CryptoProvider, M: Armor, A: ArtifactSource>(
    alloc: Global,
    grounds: &Grounds<'_, C, M>,
    source: &mut A,
    max: u64,
    policy: PolicyKind<'_>,
    bundle: &Bundle,
) -> Result<JudgedBundle, Error>
    ensures { VerifiesKept (terms_over (grounds_by C.CryptoProvider M.Armor grounds.now) (meaning_of policy.entry)) bundle.now
        (A.seen source.old) (A.seen source.new) max result }
{
    match prepare(alloc, ArtifactInput::Read, policy, bundle) {
        Ok(ready) => match read_digests(alloc, source, max, ready.needed.as_slice()) {
            Ok(digests) => {
                let had = KnownArtifact {
                    digests: digests.as_slice(),
                    bytes: None,
                };
                match judge(alloc, grounds, ready, &had) {
                    Ok(result) => Ok(JudgedBundle { result, digests }),
                    Err(e) => Err(e),
                }
            }
            Err(e) => {
                drop(ready);
                Err(e)
            }
        },
        Err(e) => Err(e),
    }
}

// An artifact of which all bytes are handed in.
fn judge_blob<C: CryptoProvider, M: Armor>(
    alloc: Global,
    grounds: &Grounds<'_, C, M>,
    bytes: &[u8],
    policy: PolicyKind<'_>,
    bundle: &Bundle,
) -> Result<VerificationResult, Error>
    ensures { VerifiesHanded (terms_over (grounds_by C.CryptoProvider M.Armor grounds.now) (meaning_of policy.entry)) bundle.now (Blob bytes.now) result }
{
    match prepare(alloc, ArtifactInput::Blob, policy, bundle) {
        Ok(ready) => match digests_in(alloc, bytes, ready.needed.as_slice()) {
            Ok(digests) => {
                let had = KnownArtifact {
                    digests: digests.as_slice(),
                    bytes: Some(bytes),
                };
                judge(alloc, grounds, ready, &had)
            }
            Err(e) => {
                drop(ready);
                Err(e)
            }
        },
        Err(e) => Err(e),
    }
}

// An artifact of which one digest is handed in.
fn judge_digest<C: CryptoProvider, M: Armor>(
    alloc: Global,
    grounds: &Grounds<'_, C, M>,
    digest: &ArtifactDigest,
    policy: PolicyKind<'_>,
    bundle: &Bundle,
) -> Result<VerificationResult, Error>
    ensures { VerifiesHanded (terms_over (grounds_by C.CryptoProvider M.Armor grounds.now) (meaning_of policy.entry)) bundle.now
        (Digest digest.now.0 digest.now.1) result }
{
    match prepare(
        alloc,
        ArtifactInput::Digest(digest.algorithm()),
        policy,
        bundle,
    ) {
        Ok(ready) => {
            let had = KnownArtifact {
                digests: slice::from_ref(digest),
                bytes: None,
            };
            judge(alloc, grounds, ready, &had)
        }
        Err(e) => Err(e),
    }
}

/// Verifies bundles by a provider, an armour and a trust file.
#[derive(Drop)]
pub struct Verifier<'p, C: CryptoProvider, M: Armor> {
    provider: &'p C,
    armor: &'p M,
    material: Material,
}

impl<'p, C: CryptoProvider, M: Armor> Verifier<'p, C, M> {
    /// A verifier over a trust file. Errors, in order: for each log of entries and then of certificates
    /// `InvalidTrustRoot` for a reversed window, `Types` for an id that isn't of 32 bytes, `InvalidTrustRoot`
    /// for an id that an earlier one has, `Crypto` for its key; for each certificate authority and then
    /// time-stamp authority `InvalidTrustRoot` for a reversed window and for an empty chain,
    /// `TrustedCertificate` for a certificate that isn't read or has name constraints.
    pub fn new(
        alloc: Global,
        provider: &'p C,
        armor: &'p M,
        trusted_root: &TrustedRoot,
    ) -> Result<Verifier<'p, C, M>, Error>
        ensures provider { IfOk result (λ verifier. verifier.provider.now ≡ provider.now) }
        ensures armor { IfOk result (λ verifier. verifier.armor.now ≡ armor.now) }
        ensures kept { IfOk result (λ verifier. material_of trusted_root.now ≡ Ok verifier.material) }
        ensures err { IfErr result (λ e. e ≢ Error.NoMemory → material_of trusted_root.now ≡ Err e) }
    {
        let material = material_in(alloc, trusted_root)?;
        Ok(Verifier {
            provider,
            armor,
            material,
        })
    }

    // What a bundle is judged by at a moment.
    pub(crate) fn grounds(&self, now: Timestamp) -> Grounds<'_, C, M>
        ensures { grounds_by C.CryptoProvider M.Armor result ≡ grounds_at C.CryptoProvider M.Armor self.now now }
    {
        Grounds {
            provider: self.provider,
            armor: self.armor,
            material: &self.material,
            moment: now,
        }
    }

    /// Verifies the bundle over an artifact that is handed in. Errors, in order: under a key `UnsupportedBundle` for a
    /// bundle of certificates; `Bundle`; under a policy for certificates `InvalidBundle` for a bundle without one,
    /// `Certificate` for one that isn't read; `Crypto` for the signer's key and its scheme; of an envelope
    /// `UnsupportedBundle` for its payload's type, `InvalidBundle` for its statement, `UnsupportedBundle` where no
    /// subject tells a digest that can be had; `UnsupportedArtifact` where the scheme signs a message's bytes themselves
    /// or a digest that is needed wasn't handed in, `Crypto` where one has no hasher. Then under a key, where the policy
    /// verifies the log, `TransparencyLog` for the first entry that isn't logged; `Timestamp` for the first token that
    /// isn't an authority's. Under a policy for certificates `Timestamp` for the first such token; `TransparencyLog` for
    /// the first promise that tells a time and isn't its log's; `Timestamp` with `NoVerifiedTimestamp`; those of
    /// `judge_certificate` over the verified times; where the policy verifies the log, `TransparencyLog` for the first
    /// entry that isn't logged, or not at a time of the certificate. Then `ArtifactMismatch`, `SignatureInvalid`, of an
    /// envelope in the other order; for the first entry that is of another signature `UnsupportedBundle`,
    /// `TransparencyLog` with `MalformedEntry`, `EntryMismatch` or `IntegratedTime`, or `ArtifactMismatch`.
    pub fn verify<P: Policy>(
        &self,
        alloc: Global,
        artifact: Artifact<'_>,
        case: &Case<'_, P>,
    ) -> Result<VerificationResult, Error>
        ensures { VerifiesHanded (terms_for C.CryptoProvider M.Armor P.Policy self.now case.now) case.now.bundle.now (artifact_of artifact.entry) result }
    {
        let grounds = self.grounds(case.moment);
        match artifact {
            Artifact::Blob(bytes) => {
                judge_blob(alloc, &grounds, bytes, case.policy.kind(), case.bundle)
            }
            Artifact::Digest(digest) => {
                judge_digest(alloc, &grounds, &digest, case.policy.kind(), case.bundle)
            }
        }
    }

    /// Reads the artifact to its end and verifies the bundle over it; gives also the digests that were
    /// needed, in their order. Errors, in order: those of `verify` up to the hashers; `ArtifactRead`; the others of
    /// `verify`.
    pub fn verify_reader_kept<A: ArtifactSource, P: Policy>(
        &self,
        alloc: Global,
        source: &mut A,
        max: u64,
        case: &Case<'_, P>,
    ) -> Result<JudgedBundle, Error>
        ensures { VerifiesKept (terms_for C.CryptoProvider M.Armor P.Policy self.now case.now) case.now.bundle.now
            (A.seen source.old) (A.seen source.new) max result }
    {
        let grounds = self.grounds(case.moment);
        judge_read(
            alloc,
            &grounds,
            source,
            max,
            case.policy.kind(),
            case.bundle,
        )
    }

    /// Reads the artifact to its end and verifies the bundle over it. Errors as `verify_reader_kept`.
    pub fn verify_reader<A: ArtifactSource, P: Policy>(
        &self,
        alloc: Global,
        source: &mut A,
        max: u64,
        case: &Case<'_, P>,
    ) -> Result<VerificationResult, Error>
        ensures { Verifies (terms_for C.CryptoProvider M.Armor P.Policy self.now case.now) case.now.bundle.now
            (A.seen source.old) (A.seen source.new) max result }
    {
        let kept = self.verify_reader_kept(alloc, source, max, case)?;
        Ok(kept.result)
    }
}

/// Verifies a bundle over an artifact by a verifier that is made for it. Errors are those of
/// `Verifier::new`, then those of `Verifier::verify`.
pub fn verify<P: Policy, C: CryptoProvider, M: Armor>(
    alloc: Global,
    providers: &Providers<'_, C, M>,
    trusted_root: &TrustedRoot,
    artifact: Artifact<'_>,
    case: &Case<'_, P>,
) -> Result<VerificationResult, Error>
    ensures { VerifiesUnder (crypto_with C.CryptoProvider M.Armor providers.now) case.now.moment (P.meant case.now.policy.now) trusted_root.now
        case.now.bundle.now (artifact_of artifact.entry) result }
{
    let verifier = Verifier::new(alloc, providers.provider, providers.armor, trusted_root)?;
    Ok(verifier.verify(alloc, artifact, case)?)
}
