// The steps of a verification, for a caller that takes the digests of the artifact itself.
ghost use Rattle.std.specs.Prelude.{◌≡◌, ◌≢◌, Ok, Err, IfOk, IfErr};
ghost use Rattle.sigstore_judgement.specs.Artifact.{read_kind, digest_among};
ghost use Rattle.sigstore_judgement.specs.Grounds.{terms_by};
ghost use Rattle.sigstore_judgement.specs.Judged.{ready_as, bundle_in, prepared_of, given_of, judged_by};
ghost use Rattle.sigstore_policy.specs.Policy.{Meaning};
ghost use Rattle.sigstore_judgement.specs.Signer.{first_checks_of};

use crate::artifact::{ArtifactInput, KnownArtifact, check_given};
use crate::error::Error;
use crate::judge::{Ready, judge, prepare};
use crate::report::VerificationResult;
use crate::verifier::Verifier;
use jiff::Timestamp;
use sigstore_keys::CryptoProvider;
use sigstore_policy::Policy;
use sigstore_types::Bundle;
use sigstore_types_parts::{Armor, ArtifactDigest};
use std::alloc::Global;

/// The checks of a bundle over an artifact that is read, up to the reading. Errors are those of
/// `Verifier::verify_reader` up to the hashers.
pub fn prepare_reader<'a, P: Policy>(
    alloc: Global,
    bundle: &'a Bundle,
    policy: &'a P,
) -> Result<Ready<'a>, Error>
    ensures bundle { IfOk result (λ ready. bundle_in ready ≡ bundle.now) }
    ensures ok { IfOk result (λ ready. prepared_of read_kind (P.meant policy.now) bundle.now ≡ Ok (ready_as ready)) }
    ensures err { IfErr result (λ e. e ≢ Error.NoMemory → prepared_of read_kind (P.meant policy.now) bundle.now ≡ Err e) }
    ensures memory { IfErr result (λ e. e ≡ Error.NoMemory → first_checks_of (P.meant policy.now) bundle.now ≡ Ok tt) }
{
    prepare(alloc, ArtifactInput::Read, policy.kind(), bundle)
}

impl<'p, C: CryptoProvider, M: Armor> Verifier<'p, C, M> {
    /// The checks behind the reading of the artifact, of the bundle that was prepared, over digests of that artifact.
    /// Errors: `UnsupportedArtifact` where one that is needed isn't among them; those of `Verifier::verify` behind the
    /// hashers.
    pub fn judge_digests(
        &self,
        alloc: Global,
        ready: Ready<'_>,
        digests: &[ArtifactDigest],
        now: Timestamp,
    ) -> Result<VerificationResult, Error>
        ensures ok { (policy : Meaning) → IfOk result (λ report.
            judged_by (terms_by C.CryptoProvider M.Armor self.now policy now).grounds (ready_as ready.entry) (bundle_in ready.entry) (digest_among digests.now)
            ≡ Ok report) }
        ensures err { (policy : Meaning) → IfErr result (λ e. e ≢ Error.NoMemory →
            judged_by (terms_by C.CryptoProvider M.Armor self.now policy now).grounds (ready_as ready.entry) (bundle_in ready.entry) (digest_among digests.now)
            ≡ Err e) }
        ensures memory { IfErr result (λ e. e ≡ Error.NoMemory → given_of (ready_as ready.entry).needed (digest_among digests.now) ≡ Ok tt) }
    {
        match check_given(ready.needed.as_slice(), digests) {
            Ok(()) => {
                let had = KnownArtifact {
                    digests,
                    bytes: None,
                };
                judge(alloc, &self.grounds(now), ready, &had)
            }
            Err(e) => {
                drop(ready);
                Err(e)
            }
        }
    }
}
