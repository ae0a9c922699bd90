//! A caller of `sigstore_judgement`.
use jiff::Timestamp;
use sigstore_judgement::{Case, Error, Policy, VerificationResult, Verifier, read_trust};
use sigstore_keys::CryptoProvider;
use sigstore_types::Bundle;
use sigstore_types_parts::{Armor, Artifact, TypesError};
use std::alloc::Global;

/// A verifier under a trust file; it serves for any number of bundles.
pub fn verifier_of<'p, C: CryptoProvider, M: Armor>(
    alloc: Global,
    provider: &'p C,
    armor: &'p M,
    trust_file: &[u8],
) -> Result<Verifier<'p, C, M>, Error> {
    match read_trust(alloc, trust_file) {
        Ok(trusted) => Verifier::new(alloc, provider, armor, &trusted),
        Err(fault) => Err(fault),
    }
}

/// Judges a bundle over an artifact that is in memory, under a key or under a policy for certificates.
pub fn check_release<C: CryptoProvider, M: Armor, P: Policy>(
    alloc: Global,
    verifier: &Verifier<'_, C, M>,
    policy: &P,
    bundle: &[u8],
    artifact: &[u8],
    now: Timestamp,
) -> Result<VerificationResult, Error> {
    match Bundle::from_json(alloc, bundle) {
        Ok(bundle) => {
            let case = Case {
                bundle: &bundle,
                policy,
                moment: now,
            };
            verifier.verify(alloc, Artifact::Blob(artifact), &case)
        }
        Err(TypesError::NoMemory) => Err(Error::NoMemory),
        Err(_) => Err(Error::InvalidBundle),
    }
}
