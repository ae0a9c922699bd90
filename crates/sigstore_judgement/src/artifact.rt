// An artifact as it is handed in, and what is had of it.
ghost use Rattle.std.specs.Prelude.{◌≡◌, ◌≢◌, find, option_copied, IfErr};
ghost use Rattle.std.specs.List.{list_all};
ghost use Rattle.sigstore_types_parts.specs.HashAlgorithm.{same_algorithm};
ghost use Rattle.sigstore_judgement.specs.Artifact.{kind_in, digest_among, has_each};
ghost use Rattle.sigstore_judgement.specs.Judged.{given_of};

use crate::error::Error;
use sigstore_keys::ArtifactHasher;
use sigstore_types_parts::{ArtifactDigest, HashAlgorithm};

/// How an artifact is handed in: all its bytes, through a reader, or one digest of it.
#[derive(Clone, Copy)]
pub(crate) enum ArtifactInput {
    Blob,
    Read,
    Digest(HashAlgorithm),
}

/// What is had of an artifact: digests of it, and its bytes where they are kept.
#[derive(Drop)]
pub(crate) struct KnownArtifact<'a> {
    pub(crate) digests: &'a [ArtifactDigest],
    pub(crate) bytes: Option<&'a [u8]>,
}

impl ArtifactInput {
    pub(crate) fn keeps_bytes(&self) -> bool
        ensures { result ≡ (kind_in self.now).keeps_bytes }
    {
        matches!(self, ArtifactInput::Blob)
    }

    // Whether the digest by an algorithm can be had.
    fn has(&self, algorithm: HashAlgorithm) -> bool
        ensures { result ≡ (kind_in self.now).has algorithm }
    {
        match self {
            ArtifactInput::Digest(given) => given.is_same(algorithm),
            _ => ArtifactHasher::is_known(algorithm),
        }
    }

    // The refusal where a digest that is needed can't be had.
    pub(crate) fn lacking(&self) -> Error
        ensures { result ≡ (kind_in self.now).lacking }
    {
        match self {
            ArtifactInput::Digest(_) => Error::UnsupportedArtifact,
            _ => Error::Crypto,
        }
    }
}

// Whether each digest that is needed can be had.
pub(crate) fn has_all(handed: ArtifactInput, needed: &[HashAlgorithm]) -> bool
    ensures { result ≡ list_all (kind_in handed).has needed.now }
{
    'each: for algorithm in needed {
        if !handed.has(*algorithm) {
            return false;
        }
    }
    true
}

// Whether each digest that is needed is among those that were taken.
fn has_each(needed: &[HashAlgorithm], digests: &[ArtifactDigest]) -> bool
    ensures { result ≡ has_each needed.now (digest_among digests.now) }
{
    'each: for algorithm in needed {
        if taken(digests, *algorithm).is_none() {
            return false;
        }
    }
    true
}

/// Each digest that is needed is among those that were taken. Else a check would have to be passed over.
pub(crate) fn check_given(needed: &[HashAlgorithm], digests: &[ArtifactDigest]) -> Result<(), Error>
    ensures exact { result ≡ given_of needed.now (digest_among digests.now) }
    ensures never { IfErr result (λ e. e ≢ Error.NoMemory) }
{
    if has_each(needed, digests) {
        Ok(())
    } else {
        Err(Error::UnsupportedArtifact)
    }
}

// The digest by an algorithm among those that were taken.
pub(crate) fn taken<'d>(
    digests: &'d [ArtifactDigest],
    algorithm: HashAlgorithm,
) -> Option<&'d ArtifactDigest>
    ensures { option_copied result ≡ find (λ taken. same_algorithm taken.0 algorithm) digests.now }
{
    digests
        .iter()
        .find(|taken| taken.algorithm().is_same(algorithm))
}
