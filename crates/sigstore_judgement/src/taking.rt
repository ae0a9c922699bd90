// The digests of an artifact, by all algorithms that are needed in one pass.
ghost use Rattle.std.specs.Prelude.{◌≡◌, true, [], IfOk, IfErr};
ghost use Rattle.std.specs.List.{list_all};
ghost use Rattle.sigstore_keys.specs.Digest.{is_hashed, digests_by};
ghost use Rattle.sigstore_judgement.specs.Taken.{AreOf, Finalized};
ghost use Rattle.sigstore_judgement.specs.Taking.{Unhashed, Takes};

use crate::artifact::{ArtifactInput, has_all};
use crate::error::Error;
use foundation::Sequence;
use sigstore_keys::{ArtifactHasher, ArtifactSource, HashUpdate, hash_reader};
use sigstore_types_parts::{ArtifactDigest, HashAlgorithm};
use std::alloc::Global;

/// A hasher for each algorithm, in their order, none of which has seen anything. Errors: `Crypto` where one is of SHA-3,
/// which has none, and else `NoMemory`.
pub fn hashers_for(
    alloc: Global,
    algorithms: &[HashAlgorithm],
) -> Result<Vec<ArtifactHasher>, Error>
    ensures ok { IfOk result (λ hashers. AreOf hashers.items algorithms.now []) }
    ensures err { IfErr result (Unhashed algorithms.now) }
{
    if !has_all(ArtifactInput::Read, algorithms) {
        return Err(Error::Crypto);
    }
    let mut hashers = Vec::new(alloc);
    'each: for algorithm in algorithms {
        let hasher = ArtifactHasher::new(*algorithm)?;
        if hashers.push(hasher).is_err() {
            return Err(Error::NoMemory);
        }
    }
    Ok(hashers)
}

/// The digests of hashers, in their order. Errors: `NoMemory`.
pub fn finalize_all(
    alloc: Global,
    hashers: Vec<ArtifactHasher>,
) -> Result<Sequence<ArtifactDigest>, Error>
    ensures ok { IfOk result (λ digests. Finalized hashers.items digests) }
    ensures err { IfErr result (λ e. e ≡ Error.NoMemory) }
{
    let mut digests = Sequence::new(alloc);
    'each: for hasher in hashers {
        digests.push(hasher.finalize(alloc)?)?;
    }
    Ok(digests)
}

/// Reads the artifact to its end, and gives its digests by these algorithms, in their order. Errors: `Crypto` where an
/// algorithm is of SHA-3, `ArtifactRead` where it can't be read to its end, `NoMemory`.
pub fn read_digests<A: ArtifactSource>(
    alloc: Global,
    source: &mut A,
    max: u64,
    algorithms: &[HashAlgorithm],
) -> Result<Sequence<ArtifactDigest>, Error>
    ensures { list_all is_hashed algorithms.now ≡ true → Takes (A.seen source.old) (A.seen source.new) max algorithms.now result }
{
    let mut hashers = hashers_for(alloc, algorithms)?;
    match hash_reader(source, max, hashers.as_mut_slice()) {
        Ok(_) => match finalize_all(alloc, hashers) {
            Ok(digests) => Ok(digests),
            Err(e) => Err(e),
        },
        Err(fault) => Err(Error::ArtifactRead(fault)),
    }
}

/// The digests of bytes by these algorithms, in their order.
pub(crate) fn digests_in(
    alloc: Global,
    bytes: &[u8],
    algorithms: &[HashAlgorithm],
) -> Result<Sequence<ArtifactDigest>, Error>
    ensures ok { list_all is_hashed algorithms.now ≡ true → IfOk result (λ digests. digests ≡ digests_by algorithms.now bytes.now) }
    ensures err { list_all is_hashed algorithms.now ≡ true → IfErr result (λ e. e ≡ Error.NoMemory) }
{
    let mut digests = Sequence::new(alloc);
    'each: for algorithm in algorithms {
        let mut hasher = ArtifactHasher::new(*algorithm)?;
        hasher.update(bytes);
        digests.push(hasher.finalize(alloc)?)?;
    }
    Ok(digests)
}
