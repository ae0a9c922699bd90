// The digests of an artifact of a folder.
ghost use Rattle.std.specs.Prelude.{◌≡◌, ℕ, true};
ghost use Rattle.std.specs.List.{list_all};
ghost use Rattle.foundation.specs.Watched.{Since};
ghost use Rattle.sigstore_keys.specs.Digest.{is_hashed};
ghost use Rattle.sigstore_judgement.specs.Taking.{Takes};
ghost use Rattle.release_gate.specs.Folder.{source_of};
ghost use Rattle.release_gate.specs.Given.{Digests};

use crate::folder::Folder;
use crate::hashing::hash_file;
use foundation::Sequence;
use sigstore_judgement::{Error, finalize_all, hashers_for};
use sigstore_types_parts::{ArtifactDigest, HashAlgorithm};
use std::alloc::Global;

/// Reads a file to its end, and gives its digests by these algorithms, in their order. Errors: `ArtifactRead`, `NoMemory`.
pub(crate) fn take_digests<D: Folder>(
    alloc: Global,
    folder: &mut D,
    name: &str,
    max: u64,
    algorithms: &[HashAlgorithm],
) -> Result<Sequence<ArtifactDigest>, Error>
    ensures since { Since (D.seen folder.old) (D.seen folder.new) }
    ensures takes { list_all is_hashed algorithms.now ≡ true → (count : ℕ)
        × Takes (source_of (D.seen folder.old) name.now 0) (source_of (D.seen folder.new) name.now count) max algorithms.now result }
    ensures digests { list_all is_hashed algorithms.now ≡ true → Digests D.gave name.now max algorithms.now folder.old folder.new result }
{
    let mut hashers = match hashers_for(alloc, algorithms) {
        Ok(hashers) => hashers,
        Err(e) => return Err(e),
    };
    match hash_file(folder, name, max, hashers.as_mut_slice()) {
        Ok(_) => match finalize_all(alloc, hashers) {
            Ok(digests) => Ok(digests),
            Err(e) => Err(e),
        },
        Err(fault) => Err(Error::ArtifactRead(fault)),
    }
}
