// Which subject of a statement is the artifact.
ghost use Rattle.std.specs.Prelude.{◌≡◌, IfOk, find, option_copied};
ghost use Rattle.sigstore_types_parts.specs.HashAlgorithm.{same_algorithm};
ghost use Rattle.verification_details.specs.Subject.{digits_by, digits_of, is_spelled_so, is_artifact, artifact_among};

use crate::statement::NamedSubject;
use foundation::NoMemory;
use sigstore_types_parts::{ArtifactDigest, HashAlgorithm, Text};
use std::alloc::Global;

/// The judged digests in hexadecimal, as subjects tell theirs.
#[derive(Drop)]
pub struct Digits {
    pub sha256: Option<Text>,
    pub sha512: Option<Text>,
}

// The digest by an algorithm among those that were judged.
fn taken(digests: &[ArtifactDigest], algorithm: HashAlgorithm) -> Option<&ArtifactDigest>
    ensures { option_copied result ≡ find (λ taken. same_algorithm taken.0 algorithm) digests.now }
{
    digests
        .iter()
        .find(|taken| taken.algorithm().is_same(algorithm))
}

fn digits_by(
    alloc: Global,
    digests: &[ArtifactDigest],
    algorithm: HashAlgorithm,
) -> Result<Option<Text>, NoMemory>
    ensures { IfOk result (λ digits. digits ≡ digits_by digests.now algorithm) }
{
    match taken(digests, algorithm) {
        Some(digest) => Ok(Some(Text::from_string(hex::encode(alloc, digest.as_bytes())?))),
        None => Ok(None),
    }
}

/// The digits of the judged digests.
pub(crate) fn digits_of(alloc: Global, digests: &[ArtifactDigest]) -> Result<Digits, NoMemory>
    ensures { IfOk result (λ digits. digits ≡ digits_of digests.now) }
{
    Ok(Digits {
        sha256: digits_by(alloc, digests, HashAlgorithm::Sha2256)?,
        sha512: digits_by(alloc, digests, HashAlgorithm::Sha2512)?,
    })
}

// Both texts are there, and spell the same digest, in either case.
fn is_spelled_so(told: &Option<Text>, digits: &Option<Text>) -> bool
    ensures { result ≡ is_spelled_so told.now digits.now }
{
    match (told, digits) {
        (Some(told), Some(digits)) => told.as_str().eq_ignore_ascii_case(digits.as_str()),
        _ => false,
    }
}

fn is_artifact(digits: &Digits, named: &NamedSubject) -> bool
    ensures { result ≡ is_artifact digits.now named.now }
{
    is_spelled_so(&named.subject.sha256, &digits.sha256)
        || is_spelled_so(&named.subject.sha512, &digits.sha512)
}

/// The first subject that is the artifact.
pub(crate) fn artifact_among<'s>(
    digits: &Digits,
    subjects: &'s [NamedSubject],
) -> Option<&'s NamedSubject>
    ensures { option_copied result ≡ artifact_among digits.now subjects.now }
{
    subjects.iter().find(|named| is_artifact(digits, named))
}
