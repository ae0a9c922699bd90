// The digests by which an artifact is told, among the words of a command.
ghost use Rattle.std.specs.Prelude.{◌≡◌, ◌≢◌, [], Ok, Err, IfOk, IfErr, OnOk, option_map};
ghost use Rattle.command_ways.specs.Digests.{behind, digest_of, told_at, told_by, is_told, told_with, told_from, plain_from, is_plain};

use command_files::UsageFault;
use foundation::{NoMemory, Sequence};
use hex::FromHexError;
use sigstore_types_parts::{ArtifactDigest, Bytes, HashAlgorithm, Text};
use std::alloc::Global;

// What stands behind a prefix.
#[tactic(auto, unfolding(crate::specs::Digests::behind))]
fn behind<'w>(prefix: &str, word: &'w [u8]) -> Option<&'w [u8]>
    ensures { option_map (λ rest. rest.now) result ≡ behind prefix.now word.now }
{
    word.strip_prefix(prefix.as_bytes())
}

// Whether a word isn't one of `--digest`.
fn is_plain(word: &[u8]) -> bool
    ensures { result ≡ is_plain word.now }
{
    behind("--digest=", word).is_none()
}

// A digest of an algorithm, from hexadecimal.
fn digest(
    alloc: Global,
    algorithm: HashAlgorithm,
    text: &[u8],
) -> Result<ArtifactDigest, UsageFault>
    ensures ok { IfOk result (λ d. digest_of algorithm text.now ≡ Ok d) }
    ensures err { IfErr result (λ e. e ≢ UsageFault.NoMemory → digest_of algorithm text.now ≡ Err e) }
{
    match hex::decode(alloc, text) {
        Ok(bytes) => match ArtifactDigest::new(algorithm, Bytes::from_vec(bytes)) {
            Ok(digest) => Ok(digest),
            Err(_) => Err(UsageFault::Usage),
        },
        Err(FromHexError::OutOfMemory) => Err(UsageFault::NoMemory),
        Err(_) => Err(UsageFault::Usage),
    }
}

// The digest that a word with this prefix tells.
#[tactic(auto, unfolding(crate::specs::Digests::told_at))]
fn told_at(
    alloc: Global,
    prefix: &str,
    algorithm: HashAlgorithm,
    word: &[u8],
) -> Result<Option<ArtifactDigest>, UsageFault>
    ensures ok { IfOk result (λ told. told_at prefix.now algorithm word.now ≡ Ok told) }
    ensures err { IfErr result (λ e. e ≢ UsageFault.NoMemory → told_at prefix.now algorithm word.now ≡ Err e) }
{
    match behind(prefix, word) {
        Some(text) => Ok(Some(digest(alloc, algorithm, text)?)),
        None => Ok(None),
    }
}

// The digest that a word tells, where it is one of `--digest`.
#[tactic(auto, unfolding(crate::specs::Digests::told_by))]
fn told_by(alloc: Global, word: &[u8]) -> Result<Option<ArtifactDigest>, UsageFault>
    ensures ok { IfOk result (λ told. told_by word.now ≡ Ok told) }
    ensures err { IfErr result (λ e. e ≢ UsageFault.NoMemory → told_by word.now ≡ Err e) }
{
    if let Some(digest) = told_at(alloc, "--digest=sha256:", HashAlgorithm::Sha2256, word)? {
        return Ok(Some(digest));
    }
    if let Some(digest) = told_at(alloc, "--digest=sha384:", HashAlgorithm::Sha2384, word)? {
        return Ok(Some(digest));
    }
    if let Some(digest) = told_at(alloc, "--digest=sha512:", HashAlgorithm::Sha2512, word)? {
        return Ok(Some(digest));
    }
    if is_plain(word) {
        return Ok(None);
    }
    Err(UsageFault::Usage)
}

fn is_told(algorithm: HashAlgorithm, told: &[ArtifactDigest]) -> bool
    ensures { result ≡ is_told algorithm told.now }
{
    for digest in told {
        if algorithm.is_same(digest.algorithm()) {
            return true;
        }
    }
    false
}

// Adds a digest, whose algorithm no earlier one has.
fn add(
    told: &mut Sequence<ArtifactDigest>,
    digest: Option<ArtifactDigest>,
) -> Result<(), UsageFault>
    ensures ok { OnOk result (told_with told.old digest ≡ Ok told.new) }
    ensures err { IfErr result (λ e. e ≢ UsageFault.NoMemory → told_with told.old digest ≡ Err e) }
{
    match digest {
        None => Ok(()),
        Some(digest) => {
            if is_told(digest.algorithm(), told.as_slice()) {
                drop(digest);
                return Err(UsageFault::Usage);
            }
            told.push(digest)?;
            Ok(())
        }
    }
}

/// The digests that words tell as `--digest=ALGORITHM:HEX`, each by another algorithm: sha256, sha384 or sha512. Errors:
/// `Usage` for such a word outside this form; `NoMemory`.
pub fn told_digests(alloc: Global, words: &[Text]) -> Result<Sequence<ArtifactDigest>, UsageFault>
    ensures ok { IfOk result (λ told. told_from [] words.now ≡ Ok told) }
    ensures err { IfErr result (λ e. e ≢ UsageFault.NoMemory → told_from [] words.now ≡ Err e) }
{
    let mut told = Sequence::new(alloc);
    'words: for word in words {
        let digest = told_by(alloc, word.as_str().as_bytes())?;
        add(&mut told, digest)?;
    }
    Ok(told)
}

/// The other words. Errors: `NoMemory`.
pub fn plain_words(alloc: Global, words: &[Text]) -> Result<Sequence<Text>, NoMemory>
    ensures { IfOk result (λ plain. plain ≡ plain_from [] words.now) }
{
    let mut plain = Sequence::new(alloc);
    'words: for word in words {
        if is_plain(word.as_str().as_bytes()) {
            plain.push(Text::new(alloc, word.as_str())?)?;
        }
    }
    Ok(plain)
}
