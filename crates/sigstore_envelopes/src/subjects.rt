// Which digests the subjects of a statement tell.
ghost use Rattle.std.specs.Prelude.{◌≡◌, ◌++◌, OnOk, IfOk};
ghost use Rattle.std.specs.List.{list_any};
ghost use Rattle.sigstore_envelopes.specs.Statement.{tells_sha256, tells_sha512, where_told, algorithms_of};
ghost use Rattle.sigstore_envelopes.specs.Statement.{matches_sha256, matches_sha512, tells};

use crate::spelled::is_spelled;
use crate::statement::{Statement, Subject};
use foundation::{NoMemory, Sequence};
use sigstore_types_parts::{HashAlgorithm, Sha256Hash, Sha512Hash};
use std::alloc::Global;

fn any_sha256(subjects: &[Subject]) -> bool
    ensures { result ≡ list_any tells_sha256 subjects.now }
{
    subjects.iter().any(|subject| subject.sha256.is_some())
}

fn any_sha512(subjects: &[Subject]) -> bool
    ensures { result ≡ list_any tells_sha512 subjects.now }
{
    subjects.iter().any(|subject| subject.sha512.is_some())
}

// Adds an algorithm where a subject tells a digest of it.
fn add_told(
    list: &mut Sequence<HashAlgorithm>,
    algorithm: HashAlgorithm,
    told: bool,
) -> Result<(), NoMemory>
    ensures { OnOk result (list.new ≡ list.old ++ where_told algorithm told) }
{
    if told {
        list.push(algorithm)?;
    }
    Ok(())
}

fn matches_sha256(statement: &Statement, digest: &[u8]) -> bool
    ensures { result ≡ matches_sha256 statement.now digest.now }
{
    let subjects = statement.subjects.as_slice();
    subjects
        .iter()
        .any(|subject| is_spelled(&subject.sha256, digest))
}

fn matches_sha512(statement: &Statement, digest: &[u8]) -> bool
    ensures { result ≡ matches_sha512 statement.now digest.now }
{
    let subjects = statement.subjects.as_slice();
    subjects
        .iter()
        .any(|subject| is_spelled(&subject.sha512, digest))
}

impl Statement {
    /// The algorithms of which some subject tells a digest, `Sha2256` before `Sha2512`.
    pub fn subject_algorithms(&self, alloc: Global) -> Result<Sequence<HashAlgorithm>, NoMemory>
        ensures { IfOk result (λ list. list ≡ algorithms_of self.now) }
    {
        let subjects = self.subjects.as_slice();
        let mut list = Sequence::new(alloc);
        add_told(&mut list, HashAlgorithm::Sha2256, any_sha256(subjects))?;
        add_told(&mut list, HashAlgorithm::Sha2512, any_sha512(subjects))?;
        Ok(list)
    }

    /// Whether some subject's SHA-256 is this digest.
    pub fn matches_sha256(&self, digest: &Sha256Hash) -> bool
        ensures { result ≡ matches_sha256 self.now digest.now }
    {
        matches_sha256(self, digest.as_bytes())
    }

    /// Whether some subject's SHA-512 is this digest.
    pub fn matches_sha512(&self, digest: &Sha512Hash) -> bool
        ensures { result ≡ matches_sha512 self.now digest.now }
    {
        matches_sha512(self, digest.as_bytes())
    }

    /// Whether some subject tells these octets as its digest by the algorithm.
    pub fn tells(&self, algorithm: HashAlgorithm, digest: &[u8]) -> bool
        ensures { result ≡ tells self.now algorithm digest.now }
    {
        match algorithm {
            HashAlgorithm::Sha2256 => matches_sha256(self, digest),
            HashAlgorithm::Sha2512 => matches_sha512(self, digest),
            HashAlgorithm::Sha2384 | HashAlgorithm::Sha3256 | HashAlgorithm::Sha3384 => false,
        }
    }
}
