// What is searched for in a log.
ghost use Rattle.std.specs.Prelude.{◌≡◌, IfOk};
ghost use Rattle.sigstore_rekor.specs.declared.queries.SearchIndex.TheVariants.{ByHash, ByEmail};

use foundation::{Duplicate, NoMemory};
use sigstore_types_parts::{Sha256Hash, Text};
use std::alloc::Global;

/// What is searched for in the index of a log of Rekor's first version.
#[derive(Debug, PartialEq, Drop)]
pub enum SearchIndex {
    /// Entries of an artifact of this SHA-256 digest.
    ByHash(Sha256Hash),
    /// Entries of certificates with this email address.
    ByEmail(Text),
}

impl SearchIndex {
    /// A search for the entries of an artifact by its SHA-256 digest.
    pub fn sha256(alloc: Global, hash: &Sha256Hash) -> Result<SearchIndex, NoMemory>
        ensures { IfOk result (λ query. query ≡ ByHash hash.now) }
    {
        Ok(SearchIndex::ByHash(hash.duplicate(alloc)?))
    }

    /// A search for the entries of certificates with an email address; takes no memory.
    pub fn email(email: Text) -> SearchIndex
        ensures { result ≡ ByEmail email }
    {
        SearchIndex::ByEmail(email)
    }
}

impl Duplicate for SearchIndex {
    fn duplicate(&self, alloc: Global) -> Result<SearchIndex, NoMemory> {
        match self {
            SearchIndex::ByHash(hash) => Ok(SearchIndex::ByHash(hash.duplicate(alloc)?)),
            SearchIndex::ByEmail(email) => Ok(SearchIndex::ByEmail(email.duplicate(alloc)?)),
        }
    }
}
