// Which file was asked for last.
use sigstore_tuf::{FetchFault, Repository};
use sigstore_types_parts::Bytes;
use std::alloc::Global;

/// A repository that keeps the name of the file that was asked for last. It answers as the one within.
#[derive(Drop)]
pub struct LastAsked<R: Repository> {
    inner: R,
    name: String,
}

impl<R: Repository> LastAsked<R> {
    /// This repository, of which nothing was asked yet.
    pub fn new(alloc: Global, inner: R) -> LastAsked<R> {
        LastAsked {
            inner,
            name: String::new(alloc),
        }
    }

    /// The name of the file that was asked for last; empty where none was, or where memory was wanting for it.
    pub fn name(&self) -> &str {
        self.name.as_str()
    }
}

// A copy of a name, or an empty text where memory is wanting.
fn copied(alloc: Global, name: &str) -> String {
    match String::from_str(alloc, name) {
        Ok(copy) => copy,
        Err(_) => String::new(alloc),
    }
}

impl<R: Repository> Repository for LastAsked<R> {
    ghost seen = { λ r. R.seen r.inner };

    fn fetch_metadata(
        &mut self,
        alloc: Global,
        name: &str,
        max: u64,
    ) -> Result<Option<Bytes>, FetchFault> {
        self.name = copied(alloc, name);
        self.inner.fetch_metadata(alloc, name, max)
    }

    fn fetch_target(
        &mut self,
        alloc: Global,
        path: &str,
        max: u64,
    ) -> Result<Option<Bytes>, FetchFault> {
        self.name = copied(alloc, path);
        self.inner.fetch_target(alloc, path, max)
    }
}
