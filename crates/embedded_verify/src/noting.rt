// A provider that knows some answers, and notes the questions whose answer it doesn't know.
ghost use Rattle.std.specs.Prelude.{◌≡◌, ◌&&◌, not};
ghost use Rattle.command_files.specs.Rows.{accepts_of, is_subject};

use command_files::{AcceptRow, Subject, TableProvider, is_subject};
use foundation::NoMemory;
use sigstore_keys::{CryptoProvider, SigningScheme};
use sigstore_types_parts::Bytes;
use std::alloc::Global;
use std::cell::RefCell;

/// The signatures that were asked for and of which nothing is known, in their order; none once memory was wanting at
/// one. No contract sees what is noted here.
#[derive(Drop)]
pub struct Unknown {
    alloc: Global,
    rows: RefCell<Option<Vec<AcceptRow>>>,
}

fn row(
    alloc: Global,
    scheme: SigningScheme,
    key: &[u8],
    subject: &[u8],
    signature: &[u8],
) -> Result<AcceptRow, NoMemory> {
    Ok(AcceptRow {
        scheme,
        key: Bytes::new(alloc, key)?,
        subject: Bytes::new(alloc, subject)?,
        signature: Bytes::new(alloc, signature)?,
    })
}

// The rows with one more; none where memory is wanting.
fn with_row(mut rows: Vec<AcceptRow>, row: AcceptRow) -> Option<Vec<AcceptRow>> {
    match rows.push(row) {
        Ok(()) => Some(rows),
        Err(_) => None,
    }
}

impl Unknown {
    /// Nothing was asked.
    pub fn new(alloc: Global) -> Unknown {
        Unknown {
            alloc,
            rows: RefCell::new(Some(Vec::new(alloc))),
        }
    }

    fn take(&self) -> Option<Vec<AcceptRow>> {
        match self.rows.try_replace(None) {
            Ok(rows) => rows,
            Err(_) => None,
        }
    }

    fn note(&self, scheme: SigningScheme, key: &[u8], subject: &[u8], signature: &[u8]) {
        if let Some(rows) = self.take() {
            if let Ok(row) = row(self.alloc, scheme, key, subject, signature) {
                let _ = self.rows.try_replace(with_row(rows, row));
            }
        }
    }

    /// What was noted; none where memory was wanting at a question.
    pub fn into_rows(self) -> Option<Vec<AcceptRow>> {
        let Unknown { rows, .. } = self;
        rows.into_inner()
    }
}

/// Refuses the signatures of which it is known that they aren't good, and accepts every other one that a row can have;
/// notes those of which nothing is known. What is judged by it alone is no verdict.
#[derive(Drop)]
pub struct NotingProvider<'a> {
    pub unknown: &'a Unknown,
    pub good: &'a TableProvider,
    pub bad: &'a TableProvider,
}

impl NotingProvider<'_> {
    fn answer(&self, scheme: SigningScheme, key: &[u8], subject: &[u8], signature: &[u8]) -> bool
        ensures { result ≡ (is_subject scheme subject.now && not (accepts_of self.now.bad.now.rows scheme key.now subject.now signature.now)) }
    {
        if !is_subject(scheme, subject) || self.bad.accepts(scheme, key, subject, signature) {
            return false;
        }
        if !self.good.accepts(scheme, key, subject, signature) {
            self.unknown.note(scheme, key, subject, signature);
        }
        true
    }
}

impl CryptoProvider for NotingProvider<'_> {
    ghost accepts = { λ p scheme key subject signature. is_subject scheme subject && not (accepts_of p.bad.now.rows scheme key subject signature) };

    fn verify_raw(
        &self,
        scheme: SigningScheme,
        key: &[u8],
        message: &[u8],
        signature: &[u8],
    ) -> bool {
        let subject = Subject::new(scheme, message);
        self.answer(scheme, key, subject.as_bytes(), signature)
    }

    fn verify_prehashed(
        &self,
        scheme: SigningScheme,
        key: &[u8],
        digest: &[u8],
        signature: &[u8],
    ) -> bool {
        self.answer(scheme, key, digest, signature)
    }
}
