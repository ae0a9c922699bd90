// A provider that notes.
ghost use Rattle.std.specs.Prelude.{◌≡◌, not};
ghost use Rattle.command_files.specs.Rows.{accepts_of};

use crate::notes::Notes;
use command_files::Subject;
use sigstore_keys::{CryptoProvider, SigningScheme};

/// Refuses the signatures of a table, which are known not to be good; accepts every other one and notes the
/// question: what is judged by it is no verdict.
#[derive(Drop)]
pub struct NotingProvider<'a> {
    notes: &'a Notes<'a>,
}

impl<'a> NotingProvider<'a> {
    /// A provider that notes here, and refuses the rows of the table that these notes leave out.
    pub fn new(notes: &'a Notes<'a>) -> NotingProvider<'a>
        ensures { result.notes.now ≡ notes.now }
    {
        NotingProvider { notes }
    }

    fn answer(&self, scheme: SigningScheme, key: &[u8], subject: &[u8], signature: &[u8]) -> bool
        ensures { result ≡ not (accepts_of self.now.notes.now.refused.now.rows scheme key.now subject.now signature.now) }
    {
        if self.notes.refuses(scheme, key, subject, signature) {
            return false;
        }
        self.notes.note_signature(scheme, key, subject, signature);
        true
    }
}

impl CryptoProvider for NotingProvider<'_> {
    ghost accepts = { λ p scheme key subject signature. not (accepts_of p.notes.now.refused.now.rows scheme key subject signature) };

    fn verify_raw(
        &self,
        scheme: SigningScheme,
        key: &[u8],
        message: &[u8],
        signature: &[u8],
    ) -> bool {
        let subject = Subject::new(scheme, message);
        self.answer(scheme, key, subject.as_bytes(), signature)
    }

    fn verify_prehashed(
        &self,
        scheme: SigningScheme,
        key: &[u8],
        digest: &[u8],
        signature: &[u8],
    ) -> bool {
        self.answer(scheme, key, digest, signature)
    }
}
