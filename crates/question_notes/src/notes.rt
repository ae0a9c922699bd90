// Where questions are noted behind a shared reference.
ghost use Rattle.std.specs.Prelude.{◌≡◌, Some, false};
ghost use Rattle.command_files.specs.Rows.{accepts_of};
ghost use Rattle.sigstore_pem.specs.Pem.{content_of, key_label, certificate_label};

use crate::noted::Noted;
use command_files::TableProvider;
use foundation::NoMemory;
use sigstore_keys::SigningScheme;
use std::alloc::Global;
use std::cell::RefCell;

/// The questions that were asked so far, but those that a table answers, as many as a provider file may be long; none
/// at all once memory was wanting at one. No contract sees what is noted here, but for what holds of every `Noted`.
#[derive(Drop)]
pub struct Notes<'a> {
    alloc: Global,
    refused: &'a TableProvider,
    held: RefCell<Option<Noted>>,
}

impl<'a> Notes<'a> {
    /// No questions; those of this table, whose signatures are refused, won't be noted.
    pub fn new(alloc: Global, refused: &'a TableProvider) -> Notes<'a>
        ensures { result.refused.now ≡ refused.now }
    {
        Notes {
            alloc,
            refused,
            held: RefCell::new(Some(Noted::new(alloc))),
        }
    }

    /// Whether the table has the question, so that its answer is known.
    pub fn refuses(
        &self,
        scheme: SigningScheme,
        key: &[u8],
        subject: &[u8],
        signature: &[u8],
    ) -> bool
        ensures { result ≡ accepts_of self.now.refused.now.rows scheme key.now subject.now signature.now }
    {
        self.refused.accepts(scheme, key, subject, signature)
    }

    fn take(&self) -> Option<Noted> {
        match self.held.try_replace(None) {
            Ok(held) => held,
            Err(_) => None,
        }
    }

    fn put(&self, noted: Result<Noted, NoMemory>) {
        if let Ok(noted) = noted {
            let _ = self.held.try_replace(Some(noted));
        }
    }

    /// Notes that an armoured text holds a key.
    pub fn note_key(&self, text: &[u8], der: &[u8])
        requires { content_of key_label text.now ≡ Some der.now }
    {
        if let Some(noted) = self.take() {
            self.put(noted.with_key(self.alloc, text, der));
        }
    }

    /// Notes that an armoured text holds a certificate.
    pub fn note_certificate(&self, text: &[u8], der: &[u8])
        requires { content_of certificate_label text.now ≡ Some der.now }
    {
        if let Some(noted) = self.take() {
            self.put(noted.with_certificate(self.alloc, text, der));
        }
    }

    /// Notes the question whether a signature is good, which the table doesn't answer.
    pub fn note_signature(
        &self,
        scheme: SigningScheme,
        key: &[u8],
        subject: &[u8],
        signature: &[u8],
    )
        requires { accepts_of self.now.refused.now.rows scheme key.now subject.now signature.now ≡ false }
    {
        if let Some(noted) = self.take() {
            self.put(noted.with_signature(self.alloc, scheme, key, subject, signature));
        }
    }

    /// What was noted; none where memory was wanting at a question.
    pub fn into_noted(self) -> Option<Noted> {
        let Notes { held, .. } = self;
        held.into_inner()
    }
}
