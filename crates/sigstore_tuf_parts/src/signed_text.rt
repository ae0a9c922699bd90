// A text, and what signatures of it are judged over.
ghost use Rattle.std.specs.Prelude.{◌≡◌, ◌++◌, ◌∷◌, codes, length, IsTrue};
ghost use Rattle.sha2.specs.Sha512.{sha512};
ghost use Rattle.sigstore_keys.specs.Good.{subject_of};
ghost use Rattle.sigstore_keys.specs.Scheme.{has_digest, digest_size_of};
ghost use Rattle.sigstore_tuf_parts.specs.Crypto.{signed_text};

use sigstore_keys::{HashedMessage, SigningScheme};
use std::marker::Model;

/// A text that was signed, with each of its digests and with what ML-DSA signs in its place: they are made
/// once, however many keys signed it. Contracts see the text.
#[derive(Drop)]
pub(crate) struct SignedText<'t> {
    text: HashedMessage<'t>,
    ml_dsa_message: [u8; 68],
}

impl<'t> Model for SignedText<'t> {
    ghost use Rattle.std.specs.Prelude.{◌≡◌, ◌++◌, ◌∷◌, codes, ℕ, List};
    ghost use Rattle.sha2.specs.Sha512.{sha512};

    ghost Value = { List ℕ };

    ghost view = { λ s. s.text };

    ghost invariant = { λ s. s.ml_dsa_message ≡ codes "tuf" ++ 1 ∷ sha512 s.text };
}

impl<'t> SignedText<'t> {
    /// The text with its digests.
    pub(crate) fn new(text: &'t [u8]) -> SignedText<'t>
        ensures { result ≡ text.now }
    {
        let text = HashedMessage::new(text);
        let ml_dsa_message = ml_dsa_message(&text);
        SignedText {
            text,
            ml_dsa_message,
        }
    }

    /// What a signature of the text is judged over under a scheme: a digest where the scheme has one.
    pub(crate) fn subject(&self, scheme: SigningScheme) -> &[u8]
        ensures exact { result.now ≡ subject_of scheme (signed_text scheme self.now) }
        ensures sized { IsTrue (has_digest scheme) → length result.now ≡ digest_size_of scheme }
    {
        match scheme {
            SigningScheme::MlDsa44 | SigningScheme::MlDsa65 | SigningScheme::MlDsa87 => {
                self.ml_dsa_message()
            }
            _ => self.text.subject(scheme),
        }
    }

    fn ml_dsa_message(&self) -> &[u8]
        ensures { result.now ≡ codes "tuf" ++ 1 ∷ sha512 self.now }
    {
        &self.ml_dsa_message
    }
}

// What ML-DSA signs in place of a text.
fn ml_dsa_message(text: &HashedMessage<'_>) -> [u8; 68]
    ensures { result ≡ codes "tuf" ++ 1 ∷ sha512 text.now }
{
    let mut message = [0u8; 68];
    let (prefix, rest) = message.split_at_mut(4);
    prefix.copy_from_slice(b"tuf\x01");
    rest.copy_from_slice(text.by_sha512());
    message
}
