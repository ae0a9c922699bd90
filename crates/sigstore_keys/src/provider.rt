// Who judges signatures; handed in.
ghost use Rattle.std.specs.Prelude.{◌≡◌, List, ℕ, Bool, IsTrue, Some, length, true};
ghost use Rattle.sigstore_keys.specs.declared.scheme.SigningScheme.{SigningScheme};
ghost use Rattle.sigstore_keys.specs.Scheme.{has_digest, digest_size_of};
ghost use Rattle.sigstore_keys.specs.Good.{subject_of};

use crate::scheme::SigningScheme;

/// Judges signatures by one relation of scheme, raw key, subject and signature. The subject is the
/// message's digest where the scheme has one, and else the message.
pub trait CryptoProvider {
    ghost accepts: { Self → SigningScheme → List ℕ → List ℕ → List ℕ → Bool };

    /// Whether the signature of a message is accepted.
    fn verify_raw(
        &self,
        scheme: SigningScheme,
        key: &[u8],
        message: &[u8],
        signature: &[u8],
    ) -> bool
        ensures { result ≡ accepts self.now scheme key.now (subject_of scheme message.now) signature.now };

    /// Whether the signature of a message with that digest is accepted.
    fn verify_prehashed(
        &self,
        scheme: SigningScheme,
        key: &[u8],
        digest: &[u8],
        signature: &[u8],
    ) -> bool
        requires has_digest { IsTrue (has_digest scheme) }
        requires size { length digest.now ≡ digest_size_of scheme }
        ensures { result ≡ accepts self.now scheme key.now digest.now signature.now };
}

/// Under a scheme with a digest every provider answers a message as it answers its digest.
pub fn answers_alike<C: CryptoProvider>(
    provider: &C,
    scheme: SigningScheme,
    key: &[u8],
    message: &[u8],
    digest: &[u8],
    signature: &[u8],
) -> bool
    requires has_digest { IsTrue (has_digest scheme) }
    requires digest { digest.now ≡ subject_of scheme message.now }
    ensures { result ≡ true }
{
    provider.verify_raw(scheme, key, message, signature)
        == provider.verify_prehashed(scheme, key, digest, signature)
}
