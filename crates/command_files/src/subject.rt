// What a signature is judged over.
ghost use Rattle.std.specs.Prelude.{◌≡◌};
ghost use Rattle.sigstore_keys.specs.Good.{subject_of};
ghost use Rattle.command_files.specs.Subject.{octets_of};

use sigstore_keys::{SigningScheme, sha256, sha384, sha512};
use sigstore_types_parts::{HashAlgorithm, Sha256Hash, Sha384Hash, Sha512Hash};

/// What a signature of a message is judged over: the one digest that its scheme has; else the message.
#[derive(Drop)]
pub enum Subject<'m> {
    Sha256(Sha256Hash),
    Sha384(Sha384Hash),
    Sha512(Sha512Hash),
    Message(&'m [u8]),
}

impl<'m> Subject<'m> {
    /// What a signature of this message is judged over under a scheme.
    pub fn new(scheme: SigningScheme, message: &'m [u8]) -> Subject<'m>
        ensures { octets_of result ≡ subject_of scheme message.now }
    {
        match scheme.hash_algorithm() {
            Some(HashAlgorithm::Sha2256) => Subject::Sha256(sha256(message)),
            Some(HashAlgorithm::Sha2384) => Subject::Sha384(sha384(message)),
            Some(_) => Subject::Sha512(sha512(message)),
            None => Subject::Message(message),
        }
    }

    /// Its octets.
    pub fn as_bytes(&self) -> &[u8]
        ensures { result.now ≡ octets_of self.now }
    {
        match self {
            Subject::Sha256(digest) => digest.as_bytes(),
            Subject::Sha384(digest) => digest.as_bytes(),
            Subject::Sha512(digest) => digest.as_bytes(),
            Subject::Message(message) => message,
        }
    }
}
