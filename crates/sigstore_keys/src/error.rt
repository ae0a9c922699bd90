// Why a key, a signature or a digest is refused.
ghost use Rattle.std.specs.Prelude.{◌≡◌};
ghost use Rattle.sigstore_keys.specs.Error.{number_of};
ghost use Rattle.sigstore_keys.specs.declared.error.Error.TheVariants.{NoMemory};

use foundation::NoMemory;
use std::{error, fmt};

/// Why a signature isn't good: the provider refuses it, the raw key fails its test, the digest has
/// another length than its scheme's, or no key is known.
#[derive(Clone, Copy, Debug, PartialEq, Eq, Drop)]
pub enum VerificationFault {
    /// The provider doesn't accept.
    Refused,
    /// The raw key fails its test.
    RawKey,
    /// The digest has another length than its scheme's.
    DigestLength,
    /// No key is known.
    NoKey,
}

/// Why a checkpoint's signatures show nothing: none has the key's hint, or all with it are refused.
#[derive(Clone, Copy, Debug, PartialEq, Eq, Drop)]
pub enum CheckpointFault {
    /// No signature has the key's hint.
    NoHint,
    /// Each signature with the key's hint is refused.
    Refused,
}

/// The part of a certificate that isn't read.
#[derive(Clone, Copy, Debug, PartialEq, Eq, Drop)]
pub enum CertificateFault {
    /// The certificate's DER.
    Der,
    /// Its subject alternative name.
    San,
    /// Its issuer of identities.
    Issuer,
}

/// The rule of keys that a key breaks.
#[derive(Clone, Copy, Debug, PartialEq, Eq, Drop)]
pub enum KeyRule {
    /// The raw key fails its test.
    RawKey,
    /// The bytes are no SubjectPublicKeyInfo (RFC 5280, section 4.1), or no RSA key where one is wanted.
    Encoding,
    /// The key's bit string has unused bits.
    UnusedBits,
    /// The algorithm's identifier with its parameters is of no known sort of key.
    Algorithm,
    /// The key isn't of the scheme's algorithm.
    Scheme,
}

/// Why a key, a signature or a digest is refused.
#[derive(Clone, Copy, Debug, PartialEq, Eq, Drop)]
pub enum Error {
    /// A signature can't be made.
    Signing,
    /// A signature isn't good.
    Verification(VerificationFault),
    /// A raw key is too long for the lengths of its SubjectPublicKeyInfo (`KeyPair::public_key_der`).
    InvalidKeyFormat,
    /// A sort of key and a digest algorithm have no scheme, a scheme has no digest, or an algorithm no hasher.
    UnsupportedAlgorithm,
    /// A checkpoint's signatures show nothing.
    Checkpoint(CheckpointFault),
    /// A certificate isn't read.
    InvalidCertificate(CertificateFault),
    /// A key isn't read, or fails its test.
    InvalidKey(KeyRule),
    /// An allocation was refused.
    NoMemory,
}

impl Error {
    /// The number of this refusal.
    pub fn number(&self) -> u8
        ensures { result ≡ number_of self.now }
    {
        match self {
            Error::Signing => 1,
            Error::Verification(_) => 2,
            Error::InvalidKeyFormat => 3,
            Error::UnsupportedAlgorithm => 4,
            Error::Checkpoint(_) => 5,
            Error::InvalidCertificate(_) => 6,
            Error::InvalidKey(_) => 7,
            Error::NoMemory => 8,
        }
    }
}

impl From<NoMemory> for Error {
    ghost from_gives = { λ _ e. e ≡ NoMemory };

    fn from(_: NoMemory) -> Error {
        Error::NoMemory
    }
}

impl fmt::Display for Error {
    fn fmt<W: fmt::Write>(&self, f: &mut fmt::Formatter<W>) -> fmt::Result {
        f.write_str(match self {
            Error::Signing => "Signing",
            Error::Verification(_) => "Verification",
            Error::InvalidKeyFormat => "InvalidKeyFormat",
            Error::UnsupportedAlgorithm => "UnsupportedAlgorithm",
            Error::Checkpoint(_) => "Checkpoint",
            Error::InvalidCertificate(_) => "InvalidCertificate",
            Error::InvalidKey(_) => "InvalidKey",
            Error::NoMemory => "NoMemory",
        })
    }
}

impl error::Error for Error {}
