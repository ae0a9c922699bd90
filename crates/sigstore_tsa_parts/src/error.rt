// Why a token, a response or a request isn't accepted.
ghost use Rattle.std.specs.Prelude.{◌≡◌};
ghost use Rattle.sigstore_tsa_parts.specs.Error.{number_of, error_of_der};
ghost use Rattle.sigstore_tsa_parts.specs.declared.error.Error.TheVariants.{NoMemory};

use der_core::DerError;
use foundation::NoMemory;
use jiff::Timestamp;
use sigstore_types_parts::Bytes;
use std::{error, fmt};

/// What of a token isn't read, or isn't known.
#[derive(Clone, Copy, Debug, PartialEq, Eq, Drop)]
pub enum ParseRule {
    /// The response's status is neither granted (0) nor granted with modifications (1).
    Status,
    /// The response is granted and has no token.
    NoToken,
    /// The token is no ContentInfo (RFC 5652, section 3).
    ContentInfo,
    /// The content isn't of type signed-data, or it isn't read (RFC 5652, section 5.1).
    SignedData,
    /// What is signed isn't of type TSTInfo (RFC 3161, section 2.4.2).
    ContentType,
    /// What is signed is no TSTInfo.
    TstInfo,
    /// The imprint's digest is none of SHA-256, SHA-384 and SHA-512.
    ImprintAlgorithm,
    /// The time is before 1970.
    Time,
    /// The signer's digest is none of SHA-256, SHA-384 and SHA-512.
    SignerAlgorithm,
}

/// Which answer isn't the request's.
#[derive(Clone, Copy, Debug, PartialEq, Eq, Drop)]
pub enum ResponseFault {
    /// The imprint is by another digest.
    Algorithm,
    /// The imprint is of another message.
    Imprint,
    /// The nonce is another, or it is left out.
    Nonce,
}

/// What of a signer isn't as an authority's has to be.
#[derive(Clone, Copy, Debug, PartialEq, Eq, Drop)]
pub enum SignatureRule {
    /// There is no signer.
    NoSigner,
    /// The authority's certificate isn't read.
    Certificate,
    /// The signer names another certificate than the authority's.
    SignerIdentifier,
    /// The signer has no signed attributes.
    SignedAttributes,
    /// There isn't exactly one message digest among them, as one OCTET STRING (RFC 5652, section 11.2).
    MessageDigest,
    /// The authority's key isn't one of ECDSA.
    Key,
    /// The key and the signer's digest have no scheme.
    Scheme,
    /// The signature over the attributes isn't good.
    Signature,
}

/// What of an authority's certificates isn't as it has to be.
#[derive(Clone, Copy, Debug, PartialEq, Eq, Drop)]
pub enum CertificateFault {
    /// The root isn't read, or it has name constraints.
    Root,
    /// No path for time stamping leads from the leaf to the root (RFC 5280, section 6).
    Path,
    /// The leaf's validity begins after the token's time.
    NotYetValid,
    /// The leaf's validity ended before the token's time.
    Expired,
}

/// Why a token, a response or a request isn't accepted.
#[derive(Debug, PartialEq, Drop)]
pub enum Error {
    /// Something can't be encoded, or a digest has no identifier here.
    Asn1(DerError),
    /// The response answers another request.
    InvalidResponse(ResponseFault),
    /// The signer isn't the authority, or didn't sign so.
    SignatureVerificationError(SignatureRule),
    /// A digest that the token tells (`expected`) isn't the one of what is at hand (`actual`).
    HashMismatch { expected: Bytes, actual: Bytes },
    /// The token has no content.
    NoTstInfo,
    /// The authority's certificates don't vouch for the signer at that time.
    CertificateValidationError(CertificateFault),
    /// The token isn't read.
    Parse(ParseRule),
    /// The token's time is outside the authority's window.
    TimestampOutsideValidity { time: Timestamp },
    /// An allocation was refused.
    NoMemory,
}

impl Error {
    /// The number of this refusal.
    pub fn number(&self) -> u8
        ensures { result ≡ number_of self.now }
    {
        match self {
            Error::Asn1(_) => 1,
            Error::InvalidResponse(_) => 2,
            Error::SignatureVerificationError(_) => 3,
            Error::HashMismatch { .. } => 4,
            Error::NoTstInfo => 5,
            Error::CertificateValidationError(_) => 6,
            Error::Parse(_) => 7,
            Error::TimestampOutsideValidity { .. } => 8,
            Error::NoMemory => 9,
        }
    }
}

impl From<NoMemory> for Error {
    ghost from_gives = { λ _ e. e ≡ NoMemory };

    fn from(_: NoMemory) -> Error {
        Error::NoMemory
    }
}

impl From<DerError> for Error {
    ghost from_gives = { λ refusal e. e ≡ error_of_der refusal };

    fn from(refusal: DerError) -> Error {
        match refusal {
            DerError::NoMemory => Error::NoMemory,
            _ => Error::Asn1(refusal),
        }
    }
}

impl fmt::Display for Error {
    fn fmt<W: fmt::Write>(&self, f: &mut fmt::Formatter<W>) -> fmt::Result {
        f.write_str(match self {
            Error::Asn1(_) => "Asn1",
            Error::InvalidResponse(_) => "InvalidResponse",
            Error::SignatureVerificationError(_) => "SignatureVerificationError",
            Error::HashMismatch { .. } => "HashMismatch",
            Error::NoTstInfo => "NoTstInfo",
            Error::CertificateValidationError(_) => "CertificateValidationError",
            Error::Parse(_) => "Parse",
            Error::TimestampOutsideValidity { .. } => "TimestampOutsideValidity",
            Error::NoMemory => "NoMemory",
        })
    }
}

impl error::Error for Error {}
