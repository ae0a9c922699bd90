// Who signed, and what.

use crate::envelope::HashedEnvelope;
use sigstore_types_parts::{DerCertificate, DerPublicKey, SignatureBytes, TimeRange};

/// Who signed, as an entry logs it: the holder of a key, which is told in DER (SubjectPublicKeyInfo); or the subject
/// of a certificate, which is told in DER with its key, as it is encoded there, and its validity.
#[derive(Clone, Copy)]
pub enum SignedBy<'a> {
    Key(&'a DerPublicKey),
    Certificate {
        certificate: &'a DerCertificate,
        key: &'a DerPublicKey,
        validity: &'a TimeRange,
    },
}

/// What was signed: a message, by its SHA-256 value where that can be had, with its signature; or an envelope, which
/// holds its own.
#[derive(Clone, Copy)]
pub enum Signed<'a> {
    Message {
        digest: Option<&'a [u8]>,
        signature: &'a SignatureBytes,
    },
    Envelope(&'a HashedEnvelope<'a>),
}
