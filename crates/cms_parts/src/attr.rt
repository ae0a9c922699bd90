// Attributes of signers.
use crate::signed_data::SignerInfo;
use der_core::OctetString;
use x509_core::Time;

/// The value of a message-digest attribute (RFC 5652, 11.2).
pub type MessageDigest = OctetString;

/// The value of a signing-time attribute (RFC 5652, 11.3).
pub type SigningTime = Time;

/// The value of a countersignature attribute (RFC 5652, 11.4).
pub type Countersignature = SignerInfo;
