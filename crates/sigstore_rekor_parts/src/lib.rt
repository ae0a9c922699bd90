//! Bodies of log entries of Rekor, read from their texts.
#![tactic(auto)]

mod algorithm;
mod armored;
mod body;
mod dsse_v001;
mod dsse_v002;
mod error;
mod hash_value;
mod hashed_rekord_v001;
mod hashed_rekord_v002;
mod hex_text;
mod intoto_v002;
mod key_details;
mod member;
mod raw;

pub use body::RekorEntryBody;
pub use dsse_v001::{DsseV001Body, DsseV001Signature, DsseV001Spec, EnvelopeHash, PayloadHashV001};
pub use dsse_v002::{
    DsseV002Body, DsseV002Data, DsseV002Signature, DsseV002Spec, DsseV002Verifier, PayloadHash,
};
pub use error::{Error, ResponseRule};
pub use hash_value::HashValue;
pub use hashed_rekord_v001::{
    HashedRekordV001Body, HashedRekordV001Data, HashedRekordV001Signature, HashedRekordV001Spec,
    PublicKeyContent,
};
pub use hashed_rekord_v002::{
    HashedRekordV002Body, HashedRekordV002Data, HashedRekordV002DataInner,
    HashedRekordV002Signature, HashedRekordV002Spec, HashedRekordV002Verifier,
};
pub use hex_text::{HexHash, HexLogId, HexText, OfHash, OfLog, sha256_from_hex};
pub use intoto_v002::{
    IntotoEnvelope, IntotoSignature, IntotoV002Body, IntotoV002Content, IntotoV002Spec,
};
pub use key_details::RekorV2KeyDetails;
pub use member::RekorMember;
pub use raw::{PublicKeyRaw, X509CertificateRaw};
