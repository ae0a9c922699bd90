//! The types of X.509 certificates (RFC 5280) that own their bytes, and the names of
//! `x509_views`.
#![tactic(auto)]

mod algorithm;
mod attribute;
mod extension;
mod general_name;
mod kinds;
mod laws;
mod other_name;
mod time;

pub use algorithm::AlgorithmIdentifierOwned;
pub use attribute::{Attribute, Attributes};
pub use extension::Extension;
pub use general_name::GeneralName;
pub use kinds::{
    Certificate, CertificateKind, CertificateList, CertificateListKind, Name, NameKind,
    SerialNumber, SerialNumberKind, SubjectKeyIdentifier, SubjectKeyIdentifierKind,
};
pub use laws::{
    algorithms_alike, certificates_alike, extensions_alike, names_alike, serial_numbers_alike,
    times_alike,
};
pub use other_name::OtherName;
pub use time::Time;
pub use x509_views::{
    CertView, ExtensionView, Extensions, NamedExtension, RsaKeyView, Sct, SpkiView, X509Error,
    certificate_is_its_parts, extension_stands_once, is_certificate, is_certificate_in,
    key_is_its_parts, precert_tbs, precertificate_is_there, sct_list, sct_signed_bytes,
    signed_part_is_its_parts,
};
