//! Certificates and what names them.

pub use cms_parts::cert::{CertificateChoices, IssuerAndSerialNumber, OtherCertificateFormat};
