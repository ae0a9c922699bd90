//! X.509 certificates (RFC 5280) as parts of their bytes, and the bytes of signed certificate
//! timestamps (RFC 6962).
#![tactic(auto)]

mod certificate;
mod distinct;
mod extension;
mod laws;
mod precert;
mod sct;
mod scts;
mod signed;
mod walk;

pub use certificate::{CertView, is_certificate, is_certificate_in};
pub use extension::{ExtensionView, NamedExtension};
pub use laws::{
    certificate_is_its_parts, extension_stands_once, key_is_its_parts, precertificate_is_there,
    signed_part_is_its_parts,
};
pub use precert::{precert_tbs, sct_signed_bytes};
pub use sct::Sct;
pub use scts::sct_list;
pub use spki_core::{RsaKeyView, SpkiView, X509Error};
pub use walk::Extensions;
