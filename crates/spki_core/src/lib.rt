//! Public keys (RFC 5280, 4.1.2.7) and RSA keys (RFC 8017) as parts of their bytes, and the readers of such parts.
#![tactic(auto)]

mod error;
pub mod read;
mod rsa;
mod spki;

pub use error::X509Error;
pub use rsa::RsaKeyView;
pub use spki::{AlgorithmView, SpkiView, algorithm, spki_in};
