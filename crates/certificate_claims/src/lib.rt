//! What certificates of signers say of their owner: the identity, and Fulcio's claims.
#![tactic(auto)]

mod certificate_info;
mod claim_name;
mod claims;
mod names;

pub use certificate_info::{CertificateInfo, SubjectAltName, parse_certificate_info};
pub use claim_name::ClaimName;
pub use claims::{DeprecatedGitHubClaims, FulcioCiClaims};
