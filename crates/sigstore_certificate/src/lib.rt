//! Whether a signing certificate was valid when it signed (RFC 5280, section 6), was promised by a log of
//! certificates (RFC 6962), and names whom a policy asks for.
#![tactic(auto)]

mod certificate;
mod digitally_signed;
mod error;
mod given;
mod laws;
mod names;
mod path;
mod scts;
mod times;

pub use certificate::judge_certificate;
pub use digitally_signed::DigitallySigned;
pub use error::{CertificateRefusal, SctRule};
pub use given::{Presented, TrustedAuthorities};
pub use laws::{
    certified_exactly, good_exactly, one_sct_alone, refusals_have_causes, sct_is_written,
};
pub use names::check_names;
pub use sigstore_policy::{
    CertificatePolicy, ClaimMatcher, IdentityMatcher, TextMatcher, VerificationPolicy,
};
