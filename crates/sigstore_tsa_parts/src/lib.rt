//! The Time-Stamp Protocol (RFC 3161): its types in DER, requests, and what a response or a token says.
#![tactic(auto)]

mod accuracy;
mod algorithm;
mod content;
mod error;
mod imprint;
mod laws;
mod request;
mod response;
mod tst_info;
mod validate;

pub use accuracy::Accuracy;
pub use algorithm::{
    AlgorithmIdentifier, OID_SHA256, OID_SHA384, OID_SHA512, OID_TST_INFO, digest_named,
};
pub use content::{TokenContent, read_token, value_in};
pub use error::{CertificateFault, Error, ParseRule, ResponseFault, SignatureRule};
pub use imprint::Asn1MessageImprint;
pub use laws::response_is_no_content_info;
pub use request::{TimeStampReq, timestamp_request};
pub use response::{PkiStatus, PkiStatusInfo, TimeStampResp};
pub use tst_info::TstInfo;
pub use validate::validate_response;
