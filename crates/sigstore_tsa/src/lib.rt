//! Time-stamp tokens (RFC 3161): whether a token of an authority that is trusted tells the time of a signature.
#![tactic(auto)]

mod authorities;
mod digest;
mod laws;
mod named;
mod signed;
mod stamp;
mod verify;
mod vouched;

pub use authorities::{StampedTime, TokenFault, token_time};
pub use laws::{refusals_have_causes, stamped_exactly, tokens_exactly};
pub use sigstore_tsa_parts::{
    Accuracy, AlgorithmIdentifier, Asn1MessageImprint, CertificateFault, Error, OID_SHA256,
    OID_SHA384, OID_SHA512, OID_TST_INFO, ParseRule, PkiStatus, PkiStatusInfo, ResponseFault,
    SignatureRule, TimeStampReq, TimeStampResp, TokenContent, TstInfo, read_token,
    timestamp_request, validate_response,
};
pub use stamp::{Stamp, read_stamp};
pub use verify::{judge_stamp, verify_timestamp_for_authority};
