//! The judgement of a bundle over an artifact under a policy and a trust file, whoever signed it.
#![tactic(auto)]

mod artifact;
mod asked;
mod claim;
mod conditions;
mod content;
mod entries;
mod error;
mod evidence;
mod grounds;
mod judge;
mod laws;
mod names;
mod parties;
mod prepared;
mod report;
mod rules;
mod sharing;
mod signing;
mod taking;
mod tokens;
mod trust;
mod under;
mod verified;
mod verifier;

pub use asked::{Asked, Case, RulesAsked, RulesCase};
pub use error::{CertificateError, Error, TimestampError, TransparencyLogError};
pub use evidence::{Evidence, Parties};
pub use judge::Ready;
pub use laws::{
    accepts_exactly, blob_and_reader_agree, first_exactly, log_refusals_have_causes,
    one_log_suffices, one_rule, usable_exactly,
};
pub use names::refusal_name;
pub use prepared::prepare_reader;
pub use report::{JudgedBundle, VerificationResult};
pub use rules::{JudgedByRule, ReadArtifact, RulesError, needed_by_rules};
pub use sigstore_certificate::{DigitallySigned, SctRule};
pub use sigstore_policy::{
    CertificatePolicy, ClaimMatcher, IdentityMatcher, Policy, PolicyKind,
    PublicKeyVerificationPolicy, SignatureConditions, SigningPolicy, TextMatcher,
    VerificationPolicy,
};
pub use taking::{finalize_all, hashers_for, read_digests};
pub use trust::Material;
pub use under::{judge_bundle, judge_bundle_by_rules, read_trust};
pub use verifier::{Verifier, verify};
