//! Verifies a bundle over an artifact from a pinned TUF root, under a policy: the chain of documents that
//! authorises the trust file, then the judgement of the bundle under it, whose names it passes on.
#![tactic(auto)]

mod anchor;
mod by_digests;
mod by_rules;
mod chain;
mod from_root;
mod laws;

pub use anchor::Anchor;
pub use by_digests::{DigestsAsked, judge_digests, verify_digests_from_root};
pub use by_rules::{RuleAcceptance, RulesFault, verify_from_root_by_rules};
pub use chain::{TRUST_PATH, chain_from_root};
pub use from_root::{Acceptance, RootFault, verify_from_root};
pub use laws::{digests_stand_for_bytes, one_place_one_content, one_rule_alone};
pub use sigstore_judgement::{
    Asked, Case, CertificateError, CertificatePolicy, DigitallySigned, Error, Evidence,
    IdentityMatcher, JudgedBundle, Material, Policy, PolicyKind, PublicKeyVerificationPolicy,
    RulesAsked, SctRule, SigningPolicy, TimestampError, TransparencyLogError, VerificationPolicy,
    VerificationResult, Verifier, accepts_exactly, blob_and_reader_agree, first_exactly,
    log_refusals_have_causes, one_rule, usable_exactly, verify,
};
