// What is asked of an artifact.

use jiff::Timestamp;
use sigstore_policy::{Policy, SigningPolicy};
use sigstore_types::Bundle;

/// What is asked of an artifact: its bundle's text, the greatest length of the artifact in bytes, and the policy.
#[derive(Drop)]
pub struct Asked<'a, P: Policy> {
    pub bundle: &'a [u8],
    pub max_artifact: u64,
    pub policy: &'a P,
}

/// A bundle that was read, the policy under which it is judged, and the moment.
#[derive(Drop)]
pub struct Case<'a, P: Policy> {
    pub bundle: &'a Bundle,
    pub policy: &'a P,
    pub moment: Timestamp,
}

/// What is asked of an artifact under rules: its bundle's text, the greatest length of the artifact in bytes, and the
/// rules, of which one has to accept.
#[derive(Drop)]
pub struct RulesAsked<'a> {
    pub bundle: &'a [u8],
    pub max_artifact: u64,
    pub rules: &'a [SigningPolicy],
}

/// A bundle that was read, the rules of which one has to accept it, and the moment.
#[derive(Drop)]
pub struct RulesCase<'a> {
    pub bundle: &'a Bundle,
    pub rules: &'a [SigningPolicy],
    pub moment: Timestamp,
}
