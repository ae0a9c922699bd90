// What is asked of a signature beside who made it.
ghost use Rattle.std.specs.Prelude.{◌≡◌};
ghost use Rattle.sigstore_policy.specs.Conditions.{no_conditions, asks_window, is_within, is_enough_if};

use crate::matcher::TextMatcher;
use foundation::{Duplicate, NoMemory};
use jiff::Timestamp;
use sigstore_keys::Threshold;
use std::alloc::Global;

/// What is asked of a signature beside who made it. What isn't asked for is no check.
#[derive(Debug, PartialEq, Drop)]
pub struct SignatureConditions {
    /// Which type of predicate the statement in the envelope has to have (in-toto Attestation Framework, Statement v1).
    pub predicate: Option<TextMatcher>,
    /// By how many different time-stamp authorities and transparency logs there have to be verified times.
    pub times: Option<Threshold>,
    /// By how many different time-stamp authorities there have to be tokens (RFC 3161).
    pub tokens: Option<Threshold>,
    /// There has to be a verified time, and each has to be before this moment: what a stolen key signed later isn't
    /// accepted.
    pub signed_before: Option<Timestamp>,
    /// There has to be a verified time, and none may be before this moment.
    pub signed_after: Option<Timestamp>,
}

impl Duplicate for SignatureConditions {
    fn duplicate(&self, alloc: Global) -> Result<SignatureConditions, NoMemory> {
        Ok(SignatureConditions {
            predicate: self.predicate.duplicate(alloc)?,
            times: self.times,
            tokens: self.tokens,
            signed_before: self.signed_before,
            signed_after: self.signed_after,
        })
    }
}

/// Whether so many are enough, where a number is asked for.
pub fn is_enough_if(asked: Option<Threshold>, found: u64) -> bool
    ensures { result ≡ is_enough_if asked found }
{
    match asked {
        Some(asked) => asked.is_met_by(found),
        None => true,
    }
}

impl SignatureConditions {
    /// Nothing more is asked for.
    pub fn none() -> SignatureConditions
        ensures { result ≡ no_conditions }
    {
        SignatureConditions {
            predicate: None,
            times: None,
            tokens: None,
            signed_before: None,
            signed_after: None,
        }
    }

    /// Whether it is asked when it was signed.
    pub fn asks_window(&self) -> bool
        ensures { result ≡ asks_window self.now }
    {
        self.signed_before.is_some() || self.signed_after.is_some()
    }

    /// Whether a verified time is one that is asked for: before the one moment, and not before the other.
    pub fn is_within(&self, time: Timestamp) -> bool
        ensures { result ≡ is_within self.now time }
    {
        let early = match self.signed_before {
            Some(moment) => time < moment,
            None => true,
        };
        let late = match self.signed_after {
            Some(moment) => moment <= time,
            None => true,
        };
        early && late
    }
}
