// What a bundle is verified under.
ghost use Rattle.std.specs.Prelude.{◌≡◌};
ghost use Rattle.sigstore_policy.specs.Policy.{meaning_of};

use crate::certificate::VerificationPolicy;
use crate::public_key::PublicKeyVerificationPolicy;
use foundation::{Duplicate, NoMemory};
use std::alloc::Global;

/// What a policy is: of certificates and whom they name, or of a key.
pub enum PolicyKind<'a> {
    Certificate(&'a VerificationPolicy),
    PublicKey(&'a PublicKeyVerificationPolicy),
}

/// A policy of either kind.
#[derive(Debug, PartialEq, Drop)]
pub enum SigningPolicy {
    Certificate(VerificationPolicy),
    PublicKey(PublicKeyVerificationPolicy),
}

impl Duplicate for SigningPolicy {
    fn duplicate(&self, alloc: Global) -> Result<SigningPolicy, NoMemory> {
        match self {
            SigningPolicy::Certificate(policy) => {
                Ok(SigningPolicy::Certificate(policy.duplicate(alloc)?))
            }
            SigningPolicy::PublicKey(policy) => {
                Ok(SigningPolicy::PublicKey(policy.duplicate(alloc)?))
            }
        }
    }
}

/// A policy of some kind; each call gives the one that it means.
pub trait Policy {
    ghost use Rattle.sigstore_policy.specs.Policy.{Meaning};

    ghost meant: { Self → Meaning };

    /// What this policy is.
    fn kind(&self) -> PolicyKind<'_>
        ensures { meaning_of result ≡ meant self.now };
}

impl Policy for VerificationPolicy {
    ghost use Rattle.sigstore_policy.specs.Policy.{Certificate};

    ghost meant = { λ policy. Certificate policy };

    fn kind(&self) -> PolicyKind<'_> {
        PolicyKind::Certificate(self)
    }
}

impl Policy for PublicKeyVerificationPolicy {
    ghost use Rattle.sigstore_policy.specs.Policy.{PublicKey};

    ghost meant = { λ policy. PublicKey policy };

    fn kind(&self) -> PolicyKind<'_> {
        PolicyKind::PublicKey(self)
    }
}

impl Policy for SigningPolicy {
    ghost use Rattle.sigstore_policy.specs.Policy.{meaning_in};

    ghost meant = { meaning_in };

    fn kind(&self) -> PolicyKind<'_> {
        match self {
            SigningPolicy::Certificate(policy) => PolicyKind::Certificate(policy),
            SigningPolicy::PublicKey(policy) => PolicyKind::PublicKey(policy),
        }
    }
}
