// What is asked where the signer holds a key.
ghost use Rattle.std.specs.Prelude.{◌≡◌, max, false};
ghost use Rattle.std.specs.Int.NonZero.{non_zero_u8_get};
ghost use Rattle.sigstore_policy.specs.PublicKey.{keyed};

use crate::conditions::SignatureConditions;
use foundation::{Duplicate, NoMemory};
use sigstore_keys::Threshold;
use sigstore_types_parts::DerPublicKey;
use std::alloc::Global;
use std::num::NonZeroU8;

/// A public key that its holder manages, and whether and how the transparency log is verified.
#[derive(Debug, PartialEq, Drop)]
pub struct PublicKeyVerificationPolicy {
    pub key: DerPublicKey,
    pub verify_tlog: bool,
    /// How many different transparency logs the entries have to stand in, where the log is verified.
    pub logs: Threshold,
    /// What is asked of the signature beside who made it.
    pub conditions: SignatureConditions,
}

impl Duplicate for PublicKeyVerificationPolicy {
    fn duplicate(&self, alloc: Global) -> Result<PublicKeyVerificationPolicy, NoMemory> {
        Ok(PublicKeyVerificationPolicy {
            key: self.key.duplicate(alloc)?,
            verify_tlog: self.verify_tlog,
            logs: self.logs,
            conditions: self.conditions.duplicate(alloc)?,
        })
    }
}

impl PublicKeyVerificationPolicy {
    /// A policy that verifies the log.
    pub fn new(key: DerPublicKey) -> PublicKeyVerificationPolicy
        ensures { result ≡ keyed key }
    {
        PublicKeyVerificationPolicy {
            key,
            verify_tlog: true,
            logs: Threshold::one(),
            conditions: SignatureConditions::none(),
        }
    }

    /// The same policy without the log, so that a signature may never have been logged.
    pub fn skip_tlog_unsafe(self) -> PublicKeyVerificationPolicy
        ensures { result ≡ record self { verify_tlog = false } }
    {
        PublicKeyVerificationPolicy {
            verify_tlog: false,
            ..self
        }
    }

    /// The same policy with a number of different transparency logs in which the entries have to stand; where the log
    /// isn't verified, none has to.
    pub fn require_logs(self, count: NonZeroU8) -> PublicKeyVerificationPolicy
        ensures { result ≡ record self { logs = record { value = non_zero_u8_get count } } }
    {
        PublicKeyVerificationPolicy {
            logs: Threshold::new(count),
            ..self
        }
    }

    /// The same policy with what is asked of the signature beside who made it.
    pub fn with_conditions(self, conditions: SignatureConditions) -> PublicKeyVerificationPolicy
        ensures { result ≡ record self { conditions = conditions } }
    {
        PublicKeyVerificationPolicy { conditions, ..self }
    }

    /// The key.
    pub fn public_key(&self) -> &DerPublicKey
        ensures { result.now ≡ self.now.key }
    {
        &self.key
    }

    /// Whether the log is verified.
    pub fn verifies_tlog(&self) -> bool
        ensures { result ≡ self.now.verify_tlog }
    {
        self.verify_tlog
    }

    /// How many different transparency logs the entries have to stand in, where the log is verified.
    pub fn logs(&self) -> NonZeroU8
        ensures { non_zero_u8_get result ≡ max 1 self.now.logs.value }
    {
        self.logs.get()
    }
}
