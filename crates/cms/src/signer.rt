// Who signs.
ghost use Rattle.std.specs.Prelude.{◌≡◌, ◌≢◌, ◌⊎◌, ℕ, List, Option, IfOk, IfErr, Ok, Err};
ghost use Rattle.x509_core.specs.declared.algorithm.AlgorithmIdentifierOwned.{AlgorithmIdentifierOwned as Identifier};
ghost use Rattle.cms.specs.Signing.{signed_or};

use crate::error::Error;
use der_core::OctetString;
use std::alloc::Global;
use x509_core::AlgorithmIdentifierOwned;

/// A signer, handed in; contracts see its algorithm, and which signature it gives of a message, where
/// it gives one.
pub trait CmsSigner {
    ghost identifier: { Self → Identifier };

    ghost signs: { Self → List ℕ → Option (List ℕ) };

    /// The identifier of its signature algorithm.
    fn algorithm(&self) -> &AlgorithmIdentifierOwned
        ensures { result.now ≡ identifier self.now };

    /// The signature of a message. Errors: `Signature` exactly where there is none; `NoMemory`.
    fn sign(&self, alloc: Global, message: &[u8]) -> Result<OctetString, Error>
        ensures ok { IfOk result (λ signature. signed_or (signs self.now message.now) ≡ Ok signature) }
        ensures err { IfErr result (λ e. e ≢ Error.NoMemory → signed_or (signs self.now message.now) ≡ Err e) }
        ensures cause { IfErr result (λ e. (e ≡ Error.Signature) ⊎ (e ≡ Error.NoMemory)) };
}
