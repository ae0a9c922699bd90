// What all kinds of documents share.
ghost use Rattle.std.specs.Prelude.{◌≡◌, ◌≢◌, ℕ, List, Ok, Err, IfOk, IfErr};
ghost use Rattle.jiff_core.specs.declared.timestamp.Timestamp.{Timestamp as Instant};
ghost use Rattle.sigstore_tuf_parts.specs.Integrity.{is_past, fresh_of};

use crate::integrity::{check_fresh, is_past};
use sigstore_tuf_text::Error;
use sigstore_types_parts::FromValue;
use std::alloc::Global;

/// The content of a document of one kind; `from_value` reads its members, and `Metadata::from_slice`
/// compares its kind before.
pub trait Role: FromValue<Error> {
    ghost kind: { List ℕ };

    ghost version_in: { Self → ℕ };

    ghost expires_in: { Self → Instant };

    /// The kind, as `_type` names it.
    fn kind() -> &'static str
        ensures { result.now ≡ kind };

    /// The document's version.
    fn version(&self) -> u64
        ensures { result ≡ version_in self.now };

    /// When the document expires.
    fn expires(&self) -> jiff::Timestamp
        ensures { result ≡ expires_in self.now };

    /// Whether the document expires before now.
    final fn is_expired(&self, now: jiff::Timestamp) -> bool
        ensures { result ≡ is_past (expires_in self.now) now }
    {
        is_past(self.expires(), now)
    }

    /// Whether the document hasn't expired now. Errors: `Expired`.
    final fn check_fresh(&self, alloc: Global, now: jiff::Timestamp) -> Result<(), Error>
        ensures ok { IfOk result (λ v. fresh_of kind (expires_in self.now) now ≡ Ok v) }
        ensures err { IfErr result (λ e. e ≢ Error.NoMemory → fresh_of kind (expires_in self.now) now ≡ Err e) }
    {
        match check_fresh(alloc, Self::kind(), self.expires(), now) {
            Ok(()) => Ok(()),
            Err(e) => Err(e),
        }
    }
}
