// Signed certificate timestamps (RFC 6962, 3.2).
ghost use Rattle.std.specs.Prelude.{◌≡◌, ◌<◌, length, nat_eq, bytes_eq};
ghost use Rattle.std.specs.Ordering.{on, eq_of_both};
ghost use Rattle.std.specs.Cmp.Rules.{comparing};
ghost use Rattle.std.proofs.Common.{rules};
ghost use Rattle.x509_views.specs.Scts.{Parts};

use der_core::OctetString;
use foundation::{Duplicate, NoMemory};
use std::alloc::Global;
use std::marker::Model;

/// A signed certificate timestamp; contracts see its parts.
#[derive(Debug, Drop)]
pub struct Sct {
    log_id: [u8; 32],
    milliseconds: u64,
    extensions: OctetString,
    algorithm: [u8; 2],
    signature: OctetString,
}

impl Model for Sct {
    ghost use Rattle.std.specs.Prelude.{◌<◌, length};
    ghost use Rattle.x509_views.specs.Scts.{Parts};

    ghost Value = { Parts };

    ghost view = { λ s. record { log_id = s.log_id; milliseconds = s.milliseconds; extensions = s.extensions; algorithm = s.algorithm; signature = s.signature } };

    ghost invariant = { λ s. length s.extensions < 65536 };
}

impl Sct {
    /// A timestamp of these parts.
    pub(crate) fn from_parts(
        log_id: [u8; 32],
        milliseconds: u64,
        extensions: OctetString,
        algorithm: [u8; 2],
        signature: OctetString,
    ) -> Sct
        requires { length extensions < 65536 }
        ensures { result ≡ record { log_id = log_id; milliseconds = milliseconds; extensions = extensions; algorithm = algorithm; signature = signature } }
    {
        Sct {
            log_id,
            milliseconds,
            extensions,
            algorithm,
            signature,
        }
    }

    /// The SHA-256 value of the log's key.
    pub fn log_id(&self) -> &[u8; 32]
        ensures { result.now ≡ self.now.log_id }
    {
        &self.log_id
    }

    /// The milliseconds from the start of 1970.
    pub fn milliseconds(&self) -> u64
        ensures { result ≡ self.now.milliseconds }
    {
        self.milliseconds
    }

    /// The extensions; fewer than 2^16 octets.
    pub fn extensions(&self) -> &[u8]
        ensures octets { result.now ≡ self.now.extensions }
        ensures short { length result.now < 65536 }
    {
        self.extensions.as_bytes()
    }

    /// The octets of the hash algorithm and of the signature algorithm.
    pub fn algorithm(&self) -> [u8; 2]
        ensures { result ≡ self.now.algorithm }
    {
        self.algorithm
    }

    /// The signature.
    pub fn signature(&self) -> &[u8]
        ensures { result.now ≡ self.now.signature }
    {
        self.signature.as_bytes()
    }
}

impl Duplicate for Sct {
    fn duplicate(&self, alloc: Global) -> Result<Sct, NoMemory> {
        Ok(Sct {
            log_id: self.log_id,
            milliseconds: self.milliseconds,
            extensions: self.extensions.duplicate(alloc)?,
            algorithm: self.algorithm,
            signature: self.signature.duplicate(alloc)?,
        })
    }
}

impl PartialEq for Sct {
    ghost eq = { eq_of_both (on (λ s. s.log_id) bytes_eq) (eq_of_both (on (λ s. s.milliseconds) nat_eq) (eq_of_both (on (λ s. s.extensions) bytes_eq)
        (eq_of_both (on (λ s. s.algorithm) bytes_eq) (on (λ s. s.signature) bytes_eq)))) };

    ghost laws = { Prim.search (comparing, rules) };

    fn eq(&self, other: &Sct) -> bool {
        self.log_id == other.log_id
            && self.milliseconds == other.milliseconds
            && self.extensions == other.extensions
            && self.algorithm == other.algorithm
            && self.signature == other.signature
    }
}
