// A trust file.
ghost use Rattle.std.specs.Prelude.{◌≡◌, ◌≢◌, Ok, Err, IfOk, IfErr};
ghost use Rattle.serde_json.specs.View.{view};
ghost use Rattle.sigstore_types.specs.TrustedRoot.{log_of, key_of_log, trusted_root_of, trusted_root_of_bytes, each_stamping};

use crate::authority::{Authority, TsaAuthority};
use crate::valid_for::{ValidFor, window};
use foundation::{Duplicate, NoMemory, Sequence};
use serde_json::Value;
use sigstore_entries::{LogId, json, list};
use sigstore_types_parts::{
    DerPublicKey, FromValue, TimeRange, TypesError, TypesMember, optional, required,
};
use std::alloc::Global;

/// A log that is trusted.
#[derive(PartialEq, Drop)]
pub struct TrustedLog {
    pub log_id: LogId,
    /// Its key in DER.
    pub raw_bytes: DerPublicKey,
    /// When the key is used; without it always.
    pub valid_for: Option<TimeRange>,
}

/// A trust file.
#[derive(PartialEq, Drop)]
pub struct TrustedRoot {
    /// The logs of entries.
    pub tlogs: Sequence<TrustedLog>,
    /// The logs of certificates.
    pub ctlogs: Sequence<TrustedLog>,
    /// Who issues certificates.
    pub certificate_authorities: Sequence<Authority>,
    /// Who stamps times.
    pub timestamp_authorities: Sequence<Authority>,
}

impl Duplicate for TrustedLog {
    fn duplicate(&self, alloc: Global) -> Result<TrustedLog, NoMemory> {
        Ok(TrustedLog {
            log_id: self.log_id.duplicate(alloc)?,
            raw_bytes: self.raw_bytes.duplicate(alloc)?,
            valid_for: self.valid_for,
        })
    }
}

impl Duplicate for TrustedRoot {
    fn duplicate(&self, alloc: Global) -> Result<TrustedRoot, NoMemory> {
        Ok(TrustedRoot {
            tlogs: self.tlogs.duplicate(alloc)?,
            ctlogs: self.ctlogs.duplicate(alloc)?,
            certificate_authorities: self.certificate_authorities.duplicate(alloc)?,
            timestamp_authorities: self.timestamp_authorities.duplicate(alloc)?,
        })
    }
}

// A log's key, and when it is used.
#[derive(Drop)]
struct KeyOfLog {
    raw_bytes: DerPublicKey,
    valid_for: Option<TimeRange>,
}

impl FromValue<TypesError> for KeyOfLog {
    ghost reads = { key_of_log };

    #[tactic(auto, unfolding(crate::specs::TrustedRoot::key_of_log))]
    fn from_value(alloc: Global, value: &Value) -> Result<KeyOfLog, TypesError> {
        let raw_bytes = required(alloc, value, TypesMember::RawBytes)?;
        let valid_for: Option<ValidFor> = optional(alloc, value, TypesMember::ValidFor)?;
        Ok(KeyOfLog {
            raw_bytes,
            valid_for: window(valid_for),
        })
    }
}

impl FromValue<TypesError> for TrustedLog {
    ghost reads = { log_of };

    #[tactic(auto, unfolding(crate::specs::TrustedRoot::log_of))]
    fn from_value(alloc: Global, value: &Value) -> Result<TrustedLog, TypesError> {
        let key: KeyOfLog = required(alloc, value, TypesMember::PublicKey)?;
        let log_id = required(alloc, value, TypesMember::LogId)?;
        Ok(TrustedLog {
            log_id,
            raw_bytes: key.raw_bytes,
            valid_for: key.valid_for,
        })
    }
}

impl FromValue<TypesError> for TrustedRoot {
    ghost reads = { trusted_root_of };

    #[tactic(auto, unfolding(crate::specs::TrustedRoot::trusted_root_of))]
    fn from_value(alloc: Global, value: &Value) -> Result<TrustedRoot, TypesError> {
        let tlogs = list::<TrustedLog>(alloc, value, TypesMember::Tlogs)?;
        let ctlogs = list::<TrustedLog>(alloc, value, TypesMember::Ctlogs)?;
        let certificate_authorities = list::<Authority>(
            alloc,
            value,
            TypesMember::CertificateAuthorities,
        )?;
        let timestamp_authorities = list::<Authority>(
            alloc,
            value,
            TypesMember::TimestampAuthorities,
        )?;
        Ok(TrustedRoot {
            tlogs,
            ctlogs,
            certificate_authorities,
            timestamp_authorities,
        })
    }
}

impl TrustedRoot {
    /// The trust file that a JSON text is. Errors: `Json`, `Float`, then the first wrong member's in
    /// the order of the members.
    #[tactic(auto, unfolding(crate::specs::TrustedRoot::trusted_root_of_bytes))]
    pub fn from_json(alloc: Global, bytes: &[u8]) -> Result<TrustedRoot, TypesError>
        ensures ok { IfOk result (λ v. trusted_root_of_bytes bytes.now ≡ Ok v) }
        ensures err { IfErr result (λ e. e ≢ TypesError.NoMemory → trusted_root_of_bytes bytes.now ≡ Err e) }
    {
        let value = json(alloc, bytes)?;
        Ok(TrustedRoot::from_value(alloc, &value)?)
    }

    /// The authorities that stamp times, in their order. Errors: `Field` of `certificates` exactly where one's
    /// chain is empty.
    pub fn tsa_authorities(&self, alloc: Global) -> Result<Sequence<TsaAuthority>, TypesError>
        ensures ok { IfOk result (λ list. each_stamping self.now.timestamp_authorities ≡ Ok list) }
        ensures err { IfErr result (λ e. e ≢ TypesError.NoMemory → each_stamping self.now.timestamp_authorities ≡ Err e) }
    {
        let mut list = Sequence::new(alloc);
        'authorities: for authority in self.timestamp_authorities.as_slice() {
            list.push(authority.stamping(alloc)?)?;
        }
        Ok(list)
    }
}
