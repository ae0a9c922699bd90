// Bodies of log entries.
ghost use Rattle.std.specs.Prelude.{◌≡◌, ◌≢◌, Ok, Err, IfOk, IfErr};
ghost use Rattle.serde_json.specs.View.{view};
ghost use Rattle.sigstore_rekor_parts.specs.Body.{rekor_of_fault, body_json_of, body_of_value, body_of, known_of, body_named};

use crate::dsse_v001::DsseV001Body;
use crate::dsse_v002::DsseV002Body;
use crate::error::{Error, ResponseRule};
use crate::hashed_rekord_v001::HashedRekordV001Body;
use crate::hashed_rekord_v002::HashedRekordV002Body;
use crate::intoto_v002::IntotoV002Body;
use foundation::{Duplicate, NoMemory};
use serde_json::Value;
use sigstore_entries::KindVersion;
use sigstore_types_parts::{CanonicalizedBody, FromValue, JsonFault, parse_json};
use std::alloc::Global;

/// What a log entry logs, by its kind and version.
#[derive(PartialEq, Drop)]
pub enum RekorEntryBody {
    HashedRekordV001(HashedRekordV001Body),
    HashedRekordV002(HashedRekordV002Body),
    DsseV001(DsseV001Body),
    DsseV002(DsseV002Body),
    IntotoV002(IntotoV002Body),
}

impl Duplicate for RekorEntryBody {
    fn duplicate(&self, alloc: Global) -> Result<RekorEntryBody, NoMemory> {
        match self {
            RekorEntryBody::HashedRekordV001(body) => {
                Ok(RekorEntryBody::HashedRekordV001(body.duplicate(alloc)?))
            }
            RekorEntryBody::HashedRekordV002(body) => {
                Ok(RekorEntryBody::HashedRekordV002(body.duplicate(alloc)?))
            }
            RekorEntryBody::DsseV001(body) => Ok(RekorEntryBody::DsseV001(body.duplicate(alloc)?)),
            RekorEntryBody::DsseV002(body) => Ok(RekorEntryBody::DsseV002(body.duplicate(alloc)?)),
            RekorEntryBody::IntotoV002(body) => {
                Ok(RekorEntryBody::IntotoV002(body.duplicate(alloc)?))
            }
        }
    }
}

fn refusal(fault: JsonFault) -> Error
    ensures { result ≡ rekor_of_fault fault }
{
    match fault {
        JsonFault::NotJson => Error::InvalidResponse {
            rule: ResponseRule::NotJson,
        },
        JsonFault::Float => Error::InvalidResponse {
            rule: ResponseRule::Float,
        },
        JsonFault::NoMemory => Error::NoMemory,
    }
}

// The JSON value of a body.
fn body_json(alloc: Global, bytes: &[u8]) -> Result<Value, Error>
    ensures ok { IfOk result (λ v. body_json_of bytes.now ≡ Ok (view v)) }
    ensures err { IfErr result (λ e. e ≢ Error.NoMemory → body_json_of bytes.now ≡ Err e) }
{
    match parse_json(alloc, bytes) {
        Ok(value) => Ok(value),
        Err(fault) => Err(refusal(fault)),
    }
}

#[tactic(auto, unfolding(crate::specs::Body::body_of_value))]
fn read_value(alloc: Global, kind: KindVersion, value: &Value) -> Result<RekorEntryBody, Error>
    ensures ok { IfOk result (λ b. body_of_value kind (view value.now) ≡ Ok b) }
    ensures err { IfErr result (λ e. e ≢ Error.NoMemory → body_of_value kind (view value.now) ≡ Err e) }
{
    match kind {
        KindVersion::HashedRekordV001 => Ok(RekorEntryBody::HashedRekordV001(
            HashedRekordV001Body::from_value(alloc, value)?,
        )),
        KindVersion::HashedRekordV002 => Ok(RekorEntryBody::HashedRekordV002(
            HashedRekordV002Body::from_value(alloc, value)?,
        )),
        KindVersion::DsseV001 => Ok(RekorEntryBody::DsseV001(DsseV001Body::from_value(
            alloc, value,
        )?)),
        KindVersion::DsseV002 => Ok(RekorEntryBody::DsseV002(DsseV002Body::from_value(
            alloc, value,
        )?)),
        KindVersion::IntotoV002 => Ok(RekorEntryBody::IntotoV002(IntotoV002Body::from_value(
            alloc, value,
        )?)),
    }
}

// The body of a kind from its bytes.
#[tactic(auto, unfolding(crate::specs::Body::body_of))]
fn read_bytes(alloc: Global, kind: KindVersion, bytes: &[u8]) -> Result<RekorEntryBody, Error>
    ensures ok { IfOk result (λ b. body_of kind bytes.now ≡ Ok b) }
    ensures err { IfErr result (λ e. e ≢ Error.NoMemory → body_of kind bytes.now ≡ Err e) }
{
    let value = body_json(alloc, bytes)?;
    Ok(read_value(alloc, kind, &value)?)
}

// The kind of these names.
fn known(kind: &str, version: &str) -> Result<KindVersion, Error>
    ensures { result ≡ known_of kind.now version.now }
{
    match KindVersion::named(kind, version) {
        Ok(known) => Ok(known),
        Err(_) => Err(Error::InvalidResponse {
            rule: ResponseRule::Kind,
        }),
    }
}

impl RekorEntryBody {
    /// What an entry of this kind logs. Errors: `InvalidResponse` with `NotJson`, `Float`, then the rule that
    /// the first wrong member breaks, in the order of the members.
    pub fn parse(
        alloc: Global,
        body: &CanonicalizedBody,
        kind_version: KindVersion,
    ) -> Result<RekorEntryBody, Error>
        ensures ok { IfOk result (λ b. body_of kind_version body.now ≡ Ok b) }
        ensures err { IfErr result (λ e. e ≢ Error.NoMemory → body_of kind_version body.now ≡ Err e) }
    {
        match read_bytes(alloc, kind_version, body.as_bytes()) {
            Ok(read) => Ok(read),
            Err(e) => Err(e),
        }
    }

    /// What an entry of the kind and version of these names logs. Errors: `InvalidResponse` with `Kind`, then
    /// those of `parse`.
    #[tactic(auto, unfolding(crate::specs::Body::body_named))]
    pub fn from_json(
        alloc: Global,
        body: &[u8],
        kind: &str,
        version: &str,
    ) -> Result<RekorEntryBody, Error>
        ensures ok { IfOk result (λ b. body_named kind.now version.now body.now ≡ Ok b) }
        ensures err { IfErr result (λ e. e ≢ Error.NoMemory → body_named kind.now version.now body.now ≡ Err e) }
    {
        let known = known(kind, version)?;
        Ok(read_bytes(alloc, known, body)?)
    }
}
