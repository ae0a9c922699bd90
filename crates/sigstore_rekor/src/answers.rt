// A log's answers.
ghost use Rattle.std.specs.Prelude.{◌≡◌, ◌≢◌, Ok, Err, IfOk, IfErr};
ghost use Rattle.serde_json.specs.View.{view, members_view};
ghost use Rattle.sigstore_rekor_parts.specs.Error.{rekor_of};
ghost use Rattle.sigstore_rekor.specs.Answers.{accepted_of, refused_fault, answer_of, named_of, single_in, single_of, entry_answer_of, v2_entry_of, valid_of, checkpoint_in};
ghost use Rattle.sigstore_rekor.specs.Answers.{search_answer_of, v2_entry_answer_of, checkpoint_answer_of, tile_answer_of, bundle_answer_of};

use crate::entry_uuid::EntryUuid;
use crate::hashed_rekord_v2::HashedRekordV2;
use crate::log_entry::LogEntry;
use crate::refused::refused;
use crate::tile::{RekorV2EntryBundle, RekorV2Tile};
use crate::validate::validate_v2_entry;
use foundation::Sequence;
use serde_json::{Map, Value};
use sigstore_entries::{Checkpoint, TransparencyLogEntry};
use sigstore_rekor_parts::{Error, ResponseRule};
use sigstore_types_parts::{Bytes, FromValue, JsonFault, Text, TypesError, parse_json};
use std::alloc::Global;
use std::num::NonZeroU8;

// A status that says that the request was met (RFC 9110, section 15.3).
fn accepted(status: u16) -> Result<(), Error>
    ensures { result ≡ accepted_of status }
{
    if status >= 200 && status < 300 {
        Ok(())
    } else {
        Err(Error::Status { status })
    }
}

fn refused_fault(fault: JsonFault) -> Error
    ensures { result ≡ refused_fault fault }
{
    match fault {
        JsonFault::NotJson => Error::Json,
        JsonFault::Float => Error::InvalidResponse {
            rule: ResponseRule::Float,
        },
        JsonFault::NoMemory => Error::NoMemory,
    }
}

// The JSON value of an answer.
#[tactic(auto, unfolding(crate::specs::Answers::answer_of))]
fn answer(alloc: Global, status: u16, body: &[u8]) -> Result<Value, Error>
    ensures ok { IfOk result (λ v. answer_of status body.now ≡ Ok (view v)) }
    ensures err { IfErr result (λ e. e ≢ Error.NoMemory → answer_of status body.now ≡ Err e) }
{
    accepted(status)?;
    match parse_json(alloc, body) {
        Ok(value) => Ok(value),
        Err(fault) => Err(refused_fault(fault)),
    }
}

fn named(alloc: Global, name: &str, value: &Value) -> Result<LogEntry, Error>
    ensures ok { IfOk result (λ entry. named_of name.now (view value.now) ≡ Ok entry) }
    ensures err { IfErr result (λ e. e ≢ Error.NoMemory → named_of name.now (view value.now) ≡ Err e) }
{
    let entry = <LogEntry as FromValue<Error>>::from_value(alloc, value)?;
    let uuid = EntryUuid::new(Text::new(alloc, name)?);
    Ok(LogEntry {
        uuid,
        body: entry.body,
        integrated_time: entry.integrated_time,
        log_id: entry.log_id,
        log_index: entry.log_index,
        verification: entry.verification,
    })
}

// The only entry of an object, under its name.
fn single_in(alloc: Global, members: &Map<String, Value>) -> Result<LogEntry, Error>
    ensures ok { IfOk result (λ entry. single_in (members_view members.now.entries) ≡ Ok entry) }
    ensures err { IfErr result (λ e. e ≢ Error.NoMemory → single_in (members_view members.now.entries) ≡ Err e) }
{
    let mut entries = members.iter();
    match entries.next() {
        Some((name, value)) => if entries.next().is_none() {
            match named(alloc, name.as_str(), value) {
                Ok(entry) => Ok(entry),
                Err(e) => Err(e),
            }
        } else {
            Err(Error::InvalidResponse {
                rule: ResponseRule::Entries,
            })
        },
        None => Err(Error::InvalidResponse {
            rule: ResponseRule::Entries,
        }),
    }
}

#[tactic(auto, unfolding(crate::specs::Answers::single_of))]
fn single(alloc: Global, value: &Value) -> Result<LogEntry, Error>
    ensures ok { IfOk result (λ entry. single_of (view value.now) ≡ Ok entry) }
    ensures err { IfErr result (λ e. e ≢ Error.NoMemory → single_of (view value.now) ≡ Err e) }
{
    match value.as_object() {
        Some(members) => match single_in(alloc, members) {
            Ok(entry) => Ok(entry),
            Err(e) => Err(e),
        },
        None => Err(Error::InvalidResponse {
            rule: ResponseRule::Shape,
        }),
    }
}

/// The entry that an answer tells, and its name. Errors: `Status` outside 200 to 299, `Json`, then
/// `InvalidResponse` with `Float`, `Shape` or `Entries` where the answer isn't an object of one member, and the
/// rule that the entry's first wrong member breaks.
pub fn read_entry(alloc: Global, status: u16, body: &[u8]) -> Result<LogEntry, Error>
    ensures ok { IfOk result (λ entry. entry_answer_of status body.now ≡ Ok entry) }
    ensures err { IfErr result (λ e. e ≢ Error.NoMemory → entry_answer_of status body.now ≡ Err e) }
{
    let value = answer(alloc, status, body)?;
    Ok(single(alloc, &value)?)
}

/// The names of entries that an answer tells. Errors: `Status` outside 200 to 299, `Json`, then `InvalidResponse`
/// with `Float`, or `Shape` where the answer isn't a list of texts.
pub fn read_search(alloc: Global, status: u16, body: &[u8]) -> Result<Sequence<EntryUuid>, Error>
    ensures ok { IfOk result (λ uuids. search_answer_of status body.now ≡ Ok uuids) }
    ensures err { IfErr result (λ e. e ≢ Error.NoMemory → search_answer_of status body.now ≡ Err e) }
{
    let value = answer(alloc, status, body)?;
    Ok(<Sequence<EntryUuid> as FromValue<Error>>::from_value(alloc, &value)?)
}

fn v2_entry(alloc: Global, value: &Value) -> Result<TransparencyLogEntry, Error>
    ensures ok { IfOk result (λ entry. v2_entry_of (view value.now) ≡ Ok entry) }
    ensures err { IfErr result (λ e. e ≢ Error.NoMemory → v2_entry_of (view value.now) ≡ Err e) }
{
    match <TransparencyLogEntry as FromValue<TypesError>>::from_value(alloc, value) {
        Ok(entry) => Ok(entry),
        Err(e) => Err(refused(e)),
    }
}

// An entry, where it is of what was sent.
#[tactic(auto, unfolding(crate::specs::Answers::valid_of))]
fn valid(
    alloc: Global,
    entry: TransparencyLogEntry,
    request: &HashedRekordV2,
) -> Result<TransparencyLogEntry, Error>
    ensures ok { IfOk result (λ found. valid_of request.now entry ≡ Ok found) }
    ensures err { IfErr result (λ e. e ≢ Error.NoMemory → valid_of request.now entry ≡ Err e) }
{
    match validate_v2_entry(alloc, &entry, request) {
        Ok(()) => Ok(entry),
        Err(e) => Err(e),
    }
}

/// The entry that a log of the second version answers to a request. Errors: `Status` outside 200 to 299, `Json`,
/// `InvalidResponse` with `Float` or the rule that the entry breaks, then those of `validate_v2_entry`.
pub fn read_v2_entry(
    alloc: Global,
    status: u16,
    body: &[u8],
    request: &HashedRekordV2,
) -> Result<TransparencyLogEntry, Error>
    ensures ok { IfOk result (λ entry. v2_entry_answer_of status body.now request.now ≡ Ok entry) }
    ensures err { IfErr result
        (λ e. e ≢ Error.NoMemory → v2_entry_answer_of status body.now request.now ≡ Err e) }
{
    let value = answer(alloc, status, body)?;
    let entry = v2_entry(alloc, &value)?;
    Ok(valid(alloc, entry, request)?)
}

fn checkpoint(alloc: Global, body: &[u8]) -> Result<Checkpoint, Error>
    ensures ok { IfOk result (λ c. checkpoint_in body.now ≡ Ok c) }
    ensures err { IfErr result (λ e. e ≢ Error.NoMemory → checkpoint_in body.now ≡ Err e) }
{
    match Checkpoint::from_text(alloc, body) {
        Ok(checkpoint) => Ok(checkpoint),
        Err(e) => Err(refused(e)),
    }
}

/// The checkpoint that an answer is; no signature of it is judged. Errors: `Status` outside 200 to 299, then
/// `InvalidResponse` with `Checkpoint`.
pub fn read_checkpoint(alloc: Global, status: u16, body: &[u8]) -> Result<Checkpoint, Error>
    ensures ok { IfOk result (λ c. checkpoint_answer_of status body.now ≡ Ok c) }
    ensures err { IfErr result (λ e. e ≢ Error.NoMemory → checkpoint_answer_of status body.now ≡ Err e) }
{
    accepted(status)?;
    Ok(checkpoint(alloc, body)?)
}

/// The tile that an answer is, with what was asked for. Errors: `Status` outside 200 to 299.
pub fn read_tile(
    alloc: Global,
    status: u16,
    body: &[u8],
    level: u32,
    index: u64,
    width: Option<NonZeroU8>,
) -> Result<RekorV2Tile, Error>
    ensures ok { IfOk result (λ tile. tile_answer_of status body.now level index width ≡ Ok tile) }
    ensures err { IfErr result
        (λ e. e ≢ Error.NoMemory → tile_answer_of status body.now level index width ≡ Err e) }
{
    accepted(status)?;
    Ok(RekorV2Tile {
        level,
        index,
        width,
        bytes: Bytes::new(alloc, body)?,
    })
}

/// The bundle of entries that an answer is, with what was asked for. Errors: `Status` outside 200 to 299.
pub fn read_entry_bundle(
    alloc: Global,
    status: u16,
    body: &[u8],
    index: u64,
    width: Option<NonZeroU8>,
) -> Result<RekorV2EntryBundle, Error>
    ensures ok { IfOk result (λ bundle. bundle_answer_of status body.now index width ≡ Ok bundle) }
    ensures err { IfErr result
        (λ e. e ≢ Error.NoMemory → bundle_answer_of status body.now index width ≡ Err e) }
{
    accepted(status)?;
    Ok(RekorV2EntryBundle {
        index,
        width,
        bytes: Bytes::new(alloc, body)?,
    })
}
