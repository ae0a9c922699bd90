// What is asked of a log, and what is sent to it.
ghost use Rattle.std.specs.Prelude.{◌≡◌, option_map, string_bytes, IfOk};
ghost use Rattle.std.specs.Int.NonZero.{non_zero_u8_get};
ghost use Rattle.sigstore_rekor.specs.Requests.{asked, sent, entry_by_uuid_of, entry_by_index_of, entry_request_of, dsse_request_of};
ghost use Rattle.sigstore_rekor.specs.Requests.{search_request_of, hash_request_of, v2_request_of, checkpoint_request, tile_request_of, bundle_request_of};

use crate::dsse_entry::DsseEntry;
use crate::entry_uuid::EntryUuid;
use crate::hashed_rekord::HashedRekord;
use crate::hashed_rekord_v2::HashedRekordV2;
use crate::paths::tile_path;
use crate::queries::SearchIndex;
use crate::request::{Method, Request};
use crate::written::{dsse_text, hashed_rekord_text, hashed_rekord_v2_text, search_text};
use foundation::NoMemory;
use sigstore_entries::LogIndex;
use sigstore_types_parts::{Bytes, Sha256Hash, Text};
use std::alloc::Global;
use std::num::NonZeroU8;

// A request that sends nothing.
fn asked(alloc: Global, path: String) -> Request
    ensures { result ≡ asked (string_bytes path) }
{
    Request {
        method: Method::Get,
        path: Text::from_string(path),
        body: Bytes::from_vec(Vec::new(alloc)),
    }
}

// A request that sends a text.
fn sent(alloc: Global, path: &str, body: String) -> Result<Request, NoMemory>
    ensures { IfOk result (λ request. request ≡ sent path.now (string_bytes body)) }
{
    Ok(Request {
        method: Method::Post,
        path: Text::new(alloc, path)?,
        body: Bytes::from_vec(body.into_bytes()),
    })
}

/// Asks a log of the first version for an entry by its name.
pub fn get_entry_by_uuid(alloc: Global, uuid: &EntryUuid) -> Result<Request, NoMemory>
    ensures { IfOk result (λ request. request ≡ entry_by_uuid_of uuid.now) }
{
    let name = uuid.as_str();
    let path = format!(in alloc; "/api/v1/log/entries/{name}")?;
    Ok(asked(alloc, path))
}

/// Asks a log of the first version for the entry at a place.
pub fn get_entry_by_index(alloc: Global, index: LogIndex) -> Result<Request, NoMemory>
    ensures { IfOk result (λ request. request ≡ entry_by_index_of index) }
{
    let place = index.get();
    let path = format!(in alloc; "/api/v1/log/entries?logIndex={place}")?;
    Ok(asked(alloc, path))
}

/// Sends a signature over a digest to a log of the first version.
pub fn create_entry(alloc: Global, entry: &HashedRekord) -> Result<Request, NoMemory>
    ensures { IfOk result (λ request. request ≡ entry_request_of entry.now) }
{
    let body = hashed_rekord_text(alloc, entry)?;
    Ok(sent(alloc, "/api/v1/log/entries", body)?)
}

/// Sends an envelope to a log of the first version.
pub fn create_dsse_entry(alloc: Global, entry: &DsseEntry) -> Result<Request, NoMemory>
    ensures { IfOk result (λ request. request ≡ dsse_request_of entry.now) }
{
    let body = dsse_text(alloc, entry)?;
    Ok(sent(alloc, "/api/v1/log/entries", body)?)
}

/// Searches the index of a log of the first version.
pub fn search_index(alloc: Global, query: &SearchIndex) -> Result<Request, NoMemory>
    ensures { IfOk result (λ request. request ≡ search_request_of query.now) }
{
    let body = search_text(alloc, query)?;
    Ok(sent(alloc, "/api/v1/index/retrieve", body)?)
}

/// Searches that index for the entries of an artifact by its SHA-256 digest.
pub fn search_by_hash(alloc: Global, hash: &Sha256Hash) -> Result<Request, NoMemory>
    ensures { IfOk result (λ request. request ≡ hash_request_of hash.now) }
{
    let query = SearchIndex::sha256(alloc, hash)?;
    Ok(search_index(alloc, &query)?)
}

/// Sends a signature over a digest to a log of the second version.
pub fn create_entry_v2(alloc: Global, entry: &HashedRekordV2) -> Result<Request, NoMemory>
    ensures { IfOk result (λ request. request ≡ v2_request_of entry.now) }
{
    let body = hashed_rekord_v2_text(alloc, entry)?;
    Ok(sent(alloc, "/api/v2/log/entries", body)?)
}

/// Asks a log of the second version for its latest checkpoint.
pub fn get_checkpoint(alloc: Global) -> Result<Request, NoMemory>
    ensures { IfOk result (λ request. request ≡ checkpoint_request) }
{
    let path = String::from_str(alloc, "/api/v2/checkpoint")?;
    Ok(asked(alloc, path))
}

/// Asks a log of the second version for a tile of hashes.
pub fn get_tile(
    alloc: Global,
    level: u32,
    index: u64,
    width: Option<NonZeroU8>,
) -> Result<Request, NoMemory>
    ensures { IfOk result
        (λ request. request ≡ tile_request_of level index (option_map non_zero_u8_get width)) }
{
    let tile = tile_path(alloc, index, width)?;
    let path = format!(in alloc; "/api/v2/tile/{level}/{tile}")?;
    Ok(asked(alloc, path))
}

/// Asks a log of the second version for a bundle of entries.
pub fn get_entry_bundle(
    alloc: Global,
    index: u64,
    width: Option<NonZeroU8>,
) -> Result<Request, NoMemory>
    ensures { IfOk result
        (λ request. request ≡ bundle_request_of index (option_map non_zero_u8_get width)) }
{
    let tile = tile_path(alloc, index, width)?;
    let path = format!(in alloc; "/api/v2/tile/entries/{tile}")?;
    Ok(asked(alloc, path))
}
