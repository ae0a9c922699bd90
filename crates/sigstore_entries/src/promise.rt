// What a log's promise signs.
ghost use Rattle.std.specs.Prelude.{◌≡◌, string_bytes, IfOk};
ghost use Rattle.sigstore_entries.specs.Promise.{written, payload_text_of, payload_of};

use crate::entry::TransparencyLogEntry;
use foundation::NoMemory;
use sigstore_types_parts::Bytes;
use std::alloc::Global;

/// The greatest place that a payload can tell: 2^53.
const GREATEST: u64 = 9_007_199_254_740_992;

fn written(alloc: Global, body: &str, time: i64, id: &str, index: u64) -> Result<String, NoMemory>
    ensures { IfOk result (λ text. string_bytes text ≡ written body.now time id.now index) }
{
    Ok(format!(in alloc;
        "{{\"body\":\"{body}\",\"integratedTime\":{time},\"logID\":\"{id}\",\"logIndex\":{index}}}"
    )?)
}

fn payload_text(alloc: Global, entry: &TransparencyLogEntry) -> Result<Bytes, NoMemory>
    ensures { IfOk result (λ payload. payload ≡ payload_text_of entry.now) }
{
    let body = entry.canonicalized_body.to_base64(alloc)?;
    let time = entry.integrated_time.unwrap_or(0);
    let id = hex::encode(alloc, entry.log_id.key_id.as_bytes())?;
    let text = written(
        alloc,
        body.as_str(),
        time,
        id.as_str(),
        entry.log_index.get(),
    )?;
    Ok(Bytes::from_vec(text.into_bytes()))
}

/// The text that a log's promise to include this entry signs; none for a place above 2^53, which its form
/// can't tell.
#[tactic(auto, unfolding(crate::specs::Promise::payload_of))]
pub fn promise_payload(
    alloc: Global,
    entry: &TransparencyLogEntry,
) -> Result<Option<Bytes>, NoMemory>
    ensures { IfOk result (λ payload. payload ≡ payload_of entry.now) }
{
    if entry.log_index.get() > GREATEST {
        return Ok(None);
    }
    Ok(Some(payload_text(alloc, entry)?))
}
