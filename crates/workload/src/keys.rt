// The one key, and the log's id.
ghost use Rattle.std.specs.Prelude.{◌≡◌, string_bytes, IfOk};
ghost use Rattle.workload.specs.Keys.{raw_key, spki, base64_of, armored_key, log_id};

use base64::engine::general_purpose::STANDARD;
use foundation::NoMemory;
use sigstore_types_parts::Bytes;
use std::alloc::Global;

// The front of the key's SubjectPublicKeyInfo: the algorithm, and the head of the bit string.
const SPKI_FRONT: [u8; 26] = [
    0x30, 0x59, 0x30, 0x13, 0x06, 0x07, 0x2a, 0x86, 0x48, 0xce, 0x3d, 0x02, 0x01, 0x06, 0x08, 0x2a,
    0x86, 0x48, 0xce, 0x3d, 0x03, 0x01, 0x07, 0x03, 0x42, 0x00,
];

/// The raw key: 04 and 64 zero octets.
#[tactic(auto, unfolding(crate::specs::Keys::raw_key))]
pub fn raw_key(alloc: Global) -> Result<Bytes, NoMemory>
    ensures { IfOk result (λ key. key ≡ raw_key) }
{
    let mut key = Vec::new(alloc);
    key.push(4)?;
    key.extend_from_slice(&[0u8; 64])?;
    Ok(Bytes::from_vec(key))
}

/// The key as a SubjectPublicKeyInfo.
#[tactic(auto, unfolding(crate::specs::Keys::spki))]
pub fn spki(alloc: Global) -> Result<Bytes, NoMemory>
    ensures { IfOk result (λ key. key ≡ spki) }
{
    let raw = raw_key(alloc)?;
    let mut key = Vec::from_slice(alloc, &SPKI_FRONT)?;
    key.extend_from_slice(raw.as_bytes())?;
    Ok(Bytes::from_vec(key))
}

/// The log's id: 32 octets 07.
#[tactic(auto, unfolding(crate::specs::Keys::log_id))]
pub fn log_id(alloc: Global) -> Result<Bytes, NoMemory>
    ensures { IfOk result (λ id. id ≡ log_id) }
{
    Bytes::new(alloc, &[7u8; 32])
}

/// Octets in base64 (RFC 4648, section 4).
pub fn in_base64(alloc: Global, bytes: &[u8]) -> Result<String, NoMemory>
    ensures { IfOk result (λ text. string_bytes text ≡ base64_of bytes.now) }
{
    Ok(STANDARD.encode(alloc, bytes)?)
}

/// The key as documents declare it.
#[tactic(auto, unfolding(crate::specs::Keys::armored_key))]
pub fn armored_key(alloc: Global) -> Result<String, NoMemory>
    ensures { IfOk result (λ text. string_bytes text ≡ armored_key) }
{
    let key = spki(alloc)?;
    let mut text = String::from_str(alloc, "der:")?;
    let encoded = in_base64(alloc, key.as_bytes())?;
    text.push_str(encoded.as_str())?;
    Ok(text)
}
