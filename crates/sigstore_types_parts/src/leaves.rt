// Readers of the leaves and containers of a JSON value, over every crate's error.
ghost use Rattle.std.specs.Prelude.{◌≡◌, ◌≢◌, Ok, Err, IfOk, IfErr};
ghost use Rattle.serde_json.specs.View.{view, items_view, members_view};
ghost use Rattle.sigstore_types_parts.specs.declared.misread.Misread.TheVariants.{NoMemory};
ghost use Rattle.sigstore_types_parts.specs.Read.{u64_of, bool_of, text_of, json_of, moment_of, map_of, entries_of, sequence_of, items_of};
ghost use Rattle.sigstore_types_parts.specs.Encoded.{decoded_of, bytes_of, sized_of, hash_of};
ghost use Rattle.sigstore_types_parts.specs.Instant.{instant_of};

use crate::byte_string::ByteString;
use crate::bytes::Bytes;
use crate::hash::Hash;
use crate::json_value::Json;
use crate::misread::{Misread, Refusal};
use crate::read::FromValue;
use crate::text::Text;
use crate::text_map::{TextMap, put};
use base64::DecodeAllocError;
use base64::engine::general_purpose::STANDARD;
use foundation::Sequence;
use jiff::Timestamp;
use serde_json::{Map, Value};
use std::alloc::Global;

impl<E: Refusal> FromValue<E> for u64 {
    ghost reads = { u64_of E.of };

    fn from_value(_alloc: Global, value: &Value) -> Result<u64, E> {
        match value.as_u64() {
            Some(n) => Ok(n),
            None => Err(E::of_misread(Misread::Shape)),
        }
    }
}

impl<E: Refusal> FromValue<E> for bool {
    ghost reads = { bool_of E.of };

    fn from_value(_alloc: Global, value: &Value) -> Result<bool, E> {
        match value.as_bool() {
            Some(b) => Ok(b),
            None => Err(E::of_misread(Misread::Shape)),
        }
    }
}

impl<E: Refusal> FromValue<E> for Text {
    ghost reads = { text_of E.of };

    fn from_value(alloc: Global, value: &Value) -> Result<Text, E> {
        match value.as_str() {
            Some(text) => match Text::new(alloc, text) {
                Ok(text) => Ok(text),
                Err(_) => Err(E::of_misread(Misread::NoMemory)),
            },
            None => Err(E::of_misread(Misread::Shape)),
        }
    }
}

impl<E: Refusal, T: FromValue<E>> FromValue<E> for Sequence<T> {
    ghost reads = { sequence_of E.of T.reads };

    #[tactic(auto, unfolding(crate::specs::Read::sequence_of))]
    fn from_value(alloc: Global, value: &Value) -> Result<Sequence<T>, E> {
        match value.as_array() {
            Some(items) => match read_items(alloc, items) {
                Ok(read) => Ok(read),
                Err(e) => Err(e),
            },
            None => Err(E::of_misread(Misread::Shape)),
        }
    }
}

fn read_items<E: Refusal, T: FromValue<E>>(
    alloc: Global,
    items: &Vec<Value>,
) -> Result<Sequence<T>, E>
    ensures ok { IfOk result (λ s. items_of T.reads (items_view items.now.items) ≡ Ok s) }
    ensures err { IfErr result
        (λ e. e ≢ E.of NoMemory → items_of T.reads (items_view items.now.items) ≡ Err e) }
{
    let mut found = Sequence::new(alloc);
    for item in items {
        match T::from_value(alloc, item) {
            Err(e) => return Err(e),
            Ok(read) => if found.push(read).is_err() {
                return Err(E::of_misread(Misread::NoMemory));
            },
        }
    }
    Ok(found)
}

impl<E: Refusal, T: FromValue<E>> FromValue<E> for TextMap<T> {
    ghost reads = { map_of E.of T.reads };

    #[tactic(auto, unfolding(crate::specs::Read::map_of))]
    fn from_value(alloc: Global, value: &Value) -> Result<TextMap<T>, E> {
        match value.as_object() {
            Some(members) => match read_members(alloc, members) {
                Ok(read) => Ok(read),
                Err(e) => Err(e),
            },
            None => Err(E::of_misread(Misread::Shape)),
        }
    }
}

fn read_members<E: Refusal, T: FromValue<E>>(
    alloc: Global,
    members: &Map<String, Value>,
) -> Result<TextMap<T>, E>
    ensures ok { IfOk result (λ m. entries_of T.reads (members_view members.now.entries) ≡ Ok m) }
    ensures err { IfErr result
        (λ e. e ≢ E.of NoMemory → entries_of T.reads (members_view members.now.entries) ≡ Err e) }
{
    let mut found = TextMap::new(alloc);
    for (name, member) in members.iter() {
        match T::from_value(alloc, member) {
            Err(e) => return Err(e),
            Ok(item) => match put(alloc, &mut found, name.as_str(), item) {
                Ok(()) => (),
                Err(_) => return Err(E::of_misread(Misread::NoMemory)),
            },
        }
    }
    Ok(found)
}

impl<E: Refusal> FromValue<E> for Json {
    ghost reads = { json_of };

    fn from_value(_alloc: Global, value: &Value) -> Result<Json, E> {
        match Json::copy_of(value) {
            Ok(copy) => Ok(copy),
            Err(_) => Err(E::of_misread(Misread::NoMemory)),
        }
    }
}

impl<E: Refusal> FromValue<E> for Timestamp {
    ghost reads = { moment_of E.of };

    fn from_value(_alloc: Global, value: &Value) -> Result<Timestamp, E> {
        match value.as_str() {
            Some(text) => match instant(text) {
                Some(moment) => Ok(moment),
                None => Err(E::of_misread(Misread::Shape)),
            },
            None => Err(E::of_misread(Misread::Shape)),
        }
    }
}

/// The instant that a text names, as `jiff` reads it.
pub fn instant(text: &str) -> Option<Timestamp>
    ensures { result ≡ instant_of text.now }
{
    match text.parse::<Timestamp>() {
        Ok(moment) => Some(moment),
        Err(_) => None,
    }
}

// The bytes that a base64 text spells.
pub(crate) fn decoded<E: Refusal>(alloc: Global, text: &str) -> Result<Bytes, E>
    ensures ok { IfOk result (λ b. decoded_of E.of text.now ≡ Ok b) }
    ensures err { IfErr result (λ e. e ≢ E.of NoMemory → decoded_of E.of text.now ≡ Err e) }
{
    match STANDARD.decode(alloc, text.as_bytes()) {
        Ok(bytes) => Ok(Bytes::from_vec(bytes)),
        Err(DecodeAllocError::OutOfMemory) => Err(E::of_misread(Misread::NoMemory)),
        Err(_) => Err(E::of_misread(Misread::Base64)),
    }
}

impl<E: Refusal> FromValue<E> for Bytes {
    ghost reads = { bytes_of E.of };

    fn from_value(alloc: Global, value: &Value) -> Result<Bytes, E> {
        match value.as_str() {
            Some(text) => match decoded(alloc, text) {
                Ok(bytes) => Ok(bytes),
                Err(e) => Err(e),
            },
            None => Err(E::of_misread(Misread::Shape)),
        }
    }
}

impl<E: Refusal, K: Drop> FromValue<E> for ByteString<K> {
    ghost reads = { bytes_of E.of };

    fn from_value(alloc: Global, value: &Value) -> Result<ByteString<K>, E> {
        match value.as_str() {
            Some(text) => match decoded(alloc, text) {
                Ok(bytes) => Ok(ByteString::new(bytes)),
                Err(e) => Err(e),
            },
            None => Err(E::of_misread(Misread::Shape)),
        }
    }
}

impl<E: Refusal, const N: usize> FromValue<E> for Hash<N> {
    ghost reads = { hash_of E.of N };

    fn from_value(alloc: Global, value: &Value) -> Result<Hash<N>, E> {
        match Bytes::from_value(alloc, value) {
            Ok(bytes) => sized(&bytes),
            Err(e) => Err(e),
        }
    }
}

// A hash of these bytes, where they are as many.
fn sized<E: Refusal, const N: usize>(bytes: &Bytes) -> Result<Hash<N>, E>
    ensures { result ≡ sized_of E.of N bytes.now }
{
    let bytes = bytes.as_bytes();
    if bytes.len() != N {
        return Err(E::of_misread(Misread::Length {
            expected: N as u64,
            actual: bytes.len() as u64,
        }));
    }
    let mut all = [0u8; N];
    all.copy_from_slice(bytes);
    Ok(Hash::new(all))
}
