// Bytes in hexadecimal, each seen as its text.
ghost use Rattle.std.specs.Prelude.{◌≡◌, ◌≢◌, Some, Ok, Err, bytes_eq, IfOk, IfErr};
ghost use Rattle.std.proofs.Common.{rules};
ghost use Rattle.std.specs.Hash as fed;
ghost use Rattle.std.specs.Cmp.{partial_equiv_from_equiv};
ghost use Rattle.std.specs.Cmp.Lexicographic.{nat_list_eq_equiv};
ghost use Rattle.std.specs.Cmp.Rules.{hashing};
ghost use Rattle.std.specs.List.{list_all};
ghost use Rattle.hex.specs.Hex.{encode_lower, is_hex_digit};
ghost use Rattle.sigstore_types_parts.specs.Encoded.{hex_of};
ghost use Rattle.sigstore_types_parts.specs.Read.{text_of};
ghost use Rattle.sigstore_rekor_parts.specs.Hex.{unhexed_of};

use foundation::{Duplicate, NoMemory};
use hex::{FromHex, FromHexError};
use serde_json::Value;
use sigstore_types_parts::{Bytes, FromValue, LogKeyId, Refusal, Sha256Hash, Text, TypesError};
use std::alloc::Global;
use std::fmt;
use std::hash::{Hash, Hasher};
use std::marker::{Model, PhantomData};

/// The kind of ids of logs.
#[derive(Drop)]
pub struct OfLog;

/// A log's id in hexadecimal, as Rekor's API writes it; it is looked into when it is decoded.
pub type HexLogId = HexText<OfLog>;

/// The kind of hashes.
#[derive(Drop)]
pub struct OfHash;

/// A hash in hexadecimal, as log bodies write it; it is looked into when it is decoded.
pub type HexHash = HexText<OfHash>;

/// A text of a kind that is to be hexadecimal; contracts see the text.
#[derive(Drop)]
pub struct HexText<K> {
    text: Text,
    kind: PhantomData<K>,
}

impl<K> Model for HexText<K> {
    ghost use Rattle.std.specs.Prelude.{ℕ, List};

    ghost Value = { List ℕ };

    ghost view = { λ h. h.text };
}

impl<K: Drop> HexText<K> {
    /// This text; takes no memory.
    pub fn new(text: Text) -> HexText<K>
        ensures { result ≡ text }
    {
        HexText {
            text,
            kind: PhantomData,
        }
    }

    /// Bytes in lower-case hexadecimal.
    pub fn encode(alloc: Global, bytes: &[u8]) -> Result<HexText<K>, NoMemory>
        ensures { IfOk result (λ h. h ≡ encode_lower bytes.now) }
    {
        Ok(HexText::new(Text::from_string(hex::encode(alloc, bytes)?)))
    }

    /// The bytes that the text spells. Errors: `Hex` where it isn't an even number of hexadecimal digits.
    pub fn decode(&self, alloc: Global) -> Result<Bytes, TypesError>
        ensures ok { IfOk result (λ b. unhexed_of self.now ≡ Ok b) }
        ensures err { IfErr result (λ e. e ≢ TypesError.NoMemory → unhexed_of self.now ≡ Err e) }
    {
        match hex::decode(alloc, self.as_str().as_bytes()) {
            Ok(bytes) => Ok(Bytes::from_vec(bytes)),
            Err(FromHexError::OutOfMemory) => Err(TypesError::NoMemory),
            Err(_) => Err(TypesError::Hex),
        }
    }

    /// The text.
    pub fn as_str(&self) -> &str
        ensures { result.now ≡ self.now }
    {
        self.text.as_str()
    }

    /// The text; takes no memory.
    pub fn into_string(self) -> Text
        ensures { result ≡ self }
    {
        let HexText { text, .. } = self;
        text
    }
}

impl HexLogId {
    /// The id as bundles have it. Errors: `Hex` where the text isn't an even number of hexadecimal digits.
    pub fn to_log_key_id(&self, alloc: Global) -> Result<LogKeyId, TypesError>
        ensures ok { IfOk result (λ b. unhexed_of self.now ≡ Ok b) }
        ensures err { IfErr result (λ e. e ≢ TypesError.NoMemory → unhexed_of self.now ≡ Err e) }
    {
        match self.decode(alloc) {
            Ok(bytes) => Ok(LogKeyId::new(bytes)),
            Err(e) => Err(e),
        }
    }
}

impl HexHash {
    /// The SHA-256 value that the text spells. Errors: `Hex`, else `Length` where it spells another number of
    /// bytes than 32.
    pub fn to_sha256(&self) -> Result<Sha256Hash, TypesError>
        ensures { result ≡ hex_of 32 self.now }
    {
        sha256_from_hex(self.as_str())
    }
}

/// The SHA-256 value that a text in hexadecimal spells. Errors: `Hex`, else `Length`.
pub fn sha256_from_hex(text: &str) -> Result<Sha256Hash, TypesError>
    ensures { result ≡ hex_of 32 text.now }
{
    match <[u8; 32] as FromHex>::from_hex(text.as_bytes()) {
        Ok(bytes) => Ok(Sha256Hash::new(bytes)),
        Err(FromHexError::InvalidStringLength) => if are_digits(text.as_bytes()) {
            Err(TypesError::Length {
                expected: 32,
                actual: (text.len() / 2) as u64,
            })
        } else {
            Err(TypesError::Hex)
        },
        Err(_) => Err(TypesError::Hex),
    }
}

fn are_digits(text: &[u8]) -> bool
    ensures { result ≡ list_all is_hex_digit text.now }
{
    text.iter().all(|digit| digit.is_ascii_hexdigit())
}

impl<K: Drop> Duplicate for HexText<K> {
    fn duplicate(&self, alloc: Global) -> Result<HexText<K>, NoMemory> {
        Ok(HexText::new(self.text.duplicate(alloc)?))
    }
}

impl<E: Refusal, K: Drop> FromValue<E> for HexText<K> {
    ghost reads = { text_of E.of };

    fn from_value(alloc: Global, value: &Value) -> Result<HexText<K>, E> {
        match Text::from_value(alloc, value) {
            Ok(text) => Ok(HexText::new(text)),
            Err(e) => Err(e),
        }
    }
}

impl<K: Drop> fmt::Display for HexText<K> {
    ghost output = { λ h. Some h };

    fn fmt<W: fmt::Write>(&self, f: &mut fmt::Formatter<W>) -> fmt::Result {
        fmt::Display::fmt(&self.as_str(), f)
    }
}

impl<K: Drop> fmt::Debug for HexText<K> {
    fn fmt<W: fmt::Write>(&self, f: &mut fmt::Formatter<W>) -> fmt::Result {
        fmt::Debug::fmt(&self.as_str(), f)
    }
}

impl<K: Drop> PartialEq for HexText<K> {
    ghost eq = { bytes_eq };

    ghost laws = { partial_equiv_from_equiv nat_list_eq_equiv };

    fn eq(&self, other: &HexText<K>) -> bool {
        self.as_str() == other.as_str()
    }
}

impl<K: Drop> Eq for HexText<K> {
    ghost laws = { nat_list_eq_equiv };
}

impl<K: Drop> Hash for HexText<K> {
    ghost hash_input = { fed.str };

    ghost respects_eq = { Prim.search (hashing, rules) };

    fn hash<H: Hasher>(&self, state: &mut H) {
        self.as_str().hash(state);
    }
}
