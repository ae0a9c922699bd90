// Byte strings of a kind, each seen as its bytes.
ghost use Rattle.std.specs.Prelude.{◌≡◌, ◌≢◌, Some, Ok, Err, refl, bytes_eq, string_bytes, IfOk, IfErr};
ghost use Rattle.std.specs.Ordering.{nat_cmp};
ghost use Rattle.std.specs.Cmp.{partial_equiv_from_equiv};
ghost use Rattle.std.specs.Cmp.Lexicographic.{slice_cmp, nat_list_eq_equiv, nat_list_cmp_total, texts_ties, texts_po};
ghost use Rattle.base64.specs.Engines.{standard};
ghost use Rattle.base64.specs.GeneralPurpose.{encode_of};
ghost use Rattle.sigstore_types_parts.specs.Encoded.{decoded_of};
ghost use Rattle.sigstore_types_parts.specs.Error.{types_of};

use crate::bytes::Bytes;
use crate::error::TypesError;
use crate::leaves::decoded;
use crate::text::Text;
use base64::engine::general_purpose::STANDARD;
use foundation::{Duplicate, NoMemory};
use std::alloc::Global;
use std::cmp::Ordering;
use std::fmt;
use std::marker::{Model, PhantomData};

/// The kind of certificates in DER.
#[derive(Drop)]
pub struct Certificate;

/// A certificate in DER.
pub type DerCertificate = ByteString<Certificate>;

/// The kind of public keys in DER.
#[derive(Drop)]
pub struct PublicKey;

/// A public key as a SubjectPublicKeyInfo in DER.
pub type DerPublicKey = ByteString<PublicKey>;

/// The kind of signatures.
#[derive(Drop)]
pub struct Signature;

/// A signature.
pub type SignatureBytes = ByteString<Signature>;

/// The kind of contents of armoured texts.
#[derive(Drop)]
pub struct Pem;

/// The content of an armoured text.
pub type PemContent = ByteString<Pem>;

/// The kind of payloads of envelopes.
#[derive(Drop)]
pub struct Payload;

/// The payload of an envelope.
pub type PayloadBytes = ByteString<Payload>;

/// The kind of digests of any length.
#[derive(Drop)]
pub struct Digest;

/// A digest of any length.
pub type DigestBytes = ByteString<Digest>;

/// The kind of bodies of log entries.
#[derive(Drop)]
pub struct CanonicalBody;

/// The body of a log entry as it was logged.
pub type CanonicalizedBody = ByteString<CanonicalBody>;

/// The kind of time-stamp tokens.
#[derive(Drop)]
pub struct Token;

/// A time-stamp response or token in DER.
pub type TimestampToken = ByteString<Token>;

/// The kind of promises of logs.
#[derive(Drop)]
pub struct EntryPromise;

/// A log's promise to include an entry.
pub type SignedTimestamp = ByteString<EntryPromise>;

/// The kind of ids of log keys.
#[derive(Drop)]
pub struct LogKey;

/// The id of a log's key.
pub type LogKeyId = ByteString<LogKey>;

/// A byte string of a kind; contracts see its bytes, and it is ordered by them.
#[derive(Drop)]
pub struct ByteString<K> {
    bytes: Bytes,
    kind: PhantomData<K>,
}

impl<K> Model for ByteString<K> {
    ghost use Rattle.std.specs.Prelude.{ℕ, List};

    ghost Value = { List ℕ };

    ghost view = { λ b. b.bytes };
}

impl<K: Drop> ByteString<K> {
    /// These bytes; takes no memory.
    pub fn new(bytes: Bytes) -> ByteString<K>
        ensures { result ≡ bytes }
    {
        ByteString {
            bytes,
            kind: PhantomData,
        }
    }

    /// A copy of bytes.
    pub fn from_bytes(alloc: Global, bytes: &[u8]) -> Result<ByteString<K>, NoMemory>
        ensures { IfOk result (λ b. b ≡ bytes.now) }
    {
        Ok(ByteString::new(Bytes::new(alloc, bytes)?))
    }

    /// The bytes.
    pub fn as_bytes(&self) -> &[u8]
        ensures { result.now ≡ self.now }
    {
        self.bytes.as_bytes()
    }

    /// The bytes in base64 (RFC 4648, section 4), padded.
    pub fn to_base64(&self, alloc: Global) -> Result<Text, NoMemory>
        ensures { IfOk result (λ t. t ≡ encode_of standard self.now) }
    {
        Ok(Text::from_string(STANDARD.encode(alloc, self.as_bytes())?))
    }

    /// The bytes that a base64 text (RFC 4648, section 4) spells. Errors: `Base64` for any other text.
    pub fn from_base64(alloc: Global, text: &str) -> Result<ByteString<K>, TypesError>
        ensures ok { IfOk result (λ b. decoded_of types_of text.now ≡ Ok b) }
        ensures err { IfErr result (λ e. e ≢ TypesError.NoMemory → decoded_of types_of text.now ≡ Err e) }
    {
        match decoded::<TypesError>(alloc, text) {
            Ok(bytes) => Ok(ByteString::new(bytes)),
            Err(e) => Err(e),
        }
    }
}

impl<K: Drop> Duplicate for ByteString<K> {
    fn duplicate(&self, alloc: Global) -> Result<ByteString<K>, NoMemory> {
        ByteString::from_bytes(alloc, self.as_bytes())
    }
}

impl<K: Drop> fmt::Debug for ByteString<K> {
    fn fmt<W: fmt::Write>(&self, f: &mut fmt::Formatter<W>) -> fmt::Result {
        fmt::Debug::fmt(&self.as_bytes(), f)
    }
}

impl<K: Drop> PartialEq for ByteString<K> {
    ghost eq = { bytes_eq };

    ghost laws = { partial_equiv_from_equiv nat_list_eq_equiv };

    fn eq(&self, other: &ByteString<K>) -> bool {
        self.as_bytes() == other.as_bytes()
    }
}

impl<K: Drop> Eq for ByteString<K> {
    ghost laws = { nat_list_eq_equiv };
}

impl<K: Drop> PartialOrd for ByteString<K> {
    ghost partial_cmp = { λ a b. Some (slice_cmp nat_cmp a b) };

    ghost laws = { texts_po };

    fn partial_cmp(&self, other: &ByteString<K>) -> Option<Ordering> {
        Some(self.cmp(other))
    }
}

impl<K: Drop> Ord for ByteString<K> {
    ghost cmp = { slice_cmp nat_cmp };

    ghost total = { nat_list_cmp_total };

    ghost matches_partial_cmp = { λ a b. refl };

    ghost matches_eq = { texts_ties };

    fn cmp(&self, other: &ByteString<K>) -> Ordering {
        self.as_bytes().cmp(other.as_bytes())
    }
}
