// What the tables of a provider file answer.
ghost use Rattle.std.specs.Prelude.{◌≡◌};
ghost use Rattle.command_files.specs.Rows.{is_row, of_subject, accepts_of};
ghost use Rattle.command_files.specs.Tables.{is_armored_by, armor_content};
ghost use Rattle.std.specs.List.{list_any};
ghost use Rattle.std.specs.Result.{result_ok};
ghost use Rattle.base64.specs.Engines.{standard};
ghost use Rattle.base64.specs.GeneralPurpose.{decode_of};
ghost use Rattle.std.specs.Prelude.{IfOk};

use crate::byte_map::ByteMap;
use crate::rows::{AcceptRow, is_der};
use crate::subject::Subject;
use crate::tables::{TableArmor, TableProvider};
use base64::DecodeAllocError;
use base64::engine::general_purpose::STANDARD;
use foundation::{Duplicate, NoMemory, Sequence};
use sigstore_keys::{CryptoProvider, SigningScheme};
use sigstore_types_parts::{Armor, Bytes};
use std::alloc::Global;

// Whether some of these rows is that of a scheme, a raw key, a subject and a signature.
fn has_row(
    rows: &ByteMap<Sequence<AcceptRow>>,
    scheme: SigningScheme,
    key: &[u8],
    subject: &[u8],
    signature: &[u8],
) -> bool
    ensures { result ≡ list_any (is_row scheme key.now subject.now signature.now) (of_subject subject.now rows.now) }
{
    match rows.get(subject) {
        Some(rows) => rows
            .as_slice()
            .iter()
            .any(|row| row.is_of(scheme, key, subject, signature)),
        None => false,
    }
}

impl TableProvider {
    /// Whether some row is that of a scheme, a raw key, a subject and a signature.
    pub fn accepts(
        &self,
        scheme: SigningScheme,
        key: &[u8],
        subject: &[u8],
        signature: &[u8],
    ) -> bool
        ensures { result ≡ accepts_of self.now.rows scheme key.now subject.now signature.now }
    {
        match self.rows.get(signature) {
            Some(subjects) => has_row(subjects, scheme, key, subject, signature),
            None => false,
        }
    }
}

impl CryptoProvider for TableProvider {
    ghost accepts = { λ p. accepts_of p.rows };

    fn verify_raw(
        &self,
        scheme: SigningScheme,
        key: &[u8],
        message: &[u8],
        signature: &[u8],
    ) -> bool {
        let subject = Subject::new(scheme, message);
        self.accepts(scheme, key, subject.as_bytes(), signature)
    }

    fn verify_prehashed(
        &self,
        scheme: SigningScheme,
        key: &[u8],
        digest: &[u8],
        signature: &[u8],
    ) -> bool {
        self.accepts(scheme, key, digest, signature)
    }
}

// The bytes that a base64 text spells, or none.
fn decoded(alloc: Global, text: &[u8]) -> Result<Option<Bytes>, NoMemory>
    ensures { IfOk result (λ b. b ≡ result_ok (decode_of standard text.now)) }
{
    match STANDARD.decode(alloc, text) {
        Ok(bytes) => Ok(Some(Bytes::from_vec(bytes))),
        Err(DecodeAllocError::OutOfMemory) => Err(NoMemory),
        Err(_) => Ok(None),
    }
}

// What a text holds by these rows.
fn content(alloc: Global, rows: &ByteMap<Bytes>, text: &[u8]) -> Result<Option<Bytes>, NoMemory>
    ensures { IfOk result (λ b. b ≡ armor_content rows.now text.now) }
{
    if is_der(text) {
        let (_, rest) = text.split_at(4);
        return decoded(alloc, rest);
    }
    match rows.get(text) {
        Some(der) => Ok(Some(der.duplicate(alloc)?)),
        None => Ok(None),
    }
}

impl Armor for TableArmor {
    ghost armored = { is_armored_by };

    ghost key_in = { λ a. armor_content a.keys };

    ghost certificate_in = { λ a. armor_content a.certificates };

    fn is_armored(&self, text: &[u8]) -> bool {
        is_der(text) || self.keys.get(text).is_some() || self.certificates.get(text).is_some()
    }

    fn read_key(&self, alloc: Global, text: &[u8]) -> Result<Option<Bytes>, NoMemory> {
        content(alloc, &self.keys, text)
    }

    fn read_certificate(&self, alloc: Global, text: &[u8]) -> Result<Option<Bytes>, NoMemory> {
        content(alloc, &self.certificates, text)
    }

    fn write_certificate(&self, alloc: Global, der: &[u8]) -> Result<Bytes, NoMemory> {
        let encoded = STANDARD.encode(alloc, der)?;
        let mut text = String::from_str(alloc, "der:")?;
        text.push_str(encoded.as_str())?;
        Ok(Bytes::from_vec(text.into_bytes()))
    }
}
