// A signed document: the frame round each kind.
ghost use Rattle.std.specs.Prelude.{◌≡◌, ◌≢◌, Ok, Err, IfOk, IfErr, false};
ghost use Rattle.serde_json.specs.View.{view};
ghost use Rattle.serde_json.specs.Written.{has_float};
ghost use Rattle.sigstore_tuf_text.specs.Canon.{canon};
ghost use Rattle.sigstore_tuf_parts.specs.Document.{document_of, signature_of, value_of, frame_of, content_of, document_in, text_in, HasExactText, IsExactly};
ghost use Rattle.sigstore_tuf_text.specs.Exact.{IsExact};

use crate::header::check_header;
use crate::role::Role;
use foundation::{Duplicate, NoMemory, Sequence};
use serde_json::Value;
use sigstore_tuf_text::{DocumentMember, Error, Rule, to_canonical_bytes};
use sigstore_types_parts::{Bytes, FromValue, Text, parse_json, required};
use std::alloc::Global;
use std::marker::Model;

/// A signature: the id of the key that made it, and the signature in hexadecimal.
#[derive(PartialEq, Drop)]
pub struct Signature {
    pub keyid: Text,
    pub sig: Text,
}

impl FromValue<Error> for Signature {
    ghost reads = { signature_of };

    #[tactic(auto, unfolding(crate::specs::Document::signature_of))]
    fn from_value(alloc: Global, value: &Value) -> Result<Signature, Error> {
        Ok(Signature {
            keyid: required(alloc, value, DocumentMember::Keyid)?,
            sig: required(alloc, value, DocumentMember::Sig)?,
        })
    }
}

impl Duplicate for Signature {
    fn duplicate(&self, alloc: Global) -> Result<Signature, NoMemory> {
        Ok(Signature {
            keyid: self.keyid.duplicate(alloc)?,
            sig: self.sig.duplicate(alloc)?,
        })
    }
}

/// A document as it was read; contracts see its content, its signatures and the canonical text that
/// they sign.
#[derive(Drop)]
pub struct Metadata<T> {
    signed: T,
    signatures: Sequence<Signature>,
    canonical: Bytes,
}

impl<T> Model for Metadata<T> {
    ghost use Rattle.std.specs.Prelude.{ℕ, List};
    ghost use Rattle.sigstore_tuf_parts.specs.declared.document.Signature.{Signature};

    ghost Value = { T × List Signature × List ℕ };

    ghost view = { λ m. (m.signed, m.signatures, m.canonical) };
}

impl<T> Metadata<T> {
    fn from_parts(signed: T, signatures: Sequence<Signature>, canonical: Bytes) -> Metadata<T>
        ensures { result ≡ (signed, signatures, canonical) }
    {
        Metadata {
            signed,
            signatures,
            canonical,
        }
    }

    /// The content.
    pub fn signed(&self) -> &T
        ensures { result.now ≡ self.now.0 }
    {
        &self.signed
    }

    /// The content alone; takes no memory.
    pub fn into_signed(self) -> T
        ensures { result ≡ self.0 }
    {
        let Metadata { signed, .. } = self;
        signed
    }

    /// The signatures, in their order.
    pub fn signatures(&self) -> &[Signature]
        ensures { result.now ≡ self.now.1 }
    {
        self.signatures.as_slice()
    }

    /// The canonical text of the content, which is signed.
    pub fn signed_canonical(&self) -> &[u8]
        ensures { result.now ≡ self.now.2 }
    {
        self.canonical.as_bytes()
    }
}

impl<T: Duplicate> Duplicate for Metadata<T> {
    fn duplicate(&self, alloc: Global) -> Result<Metadata<T>, NoMemory> {
        Ok(Metadata::from_parts(
            self.signed.duplicate(alloc)?,
            self.signatures.duplicate(alloc)?,
            self.canonical.duplicate(alloc)?,
        ))
    }
}

impl<T: Role> Metadata<T> {
    /// The document that bytes spell. Errors, the first that holds: `Json` for no JSON,
    /// `NonIntegerNumber`, `Malformed` for the frame, the kind, the version of the specification,
    /// `Json` for the signatures, then for the members.
    #[tactic(auto, unfolding(crate::specs::Document::document_of))]
    pub fn from_slice(alloc: Global, bytes: &[u8]) -> Result<Metadata<T>, Error>
        ensures ok { IfOk result (λ m. document_of T.kind T.reads bytes.now ≡ Ok m) }
        ensures err { IfErr result (λ e. e ≢ Error.NoMemory → document_of T.kind T.reads bytes.now ≡ Err e) }
        ensures exact { IfOk result (λ m. IsExactly bytes.now m) }
    {
        let value = parsed(alloc, bytes)?;
        Ok(read_frame(alloc, &value)?)
    }
}

#[tactic(auto, unfolding(crate::specs::Document::document_in))]
fn read_frame<T: Role>(alloc: Global, value: &Value) -> Result<Metadata<T>, Error>
    requires { has_float (view value.now) ≡ false }
    ensures ok { IfOk result (λ m. document_in T.kind T.reads (view value.now) ≡ Ok m) }
    ensures err { IfErr result (λ e. e ≢ Error.NoMemory → document_in T.kind T.reads (view value.now) ≡ Err e) }
    ensures exact { IfOk result (λ m. HasExactText (view value.now) (text_in m)) }
{
    let signed = framed(value, "signed")?;
    let signatures = framed(value, "signatures")?;
    assembled(alloc, signed, signatures)
}

#[tactic(auto, unfolding(crate::specs::Document::content_of))]
fn assembled<T: Role>(
    alloc: Global,
    signed: &Value,
    signatures: &Value,
) -> Result<Metadata<T>, Error>
    requires { has_float (view signed.now) ≡ false }
    ensures ok { IfOk result
        (λ m. content_of T.kind T.reads (view signed.now) (view signatures.now) ≡ Ok m) }
    ensures err { IfErr result (λ e. e ≢ Error.NoMemory
        → content_of T.kind T.reads (view signed.now) (view signatures.now) ≡ Err e) }
    ensures exact { IfOk result
        (λ m. IsExact (view signed.now) × (text_in m ≡ canon (view signed.now))) }
{
    check_header::<T>(signed)?;
    let signatures = Sequence::from_value(alloc, signatures)?;
    let content = T::from_value(alloc, signed)?;
    let canonical = canonical_text(alloc, signed)?;
    Ok(Metadata::from_parts(content, signatures, canonical))
}

// JSON with no float.
#[tactic(auto, unfolding(crate::specs::Document::value_of))]
fn parsed(alloc: Global, bytes: &[u8]) -> Result<Value, Error>
    ensures ok { IfOk result (λ v. value_of bytes.now ≡ Ok (view v)) }
    ensures err { IfErr result (λ e. e ≢ Error.NoMemory → value_of bytes.now ≡ Err e) }
    ensures whole { IfOk result (λ v. has_float (view v) ≡ false) }
{
    match parse_json(alloc, bytes) {
        Ok(value) => Ok(value),
        Err(fault) => Err(Error::from(fault)),
    }
}

// A member of the frame.
#[tactic(auto, unfolding(crate::specs::Document::frame_of), using(sigstore_tuf_text::proofs::Floats::has_float_member))]
fn framed<'v>(value: &'v Value, name: &str) -> Result<&'v Value, Error>
    ensures ok { IfOk result (λ v. frame_of name.now (view value.now) ≡ Ok (view v.now)) }
    ensures err { IfErr result (λ e. frame_of name.now (view value.now) ≡ Err e) }
    ensures whole { IfOk result
        (λ v. has_float (view value.now) ≡ false → has_float (view v.now) ≡ false) }
{
    match value.get(name) {
        Some(member) => Ok(member),
        None => Err(Error::Malformed(Rule::Frame)),
    }
}

fn canonical_text(alloc: Global, value: &Value) -> Result<Bytes, Error>
    requires { has_float (view value.now) ≡ false }
    ensures ok { IfOk result (λ b. b ≡ canon (view value.now)) }
    ensures exact { IfOk result (λ b. IsExact (view value.now)) }
    ensures err { IfErr result (λ e. e ≡ Error.NoMemory) }
{
    match to_canonical_bytes(alloc, value) {
        Ok(text) => Ok(text),
        Err(_) => Err(Error::NoMemory),
    }
}
