// A bundle as it is written.
ghost use lib.Signed.{mag};
ghost use Rattle.std.specs.Prelude.{◌≡◌, ◌<◌, ◌^◌, ℕ, List, [], ◌∷◌, Ok, option_map, IfOk};
ghost use Rattle.serde_json.specs.Data.{string};
ghost use Rattle.serde_json.specs.View.{view};
ghost use Rattle.sigstore_entries.specs.Laws.{TimeFits};
ghost use Rattle.sigstore_entries.specs.Writing.{object_of, holding};
ghost use Rattle.sigstore_types.specs.Bundle.{bundle_of_bytes};
ghost use Rattle.sigstore_types.specs.Laws.{TimesFit};
ghost use Rattle.sigstore_types.specs.Written.{algorithm_name_of, message_digest_data, message_signature_data, message_in, envelope_in};
ghost use Rattle.sigstore_types.specs.Written.{each_holding, certificate_in, chain_in, key_in, tokens_in, material_data, bundle_data, bundle_text_of};

use crate::bundle::Bundle;
use crate::content::{MessageDigest, MessageSignature, SignatureContent};
use crate::material::{VerificationMaterial, VerificationMaterialContent};
use foundation::{NoMemory, Sequence};
use serde_json::{Map, Value};
use sigstore_entries::{ToValue, TransparencyLogEntry, held, put, put_list, put_some, put_value};
use sigstore_types_parts::{ByteString, Bytes, HashAlgorithm, Text, TimestampToken, TypesMember};
use std::alloc::Global;

// The name of an algorithm in bundles.
fn algorithm_name(algorithm: HashAlgorithm) -> &'static str
    ensures { result.now ≡ algorithm_name_of algorithm }
{
    match algorithm {
        HashAlgorithm::Sha2256 => "SHA2_256",
        HashAlgorithm::Sha2384 => "SHA2_384",
        HashAlgorithm::Sha2512 => "SHA2_512",
        HashAlgorithm::Sha3256 => "SHA3_256",
        HashAlgorithm::Sha3384 => "SHA3_384",
    }
}

impl ToValue for MessageDigest {
    ghost writes = { message_digest_data };

    #[tactic(auto, unfolding(crate::specs::Written::message_digest_data))]
    fn to_value(&self, alloc: Global) -> Result<Value, NoMemory> {
        let mut members = Map::new(alloc);
        put(alloc, &mut members, TypesMember::Digest, &self.digest)?;
        let name = Value::try_from_str(alloc, algorithm_name(self.algorithm))?;
        put_value(alloc, &mut members, TypesMember::Algorithm, Some(name))?;
        Ok(Value::Object(members))
    }
}

impl ToValue for MessageSignature {
    ghost writes = { message_signature_data };

    #[tactic(auto, unfolding(crate::specs::Written::message_signature_data))]
    fn to_value(&self, alloc: Global) -> Result<Value, NoMemory> {
        let mut members = Map::new(alloc);
        put(alloc, &mut members, TypesMember::Signature, &self.signature)?;
        put_some(
            alloc,
            &mut members,
            TypesMember::MessageDigest,
            &self.message_digest,
        )?;
        Ok(Value::Object(members))
    }
}

// An object for each of these, which holds it at its only member.
fn each_held<K: Drop>(
    alloc: Global,
    member: TypesMember,
    items: &Sequence<ByteString<K>>,
) -> Result<Value, NoMemory>
    ensures { IfOk result (λ v. view v ≡ each_holding member items.now) }
{
    let mut values = Vec::new(alloc);
    for item in items.as_slice() {
        values.push(held(alloc, member, item)?)?;
    }
    Ok(Value::Array(values))
}

// The object that holds a value at its only member.
fn holding(alloc: Global, member: TypesMember, value: Value) -> Result<Value, NoMemory>
    ensures { IfOk result (λ v. view v ≡ holding member (view value)) }
{
    let mut members = Map::new(alloc);
    put_value(alloc, &mut members, member, Some(value))?;
    Ok(Value::Object(members))
}

fn certificate(
    alloc: Global,
    content: &VerificationMaterialContent,
) -> Result<Option<Value>, NoMemory>
    ensures { IfOk result (λ v. option_map view v ≡ certificate_in content.now) }
{
    match content {
        VerificationMaterialContent::Certificate(der) => {
            Ok(Some(held(alloc, TypesMember::RawBytes, der)?))
        }
        _ => Ok(None),
    }
}

fn chain(alloc: Global, content: &VerificationMaterialContent) -> Result<Option<Value>, NoMemory>
    ensures { IfOk result (λ v. option_map view v ≡ chain_in content.now) }
{
    match content {
        VerificationMaterialContent::X509CertificateChain(chain) => {
            let certificates = each_held(alloc, TypesMember::RawBytes, chain)?;
            Ok(Some(holding(alloc, TypesMember::Certificates, certificates)?))
        }
        _ => Ok(None),
    }
}

fn hinted(alloc: Global, hint: &Option<Text>) -> Result<Value, NoMemory>
    ensures { IfOk result (λ v. view v ≡ object_of ((TypesMember.Hint, option_map string hint.now) ∷ [])) }
{
    let mut members = Map::new(alloc);
    put_some(alloc, &mut members, TypesMember::Hint, hint)?;
    Ok(Value::Object(members))
}

fn key(alloc: Global, content: &VerificationMaterialContent) -> Result<Option<Value>, NoMemory>
    ensures { IfOk result (λ v. option_map view v ≡ key_in content.now) }
{
    match content {
        VerificationMaterialContent::PublicKey { hint } => Ok(Some(hinted(alloc, hint)?)),
        _ => Ok(None),
    }
}

fn tokens(alloc: Global, tokens: &Sequence<TimestampToken>) -> Result<Option<Value>, NoMemory>
    ensures { IfOk result (λ v. option_map view v ≡ tokens_in tokens.now) }
{
    if tokens.is_empty() {
        return Ok(None);
    }
    let list = each_held(alloc, TypesMember::SignedTimestamp, tokens)?;
    Ok(Some(holding(alloc, TypesMember::Rfc3161Timestamps, list)?))
}

impl ToValue for VerificationMaterial {
    ghost writes = { material_data };

    #[tactic(auto, unfolding(crate::specs::Written::material_data))]
    fn to_value(&self, alloc: Global) -> Result<Value, NoMemory> {
        let mut members = Map::new(alloc);
        let chain = chain(alloc, &self.content)?;
        put_value(
            alloc,
            &mut members,
            TypesMember::X509CertificateChain,
            chain,
        )?;
        put_list(
            alloc,
            &mut members,
            TypesMember::TlogEntries,
            &self.tlog_entries,
        )?;
        let tokens = tokens(alloc, &self.rfc3161_timestamps)?;
        put_value(
            alloc,
            &mut members,
            TypesMember::TimestampVerificationData,
            tokens,
        )?;
        let key = key(alloc, &self.content)?;
        put_value(alloc, &mut members, TypesMember::PublicKey, key)?;
        let certificate = certificate(alloc, &self.content)?;
        put_value(alloc, &mut members, TypesMember::Certificate, certificate)?;
        Ok(Value::Object(members))
    }
}

fn message(alloc: Global, content: &SignatureContent) -> Result<Option<Value>, NoMemory>
    ensures { IfOk result (λ v. option_map view v ≡ message_in content.now) }
{
    match content {
        SignatureContent::MessageSignature(message) => Ok(Some(message.to_value(alloc)?)),
        SignatureContent::DsseEnvelope(_) => Ok(None),
    }
}

fn envelope(alloc: Global, content: &SignatureContent) -> Result<Option<Value>, NoMemory>
    ensures { IfOk result (λ v. option_map view v ≡ envelope_in content.now) }
{
    match content {
        SignatureContent::MessageSignature(_) => Ok(None),
        SignatureContent::DsseEnvelope(envelope) => Ok(Some(envelope.to_value(alloc)?)),
    }
}

impl ToValue for Bundle {
    ghost writes = { bundle_data };

    #[tactic(auto, unfolding(crate::specs::Written::bundle_data))]
    fn to_value(&self, alloc: Global) -> Result<Value, NoMemory> {
        let mut members = Map::new(alloc);
        put(
            alloc,
            &mut members,
            TypesMember::VerificationMaterial,
            &self.verification_material,
        )?;
        let message = message(alloc, &self.content)?;
        put_value(alloc, &mut members, TypesMember::MessageSignature, message)?;
        put(
            alloc,
            &mut members,
            TypesMember::MediaType,
            &self.media_type,
        )?;
        let envelope = envelope(alloc, &self.content)?;
        put_value(alloc, &mut members, TypesMember::DsseEnvelope, envelope)?;
        Ok(Value::Object(members))
    }
}

// A time is of 64 bits. This and the two below do nothing: they tell what the types say.
fn time_fits(time: i64)
    ensures { mag time < 2 ^ 63 }
{
    let _ = time;
}

fn entry_fits(entry: &TransparencyLogEntry)
    ensures { TimeFits entry.now.integrated_time }
{
    if let Some(time) = entry.integrated_time {
        time_fits(time);
    }
}

fn times_fit(entries: &[TransparencyLogEntry])
    ensures { TimesFit entries.now }
{
    for entry in entries {
        entry_fits(entry);
    }
}

impl Bundle {
    /// The bundle as a JSON text without blanks (ProtoJSON of sigstore_bundle.proto): the members of each object in
    /// ascending order, without options that aren't there and empty lists; numbers of 64 bits as decimal texts.
    pub fn to_json(&self, alloc: Global) -> Result<Bytes, NoMemory>
        ensures written { IfOk result (λ text. text ≡ bundle_text_of self.now) }
        ensures again { IfOk result
            (λ text. (bytes : List ℕ) → bundle_of_bytes bytes ≡ Ok self.now → bundle_of_bytes text ≡ Ok self.now) }
    {
        times_fit(self.verification_material.tlog_entries.as_slice());
        let value = self.to_value(alloc)?;
        Ok(Bytes::from_vec(value.to_vec(alloc)?))
    }
}
