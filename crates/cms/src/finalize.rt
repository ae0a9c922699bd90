// The attributes that are signed.
ghost use Rattle.std.specs.Prelude.{◌≡◌, ◌≢◌, ◌++◌, ◌∷◌, [], IfOk, IfErr, Ok, Err, option_copied};
ghost use Rattle.cms.specs.Error.{IsFinalizing};
ghost use Rattle.cms.specs.Signing.{is_the_type, type_among, with_type, with_digest, completed, encoded, finalized};

use crate::attributes::{create_content_type_attribute, create_message_digest_attribute};
use crate::digest::digest_of;
use crate::error::{BuilderFault, Error};
use cms_parts::signed_data::{EncapsulatedContentInfo, SignedAttributes};
use der_core::{Any, Der, ObjectIdentifier, OctetString, SetOfVec, tag};
use foundation::{Duplicate, Sequence};
use std::alloc::Global;
use x509_core::{AlgorithmIdentifierOwned, Attribute};

/// The attributes that are signed, as they were added and as a set, and the set's encoding.
#[derive(Drop)]
pub struct SigningInput {
    pub attributes: Sequence<Attribute>,
    pub members: SignedAttributes,
    pub encoding: OctetString,
}

const CONTENT_TYPE: [u8; 9] = [42, 134, 72, 134, 247, 13, 1, 9, 3];

fn is_the_type(content_type: &ObjectIdentifier, values: &[Any]) -> bool
    ensures { result ≡ is_the_type content_type.now values.now }
{
    match values {
        [value] => { value.tag_byte().0 == tag::OID && value.as_bytes() == content_type.as_bytes() }
        _ => false,
    }
}

/// Whether a content type is among the attributes.
fn type_among(content_type: &ObjectIdentifier, attributes: &[Attribute]) -> Result<bool, Error>
    ensures exact { result ≡ type_among content_type.now attributes.now }
    ensures cause { IfErr result IsFinalizing }
{
    'attributes: for attribute in attributes {
        if attribute.oid.as_bytes() == CONTENT_TYPE.as_slice() {
            if is_the_type(content_type, attribute.values.as_slice()) {
                return Ok(true);
            }
            return Err(Error::Builder(BuilderFault::ContentType));
        }
    }
    Ok(false)
}

fn with_type(
    alloc: Global,
    there: bool,
    content_type: &ObjectIdentifier,
    attributes: Sequence<Attribute>,
) -> Result<Sequence<Attribute>, Error>
    ensures ok { IfOk result (λ all. with_type there content_type.now attributes ≡ Ok all) }
    ensures err { IfErr result (λ e. e ≢ Error.NoMemory → with_type there content_type.now attributes ≡ Err e) }
    ensures cause { IfErr result IsFinalizing }
{
    if there {
        return Ok(attributes);
    }
    let mut attributes = attributes;
    let content_type = content_type.duplicate(alloc)?;
    let attribute = create_content_type_attribute(alloc, content_type)?;
    attributes.push(attribute)?;
    Ok(attributes)
}

#[tactic(auto, unfolding(crate::specs::Signing::with_digest))]
fn with_digest(
    alloc: Global,
    content_type: &ObjectIdentifier,
    digest: &[u8],
    attributes: &Sequence<Attribute>,
) -> Result<Sequence<Attribute>, Error>
    ensures ok { IfOk result (λ all. with_digest content_type.now digest.now attributes.now ≡ Ok all) }
    ensures err { IfErr result (λ e. e ≢ Error.NoMemory → with_digest content_type.now digest.now attributes.now ≡ Err e) }
    ensures cause { IfErr result IsFinalizing }
{
    let there = type_among(content_type, attributes.as_slice())?;
    let attribute = create_message_digest_attribute(alloc, digest)?;
    let mut all = attributes.duplicate(alloc)?;
    all.push(attribute)?;
    match with_type(alloc, there, content_type, all) {
        Ok(all) => Ok(all),
        Err(refusal) => Err(refusal),
    }
}

fn completed(
    alloc: Global,
    content_type: &ObjectIdentifier,
    digest: &Option<OctetString>,
    attributes: &Sequence<Attribute>,
) -> Result<Sequence<Attribute>, Error>
    ensures ok { IfOk result (λ all. completed content_type.now digest.now attributes.now ≡ Ok all) }
    ensures err { IfErr result (λ e. e ≢ Error.NoMemory → completed content_type.now digest.now attributes.now ≡ Err e) }
    ensures cause { IfErr result IsFinalizing }
{
    match digest {
        None => Ok(attributes.duplicate(alloc)?),
        Some(digest) => with_digest(alloc, content_type, digest.as_bytes(), attributes),
    }
}

/// The set of the attributes with its encoding.
#[tactic(auto, unfolding(crate::specs::Signing::encoded))]
fn encoded(alloc: Global, attributes: Sequence<Attribute>) -> Result<SigningInput, Error>
    ensures ok { IfOk result (λ f. encoded attributes ≡ Ok f) }
    ensures err { IfErr result (λ e. e ≢ Error.NoMemory → encoded attributes ≡ Err e) }
    ensures cause { IfErr result IsFinalizing }
{
    let copies = attributes.duplicate(alloc)?;
    let members: SignedAttributes = SetOfVec::try_from(alloc, copies.into_vec())?;
    let encoding = members.to_der(alloc)?;
    Ok(SigningInput {
        attributes,
        members,
        encoding,
    })
}

/// The attributes that are signed, with what is signed.
#[tactic(auto, unfolding(crate::specs::Signing::finalized))]
pub fn finalized(
    alloc: Global,
    algorithm: &AlgorithmIdentifierOwned,
    content: &EncapsulatedContentInfo,
    made: Option<&[u8]>,
    added: &Sequence<Attribute>,
) -> Result<SigningInput, Error>
    ensures ok { IfOk result (λ f. finalized algorithm.now content.now (option_copied made.entry) added.now ≡ Ok f) }
    ensures err { IfErr result (λ e. e ≢ Error.NoMemory → finalized algorithm.now content.now (option_copied made.entry) added.now ≡ Err e) }
    ensures cause { IfErr result IsFinalizing }
{
    let digest = digest_of(alloc, &algorithm.oid, &content.econtent, made)?;
    let attributes = completed(alloc, &content.econtent_type, &digest, added)?;
    match encoded(alloc, attributes) {
        Ok(f) => Ok(f),
        Err(refusal) => Err(refusal),
    }
}
