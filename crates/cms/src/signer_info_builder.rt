// A builder of what one signer signed.
ghost use Rattle.std.specs.Prelude.{◌≡◌, ◌≢◌, ◌++◌, ◌∷◌, [], IfOk, IfErr, OnOk, OnErr, Ok, Err, option_copied};
ghost use Rattle.cms.specs.declared.finalize.SigningInput.{SigningInput as Input};
ghost use Rattle.cms.specs.Error.{IsFinalizing, IsSigning};
ghost use Rattle.cms.specs.Signing.{version_of, if_added, finalized_of, signed_by};

use crate::error::Error;
use crate::finalize::{SigningInput, finalized};
use crate::signer::CmsSigner;
use cms_parts::content_info::CmsVersion;
use cms_parts::signed_data::{
    EncapsulatedContentInfo, SignerIdentifier, SignerInfo, UnsignedAttributes,
};
use der_core::{OctetString, SetOfVec};
use foundation::{Duplicate, Sequence};
use std::alloc::Global;
use std::marker::Model;
use x509_core::{AlgorithmIdentifierOwned, Attribute};

/// A builder of what one signer signed (RFC 5652, 5.3); contracts see what it holds.
#[derive(Drop)]
pub struct SignerInfoBuilder<'s, S> {
    signer: &'s S,
    sid: SignerIdentifier,
    digest_algorithm: AlgorithmIdentifierOwned,
    signed_attributes: Sequence<Attribute>,
    unsigned_attributes: Sequence<Attribute>,
    encapsulated_content_info: &'s EncapsulatedContentInfo,
    external_message_digest: Option<&'s [u8]>,
}

impl<'s, S> Model for SignerInfoBuilder<'s, S> {
    ghost use Rattle.std.specs.Prelude.{option_copied};
    ghost use Rattle.cms.specs.Parts.{Signing};

    ghost Value = { Signing S };

    ghost view = { λ b. record {
      signer = b.signer.now;
      sid = b.sid;
      digest_algorithm = b.digest_algorithm;
      signed = b.signed_attributes;
      unsigned = b.unsigned_attributes;
      content = b.encapsulated_content_info.now;
      made = option_copied b.external_message_digest;
    } };
}

fn version_of(sid: &SignerIdentifier) -> CmsVersion
    ensures { result ≡ version_of sid.now }
{
    match sid {
        SignerIdentifier::IssuerAndSerialNumber(_) => CmsVersion::V1,
        SignerIdentifier::SubjectKeyIdentifier(_) => CmsVersion::V3,
    }
}

/// The set of attributes, if some were added.
fn if_added(
    alloc: Global,
    attributes: &Sequence<Attribute>,
) -> Result<Option<UnsignedAttributes>, Error>
    ensures ok { IfOk result (λ set. if_added attributes.now ≡ Ok set) }
    ensures err { IfErr result (λ e. e ≢ Error.NoMemory → if_added attributes.now ≡ Err e) }
    ensures cause { IfErr result IsFinalizing }
{
    if attributes.is_empty() {
        return Ok(None);
    }
    let copies = attributes.duplicate(alloc)?;
    Ok(Some(SetOfVec::try_from(alloc, copies.into_vec())?))
}

/// The signer's information with its signature.
#[tactic(auto, unfolding(crate::specs::Signing::signed_by))]
fn signed_by<S: CmsSigner>(
    alloc: Global,
    builder: &SignerInfoBuilder<S>,
) -> Result<SignerInfo, Error>
    ensures ok { IfOk result (λ info. signed_by (S.identifier builder.now.signer) (S.signs builder.now.signer) builder.now ≡ Ok info) }
    ensures err { IfErr result (λ e. e ≢ Error.NoMemory → signed_by (S.identifier builder.now.signer) (S.signs builder.now.signer) builder.now ≡ Err e) }
    ensures cause { IfErr result IsSigning }
{
    let f = finalized(
        alloc,
        &builder.digest_algorithm,
        builder.encapsulated_content_info,
        builder.external_message_digest,
        &builder.signed_attributes,
    )?;
    let unsigned_attrs = if_added(alloc, &builder.unsigned_attributes)?;
    let signature = builder.signer.sign(alloc, f.encoding.as_bytes())?;
    let sid = builder.sid.duplicate(alloc)?;
    let digest_alg = builder.digest_algorithm.duplicate(alloc)?;
    let signature_algorithm = builder.signer.algorithm().duplicate(alloc)?;
    Ok(SignerInfo {
        version: version_of(&builder.sid),
        sid,
        digest_alg,
        signed_attrs: Some(f.members),
        signature_algorithm,
        signature,
        unsigned_attrs,
    })
}

impl<'s, S> SignerInfoBuilder<'s, S> {
    /// A builder of what a signer signs: the content, or content that stands elsewhere by its digest.
    pub fn new(
        alloc: Global,
        signer: &'s S,
        sid: SignerIdentifier,
        digest_algorithm: AlgorithmIdentifierOwned,
        encapsulated_content_info: &'s EncapsulatedContentInfo,
        external_message_digest: Option<&'s [u8]>,
    ) -> SignerInfoBuilder<'s, S>
        ensures { result ≡ record {
          signer = signer.now;
          sid = sid;
          digest_algorithm = digest_algorithm;
          signed = [];
          unsigned = [];
          content = encapsulated_content_info.now;
          made = option_copied external_message_digest.entry;
        } }
    {
        SignerInfoBuilder {
            signer,
            sid,
            digest_algorithm,
            signed_attributes: Sequence::new(alloc),
            unsigned_attributes: Sequence::new(alloc),
            encapsulated_content_info,
            external_message_digest,
        }
    }

    /// Adds an attribute that is signed.
    pub fn add_signed_attribute(&mut self, attribute: Attribute) -> Result<(), Error>
        ensures ok { OnOk result (self.new ≡ record self.old { signed = self.old.signed ++ attribute ∷ [] }) }
        ensures err { IfErr result (λ e. e ≡ Error.NoMemory) }
        ensures same { OnErr result (self.new ≡ self.old) }
    {
        self.signed_attributes.push(attribute)?;
        Ok(())
    }

    /// Adds an attribute that isn't signed.
    pub fn add_unsigned_attribute(&mut self, attribute: Attribute) -> Result<(), Error>
        ensures ok { OnOk result (self.new ≡ record self.old { unsigned = self.old.unsigned ++ attribute ∷ [] }) }
        ensures err { IfErr result (λ e. e ≡ Error.NoMemory) }
        ensures same { OnErr result (self.new ≡ self.old) }
    {
        self.unsigned_attributes.push(attribute)?;
        Ok(())
    }

    /// The version that the information will have: V1 for an issuer and a serial number, V3 for a
    /// key identifier.
    pub fn version(&self) -> CmsVersion
        ensures { result ≡ version_of self.now.sid }
    {
        version_of(&self.sid)
    }

    /// The signer.
    pub fn signer(&self) -> &'s S
        ensures { result.now ≡ self.now.signer }
    {
        self.signer
    }

    /// What is signed: the encoding of the set of attributes. Where a digest is known it is added to
    /// them, and the content's type where none is there. A refusal changes nothing.
    pub fn finalize(&mut self, alloc: Global) -> Result<OctetString, Error>
        ensures ok { IfOk result (λ text. (f : Input) × (finalized_of self.old ≡ Ok f) × (text ≡ f.encoding)
            × (self.new ≡ record self.old { signed = f.attributes })) }
        ensures err { IfErr result (λ e. e ≢ Error.NoMemory → finalized_of self.old ≡ Err e) }
        ensures same { OnErr result (self.new ≡ self.old) }
        ensures cause { IfErr result IsFinalizing }
    {
        let f = finalized(
            alloc,
            &self.digest_algorithm,
            self.encapsulated_content_info,
            self.external_message_digest,
            &self.signed_attributes,
        )?;
        let SigningInput {
            attributes,
            members: _,
            encoding,
        } = f;
        self.signed_attributes = attributes;
        Ok(encoding)
    }
}

impl<'s, S: CmsSigner> SignerInfoBuilder<'s, S> {
    /// The signer's information with its signature over what `finalize` gives.
    pub fn build(self, alloc: Global) -> Result<SignerInfo, Error>
        ensures ok { IfOk result (λ info. signed_by (S.identifier self.entry.signer) (S.signs self.entry.signer) self.entry ≡ Ok info) }
        ensures err { IfErr result (λ e. e ≢ Error.NoMemory → signed_by (S.identifier self.entry.signer) (S.signs self.entry.signer) self.entry ≡ Err e) }
        ensures cause { IfErr result IsSigning }
    {
        match signed_by(alloc, &self) {
            Ok(info) => Ok(info),
            Err(refusal) => Err(refusal),
        }
    }
}
