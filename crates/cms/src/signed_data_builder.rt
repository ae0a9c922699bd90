// A builder of signed data.
ghost use Rattle.std.specs.Prelude.{◌≡◌, ◌≢◌, ◌++◌, ◌∷◌, [], IfOk, IfErr, OnOk, OnErr, Ok, Err};
ghost use Rattle.std.specs.List.{list_any};
ghost use Rattle.cms_parts.specs.declared.signed_data.SignerInfo.{SignerInfo as Info};
ghost use Rattle.cms.specs.Building.{is_other_certificate, is_other_crl, is_third, version_for, certificates_of, crls_of, signed_data_of, built};
ghost use Rattle.cms.specs.Error.{IsSetError, IsSigning};
ghost use Rattle.cms.specs.Signing.{signed_by};

use crate::error::Error;
use crate::signer::CmsSigner;
use crate::signer_info_builder::SignerInfoBuilder;
use cms_parts::cert::CertificateChoices;
use cms_parts::content_info::{CmsVersion, ContentInfo};
use cms_parts::content_of;
use cms_parts::revocation::{RevocationInfoChoice, RevocationInfoChoices};
use cms_parts::signed_data::{
    CertificateSet, EncapsulatedContentInfo, SignedData, SignerInfo, SignerInfos,
};
use der_core::SetOfVec;
use foundation::{Duplicate, Sequence};
use std::alloc::Global;
use std::marker::Model;
use x509_core::AlgorithmIdentifierOwned;

const DATA: [u8; 9] = [42, 134, 72, 134, 247, 13, 1, 7, 1];

/// A builder of signed data (RFC 5652, 5.1); contracts see what it holds.
#[derive(Drop)]
pub struct SignedDataBuilder<'s> {
    digest_algorithms: Sequence<AlgorithmIdentifierOwned>,
    encapsulated_content_info: &'s EncapsulatedContentInfo,
    certificates: Sequence<CertificateChoices>,
    crls: Sequence<RevocationInfoChoice>,
    signer_infos: Sequence<SignerInfo>,
}

impl<'s> Model for SignedDataBuilder<'s> {
    ghost use Rattle.cms.specs.Parts.{Collected};

    ghost Value = { Collected };

    ghost view = { λ b. record {
      algorithms = b.digest_algorithms;
      content = b.encapsulated_content_info.now;
      certificates = b.certificates;
      crls = b.crls;
      signers = b.signer_infos;
    } };
}

fn is_other_certificate(certificate: &CertificateChoices) -> bool
    ensures { result ≡ is_other_certificate certificate.now }
{
    match certificate {
        CertificateChoices::Certificate(_) => false,
        CertificateChoices::Other(_) => true,
    }
}

fn is_other_crl(crl: &RevocationInfoChoice) -> bool
    ensures { result ≡ is_other_crl crl.now }
{
    match crl {
        RevocationInfoChoice::Crl(_) => false,
        RevocationInfoChoice::Other(_) => true,
    }
}

fn is_third(signer: &SignerInfo) -> bool
    ensures { result ≡ is_third signer.now }
{
    match signer.version {
        CmsVersion::V3 => true,
        _ => false,
    }
}

fn has_other_certificate(certificates: &[CertificateChoices]) -> bool
    ensures { result ≡ list_any is_other_certificate certificates.now }
{
    certificates
        .iter()
        .any(|certificate| is_other_certificate(certificate))
}

fn has_other_crl(crls: &[RevocationInfoChoice]) -> bool
    ensures { result ≡ list_any is_other_crl crls.now }
{
    crls.iter().any(|crl| is_other_crl(crl))
}

fn has_third(signers: &[SignerInfo]) -> bool
    ensures { result ≡ list_any is_third signers.now }
{
    signers.iter().any(|signer| is_third(signer))
}

#[tactic(auto, unfolding(crate::specs::Building::version_for))]
fn version_for(builder: &SignedDataBuilder) -> CmsVersion
    ensures { result ≡ version_for builder.now }
{
    if has_other_certificate(builder.certificates.as_slice())
        || has_other_crl(builder.crls.as_slice())
    {
        CmsVersion::V5
    } else if has_third(builder.signer_infos.as_slice())
        || builder.encapsulated_content_info.econtent_type.as_bytes() != DATA.as_slice()
    {
        CmsVersion::V3
    } else {
        CmsVersion::V1
    }
}

fn certificates_of(
    alloc: Global,
    certificates: &Sequence<CertificateChoices>,
) -> Result<Option<CertificateSet>, Error>
    ensures ok { IfOk result (λ set. certificates_of certificates.now ≡ Ok set) }
    ensures err { IfErr result (λ e. e ≢ Error.NoMemory → certificates_of certificates.now ≡ Err e) }
    ensures cause { IfErr result IsSetError }
{
    if certificates.is_empty() {
        return Ok(None);
    }
    let copies = certificates.duplicate(alloc)?;
    let members = SetOfVec::try_from(alloc, copies.into_vec())?;
    Ok(Some(CertificateSet(members)))
}

fn crls_of(
    alloc: Global,
    crls: &Sequence<RevocationInfoChoice>,
) -> Result<Option<RevocationInfoChoices>, Error>
    ensures ok { IfOk result (λ set. crls_of crls.now ≡ Ok set) }
    ensures err { IfErr result (λ e. e ≢ Error.NoMemory → crls_of crls.now ≡ Err e) }
    ensures cause { IfErr result IsSetError }
{
    if crls.is_empty() {
        return Ok(None);
    }
    let copies = crls.duplicate(alloc)?;
    let members = SetOfVec::try_from(alloc, copies.into_vec())?;
    Ok(Some(RevocationInfoChoices(members)))
}

#[tactic(auto, unfolding(crate::specs::Building::signed_data_of))]
fn signed_data_of(alloc: Global, builder: &SignedDataBuilder) -> Result<SignedData, Error>
    ensures ok { IfOk result (λ signed. signed_data_of builder.now ≡ Ok signed) }
    ensures err { IfErr result (λ e. e ≢ Error.NoMemory → signed_data_of builder.now ≡ Err e) }
    ensures cause { IfErr result IsSetError }
{
    let algorithms = builder.digest_algorithms.duplicate(alloc)?;
    let digest_algorithms = SetOfVec::try_from(alloc, algorithms.into_vec())?;
    let certificates = certificates_of(alloc, &builder.certificates)?;
    let crls = crls_of(alloc, &builder.crls)?;
    let signers = builder.signer_infos.duplicate(alloc)?;
    let signer_infos = SetOfVec::try_from(alloc, signers.into_vec())?;
    let encap_content_info = builder.encapsulated_content_info.duplicate(alloc)?;
    Ok(SignedData {
        version: version_for(builder),
        digest_algorithms,
        encap_content_info,
        certificates,
        crls,
        signer_infos: SignerInfos(signer_infos),
    })
}

#[tactic(auto, unfolding(crate::specs::Building::built))]
fn built(alloc: Global, builder: &SignedDataBuilder) -> Result<ContentInfo, Error>
    ensures ok { IfOk result (λ content. built builder.now ≡ Ok content) }
    ensures err { IfErr result (λ e. e ≢ Error.NoMemory → built builder.now ≡ Err e) }
    ensures cause { IfErr result IsSetError }
{
    let signed = signed_data_of(alloc, builder)?;
    let content = content_of(alloc, &signed)?;
    Ok(content)
}

impl<'s> SignedDataBuilder<'s> {
    /// A builder of signed data over content, which may stand elsewhere.
    pub fn new(
        alloc: Global,
        encapsulated_content_info: &'s EncapsulatedContentInfo,
    ) -> SignedDataBuilder<'s>
        ensures { result ≡ record {
          algorithms = [];
          content = encapsulated_content_info.now;
          certificates = [];
          crls = [];
          signers = [];
        } }
    {
        SignedDataBuilder {
            digest_algorithms: Sequence::new(alloc),
            encapsulated_content_info,
            certificates: Sequence::new(alloc),
            crls: Sequence::new(alloc),
            signer_infos: Sequence::new(alloc),
        }
    }

    /// Adds an algorithm by which a signer digested.
    pub fn add_digest_algorithm(&mut self, algorithm: AlgorithmIdentifierOwned) -> Result<(), Error>
        ensures ok { OnOk result (self.new ≡ record self.old { algorithms = self.old.algorithms ++ algorithm ∷ [] }) }
        ensures err { IfErr result (λ e. e ≡ Error.NoMemory) }
        ensures same { OnErr result (self.new ≡ self.old) }
    {
        self.digest_algorithms.push(algorithm)?;
        Ok(())
    }

    /// Adds a certificate.
    pub fn add_certificate(&mut self, certificate: CertificateChoices) -> Result<(), Error>
        ensures ok { OnOk result (self.new ≡ record self.old { certificates = self.old.certificates ++ certificate ∷ [] }) }
        ensures err { IfErr result (λ e. e ≡ Error.NoMemory) }
        ensures same { OnErr result (self.new ≡ self.old) }
    {
        self.certificates.push(certificate)?;
        Ok(())
    }

    /// Adds revocation information.
    pub fn add_crl(&mut self, crl: RevocationInfoChoice) -> Result<(), Error>
        ensures ok { OnOk result (self.new ≡ record self.old { crls = self.old.crls ++ crl ∷ [] }) }
        ensures err { IfErr result (λ e. e ≡ Error.NoMemory) }
        ensures same { OnErr result (self.new ≡ self.old) }
    {
        self.crls.push(crl)?;
        Ok(())
    }

    /// Adds what a signer signed, with the signature that the signer gives now. A refusal changes
    /// nothing.
    pub fn add_signer_info<S: CmsSigner>(
        &mut self,
        alloc: Global,
        builder: SignerInfoBuilder<'_, S>,
    ) -> Result<(), Error>
        ensures ok { OnOk result ((info : Info)
            × (signed_by (S.identifier builder.entry.signer) (S.signs builder.entry.signer) builder.entry ≡ Ok info)
            × (self.new ≡ record self.old { signers = self.old.signers ++ info ∷ [] })) }
        ensures err { IfErr result (λ e. e ≢ Error.NoMemory
            → signed_by (S.identifier builder.entry.signer) (S.signs builder.entry.signer) builder.entry ≡ Err e) }
        ensures same { OnErr result (self.new ≡ self.old) }
        ensures cause { IfErr result IsSigning }
    {
        let info = builder.build(alloc)?;
        self.signer_infos.push(info)?;
        Ok(())
    }

    /// The signed data as a content of its type. Errors: `Asn1(SetDuplicate)` exactly where
    /// something was added twice; `Asn1(TooLong)`; `NoMemory`.
    pub fn build(&self, alloc: Global) -> Result<ContentInfo, Error>
        ensures ok { IfOk result (λ content. built self.now ≡ Ok content) }
        ensures err { IfErr result (λ e. e ≢ Error.NoMemory → built self.now ≡ Err e) }
        ensures cause { IfErr result IsSetError }
    {
        match built(alloc, self) {
            Ok(content) => Ok(content),
            Err(refusal) => Err(refusal),
        }
    }
}
