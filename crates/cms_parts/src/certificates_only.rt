// Signed data that hands on certificates and nothing else.
ghost use Rattle.std.specs.Prelude.{◌≡◌, ◌≢◌, [], ◌∷◌, IfOk, IfErr, Ok, Err, map};
ghost use Rattle.der_grammar.specs.Outcome.{IsTooLong, IsSetRefusal};
ghost use Rattle.cms_parts.specs.declared.cert.CertificateChoices.TheVariants.{Certificate as choice};
ghost use Rattle.cms_parts.specs.CertificatesOnly.{certificates_only, content_of, content_with, content_of_path};

use crate::cert::CertificateChoices;
use crate::content_info::{CmsVersion, ContentInfo};
use crate::identifiers;
use crate::revocation::RevocationInfoChoices;
use crate::signed_data::{CertificateSet, EncapsulatedContentInfo, SignedData, SignerInfos};
use crate::values::{as_any, set_of_one};
use der_core::{DerError, SetOfVec};
use foundation::NoMemory;
use std::alloc::Global;
use x509_core::Certificate;

/// The content of type signed-data; TooLong exactly where it can't be written.
#[tactic(auto, unfolding(crate::specs::CertificatesOnly::content_of))]
pub fn content_of(alloc: Global, signed: &SignedData) -> Result<ContentInfo, DerError>
    ensures ok { IfOk result (λ c. content_of signed.now ≡ Ok c) }
    ensures err { IfErr result (λ e. e ≢ DerError.NoMemory → content_of signed.now ≡ Err e) }
    ensures cause { IfErr result IsTooLong }
{
    let content = as_any(alloc, signed)?;
    Ok(ContentInfo {
        content_type: identifiers::signed_data(),
        content,
    })
}

fn only_these(alloc: Global, members: SetOfVec<CertificateChoices>) -> SignedData
    ensures { result ≡ certificates_only members }
{
    SignedData {
        version: CmsVersion::V1,
        digest_algorithms: SetOfVec::new(alloc),
        encap_content_info: EncapsulatedContentInfo {
            econtent_type: identifiers::data(),
            econtent: None,
        },
        certificates: Some(CertificateSet(members)),
        crls: Some(RevocationInfoChoices(SetOfVec::new(alloc))),
        signer_infos: SignerInfos(SetOfVec::new(alloc)),
    }
}

#[tactic(auto, unfolding(crate::specs::CertificatesOnly::content_with))]
fn content_with(alloc: Global, choices: Vec<CertificateChoices>) -> Result<ContentInfo, DerError>
    ensures ok { IfOk result (λ c. content_with choices.items ≡ Ok c) }
    ensures err { IfErr result (λ e. e ≢ DerError.NoMemory → content_with choices.items ≡ Err e) }
    ensures cause { IfErr result IsSetRefusal }
{
    let members = SetOfVec::try_from(alloc, choices)?;
    let signed = only_these(alloc, members);
    match content_of(alloc, &signed) {
        Ok(content) => Ok(content),
        Err(refusal) => Err(refusal),
    }
}

fn choices_of(alloc: Global, path: Vec<Certificate>) -> Result<Vec<CertificateChoices>, NoMemory>
    ensures { IfOk result (λ v. v.items ≡ map (λ certificate. choice certificate) path.items) }
{
    let mut choices = Vec::new(alloc);
    'certificates: for certificate in path {
        choices.push(CertificateChoices::Certificate(certificate))?;
    }
    Ok(choices)
}

impl ContentInfo {
    /// Signed data of version 1 that has these certificates, an empty set of revocation information,
    /// no content and no signers. Errors: `SetDuplicate` exactly where a certificate stands twice;
    /// `TooLong`; `NoMemory`.
    pub fn from_path(alloc: Global, path: Vec<Certificate>) -> Result<ContentInfo, DerError>
        ensures ok { IfOk result (λ c. content_of_path path.items ≡ Ok c) }
        ensures err { IfErr result (λ e. e ≢ DerError.NoMemory → content_of_path path.items ≡ Err e) }
        ensures cause { IfErr result IsSetRefusal }
    {
        let choices = choices_of(alloc, path)?;
        match content_with(alloc, choices) {
            Ok(content) => Ok(content),
            Err(refusal) => Err(refusal),
        }
    }

    /// The same of one certificate. Errors: `TooLong`; `NoMemory`.
    #[tactic(auto, unfolding(crate::specs::CertificatesOnly::content_with))]
    pub fn from_certificate(
        alloc: Global,
        certificate: Certificate,
    ) -> Result<ContentInfo, DerError>
        ensures ok { IfOk result (λ c. content_of_path (certificate ∷ []) ≡ Ok c) }
        ensures err { IfErr result (λ e. e ≢ DerError.NoMemory → content_of_path (certificate ∷ []) ≡ Err e) }
        ensures cause { IfErr result IsTooLong }
    {
        let members = set_of_one(alloc, CertificateChoices::Certificate(certificate))?;
        let signed = only_these(alloc, members);
        match content_of(alloc, &signed) {
            Ok(content) => Ok(content),
            Err(refusal) => Err(refusal),
        }
    }
}
