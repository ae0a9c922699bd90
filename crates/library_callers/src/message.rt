//! A caller of `cms`.
use cms::builder::{CmsSigner, Error, SignedDataBuilder, SignerInfoBuilder};
use cms::content_info::ContentInfo;
use cms::signed_data::{EncapsulatedContentInfo, SignedData, SignerIdentifier};
use cms_parts::identifiers;
use der_core::{Der, DerError, ObjectIdentifier, OctetString};
use std::alloc::Global;
use x509_core::{AlgorithmIdentifierOwned, SubjectKeyIdentifier};

/// Reads a message that has to be signed data; whether its signatures are good isn't judged here.
pub fn read_signed(alloc: Global, bytes: &[u8]) -> Result<SignedData, DerError> {
    let message = ContentInfo::from_der(alloc, bytes)?;
    if message.content_type != identifiers::signed_data() {
        return Err(DerError::Value);
    }
    let signed = message.content.to_der(alloc)?;
    SignedData::from_der(alloc, signed.as_bytes())
}

fn sha256() -> Result<AlgorithmIdentifierOwned, DerError> {
    Ok(AlgorithmIdentifierOwned {
        oid: ObjectIdentifier::new("2.16.840.1.101.3.4.2.1")?,
        parameters: None,
    })
}

/// A message that one signer signs over a SHA-256 value; the content itself stands elsewhere.
pub fn sign_digest<S: CmsSigner>(
    alloc: Global,
    signer: &S,
    key_id: &[u8],
    digest: &[u8],
) -> Result<OctetString, Error> {
    let content = EncapsulatedContentInfo {
        econtent_type: identifiers::data(),
        econtent: None,
    };
    let sid = SignerIdentifier::SubjectKeyIdentifier(SubjectKeyIdentifier::new(alloc, key_id)?);
    let one = SignerInfoBuilder::new(alloc, signer, sid, sha256()?, &content, Some(digest));
    let mut all = SignedDataBuilder::new(alloc, &content);
    all.add_digest_algorithm(sha256()?)?;
    all.add_signer_info(alloc, one)?;
    let message = all.build(alloc)?;
    Ok(message.to_der(alloc)?)
}
