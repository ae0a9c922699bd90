// Signed data.
ghost use Rattle.cms_parts.specs.SignedData.{certificate_set_type, encapsulated_content_info_type, signed_data_type, signer_infos_type};
ghost use Rattle.cms_parts.specs.SignerInfo.{signer_identifier_type, signer_info_type};

use crate::cert::{CertificateChoices, IssuerAndSerialNumber};
use crate::content_info::CmsVersion;
use crate::revocation::RevocationInfoChoices;
use der_core::{
    Any, Der, DerError, ObjectIdentifier, OctetString, Reader, SetOfVec, Tag,
    append_explicit_optional, append_implicit_optional, read_explicit_optional,
    read_implicit_optional, read_value, tag,
};
use foundation::{Duplicate, NoMemory};
use std::alloc::Global;
use x509_core::{AlgorithmIdentifierOwned, Attributes, SubjectKeyIdentifier};

/// The algorithms by which the signers digested (RFC 5652, 5.1).
pub type DigestAlgorithmIdentifiers = SetOfVec<AlgorithmIdentifierOwned>;

/// The attributes that are signed (RFC 5652, 5.3).
pub type SignedAttributes = Attributes;

/// The attributes that aren't signed (RFC 5652, 5.3).
pub type UnsignedAttributes = Attributes;

/// The octets of a signature (RFC 5652, 5.3).
pub type SignatureValue = OctetString;

/// Content with any number of signatures (RFC 5652, 5.1).
#[derive(Debug, PartialEq, Drop)]
pub struct SignedData {
    pub version: CmsVersion,
    pub digest_algorithms: DigestAlgorithmIdentifiers,
    pub encap_content_info: EncapsulatedContentInfo,
    pub certificates: Option<CertificateSet>,
    pub crls: Option<RevocationInfoChoices>,
    pub signer_infos: SignerInfos,
}

impl Der for SignedData {
    ghost grammar = { signed_data_type.grammar };

    fn accepts(tag: Tag) -> bool {
        tag.0 == tag::SEQUENCE
    }

    fn from_contents(alloc: Global, _tag: Tag, contents: &[u8]) -> Result<SignedData, DerError> {
        let mut reader = Reader::new(contents);
        let value = SignedData {
            version: read_value(alloc, &mut reader)?,
            digest_algorithms: read_value(alloc, &mut reader)?,
            encap_content_info: read_value(alloc, &mut reader)?,
            certificates: read_implicit_optional(
                alloc,
                Tag(tag::CONSTRUCTED_0),
                Tag(tag::SET),
                &mut reader,
            )?,
            crls: read_implicit_optional(
                alloc,
                Tag(tag::CONSTRUCTED_1),
                Tag(tag::SET),
                &mut reader,
            )?,
            signer_infos: read_value(alloc, &mut reader)?,
        };
        reader.end(value)
    }

    fn tag(&self) -> Tag {
        Tag(tag::SEQUENCE)
    }

    fn contents(&self, alloc: Global) -> Result<OctetString, DerError> {
        let mut out = OctetString::empty(alloc);
        self.version.encode_into(alloc, &mut out)?;
        self.digest_algorithms.encode_into(alloc, &mut out)?;
        self.encap_content_info.encode_into(alloc, &mut out)?;
        append_implicit_optional(
            alloc,
            Tag(tag::CONSTRUCTED_0),
            Tag(tag::SET),
            &self.certificates,
            &mut out,
        )?;
        append_implicit_optional(
            alloc,
            Tag(tag::CONSTRUCTED_1),
            Tag(tag::SET),
            &self.crls,
            &mut out,
        )?;
        self.signer_infos.encode_into(alloc, &mut out)?;
        Ok(out)
    }

    ghost lawful = { signed_data_type.lawful };
}

impl Duplicate for SignedData {
    fn duplicate(&self, alloc: Global) -> Result<SignedData, NoMemory> {
        Ok(SignedData {
            version: self.version.duplicate(alloc)?,
            digest_algorithms: self.digest_algorithms.duplicate(alloc)?,
            encap_content_info: self.encap_content_info.duplicate(alloc)?,
            certificates: self.certificates.duplicate(alloc)?,
            crls: self.crls.duplicate(alloc)?,
            signer_infos: self.signer_infos.duplicate(alloc)?,
        })
    }
}

/// A set of certificates (RFC 5652, 10.2.3).
#[derive(Debug, PartialEq, Drop)]
pub struct CertificateSet(pub SetOfVec<CertificateChoices>);

impl Der for CertificateSet {
    ghost grammar = { certificate_set_type.grammar };

    fn accepts(tag: Tag) -> bool {
        tag.0 == tag::SET
    }

    fn from_contents(alloc: Global, tag: Tag, contents: &[u8]) -> Result<CertificateSet, DerError> {
        Ok(CertificateSet(SetOfVec::from_contents(alloc, tag, contents)?))
    }

    fn tag(&self) -> Tag {
        Tag(tag::SET)
    }

    fn contents(&self, alloc: Global) -> Result<OctetString, DerError> {
        self.0.contents(alloc)
    }

    ghost lawful = { certificate_set_type.lawful };
}

impl Duplicate for CertificateSet {
    fn duplicate(&self, alloc: Global) -> Result<CertificateSet, NoMemory> {
        Ok(CertificateSet(self.0.duplicate(alloc)?))
    }
}

/// A set of signers (RFC 5652, 5.1).
#[derive(Debug, PartialEq, Drop)]
pub struct SignerInfos(pub SetOfVec<SignerInfo>);

impl Der for SignerInfos {
    ghost grammar = { signer_infos_type.grammar };

    fn accepts(tag: Tag) -> bool {
        tag.0 == tag::SET
    }

    fn from_contents(alloc: Global, tag: Tag, contents: &[u8]) -> Result<SignerInfos, DerError> {
        Ok(SignerInfos(SetOfVec::from_contents(alloc, tag, contents)?))
    }

    fn tag(&self) -> Tag {
        Tag(tag::SET)
    }

    fn contents(&self, alloc: Global) -> Result<OctetString, DerError> {
        self.0.contents(alloc)
    }

    ghost lawful = { signer_infos_type.lawful };
}

impl Duplicate for SignerInfos {
    fn duplicate(&self, alloc: Global) -> Result<SignerInfos, NoMemory> {
        Ok(SignerInfos(self.0.duplicate(alloc)?))
    }
}

/// The content that is signed, under its type (RFC 5652, 5.2).
#[derive(Debug, PartialEq, Drop)]
pub struct EncapsulatedContentInfo {
    pub econtent_type: ObjectIdentifier,
    /// None where the content stands elsewhere.
    pub econtent: Option<Any>,
}

impl Der for EncapsulatedContentInfo {
    ghost grammar = { encapsulated_content_info_type.grammar };

    fn accepts(tag: Tag) -> bool {
        tag.0 == tag::SEQUENCE
    }

    fn from_contents(
        alloc: Global,
        _tag: Tag,
        contents: &[u8],
    ) -> Result<EncapsulatedContentInfo, DerError> {
        let mut reader = Reader::new(contents);
        let value = EncapsulatedContentInfo {
            econtent_type: read_value(alloc, &mut reader)?,
            econtent: read_explicit_optional(alloc, Tag(tag::CONSTRUCTED_0), &mut reader)?,
        };
        reader.end(value)
    }

    fn tag(&self) -> Tag {
        Tag(tag::SEQUENCE)
    }

    fn contents(&self, alloc: Global) -> Result<OctetString, DerError> {
        let mut out = OctetString::empty(alloc);
        self.econtent_type.encode_into(alloc, &mut out)?;
        append_explicit_optional(alloc, Tag(tag::CONSTRUCTED_0), &self.econtent, &mut out)?;
        Ok(out)
    }

    ghost lawful = { encapsulated_content_info_type.lawful };
}

impl Duplicate for EncapsulatedContentInfo {
    fn duplicate(&self, alloc: Global) -> Result<EncapsulatedContentInfo, NoMemory> {
        Ok(EncapsulatedContentInfo {
            econtent_type: self.econtent_type.duplicate(alloc)?,
            econtent: self.econtent.duplicate(alloc)?,
        })
    }
}

/// What one signer signed, and the signature (RFC 5652, 5.3).
#[derive(Debug, PartialEq, Drop)]
pub struct SignerInfo {
    pub version: CmsVersion,
    pub sid: SignerIdentifier,
    pub digest_alg: AlgorithmIdentifierOwned,
    pub signed_attrs: Option<SignedAttributes>,
    pub signature_algorithm: AlgorithmIdentifierOwned,
    pub signature: SignatureValue,
    pub unsigned_attrs: Option<UnsignedAttributes>,
}

impl Der for SignerInfo {
    ghost grammar = { signer_info_type.grammar };

    fn accepts(tag: Tag) -> bool {
        tag.0 == tag::SEQUENCE
    }

    fn from_contents(alloc: Global, _tag: Tag, contents: &[u8]) -> Result<SignerInfo, DerError> {
        let mut reader = Reader::new(contents);
        let value = SignerInfo {
            version: read_value(alloc, &mut reader)?,
            sid: read_value(alloc, &mut reader)?,
            digest_alg: read_value(alloc, &mut reader)?,
            signed_attrs: read_implicit_optional(
                alloc,
                Tag(tag::CONSTRUCTED_0),
                Tag(tag::SET),
                &mut reader,
            )?,
            signature_algorithm: read_value(alloc, &mut reader)?,
            signature: read_value(alloc, &mut reader)?,
            unsigned_attrs: read_implicit_optional(
                alloc,
                Tag(tag::CONSTRUCTED_1),
                Tag(tag::SET),
                &mut reader,
            )?,
        };
        reader.end(value)
    }

    fn tag(&self) -> Tag {
        Tag(tag::SEQUENCE)
    }

    fn contents(&self, alloc: Global) -> Result<OctetString, DerError> {
        let mut out = OctetString::empty(alloc);
        self.version.encode_into(alloc, &mut out)?;
        self.sid.encode_into(alloc, &mut out)?;
        self.digest_alg.encode_into(alloc, &mut out)?;
        append_implicit_optional(
            alloc,
            Tag(tag::CONSTRUCTED_0),
            Tag(tag::SET),
            &self.signed_attrs,
            &mut out,
        )?;
        self.signature_algorithm.encode_into(alloc, &mut out)?;
        self.signature.encode_into(alloc, &mut out)?;
        append_implicit_optional(
            alloc,
            Tag(tag::CONSTRUCTED_1),
            Tag(tag::SET),
            &self.unsigned_attrs,
            &mut out,
        )?;
        Ok(out)
    }

    ghost lawful = { signer_info_type.lawful };
}

impl Duplicate for SignerInfo {
    fn duplicate(&self, alloc: Global) -> Result<SignerInfo, NoMemory> {
        Ok(SignerInfo {
            version: self.version.duplicate(alloc)?,
            sid: self.sid.duplicate(alloc)?,
            digest_alg: self.digest_alg.duplicate(alloc)?,
            signed_attrs: self.signed_attrs.duplicate(alloc)?,
            signature_algorithm: self.signature_algorithm.duplicate(alloc)?,
            signature: self.signature.duplicate(alloc)?,
            unsigned_attrs: self.unsigned_attrs.duplicate(alloc)?,
        })
    }
}

/// What names a signer's certificate (RFC 5652, 5.3).
#[derive(Debug, PartialEq, Drop)]
pub enum SignerIdentifier {
    IssuerAndSerialNumber(IssuerAndSerialNumber),
    /// `[0]`, implicit.
    SubjectKeyIdentifier(SubjectKeyIdentifier),
}

impl Der for SignerIdentifier {
    ghost grammar = { signer_identifier_type.grammar };

    fn accepts(tag: Tag) -> bool {
        tag.0 == tag::SEQUENCE || tag.0 == tag::PRIMITIVE_0
    }

    fn from_contents(
        alloc: Global,
        tag: Tag,
        contents: &[u8],
    ) -> Result<SignerIdentifier, DerError> {
        if tag.0 == tag::SEQUENCE {
            Ok(SignerIdentifier::IssuerAndSerialNumber(IssuerAndSerialNumber::from_contents(
                alloc, tag, contents,
            )?))
        } else {
            Ok(SignerIdentifier::SubjectKeyIdentifier(SubjectKeyIdentifier::from_contents(
                alloc,
                Tag(tag::OCTET_STRING),
                contents,
            )?))
        }
    }

    fn tag(&self) -> Tag {
        match self {
            SignerIdentifier::IssuerAndSerialNumber(_) => Tag(tag::SEQUENCE),
            SignerIdentifier::SubjectKeyIdentifier(_) => Tag(tag::PRIMITIVE_0),
        }
    }

    fn contents(&self, alloc: Global) -> Result<OctetString, DerError> {
        match self {
            SignerIdentifier::IssuerAndSerialNumber(value) => value.contents(alloc),
            SignerIdentifier::SubjectKeyIdentifier(value) => value.contents(alloc),
        }
    }

    ghost lawful = { signer_identifier_type.lawful };
}

impl Duplicate for SignerIdentifier {
    fn duplicate(&self, alloc: Global) -> Result<SignerIdentifier, NoMemory> {
        match self {
            SignerIdentifier::IssuerAndSerialNumber(value) => Ok(
                SignerIdentifier::IssuerAndSerialNumber(value.duplicate(alloc)?),
            ),
            SignerIdentifier::SubjectKeyIdentifier(value) => Ok(
                SignerIdentifier::SubjectKeyIdentifier(value.duplicate(alloc)?),
            ),
        }
    }
}
