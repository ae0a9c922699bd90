// Enveloped data.
ghost use Rattle.cms_envelope.specs.EnvelopedData.{enveloped_data_type, originator_info_type, recipient_info_type, recipient_infos_type};

pub use crate::encrypted_content::EncryptedContentInfo;
pub use crate::key_agreement::{
    KeyAgreeRecipientIdentifier, KeyAgreeRecipientInfo, OriginatorIdentifierOrKey,
    OriginatorPublicKey, RecipientEncryptedKey, RecipientEncryptedKeys, RecipientKeyIdentifier,
    UserKeyingMaterial,
};
pub use crate::key_encryption::{
    KekIdentifier, KekRecipientInfo, OtherRecipientInfo, PasswordRecipientInfo,
};
pub use crate::key_transport::{EncryptedKey, KeyTransRecipientInfo, RecipientIdentifier};
use cms_parts::content_info::CmsVersion;
use cms_parts::revocation::RevocationInfoChoices;
use cms_parts::signed_data::CertificateSet;
use der_core::{
    Der, DerError, OctetString, Reader, SetOfVec, Tag, append_implicit_optional,
    read_implicit_optional, read_value, tag,
};
use foundation::{Duplicate, NoMemory};
use std::alloc::Global;
use x509_core::Attributes;

/// Encrypted content with its recipients (RFC 5652, 6.1).
#[derive(PartialEq, Drop)]
pub struct EnvelopedData {
    pub version: CmsVersion,
    pub originator_info: Option<OriginatorInfo>,
    pub recip_infos: RecipientInfos,
    pub encrypted_content: EncryptedContentInfo,
    pub unprotected_attrs: Option<Attributes>,
}

impl Der for EnvelopedData {
    ghost grammar = { enveloped_data_type.grammar };

    fn accepts(tag: Tag) -> bool {
        tag.0 == tag::SEQUENCE
    }

    fn from_contents(alloc: Global, _tag: Tag, contents: &[u8]) -> Result<EnvelopedData, DerError> {
        let mut reader = Reader::new(contents);
        let value = EnvelopedData {
            version: read_value(alloc, &mut reader)?,
            originator_info: read_implicit_optional(
                alloc,
                Tag(tag::CONSTRUCTED_0),
                Tag(tag::SEQUENCE),
                &mut reader,
            )?,
            recip_infos: read_value(alloc, &mut reader)?,
            encrypted_content: read_value(alloc, &mut reader)?,
            unprotected_attrs: read_implicit_optional(
                alloc,
                Tag(tag::CONSTRUCTED_1),
                Tag(tag::SET),
                &mut reader,
            )?,
        };
        reader.end(value)
    }

    fn tag(&self) -> Tag {
        Tag(tag::SEQUENCE)
    }

    fn contents(&self, alloc: Global) -> Result<OctetString, DerError> {
        let mut out = OctetString::empty(alloc);
        self.version.encode_into(alloc, &mut out)?;
        append_implicit_optional(
            alloc,
            Tag(tag::CONSTRUCTED_0),
            Tag(tag::SEQUENCE),
            &self.originator_info,
            &mut out,
        )?;
        self.recip_infos.encode_into(alloc, &mut out)?;
        self.encrypted_content.encode_into(alloc, &mut out)?;
        append_implicit_optional(
            alloc,
            Tag(tag::CONSTRUCTED_1),
            Tag(tag::SET),
            &self.unprotected_attrs,
            &mut out,
        )?;
        Ok(out)
    }

    ghost lawful = { enveloped_data_type.lawful };
}

impl Duplicate for EnvelopedData {
    fn duplicate(&self, alloc: Global) -> Result<EnvelopedData, NoMemory> {
        Ok(EnvelopedData {
            version: self.version.duplicate(alloc)?,
            originator_info: self.originator_info.duplicate(alloc)?,
            recip_infos: self.recip_infos.duplicate(alloc)?,
            encrypted_content: self.encrypted_content.duplicate(alloc)?,
            unprotected_attrs: self.unprotected_attrs.duplicate(alloc)?,
        })
    }
}

/// Certificates and revocation information of the originator (RFC 5652, 6.1).
#[derive(PartialEq, Drop)]
pub struct OriginatorInfo {
    pub certs: Option<CertificateSet>,
    pub crls: Option<RevocationInfoChoices>,
}

impl Der for OriginatorInfo {
    ghost grammar = { originator_info_type.grammar };

    fn accepts(tag: Tag) -> bool {
        tag.0 == tag::SEQUENCE
    }

    fn from_contents(
        alloc: Global,
        _tag: Tag,
        contents: &[u8],
    ) -> Result<OriginatorInfo, DerError> {
        let mut reader = Reader::new(contents);
        let value = OriginatorInfo {
            certs: read_implicit_optional(
                alloc,
                Tag(tag::CONSTRUCTED_0),
                Tag(tag::SET),
                &mut reader,
            )?,
            crls: read_implicit_optional(
                alloc,
                Tag(tag::CONSTRUCTED_1),
                Tag(tag::SET),
                &mut reader,
            )?,
        };
        reader.end(value)
    }

    fn tag(&self) -> Tag {
        Tag(tag::SEQUENCE)
    }

    fn contents(&self, alloc: Global) -> Result<OctetString, DerError> {
        let mut out = OctetString::empty(alloc);
        append_implicit_optional(
            alloc,
            Tag(tag::CONSTRUCTED_0),
            Tag(tag::SET),
            &self.certs,
            &mut out,
        )?;
        append_implicit_optional(
            alloc,
            Tag(tag::CONSTRUCTED_1),
            Tag(tag::SET),
            &self.crls,
            &mut out,
        )?;
        Ok(out)
    }

    ghost lawful = { originator_info_type.lawful };
}

impl Duplicate for OriginatorInfo {
    fn duplicate(&self, alloc: Global) -> Result<OriginatorInfo, NoMemory> {
        Ok(OriginatorInfo {
            certs: self.certs.duplicate(alloc)?,
            crls: self.crls.duplicate(alloc)?,
        })
    }
}

/// A set of recipients (RFC 5652, 6.1).
#[derive(PartialEq, Drop)]
pub struct RecipientInfos(pub SetOfVec<RecipientInfo>);

impl Der for RecipientInfos {
    ghost grammar = { recipient_infos_type.grammar };

    fn accepts(tag: Tag) -> bool {
        tag.0 == tag::SET
    }

    fn from_contents(alloc: Global, tag: Tag, contents: &[u8]) -> Result<RecipientInfos, DerError> {
        Ok(RecipientInfos(SetOfVec::from_contents(alloc, tag, contents)?))
    }

    fn tag(&self) -> Tag {
        Tag(tag::SET)
    }

    fn contents(&self, alloc: Global) -> Result<OctetString, DerError> {
        self.0.contents(alloc)
    }

    ghost lawful = { recipient_infos_type.lawful };
}

impl Duplicate for RecipientInfos {
    fn duplicate(&self, alloc: Global) -> Result<RecipientInfos, NoMemory> {
        Ok(RecipientInfos(self.0.duplicate(alloc)?))
    }
}

/// How a recipient comes by the key (RFC 5652, 6.2).
#[derive(PartialEq, Drop)]
pub enum RecipientInfo {
    /// By key transport.
    Ktri(KeyTransRecipientInfo),
    /// `[1]`, implicit: by key agreement.
    Kari(KeyAgreeRecipientInfo),
    /// `[2]`, implicit: by a key that was handed out before.
    Kekri(KekRecipientInfo),
    /// `[3]`, implicit: by a password.
    Pwri(PasswordRecipientInfo),
    /// `[4]`, implicit: in another way.
    Ori(OtherRecipientInfo),
}

impl Der for RecipientInfo {
    ghost grammar = { recipient_info_type.grammar };

    fn accepts(tag: Tag) -> bool {
        tag.0 == tag::SEQUENCE
            || tag.0 == tag::CONSTRUCTED_1
            || tag.0 == tag::CONSTRUCTED_2
            || tag.0 == tag::CONSTRUCTED_3
            || tag.0 == tag::CONSTRUCTED_4
    }

    fn from_contents(alloc: Global, tag: Tag, contents: &[u8]) -> Result<RecipientInfo, DerError> {
        if tag.0 == tag::SEQUENCE {
            Ok(RecipientInfo::Ktri(KeyTransRecipientInfo::from_contents(alloc, tag, contents)?))
        } else if tag.0 == tag::CONSTRUCTED_1 {
            Ok(RecipientInfo::Kari(KeyAgreeRecipientInfo::from_contents(
                alloc,
                Tag(tag::SEQUENCE),
                contents,
            )?))
        } else if tag.0 == tag::CONSTRUCTED_2 {
            Ok(RecipientInfo::Kekri(KekRecipientInfo::from_contents(
                alloc,
                Tag(tag::SEQUENCE),
                contents,
            )?))
        } else if tag.0 == tag::CONSTRUCTED_3 {
            Ok(RecipientInfo::Pwri(PasswordRecipientInfo::from_contents(
                alloc,
                Tag(tag::SEQUENCE),
                contents,
            )?))
        } else {
            Ok(RecipientInfo::Ori(OtherRecipientInfo::from_contents(
                alloc,
                Tag(tag::SEQUENCE),
                contents,
            )?))
        }
    }

    fn tag(&self) -> Tag {
        match self {
            RecipientInfo::Ktri(_) => Tag(tag::SEQUENCE),
            RecipientInfo::Kari(_) => Tag(tag::CONSTRUCTED_1),
            RecipientInfo::Kekri(_) => Tag(tag::CONSTRUCTED_2),
            RecipientInfo::Pwri(_) => Tag(tag::CONSTRUCTED_3),
            RecipientInfo::Ori(_) => Tag(tag::CONSTRUCTED_4),
        }
    }

    fn contents(&self, alloc: Global) -> Result<OctetString, DerError> {
        match self {
            RecipientInfo::Ktri(value) => value.contents(alloc),
            RecipientInfo::Kari(value) => value.contents(alloc),
            RecipientInfo::Kekri(value) => value.contents(alloc),
            RecipientInfo::Pwri(value) => value.contents(alloc),
            RecipientInfo::Ori(value) => value.contents(alloc),
        }
    }

    ghost lawful = { recipient_info_type.lawful };
}

impl Duplicate for RecipientInfo {
    fn duplicate(&self, alloc: Global) -> Result<RecipientInfo, NoMemory> {
        match self {
            RecipientInfo::Ktri(value) => Ok(RecipientInfo::Ktri(value.duplicate(alloc)?)),
            RecipientInfo::Kari(value) => Ok(RecipientInfo::Kari(value.duplicate(alloc)?)),
            RecipientInfo::Kekri(value) => Ok(RecipientInfo::Kekri(value.duplicate(alloc)?)),
            RecipientInfo::Pwri(value) => Ok(RecipientInfo::Pwri(value.duplicate(alloc)?)),
            RecipientInfo::Ori(value) => Ok(RecipientInfo::Ori(value.duplicate(alloc)?)),
        }
    }
}
