// Recipients that share a key or a password, and others.
ghost use Rattle.cms_envelope.specs.KeyEncryption.{kek_identifier_type, kek_recipient_info_type, other_recipient_info_type, password_recipient_info_type};

use crate::key_transport::EncryptedKey;
use cms_parts::content_info::CmsVersion;
use der_core::{
    Any, Der, DerError, GeneralizedTime, ObjectIdentifier, OctetString, Reader, Tag,
    append_implicit_optional, append_optional, read_implicit_optional, read_optional, read_value,
    tag,
};
use foundation::{Duplicate, NoMemory};
use std::alloc::Global;
use x509_core::{AlgorithmIdentifierOwned, Attribute};

/// A key that is encrypted under a key that was handed out before (RFC 5652, 6.2.3).
#[derive(PartialEq, Drop)]
pub struct KekRecipientInfo {
    pub version: CmsVersion,
    pub kek_id: KekIdentifier,
    pub key_enc_alg: AlgorithmIdentifierOwned,
    pub encrypted_key: EncryptedKey,
}

impl Der for KekRecipientInfo {
    ghost grammar = { kek_recipient_info_type.grammar };

    fn accepts(tag: Tag) -> bool {
        tag.0 == tag::SEQUENCE
    }

    fn from_contents(
        alloc: Global,
        _tag: Tag,
        contents: &[u8],
    ) -> Result<KekRecipientInfo, DerError> {
        let mut reader = Reader::new(contents);
        let value = KekRecipientInfo {
            version: read_value(alloc, &mut reader)?,
            kek_id: read_value(alloc, &mut reader)?,
            key_enc_alg: read_value(alloc, &mut reader)?,
            encrypted_key: read_value(alloc, &mut reader)?,
        };
        reader.end(value)
    }

    fn tag(&self) -> Tag {
        Tag(tag::SEQUENCE)
    }

    fn contents(&self, alloc: Global) -> Result<OctetString, DerError> {
        let mut out = OctetString::empty(alloc);
        self.version.encode_into(alloc, &mut out)?;
        self.kek_id.encode_into(alloc, &mut out)?;
        self.key_enc_alg.encode_into(alloc, &mut out)?;
        self.encrypted_key.encode_into(alloc, &mut out)?;
        Ok(out)
    }

    ghost lawful = { kek_recipient_info_type.lawful };
}

impl Duplicate for KekRecipientInfo {
    fn duplicate(&self, alloc: Global) -> Result<KekRecipientInfo, NoMemory> {
        Ok(KekRecipientInfo {
            version: self.version.duplicate(alloc)?,
            kek_id: self.kek_id.duplicate(alloc)?,
            key_enc_alg: self.key_enc_alg.duplicate(alloc)?,
            encrypted_key: self.encrypted_key.duplicate(alloc)?,
        })
    }
}

/// What names a key that was handed out before (RFC 5652, 6.2.3).
#[derive(PartialEq, Drop)]
pub struct KekIdentifier {
    pub kek_identifier: OctetString,
    pub date: Option<GeneralizedTime>,
    pub other: Option<Attribute>,
}

impl Der for KekIdentifier {
    ghost grammar = { kek_identifier_type.grammar };

    fn accepts(tag: Tag) -> bool {
        tag.0 == tag::SEQUENCE
    }

    fn from_contents(alloc: Global, _tag: Tag, contents: &[u8]) -> Result<KekIdentifier, DerError> {
        let mut reader = Reader::new(contents);
        let value = KekIdentifier {
            kek_identifier: read_value(alloc, &mut reader)?,
            date: read_optional(alloc, &mut reader)?,
            other: read_optional(alloc, &mut reader)?,
        };
        reader.end(value)
    }

    fn tag(&self) -> Tag {
        Tag(tag::SEQUENCE)
    }

    fn contents(&self, alloc: Global) -> Result<OctetString, DerError> {
        let mut out = OctetString::empty(alloc);
        self.kek_identifier.encode_into(alloc, &mut out)?;
        append_optional(alloc, &self.date, &mut out)?;
        append_optional(alloc, &self.other, &mut out)?;
        Ok(out)
    }

    ghost lawful = { kek_identifier_type.lawful };
}

impl Duplicate for KekIdentifier {
    fn duplicate(&self, alloc: Global) -> Result<KekIdentifier, NoMemory> {
        Ok(KekIdentifier {
            kek_identifier: self.kek_identifier.duplicate(alloc)?,
            date: self.date.duplicate(alloc)?,
            other: self.other.duplicate(alloc)?,
        })
    }
}

/// A key that is encrypted under a password (RFC 5652, 6.2.4).
#[derive(PartialEq, Drop)]
pub struct PasswordRecipientInfo {
    pub version: CmsVersion,
    pub key_derivation_alg: Option<AlgorithmIdentifierOwned>,
    pub key_enc_alg: AlgorithmIdentifierOwned,
    pub enc_key: EncryptedKey,
}

impl Der for PasswordRecipientInfo {
    ghost grammar = { password_recipient_info_type.grammar };

    fn accepts(tag: Tag) -> bool {
        tag.0 == tag::SEQUENCE
    }

    fn from_contents(
        alloc: Global,
        _tag: Tag,
        contents: &[u8],
    ) -> Result<PasswordRecipientInfo, DerError> {
        let mut reader = Reader::new(contents);
        let value = PasswordRecipientInfo {
            version: read_value(alloc, &mut reader)?,
            key_derivation_alg: read_implicit_optional(
                alloc,
                Tag(tag::CONSTRUCTED_0),
                Tag(tag::SEQUENCE),
                &mut reader,
            )?,
            key_enc_alg: read_value(alloc, &mut reader)?,
            enc_key: read_value(alloc, &mut reader)?,
        };
        reader.end(value)
    }

    fn tag(&self) -> Tag {
        Tag(tag::SEQUENCE)
    }

    fn contents(&self, alloc: Global) -> Result<OctetString, DerError> {
        let mut out = OctetString::empty(alloc);
        self.version.encode_into(alloc, &mut out)?;
        append_implicit_optional(
            alloc,
            Tag(tag::CONSTRUCTED_0),
            Tag(tag::SEQUENCE),
            &self.key_derivation_alg,
            &mut out,
        )?;
        self.key_enc_alg.encode_into(alloc, &mut out)?;
        self.enc_key.encode_into(alloc, &mut out)?;
        Ok(out)
    }

    ghost lawful = { password_recipient_info_type.lawful };
}

impl Duplicate for PasswordRecipientInfo {
    fn duplicate(&self, alloc: Global) -> Result<PasswordRecipientInfo, NoMemory> {
        Ok(PasswordRecipientInfo {
            version: self.version.duplicate(alloc)?,
            key_derivation_alg: self.key_derivation_alg.duplicate(alloc)?,
            key_enc_alg: self.key_enc_alg.duplicate(alloc)?,
            enc_key: self.enc_key.duplicate(alloc)?,
        })
    }
}

/// A recipient of another kind (RFC 5652, 6.2.5).
#[derive(PartialEq, Drop)]
pub struct OtherRecipientInfo {
    pub ori_type: ObjectIdentifier,
    pub ori_value: Any,
}

impl Der for OtherRecipientInfo {
    ghost grammar = { other_recipient_info_type.grammar };

    fn accepts(tag: Tag) -> bool {
        tag.0 == tag::SEQUENCE
    }

    fn from_contents(
        alloc: Global,
        _tag: Tag,
        contents: &[u8],
    ) -> Result<OtherRecipientInfo, DerError> {
        let mut reader = Reader::new(contents);
        let value = OtherRecipientInfo {
            ori_type: read_value(alloc, &mut reader)?,
            ori_value: read_value(alloc, &mut reader)?,
        };
        reader.end(value)
    }

    fn tag(&self) -> Tag {
        Tag(tag::SEQUENCE)
    }

    fn contents(&self, alloc: Global) -> Result<OctetString, DerError> {
        let mut out = OctetString::empty(alloc);
        self.ori_type.encode_into(alloc, &mut out)?;
        self.ori_value.encode_into(alloc, &mut out)?;
        Ok(out)
    }

    ghost lawful = { other_recipient_info_type.lawful };
}

impl Duplicate for OtherRecipientInfo {
    fn duplicate(&self, alloc: Global) -> Result<OtherRecipientInfo, NoMemory> {
        Ok(OtherRecipientInfo {
            ori_type: self.ori_type.duplicate(alloc)?,
            ori_value: self.ori_value.duplicate(alloc)?,
        })
    }
}
