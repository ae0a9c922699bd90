// Recipients by key transport.
ghost use Rattle.cms_envelope.specs.KeyTransport.{key_trans_recipient_info_type, recipient_identifier_type};

use cms_parts::cert::IssuerAndSerialNumber;
use cms_parts::content_info::CmsVersion;
use der_core::{Der, DerError, OctetString, Reader, Tag, read_value, tag};
use foundation::{Duplicate, NoMemory};
use std::alloc::Global;
use x509_core::{AlgorithmIdentifierOwned, SubjectKeyIdentifier};

/// The octets of an encrypted key (RFC 5652, 6.2).
pub type EncryptedKey = OctetString;

/// A key that is encrypted under a recipient's key (RFC 5652, 6.2.1).
#[derive(PartialEq, Drop)]
pub struct KeyTransRecipientInfo {
    pub version: CmsVersion,
    pub rid: RecipientIdentifier,
    pub key_enc_alg: AlgorithmIdentifierOwned,
    pub enc_key: EncryptedKey,
}

impl Der for KeyTransRecipientInfo {
    ghost grammar = { key_trans_recipient_info_type.grammar };

    fn accepts(tag: Tag) -> bool {
        tag.0 == tag::SEQUENCE
    }

    fn from_contents(
        alloc: Global,
        _tag: Tag,
        contents: &[u8],
    ) -> Result<KeyTransRecipientInfo, DerError> {
        let mut reader = Reader::new(contents);
        let value = KeyTransRecipientInfo {
            version: read_value(alloc, &mut reader)?,
            rid: read_value(alloc, &mut reader)?,
            key_enc_alg: read_value(alloc, &mut reader)?,
            enc_key: read_value(alloc, &mut reader)?,
        };
        reader.end(value)
    }

    fn tag(&self) -> Tag {
        Tag(tag::SEQUENCE)
    }

    fn contents(&self, alloc: Global) -> Result<OctetString, DerError> {
        let mut out = OctetString::empty(alloc);
        self.version.encode_into(alloc, &mut out)?;
        self.rid.encode_into(alloc, &mut out)?;
        self.key_enc_alg.encode_into(alloc, &mut out)?;
        self.enc_key.encode_into(alloc, &mut out)?;
        Ok(out)
    }

    ghost lawful = { key_trans_recipient_info_type.lawful };
}

impl Duplicate for KeyTransRecipientInfo {
    fn duplicate(&self, alloc: Global) -> Result<KeyTransRecipientInfo, NoMemory> {
        Ok(KeyTransRecipientInfo {
            version: self.version.duplicate(alloc)?,
            rid: self.rid.duplicate(alloc)?,
            key_enc_alg: self.key_enc_alg.duplicate(alloc)?,
            enc_key: self.enc_key.duplicate(alloc)?,
        })
    }
}

/// What names a recipient's certificate (RFC 5652, 6.2.1).
#[derive(PartialEq, Drop)]
pub enum RecipientIdentifier {
    IssuerAndSerialNumber(IssuerAndSerialNumber),
    /// `[0]`, implicit.
    SubjectKeyIdentifier(SubjectKeyIdentifier),
}

impl Der for RecipientIdentifier {
    ghost grammar = { recipient_identifier_type.grammar };

    fn accepts(tag: Tag) -> bool {
        tag.0 == tag::SEQUENCE || tag.0 == tag::PRIMITIVE_0
    }

    fn from_contents(
        alloc: Global,
        tag: Tag,
        contents: &[u8],
    ) -> Result<RecipientIdentifier, DerError> {
        if tag.0 == tag::SEQUENCE {
            Ok(RecipientIdentifier::IssuerAndSerialNumber(IssuerAndSerialNumber::from_contents(
                alloc, tag, contents,
            )?))
        } else {
            Ok(RecipientIdentifier::SubjectKeyIdentifier(SubjectKeyIdentifier::from_contents(
                alloc,
                Tag(tag::OCTET_STRING),
                contents,
            )?))
        }
    }

    fn tag(&self) -> Tag {
        match self {
            RecipientIdentifier::IssuerAndSerialNumber(_) => Tag(tag::SEQUENCE),
            RecipientIdentifier::SubjectKeyIdentifier(_) => Tag(tag::PRIMITIVE_0),
        }
    }

    fn contents(&self, alloc: Global) -> Result<OctetString, DerError> {
        match self {
            RecipientIdentifier::IssuerAndSerialNumber(value) => value.contents(alloc),
            RecipientIdentifier::SubjectKeyIdentifier(value) => value.contents(alloc),
        }
    }

    ghost lawful = { recipient_identifier_type.lawful };
}

impl Duplicate for RecipientIdentifier {
    fn duplicate(&self, alloc: Global) -> Result<RecipientIdentifier, NoMemory> {
        match self {
            RecipientIdentifier::IssuerAndSerialNumber(value) => Ok(
                RecipientIdentifier::IssuerAndSerialNumber(value.duplicate(alloc)?),
            ),
            RecipientIdentifier::SubjectKeyIdentifier(value) => Ok(
                RecipientIdentifier::SubjectKeyIdentifier(value.duplicate(alloc)?),
            ),
        }
    }
}
