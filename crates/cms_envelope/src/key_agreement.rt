// Recipients by key agreement.
ghost use Rattle.cms_envelope.specs.KeyAgreement.{key_agree_recipient_identifier_type, key_agree_recipient_info_type, originator_identifier_or_key_type, originator_public_key_type, recipient_encrypted_key_type, recipient_key_identifier_type};

use crate::key_transport::EncryptedKey;
use cms_parts::cert::IssuerAndSerialNumber;
use cms_parts::content_info::CmsVersion;
use der_core::{
    BitString, Der, DerError, GeneralizedTime, OctetString, Reader, Tag, append_explicit,
    append_explicit_optional, append_optional, read_explicit, read_explicit_optional,
    read_optional, read_value, tag,
};
use foundation::{Duplicate, NoMemory, Sequence};
use std::alloc::Global;
use x509_core::{AlgorithmIdentifierOwned, Attribute, SubjectKeyIdentifier};

/// Keys, each encrypted for one recipient (RFC 5652, 6.2.2).
pub type RecipientEncryptedKeys = Sequence<RecipientEncryptedKey>;

/// What the originator adds, so that keys differ from time to time (RFC 5652, 10.2.6).
pub type UserKeyingMaterial = OctetString;

/// A key that is encrypted under keys that were agreed on (RFC 5652, 6.2.2).
#[derive(PartialEq, Drop)]
pub struct KeyAgreeRecipientInfo {
    pub version: CmsVersion,
    pub originator: OriginatorIdentifierOrKey,
    pub ukm: Option<UserKeyingMaterial>,
    pub key_enc_alg: AlgorithmIdentifierOwned,
    pub recipient_enc_keys: RecipientEncryptedKeys,
}

impl Der for KeyAgreeRecipientInfo {
    ghost grammar = { key_agree_recipient_info_type.grammar };

    fn accepts(tag: Tag) -> bool {
        tag.0 == tag::SEQUENCE
    }

    fn from_contents(
        alloc: Global,
        _tag: Tag,
        contents: &[u8],
    ) -> Result<KeyAgreeRecipientInfo, DerError> {
        let mut reader = Reader::new(contents);
        let value = KeyAgreeRecipientInfo {
            version: read_value(alloc, &mut reader)?,
            originator: read_explicit(alloc, Tag(tag::CONSTRUCTED_0), &mut reader)?,
            ukm: read_explicit_optional(alloc, Tag(tag::CONSTRUCTED_1), &mut reader)?,
            key_enc_alg: read_value(alloc, &mut reader)?,
            recipient_enc_keys: read_value(alloc, &mut reader)?,
        };
        reader.end(value)
    }

    fn tag(&self) -> Tag {
        Tag(tag::SEQUENCE)
    }

    fn contents(&self, alloc: Global) -> Result<OctetString, DerError> {
        let mut out = OctetString::empty(alloc);
        self.version.encode_into(alloc, &mut out)?;
        append_explicit(alloc, Tag(tag::CONSTRUCTED_0), &self.originator, &mut out)?;
        append_explicit_optional(alloc, Tag(tag::CONSTRUCTED_1), &self.ukm, &mut out)?;
        self.key_enc_alg.encode_into(alloc, &mut out)?;
        self.recipient_enc_keys.encode_into(alloc, &mut out)?;
        Ok(out)
    }

    ghost lawful = { key_agree_recipient_info_type.lawful };
}

impl Duplicate for KeyAgreeRecipientInfo {
    fn duplicate(&self, alloc: Global) -> Result<KeyAgreeRecipientInfo, NoMemory> {
        Ok(KeyAgreeRecipientInfo {
            version: self.version.duplicate(alloc)?,
            originator: self.originator.duplicate(alloc)?,
            ukm: self.ukm.duplicate(alloc)?,
            key_enc_alg: self.key_enc_alg.duplicate(alloc)?,
            recipient_enc_keys: self.recipient_enc_keys.duplicate(alloc)?,
        })
    }
}

/// What names an originator's certificate, or a key (RFC 5652, 6.2.2).
#[derive(PartialEq, Drop)]
pub enum OriginatorIdentifierOrKey {
    IssuerAndSerialNumber(IssuerAndSerialNumber),
    /// `[0]`, implicit.
    SubjectKeyIdentifier(SubjectKeyIdentifier),
    /// `[1]`, implicit.
    OriginatorKey(OriginatorPublicKey),
}

impl Der for OriginatorIdentifierOrKey {
    ghost grammar = { originator_identifier_or_key_type.grammar };

    fn accepts(tag: Tag) -> bool {
        tag.0 == tag::SEQUENCE || tag.0 == tag::PRIMITIVE_0 || tag.0 == tag::CONSTRUCTED_1
    }

    fn from_contents(
        alloc: Global,
        tag: Tag,
        contents: &[u8],
    ) -> Result<OriginatorIdentifierOrKey, DerError> {
        if tag.0 == tag::SEQUENCE {
            Ok(OriginatorIdentifierOrKey::IssuerAndSerialNumber(
                IssuerAndSerialNumber::from_contents(alloc, tag, contents)?,
            ))
        } else if tag.0 == tag::PRIMITIVE_0 {
            Ok(OriginatorIdentifierOrKey::SubjectKeyIdentifier(SubjectKeyIdentifier::from_contents(
                alloc,
                Tag(tag::OCTET_STRING),
                contents,
            )?))
        } else {
            Ok(OriginatorIdentifierOrKey::OriginatorKey(OriginatorPublicKey::from_contents(
                alloc,
                Tag(tag::SEQUENCE),
                contents,
            )?))
        }
    }

    fn tag(&self) -> Tag {
        match self {
            OriginatorIdentifierOrKey::IssuerAndSerialNumber(_) => Tag(tag::SEQUENCE),
            OriginatorIdentifierOrKey::SubjectKeyIdentifier(_) => Tag(tag::PRIMITIVE_0),
            OriginatorIdentifierOrKey::OriginatorKey(_) => Tag(tag::CONSTRUCTED_1),
        }
    }

    fn contents(&self, alloc: Global) -> Result<OctetString, DerError> {
        match self {
            OriginatorIdentifierOrKey::IssuerAndSerialNumber(value) => value.contents(alloc),
            OriginatorIdentifierOrKey::SubjectKeyIdentifier(value) => value.contents(alloc),
            OriginatorIdentifierOrKey::OriginatorKey(value) => value.contents(alloc),
        }
    }

    ghost lawful = { originator_identifier_or_key_type.lawful };
}

impl Duplicate for OriginatorIdentifierOrKey {
    fn duplicate(&self, alloc: Global) -> Result<OriginatorIdentifierOrKey, NoMemory> {
        match self {
            OriginatorIdentifierOrKey::IssuerAndSerialNumber(value) => Ok(
                OriginatorIdentifierOrKey::IssuerAndSerialNumber(value.duplicate(alloc)?),
            ),
            OriginatorIdentifierOrKey::SubjectKeyIdentifier(value) => Ok(
                OriginatorIdentifierOrKey::SubjectKeyIdentifier(value.duplicate(alloc)?),
            ),
            OriginatorIdentifierOrKey::OriginatorKey(value) => Ok(
                OriginatorIdentifierOrKey::OriginatorKey(value.duplicate(alloc)?),
            ),
        }
    }
}

/// An originator's key (RFC 5652, 6.2.2).
#[derive(PartialEq, Drop)]
pub struct OriginatorPublicKey {
    pub algorithm: AlgorithmIdentifierOwned,
    pub public_key: BitString,
}

impl Der for OriginatorPublicKey {
    ghost grammar = { originator_public_key_type.grammar };

    fn accepts(tag: Tag) -> bool {
        tag.0 == tag::SEQUENCE
    }

    fn from_contents(
        alloc: Global,
        _tag: Tag,
        contents: &[u8],
    ) -> Result<OriginatorPublicKey, DerError> {
        let mut reader = Reader::new(contents);
        let value = OriginatorPublicKey {
            algorithm: read_value(alloc, &mut reader)?,
            public_key: read_value(alloc, &mut reader)?,
        };
        reader.end(value)
    }

    fn tag(&self) -> Tag {
        Tag(tag::SEQUENCE)
    }

    fn contents(&self, alloc: Global) -> Result<OctetString, DerError> {
        let mut out = OctetString::empty(alloc);
        self.algorithm.encode_into(alloc, &mut out)?;
        self.public_key.encode_into(alloc, &mut out)?;
        Ok(out)
    }

    ghost lawful = { originator_public_key_type.lawful };
}

impl Duplicate for OriginatorPublicKey {
    fn duplicate(&self, alloc: Global) -> Result<OriginatorPublicKey, NoMemory> {
        Ok(OriginatorPublicKey {
            algorithm: self.algorithm.duplicate(alloc)?,
            public_key: self.public_key.duplicate(alloc)?,
        })
    }
}

/// A key that is encrypted for one recipient (RFC 5652, 6.2.2).
#[derive(PartialEq, Drop)]
pub struct RecipientEncryptedKey {
    pub rid: KeyAgreeRecipientIdentifier,
    pub enc_key: EncryptedKey,
}

impl Der for RecipientEncryptedKey {
    ghost grammar = { recipient_encrypted_key_type.grammar };

    fn accepts(tag: Tag) -> bool {
        tag.0 == tag::SEQUENCE
    }

    fn from_contents(
        alloc: Global,
        _tag: Tag,
        contents: &[u8],
    ) -> Result<RecipientEncryptedKey, DerError> {
        let mut reader = Reader::new(contents);
        let value = RecipientEncryptedKey {
            rid: read_value(alloc, &mut reader)?,
            enc_key: read_value(alloc, &mut reader)?,
        };
        reader.end(value)
    }

    fn tag(&self) -> Tag {
        Tag(tag::SEQUENCE)
    }

    fn contents(&self, alloc: Global) -> Result<OctetString, DerError> {
        let mut out = OctetString::empty(alloc);
        self.rid.encode_into(alloc, &mut out)?;
        self.enc_key.encode_into(alloc, &mut out)?;
        Ok(out)
    }

    ghost lawful = { recipient_encrypted_key_type.lawful };
}

impl Duplicate for RecipientEncryptedKey {
    fn duplicate(&self, alloc: Global) -> Result<RecipientEncryptedKey, NoMemory> {
        Ok(RecipientEncryptedKey {
            rid: self.rid.duplicate(alloc)?,
            enc_key: self.enc_key.duplicate(alloc)?,
        })
    }
}

/// What names a recipient's certificate or key (RFC 5652, 6.2.2).
#[derive(PartialEq, Drop)]
pub enum KeyAgreeRecipientIdentifier {
    IssuerAndSerialNumber(IssuerAndSerialNumber),
    /// `[0]`, implicit.
    RKeyId(RecipientKeyIdentifier),
}

impl Der for KeyAgreeRecipientIdentifier {
    ghost grammar = { key_agree_recipient_identifier_type.grammar };

    fn accepts(tag: Tag) -> bool {
        tag.0 == tag::SEQUENCE || tag.0 == tag::CONSTRUCTED_0
    }

    fn from_contents(
        alloc: Global,
        tag: Tag,
        contents: &[u8],
    ) -> Result<KeyAgreeRecipientIdentifier, DerError> {
        if tag.0 == tag::SEQUENCE {
            Ok(KeyAgreeRecipientIdentifier::IssuerAndSerialNumber(
                IssuerAndSerialNumber::from_contents(alloc, tag, contents)?,
            ))
        } else {
            Ok(KeyAgreeRecipientIdentifier::RKeyId(RecipientKeyIdentifier::from_contents(
                alloc,
                Tag(tag::SEQUENCE),
                contents,
            )?))
        }
    }

    fn tag(&self) -> Tag {
        match self {
            KeyAgreeRecipientIdentifier::IssuerAndSerialNumber(_) => Tag(tag::SEQUENCE),
            KeyAgreeRecipientIdentifier::RKeyId(_) => Tag(tag::CONSTRUCTED_0),
        }
    }

    fn contents(&self, alloc: Global) -> Result<OctetString, DerError> {
        match self {
            KeyAgreeRecipientIdentifier::IssuerAndSerialNumber(value) => value.contents(alloc),
            KeyAgreeRecipientIdentifier::RKeyId(value) => value.contents(alloc),
        }
    }

    ghost lawful = { key_agree_recipient_identifier_type.lawful };
}

impl Duplicate for KeyAgreeRecipientIdentifier {
    fn duplicate(&self, alloc: Global) -> Result<KeyAgreeRecipientIdentifier, NoMemory> {
        match self {
            KeyAgreeRecipientIdentifier::IssuerAndSerialNumber(value) => Ok(
                KeyAgreeRecipientIdentifier::IssuerAndSerialNumber(value.duplicate(alloc)?),
            ),
            KeyAgreeRecipientIdentifier::RKeyId(value) => Ok(KeyAgreeRecipientIdentifier::RKeyId(
                value.duplicate(alloc)?,
            )),
        }
    }
}

/// What names a recipient's key (RFC 5652, 6.2.2).
#[derive(PartialEq, Drop)]
pub struct RecipientKeyIdentifier {
    pub subject_key_identifier: SubjectKeyIdentifier,
    pub date: Option<GeneralizedTime>,
    pub other: Option<Attribute>,
}

impl Der for RecipientKeyIdentifier {
    ghost grammar = { recipient_key_identifier_type.grammar };

    fn accepts(tag: Tag) -> bool {
        tag.0 == tag::SEQUENCE
    }

    fn from_contents(
        alloc: Global,
        _tag: Tag,
        contents: &[u8],
    ) -> Result<RecipientKeyIdentifier, DerError> {
        let mut reader = Reader::new(contents);
        let value = RecipientKeyIdentifier {
            subject_key_identifier: read_value(alloc, &mut reader)?,
            date: read_optional(alloc, &mut reader)?,
            other: read_optional(alloc, &mut reader)?,
        };
        reader.end(value)
    }

    fn tag(&self) -> Tag {
        Tag(tag::SEQUENCE)
    }

    fn contents(&self, alloc: Global) -> Result<OctetString, DerError> {
        let mut out = OctetString::empty(alloc);
        self.subject_key_identifier.encode_into(alloc, &mut out)?;
        append_optional(alloc, &self.date, &mut out)?;
        append_optional(alloc, &self.other, &mut out)?;
        Ok(out)
    }

    ghost lawful = { recipient_key_identifier_type.lawful };
}

impl Duplicate for RecipientKeyIdentifier {
    fn duplicate(&self, alloc: Global) -> Result<RecipientKeyIdentifier, NoMemory> {
        Ok(RecipientKeyIdentifier {
            subject_key_identifier: self.subject_key_identifier.duplicate(alloc)?,
            date: self.date.duplicate(alloc)?,
            other: self.other.duplicate(alloc)?,
        })
    }
}
