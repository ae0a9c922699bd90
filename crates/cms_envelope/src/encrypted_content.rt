// Encrypted content.
ghost use Rattle.cms_envelope.specs.EncryptedContent.{encrypted_content_info_type};

use der_core::{
    Der, DerError, ObjectIdentifier, OctetString, Reader, Tag, append_implicit_optional,
    read_implicit_optional, read_value, tag,
};
use foundation::{Duplicate, NoMemory};
use std::alloc::Global;
use x509_core::AlgorithmIdentifierOwned;

/// Encrypted content under its type (RFC 5652, 6.1).
#[derive(PartialEq, Drop)]
pub struct EncryptedContentInfo {
    pub content_type: ObjectIdentifier,
    pub content_enc_alg: AlgorithmIdentifierOwned,
    /// None where the content stands elsewhere.
    pub encrypted_content: Option<OctetString>,
}

impl Der for EncryptedContentInfo {
    ghost grammar = { encrypted_content_info_type.grammar };

    fn accepts(tag: Tag) -> bool {
        tag.0 == tag::SEQUENCE
    }

    fn from_contents(
        alloc: Global,
        _tag: Tag,
        contents: &[u8],
    ) -> Result<EncryptedContentInfo, DerError> {
        let mut reader = Reader::new(contents);
        let value = EncryptedContentInfo {
            content_type: read_value(alloc, &mut reader)?,
            content_enc_alg: read_value(alloc, &mut reader)?,
            encrypted_content: read_implicit_optional(
                alloc,
                Tag(tag::PRIMITIVE_0),
                Tag(tag::OCTET_STRING),
                &mut reader,
            )?,
        };
        reader.end(value)
    }

    fn tag(&self) -> Tag {
        Tag(tag::SEQUENCE)
    }

    fn contents(&self, alloc: Global) -> Result<OctetString, DerError> {
        let mut out = OctetString::empty(alloc);
        self.content_type.encode_into(alloc, &mut out)?;
        self.content_enc_alg.encode_into(alloc, &mut out)?;
        append_implicit_optional(
            alloc,
            Tag(tag::PRIMITIVE_0),
            Tag(tag::OCTET_STRING),
            &self.encrypted_content,
            &mut out,
        )?;
        Ok(out)
    }

    ghost lawful = { encrypted_content_info_type.lawful };
}

impl Duplicate for EncryptedContentInfo {
    fn duplicate(&self, alloc: Global) -> Result<EncryptedContentInfo, NoMemory> {
        Ok(EncryptedContentInfo {
            content_type: self.content_type.duplicate(alloc)?,
            content_enc_alg: self.content_enc_alg.duplicate(alloc)?,
            encrypted_content: self.encrypted_content.duplicate(alloc)?,
        })
    }
}
