// Encrypted data.
ghost use Rattle.cms_envelope.specs.EncryptedData.{encrypted_data_type};

use crate::encrypted_content::EncryptedContentInfo;
use cms_parts::content_info::CmsVersion;
use der_core::{
    Der, DerError, OctetString, Reader, Tag, append_implicit_optional, read_implicit_optional,
    read_value, tag,
};
use foundation::{Duplicate, NoMemory};
use std::alloc::Global;
use x509_core::Attributes;

/// Encrypted content without recipients (RFC 5652, 8).
#[derive(PartialEq, Drop)]
pub struct EncryptedData {
    pub version: CmsVersion,
    pub enc_content_info: EncryptedContentInfo,
    pub unprotected_attrs: Option<Attributes>,
}

impl Der for EncryptedData {
    ghost grammar = { encrypted_data_type.grammar };

    fn accepts(tag: Tag) -> bool {
        tag.0 == tag::SEQUENCE
    }

    fn from_contents(alloc: Global, _tag: Tag, contents: &[u8]) -> Result<EncryptedData, DerError> {
        let mut reader = Reader::new(contents);
        let value = EncryptedData {
            version: read_value(alloc, &mut reader)?,
            enc_content_info: read_value(alloc, &mut reader)?,
            unprotected_attrs: read_implicit_optional(
                alloc,
                Tag(tag::CONSTRUCTED_1),
                Tag(tag::SET),
                &mut reader,
            )?,
        };
        reader.end(value)
    }

    fn tag(&self) -> Tag {
        Tag(tag::SEQUENCE)
    }

    fn contents(&self, alloc: Global) -> Result<OctetString, DerError> {
        let mut out = OctetString::empty(alloc);
        self.version.encode_into(alloc, &mut out)?;
        self.enc_content_info.encode_into(alloc, &mut out)?;
        append_implicit_optional(
            alloc,
            Tag(tag::CONSTRUCTED_1),
            Tag(tag::SET),
            &self.unprotected_attrs,
            &mut out,
        )?;
        Ok(out)
    }

    ghost lawful = { encrypted_data_type.lawful };
}

impl Duplicate for EncryptedData {
    fn duplicate(&self, alloc: Global) -> Result<EncryptedData, NoMemory> {
        Ok(EncryptedData {
            version: self.version.duplicate(alloc)?,
            enc_content_info: self.enc_content_info.duplicate(alloc)?,
            unprotected_attrs: self.unprotected_attrs.duplicate(alloc)?,
        })
    }
}
