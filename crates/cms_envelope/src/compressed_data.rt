// Compressed data.
ghost use Rattle.cms_envelope.specs.CompressedData.{compressed_data_type};

use cms_parts::content_info::CmsVersion;
use cms_parts::signed_data::EncapsulatedContentInfo;
use der_core::{Der, DerError, OctetString, Reader, Tag, read_value, tag};
use foundation::{Duplicate, NoMemory};
use std::alloc::Global;
use x509_core::AlgorithmIdentifierOwned;

/// Compressed content, passed on unread (RFC 3274, 1.1).
#[derive(PartialEq, Drop)]
pub struct CompressedData {
    pub version: CmsVersion,
    pub compression_alg: AlgorithmIdentifierOwned,
    pub encap_content_info: EncapsulatedContentInfo,
}

impl Der for CompressedData {
    ghost grammar = { compressed_data_type.grammar };

    fn accepts(tag: Tag) -> bool {
        tag.0 == tag::SEQUENCE
    }

    fn from_contents(
        alloc: Global,
        _tag: Tag,
        contents: &[u8],
    ) -> Result<CompressedData, DerError> {
        let mut reader = Reader::new(contents);
        let value = CompressedData {
            version: read_value(alloc, &mut reader)?,
            compression_alg: read_value(alloc, &mut reader)?,
            encap_content_info: read_value(alloc, &mut reader)?,
        };
        reader.end(value)
    }

    fn tag(&self) -> Tag {
        Tag(tag::SEQUENCE)
    }

    fn contents(&self, alloc: Global) -> Result<OctetString, DerError> {
        let mut out = OctetString::empty(alloc);
        self.version.encode_into(alloc, &mut out)?;
        self.compression_alg.encode_into(alloc, &mut out)?;
        self.encap_content_info.encode_into(alloc, &mut out)?;
        Ok(out)
    }

    ghost lawful = { compressed_data_type.lawful };
}

impl Duplicate for CompressedData {
    fn duplicate(&self, alloc: Global) -> Result<CompressedData, NoMemory> {
        Ok(CompressedData {
            version: self.version.duplicate(alloc)?,
            compression_alg: self.compression_alg.duplicate(alloc)?,
            encap_content_info: self.encap_content_info.duplicate(alloc)?,
        })
    }
}
