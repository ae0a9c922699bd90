// Digested data.
ghost use Rattle.cms_envelope.specs.DigestedData.{digested_data_type};

use cms_parts::content_info::CmsVersion;
use cms_parts::signed_data::EncapsulatedContentInfo;
use der_core::{Der, DerError, OctetString, Reader, Tag, read_value, tag};
use foundation::{Duplicate, NoMemory};
use std::alloc::Global;
use x509_core::AlgorithmIdentifierOwned;

/// The octets of a digest (RFC 5652, 7).
pub type Digest = OctetString;

/// Content with its digest (RFC 5652, 7).
#[derive(PartialEq, Drop)]
pub struct DigestedData {
    pub version: CmsVersion,
    pub digest_alg: AlgorithmIdentifierOwned,
    pub encap_content_info: EncapsulatedContentInfo,
    pub digest: Digest,
}

impl Der for DigestedData {
    ghost grammar = { digested_data_type.grammar };

    fn accepts(tag: Tag) -> bool {
        tag.0 == tag::SEQUENCE
    }

    fn from_contents(alloc: Global, _tag: Tag, contents: &[u8]) -> Result<DigestedData, DerError> {
        let mut reader = Reader::new(contents);
        let value = DigestedData {
            version: read_value(alloc, &mut reader)?,
            digest_alg: read_value(alloc, &mut reader)?,
            encap_content_info: read_value(alloc, &mut reader)?,
            digest: read_value(alloc, &mut reader)?,
        };
        reader.end(value)
    }

    fn tag(&self) -> Tag {
        Tag(tag::SEQUENCE)
    }

    fn contents(&self, alloc: Global) -> Result<OctetString, DerError> {
        let mut out = OctetString::empty(alloc);
        self.version.encode_into(alloc, &mut out)?;
        self.digest_alg.encode_into(alloc, &mut out)?;
        self.encap_content_info.encode_into(alloc, &mut out)?;
        self.digest.encode_into(alloc, &mut out)?;
        Ok(out)
    }

    ghost lawful = { digested_data_type.lawful };
}

impl Duplicate for DigestedData {
    fn duplicate(&self, alloc: Global) -> Result<DigestedData, NoMemory> {
        Ok(DigestedData {
            version: self.version.duplicate(alloc)?,
            digest_alg: self.digest_alg.duplicate(alloc)?,
            encap_content_info: self.encap_content_info.duplicate(alloc)?,
            digest: self.digest.duplicate(alloc)?,
        })
    }
}
