// Contents, and the versions of their syntax.
ghost use Rattle.std.specs.Prelude.{◌≡◌};
ghost use Rattle.cms_parts.specs.ContentInfo.{content_info_type};
ghost use Rattle.cms_parts.specs.Versions.{version_number, version_type};

use der_core::{
    Any, Der, DerError, ObjectIdentifier, OctetString, Reader, Tag, append_explicit, read_explicit,
    read_value, tag,
};
use foundation::{Duplicate, NoMemory};
use std::alloc::Global;

/// The version of a syntax (RFC 5652, 10.2.5).
#[derive(Clone, Copy, Debug, PartialEq, Eq, PartialOrd, Ord, Drop)]
pub enum CmsVersion {
    V0,
    V1,
    V2,
    V3,
    V4,
    V5,
}

impl CmsVersion {
    /// The number of this version.
    pub fn number(&self) -> u8
        ensures { result ≡ version_number self.now }
    {
        match self {
            CmsVersion::V0 => 0,
            CmsVersion::V1 => 1,
            CmsVersion::V2 => 2,
            CmsVersion::V3 => 3,
            CmsVersion::V4 => 4,
            CmsVersion::V5 => 5,
        }
    }
}

impl Der for CmsVersion {
    ghost grammar = { version_type.grammar };

    fn accepts(tag: Tag) -> bool {
        tag.0 == tag::INTEGER
    }

    fn from_contents(_alloc: Global, _tag: Tag, contents: &[u8]) -> Result<CmsVersion, DerError> {
        match contents {
            [0] => Ok(CmsVersion::V0),
            [1] => Ok(CmsVersion::V1),
            [2] => Ok(CmsVersion::V2),
            [3] => Ok(CmsVersion::V3),
            [4] => Ok(CmsVersion::V4),
            [5] => Ok(CmsVersion::V5),
            _ => Err(DerError::Value),
        }
    }

    fn tag(&self) -> Tag {
        Tag(tag::INTEGER)
    }

    fn contents(&self, alloc: Global) -> Result<OctetString, DerError> {
        OctetString::new(alloc, &[self.number()])
    }

    ghost lawful = { version_type.lawful };
}

impl Duplicate for CmsVersion {
    fn duplicate(&self, _alloc: Global) -> Result<CmsVersion, NoMemory> {
        Ok(*self)
    }
}

/// A content under its type (RFC 5652, 3).
#[derive(Debug, PartialEq, Drop)]
pub struct ContentInfo {
    pub content_type: ObjectIdentifier,
    pub content: Any,
}

impl Der for ContentInfo {
    ghost grammar = { content_info_type.grammar };

    fn accepts(tag: Tag) -> bool {
        tag.0 == tag::SEQUENCE
    }

    fn from_contents(alloc: Global, _tag: Tag, contents: &[u8]) -> Result<ContentInfo, DerError> {
        let mut reader = Reader::new(contents);
        let value = ContentInfo {
            content_type: read_value(alloc, &mut reader)?,
            content: read_explicit(alloc, Tag(tag::CONSTRUCTED_0), &mut reader)?,
        };
        reader.end(value)
    }

    fn tag(&self) -> Tag {
        Tag(tag::SEQUENCE)
    }

    fn contents(&self, alloc: Global) -> Result<OctetString, DerError> {
        let mut out = OctetString::empty(alloc);
        self.content_type.encode_into(alloc, &mut out)?;
        append_explicit(alloc, Tag(tag::CONSTRUCTED_0), &self.content, &mut out)?;
        Ok(out)
    }

    ghost lawful = { content_info_type.lawful };
}

impl Duplicate for ContentInfo {
    fn duplicate(&self, alloc: Global) -> Result<ContentInfo, NoMemory> {
        Ok(ContentInfo {
            content_type: self.content_type.duplicate(alloc)?,
            content: self.content.duplicate(alloc)?,
        })
    }
}
