// The version of time-stamped data and of evidence records.
ghost use Rattle.std.specs.Prelude.{◌≡◌};
ghost use Rattle.cms_envelope.specs.TsdVersion.{tsd_number, tsd_version_type};

use der_core::{Der, DerError, OctetString, Tag, tag};
use foundation::{Duplicate, NoMemory};
use std::alloc::Global;

/// The version of time-stamped data (RFC 5544, 2) and of evidence records (RFC 4998, 3.1).
#[derive(Clone, Copy, PartialEq, Eq, PartialOrd, Ord, Drop)]
pub enum TsdVersion {
    V1,
}

impl TsdVersion {
    /// The number of this version.
    pub fn number(&self) -> u8
        ensures { result ≡ tsd_number self.now }
    {
        match self {
            TsdVersion::V1 => 1,
        }
    }
}

impl Der for TsdVersion {
    ghost grammar = { tsd_version_type.grammar };

    fn accepts(tag: Tag) -> bool {
        tag.0 == tag::INTEGER
    }

    fn from_contents(_alloc: Global, _tag: Tag, contents: &[u8]) -> Result<TsdVersion, DerError> {
        match contents {
            [1] => Ok(TsdVersion::V1),
            _ => Err(DerError::Value),
        }
    }

    fn tag(&self) -> Tag {
        Tag(tag::INTEGER)
    }

    fn contents(&self, alloc: Global) -> Result<OctetString, DerError> {
        OctetString::new(alloc, &[self.number()])
    }

    ghost lawful = { tsd_version_type.lawful };
}

impl Duplicate for TsdVersion {
    fn duplicate(&self, _alloc: Global) -> Result<TsdVersion, NoMemory> {
        Ok(*self)
    }
}
