// AlgorithmIdentifier.
ghost use Rattle.x509_core.specs.Types.{algorithm_type};

use der_core::{
    Any, Der, DerError, ObjectIdentifier, OctetString, Reader, Tag, append_optional, read_optional,
    read_value, tag,
};
use foundation::{Duplicate, NoMemory};
use std::alloc::Global;

/// An AlgorithmIdentifier (RFC 5280, 4.1.1.2).
#[derive(Debug, PartialEq, Drop)]
pub struct AlgorithmIdentifierOwned {
    pub oid: ObjectIdentifier,
    pub parameters: Option<Any>,
}

impl Der for AlgorithmIdentifierOwned {
    ghost grammar = { algorithm_type.grammar };

    fn accepts(tag: Tag) -> bool {
        tag.0 == tag::SEQUENCE
    }

    fn from_contents(
        alloc: Global,
        _tag: Tag,
        contents: &[u8],
    ) -> Result<AlgorithmIdentifierOwned, DerError> {
        let mut reader = Reader::new(contents);
        let value = AlgorithmIdentifierOwned {
            oid: read_value(alloc, &mut reader)?,
            parameters: read_optional(alloc, &mut reader)?,
        };
        reader.end(value)
    }

    fn tag(&self) -> Tag {
        Tag(tag::SEQUENCE)
    }

    fn contents(&self, alloc: Global) -> Result<OctetString, DerError> {
        let mut out = OctetString::empty(alloc);
        self.oid.encode_into(alloc, &mut out)?;
        append_optional(alloc, &self.parameters, &mut out)?;
        Ok(out)
    }

    ghost lawful = { algorithm_type.lawful };
}

impl Duplicate for AlgorithmIdentifierOwned {
    fn duplicate(&self, alloc: Global) -> Result<AlgorithmIdentifierOwned, NoMemory> {
        Ok(AlgorithmIdentifierOwned {
            oid: self.oid.duplicate(alloc)?,
            parameters: self.parameters.duplicate(alloc)?,
        })
    }
}
