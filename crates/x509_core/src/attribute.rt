// Attributes.
ghost use Rattle.x509_core.specs.Types.{attribute_type};

use der_core::{
    Any, Der, DerError, ObjectIdentifier, OctetString, Reader, SetOfVec, Tag, read_value, tag,
};
use foundation::{Duplicate, NoMemory};
use std::alloc::Global;

/// An attribute: its type, and a set of values (RFC 5652, 5.3).
#[derive(Debug, PartialEq, Drop)]
pub struct Attribute {
    pub oid: ObjectIdentifier,
    pub values: SetOfVec<Any>,
}

/// A set of attributes.
pub type Attributes = SetOfVec<Attribute>;

impl Der for Attribute {
    ghost grammar = { attribute_type.grammar };

    fn accepts(tag: Tag) -> bool {
        tag.0 == tag::SEQUENCE
    }

    fn from_contents(alloc: Global, _tag: Tag, contents: &[u8]) -> Result<Attribute, DerError> {
        let mut reader = Reader::new(contents);
        let value = Attribute {
            oid: read_value(alloc, &mut reader)?,
            values: read_value(alloc, &mut reader)?,
        };
        reader.end(value)
    }

    fn tag(&self) -> Tag {
        Tag(tag::SEQUENCE)
    }

    fn contents(&self, alloc: Global) -> Result<OctetString, DerError> {
        let mut out = OctetString::empty(alloc);
        self.oid.encode_into(alloc, &mut out)?;
        self.values.encode_into(alloc, &mut out)?;
        Ok(out)
    }

    ghost lawful = { attribute_type.lawful };
}

impl Duplicate for Attribute {
    fn duplicate(&self, alloc: Global) -> Result<Attribute, NoMemory> {
        Ok(Attribute {
            oid: self.oid.duplicate(alloc)?,
            values: self.values.duplicate(alloc)?,
        })
    }
}
