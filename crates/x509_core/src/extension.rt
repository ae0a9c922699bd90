// Extension.
ghost use Rattle.x509_core.specs.Types.{extension_type};

use der_core::{
    Der, DerError, ObjectIdentifier, OctetString, Reader, Tag, append_default, read_default,
    read_value, tag,
};
use foundation::{Duplicate, NoMemory};
use std::alloc::Global;

/// An Extension (RFC 5280, 4.1).
#[derive(Debug, PartialEq, Drop)]
pub struct Extension {
    pub oid: ObjectIdentifier,
    pub critical: bool,
    pub value: OctetString,
}

impl Der for Extension {
    ghost grammar = { extension_type.grammar };

    fn accepts(tag: Tag) -> bool {
        tag.0 == tag::SEQUENCE
    }

    fn from_contents(alloc: Global, _tag: Tag, contents: &[u8]) -> Result<Extension, DerError> {
        let mut reader = Reader::new(contents);
        let value = Extension {
            oid: read_value(alloc, &mut reader)?,
            critical: read_default(alloc, false, &mut reader)?,
            value: read_value(alloc, &mut reader)?,
        };
        reader.end(value)
    }

    fn tag(&self) -> Tag {
        Tag(tag::SEQUENCE)
    }

    fn contents(&self, alloc: Global) -> Result<OctetString, DerError> {
        let mut out = OctetString::empty(alloc);
        self.oid.encode_into(alloc, &mut out)?;
        append_default(alloc, &false, &self.critical, &mut out)?;
        self.value.encode_into(alloc, &mut out)?;
        Ok(out)
    }

    ghost lawful = { extension_type.lawful };
}

impl Duplicate for Extension {
    fn duplicate(&self, alloc: Global) -> Result<Extension, NoMemory> {
        Ok(Extension {
            oid: self.oid.duplicate(alloc)?,
            critical: self.critical.duplicate(alloc)?,
            value: self.value.duplicate(alloc)?,
        })
    }
}
