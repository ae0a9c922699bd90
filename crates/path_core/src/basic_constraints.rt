// Basic constraints.
ghost use Rattle.path_core.specs.CaConstraint.{basic_constraints_type};

use der_core::{
    Der, DerError, OctetString, Reader, Tag, Uint, append_default, append_optional, read_default,
    read_optional, tag,
};
use std::alloc::Global;

/// BasicConstraints (RFC 5280, 4.2.1.9).
#[derive(Drop)]
pub(crate) struct BasicConstraints {
    /// Whether it may issue certificates.
    pub(crate) ca: bool,
    /// How many intermediates may stand below it.
    pub(crate) path_length: Option<Uint>,
}

impl Der for BasicConstraints {
    ghost grammar = { basic_constraints_type.grammar };

    fn accepts(tag: Tag) -> bool {
        tag.0 == tag::SEQUENCE
    }

    fn from_contents(
        alloc: Global,
        _tag: Tag,
        contents: &[u8],
    ) -> Result<BasicConstraints, DerError> {
        let mut reader = Reader::new(contents);
        let value = BasicConstraints {
            ca: read_default(alloc, false, &mut reader)?,
            path_length: read_optional(alloc, &mut reader)?,
        };
        reader.end(value)
    }

    fn tag(&self) -> Tag {
        Tag(tag::SEQUENCE)
    }

    fn contents(&self, alloc: Global) -> Result<OctetString, DerError> {
        let mut out = OctetString::empty(alloc);
        append_default(alloc, &false, &self.ca, &mut out)?;
        append_optional(alloc, &self.path_length, &mut out)?;
        Ok(out)
    }

    ghost lawful = { basic_constraints_type.lawful };
}
