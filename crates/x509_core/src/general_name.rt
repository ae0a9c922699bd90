// GeneralName.
ghost use Rattle.x509_core.specs.Types.{general_name_type};

use crate::other_name::OtherName;
use der_core::{Der, DerError, Ia5, OctetString, Tag, tag};
use foundation::{Duplicate, NoMemory};
use std::alloc::Global;

/// A GeneralName (RFC 5280, 4.2.1.6).
#[derive(Debug, PartialEq, Drop)]
pub enum GeneralName {
    /// A mail address.
    Rfc822Name(Ia5),
    /// A uniform resource identifier.
    Uri(Ia5),
    /// One of the other seven forms.
    Other(OtherName),
}

impl Der for GeneralName {
    ghost grammar = { general_name_type.grammar };

    fn accepts(tag: Tag) -> bool {
        tag.0 == tag::PRIMITIVE_1 || tag.0 == tag::PRIMITIVE_6 || OtherName::accepts(tag)
    }

    fn from_contents(alloc: Global, tag: Tag, contents: &[u8]) -> Result<GeneralName, DerError> {
        if tag.0 == tag::PRIMITIVE_1 {
            Ok(GeneralName::Rfc822Name(Ia5::from_contents(alloc, Tag(tag::IA5), contents)?))
        } else if tag.0 == tag::PRIMITIVE_6 {
            Ok(GeneralName::Uri(Ia5::from_contents(alloc, Tag(tag::IA5), contents)?))
        } else {
            Ok(GeneralName::Other(OtherName::from_contents(alloc, tag, contents)?))
        }
    }

    fn tag(&self) -> Tag {
        match self {
            GeneralName::Rfc822Name(_) => Tag(tag::PRIMITIVE_1),
            GeneralName::Uri(_) => Tag(tag::PRIMITIVE_6),
            GeneralName::Other(name) => name.tag(),
        }
    }

    fn contents(&self, alloc: Global) -> Result<OctetString, DerError> {
        match self {
            GeneralName::Rfc822Name(text) => text.contents(alloc),
            GeneralName::Uri(text) => text.contents(alloc),
            GeneralName::Other(name) => name.contents(alloc),
        }
    }

    ghost lawful = { general_name_type.lawful };
}

impl Duplicate for GeneralName {
    fn duplicate(&self, alloc: Global) -> Result<GeneralName, NoMemory> {
        match self {
            GeneralName::Rfc822Name(text) => Ok(GeneralName::Rfc822Name(text.duplicate(alloc)?)),
            GeneralName::Uri(text) => Ok(GeneralName::Uri(text.duplicate(alloc)?)),
            GeneralName::Other(name) => Ok(GeneralName::Other(name.duplicate(alloc)?)),
        }
    }
}
