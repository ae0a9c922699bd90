// BOOLEAN.
ghost use Rattle.der_grammar.specs.Booleans.{boolean_type};

use crate::der::Der;
use crate::error::DerError;
use crate::octet_string::OctetString;
use crate::reader::Tag;
use crate::tag;
use std::alloc::Global;

/// A BOOLEAN (X.690, 8.2 and 11.1).
impl Der for bool {
    ghost grammar = { boolean_type.grammar };

    fn accepts(tag: Tag) -> bool {
        tag.0 == tag::BOOLEAN
    }

    fn from_contents(_alloc: Global, _tag: Tag, contents: &[u8]) -> Result<bool, DerError> {
        match contents {
            [0] => Ok(false),
            [255] => Ok(true),
            _ => Err(DerError::Value),
        }
    }

    fn tag(&self) -> Tag {
        Tag(tag::BOOLEAN)
    }

    fn contents(&self, alloc: Global) -> Result<OctetString, DerError> {
        if *self {
            OctetString::new(alloc, &[255])
        } else {
            OctetString::new(alloc, &[0])
        }
    }

    ghost lawful = { boolean_type.lawful };
}
