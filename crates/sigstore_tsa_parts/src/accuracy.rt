// How exact a time is.
ghost use Rattle.sigstore_tsa_parts.specs.Types.{accuracy_type};

use der_core::{
    Der, DerError, OctetString, Reader, Tag, append_implicit_optional, append_optional,
    read_implicit_optional, read_optional, tag,
};
use der_numbers::{Number, U16Kind, U64Kind};
use foundation::{Duplicate, NoMemory};
use std::alloc::Global;

/// How far a time may be from the true one (RFC 3161, section 2.4.2).
#[derive(PartialEq, Drop)]
pub struct Accuracy {
    pub seconds: Option<Number<U64Kind>>,
    pub millis: Option<Number<U16Kind>>,
    pub micros: Option<Number<U16Kind>>,
}

impl Der for Accuracy {
    ghost grammar = { accuracy_type.grammar };

    fn accepts(tag: Tag) -> bool {
        tag.0 == tag::SEQUENCE
    }

    fn from_contents(alloc: Global, _tag: Tag, contents: &[u8]) -> Result<Accuracy, DerError> {
        let mut reader = Reader::new(contents);
        let value = Accuracy {
            seconds: read_optional(alloc, &mut reader)?,
            millis: read_implicit_optional(
                alloc,
                Tag(tag::PRIMITIVE_0),
                Tag(tag::INTEGER),
                &mut reader,
            )?,
            micros: read_implicit_optional(
                alloc,
                Tag(tag::PRIMITIVE_1),
                Tag(tag::INTEGER),
                &mut reader,
            )?,
        };
        reader.end(value)
    }

    fn tag(&self) -> Tag {
        Tag(tag::SEQUENCE)
    }

    fn contents(&self, alloc: Global) -> Result<OctetString, DerError> {
        let mut out = OctetString::empty(alloc);
        append_optional(alloc, &self.seconds, &mut out)?;
        append_implicit_optional(
            alloc,
            Tag(tag::PRIMITIVE_0),
            Tag(tag::INTEGER),
            &self.millis,
            &mut out,
        )?;
        append_implicit_optional(
            alloc,
            Tag(tag::PRIMITIVE_1),
            Tag(tag::INTEGER),
            &self.micros,
            &mut out,
        )?;
        Ok(out)
    }

    ghost lawful = { accuracy_type.lawful };
}

impl Duplicate for Accuracy {
    fn duplicate(&self, alloc: Global) -> Result<Accuracy, NoMemory> {
        Ok(Accuracy {
            seconds: self.seconds.duplicate(alloc)?,
            millis: self.millis.duplicate(alloc)?,
            micros: self.micros.duplicate(alloc)?,
        })
    }
}
