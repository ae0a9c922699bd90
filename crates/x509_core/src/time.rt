// Times of certificates.
ghost use Rattle.x509_core.specs.Types.{time_type};

use der_core::{Der, DerError, GeneralizedTime, OctetString, Tag, UtcTime, tag};
use foundation::{Duplicate, NoMemory};
use std::alloc::Global;

/// A Time (RFC 5280, 4.1.2.5).
#[derive(Debug, PartialEq, Drop)]
pub enum Time {
    Utc(UtcTime),
    General(GeneralizedTime),
}

impl Der for Time {
    ghost grammar = { time_type.grammar };

    fn accepts(tag: Tag) -> bool {
        tag.0 == tag::UTC_TIME || tag.0 == tag::GENERALIZED_TIME
    }

    fn from_contents(alloc: Global, tag: Tag, contents: &[u8]) -> Result<Time, DerError> {
        if tag.0 == tag::UTC_TIME {
            Ok(Time::Utc(UtcTime::from_contents(alloc, tag, contents)?))
        } else {
            Ok(Time::General(GeneralizedTime::from_contents(alloc, tag, contents)?))
        }
    }

    fn tag(&self) -> Tag {
        match self {
            Time::Utc(_) => Tag(tag::UTC_TIME),
            Time::General(_) => Tag(tag::GENERALIZED_TIME),
        }
    }

    fn contents(&self, alloc: Global) -> Result<OctetString, DerError> {
        match self {
            Time::Utc(time) => time.contents(alloc),
            Time::General(time) => time.contents(alloc),
        }
    }

    ghost lawful = { time_type.lawful };
}

impl Duplicate for Time {
    fn duplicate(&self, alloc: Global) -> Result<Time, NoMemory> {
        match self {
            Time::Utc(time) => Ok(Time::Utc(time.duplicate(alloc)?)),
            Time::General(time) => Ok(Time::General(time.duplicate(alloc)?)),
        }
    }
}
