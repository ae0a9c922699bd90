// Revocation information.
ghost use Rattle.cms_parts.specs.Revocation.{other_revocation_info_format_type, revocation_info_choice_type, revocation_info_choices_type};

use der_core::{Any, Der, DerError, OctetString, Reader, SetOfVec, Tag, read_value, tag};
use foundation::{Duplicate, NoMemory};
use std::alloc::Global;
use x509_core::{AlgorithmIdentifierOwned, CertificateList};

/// A set of certificate lists and others (RFC 5652, 10.2.1).
#[derive(Debug, PartialEq, Drop)]
pub struct RevocationInfoChoices(pub SetOfVec<RevocationInfoChoice>);

impl Der for RevocationInfoChoices {
    ghost grammar = { revocation_info_choices_type.grammar };

    fn accepts(tag: Tag) -> bool {
        tag.0 == tag::SET
    }

    fn from_contents(
        alloc: Global,
        tag: Tag,
        contents: &[u8],
    ) -> Result<RevocationInfoChoices, DerError> {
        Ok(RevocationInfoChoices(SetOfVec::from_contents(alloc, tag, contents)?))
    }

    fn tag(&self) -> Tag {
        Tag(tag::SET)
    }

    fn contents(&self, alloc: Global) -> Result<OctetString, DerError> {
        self.0.contents(alloc)
    }

    ghost lawful = { revocation_info_choices_type.lawful };
}

impl Duplicate for RevocationInfoChoices {
    fn duplicate(&self, alloc: Global) -> Result<RevocationInfoChoices, NoMemory> {
        Ok(RevocationInfoChoices(self.0.duplicate(alloc)?))
    }
}

/// A certificate list, or revocation information of another format (RFC 5652, 10.2.1).
#[derive(Debug, PartialEq, Drop)]
pub enum RevocationInfoChoice {
    /// A certificate list of X.509.
    Crl(CertificateList),
    /// `[1]`, implicit.
    Other(OtherRevocationInfoFormat),
}

impl Der for RevocationInfoChoice {
    ghost grammar = { revocation_info_choice_type.grammar };

    fn accepts(tag: Tag) -> bool {
        tag.0 == tag::SEQUENCE || tag.0 == tag::CONSTRUCTED_1
    }

    fn from_contents(
        alloc: Global,
        tag: Tag,
        contents: &[u8],
    ) -> Result<RevocationInfoChoice, DerError> {
        if tag.0 == tag::SEQUENCE {
            Ok(RevocationInfoChoice::Crl(CertificateList::from_contents(alloc, tag, contents)?))
        } else {
            Ok(RevocationInfoChoice::Other(OtherRevocationInfoFormat::from_contents(
                alloc,
                Tag(tag::SEQUENCE),
                contents,
            )?))
        }
    }

    fn tag(&self) -> Tag {
        match self {
            RevocationInfoChoice::Crl(_) => Tag(tag::SEQUENCE),
            RevocationInfoChoice::Other(_) => Tag(tag::CONSTRUCTED_1),
        }
    }

    fn contents(&self, alloc: Global) -> Result<OctetString, DerError> {
        match self {
            RevocationInfoChoice::Crl(value) => value.contents(alloc),
            RevocationInfoChoice::Other(value) => value.contents(alloc),
        }
    }

    ghost lawful = { revocation_info_choice_type.lawful };
}

impl Duplicate for RevocationInfoChoice {
    fn duplicate(&self, alloc: Global) -> Result<RevocationInfoChoice, NoMemory> {
        match self {
            RevocationInfoChoice::Crl(value) => Ok(RevocationInfoChoice::Crl(value.duplicate(
                alloc,
            )?)),
            RevocationInfoChoice::Other(value) => Ok(RevocationInfoChoice::Other(value.duplicate(
                alloc,
            )?)),
        }
    }
}

/// Revocation information of another format (RFC 5652, 10.2.1).
#[derive(Debug, PartialEq, Drop)]
pub struct OtherRevocationInfoFormat {
    pub other_format: AlgorithmIdentifierOwned,
    pub other: Any,
}

impl Der for OtherRevocationInfoFormat {
    ghost grammar = { other_revocation_info_format_type.grammar };

    fn accepts(tag: Tag) -> bool {
        tag.0 == tag::SEQUENCE
    }

    fn from_contents(
        alloc: Global,
        _tag: Tag,
        contents: &[u8],
    ) -> Result<OtherRevocationInfoFormat, DerError> {
        let mut reader = Reader::new(contents);
        let value = OtherRevocationInfoFormat {
            other_format: read_value(alloc, &mut reader)?,
            other: read_value(alloc, &mut reader)?,
        };
        reader.end(value)
    }

    fn tag(&self) -> Tag {
        Tag(tag::SEQUENCE)
    }

    fn contents(&self, alloc: Global) -> Result<OctetString, DerError> {
        let mut out = OctetString::empty(alloc);
        self.other_format.encode_into(alloc, &mut out)?;
        self.other.encode_into(alloc, &mut out)?;
        Ok(out)
    }

    ghost lawful = { other_revocation_info_format_type.lawful };
}

impl Duplicate for OtherRevocationInfoFormat {
    fn duplicate(&self, alloc: Global) -> Result<OtherRevocationInfoFormat, NoMemory> {
        Ok(OtherRevocationInfoFormat {
            other_format: self.other_format.duplicate(alloc)?,
            other: self.other.duplicate(alloc)?,
        })
    }
}
