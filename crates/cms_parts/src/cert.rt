// Certificates and what names them.
ghost use Rattle.cms_parts.specs.Cert.{certificate_choices_type, issuer_and_serial_number_type, other_certificate_format_type};

use crate::whole::whole_value;
use der_core::{Any, Der, DerError, ObjectIdentifier, OctetString, Reader, Tag, read_value, tag};
use foundation::{Duplicate, NoMemory};
use std::alloc::Global;
use x509_core::{Certificate, Name, SerialNumber};

/// A certificate, or one of another format (RFC 5652, 10.2.2).
#[derive(Debug, PartialEq, Drop)]
pub enum CertificateChoices {
    /// A certificate of X.509.
    Certificate(Certificate),
    /// `[3]`, explicit.
    Other(OtherCertificateFormat),
}

impl Der for CertificateChoices {
    ghost grammar = { certificate_choices_type.grammar };

    fn accepts(tag: Tag) -> bool {
        tag.0 == tag::SEQUENCE || tag.0 == tag::CONSTRUCTED_3
    }

    fn from_contents(
        alloc: Global,
        tag: Tag,
        contents: &[u8],
    ) -> Result<CertificateChoices, DerError> {
        if tag.0 == tag::SEQUENCE {
            Ok(CertificateChoices::Certificate(Certificate::from_contents(alloc, tag, contents)?))
        } else {
            Ok(CertificateChoices::Other(whole_value(alloc, contents)?))
        }
    }

    fn tag(&self) -> Tag {
        match self {
            CertificateChoices::Certificate(_) => Tag(tag::SEQUENCE),
            CertificateChoices::Other(_) => Tag(tag::CONSTRUCTED_3),
        }
    }

    fn contents(&self, alloc: Global) -> Result<OctetString, DerError> {
        match self {
            CertificateChoices::Certificate(value) => value.contents(alloc),
            CertificateChoices::Other(value) => value.to_der(alloc),
        }
    }

    ghost lawful = { certificate_choices_type.lawful };
}

impl Duplicate for CertificateChoices {
    fn duplicate(&self, alloc: Global) -> Result<CertificateChoices, NoMemory> {
        match self {
            CertificateChoices::Certificate(value) => Ok(CertificateChoices::Certificate(
                value.duplicate(alloc)?,
            )),
            CertificateChoices::Other(value) => Ok(CertificateChoices::Other(value.duplicate(
                alloc,
            )?)),
        }
    }
}

/// A certificate of another format (RFC 5652, 10.2.2).
#[derive(Debug, PartialEq, Drop)]
pub struct OtherCertificateFormat {
    pub other_cert_format: ObjectIdentifier,
    pub other_cert: Any,
}

impl Der for OtherCertificateFormat {
    ghost grammar = { other_certificate_format_type.grammar };

    fn accepts(tag: Tag) -> bool {
        tag.0 == tag::SEQUENCE
    }

    fn from_contents(
        alloc: Global,
        _tag: Tag,
        contents: &[u8],
    ) -> Result<OtherCertificateFormat, DerError> {
        let mut reader = Reader::new(contents);
        let value = OtherCertificateFormat {
            other_cert_format: read_value(alloc, &mut reader)?,
            other_cert: read_value(alloc, &mut reader)?,
        };
        reader.end(value)
    }

    fn tag(&self) -> Tag {
        Tag(tag::SEQUENCE)
    }

    fn contents(&self, alloc: Global) -> Result<OctetString, DerError> {
        let mut out = OctetString::empty(alloc);
        self.other_cert_format.encode_into(alloc, &mut out)?;
        self.other_cert.encode_into(alloc, &mut out)?;
        Ok(out)
    }

    ghost lawful = { other_certificate_format_type.lawful };
}

impl Duplicate for OtherCertificateFormat {
    fn duplicate(&self, alloc: Global) -> Result<OtherCertificateFormat, NoMemory> {
        Ok(OtherCertificateFormat {
            other_cert_format: self.other_cert_format.duplicate(alloc)?,
            other_cert: self.other_cert.duplicate(alloc)?,
        })
    }
}

/// The issuer and the serial number that name a certificate (RFC 5652, 10.2.4).
#[derive(Debug, PartialEq, Drop)]
pub struct IssuerAndSerialNumber {
    pub issuer: Name,
    pub serial_number: SerialNumber,
}

impl Der for IssuerAndSerialNumber {
    ghost grammar = { issuer_and_serial_number_type.grammar };

    fn accepts(tag: Tag) -> bool {
        tag.0 == tag::SEQUENCE
    }

    fn from_contents(
        alloc: Global,
        _tag: Tag,
        contents: &[u8],
    ) -> Result<IssuerAndSerialNumber, DerError> {
        let mut reader = Reader::new(contents);
        let value = IssuerAndSerialNumber {
            issuer: read_value(alloc, &mut reader)?,
            serial_number: read_value(alloc, &mut reader)?,
        };
        reader.end(value)
    }

    fn tag(&self) -> Tag {
        Tag(tag::SEQUENCE)
    }

    fn contents(&self, alloc: Global) -> Result<OctetString, DerError> {
        let mut out = OctetString::empty(alloc);
        self.issuer.encode_into(alloc, &mut out)?;
        self.serial_number.encode_into(alloc, &mut out)?;
        Ok(out)
    }

    ghost lawful = { issuer_and_serial_number_type.lawful };
}

impl Duplicate for IssuerAndSerialNumber {
    fn duplicate(&self, alloc: Global) -> Result<IssuerAndSerialNumber, NoMemory> {
        Ok(IssuerAndSerialNumber {
            issuer: self.issuer.duplicate(alloc)?,
            serial_number: self.serial_number.duplicate(alloc)?,
        })
    }
}
