// Types that are kept as their contents.
ghost use Rattle.std.specs.Prelude.{◌≡◌, refl};
ghost use Rattle.x509_core.specs.Kinds.{is_any, is_serial_number, is_certificate, is_certificate_list, three_values};

use der_core::{DerError, IntKind, Primitive, PrimitiveKind, Reader, tag};
use foundation::NoMemory;
use std::alloc::Global;

/// The kind of names.
#[derive(Drop)]
pub struct NameKind;

/// A Name (RFC 5280, 4.1.2.4) as the contents of its SEQUENCE, whatever they are.
pub type Name = Primitive<NameKind>;

impl PrimitiveKind for NameKind {
    ghost number = { 48 };

    ghost test = { is_any };

    fn tag_byte() -> u8 {
        tag::SEQUENCE
    }

    fn allows(_contents: &[u8]) -> bool {
        true
    }

    ghost is_number = { refl };
}

/// The kind of serial numbers.
#[derive(Drop)]
pub struct SerialNumberKind;

/// An INTEGER of at most 21 octets (RFC 5280, 4.1.2.2, and a sign octet) as its contents.
pub type SerialNumber = Primitive<SerialNumberKind>;

impl PrimitiveKind for SerialNumberKind {
    ghost number = { 2 };

    ghost test = { is_serial_number };

    fn tag_byte() -> u8 {
        tag::INTEGER
    }

    fn allows(contents: &[u8]) -> bool {
        IntKind::allows(contents) && contents.len() <= 21
    }

    ghost is_number = { refl };
}

/// The kind of key identifiers.
#[derive(Drop)]
pub struct SubjectKeyIdentifierKind;

/// A SubjectKeyIdentifier (RFC 5280, 4.2.1.2): any octets.
pub type SubjectKeyIdentifier = Primitive<SubjectKeyIdentifierKind>;

impl PrimitiveKind for SubjectKeyIdentifierKind {
    ghost number = { 4 };

    ghost test = { is_any };

    fn tag_byte() -> u8 {
        tag::OCTET_STRING
    }

    fn allows(_contents: &[u8]) -> bool {
        true
    }

    ghost is_number = { refl };
}

/// The kind of certificates.
#[derive(Drop)]
pub struct CertificateKind;

/// A certificate as the contents of its SEQUENCE; `CertView::parse` reads what `to_der` gives.
pub type Certificate = Primitive<CertificateKind>;

impl PrimitiveKind for CertificateKind {
    ghost number = { 48 };

    ghost test = { is_certificate };

    fn tag_byte() -> u8 {
        tag::SEQUENCE
    }

    fn allows(contents: &[u8]) -> bool {
        x509_views::is_certificate(contents)
    }

    fn allows_in(alloc: Global, contents: &[u8]) -> Result<bool, NoMemory> {
        x509_views::is_certificate_in(alloc, contents)
    }

    ghost is_number = { refl };
}

/// The kind of certificate lists.
#[derive(Drop)]
pub struct CertificateListKind;

/// A CertificateList (RFC 5280, 5.1) as the contents of its SEQUENCE: exactly three values.
pub type CertificateList = Primitive<CertificateListKind>;

impl PrimitiveKind for CertificateListKind {
    ghost number = { 48 };

    ghost test = { is_certificate_list };

    fn tag_byte() -> u8 {
        tag::SEQUENCE
    }

    fn allows(contents: &[u8]) -> bool {
        three_values(contents).is_ok()
    }

    ghost is_number = { refl };
}

#[tactic(auto, unfolding(crate::specs::Kinds::three_values))]
fn three_values(contents: &[u8]) -> Result<(), DerError>
    ensures { result ≡ three_values contents.now }
{
    let mut reader = Reader::new(contents);
    reader.read_tlv()?;
    reader.read_tlv()?;
    reader.read_tlv()?;
    reader.finish()
}
