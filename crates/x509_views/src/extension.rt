// Extensions of certificates.
ghost use Rattle.std.specs.Prelude.{◌≡◌, ◌<◌, IfOk, IfErr, Ok, Err, length, option_map};
ghost use Rattle.x509_views.specs.Extensions.{critical_at, extension_of, extension_at, found_of, distinct_of};
ghost use Rattle.x509_views.specs.Views.{extension_parts, found_parts};

use der_core::{DerError, tag};
use spki_core::{X509Error, read};

/// An extension, its value a slice of the bytes that were read.
#[derive(Clone, Copy)]
pub struct ExtensionView<'a> {
    /// Whether who doesn't know the extension has to refuse the certificate.
    pub critical: bool,
    /// The contents of the OCTET STRING.
    pub value: &'a [u8],
}

/// An extension with its identifier.
#[derive(Clone, Copy)]
pub struct NamedExtension<'a> {
    /// The contents of the identifier.
    pub oid: &'a [u8],
    /// Whether who doesn't know the extension has to refuse the certificate.
    pub critical: bool,
    /// The contents of the OCTET STRING.
    pub value: &'a [u8],
}

/// Where an extension stands in a list.
#[derive(Clone, Copy)]
pub struct Found<'a> {
    /// The list from the extension on.
    pub from: &'a [u8],
    pub extension: NamedExtension<'a>,
    /// The list behind it.
    pub behind: &'a [u8],
}

#[tactic(auto, unfolding(crate::specs::Extensions::critical_at))]
fn critical(bytes: &[u8]) -> Result<(bool, &[u8]), X509Error>
    ensures ok { IfOk result (λ x. critical_at bytes.now ≡ Ok (x.0, x.1.now)) }
    ensures err { IfErr result (λ e. critical_at bytes.now ≡ Err e) }
{
    if !read::is_next(tag::BOOLEAN, bytes) {
        return Ok((false, bytes));
    }
    let (octets, rest) = read::contents(tag::BOOLEAN, bytes)?;
    if octets != [255].as_slice() {
        return Err(X509Error::Der(DerError::Value));
    }
    Ok((true, rest))
}

#[tactic(auto, unfolding(crate::specs::Extensions::extension_of))]
fn extension_in(contents: &[u8]) -> Result<NamedExtension, X509Error>
    ensures ok { IfOk result (λ x. extension_of contents.now ≡ Ok (extension_parts x)) }
    ensures err { IfErr result (λ e. extension_of contents.now ≡ Err e) }
{
    let (oid, rest) = read::oid(contents)?;
    let (critical, rest) = critical(rest)?;
    let (value, rest) = read::contents(tag::OCTET_STRING, rest)?;
    read::end(rest)?;
    Ok(NamedExtension {
        oid,
        critical,
        value,
    })
}

/// An Extension at the front (RFC 5280, 4.1).
#[tactic(auto, unfolding(crate::specs::Extensions::extension_at))]
pub fn extension(bytes: &[u8]) -> Result<(NamedExtension, &[u8]), X509Error>
    ensures ok { IfOk result (λ x. extension_at bytes.now ≡ Ok (extension_parts x.0, x.1.now)) }
    ensures err { IfErr result (λ e. extension_at bytes.now ≡ Err e) }
    ensures shorter { IfOk result (λ x. length x.1.now < length bytes.now) }
{
    let (contents, rest) = read::contents(tag::SEQUENCE, bytes)?;
    let extension = extension_in(contents)?;
    Ok((extension, rest))
}

/// The first extension with this identifier; None where none comes before the end, or before what is
/// no extension.
pub fn find<'a>(list: &'a [u8], oid: &[u8]) -> Option<Found<'a>>
    ensures { option_map found_parts result ≡ found_of oid.now list.now }
{
    let mut rest = list;
    'extensions: while !rest.is_empty() {
        match extension(rest) {
            Ok((extension, behind)) => {
                if extension.oid == oid {
                    return Some(Found {
                        from: rest,
                        extension,
                        behind,
                    });
                }
                rest = behind;
            }
            Err(_) => return None,
        }
    }
    None
}

/// Whether extensions come up to the end, and no two have one identifier.
pub fn check_list(list: &[u8]) -> Result<(), X509Error>
    ensures { result ≡ distinct_of list.now }
{
    let mut rest = list;
    'extensions: while !rest.is_empty() {
        let (extension, behind) = extension(rest)?;
        if find(behind, extension.oid).is_some() {
            return Err(X509Error::Extension);
        }
        rest = behind;
    }
    Ok(())
}
