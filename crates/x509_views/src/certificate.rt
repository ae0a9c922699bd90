// Certificates as parts of their bytes.
ghost use Rattle.std.specs.Prelude.{◌≡◌, ◌≢◌, IfOk, IfErr, Ok, Err, is_ok, option_copied, option_map};
ghost use Rattle.x509_views.specs.Certificates.{signed_of, same_algorithm, full_octets, signature_at, parts_of, certificate_of};
ghost use Rattle.x509_views.specs.Distinct.{IsRefusal};
ghost use Rattle.x509_views.specs.Views.{signed_parts, certificate_parts, shown, extension_shown};
ghost use Rattle.x509_views.specs.Extensions.{found_in};

use crate::extension::{ExtensionView, find};
use crate::signed::{Front, Middle, Tail, read_front, read_middle, read_tail};
use der_core::{Civil, DerError, ObjectIdentifier, tag};
use foundation::NoMemory;
use spki_core::{X509Error, algorithm, read};
use std::alloc::Global;

/// A certificate (RFC 5280, 4.1), its parts as slices of the bytes that were read.
#[derive(Clone, Copy)]
pub struct CertView<'a> {
    /// All the bytes.
    pub whole: &'a [u8],
    /// The signed part as it is encoded.
    pub tbs: &'a [u8],
    /// 0, 1 and 2 for the first, second and third version.
    pub version: u8,
    /// The contents of the serial number.
    pub serial: &'a [u8],
    /// The issuer's name as it is encoded.
    pub issuer: &'a [u8],
    /// The start of the validity.
    pub not_before: Civil,
    /// The end of the validity, which belongs to it.
    pub not_after: Civil,
    /// The subject's name as it is encoded.
    pub subject: &'a [u8],
    /// The key as it is encoded, which `SpkiView::parse` reads.
    pub spki: &'a [u8],
    /// The contents of the signed part before its extensions.
    pub front: &'a [u8],
    /// The extensions, one after the other.
    pub extensions: Option<&'a [u8]>,
    /// The contents of the signature's AlgorithmIdentifier.
    pub signature_algorithm: &'a [u8],
    /// The octets of the signature.
    pub signature: &'a [u8],
}

/// The parts of a signed part (RFC 5280, 4.1.2).
#[derive(Clone, Copy)]
struct Signed<'a> {
    front: Front<'a>,
    middle: Middle<'a>,
    tail: Tail<'a>,
}

#[tactic(auto, unfolding(crate::specs::Certificates::signed_of))]
fn signed_in(memory: Option<Global>, contents: &[u8]) -> Result<Signed, X509Error>
    ensures ok { IfOk result (λ s. signed_of contents.now ≡ Ok (signed_parts s)) }
    ensures err { IfErr result (λ e. IsRefusal memory e → signed_of contents.now ≡ Err e) }
{
    let (front, rest) = read_front(contents)?;
    let (middle, rest) = read_middle(rest)?;
    let tail = read_tail(memory, contents, rest)?;
    Ok(Signed {
        front,
        middle,
        tail,
    })
}

fn compare_algorithms(inner: &[u8], outer: &[u8]) -> Result<(), X509Error>
    ensures { result ≡ same_algorithm inner.now outer.now }
{
    if inner == outer {
        Ok(())
    } else {
        Err(X509Error::Algorithms)
    }
}

fn octets_of(unused: u8, octets: &[u8]) -> Result<&[u8], X509Error>
    ensures ok { IfOk result (λ x. full_octets (unused, octets.now) ≡ Ok x.now) }
    ensures err { IfErr result (λ e. full_octets (unused, octets.now) ≡ Err e) }
{
    if unused == 0 {
        Ok(octets)
    } else {
        Err(X509Error::Der(DerError::Value))
    }
}

#[tactic(auto, unfolding(crate::specs::Certificates::signature_at))]
fn signature(bytes: &[u8]) -> Result<(&[u8], &[u8]), X509Error>
    ensures ok { IfOk result (λ x. signature_at bytes.now ≡ Ok (x.0.now, x.1.now)) }
    ensures err { IfErr result (λ e. signature_at bytes.now ≡ Err e) }
{
    let (unused, octets, rest) = read::bits(bytes)?;
    let octets = octets_of(unused, octets)?;
    Ok((octets, rest))
}

#[tactic(auto, unfolding(crate::specs::Certificates::parts_of))]
fn parts_in<'a>(
    memory: Option<Global>,
    whole: &'a [u8],
    contents: &'a [u8],
) -> Result<CertView<'a>, X509Error>
    ensures ok { IfOk result (λ v. parts_of contents.now ≡ Ok (certificate_parts v)) }
    ensures err { IfErr result (λ e. IsRefusal memory e → parts_of contents.now ≡ Err e) }
    ensures whole { IfOk result (λ v. v.whole.now ≡ whole.now) }
{
    let (tbs, rest) = read::tagged(tag::SEQUENCE, contents)?;
    let signed = signed_in(memory, tbs.value)?;
    let (algorithm, rest) = algorithm(rest)?;
    compare_algorithms(signed.front.algorithm, algorithm.encoded)?;
    let (signature, rest) = signature(rest)?;
    read::end(rest)?;
    Ok(CertView {
        whole,
        tbs: tbs.whole,
        version: signed.front.version,
        serial: signed.front.serial,
        issuer: signed.front.issuer,
        not_before: signed.middle.not_before,
        not_after: signed.middle.not_after,
        subject: signed.middle.subject,
        spki: signed.middle.spki,
        front: signed.tail.front,
        extensions: signed.tail.extensions,
        signature_algorithm: algorithm.encoded,
        signature,
    })
}

/// The certificate that all the bytes encode.
#[tactic(auto, unfolding(crate::specs::Certificates::certificate_of))]
fn certificate_in(memory: Option<Global>, bytes: &[u8]) -> Result<CertView, X509Error>
    ensures ok { IfOk result (λ v. certificate_of bytes.now ≡ Ok (certificate_parts v)) }
    ensures err { IfErr result (λ e. IsRefusal memory e → certificate_of bytes.now ≡ Err e) }
    ensures whole { IfOk result (λ v. v.whole.now ≡ bytes.now) }
{
    let (contents, rest) = read::contents(tag::SEQUENCE, bytes)?;
    let view = parts_in(memory, bytes, contents)?;
    read::end(rest)?;
    Ok(view)
}

impl<'a> CertView<'a> {
    /// The certificate that all the bytes encode, or the first refusal in reading order.
    pub fn parse(bytes: &'a [u8]) -> Result<CertView<'a>, X509Error>
        ensures ok { IfOk result (λ v. certificate_of bytes.now ≡ Ok (certificate_parts v)) }
        ensures err { IfErr result (λ e. certificate_of bytes.now ≡ Err e) }
        ensures whole { IfOk result (λ v. v.whole.now ≡ bytes.now) }
    {
        certificate_in(None, bytes)
    }

    /// The same as `parse`, over memory for the extensions' identifiers: a long list of them costs
    /// little more than its reading.
    pub fn parse_in(alloc: Global, bytes: &'a [u8]) -> Result<CertView<'a>, X509Error>
        ensures ok { IfOk result (λ v. certificate_of bytes.now ≡ Ok (certificate_parts v)) }
        ensures err { IfErr result (λ e. e ≢ X509Error.NoMemory → certificate_of bytes.now ≡ Err e) }
        ensures whole { IfOk result (λ v. v.whole.now ≡ bytes.now) }
    {
        certificate_in(Some(alloc), bytes)
    }

    /// The extension with this identifier, of which a certificate has at most one.
    pub fn extension(&self, oid: &ObjectIdentifier) -> Option<ExtensionView<'a>>
        ensures { option_map extension_shown result ≡ option_map shown (found_in oid.now (option_copied self.now.extensions)) }
    {
        match self.extensions {
            Some(list) => match find(list, oid.as_bytes()) {
                Some(found) => Some(ExtensionView {
                    critical: found.extension.critical,
                    value: found.extension.value,
                }),
                None => None,
            },
            None => None,
        }
    }
}

/// Whether octets are the contents of a certificate's SEQUENCE.
pub fn is_certificate(contents: &[u8]) -> bool
    ensures { result ≡ is_ok (parts_of contents.now) }
{
    parts_in(None, contents, contents).is_ok()
}

/// The same as `is_certificate`, over memory for the extensions' identifiers: a long list of them
/// costs little more than its reading.
pub fn is_certificate_in(alloc: Global, contents: &[u8]) -> Result<bool, NoMemory>
    ensures { IfOk result (λ b. b ≡ is_ok (parts_of contents.now)) }
{
    match parts_in(Some(alloc), contents, contents) {
        Ok(_) => Ok(true),
        Err(X509Error::NoMemory) => Err(NoMemory),
        Err(_) => Ok(false),
    }
}
