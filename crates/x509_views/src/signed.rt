// The parts of a certificate's signed part (RFC 5280, 4.1.2).
ghost use Rattle.std.specs.Prelude.{◌≡◌, ◌≤◌, IfOk, IfErr, Ok, Err, length, option_copied};
ghost use Rattle.der_grammar.specs.Outcome.{Outcome};
ghost use Rattle.x509_views.specs.Certificates.{written_version, version_of, version_at, serial_at, front_at, time_or, time_of, time_at, validity_of, middle_at, behind_identifier, list_of, list_at, tail_of};
ghost use Rattle.x509_views.specs.Distinct.{IsRefusal};
ghost use Rattle.x509_views.specs.Views.{front_parts, middle_parts, tail_parts};

use crate::distinct::check_distinct;
use der_core::{Civil, DerError, GeneralizedTimeKind, TimeKind, UtcTimeKind, tag};
use spki_core::{X509Error, algorithm, read, spki_in};
use std::alloc::Global;

/// Version, serial number, algorithm and issuer.
#[derive(Clone, Copy)]
pub struct Front<'a> {
    pub version: u8,
    pub serial: &'a [u8],
    pub algorithm: &'a [u8],
    pub issuer: &'a [u8],
}

/// Validity, subject and key.
#[derive(Clone, Copy)]
pub struct Middle<'a> {
    pub not_before: Civil,
    pub not_after: Civil,
    pub subject: &'a [u8],
    pub spki: &'a [u8],
}

/// The contents before the extensions, and these.
#[derive(Clone, Copy)]
pub struct Tail<'a> {
    pub front: &'a [u8],
    pub extensions: Option<&'a [u8]>,
}

fn version_number(octets: &[u8]) -> Result<u8, X509Error>
    ensures { result ≡ written_version octets.now }
{
    match octets {
        [number] if *number == 1 || *number == 2 => Ok(*number),
        _ => Err(X509Error::Version),
    }
}

#[tactic(auto, unfolding(crate::specs::Certificates::version_of))]
fn version_in(contents: &[u8]) -> Result<u8, X509Error>
    ensures { result ≡ version_of contents.now }
{
    let (number, rest) = read::int(contents)?;
    let version = version_number(number)?;
    read::end(rest)?;
    Ok(version)
}

#[tactic(auto, unfolding(crate::specs::Certificates::version_at))]
fn version(bytes: &[u8]) -> Result<(u8, &[u8]), X509Error>
    ensures ok { IfOk result (λ x. version_at bytes.now ≡ Ok (x.0, x.1.now)) }
    ensures err { IfErr result (λ e. version_at bytes.now ≡ Err e) }
{
    if !read::is_next(tag::CONSTRUCTED_0, bytes) {
        return Ok((0, bytes));
    }
    let (contents, rest) = read::contents(tag::CONSTRUCTED_0, bytes)?;
    let version = version_in(contents)?;
    Ok((version, rest))
}

#[tactic(auto, unfolding(crate::specs::Certificates::serial_at))]
fn serial(bytes: &[u8]) -> Result<(&[u8], &[u8]), X509Error>
    ensures ok { IfOk result (λ x. serial_at bytes.now ≡ Ok (x.0.now, x.1.now)) }
    ensures err { IfErr result (λ e. serial_at bytes.now ≡ Err e) }
{
    let (serial, rest) = read::int(bytes)?;
    if serial.len() > 21 {
        return Err(X509Error::Der(DerError::Value));
    }
    Ok((serial, rest))
}

/// The first parts, and what follows.
#[tactic(auto, unfolding(crate::specs::Certificates::front_at))]
pub fn read_front(bytes: &[u8]) -> Result<(Front, &[u8]), X509Error>
    ensures ok { IfOk result (λ x. front_at bytes.now ≡ Ok (front_parts x.0, x.1.now)) }
    ensures err { IfErr result (λ e. front_at bytes.now ≡ Err e) }
{
    let (version, rest) = version(bytes)?;
    let (serial, rest) = serial(rest)?;
    let (algorithm, rest) = algorithm(rest)?;
    let (issuer, rest) = read::encoded(tag::SEQUENCE, rest)?;
    let front = Front {
        version,
        serial,
        algorithm: algorithm.encoded,
        issuer,
    };
    Ok((front, rest))
}

fn time_or(time: Result<Civil, DerError>) -> Result<Civil, X509Error>
    ensures { result ≡ time_or time }
{
    match time {
        Ok(time) => Ok(time),
        Err(_) => Err(X509Error::Time),
    }
}

fn time_in(tag: u8, contents: &[u8]) -> Result<Civil, X509Error>
    ensures { result ≡ time_of tag contents.now }
{
    if tag == 23 {
        time_or(UtcTimeKind::read(contents))
    } else if tag == 24 {
        time_or(GeneralizedTimeKind::read(contents))
    } else {
        Err(X509Error::Time)
    }
}

#[tactic(auto, unfolding(crate::specs::Certificates::time_at))]
fn time(bytes: &[u8]) -> Result<(Civil, &[u8]), X509Error>
    ensures ok { IfOk result (λ x. time_at bytes.now ≡ Ok (x.0, x.1.now)) }
    ensures err { IfErr result (λ e. time_at bytes.now ≡ Err e) }
{
    let (tlv, rest) = read::value(bytes)?;
    let time = time_in(tlv.tag.0, tlv.value)?;
    Ok((time, rest))
}

#[tactic(auto, unfolding(crate::specs::Certificates::validity_of))]
fn validity_in(contents: &[u8]) -> Result<(Civil, Civil), X509Error>
    ensures { result ≡ validity_of contents.now }
{
    let (not_before, rest) = time(contents)?;
    let (not_after, rest) = time(rest)?;
    read::end(rest)?;
    Ok((not_before, not_after))
}

/// The middle parts, and what follows.
#[tactic(auto, unfolding(crate::specs::Certificates::middle_at))]
pub fn read_middle(bytes: &[u8]) -> Result<(Middle, &[u8]), X509Error>
    ensures ok { IfOk result (λ x. middle_at bytes.now ≡ Ok (middle_parts x.0, x.1.now)) }
    ensures err { IfErr result (λ e. middle_at bytes.now ≡ Err e) }
{
    let (validity, rest) = read::contents(tag::SEQUENCE, bytes)?;
    let (not_before, not_after) = validity_in(validity)?;
    let (subject, rest) = read::encoded(tag::SEQUENCE, rest)?;
    let (spki, rest) = read::tagged(tag::SEQUENCE, rest)?;
    spki_in(spki.value)?;
    let middle = Middle {
        not_before,
        not_after,
        subject,
        spki: spki.whole,
    };
    Ok((middle, rest))
}

#[tactic(auto, unfolding(crate::specs::Certificates::behind_identifier))]
fn behind_identifier(tag: u8, bytes: &[u8]) -> Result<&[u8], X509Error>
    ensures ok { IfOk result (λ rest. behind_identifier tag bytes.now ≡ Ok rest.now) }
    ensures err { IfErr result (λ e. behind_identifier tag bytes.now ≡ Err e) }
    ensures shorter { IfOk result (λ rest. length rest.now ≤ length bytes.now) }
{
    if !read::is_next(tag, bytes) {
        return Ok(bytes);
    }
    let (_, rest) = read::contents(tag, bytes)?;
    Ok(rest)
}

#[tactic(auto, unfolding(crate::specs::Certificates::list_of))]
fn list_in(memory: Option<Global>, contents: &[u8]) -> Result<&[u8], X509Error>
    ensures ok { IfOk result (λ list. list_of contents.now ≡ Ok list.now) }
    ensures err { IfErr result (λ e. IsRefusal memory e → list_of contents.now ≡ Err e) }
{
    let (list, rest) = read::contents(tag::SEQUENCE, contents)?;
    check_distinct(memory, list)?;
    read::end(rest)?;
    Ok(list)
}

#[tactic(auto, unfolding(crate::specs::Certificates::list_at))]
fn list(memory: Option<Global>, bytes: &[u8]) -> Result<(Option<&[u8]>, &[u8]), X509Error>
    ensures ok { IfOk result (λ x. list_at bytes.now ≡ Ok (option_copied x.0, x.1.now)) }
    ensures err { IfErr result (λ e. IsRefusal memory e → list_at bytes.now ≡ Err e) }
{
    if !read::is_next(tag::CONSTRUCTED_3, bytes) {
        return Ok((None, bytes));
    }
    let (contents, rest) = read::contents(tag::CONSTRUCTED_3, bytes)?;
    let list = list_in(memory, contents)?;
    Ok((Some(list), rest))
}

/// The last parts of these contents.
#[tactic(auto, unfolding(crate::specs::Certificates::tail_of))]
pub fn read_tail<'a>(
    memory: Option<Global>,
    contents: &'a [u8],
    bytes: &'a [u8],
) -> Result<Tail<'a>, X509Error>
    ensures ok { IfOk result (λ t. tail_of contents.now bytes.now ≡ Ok (tail_parts t)) }
    ensures err { IfErr result (λ e. IsRefusal memory e → tail_of contents.now bytes.now ≡ Err e) }
{
    let rest = behind_identifier(129, bytes)?;
    let rest = behind_identifier(130, rest)?;
    let front = read::before(contents, rest);
    let (extensions, rest) = list(memory, rest)?;
    read::end(rest)?;
    Ok(Tail { front, extensions })
}
