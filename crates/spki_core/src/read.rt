// Reading parts from the front of bytes; each part and what follows it are slices of them.
ghost use Rattle.std.specs.Prelude.{◌≡◌, ◌<◌, IfOk, IfErr, Ok, Err, length, option_copied};
ghost use Rattle.der_grammar.specs.Tlv.{tlv, tlv_at};
ghost use Rattle.spki_core.specs.Reading.{of_der, contents_at, encoded_at, oid_at, int_at, uint_at, any_at, bits_of, bits_at, at_end, begins_with, before};

use crate::error::X509Error;
use der_core::{
    BitStringKind, DerError, IntKind, ObjectIdentifier, PrimitiveKind, Reader, Tlv, Uint, tag,
};

/// The value at the front, and what follows.
pub fn value(bytes: &[u8]) -> Result<(Tlv, &[u8]), X509Error>
    ensures ok { IfOk result (λ x. of_der (tlv_at bytes.now) ≡ Ok (x.0.tag.0, x.0.value.now, x.1.now)) }
    ensures err { IfErr result (λ e. of_der (tlv_at bytes.now) ≡ Err e) }
    ensures whole { IfOk result (λ x. x.0.whole.now ≡ tlv x.0.tag.0 x.0.value.now) }
    ensures shorter { IfOk result (λ x. length x.1.now < length bytes.now) }
{
    let mut reader = Reader::new(bytes);
    let tlv = reader.read_tlv()?;
    let (_, rest) = bytes.split_at(tlv.whole.len());
    Ok((tlv, rest))
}

/// Whether a value with this tag comes next.
pub fn is_next(tag: u8, bytes: &[u8]) -> bool
    ensures { result ≡ begins_with tag bytes.now }
{
    match bytes {
        [] => false,
        [next, ..] => *next == tag,
    }
}

/// A value that has this tag.
#[tactic(auto, unfolding(crate::specs::Reading::contents_at))]
pub fn tagged(tag: u8, bytes: &[u8]) -> Result<(Tlv, &[u8]), X509Error>
    ensures ok { IfOk result (λ x. contents_at tag bytes.now ≡ Ok (x.0.value.now, x.1.now)) }
    ensures err { IfErr result (λ e. contents_at tag bytes.now ≡ Err e) }
    ensures whole { IfOk result (λ x. x.0.whole.now ≡ tlv tag x.0.value.now) }
    ensures shorter { IfOk result (λ x. length x.1.now < length bytes.now) }
{
    let (tlv, rest) = value(bytes)?;
    if tlv.tag.0 != tag {
        return Err(X509Error::Der(DerError::Tag));
    }
    Ok((tlv, rest))
}

/// The contents of a value that has this tag.
pub fn contents(tag: u8, bytes: &[u8]) -> Result<(&[u8], &[u8]), X509Error>
    ensures ok { IfOk result (λ x. contents_at tag bytes.now ≡ Ok (x.0.now, x.1.now)) }
    ensures err { IfErr result (λ e. contents_at tag bytes.now ≡ Err e) }
    ensures shorter { IfOk result (λ x. length x.1.now < length bytes.now) }
{
    let (tlv, rest) = tagged(tag, bytes)?;
    Ok((tlv.value, rest))
}

/// A value that has this tag, as it is encoded.
#[tactic(auto, unfolding(crate::specs::Reading::encoded_at))]
pub fn encoded(tag: u8, bytes: &[u8]) -> Result<(&[u8], &[u8]), X509Error>
    ensures ok { IfOk result (λ x. encoded_at tag bytes.now ≡ Ok (x.0.now, x.1.now)) }
    ensures err { IfErr result (λ e. encoded_at tag bytes.now ≡ Err e) }
{
    let (tlv, rest) = tagged(tag, bytes)?;
    Ok((tlv.whole, rest))
}

/// The contents of an OBJECT IDENTIFIER.
#[tactic(auto, unfolding(crate::specs::Reading::oid_at))]
pub fn oid(bytes: &[u8]) -> Result<(&[u8], &[u8]), X509Error>
    ensures ok { IfOk result (λ x. oid_at bytes.now ≡ Ok (x.0.now, x.1.now)) }
    ensures err { IfErr result (λ e. oid_at bytes.now ≡ Err e) }
{
    let (octets, rest) = contents(tag::OID, bytes)?;
    if !ObjectIdentifier::is_contents(octets) {
        return Err(X509Error::Der(DerError::Value));
    }
    Ok((octets, rest))
}

/// The contents of an INTEGER.
#[tactic(auto, unfolding(crate::specs::Reading::int_at))]
pub fn int(bytes: &[u8]) -> Result<(&[u8], &[u8]), X509Error>
    ensures ok { IfOk result (λ x. int_at bytes.now ≡ Ok (x.0.now, x.1.now)) }
    ensures err { IfErr result (λ e. int_at bytes.now ≡ Err e) }
{
    let (octets, rest) = contents(tag::INTEGER, bytes)?;
    if !IntKind::allows(octets) {
        return Err(X509Error::Der(DerError::Value));
    }
    Ok((octets, rest))
}

/// The contents of an INTEGER from 0 on.
#[tactic(auto, unfolding(crate::specs::Reading::uint_at))]
pub fn uint(bytes: &[u8]) -> Result<(&[u8], &[u8]), X509Error>
    ensures ok { IfOk result (λ x. uint_at bytes.now ≡ Ok (x.0.now, x.1.now)) }
    ensures err { IfErr result (λ e. uint_at bytes.now ≡ Err e) }
{
    let (octets, rest) = contents(tag::INTEGER, bytes)?;
    if !Uint::is_contents(octets) {
        return Err(X509Error::Der(DerError::Value));
    }
    Ok((octets, rest))
}

/// A value of any type as it is encoded; None where none comes.
#[tactic(auto, unfolding(crate::specs::Reading::any_at))]
pub fn any(bytes: &[u8]) -> Result<(Option<&[u8]>, &[u8]), X509Error>
    ensures ok { IfOk result (λ x. any_at bytes.now ≡ Ok (option_copied x.0, x.1.now)) }
    ensures err { IfErr result (λ e. any_at bytes.now ≡ Err e) }
{
    match bytes {
        [tag, ..] if *tag % 32 != 31 => {
            let (tlv, rest) = value(bytes)?;
            Ok((Some(tlv.whole), rest))
        }
        _ => Ok((None, bytes)),
    }
}

fn bits_in(octets: &[u8]) -> Result<(u8, &[u8]), X509Error>
    ensures ok { IfOk result (λ b. bits_of octets.now ≡ Ok (b.0, b.1.now)) }
    ensures err { IfErr result (λ e. bits_of octets.now ≡ Err e) }
{
    if !BitStringKind::allows(octets) {
        return Err(X509Error::Der(DerError::Value));
    }
    match octets {
        [unused, bits @ ..] => Ok((*unused, bits)),
        [] => Err(X509Error::Der(DerError::Value)),
    }
}

/// The count of unused bits and the octets of a BIT STRING.
#[tactic(auto, unfolding(crate::specs::Reading::bits_at))]
pub fn bits(bytes: &[u8]) -> Result<(u8, &[u8], &[u8]), X509Error>
    ensures ok { IfOk result (λ x. bits_at bytes.now ≡ Ok ((x.0, x.1.now), x.2.now)) }
    ensures err { IfErr result (λ e. bits_at bytes.now ≡ Err e) }
{
    let (octets, rest) = contents(tag::BIT_STRING, bytes)?;
    let (unused, bits) = bits_in(octets)?;
    Ok((unused, bits, rest))
}

/// Trailing exactly where bytes are left.
pub fn end(rest: &[u8]) -> Result<(), X509Error>
    ensures { result ≡ at_end tt rest.now }
{
    if rest.is_empty() {
        Ok(())
    } else {
        Err(X509Error::Der(DerError::Trailing))
    }
}

/// What stands before a rest; nothing where that is longer.
pub fn before<'a>(bytes: &'a [u8], rest: &[u8]) -> &'a [u8]
    ensures { result.now ≡ before bytes.now rest.now }
{
    let (front, _) = bytes.split_at(bytes.len().saturating_sub(rest.len()));
    front
}
