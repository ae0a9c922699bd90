//! Object identifiers of the syntax and of its attributes.
ghost use Rattle.std.specs.Prelude.{◌≡◌, Ok};
ghost use Rattle.der_core.specs.Oid.{oid_of};
ghost use Rattle.cms_parts.specs.Identifiers.{data_oid, signed_data_oid, content_type_oid, message_digest_oid, signing_time_oid};

use der_core::ObjectIdentifier;

/// id-data (RFC 5652, 4).
#[tactic(auto, unfolding(der_core::specs::Oid::oid_of, der_core::specs::Oid::group_bytes))]
pub fn data() -> ObjectIdentifier
    ensures { result ≡ data_oid }
{
    match ObjectIdentifier::from_arcs(&[1, 2, 840, 113549, 1, 7, 1]) {
        Ok(identifier) => identifier,
        Err(_) => unreachable!(),
    }
}

/// id-signedData (RFC 5652, 5.1).
#[tactic(auto, unfolding(der_core::specs::Oid::oid_of, der_core::specs::Oid::group_bytes))]
pub fn signed_data() -> ObjectIdentifier
    ensures { result ≡ signed_data_oid }
{
    match ObjectIdentifier::from_arcs(&[1, 2, 840, 113549, 1, 7, 2]) {
        Ok(identifier) => identifier,
        Err(_) => unreachable!(),
    }
}

/// id-contentType (RFC 5652, 11.1).
#[tactic(auto, unfolding(der_core::specs::Oid::oid_of, der_core::specs::Oid::group_bytes))]
pub fn content_type() -> ObjectIdentifier
    ensures { result ≡ content_type_oid }
{
    match ObjectIdentifier::from_arcs(&[1, 2, 840, 113549, 1, 9, 3]) {
        Ok(identifier) => identifier,
        Err(_) => unreachable!(),
    }
}

/// id-messageDigest (RFC 5652, 11.2).
#[tactic(auto, unfolding(der_core::specs::Oid::oid_of, der_core::specs::Oid::group_bytes))]
pub fn message_digest() -> ObjectIdentifier
    ensures { result ≡ message_digest_oid }
{
    match ObjectIdentifier::from_arcs(&[1, 2, 840, 113549, 1, 9, 4]) {
        Ok(identifier) => identifier,
        Err(_) => unreachable!(),
    }
}

/// id-signingTime (RFC 5652, 11.3).
#[tactic(auto, unfolding(der_core::specs::Oid::oid_of, der_core::specs::Oid::group_bytes))]
pub fn signing_time() -> ObjectIdentifier
    ensures { result ≡ signing_time_oid }
{
    match ObjectIdentifier::from_arcs(&[1, 2, 840, 113549, 1, 9, 5]) {
        Ok(identifier) => identifier,
        Err(_) => unreachable!(),
    }
}
