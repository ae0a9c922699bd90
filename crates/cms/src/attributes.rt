// The attributes that a signer needs.
ghost use Rattle.std.specs.Prelude.{◌≡◌, ◌≢◌, IfOk, IfErr, Ok, Err};
ghost use Rattle.der_grammar.specs.declared.error.DerError.TheVariants.{Value as BadValue};
ghost use Rattle.der_grammar.specs.Outcome.{IsTooLong as IsTooLongDer};
ghost use Rattle.x509_core.specs.declared.time.Time.{Time as TimeType};
ghost use Rattle.x509_core.specs.Types.{time_type};
ghost use Rattle.cms_parts.specs.Identifiers.{signing_time_oid};
ghost use Rattle.cms.specs.declared.error.Error.TheVariants.{Asn1};
ghost use Rattle.cms.specs.Error.{of_der, IsTooLong};
ghost use Rattle.cms.specs.Attributes.{attribute_of, content_type_attribute, message_digest_attribute, IsSigningTime, HasNoTime};

use crate::error::Error;
use cms_parts::{as_any, identifiers, set_of_one};
use der_core::{Der, DerError, GeneralizedTime, ObjectIdentifier, OctetString, UtcTime};
use jiff::Timestamp;
use std::alloc::Global;
use x509_core::{Attribute, Time};

/// An attribute with one value.
#[tactic(auto, unfolding(crate::specs::Attributes::attribute_of))]
fn attribute_of<T: Der>(
    alloc: Global,
    oid: ObjectIdentifier,
    value: &T,
) -> Result<Attribute, DerError>
    ensures ok { IfOk result (λ a. attribute_of T.grammar oid value.now ≡ Ok a) }
    ensures err { IfErr result (λ e. e ≢ DerError.NoMemory → attribute_of T.grammar oid value.now ≡ Err e) }
    ensures cause { IfErr result IsTooLongDer }
{
    let value = as_any(alloc, value)?;
    let values = set_of_one(alloc, value)?;
    Ok(Attribute { oid, values })
}

/// The attribute that tells the content's type (RFC 5652, 11.1).
pub fn create_content_type_attribute(
    alloc: Global,
    content_type: ObjectIdentifier,
) -> Result<Attribute, Error>
    ensures ok { IfOk result (λ a. of_der (content_type_attribute content_type) ≡ Ok a) }
    ensures err { IfErr result (λ e. e ≢ Error.NoMemory → of_der (content_type_attribute content_type) ≡ Err e) }
    ensures cause { IfErr result IsTooLong }
{
    let attribute = attribute_of(alloc, identifiers::content_type(), &content_type)?;
    Ok(attribute)
}

/// The attribute that tells the content's digest (RFC 5652, 11.2). Errors: `Asn1(TooLong)` exactly
/// where it can't be written; `NoMemory`.
pub fn create_message_digest_attribute(
    alloc: Global,
    message_digest: &[u8],
) -> Result<Attribute, Error>
    ensures ok { IfOk result (λ a. of_der (message_digest_attribute message_digest.now) ≡ Ok a) }
    ensures err { IfErr result (λ e. e ≢ Error.NoMemory → of_der (message_digest_attribute message_digest.now) ≡ Err e) }
    ensures cause { IfErr result IsTooLong }
{
    let digest = OctetString::new(alloc, message_digest)?;
    let attribute = attribute_of(alloc, identifiers::message_digest(), &digest)?;
    Ok(attribute)
}

/// The time of the second in which a moment lies.
fn time_of(now: Timestamp) -> Result<Time, DerError>
    ensures ok { IfOk result (λ t. IsSigningTime now.nanosecond t) }
    ensures err { IfErr result (λ e. (e ≡ BadValue) × HasNoTime now.nanosecond) }
{
    match UtcTime::new(now) {
        Ok(time) => Ok(Time::Utc(time)),
        Err(_) => match GeneralizedTime::new(now) {
            Ok(time) => Ok(Time::General(time)),
            Err(refusal) => Err(refusal),
        },
    }
}

/// The attribute that tells when it was signed: a UTCTime for the years 1950 to 2049, and else a
/// GeneralizedTime (RFC 5652, 11.3). Errors: `Asn1(Value)` outside the years 0 to 9999; `NoMemory`.
pub fn create_signing_time_attribute(alloc: Global, now: Timestamp) -> Result<Attribute, Error>
    ensures ok { IfOk result (λ a. (t : TimeType) × IsSigningTime now.nanosecond t
        × (of_der (attribute_of time_type.grammar signing_time_oid t) ≡ Ok a)) }
    ensures err { IfErr result (λ e. e ≢ Error.NoMemory → (e ≡ Asn1 BadValue) × HasNoTime now.nanosecond) }
{
    let time = time_of(now)?;
    let attribute = attribute_of(alloc, identifiers::signing_time(), &time)?;
    Ok(attribute)
}
