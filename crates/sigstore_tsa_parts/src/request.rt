// Requests of a time stamp.
ghost use Rattle.std.specs.Prelude.{◌≡◌, ◌≢◌, Ok, Err, IfOk, IfErr};
ghost use Rattle.der_numbers.specs.Numbers.{contents_of};
ghost use Rattle.sigstore_tsa_parts.specs.Request.{request_of, timestamp_request_of};
ghost use Rattle.sigstore_tsa_parts.specs.Types.{time_stamp_req_tail, time_stamp_req_type};

use crate::algorithm::AlgorithmIdentifier;
use crate::error::Error;
use crate::imprint::Asn1MessageImprint;
use der_core::{
    Der, DerError, Int, ObjectIdentifier, OctetString, Reader, Tag, append_default,
    append_optional, read_default, read_optional, read_value, tag,
};
use der_numbers::{Number, OctetKind, U64Kind};
use foundation::{Duplicate, NoMemory};
use sigstore_types_parts::ArtifactDigest;
use std::alloc::Global;

/// A request of a time stamp (RFC 3161, section 2.4.1).
#[derive(PartialEq, Drop)]
pub struct TimeStampReq {
    pub version: Number<OctetKind>,
    pub message_imprint: Asn1MessageImprint,
    pub req_policy: Option<ObjectIdentifier>,
    /// What the answer has to bring back, so that it can't be an older one.
    pub nonce: Option<Int>,
    /// Whether the token is to hold its authority's certificate.
    pub cert_req: bool,
}

// The INTEGER of a number.
#[tactic(auto, using(crate::proofs::Nonce::contents_are_int))]
fn integer(alloc: Global, number: u64) -> Result<Int, DerError>
    ensures ok { IfOk result (λ integer. integer ≡ contents_of number) }
    ensures err { IfErr result (λ e. e ≡ DerError.NoMemory) }
{
    let number = Number::<U64Kind>::new(number)?;
    match number.contents(alloc) {
        Ok(contents) => Ok(Int::new(alloc, contents.as_bytes())?),
        Err(_) => Err(DerError::NoMemory),
    }
}

fn first_version() -> Result<Number<OctetKind>, DerError>
    ensures ok { IfOk result (λ version. version ≡ 1) }
    ensures err { IfErr result (λ e. ⊥) }
{
    Number::new(1)
}

impl TimeStampReq {
    /// The request of version 1 with an imprint and a nonce, without a policy, which asks for the certificate.
    pub fn new(
        alloc: Global,
        imprint: Asn1MessageImprint,
        nonce: u64,
    ) -> Result<TimeStampReq, Error>
        ensures ok { IfOk result (λ request. request ≡ request_of imprint nonce) }
        ensures err { IfErr result (λ e. e ≡ Error.NoMemory) }
    {
        match (first_version(), integer(alloc, nonce)) {
            (Ok(version), Ok(nonce)) => Ok(TimeStampReq {
                version,
                message_imprint: imprint,
                req_policy: None,
                nonce: Some(nonce),
                cert_req: true,
            }),
            _ => {
                drop(imprint);
                Err(Error::NoMemory)
            }
        }
    }
}

/// The request of a digest with a nonce. Errors: `Asn1` exactly for a digest of FIPS 202.
#[tactic(auto, unfolding(crate::specs::Request::timestamp_request_of))]
pub fn timestamp_request(
    alloc: Global,
    digest: &ArtifactDigest,
    nonce: u64,
) -> Result<TimeStampReq, Error>
    ensures ok { IfOk result (λ request. timestamp_request_of digest.now nonce ≡ Ok request) }
    ensures err { IfErr result (λ e. e ≢ Error.NoMemory → timestamp_request_of digest.now nonce ≡ Err e) }
{
    let algorithm = AlgorithmIdentifier::try_from(digest.algorithm())?;
    let imprint = Asn1MessageImprint::new(alloc, algorithm, digest.as_bytes())?;
    Ok(TimeStampReq::new(alloc, imprint, nonce)?)
}

fn read_asked(
    alloc: Global,
    reader: &mut Reader,
) -> Result<(Option<ObjectIdentifier>, (Option<Int>, bool)), DerError>
    ensures ok { IfOk result (λ asked. time_stamp_req_tail.fields.value_at reader.old ≡ Ok (asked, reader.new)) }
    ensures err { IfErr result (λ e. e ≢ DerError.NoMemory → time_stamp_req_tail.fields.value_at reader.old ≡ Err e) }
{
    let req_policy = read_optional(alloc, reader)?;
    let nonce = read_optional(alloc, reader)?;
    let cert_req = read_default(alloc, false, reader)?;
    Ok((req_policy, (nonce, cert_req)))
}

impl Der for TimeStampReq {
    ghost grammar = { time_stamp_req_type.grammar };

    fn accepts(tag: Tag) -> bool {
        tag.0 == tag::SEQUENCE
    }

    fn from_contents(alloc: Global, _tag: Tag, contents: &[u8]) -> Result<TimeStampReq, DerError> {
        let mut reader = Reader::new(contents);
        let version = read_value(alloc, &mut reader)?;
        let message_imprint = read_value(alloc, &mut reader)?;
        let (req_policy, (nonce, cert_req)) = read_asked(alloc, &mut reader)?;
        reader.end(TimeStampReq {
            version,
            message_imprint,
            req_policy,
            nonce,
            cert_req,
        })
    }

    fn tag(&self) -> Tag {
        Tag(tag::SEQUENCE)
    }

    fn contents(&self, alloc: Global) -> Result<OctetString, DerError> {
        let mut out = OctetString::empty(alloc);
        self.version.encode_into(alloc, &mut out)?;
        self.message_imprint.encode_into(alloc, &mut out)?;
        append_optional(alloc, &self.req_policy, &mut out)?;
        append_optional(alloc, &self.nonce, &mut out)?;
        append_default(alloc, &false, &self.cert_req, &mut out)?;
        Ok(out)
    }

    ghost lawful = { time_stamp_req_type.lawful };
}

impl Duplicate for TimeStampReq {
    fn duplicate(&self, alloc: Global) -> Result<TimeStampReq, NoMemory> {
        Ok(TimeStampReq {
            version: self.version.duplicate(alloc)?,
            message_imprint: self.message_imprint.duplicate(alloc)?,
            req_policy: self.req_policy.duplicate(alloc)?,
            nonce: self.nonce.duplicate(alloc)?,
            cert_req: self.cert_req,
        })
    }
}
