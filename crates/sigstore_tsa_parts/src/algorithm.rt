// Identifiers of digests.
ghost use Rattle.std.specs.Prelude.{◌≡◌, ◌⊎◌};
ghost use Rattle.sigstore_tsa_parts.specs.Identifiers.{sha2_oid, digest_named, without_parameters, identifier_of};
ghost use Rattle.sigstore_tsa_parts.specs.Types.{algorithm_identifier_type};

use crate::error::Error;
use der_core::{
    Any, Der, DerError, ObjectIdentifier, OctetString, Reader, Tag, append_optional, read_optional,
    read_value, tag,
};
use foundation::{Duplicate, NoMemory};
use sigstore_types_parts::HashAlgorithm;
use std::alloc::Global;

/// id-sha256 as its contents (RFC 5754, section 2).
pub const OID_SHA256: [u8; 9] = [96, 134, 72, 1, 101, 3, 4, 2, 1];

/// id-sha384 as its contents (RFC 5754, section 2).
pub const OID_SHA384: [u8; 9] = [96, 134, 72, 1, 101, 3, 4, 2, 2];

/// id-sha512 as its contents (RFC 5754, section 2).
pub const OID_SHA512: [u8; 9] = [96, 134, 72, 1, 101, 3, 4, 2, 3];

/// id-ct-TSTInfo as its contents (RFC 3161, section 2.4.2).
pub const OID_TST_INFO: [u8; 11] = [42, 134, 72, 134, 247, 13, 1, 9, 16, 1, 4];

/// The identifier of a digest, with its parameters as they are written (RFC 5280, section 4.1.1.2).
#[derive(Debug, PartialEq, Drop)]
pub struct AlgorithmIdentifier {
    pub algorithm: ObjectIdentifier,
    pub parameters: Option<Any>,
}

#[tactic(auto, unfolding(der_core::specs::Oid::oid_of, der_core::specs::Oid::group_bytes))]
fn sha2_identifier(last: u32) -> ObjectIdentifier
    requires { (last ≡ 1) ⊎ (last ≡ 2) ⊎ (last ≡ 3) }
    ensures { result ≡ sha2_oid last }
{
    match ObjectIdentifier::from_arcs(&[2, 16, 840, 1, 101, 3, 4, 2, last]) {
        Ok(identifier) => identifier,
        Err(_) => unreachable!(),
    }
}

impl AlgorithmIdentifier {
    /// That of SHA-256, without parameters.
    pub fn sha256() -> AlgorithmIdentifier
        ensures { result ≡ without_parameters (sha2_oid 1) }
    {
        AlgorithmIdentifier {
            algorithm: sha2_identifier(1),
            parameters: None,
        }
    }

    /// That of SHA-384, without parameters.
    pub fn sha384() -> AlgorithmIdentifier
        ensures { result ≡ without_parameters (sha2_oid 2) }
    {
        AlgorithmIdentifier {
            algorithm: sha2_identifier(2),
            parameters: None,
        }
    }

    /// That of SHA-512, without parameters.
    pub fn sha512() -> AlgorithmIdentifier
        ensures { result ≡ without_parameters (sha2_oid 3) }
    {
        AlgorithmIdentifier {
            algorithm: sha2_identifier(3),
            parameters: None,
        }
    }

    /// That of a digest. Errors: `Asn1` exactly for those of FIPS 202.
    pub fn try_from(algorithm: HashAlgorithm) -> Result<AlgorithmIdentifier, Error>
        ensures { result ≡ identifier_of algorithm }
    {
        match algorithm {
            HashAlgorithm::Sha2256 => Ok(AlgorithmIdentifier::sha256()),
            HashAlgorithm::Sha2384 => Ok(AlgorithmIdentifier::sha384()),
            HashAlgorithm::Sha2512 => Ok(AlgorithmIdentifier::sha512()),
            HashAlgorithm::Sha3256 => Err(Error::Asn1(DerError::Oid)),
            HashAlgorithm::Sha3384 => Err(Error::Asn1(DerError::Oid)),
        }
    }
}

/// The digest that an identifier names, whatever its parameters are: SHA-256, SHA-384 or SHA-512.
pub fn digest_named(algorithm: &ObjectIdentifier) -> Option<HashAlgorithm>
    ensures { result ≡ digest_named algorithm.now }
{
    let oid = algorithm.as_bytes();
    if oid == OID_SHA256.as_slice() {
        Some(HashAlgorithm::Sha2256)
    } else if oid == OID_SHA384.as_slice() {
        Some(HashAlgorithm::Sha2384)
    } else if oid == OID_SHA512.as_slice() {
        Some(HashAlgorithm::Sha2512)
    } else {
        None
    }
}

impl Der for AlgorithmIdentifier {
    ghost grammar = { algorithm_identifier_type.grammar };

    fn accepts(tag: Tag) -> bool {
        tag.0 == tag::SEQUENCE
    }

    fn from_contents(
        alloc: Global,
        _tag: Tag,
        contents: &[u8],
    ) -> Result<AlgorithmIdentifier, DerError> {
        let mut reader = Reader::new(contents);
        let value = AlgorithmIdentifier {
            algorithm: read_value(alloc, &mut reader)?,
            parameters: read_optional(alloc, &mut reader)?,
        };
        reader.end(value)
    }

    fn tag(&self) -> Tag {
        Tag(tag::SEQUENCE)
    }

    fn contents(&self, alloc: Global) -> Result<OctetString, DerError> {
        let mut out = OctetString::empty(alloc);
        self.algorithm.encode_into(alloc, &mut out)?;
        append_optional(alloc, &self.parameters, &mut out)?;
        Ok(out)
    }

    ghost lawful = { algorithm_identifier_type.lawful };
}

impl Duplicate for AlgorithmIdentifier {
    fn duplicate(&self, alloc: Global) -> Result<AlgorithmIdentifier, NoMemory> {
        Ok(AlgorithmIdentifier {
            algorithm: self.algorithm.duplicate(alloc)?,
            parameters: self.parameters.duplicate(alloc)?,
        })
    }
}
