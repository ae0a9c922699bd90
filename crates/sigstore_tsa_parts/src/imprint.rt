// The digest of what is time-stamped.
ghost use Rattle.std.specs.Prelude.{◌≡◌, ◌≢◌, Ok, Err, IfOk, IfErr};
ghost use Rattle.sigstore_tsa_parts.specs.Request.{imprint_of};
ghost use Rattle.sigstore_tsa_parts.specs.Types.{message_imprint_type};

use crate::algorithm::AlgorithmIdentifier;
use crate::error::Error;
use der_core::{Der, DerError, OctetString, Reader, Tag, read_value, tag};
use foundation::{Duplicate, NoMemory};
use std::alloc::Global;

/// The digest of what is time-stamped, with its algorithm (RFC 3161, section 2.4.1).
#[derive(Debug, PartialEq, Drop)]
pub struct Asn1MessageImprint {
    pub hash_algorithm: AlgorithmIdentifier,
    pub hashed_message: OctetString,
}

impl Asn1MessageImprint {
    /// The imprint of a digest. Errors: `Asn1` exactly for 2^28 octets and more.
    pub fn new(
        alloc: Global,
        algorithm: AlgorithmIdentifier,
        digest: &[u8],
    ) -> Result<Asn1MessageImprint, Error>
        ensures ok { IfOk result (λ imprint. imprint_of algorithm digest.now ≡ Ok imprint) }
        ensures err { IfErr result (λ e. e ≢ Error.NoMemory → imprint_of algorithm digest.now ≡ Err e) }
    {
        if digest.len() >= 268435456 {
            drop(algorithm);
            return Err(Error::Asn1(DerError::TooLong));
        }
        match OctetString::new(alloc, digest) {
            Ok(hashed_message) => Ok(Asn1MessageImprint {
                hash_algorithm: algorithm,
                hashed_message,
            }),
            Err(_) => {
                drop(algorithm);
                Err(Error::NoMemory)
            }
        }
    }
}

impl Der for Asn1MessageImprint {
    ghost grammar = { message_imprint_type.grammar };

    fn accepts(tag: Tag) -> bool {
        tag.0 == tag::SEQUENCE
    }

    fn from_contents(
        alloc: Global,
        _tag: Tag,
        contents: &[u8],
    ) -> Result<Asn1MessageImprint, DerError> {
        let mut reader = Reader::new(contents);
        let value = Asn1MessageImprint {
            hash_algorithm: read_value(alloc, &mut reader)?,
            hashed_message: read_value(alloc, &mut reader)?,
        };
        reader.end(value)
    }

    fn tag(&self) -> Tag {
        Tag(tag::SEQUENCE)
    }

    fn contents(&self, alloc: Global) -> Result<OctetString, DerError> {
        let mut out = OctetString::empty(alloc);
        self.hash_algorithm.encode_into(alloc, &mut out)?;
        self.hashed_message.encode_into(alloc, &mut out)?;
        Ok(out)
    }

    ghost lawful = { message_imprint_type.lawful };
}

impl Duplicate for Asn1MessageImprint {
    fn duplicate(&self, alloc: Global) -> Result<Asn1MessageImprint, NoMemory> {
        Ok(Asn1MessageImprint {
            hash_algorithm: self.hash_algorithm.duplicate(alloc)?,
            hashed_message: self.hashed_message.duplicate(alloc)?,
        })
    }
}
