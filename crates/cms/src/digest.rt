// The digest of the content.
ghost use Rattle.std.specs.Prelude.{◌≡◌, ◌≢◌, IfOk, IfErr, Ok, Err, option_copied, option_map};
ghost use Rattle.cms.specs.Error.{IsFinalizing};
ghost use Rattle.cms.specs.Digest.{digest_by, digest_of};

use crate::error::{BuilderFault, Error};
use der_core::{Any, ObjectIdentifier, OctetString};
use sha1::Sha1;
use sha2::{Digest, Sha224, Sha256, Sha384, Sha512};
use std::alloc::Global;

const SHA1: [u8; 5] = [43, 14, 3, 2, 26];

const SHA256: [u8; 9] = [96, 134, 72, 1, 101, 3, 4, 2, 1];

const SHA384: [u8; 9] = [96, 134, 72, 1, 101, 3, 4, 2, 2];

const SHA512: [u8; 9] = [96, 134, 72, 1, 101, 3, 4, 2, 3];

const SHA224: [u8; 9] = [96, 134, 72, 1, 101, 3, 4, 2, 4];

#[tactic(auto, unfolding(crate::specs::Digest::digest_by))]
fn digest_by(alloc: Global, algorithm: &[u8], octets: &[u8]) -> Result<OctetString, Error>
    ensures ok { IfOk result (λ digest. digest_by algorithm.now octets.now ≡ Ok digest) }
    ensures err { IfErr result (λ e. e ≢ Error.NoMemory → digest_by algorithm.now octets.now ≡ Err e) }
    ensures cause { IfErr result IsFinalizing }
{
    if algorithm == SHA1.as_slice() {
        Ok(OctetString::new(alloc, &Sha1::digest(octets))?)
    } else if algorithm == SHA224.as_slice() {
        Ok(OctetString::new(alloc, &Sha224::digest(octets))?)
    } else if algorithm == SHA256.as_slice() {
        Ok(OctetString::new(alloc, &Sha256::digest(octets))?)
    } else if algorithm == SHA384.as_slice() {
        Ok(OctetString::new(alloc, &Sha384::digest(octets))?)
    } else if algorithm == SHA512.as_slice() {
        Ok(OctetString::new(alloc, &Sha512::digest(octets))?)
    } else {
        Err(Error::Builder(BuilderFault::NoHasher))
    }
}

/// The digest that is signed: of the content, or one that was made elsewhere.
#[tactic(auto, unfolding(crate::specs::Digest::digest_of))]
pub fn digest_of(
    alloc: Global,
    algorithm: &ObjectIdentifier,
    content: &Option<Any>,
    made: Option<&[u8]>,
) -> Result<Option<OctetString>, Error>
    ensures ok { IfOk result (λ digest. digest_of algorithm.now content.now (option_copied made.entry) ≡ Ok digest) }
    ensures err { IfErr result (λ e. e ≢ Error.NoMemory → digest_of algorithm.now content.now (option_copied made.entry) ≡ Err e) }
    ensures cause { IfErr result IsFinalizing }
{
    match content {
        None => match made {
            None => Ok(None),
            Some(digest) => Ok(Some(OctetString::new(alloc, digest)?)),
        },
        Some(content) => match made {
            None => Ok(Some(digest_by(alloc, algorithm.as_bytes(), content.as_bytes())?)),
            Some(_) => Err(Error::Builder(BuilderFault::ContentTwice)),
        },
    }
}
