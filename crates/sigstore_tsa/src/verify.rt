// A token under one authority.
ghost use Rattle.std.specs.Prelude.{◌≡◌, ◌≢◌, Ok, Err, IfOk, IfErr};
ghost use Rattle.sigstore_tsa.specs.Stamped.{under_of, stamped_of};

use crate::named::named;
use crate::signed::check_signer;
use crate::stamp::{Stamp, read_stamp};
use crate::vouched::check_authority;
use jiff::Timestamp;
use sigstore_keys::CryptoProvider;
use sigstore_tsa_parts::Error;
use sigstore_types::TsaAuthority;
use sigstore_types_parts::{SignatureBytes, TimestampToken};
use std::alloc::Global;

/// Whether what was read of a token is an authority's. Errors, in order: `SignatureVerificationError` where there
/// is no signer, the authority's certificate isn't read or another is named; then those of the signer's attributes
/// and signature, of the authority's certificates, and of its window.
#[tactic(auto, unfolding(crate::specs::Stamped::under_of))]
pub fn judge_stamp<C: CryptoProvider>(
    alloc: Global,
    provider: &C,
    stamp: &Stamp,
    authority: &TsaAuthority,
) -> Result<(), Error>
    ensures ok { IfOk result (λ x. under_of (C.accepts provider.now) stamp.now authority.now ≡ Ok tt) }
    ensures err { IfErr result (λ e. e ≢ Error.NoMemory → under_of (C.accepts provider.now) stamp.now authority.now ≡ Err e) }
{
    let (signer, leaf) = named(alloc, stamp.signers.as_slice(), authority.leaf.as_bytes())?;
    check_signer(alloc, provider, stamp.octets.as_bytes(), signer, leaf.spki)?;
    check_authority(alloc, provider, authority, &leaf, stamp.time)?;
    Ok(())
}

/// The time of a signature by a token (RFC 3161) of an authority. Errors, in order: `Parse` and `NoTstInfo` for a
/// token that isn't read; `Parse` and `HashMismatch` of its imprint; `Parse` for a time before 1970;
/// `SignatureVerificationError` where the first signer isn't the authority, or has no message digest; `Parse` and
/// `HashMismatch` of that; `SignatureVerificationError` of key, scheme and signature; `CertificateValidationError`;
/// `TimestampOutsideValidity`.
#[tactic(auto, unfolding(crate::specs::Stamped::stamped_of))]
pub fn verify_timestamp_for_authority<C: CryptoProvider>(
    alloc: Global,
    provider: &C,
    token: &TimestampToken,
    signature: &SignatureBytes,
    authority: &TsaAuthority,
) -> Result<Timestamp, Error>
    ensures ok { IfOk result (λ time. stamped_of (C.accepts provider.now) token.now signature.now authority.now ≡ Ok time) }
    ensures err { IfErr result (λ e. e ≢ Error.NoMemory → stamped_of (C.accepts provider.now) token.now signature.now authority.now ≡ Err e) }
{
    let stamp = match read_stamp(alloc, token, signature) {
        Ok(stamp) => stamp,
        Err(e) => return Err(e),
    };
    let time = stamp.time;
    let judged = judge_stamp(alloc, provider, &stamp, authority);
    drop(stamp);
    match judged {
        Ok(()) => Ok(time),
        Err(e) => Err(e),
    }
}
