// A token under the authorities of a trust file.
ghost use Rattle.std.specs.Prelude.{◌≡◌, ◌≢◌, false, Some, Ok, Err, IfOk, IfErr};
ghost use Rattle.sigstore_tsa.specs.Authorities.{is_of_window, answered, under_any_of, first_accepting, token_time_of, token_authority_of};
ghost use Rattle.sigstore_tsa.specs.declared.authorities.TokenFault.TheVariants as faults;

use crate::stamp::{Stamp, read_stamp};
use crate::verify::judge_stamp;
use jiff::Timestamp;
use sigstore_keys::CryptoProvider;
use sigstore_tsa_parts::Error;
use sigstore_types::TsaAuthority;
use sigstore_types_parts::{SignatureBytes, TimestampToken};
use std::alloc::Global;

/// Why a token tells no time under any authority.
#[derive(Clone, Copy, Debug, PartialEq, Eq, Drop)]
pub enum TokenFault {
    /// It isn't read, isn't the signature's, or is none of the authorities'.
    Invalid,
    /// It is an authority's whose window alone hasn't its time.
    OutsideValidity { time: Timestamp },
    /// An allocation was refused.
    NoMemory,
}

/// When a token says that a signature was there, and the authority whose it is: the first that accepts it.
#[derive(Clone, Copy)]
pub struct StampedTime<'a> {
    pub time: Timestamp,
    pub authority: &'a TsaAuthority,
}

fn is_of_window(fault: &Error) -> bool
    ensures { result ≡ is_of_window fault.now }
{
    matches!(fault, Error::TimestampOutsideValidity { .. })
}

// The refusal of a token that no authority accepts.
fn refused(time: Timestamp, is_outside: bool) -> TokenFault
    ensures { answered time false is_outside ≡ Err result }
{
    if is_outside {
        TokenFault::OutsideValidity { time }
    } else {
        TokenFault::Invalid
    }
}

#[tactic(auto, using(crate::proofs::Any::one_refuses, crate::proofs::Any::one_accepts, crate::proofs::Any::first_passed, crate::proofs::Any::first_found))]
fn under_any<'a, C: CryptoProvider>(
    alloc: Global,
    provider: &C,
    stamp: &Stamp,
    authorities: &'a [TsaAuthority],
) -> Result<StampedTime<'a>, TokenFault>
    ensures ok { IfOk result (λ stamped. under_any_of (C.accepts provider.now) stamp.now authorities.now ≡ Ok stamped.time) }
    ensures authority { IfOk result (λ stamped. first_accepting (C.accepts provider.now) stamp.now authorities.now ≡ Some stamped.authority.now) }
    ensures err { IfErr result (λ e. e ≢ faults.NoMemory → under_any_of (C.accepts provider.now) stamp.now authorities.now ≡ Err e) }
{
    let mut is_outside = false;
    'authorities: for authority in authorities {
        match judge_stamp(alloc, provider, stamp, authority) {
            Ok(()) => {
                return Ok(StampedTime {
                    time: stamp.time,
                    authority,
                });
            }
            Err(Error::NoMemory) => return Err(TokenFault::NoMemory),
            Err(fault) => is_outside = is_outside || is_of_window(&fault),
        }
    }
    Err(refused(stamp.time, is_outside))
}

/// The time of a signature by a token, under authorities that are trusted (RFC 3161): the token is read once, and
/// its time is given where an authority accepts it, with the first that does; the others are not asked then. Errors:
/// `OutsideValidity` where none accepts it and one refuses it by its window alone, `Invalid` where none accepts it
/// otherwise.
#[tactic(auto, unfolding(crate::specs::Authorities::token_time_of, crate::specs::Authorities::token_authority_of))]
pub fn token_time<'a, C: CryptoProvider>(
    alloc: Global,
    provider: &C,
    token: &TimestampToken,
    signature: &SignatureBytes,
    authorities: &'a [TsaAuthority],
) -> Result<StampedTime<'a>, TokenFault>
    ensures ok { IfOk result (λ stamped. token_time_of (C.accepts provider.now) token.now signature.now authorities.now ≡ Ok stamped.time) }
    ensures authority { IfOk result (λ stamped. token_authority_of (C.accepts provider.now) token.now signature.now authorities.now
        ≡ Some stamped.authority.now) }
    ensures err { IfErr result (λ e. e ≢ faults.NoMemory → token_time_of (C.accepts provider.now) token.now signature.now authorities.now ≡ Err e) }
{
    let stamp = match read_stamp(alloc, token, signature) {
        Ok(stamp) => stamp,
        Err(Error::NoMemory) => return Err(TokenFault::NoMemory),
        Err(_) => return Err(TokenFault::Invalid),
    };
    let stamped = under_any(alloc, provider, &stamp, authorities);
    drop(stamp);
    stamped
}
