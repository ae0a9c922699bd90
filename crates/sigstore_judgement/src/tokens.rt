// The time-stamp tokens of a bundle.
ghost use Rattle.std.specs.Prelude.{◌≡◌, ◌≢◌, ◌∷◌, [], Some, Ok, Err, IfOk, IfErr, OnOk};
ghost use Rattle.sigstore_judgement.specs.Entries.{behind};
ghost use Rattle.sigstore_judgement.specs.Error.{error_of_token};
ghost use Rattle.sigstore_judgement.specs.Grounds.{grounds_by};
ghost use Rattle.sigstore_judgement.specs.Parties.{authority_of, authorities_of};
ghost use Rattle.sigstore_judgement.specs.Tokens.{token_judged_of, tokens_judged_of};

use crate::error::{Error, TimestampError};
use crate::grounds::Grounds;
use foundation::Sequence;
use jiff::Timestamp;
use sigstore_keys::{CryptoProvider, DistinctIds};
use sigstore_tsa::{StampedTime, TokenFault, token_time};
use sigstore_types_parts::{Armor, SignatureBytes, TimestampToken};
use std::alloc::Global;

// What a refusal of a token is of its bundle.
fn refused(fault: TokenFault) -> Error
    ensures { result ≡ error_of_token fault }
{
    match fault {
        TokenFault::Invalid => Error::Timestamp(TimestampError::Invalid),
        TokenFault::OutsideValidity { time } => {
            Error::Timestamp(TimestampError::OutsideAuthorityValidity { time })
        }
        TokenFault::NoMemory => Error::NoMemory,
    }
}

/// Verified times, and the authorities of the tokens that tell some of them.
#[derive(Drop)]
pub(crate) struct TimeEvidence {
    pub(crate) times: Sequence<Timestamp>,
    /// Each once, by the certificate that its chain ends in.
    pub(crate) authorities: DistinctIds,
}

// The time that a token tells of the signature, and whose token it is.
fn check_token<'a, C: CryptoProvider, M: Armor>(
    alloc: Global,
    grounds: &'a Grounds<'_, C, M>,
    signature: &SignatureBytes,
    token: &TimestampToken,
) -> Result<StampedTime<'a>, Error>
    ensures ok { IfOk result (λ stamped. token_judged_of (grounds_by C.CryptoProvider M.Armor grounds.now) signature.now token.now ≡ Ok stamped.time) }
    ensures authority { IfOk result (λ stamped. authority_of (grounds_by C.CryptoProvider M.Armor grounds.now) signature.now token.now
        ≡ Some stamped.authority.now.root) }
    ensures err { IfErr result (λ e. e ≢ Error.NoMemory → token_judged_of (grounds_by C.CryptoProvider M.Armor grounds.now) signature.now token.now ≡ Err e) }
{
    match token_time(
        alloc,
        grounds.provider,
        token,
        signature,
        grounds.material.authorities.as_slice(),
    ) {
        Ok(stamped) => Ok(stamped),
        Err(fault) => Err(refused(fault)),
    }
}

/// The times of tokens, and whose they are. Each has to be a trusted authority's: a good one doesn't cover for one that is made up.
/// Errors, of the first that isn't: `Timestamp` with `OutsideAuthorityValidity` where an authority refuses it by its
/// window alone, and `Invalid`.
#[tactic(auto, using(crate::proofs::Behind::behind_token, crate::proofs::Behind::behind_all, crate::proofs::Behind::behind_nothing, crate::proofs::Behind::one_more))]
pub(crate) fn check_tokens<C: CryptoProvider, M: Armor>(
    alloc: Global,
    grounds: &Grounds<'_, C, M>,
    signature: &SignatureBytes,
    tokens: &[TimestampToken],
) -> Result<TimeEvidence, Error>
    ensures ok { IfOk result (λ shown. tokens_judged_of (grounds_by C.CryptoProvider M.Armor grounds.now) signature.now tokens.now ≡ Ok shown.times) }
    ensures authorities { IfOk result (λ shown. shown.authorities.ids
        ≡ authorities_of (grounds_by C.CryptoProvider M.Armor grounds.now) signature.now tokens.now) }
    ensures err { IfErr result (λ e. e ≢ Error.NoMemory →
        tokens_judged_of (grounds_by C.CryptoProvider M.Armor grounds.now) signature.now tokens.now ≡ Err e) }
{
    let mut times = Sequence::new(alloc);
    let mut authorities = DistinctIds::new(alloc);
    'tokens: for token in tokens {
        let stamped = check_token(alloc, grounds, signature, token)?;
        times.push(stamped.time)?;
        authorities.add(alloc, stamped.authority.root.as_bytes())?;
    }
    Ok(TimeEvidence { times, authorities })
}
