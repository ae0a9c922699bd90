// What a token says of a signature.
ghost use Rattle.std.specs.Prelude.{◌≡◌, ◌≢◌, Ok, Err, IfOk, IfErr};
ghost use Rattle.path_core.specs.Anchors.{is_since_1970};
ghost use Rattle.sigstore_tsa.specs.Stamp.{imprint_judged_of, time_of, time_judged, told_of, stamp_at, stamp_of};

use crate::digest::{check_digest, known};
use certificate_fields::moment;
use cms_parts::signed_data::SignerInfo;
use der_core::{GeneralizedTime, OctetString, SetOfVec};
use jiff::Timestamp;
use sigstore_tsa_parts::{Asn1MessageImprint, Error, ParseRule, TokenContent, read_token};
use sigstore_types_parts::{SignatureBytes, TimestampToken};
use std::alloc::Global;

/// What a token says of a signature, whoever signed it.
#[derive(Drop)]
pub struct Stamp {
    /// The octets that are signed.
    pub octets: OctetString,
    /// The time.
    pub time: Timestamp,
    /// The signers in order.
    pub signers: SetOfVec<SignerInfo>,
}

// A token of another signature would tell this one's time else.
#[tactic(auto, unfolding(crate::specs::Stamp::imprint_judged_of))]
fn check_imprint(alloc: Global, imprint: &Asn1MessageImprint, signature: &[u8]) -> Result<(), Error>
    ensures ok { IfOk result (λ x. imprint_judged_of imprint.now signature.now ≡ Ok tt) }
    ensures err { IfErr result (λ e. e ≢ Error.NoMemory → imprint_judged_of imprint.now signature.now ≡ Err e) }
{
    let algorithm = known(
        ParseRule::ImprintAlgorithm,
        &imprint.hash_algorithm.algorithm,
    )?;
    match check_digest(
        alloc,
        imprint.hashed_message.as_bytes(),
        algorithm,
        signature,
    ) {
        Ok(()) => Ok(()),
        Err(e) => Err(e),
    }
}

#[tactic(auto, unfolding(crate::specs::Stamp::time_of))]
fn time_of(time: &GeneralizedTime) -> Timestamp
    ensures { result ≡ time_of time.now }
{
    moment(&time.civil())
}

fn check_time(time: Timestamp) -> Result<Timestamp, Error>
    ensures { result ≡ time_judged time }
{
    if time.as_nanosecond() < 0 {
        Err(Error::Parse(ParseRule::Time))
    } else {
        Ok(time)
    }
}

#[tactic(auto, unfolding(crate::specs::Stamp::told_of))]
fn told(alloc: Global, content: &TokenContent, signature: &[u8]) -> Result<Timestamp, Error>
    ensures ok { IfOk result (λ time. told_of content.now signature.now ≡ Ok time) }
    ensures err { IfErr result (λ e. e ≢ Error.NoMemory → told_of content.now signature.now ≡ Err e) }
{
    check_imprint(alloc, &content.info.message_imprint, signature)?;
    match check_time(time_of(&content.info.gen_time)) {
        Ok(time) => Ok(time),
        Err(e) => Err(e),
    }
}

fn stamp_at(content: TokenContent, time: Timestamp) -> Stamp
    ensures { result ≡ stamp_at content time }
{
    let TokenContent {
        octets,
        info,
        signers,
    } = content;
    drop(info);
    Stamp {
        octets,
        time,
        signers,
    }
}

/// What a token says of a signature. Errors, in order: those of `read_token`; `Parse` for an imprint whose digest
/// isn't known, `HashMismatch` for one of another signature, `Parse` for a time before 1970.
#[tactic(auto, unfolding(crate::specs::Stamp::stamp_of))]
pub fn read_stamp(
    alloc: Global,
    token: &TimestampToken,
    signature: &SignatureBytes,
) -> Result<Stamp, Error>
    ensures ok { IfOk result (λ stamp. stamp_of token.now signature.now ≡ Ok stamp) }
    ensures err { IfErr result (λ e. e ≢ Error.NoMemory → stamp_of token.now signature.now ≡ Err e) }
{
    let content = match read_token(alloc, token.as_bytes()) {
        Ok(content) => content,
        Err(e) => return Err(e),
    };
    match told(alloc, &content, signature.as_bytes()) {
        Ok(time) => Ok(stamp_at(content, time)),
        Err(e) => {
            drop(content);
            Err(e)
        }
    }
}
