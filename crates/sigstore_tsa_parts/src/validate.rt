// Whether a response answers a request.
ghost use Rattle.std.specs.Prelude.{◌≡◌, ◌≢◌, Ok, Err, IfOk, IfErr, option_copied};
ghost use Rattle.sigstore_tsa_parts.specs.Response.{answers_if, is_nonce_of, answers, response_judged_of};

use crate::content::read_token;
use crate::error::{Error, ResponseFault};
use crate::request::TimeStampReq;
use crate::tst_info::TstInfo;
use der_core::Int;
use sigstore_types_parts::TimestampToken;
use std::alloc::Global;

fn check(fault: ResponseFault, answers: bool) -> Result<(), Error>
    ensures { result ≡ answers_if fault answers }
{
    if answers {
        Ok(())
    } else {
        Err(Error::InvalidResponse(fault))
    }
}

fn is_nonce_of(sent: Option<&Int>, told: Option<&Int>) -> bool
    ensures { result ≡ is_nonce_of (option_copied sent.entry) (option_copied told.entry) }
{
    match (sent, told) {
        (None, _) => true,
        (Some(_), None) => false,
        (Some(sent), Some(told)) => sent.as_bytes() == told.as_bytes(),
    }
}

#[tactic(auto, unfolding(crate::specs::Response::answers))]
fn check_answer(request: &TimeStampReq, info: &TstInfo) -> Result<(), Error>
    ensures { result ≡ answers request.now info.now }
{
    let asked = &request.message_imprint;
    let told = &info.message_imprint;
    check(
        ResponseFault::Algorithm,
        asked.hash_algorithm.algorithm.as_bytes() == told.hash_algorithm.algorithm.as_bytes(),
    )?;
    check(
        ResponseFault::Imprint,
        asked.hashed_message.as_bytes() == told.hashed_message.as_bytes(),
    )?;
    check(
        ResponseFault::Nonce,
        is_nonce_of(request.nonce.as_ref(), info.nonce.as_ref()),
    )
}

/// The token of a response that answers a request (RFC 3161, section 2.4.2): the response's own bytes. Nothing is
/// said of who signed it. Errors: those of `read_token`; `InvalidResponse` with the first of digest algorithm,
/// imprint and, where the request has one, nonce that isn't the request's.
#[tactic(auto, unfolding(crate::specs::Response::response_judged_of))]
pub fn validate_response(
    alloc: Global,
    request: &TimeStampReq,
    response: &[u8],
) -> Result<TimestampToken, Error>
    ensures ok { IfOk result (λ token. response_judged_of request.now response.now ≡ Ok token) }
    ensures err { IfErr result (λ e. e ≢ Error.NoMemory → response_judged_of request.now response.now ≡ Err e) }
{
    let content = read_token(alloc, response)?;
    let answered = check_answer(request, &content.info);
    drop(content);
    answered?;
    Ok(TimestampToken::from_bytes(alloc, response)?)
}
