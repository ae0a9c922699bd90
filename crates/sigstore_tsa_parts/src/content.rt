// What a token says, from its bytes.
ghost use Rattle.std.specs.Prelude.{◌≡◌, ◌≢◌, [], Ok, Err, IfOk, IfErr};
ghost use Rattle.der_grammar.specs.Grammar.{read_all};
ghost use Rattle.sigstore_tsa_parts.specs.Content.{value_in, token_of, content_info_by, content_info_of, signed_data_of, octets_of, content_of, tst_info_of, said_of, content_in, token_content_of};
ghost use Rattle.sigstore_tsa_parts.specs.Error.{or_parse};

use crate::algorithm::OID_TST_INFO;
use crate::error::{Error, ParseRule};
use crate::response::TimeStampResp;
use crate::tst_info::TstInfo;
use cms_parts::content_info::ContentInfo;
use cms_parts::signed_data::{EncapsulatedContentInfo, SignedData, SignerInfo, SignerInfos};
use der_core::{Any, Der, DerError, OctetString, SetOfVec};
use std::alloc::Global;

// id-signedData as its contents (RFC 5652, section 5.1).
const SIGNED_DATA: [u8; 9] = [42, 134, 72, 134, 247, 13, 1, 7, 2];

/// What a token says: the octets that are signed, what they say, and its signers in order.
#[derive(Drop)]
pub struct TokenContent {
    /// The TSTInfo as it was written.
    pub octets: OctetString,
    pub info: TstInfo,
    pub signers: SetOfVec<SignerInfo>,
}

/// A value of any type, read as one of a type. Errors: `Tag` for another type's, then those of the type.
pub fn value_in<T: Der>(alloc: Global, value: &Any) -> Result<T, DerError>
    ensures ok { IfOk result (λ a. value_in T.grammar value.now ≡ Ok a) }
    ensures err { IfErr result (λ e. e ≢ DerError.NoMemory → value_in T.grammar value.now ≡ Err e) }
{
    if !T::accepts(value.tag_byte()) {
        return Err(DerError::Tag);
    }
    match T::from_contents(alloc, value.tag_byte(), value.as_bytes()) {
        Ok(value) => Ok(value),
        Err(refusal) => Err(refusal),
    }
}

// The same, where what isn't read is a token that breaks a rule.
fn part_of<T: Der>(alloc: Global, rule: ParseRule, value: &Any) -> Result<T, Error>
    ensures ok { IfOk result (λ a. or_parse rule (value_in T.grammar value.now) ≡ Ok a) }
    ensures err { IfErr result (λ e. e ≢ Error.NoMemory → or_parse rule (value_in T.grammar value.now) ≡ Err e) }
{
    match value_in::<T>(alloc, value) {
        Ok(value) => Ok(value),
        Err(DerError::NoMemory) => Err(Error::NoMemory),
        Err(_) => Err(Error::Parse(rule)),
    }
}

// All the octets as a value of a type.
fn whole_of<T: Der>(alloc: Global, rule: ParseRule, octets: &[u8]) -> Result<T, Error>
    ensures ok { IfOk result (λ a. or_parse rule (read_all T.grammar octets.now) ≡ Ok a) }
    ensures err { IfErr result (λ e. e ≢ Error.NoMemory → or_parse rule (read_all T.grammar octets.now) ≡ Err e) }
{
    match T::from_der(alloc, octets) {
        Ok(value) => Ok(value),
        Err(DerError::NoMemory) => Err(Error::NoMemory),
        Err(_) => Err(Error::Parse(rule)),
    }
}

// Only a granted response has a token: what another one holds was never stamped.
fn token_of(response: &TimeStampResp) -> Result<&Any, Error>
    ensures ok { IfOk result (λ token. token_of response.now ≡ Ok token.now) }
    ensures err { IfErr result (λ e. token_of response.now ≡ Err e) }
{
    if response.status.status.get() >= 2 {
        return Err(Error::Parse(ParseRule::Status));
    }
    match &response.time_stamp_token {
        Some(token) => Ok(token),
        None => Err(Error::Parse(ParseRule::NoToken)),
    }
}

fn content_info_in(alloc: Global, response: &TimeStampResp) -> Result<ContentInfo, Error>
    ensures ok { IfOk result (λ content. content_info_by (Ok response.now) [] ≡ Ok content) }
    ensures err { IfErr result (λ e. e ≢ Error.NoMemory → content_info_by (Ok response.now) [] ≡ Err e) }
{
    let token = token_of(response)?;
    match part_of::<ContentInfo>(alloc, ParseRule::ContentInfo, token) {
        Ok(content) => Ok(content),
        Err(e) => Err(e),
    }
}

// A response holds a token, and a bundle may have either.
#[tactic(auto, unfolding(crate::specs::Content::content_info_of))]
fn content_info_of(alloc: Global, bytes: &[u8]) -> Result<ContentInfo, Error>
    ensures ok { IfOk result (λ content. content_info_of bytes.now ≡ Ok content) }
    ensures err { IfErr result (λ e. e ≢ Error.NoMemory → content_info_of bytes.now ≡ Err e) }
{
    match TimeStampResp::from_der(alloc, bytes) {
        Ok(response) => {
            let content = content_info_in(alloc, &response);
            drop(response);
            content
        }
        Err(DerError::NoMemory) => Err(Error::NoMemory),
        Err(_) => match whole_of::<ContentInfo>(alloc, ParseRule::ContentInfo, bytes) {
            Ok(content) => Ok(content),
            Err(e) => Err(e),
        },
    }
}

#[tactic(auto, unfolding(crate::specs::Content::signed_data_of))]
fn signed_data_of(alloc: Global, content: &ContentInfo) -> Result<SignedData, Error>
    ensures ok { IfOk result (λ signed. signed_data_of content.now ≡ Ok signed) }
    ensures err { IfErr result (λ e. e ≢ Error.NoMemory → signed_data_of content.now ≡ Err e) }
{
    if content.content_type.as_bytes() != SIGNED_DATA.as_slice() {
        return Err(Error::Parse(ParseRule::SignedData));
    }
    match part_of::<SignedData>(alloc, ParseRule::SignedData, &content.content) {
        Ok(signed) => Ok(signed),
        Err(e) => Err(e),
    }
}

// Content of another type, which an authority may well sign, would be read as a time else.
#[tactic(auto, unfolding(crate::specs::Content::content_of))]
fn content_of(encapsulated: &EncapsulatedContentInfo) -> Result<&[u8], Error>
    ensures ok { IfOk result (λ octets. content_of encapsulated.now ≡ Ok octets.now) }
    ensures err { IfErr result (λ e. content_of encapsulated.now ≡ Err e) }
{
    if encapsulated.econtent_type.as_bytes() != OID_TST_INFO.as_slice() {
        return Err(Error::Parse(ParseRule::ContentType));
    }
    match &encapsulated.econtent {
        Some(content) => Ok(content.as_bytes()),
        None => Err(Error::NoTstInfo),
    }
}

#[tactic(auto, unfolding(crate::specs::Content::tst_info_of))]
fn tst_info_of(alloc: Global, octets: &[u8]) -> Result<TstInfo, Error>
    ensures ok { IfOk result (λ info. tst_info_of octets.now ≡ Ok info) }
    ensures err { IfErr result (λ e. e ≢ Error.NoMemory → tst_info_of octets.now ≡ Err e) }
{
    match whole_of::<TstInfo>(alloc, ParseRule::TstInfo, octets) {
        Ok(info) => Ok(info),
        Err(e) => Err(e),
    }
}

// What signed data says, which is only lent here: a refusal then has nothing large to let go.
#[tactic(auto, unfolding(crate::specs::Content::said_of))]
fn said_in(alloc: Global, signed: &SignedData) -> Result<(OctetString, TstInfo), Error>
    ensures ok { IfOk result (λ said. said_of signed.now ≡ Ok said) }
    ensures err { IfErr result (λ e. e ≢ Error.NoMemory → said_of signed.now ≡ Err e) }
{
    let octets = content_of(&signed.encap_content_info)?;
    let info = tst_info_of(alloc, octets)?;
    match OctetString::new(alloc, octets) {
        Ok(octets) => Ok((octets, info)),
        Err(_) => {
            drop(info);
            Err(Error::NoMemory)
        }
    }
}

fn signers_of(signed: SignedData) -> SetOfVec<SignerInfo>
    ensures { result ≡ signed.signer_infos.0 }
{
    let SignedData { signer_infos, .. } = signed;
    let SignerInfos(signers) = signer_infos;
    signers
}

#[tactic(auto, unfolding(crate::specs::Content::content_in))]
fn content_in(alloc: Global, signed: SignedData) -> Result<TokenContent, Error>
    ensures ok { IfOk result (λ content. content_in signed ≡ Ok content) }
    ensures err { IfErr result (λ e. e ≢ Error.NoMemory → content_in signed ≡ Err e) }
{
    match said_in(alloc, &signed) {
        Ok((octets, info)) => Ok(TokenContent {
            octets,
            info,
            signers: signers_of(signed),
        }),
        Err(e) => {
            drop(signed);
            Err(e)
        }
    }
}

/// What a token says: the TSTInfo that a time-stamp response or a ContentInfo holds (RFC 3161, section 2.4.2),
/// and its signers. Errors, in order: `Parse` for a response that isn't granted or has no token, for a token that
/// is no ContentInfo, for content that isn't signed data, for one of another type than TSTInfo; `NoTstInfo` where
/// there is no content; `Parse` where it is no TSTInfo.
#[tactic(auto, unfolding(crate::specs::Content::token_content_of))]
pub fn read_token(alloc: Global, token: &[u8]) -> Result<TokenContent, Error>
    ensures ok { IfOk result (λ content. token_content_of token.now ≡ Ok content) }
    ensures err { IfErr result (λ e. e ≢ Error.NoMemory → token_content_of token.now ≡ Err e) }
{
    let content = content_info_of(alloc, token)?;
    let signed = signed_data_of(alloc, &content);
    drop(content);
    match signed {
        Ok(signed) => match content_in(alloc, signed) {
            Ok(content) => Ok(content),
            Err(e) => Err(e),
        },
        Err(e) => Err(e),
    }
}
