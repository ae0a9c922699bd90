// The types of the protocol, requests, and what answers them.
use crate::tokens;
use crate::words::{displayed, good, halves, hold, place, printed, text, there};
use der_core::{Der, DerError};
use foundation::Duplicate;
use jiff::Timestamp;
use sigstore_keys::{sha256, sha384, sha512};
use sigstore_tsa::{
    Accuracy, AlgorithmIdentifier, Asn1MessageImprint, CertificateFault, Error, ParseRule,
    PkiStatus, PkiStatusInfo, ResponseFault, SignatureRule, TimeStampReq, TimeStampResp, TstInfo,
    timestamp_request, validate_response,
};
use sigstore_tsa_parts::response_is_no_content_info;
use sigstore_types::{ArtifactDigest, Bytes, HashAlgorithm, TimestampToken};
use std::process::Abort;
use std::rt::HostRuntime;

// A type and an encoding, worked out from RFC 3161 and X.690 by hand: what is read is copied and written again as it
// was, or the refusal.
const KEPT: &str = "\
Accuracy 3003800105 => kept
Accuracy 3000 => kept
Accuracy 300a020101800201f4810164 => kept
Accuracy 3003810105 => kept
Accuracy 3006810105800105 => Trailing
Accuracy 3005800300ffff => kept
Accuracy 30058003010000 => Value
Accuracy 30038001ff => Value
Accuracy 300480020005 => Value
Accuracy 300b020900ffffffffffffffff => kept
Accuracy 300b0209010000000000000000 => Value
AlgorithmIdentifier 300b0609608648016503040201 => kept
AlgorithmIdentifier 300d06096086480165030402010500 => kept
AlgorithmIdentifier 3000 => Truncated
Imprint 3011300b06096086480165030402010402abcd => kept
Imprint 300d300b0609608648016503040201 => Truncated
PkiStatusInfo 3003020100 => kept
PkiStatusInfo 300902010030040c024f4b => kept
PkiStatusInfo 300e02010230050c03626164030205a0 => kept
PkiStatusInfo 300402020100 => Value
PkiStatusInfo 300802010230030c01ff => Value
TimeStampResp 30053003020102 => kept
TimeStampResp 300730030201000500 => kept
TimeStampResp 3003020102 => Tag
TimeStampResp 3009300302010005000500 => Trailing
TimeStampReq 30160201013011300b06096086480165030402010402abcd => kept
TimeStampReq 30190201013011300b06096086480165030402010402abcd0101ff => kept
TimeStampReq 30190201013011300b06096086480165030402010402abcd010100 => Value
TimeStampReq 30220201013011300b06096086480165030402010402abcd06032a0304020207d00101ff => kept
TimeStampReq 301f0201013011300b06096086480165030402010402abcd020207d006032a0304 => Trailing
TstInfo 302f02010106032a03043011300b06096086480165030402010402abcd020105180f32303234303630313030303030305a => kept
TstInfo 304c02010106032a03043011300b06096086480165030402010402abcd020105180f32303234303630313030303030305a30030201010101ff020107a0068204612e6578a108300606022a030400 => kept
TstInfo 303102010106032a03043011300b06096086480165030402010402abcd020105180f32303234303630313030303030305aa100 => kept
TstInfo 302f02010106032a03043011300b06096086480165030402010402abcd020105180f32303234313330313030303030305a => Value
TstInfo 303202010106032a03043011300b06096086480165030402010402abcd020105180f32303234303630313030303030305a010100 => Value
TstInfo 303502010106032a03043011300b06096086480165030402010402abcd020105180f32303234303630313030303030305a0201070101ff => Trailing";

// The numbers of statuses (RFC 3161, section 2.4.2).
const STATUS: &str = "\
0 => Ok(Granted)
1 => Ok(GrantedWithMods)
2 => Ok(Rejection)
3 => Ok(Waiting)
4 => Ok(RevocationWarning)
5 => Ok(RevocationNotification)
6 => Err(())
255 => Err(())";

// A digest, the octets of the identifier that is written for it, and the digest that is read from that.
const DIGESTS: &str = "\
SHA2_256 => 300b0609608648016503040201
SHA2_384 => 300b0609608648016503040202
SHA2_512 => 300b0609608648016503040203
SHA3_256 => Asn1(Oid)
SHA3_384 => Asn1(Oid)";

// A digest and a nonce, and the request of them: version 1, no policy, the certificate asked for.
const WRITTEN: &str = "\
SHA2_256 0000000000000000000000000000000000000000000000000000000000000001 0 => 303a020101302f300b0609608648016503040201042000000000000000000000000000000000000000000000000000000000000000010201000101ff
SHA2_256 0000000000000000000000000000000000000000000000000000000000000001 128 => 303b020101302f300b060960864801650304020104200000000000000000000000000000000000000000000000000000000000000001020200800101ff
SHA2_256 0000000000000000000000000000000000000000000000000000000000000001 18446744073709551615 => 3042020101302f300b060960864801650304020104200000000000000000000000000000000000000000000000000000000000000001020900ffffffffffffffff0101ff
SHA2_384 abababababababababababababababababababababababababababababababababababababababababababababababab 5 => 304a020101303f300b06096086480165030402020430abababababababababababababababababababababababababababababababababababababababababababababababab0201050101ff
SHA2_512 cdcdcdcdcdcdcdcdcdcdcdcdcdcdcdcdcdcdcdcdcdcdcdcdcdcdcdcdcdcdcdcdcdcdcdcdcdcdcdcdcdcdcdcdcdcdcdcdcdcdcdcdcdcdcdcdcdcdcdcdcdcdcdcd 256 => 305b020101304f300b06096086480165030402030440cdcdcdcdcdcdcdcdcdcdcdcdcdcdcdcdcdcdcdcdcdcdcdcdcdcdcdcdcdcdcdcdcdcdcdcdcdcdcdcdcdcdcdcdcdcdcdcdcdcdcdcdcdcdcdcdcdcdcdcdcdcdcdcd020201000101ff
SHA3_256 0000000000000000000000000000000000000000000000000000000000000001 0 => Asn1(Oid)";

// A request by its digest and nonce, or without one, and the token that answers it.
const ANSWERS: &str = "\
SHA2_256 signature - good => kept
SHA2_256 signature - good_bare => kept
SHA2_256 signature 1 good => InvalidResponse(Nonce)
SHA2_256 another 1 good => InvalidResponse(Imprint)
SHA2_512 signature - good => InvalidResponse(Algorithm)
SHA2_384 signature - ts_sha384_bare => kept
SHA2_256 signature - rejected => Parse(Status)
SHA2_256 signature - no_content => NoTstInfo";

fn octets<X: AllocGlobal + Abort>(rt: &X, word: &str) -> Vec<u8> {
    good(rt, hex::decode(rt.alloc(), word))
}

fn hex_of<X: AllocGlobal + Abort>(rt: &X, bytes: &[u8]) -> String {
    good(rt, hex::encode(rt.alloc(), bytes))
}

// What a value is written as.
fn encoded<X: AllocGlobal + Abort, T: Der>(rt: &X, given: Result<T, Error>) -> String {
    match given {
        Ok(value) => hex_of(rt, good(rt, value.to_der(rt.alloc())).as_bytes()),
        Err(refusal) => printed(rt, refusal),
    }
}

// The encoding of a copy that equals the value.
fn copied<X: AllocGlobal + Abort, T: Der + Duplicate + PartialEq>(rt: &X, value: T) -> String {
    let copy = good(rt, value.duplicate(rt.alloc()));
    assert!(rt; copy == value);
    let bytes = good(rt, copy.to_der(rt.alloc()));
    hex_of(rt, bytes.as_bytes())
}

fn again<X: AllocGlobal + Abort, T: Der + Duplicate + PartialEq>(rt: &X, word: &str) -> String {
    match T::from_der(rt.alloc(), octets(rt, word).as_slice()) {
        Ok(value) => {
            if copied(rt, value).as_str() == word {
                text(rt, "kept")
            } else {
                text(rt, "changed")
            }
        }
        Err(refusal) => displayed(rt, refusal),
    }
}

/// What a type answers to octets.
pub fn kept<X: AllocGlobal + Abort>(rt: &X, given: &str) -> String {
    let (name, word) = halves(rt, given, " ");
    match place(
        name,
        "Accuracy AlgorithmIdentifier Imprint PkiStatusInfo TimeStampResp TimeStampReq TstInfo",
    ) {
        0 => again::<X, Accuracy>(rt, word),
        1 => again::<X, AlgorithmIdentifier>(rt, word),
        2 => again::<X, Asn1MessageImprint>(rt, word),
        3 => again::<X, PkiStatusInfo>(rt, word),
        4 => again::<X, TimeStampResp>(rt, word),
        5 => again::<X, TimeStampReq>(rt, word),
        6 => again::<X, TstInfo>(rt, word),
        _ => text(rt, "no type"),
    }
}

/// The status of a number.
pub fn status<X: AllocGlobal + Abort>(rt: &X, given: &str) -> String {
    printed(rt, PkiStatus::try_from(good(rt, given.parse::<u8>())))
}

/// The identifier of a digest.
pub fn identifier<X: AllocGlobal + Abort>(rt: &X, given: &str) -> String {
    let algorithm = there(rt, HashAlgorithm::from_name(given));
    encoded(rt, AlgorithmIdentifier::try_from(algorithm))
}

fn digest<X: AllocGlobal + Abort>(rt: &X, name: &str, word: &str) -> ArtifactDigest {
    let algorithm = there(rt, HashAlgorithm::from_name(name));
    let bytes = Bytes::from_vec(octets(rt, word));
    good(rt, ArtifactDigest::new(algorithm, bytes))
}

/// The request of a digest and a nonce.
pub fn written<X: AllocGlobal + Abort>(rt: &X, given: &str) -> String {
    let (name, rest) = halves(rt, given, " ");
    let (word, nonce) = halves(rt, rest, " ");
    let digest = digest(rt, name, word);
    let request = timestamp_request(rt.alloc(), &digest, good(rt, nonce.parse::<u64>()));
    drop(digest);
    encoded(rt, request)
}

fn digest_of<X: AllocGlobal + Abort>(rt: &X, name: &str, message: &[u8]) -> ArtifactDigest {
    let algorithm = there(rt, HashAlgorithm::from_name(name));
    let bytes = match algorithm {
        HashAlgorithm::Sha2384 => Bytes::new(rt.alloc(), sha384(message).as_bytes()),
        HashAlgorithm::Sha2512 => Bytes::new(rt.alloc(), sha512(message).as_bytes()),
        _ => Bytes::new(rt.alloc(), sha256(message).as_bytes()),
    };
    good(rt, ArtifactDigest::new(algorithm, good(rt, bytes)))
}

// The request of a digest, and of a nonce where there is one.
fn request<X: AllocGlobal + Abort>(rt: &X, digest: &ArtifactDigest, nonce: &str) -> TimeStampReq {
    let number = nonce.parse::<u64>().unwrap_or(0);
    let mut request = good(rt, timestamp_request(rt.alloc(), digest, number));
    if nonce == "-" {
        request.nonce = None;
    }
    request
}

// `kept` where the token is the response's own bytes.
fn token_shown<X: AllocGlobal + Abort>(
    rt: &X,
    response: &TimestampToken,
    found: Result<TimestampToken, Error>,
) -> String {
    match found {
        Ok(token) => {
            if token == *response {
                text(rt, "kept")
            } else {
                text(rt, "changed")
            }
        }
        Err(refusal) => printed(rt, refusal),
    }
}

/// What a response is to a request: the digest, what is stamped, the nonce, the name of the token.
pub fn answered<X: AllocGlobal + Abort>(rt: &X, given: &str) -> String {
    let (name, rest) = halves(rt, given, " ");
    let (word, rest) = halves(rt, rest, " ");
    let (nonce, token_name) = halves(rt, rest, " ");
    let message = if word == "signature" {
        "the signature of a bundle"
    } else {
        word
    };
    let digest = digest_of(rt, name, message.as_bytes());
    let request = request(rt, &digest, nonce);
    let response = tokens::named(rt, token_name);
    let found = validate_response(rt.alloc(), &request, response.as_bytes());
    drop(request);
    drop(digest);
    let answer = token_shown(rt, &response, found);
    drop(response);
    answer
}

#[test]
fn types_are_kept_and_requests_answered(rt: HostRuntime) {
    response_is_no_content_info();
    hold(
        &rt,
        &[
            ("kept", KEPT),
            ("status", STATUS),
            ("digest", DIGESTS),
            ("written", WRITTEN),
            ("answers", ANSWERS),
        ],
    );
}

// A refusal with its number and its name.
fn numbered<X: AllocGlobal + Abort>(rt: &X, refusal: Error) -> String {
    let number = refusal.number();
    good(rt, format!(in rt.alloc(); "{number} {refusal} {refusal:?}"))
}

fn of_number<X: AllocGlobal + Abort>(rt: &X, number: u8) -> Error {
    match number {
        1 => Error::Asn1(DerError::TooLong),
        2 => Error::InvalidResponse(ResponseFault::Nonce),
        3 => Error::SignatureVerificationError(SignatureRule::NoSigner),
        4 => Error::HashMismatch {
            expected: good(rt, Bytes::new(rt.alloc(), &[1])),
            actual: good(rt, Bytes::new(rt.alloc(), &[2])),
        },
        5 => Error::NoTstInfo,
        6 => Error::CertificateValidationError(CertificateFault::Path),
        7 => Error::Parse(ParseRule::Time),
        8 => Error::TimestampOutsideValidity {
            time: Timestamp::UNIX_EPOCH,
        },
        _ => Error::NoMemory,
    }
}

/// The refusal of a number.
pub fn refusal<X: AllocGlobal + Abort>(rt: &X, given: &str) -> String {
    numbered(rt, of_number(rt, good(rt, given.parse::<u8>())))
}

// The refusals: what each is printed as.
const REFUSALS: &str = "\
1 => 1 Asn1 Asn1(TooLong)
2 => 2 InvalidResponse InvalidResponse(Nonce)
3 => 3 SignatureVerificationError SignatureVerificationError(NoSigner)
4 => 4 HashMismatch HashMismatch { expected: [1], actual: [2] }
5 => 5 NoTstInfo NoTstInfo
6 => 6 CertificateValidationError CertificateValidationError(Path)
7 => 7 Parse Parse(Time)
8 => 8 TimestampOutsideValidity TimestampOutsideValidity { time: 1970-01-01T00:00:00Z }
9 => 9 NoMemory NoMemory";

#[test]
fn refusals_have_numbers_and_names(rt: HostRuntime) {
    hold(&rt, &[("refusal", REFUSALS)]);
}
