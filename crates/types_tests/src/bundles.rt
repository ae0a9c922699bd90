// Bundles: the refusal of each text, worked out by hand from the order of the members, and structures.
use crate::tables::{copied, good, hold, printed, replaced, word};
use sigstore_types::*;
use std::process::Abort;

/// `Ok` where octets are a bundle, or the refusal.
pub fn bundle<X: AllocGlobal + Abort>(rt: &X, octets: &[u8]) -> String {
    word(rt, Bundle::from_json(rt.alloc(), octets))
}

/// The same of the octets of a text with another in the place of its star.
fn filled<X: AllocGlobal + Abort>(rt: &X, text: &str, given: &str) -> String {
    let text = replaced(rt, text, &[("*", given)]);
    let answer = bundle(rt, text.as_bytes());
    drop(text);
    answer
}

/// The same of the bundle with this material.
pub fn material<X: AllocGlobal + Abort>(rt: &X, given: &str) -> String {
    filled(rt, MATERIAL, given)
}

/// The same of the bundle with this content.
pub fn content<X: AllocGlobal + Abort>(rt: &X, given: &str) -> String {
    filled(rt, CONTENT, given)
}

const MEDIA_TYPES: &str = r#"{ => Json
{"mediaType":1.5} => Float
{"other":[1e0]} => Float
[] => Json
{} => Field { member: MediaType }
{"mediaType":null} => Field { member: MediaType }
{"mediaType":["x"]} => Field { member: MediaType }
{"mediaType":"application/vnd.dev.sigstore.bundle+json;version=0.4"} => MediaType
{"mediaType":"application/vnd.dev.sigstore.bundle.v0.2+json"} => MediaType
{"mediaType":"application/vnd.dev.sigstore.bundle+json;version=0.1"} => Field { member: VerificationMaterial }
{"mediaType":"application/vnd.dev.sigstore.bundle+json;version=0.2"} => Field { member: VerificationMaterial }
{"mediaType":"application/vnd.dev.sigstore.bundle+json;version=0.3"} => Field { member: VerificationMaterial }
{"mediaType":"application/vnd.dev.sigstore.bundle.v0.3+json"} => Field { member: VerificationMaterial }"#;

const MATERIAL: &str =
    r#"{"messageSignature":{"signature":"AQ=="},"mediaType":"application/vnd.dev.sigstore.bundle.v0.3+json","verificationMaterial":*}"#;

const MATERIALS: &str = r#"null => Field { member: VerificationMaterial }
[] => Field { member: VerificationMaterial }
{} => Field { member: VerificationMaterial }
{"publicKey":null,"tlogEntries":0} => Field { member: VerificationMaterial }
{"certificate":null,"x509CertificateChain":null,"publicKey":null} => Field { member: VerificationMaterial }
{"publicKey":{},"certificate":null,"x509CertificateChain":null} => Ok
{"publicKey":"k"} => Field { member: PublicKey }
{"publicKey":{"hint":0},"tlogEntries":0} => Field { member: Hint }
{"publicKey":{"hint":null}} => Ok
{"publicKey":{},"tlogEntries":{}} => Field { member: TlogEntries }
{"publicKey":{},"tlogEntries":[0],"timestampVerificationData":0} => Field { member: TlogEntries }
{"publicKey":{},"tlogEntries":[{}],"timestampVerificationData":0} => Field { member: LogId }
{"publicKey":{},"tlogEntries":[]} => Ok
{"publicKey":{},"tlogEntries":null} => Ok
{"publicKey":{},"timestampVerificationData":[]} => Field { member: TimestampVerificationData }
{"publicKey":{},"timestampVerificationData":null} => Ok
{"publicKey":{},"timestampVerificationData":{}} => Ok
{"publicKey":{},"timestampVerificationData":{"rfc3161Timestamps":0}} => Field { member: Rfc3161Timestamps }
{"publicKey":{},"timestampVerificationData":{"rfc3161Timestamps":[]}} => Ok
{"publicKey":{},"timestampVerificationData":{"rfc3161Timestamps":null}} => Ok
{"publicKey":{},"timestampVerificationData":{"rfc3161Timestamps":[0]}} => Field { member: Rfc3161Timestamps }
{"publicKey":{},"timestampVerificationData":{"rfc3161Timestamps":[null]}} => Field { member: Rfc3161Timestamps }
{"publicKey":{},"timestampVerificationData":{"rfc3161Timestamps":[{}]}} => Field { member: SignedTimestamp }
{"publicKey":{},"timestampVerificationData":{"rfc3161Timestamps":[{"signedTimestamp":null}]}} => Field { member: SignedTimestamp }
{"publicKey":{},"timestampVerificationData":{"rfc3161Timestamps":[{"signedTimestamp":"A"}]}} => Base64
{"publicKey":{},"timestampVerificationData":{"rfc3161Timestamps":[{"signedTimestamp":"AQ=="},{}]}} => Field { member: SignedTimestamp }
{"publicKey":{},"timestampVerificationData":{"rfc3161Timestamps":[{"signedTimestamp":"AQ=="},{"signedTimestamp":""}]}} => Ok"#;

// A certificate alone, a chain, and several of the three contents.
const CERTIFICATES: &str = r#"{"certificate":0} => Field { member: Certificate }
{"certificate":"AQ=="} => Field { member: Certificate }
{"certificate":[]} => Field { member: Certificate }
{"certificate":{}} => Field { member: RawBytes }
{"certificate":{"rawBytes":null}} => Field { member: RawBytes }
{"certificate":{"rawBytes":[1]}} => Field { member: RawBytes }
{"certificate":{"rawBytes":"AQ="}} => Base64
{"certificate":{"rawBytes":"AQ=="}} => Ok
{"certificate":{"rawBytes":""}} => Ok
{"certificate":{"rawBytes":"AQ=="},"x509CertificateChain":null,"publicKey":null} => Ok
{"certificate":{"rawBytes":"AQ=="},"tlogEntries":0} => Field { member: TlogEntries }
{"x509CertificateChain":0} => Field { member: X509CertificateChain }
{"x509CertificateChain":[{"rawBytes":"AQ=="}]} => Field { member: X509CertificateChain }
{"x509CertificateChain":{}} => Field { member: Certificates }
{"x509CertificateChain":{"rawBytes":"AQ=="}} => Field { member: Certificates }
{"x509CertificateChain":{"certificates":null}} => Field { member: Certificates }
{"x509CertificateChain":{"certificates":{}}} => Field { member: Certificates }
{"x509CertificateChain":{"certificates":[]}} => Field { member: Certificates }
{"x509CertificateChain":{"certificates":["AQ=="]}} => Field { member: Certificates }
{"x509CertificateChain":{"certificates":[null]}} => Field { member: Certificates }
{"x509CertificateChain":{"certificates":[{}]}} => Field { member: RawBytes }
{"x509CertificateChain":{"certificates":[{"rawBytes":1}]}} => Field { member: RawBytes }
{"x509CertificateChain":{"certificates":[{"rawBytes":"A==="}]}} => Base64
{"x509CertificateChain":{"certificates":[{"rawBytes":"AQ=="},{}]}} => Field { member: RawBytes }
{"x509CertificateChain":{"certificates":[{"rawBytes":"AQ=="},{"rawBytes":"?"}]}} => Base64
{"x509CertificateChain":{"certificates":[{"rawBytes":"AQ=="}]}} => Ok
{"certificate":null,"x509CertificateChain":{"certificates":[{"rawBytes":"AQ=="}]},"publicKey":null} => Ok
{"certificate":{"rawBytes":"AQ=="},"publicKey":{}} => Field { member: VerificationMaterial }
{"certificate":{"rawBytes":"AQ=="},"publicKey":{},"tlogEntries":0} => Field { member: VerificationMaterial }
{"certificate":{"rawBytes":"AQ=="},"x509CertificateChain":{"certificates":[{"rawBytes":"AQ=="}]}} => Field { member: VerificationMaterial }
{"x509CertificateChain":{"certificates":[{"rawBytes":"AQ=="}]},"publicKey":{"hint":"k"}} => Field { member: VerificationMaterial }
{"certificate":{"rawBytes":"AQ=="},"x509CertificateChain":{"certificates":[{"rawBytes":"AQ=="}]},"publicKey":{}} => Field { member: VerificationMaterial }
{"certificate":{"rawBytes":"AQ=="},"publicKey":0} => Field { member: PublicKey }
{"certificate":{"rawBytes":"?"},"publicKey":0} => Base64
{"certificate":{"rawBytes":"AQ=="},"x509CertificateChain":{"certificates":[]}} => Field { member: Certificates }
{"certificate":{},"x509CertificateChain":0} => Field { member: RawBytes }"#;

// What is told, the certificate whose key signed, and those behind it.
const SIGNERS: &str = r#"{"publicKey":{}} => key None, None, []
{"publicKey":{"hint":"k"}} => key Some("k"), None, []
{"certificate":{"rawBytes":"AQI="}} => certificate [1, 2], Some([1, 2]), []
{"x509CertificateChain":{"certificates":[{"rawBytes":"AQI="}]}} => chain of 1, Some([1, 2]), []
{"x509CertificateChain":{"certificates":[{"rawBytes":"AQI="},{"rawBytes":"Aw=="},{"rawBytes":"BA=="}]}} => chain of 3, Some([1, 2]), [[3], [4]]
{"x509CertificateChain":{"certificates":[{"rawBytes":"Aw=="},{"rawBytes":"AQI="},{"rawBytes":"Aw=="}]}} => chain of 3, Some([3]), [[1, 2], [3]]"#;

// Message signatures, their digests, and envelopes.
const CONTENT: &str =
    r#"{"mediaType":"application/vnd.dev.sigstore.bundle.v0.3+json","verificationMaterial":{"publicKey":{}}*}"#;

const CONTENTS: &str = r#" => Json
,"messageSignature":null => Json
,"messageSignature":0 => Field { member: MessageSignature }
,"messageSignature":{} => Field { member: Signature }
,"messageSignature":{"signature":0} => Field { member: Signature }
,"messageSignature":{"signature":"AQ="} => Base64
,"messageSignature":{"signature":"AQ==","messageDigest":null} => Ok
,"messageSignature":{"messageDigest":0} => Field { member: MessageDigest }
,"messageSignature":{"messageDigest":{}} => Field { member: Algorithm }
,"messageSignature":{"messageDigest":{"algorithm":0}} => Field { member: Algorithm }
,"messageSignature":{"messageDigest":{"algorithm":"md5"}} => Field { member: Algorithm }
,"messageSignature":{"messageDigest":{"algorithm":"SHA2_384"}} => Field { member: Digest }
,"messageSignature":{"messageDigest":{"algorithm":"sha3-256","digest":"AQ=="},"signature":"AQ=="} => Ok
,"messageSignature":{"messageDigest":{"algorithm":"SHA2_256"}} => Field { member: Digest }
,"messageSignature":{"messageDigest":{"algorithm":"SHA2_256","digest":"?"},"signature":0} => Base64
,"messageSignature":{"messageDigest":{"algorithm":"SHA2_256","digest":"AQ=="}} => Field { member: Signature }
,"messageSignature":null,"dsseEnvelope":null => Json
,"dsseEnvelope":{} => Field { member: Payload }
,"dsseEnvelope":{"payload":"A"} => Base64
,"dsseEnvelope":{"payload":"","payloadType":"t","signatures":[]} => Field { member: Signatures }
,"dsseEnvelope":{"payload":"","payloadType":"t","signatures":[{"sig":"AQ=="}]} => Ok
,"messageSignature":null,"dsseEnvelope":{"payload":"","payloadType":"t","signatures":[{"sig":"AQ=="}]} => Ok
,"messageSignature":{"signature":"AQ=="},"dsseEnvelope":{"payload":"","payloadType":"t","signatures":[{"sig":"AQ=="}]} => Json
,"messageSignature":{"signature":"AQ=="},"dsseEnvelope":0 => Field { member: DsseEnvelope }
,"messageSignature":{"signature":"AQ=="},"dsseEnvelope":{} => Field { member: Payload }
,"messageSignature":{},"dsseEnvelope":{} => Field { member: Signature }
,"messageSignature":{"signature":"AQ=="},"dsseEnvelope":null => Ok"#;

const HELLO: &str =
    r#"{"mediaType":"application/vnd.dev.sigstore.bundle.v0.3+json","verificationMaterial":{"publicKey":{"hint":"k"}},"messageSignature":{"messageDigest":{"algorithm":"SHA2_256","digest":"LPJNul+wow4m6DsqxbninhsWHlwfp0JecwQzYpOLmCQ="},"signature":"AQ=="}}"#;

/// A copy of a bundle, and whether it has the structure that is wanted where the log is verified or not.
pub fn over_hello<X: AllocGlobal + Abort>(rt: &X, call: &str) -> String {
    let bundle = copied(rt, read(rt, HELLO));
    if call == "copy" {
        shown(rt, bundle)
    } else {
        structure(rt, bundle, call == "log")
    }
}

fn read<X: AllocGlobal + Abort>(rt: &X, text: &str) -> Bundle {
    good(rt, Bundle::from_json(rt.alloc(), text.as_bytes()))
}

// The parts of a bundle.
fn shown<X: AllocGlobal + Abort>(rt: &X, bundle: Bundle) -> String {
    let entries = bundle.verification_material.tlog_entries.len();
    let signer = told(rt, &bundle.verification_material.content);
    let text = format!(in rt.alloc();
        "{:?} {:?} {signer} {entries}",
        bundle.media_type, bundle.content
    );
    drop(signer);
    drop(bundle);
    good(rt, text)
}

fn told<X: AllocGlobal + Abort>(rt: &X, content: &VerificationMaterialContent) -> String {
    match content {
        VerificationMaterialContent::Certificate(certificate) => {
            good(rt, format!(in rt.alloc(); "certificate {certificate:?}"))
        }
        VerificationMaterialContent::X509CertificateChain(chain) => {
            let length = chain.len();
            good(rt, format!(in rt.alloc(); "chain of {length}"))
        }
        VerificationMaterialContent::PublicKey { hint } => {
            good(rt, format!(in rt.alloc(); "key {hint:?}"))
        }
    }
}

/// Whose signature a copy of the bundle with this material has.
pub fn signer<X: AllocGlobal + Abort>(rt: &X, given: &str) -> String {
    let text = replaced(rt, MATERIAL, &[("*", given)]);
    let bundle = copied(rt, read(rt, text.as_str()));
    drop(text);
    let answer = certificates(rt, &bundle);
    drop(bundle);
    answer
}

fn certificates<X: AllocGlobal + Abort>(rt: &X, bundle: &Bundle) -> String {
    let told = told(rt, &bundle.verification_material.content);
    let text = format!(in rt.alloc();
        "{told}, {:?}, {:?}",
        bundle.signing_certificate(),
        bundle.intermediates()
    );
    drop(told);
    good(rt, text)
}

fn structure<X: AllocGlobal + Abort>(rt: &X, bundle: Bundle, verifies_log: bool) -> String {
    let answer = validate_structure(&bundle, verifies_log);
    drop(bundle);
    printed(rt, answer)
}

const ENVELOPE: &str =
    r#"{"mediaType":"application/vnd.dev.sigstore.bundle.v0.3+json","verificationMaterial":{"publicKey":{}},"dsseEnvelope":{"payload":"aGk=","payloadType":"t","signatures":[{"sig":"AQ==","keyid":"k"}]}}"#;

/// A copy of a bundle with an envelope.
pub fn over_envelope<X: AllocGlobal + Abort>(rt: &X) -> String {
    shown(rt, copied(rt, read(rt, ENVELOPE)))
}

/// The structure of the bundle with these entries where the log is verified.
pub fn entries<X: AllocGlobal + Abort>(rt: &X, given: &str) -> String {
    let text = replaced(rt, ENTRIES, &[("*", given)]);
    let bundle = read(rt, text.as_str());
    drop(text);
    structure(rt, bundle, true)
}

const ENTRIES: &str =
    r#"{"messageSignature":{"signature":"AQ=="},"mediaType":"application/vnd.dev.sigstore.bundle.v0.3+json","verificationMaterial":{"publicKey":{},"tlogEntries":[*]}}"#;

// Entries with and without a proof.
const STRUCTURES: &str = r#" => Err(NoEntry)
{"logId":{"keyId":""},"kindVersion":{"kind":"dsse","version":"0.0.1"},"canonicalizedBody":"","inclusionProof":{"rootHash":"AAAAAAAAAAAAAAAAAAAAAAAAAAAAAAAAAAAAAAAAAAA="}} => Ok(())
{"logId":{"keyId":""},"kindVersion":{"kind":"dsse","version":"0.0.1"},"canonicalizedBody":""} => Err(NoProof)
{"logId":{"keyId":""},"kindVersion":{"kind":"dsse","version":"0.0.1"},"canonicalizedBody":"","inclusionProof":{"rootHash":"AAAAAAAAAAAAAAAAAAAAAAAAAAAAAAAAAAAAAAAAAAA="}},{"logId":{"keyId":""},"kindVersion":{"kind":"dsse","version":"0.0.1"},"canonicalizedBody":""} => Err(NoProof)"#;

// The digest's bytes are those of the base64 text.
const OVER_HELLO: &str =
    r#"copy => "application/vnd.dev.sigstore.bundle.v0.3+json" MessageSignature(MessageSignature { message_digest: Some(MessageDigest { algorithm: Sha2256, digest: [44, 242, 77, 186, 95, 176, 163, 14, 38, 232, 59, 42, 197, 185, 226, 158, 27, 22, 30, 92, 31, 167, 66, 94, 115, 4, 51, 98, 147, 139, 152, 36] }), signature: [1] }) key Some("k") 0
no log => Ok(())
log => Err(NoEntry)"#;

const OVER_ENVELOPE: &str =
    r#"copy => "application/vnd.dev.sigstore.bundle.v0.3+json" DsseEnvelope(DsseEnvelope { payload_type: "t", payload: [104, 105], signature: DsseSignature { sig: [1], keyid: KeyId { text: "k" } } }) key None 0"#;

#[test]
fn bundles(rt: HostRuntime) {
    hold(&rt, "bundle", MEDIA_TYPES);
    hold(&rt, "byte_ff", " => Json");
    hold(&rt, "material", MATERIALS);
    hold(&rt, "material", CERTIFICATES);
    hold(&rt, "signer", SIGNERS);
    hold(&rt, "content", CONTENTS);
    hold(&rt, "structure", STRUCTURES);
    hold(&rt, "over_hello", OVER_HELLO);
    hold(&rt, "over_envelope", OVER_ENVELOPE);
}
