// Whether entries are of signatures. A row has the key of who signed, what they signed, the entry's kind and version,
// its body and what is changed in it; each answer was worked out by hand from the table of what is compared.
use crate::words::{body, expanded, good, halves, hold, marked, place, printed, string};
use sigstore_binding::{
    HashedEnvelope, Signed, SignedBy, describe_entry, describes_exactly, refusals_have_causes,
};
use sigstore_entries::{KindVersion, LogId, LogIndex, TransparencyLogEntry};
use sigstore_envelopes::DsseEnvelope;
use sigstore_pem::PemArmor;
use sigstore_types_parts::{
    CanonicalizedBody, DerPublicKey, DigestBytes, FromValue, LogKeyId, SignatureBytes, TypesError,
    parse_json,
};
use std::process::Abort;
use std::rt::HostRuntime;

// As they were made.
const ACCEPTED: &str = "\
p256 message hashedrekord 0.0.1 rekord1 |  => accepted
p384 message hashedrekord 0.0.1 rekord1 |  => accepted
p256 message hashedrekord 0.0.2 rekord2 |  => accepted
p384 message hashedrekord 0.0.2 rekord2 |  => accepted
p256 envelope hashedrekord 0.0.2 of_envelope |  => accepted
p384 envelope hashedrekord 0.0.2 of_envelope |  => accepted
ed envelope hashedrekord 0.0.2 of_envelope |  => accepted
p256 envelope dsse 0.0.1 dsse1 |  => accepted
p384 envelope dsse 0.0.1 dsse1 |  => accepted
ed envelope dsse 0.0.1 dsse1 |  => accepted
p256 envelope dsse 0.0.1 dsse1 | <.key> ~ <.certificate> => accepted
p384 envelope dsse 0.0.1 dsse1 | <.key> ~ <.certificate> => accepted
ed envelope dsse 0.0.1 dsse1 | <.key> ~ <.certificate> => accepted
p256 envelope intoto 0.0.2 intoto2 |  => accepted
p384 envelope intoto 0.0.2 intoto2 |  => accepted
ed envelope intoto 0.0.2 intoto2 |  => accepted
p256 envelope intoto 0.0.2 intoto2 | <.key> ~ <.certificate> => accepted
p384 envelope intoto 0.0.2 intoto2 | <.key> ~ <.certificate> => accepted
ed envelope intoto 0.0.2 intoto2 | <.key> ~ <.certificate> => accepted";

// hashedrekord 0.0.1: the hash as hexadecimal, the armoured key, the signature.
const REKORD1: &str = r#"p256 message hashedrekord 0.0.1 rekord1 | <digest> ~ <DIGEST> => accepted
p256 message hashedrekord 0.0.1 rekord1 | <digest> ~ <nothing> => ArtifactMismatch
p256 message hashedrekord 0.0.1 rekord1 | <digest> ~ <digest.cut> => MalformedEntry
p256 message hashedrekord 0.0.1 rekord1 | <digest> ~ <digest>00 => MalformedEntry
p256 message hashedrekord 0.0.1 rekord1 | <digest> ~ <digest.sha384> => MalformedEntry
p256 message hashedrekord 0.0.1 rekord1 | <digest> ~ <digest.cut>0 => MalformedEntry
p256 message hashedrekord 0.0.1 rekord1 | <digest> ~ <digest.cut>0x => MalformedEntry
p256 message hashedrekord 0.0.1 rekord1 | "<digest>" ~ " <digest>" => MalformedEntry
p256 message hashedrekord 0.0.1 rekord1 | <digest> ~ <digest.bytes> => MalformedEntry
p256 message hashedrekord 0.0.1 rekord1 | <digest> ~  => MalformedEntry
p256 message hashedrekord 0.0.1 rekord1 | sha256 ~ sha512 => accepted
p256 message hashedrekord 0.0.1 rekord1 | sha256 ~ SHA2_256 => accepted
p256 message hashedrekord 0.0.1 rekord1 | sha256 ~ md5 => MalformedEntry
p256 message hashedrekord 0.0.1 rekord1 | <.key> ~ <other.key> => EntryMismatch
p256 message hashedrekord 0.0.1 rekord1 | <.key> ~ <ed.key> => EntryMismatch
p256 message hashedrekord 0.0.1 rekord1 | <.key> ~ <.both> => accepted
p256 message hashedrekord 0.0.1 rekord1 | <.key> ~ <.certificate> => MalformedEntry
p256 message hashedrekord 0.0.1 rekord1 | <.key> ~ <.private> => MalformedEntry
p256 message hashedrekord 0.0.1 rekord1 | <.key> ~ <.der> => MalformedEntry
p256 message hashedrekord 0.0.1 rekord1 | <.key> ~ <text> => MalformedEntry
p256 message hashedrekord 0.0.1 rekord1 | <.key> ~  => MalformedEntry
p256 message hashedrekord 0.0.1 rekord1 | <.message> ~ <other.message> => EntryMismatch
p256 message hashedrekord 0.0.1 rekord1 | <.message> ~ <.envelope> => EntryMismatch
p256 message hashedrekord 0.0.1 rekord1 | <.message> ~ <.message.twice> => EntryMismatch
p256 message hashedrekord 0.0.1 rekord1 | <.message> ~  => EntryMismatch
p256 message hashedrekord 0.0.1 rekord1 | <.message> ~ <.message>= => MalformedEntry
p256 message hashedrekord 0.0.1 rekord1 | "kind":"hashedrekord" ~ "kind":"dsse" => accepted
p256 message hashedrekord 0.0.1 rekord1 | "0.0.1" ~ 1.5 => MalformedEntry
p256 message hashedrekord 0.0.1 rekord1 | "spec" ~ "s" => MalformedEntry
p256 message hashedrekord 0.0.1 text | X ~ { => MalformedEntry
p256 message hashedrekord 0.0.1 rekord1 | <digest> ~ <nothing> ; <.key> ~ <text> => ArtifactMismatch
p256 message hashedrekord 0.0.1 rekord1 | <digest> ~ <digest.cut> ; <.key> ~ <other.key> => MalformedEntry
p256 message hashedrekord 0.0.1 rekord1 | <.key> ~ <text> ; <.message> ~ <other.message> => MalformedEntry
p256 message hashedrekord 0.0.1 rekord1 | <.key> ~ <other.key> ; <.message> ~ <other.message> => EntryMismatch
p256 message hashedrekord 0.0.1 rekord1 | <digest> ~ <nothing> ; <.message> ~ ! => MalformedEntry
p256 undigested hashedrekord 0.0.1 rekord1 |  => ArtifactMismatch
p256 undigested hashedrekord 0.0.1 rekord1 | <digest> ~ <digest.cut> => MalformedEntry
p256 undigested hashedrekord 0.0.1 rekord1 | <.key> ~ <text> => ArtifactMismatch
other message hashedrekord 0.0.1 rekord1 | <.key> ~ <p256.key> => EntryMismatch"#;

// hashedrekord 0.0.2: the algorithm, the digest, the key in DER, the signature.
const REKORD2: &str = r#"p256 message hashedrekord 0.0.2 rekord2 | SHA2_256 ~ sha256 => accepted
p256 message hashedrekord 0.0.2 rekord2 | SHA2_256 ~ SHA2_512 => Unsupported
p256 message hashedrekord 0.0.2 rekord2 | SHA2_256 ~ SHA3_256 => Unsupported
p256 message hashedrekord 0.0.2 rekord2 | SHA2_256 ~ SHA1 => MalformedEntry
p256 message hashedrekord 0.0.2 rekord2 | <digest.bytes> ~ <nothing.bytes> => ArtifactMismatch
p256 message hashedrekord 0.0.2 rekord2 | <digest.bytes> ~ <digest.bytes.cut> => MalformedEntry
p256 message hashedrekord 0.0.2 rekord2 | <digest.bytes> ~ <digest> => MalformedEntry
p256 message hashedrekord 0.0.2 rekord2 | <digest.bytes> ~ <digest.sha384.bytes> => MalformedEntry
p256 message hashedrekord 0.0.2 rekord2 | SHA2_256 ~ SHA2_384 ; <digest.bytes> ~ <digest.sha384.bytes> => Unsupported
p256 message hashedrekord 0.0.2 rekord2 | <digest.bytes> ~  => MalformedEntry
p256 message hashedrekord 0.0.2 rekord2 | <.der> ~ <other.der> => EntryMismatch
p256 message hashedrekord 0.0.2 rekord2 | <.der> ~ <.key> => EntryMismatch
p256 message hashedrekord 0.0.2 rekord2 | "publicKey":{"rawBytes":"<.der>"} ~ "x509Certificate":{"rawBytes":"<.certificate.der>"} => EntryMismatch
p256 message hashedrekord 0.0.2 rekord2 | "publicKey":{"rawBytes":"<.der>"} ~ "publicKey":{"rawBytes":"<.certificate.der>"} => EntryMismatch
p256 message hashedrekord 0.0.2 rekord2 | "publicKey":{"rawBytes":"<.der>"} ~ "publicKey":null => EntryMismatch
p256 message hashedrekord 0.0.2 rekord2 | "publicKey" ~ "x509Certificate":{"rawBytes":"<other.certificate.der>"},"publicKey" => accepted
p256 message hashedrekord 0.0.2 rekord2 | "publicKey" ~ "x509Certificate":{"rawBytes":"!"},"publicKey" => MalformedEntry
p256 message hashedrekord 0.0.2 rekord2 | P256_SHA_256 ~ P384_SHA_384 => MalformedEntry
p256 message hashedrekord 0.0.2 rekord2 | <.message> ~ <other.message> => EntryMismatch
p256 message hashedrekord 0.0.2 rekord2 | <.message> ~  => EntryMismatch
p256 message hashedrekord 0.0.2 rekord2 | SHA2_256 ~ SHA2_512 ; <digest.bytes> ~ <digest.bytes.cut> => Unsupported
p256 message hashedrekord 0.0.2 rekord2 | <digest.bytes> ~ <digest.bytes.cut> ; <.der> ~ <other.der> => MalformedEntry
p256 message hashedrekord 0.0.2 rekord2 | <digest.bytes> ~ <nothing.bytes> ; <.der> ~ <other.der> => ArtifactMismatch
p256 message hashedrekord 0.0.2 rekord2 | SHA2_256 ~ SHA2_512 ; "content" ~ "c" => MalformedEntry
p256 undigested hashedrekord 0.0.2 rekord2 |  => ArtifactMismatch
p256 undigested hashedrekord 0.0.2 rekord2 | SHA2_256 ~ SHA2_512 => Unsupported
p256 message hashedrekord 0.0.2 of_envelope |  => ArtifactMismatch
p256 message hashedrekord 0.0.2 of_envelope | <encoding.bytes> ~ <digest.bytes> => EntryMismatch
p256 envelope hashedrekord 0.0.2 rekord2 |  => ArtifactMismatch
p256 envelope hashedrekord 0.0.2 of_envelope | <encoding.bytes> ~ <payload.digest.bytes> => ArtifactMismatch
p256 envelope hashedrekord 0.0.2 of_envelope | <encoding.bytes> ~ <encoding.bytes.cut> => MalformedEntry
p256 envelope hashedrekord 0.0.2 of_envelope | SHA2_256 ~ SHA2_384 => Unsupported
p256 envelope hashedrekord 0.0.2 of_envelope | <.der> ~ <other.der> => EntryMismatch
p256 envelope hashedrekord 0.0.2 of_envelope | "publicKey":{"rawBytes":"<.der>"} ~ "x509Certificate":{"rawBytes":"<.certificate.der>"} => EntryMismatch
p256 envelope hashedrekord 0.0.2 of_envelope | <.envelope> ~ <.message> => EntryMismatch
p256 envelope hashedrekord 0.0.2 of_envelope | <.envelope> ~ <other.envelope> => EntryMismatch
p256 envelope hashedrekord 0.0.2 of_envelope | <.envelope> ~ <.envelope.twice> => EntryMismatch"#;

// dsse 0.0.1: the algorithm, the payload's hash as a text, the number of signatures, the signature, the key.
const DSSE1: &str =
    r#"p256 envelope dsse 0.0.1 dsse1 | "payloadHash":{"algorithm":"sha256" ~ "payloadHash":{"algorithm":"SHA2_256" => accepted
p256 envelope dsse 0.0.1 dsse1 | "payloadHash":{"algorithm":"sha256" ~ "payloadHash":{"algorithm":"sha384" => Unsupported
p256 envelope dsse 0.0.1 dsse1 | "payloadHash":{"algorithm":"sha256" ~ "payloadHash":{"algorithm":"md5" => MalformedEntry
p256 envelope dsse 0.0.1 dsse1 | "envelopeHash":{"algorithm":"sha256" ~ "envelopeHash":{"algorithm":"sha512" => accepted
p256 envelope dsse 0.0.1 dsse1 | "envelopeHash":{"algorithm":"sha256" ~ "envelopeHash":{"algorithm":"md5" => MalformedEntry
p256 envelope dsse 0.0.1 dsse1 | <nothing> ~ no digits => accepted
p256 envelope dsse 0.0.1 dsse1 | <payload.digest> ~ <PAYLOAD.DIGEST> => EntryMismatch
p256 envelope dsse 0.0.1 dsse1 | <payload.digest> ~ <encoding> => EntryMismatch
p256 envelope dsse 0.0.1 dsse1 | <payload.digest> ~ <payload.digest.cut> => EntryMismatch
p256 envelope dsse 0.0.1 dsse1 | <payload.digest> ~ no digits => EntryMismatch
p256 envelope dsse 0.0.1 dsse1 | <payload.digest> ~  => EntryMismatch
p256 envelope dsse 0.0.1 dsse1 | <.envelope> ~ <other.envelope> => EntryMismatch
p256 envelope dsse 0.0.1 dsse1 | <.envelope> ~ <.message> => EntryMismatch
p256 envelope dsse 0.0.1 dsse1 | <.envelope> ~ <.envelope.twice> => EntryMismatch
p256 envelope dsse 0.0.1 dsse1 | <.envelope> ~ <.envelope>* => MalformedEntry
p256 envelope dsse 0.0.1 dsse1 | <.key> ~ <other.key> => EntryMismatch
p256 envelope dsse 0.0.1 dsse1 | <.key> ~ <other.certificate> => EntryMismatch
p256 envelope dsse 0.0.1 dsse1 | <.key> ~ <.both> => accepted
p256 envelope dsse 0.0.1 dsse1 | <.key> ~ <.private> => MalformedEntry
p256 envelope dsse 0.0.1 dsse1 | <.key> ~ <text> => MalformedEntry
p256 envelope dsse 0.0.1 dsse1 | <.key> ~ <unread> => MalformedEntry
p256 envelope dsse 0.0.1 dsse1 | <.key> ~ <.certificate.der> => MalformedEntry
p256 envelope dsse 0.0.1 dsse1 | {"signature":"<.envelope>","verifier":"<.key>"} ~  => EntryMismatch
p256 envelope dsse 0.0.1 dsse1 | "signatures":[ ~ "signatures":[{"signature":"<.envelope>","verifier":"<.key>"}, => EntryMismatch
p256 envelope dsse 0.0.1 dsse1 | "signatures":[ ~ "signatures":[{"signature":"<other.envelope>","verifier":"<text>"}, => EntryMismatch
p256 envelope dsse 0.0.1 dsse1 | "payloadHash":{"algorithm":"sha256" ~ "payloadHash":{"algorithm":"sha384" ; "signatures":[ ~ "signatures":[{"signature":"","verifier":""}, => Unsupported
p256 envelope dsse 0.0.1 dsse1 | "payloadHash":{"algorithm":"sha256" ~ "payloadHash":{"algorithm":"sha384" ; <payload.digest> ~ <nothing> => Unsupported
p256 envelope dsse 0.0.1 dsse1 | <payload.digest> ~ <nothing> ; <.key> ~ <text> => EntryMismatch
p256 envelope dsse 0.0.1 dsse1 | <.envelope> ~ <other.envelope> ; <.key> ~ <text> => EntryMismatch
other envelope dsse 0.0.1 dsse1 | <.key> ~ <p256.key> ; <.envelope> ~ <p256.envelope> => EntryMismatch"#;

// intoto 0.0.2: the algorithm, the payload's hash as hexadecimal, the payload type, the number of signatures, the
// signature in base64 once more, the key.
const INTOTO2: &str =
    r#"p256 envelope intoto 0.0.2 intoto2 | "payloadHash":{"algorithm":"sha256" ~ "payloadHash":{"algorithm":"SHA2_256" => accepted
p256 envelope intoto 0.0.2 intoto2 | "payloadHash":{"algorithm":"sha256" ~ "payloadHash":{"algorithm":"sha512" => Unsupported
p256 envelope intoto 0.0.2 intoto2 | "hash":{"algorithm":"sha256" ~ "hash":{"algorithm":"sha512" => accepted
p256 envelope intoto 0.0.2 intoto2 | "hash" ~ "h" => MalformedEntry
p256 envelope intoto 0.0.2 intoto2 | <nothing> ~ no digits => accepted
p256 envelope intoto 0.0.2 intoto2 | <payload.digest> ~ <PAYLOAD.DIGEST> => accepted
p256 envelope intoto 0.0.2 intoto2 | <payload.digest> ~ <encoding> => EntryMismatch
p256 envelope intoto 0.0.2 intoto2 | <payload.digest> ~ <payload.digest.cut> => EntryMismatch
p256 envelope intoto 0.0.2 intoto2 | <payload.digest> ~  => EntryMismatch
p256 envelope intoto 0.0.2 intoto2 | <payload.digest> ~ no digits => MalformedEntry
p256 envelope intoto 0.0.2 intoto2 | <payload.digest> ~ <payload.digest>0 => MalformedEntry
p256 envelope intoto 0.0.2 intoto2 | in-toto+json ~ in-toto => EntryMismatch
p256 envelope intoto 0.0.2 intoto2 | in-toto+json ~ In-Toto+json => EntryMismatch
p256 envelope intoto 0.0.2 intoto2 | application/vnd ~ application\u002fvnd => accepted
p256 envelope intoto 0.0.2 intoto2 | <.envelope.twice> ~ <.envelope> => MalformedEntry
p256 envelope intoto 0.0.2 intoto2 | <.envelope.twice> ~ <other.envelope.twice> => EntryMismatch
p256 envelope intoto 0.0.2 intoto2 | <.envelope.twice> ~ <.message.twice> => EntryMismatch
p256 envelope intoto 0.0.2 intoto2 | <.envelope.twice> ~  => EntryMismatch
p256 envelope intoto 0.0.2 intoto2 | <.envelope.twice> ~ <text> => MalformedEntry
p256 envelope intoto 0.0.2 intoto2 | <.key> ~ <other.key> => EntryMismatch
p256 envelope intoto 0.0.2 intoto2 | <.key> ~ <other.certificate> => EntryMismatch
p256 envelope intoto 0.0.2 intoto2 | <.key> ~ <.both> => accepted
p256 envelope intoto 0.0.2 intoto2 | <.key> ~ <.private> => MalformedEntry
p256 envelope intoto 0.0.2 intoto2 | <.key> ~ <text> => MalformedEntry
p256 envelope intoto 0.0.2 intoto2 | <.key> ~ <unread> => MalformedEntry
p256 envelope intoto 0.0.2 intoto2 | "publicKey" ~ "keyid":"k","publicKey" => accepted
p256 envelope intoto 0.0.2 intoto2 | "signatures":[ ~ "signatures":[{"publicKey":"<.key>","sig":"<.envelope.twice>"}, => EntryMismatch
p256 envelope intoto 0.0.2 intoto2 | {"publicKey":"<.key>","sig":"<.envelope.twice>"} ~  => EntryMismatch
p256 envelope intoto 0.0.2 intoto2 | "signatures":[ ~ "signatures":[{"publicKey":"","sig":""}, ; <payload.digest> ~ no digits => MalformedEntry
p256 envelope intoto 0.0.2 intoto2 | "payloadHash":{"algorithm":"sha256" ~ "payloadHash":{"algorithm":"sha512" ; <payload.digest> ~ no digits => Unsupported
p256 envelope intoto 0.0.2 intoto2 | in-toto+json ~ in-toto ; <payload.digest> ~ no digits => MalformedEntry
p256 envelope intoto 0.0.2 intoto2 | in-toto+json ~ in-toto ; <.envelope.twice> ~ <.envelope> => EntryMismatch
p256 envelope intoto 0.0.2 intoto2 | <.envelope.twice> ~ <.envelope> ; <.key> ~ <other.key> => MalformedEntry
p256 envelope intoto 0.0.2 intoto2 | <.envelope.twice> ~ <other.envelope.twice> ; <.key> ~ <text> => EntryMismatch"#;

// Bodies under other kinds, and kinds that aren't compared with what was signed, whose bodies aren't looked at.
const KINDS: &str = r#"p256 message hashedrekord 0.0.1 dsse1 |  => MalformedEntry
p256 message hashedrekord 0.0.1 rekord2 |  => MalformedEntry
p256 message hashedrekord 0.0.2 rekord1 |  => MalformedEntry
p256 message hashedrekord 0.0.2 dsse2 |  => MalformedEntry
p256 message dsse 0.0.1 dsse1 |  => Unsupported
p256 message dsse 0.0.1 rekord1 |  => Unsupported
p256 message dsse 0.0.2 dsse2 |  => Unsupported
p256 message intoto 0.0.2 intoto2 |  => Unsupported
p256 message intoto 0.0.2 text | X ~ { => Unsupported
p256 undigested dsse 0.0.1 text | X ~ { => Unsupported
p256 envelope hashedrekord 0.0.1 rekord1 |  => Unsupported
p256 envelope hashedrekord 0.0.1 text | X ~ { => Unsupported
p256 envelope hashedrekord 0.0.2 dsse1 |  => MalformedEntry
p256 envelope hashedrekord 0.0.2 rekord1 |  => MalformedEntry
p256 envelope dsse 0.0.1 rekord1 |  => MalformedEntry
p256 envelope dsse 0.0.1 dsse2 |  => MalformedEntry
p256 envelope dsse 0.0.1 intoto2 |  => MalformedEntry
p256 envelope dsse 0.0.2 dsse2 |  => Unsupported
p256 envelope dsse 0.0.2 text | X ~ { => Unsupported
p256 envelope intoto 0.0.2 dsse1 |  => MalformedEntry
p256 envelope intoto 0.0.2 text | X ~ [] => MalformedEntry"#;

// Whether the envelope is kept, the digests of its payload and of its encoding, and how long that is.
const DIGESTS: &str = r#"p256 => (true, "<payload.digest>", "<encoding>", 138)"#;

// The envelope of a key.
const ENVELOPE: &str =
    r#"{"payload":"<payload>","payloadType":"application/vnd.in-toto+json","signatures":[{"sig":"<.envelope>"}]}"#;

/// An entry without a time, of the kind, the version and the body that a row tells for a key.
pub fn entry<X: AllocGlobal + Abort>(rt: &X, given: &str, key: &str) -> TransparencyLogEntry {
    let (kind, rest) = halves(rt, given, " ");
    let (version, rest) = halves(rt, rest, " ");
    let kind_version = good(rt, KindVersion::named(kind, version));
    let text = body(rt, rest, key);
    let logged = CanonicalizedBody::from_bytes(rt.alloc(), text.as_bytes());
    drop(text);
    TransparencyLogEntry {
        log_index: good(rt, LogIndex::new(7)),
        log_id: LogId {
            key_id: good(rt, LogKeyId::from_bytes(rt.alloc(), &[1])),
        },
        kind_version,
        integrated_time: None,
        inclusion_promise: None,
        inclusion_proof: None,
        canonicalized_body: good(rt, logged),
    }
}

fn told<X: AllocGlobal + Abort>(
    rt: &X,
    who: SignedBy<'_>,
    signed: Signed<'_>,
    entry: &TransparencyLogEntry,
) -> String {
    match describe_entry(rt.alloc(), &PemArmor, who, signed, entry) {
        Ok(()) => string(rt, "accepted"),
        Err(refusal) => printed(rt, refusal),
    }
}

/// The key of a name.
pub fn key_of<X: AllocGlobal + Abort>(rt: &X, name: &str) -> DerPublicKey {
    let text = expanded(rt, "<.der>", name);
    good(rt, DerPublicKey::from_base64(rt.alloc(), text.as_str()))
}

/// The signature over the message of a name.
pub fn signature_of<X: AllocGlobal + Abort>(rt: &X, name: &str) -> SignatureBytes {
    let text = expanded(rt, "<.message>", name);
    good(rt, SignatureBytes::from_base64(rt.alloc(), text.as_str()))
}

fn digest<X: AllocGlobal + Abort>(rt: &X) -> DigestBytes {
    let text = expanded(rt, "<digest.bytes>", "p256");
    good(rt, DigestBytes::from_base64(rt.alloc(), text.as_str()))
}

/// The envelope of a name.
pub fn envelope_of<X: AllocGlobal + Abort>(rt: &X, name: &str) -> DsseEnvelope {
    let text = expanded(rt, ENVELOPE, name);
    let value = good(rt, parse_json(rt.alloc(), text.as_bytes()));
    let envelope: Result<DsseEnvelope, TypesError> = FromValue::from_value(rt.alloc(), &value);
    drop((text, value));
    good(rt, envelope)
}

fn of_message<X: AllocGlobal + Abort>(
    rt: &X,
    who: SignedBy<'_>,
    name: &str,
    entry: &TransparencyLogEntry,
) -> String {
    let (signature, digest) = (signature_of(rt, name), digest(rt));
    let signed = Signed::Message {
        digest: Some(digest.as_bytes()),
        signature: &signature,
    };
    let answer = told(rt, who, signed, entry);
    drop((signature, digest));
    answer
}

fn of_undigested<X: AllocGlobal + Abort>(
    rt: &X,
    who: SignedBy<'_>,
    name: &str,
    entry: &TransparencyLogEntry,
) -> String {
    let signature = signature_of(rt, name);
    let signed = Signed::Message {
        digest: None,
        signature: &signature,
    };
    let answer = told(rt, who, signed, entry);
    drop(signature);
    answer
}

fn of_envelope<X: AllocGlobal + Abort>(
    rt: &X,
    who: SignedBy<'_>,
    name: &str,
    entry: &TransparencyLogEntry,
) -> String {
    let envelope = envelope_of(rt, name);
    let hashed = good(rt, HashedEnvelope::new(rt.alloc(), &envelope));
    let answer = told(rt, who, Signed::Envelope(&hashed), entry);
    drop(hashed);
    drop(envelope);
    answer
}

/// Whether an entry is of somebody's signature: the one that a name made over what this word says.
pub fn described_by<X: AllocGlobal + Abort>(
    rt: &X,
    who: SignedBy<'_>,
    name: &str,
    what: &str,
    entry: &TransparencyLogEntry,
) -> String {
    match place(what, "message undigested envelope") {
        0 => of_message(rt, who, name, entry),
        1 => of_undigested(rt, who, name, entry),
        2 => of_envelope(rt, who, name, entry),
        _ => string(rt, "nothing signed"),
    }
}

/// Whether an entry is of a signature by a key.
pub fn described<X: AllocGlobal + Abort>(rt: &X, given: &str) -> String {
    let (name, rest) = halves(rt, given, " ");
    let (what, rest) = halves(rt, rest, " ");
    let (entry, key) = (entry(rt, rest, name), key_of(rt, name));
    let answer = described_by(rt, SignedBy::Key(&key), name, what, &entry);
    drop((entry, key));
    answer
}

/// What an envelope's digests are, and what its signature is over, in base64.
pub fn digests<X: AllocGlobal + Abort>(rt: &X, name: &str) -> String {
    let envelope = envelope_of(rt, name);
    let hashed = good(rt, HashedEnvelope::new(rt.alloc(), &envelope));
    let is_same = hashed.envelope() == &envelope;
    let digests = (
        is_same,
        good(rt, hashed.payload_digest().to_hex(rt.alloc())),
        good(rt, hashed.encoding_digest().to_hex(rt.alloc())),
        hashed.encoding().len(),
    );
    drop(hashed);
    drop(envelope);
    marked(rt, printed(rt, digests))
}

#[test]
fn entries_are_described(rt: HostRuntime) {
    describes_exactly();
    refusals_have_causes();
    hold(
        &rt,
        &[
            ("described", ACCEPTED),
            ("described", REKORD1),
            ("described", REKORD2),
            ("described", DSSE1),
            ("described", INTOTO2),
            ("described", KINDS),
            ("digests", DIGESTS),
        ],
    );
}
