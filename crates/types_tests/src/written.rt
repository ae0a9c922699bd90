// Bundles as they are written, one a line: a text that is read, ` => ` and the text that is written of it, worked out
// by hand: members in the order of their names, no blanks, 64-bit numbers as texts, and nothing that isn't there.
// What is written is read again.
use crate::tables::{equals, good, hold};
use sigstore_types::*;
use std::process::Abort;

// A key that is known elsewhere and the digest of a message; a hint with a quote; an empty hint, and no hint.
const KEYS: &str =
    r#"{"verificationMaterial": {"timestampVerificationData": {}, "tlogEntries": [], "publicKey": {"hint": "k"}}, "other": [0], "messageSignature": {"signature": "AQ==", "messageDigest": {"digest": "LPJN", "algorithm": "sha256"}}, "mediaType": "application/vnd.dev.sigstore.bundle.v0.3+json"} => {"mediaType":"application/vnd.dev.sigstore.bundle.v0.3+json","messageSignature":{"messageDigest":{"algorithm":"SHA2_256","digest":"LPJN"},"signature":"AQ=="},"verificationMaterial":{"publicKey":{"hint":"k"}}}
{"verificationMaterial":{"publicKey":{"hint":"\u00e9\"\n"}},"messageSignature":{"signature":"","messageDigest":{"digest":"","algorithm":"SHA3_384"}},"mediaType":"application/vnd.dev.sigstore.bundle+json;version=0.1"} => {"mediaType":"application/vnd.dev.sigstore.bundle+json;version=0.1","messageSignature":{"messageDigest":{"algorithm":"SHA3_384","digest":""},"signature":""},"verificationMaterial":{"publicKey":{"hint":"é\"\n"}}}
{"verificationMaterial":{"publicKey":{"hint":""}},"messageSignature":{"signature":"AQ==","messageDigest":null},"mediaType":"application/vnd.dev.sigstore.bundle.v0.3+json"} => {"mediaType":"application/vnd.dev.sigstore.bundle.v0.3+json","messageSignature":{"signature":"AQ=="},"verificationMaterial":{"publicKey":{"hint":""}}}
{"verificationMaterial":{"publicKey":{"hint":null}},"messageSignature":{"signature":"AQ=="},"mediaType":"application/vnd.dev.sigstore.bundle.v0.3+json"} => {"mediaType":"application/vnd.dev.sigstore.bundle.v0.3+json","messageSignature":{"signature":"AQ=="},"verificationMaterial":{"publicKey":{}}}"#;

// A certificate with tokens.
const TOKENS: &str =
    r#"{"verificationMaterial":{"certificate":{"rawBytes":"AQI="},"timestampVerificationData":{"rfc3161Timestamps":[{"signedTimestamp":"Aw=="},{"signedTimestamp":""}]}},"messageSignature":{"signature":"AQ=="},"mediaType":"application/vnd.dev.sigstore.bundle.v0.3+json"} => {"mediaType":"application/vnd.dev.sigstore.bundle.v0.3+json","messageSignature":{"signature":"AQ=="},"verificationMaterial":{"certificate":{"rawBytes":"AQI="},"timestampVerificationData":{"rfc3161Timestamps":[{"signedTimestamp":"Aw=="},{"signedTimestamp":""}]}}}"#;

// An envelope under a chain, with an entry that has all its members, and with one that has those that are required.
const ENTRIES: &str =
    r#"{"verificationMaterial":{"tlogEntries":[{"logIndex":7,"logId":{"keyId":"AQI="},"kindVersion":{"version":"0.0.1","kind":"dsse"},"integratedTime":-1,"inclusionPromise":{"signedEntryTimestamp":"Aw=="},"inclusionProof":{"logIndex":"+1","treeSize":3,"rootHash":"AAAAAAAAAAAAAAAAAAAAAAAAAAAAAAAAAAAAAAAAAAA=","hashes":["AQEBAQEBAQEBAQEBAQEBAQEBAQEBAQEBAQEBAQEBAQE=","AAAAAAAAAAAAAAAAAAAAAAAAAAAAAAAAAAAAAAAAAAA="],"checkpoint":{"envelope":"o\n3\nAAAAAAAAAAAAAAAAAAAAAAAAAAAAAAAAAAAAAAAAAAA=\n\n\u2014 n AQIDBAUG\n"}},"canonicalizedBody":"e30="}],"x509CertificateChain":{"certificates":[{"rawBytes":"AQI="},{"rawBytes":"Aw=="}]}},"dsseEnvelope":{"payload":"aGk=","payloadType":"t","signatures":[{"sig":"AQ==","keyid":"k"}]},"mediaType":"application/vnd.dev.sigstore.bundle.v0.3+json"} => {"dsseEnvelope":{"payload":"aGk=","payloadType":"t","signatures":[{"keyid":"k","sig":"AQ=="}]},"mediaType":"application/vnd.dev.sigstore.bundle.v0.3+json","verificationMaterial":{"tlogEntries":[{"canonicalizedBody":"e30=","inclusionPromise":{"signedEntryTimestamp":"Aw=="},"inclusionProof":{"checkpoint":{"envelope":"o\n3\nAAAAAAAAAAAAAAAAAAAAAAAAAAAAAAAAAAAAAAAAAAA=\n\n— n AQIDBAUG\n"},"hashes":["AQEBAQEBAQEBAQEBAQEBAQEBAQEBAQEBAQEBAQEBAQE=","AAAAAAAAAAAAAAAAAAAAAAAAAAAAAAAAAAAAAAAAAAA="],"logIndex":"1","rootHash":"AAAAAAAAAAAAAAAAAAAAAAAAAAAAAAAAAAAAAAAAAAA=","treeSize":"3"},"integratedTime":"-1","kindVersion":{"kind":"dsse","version":"0.0.1"},"logId":{"keyId":"AQI="},"logIndex":"7"}],"x509CertificateChain":{"certificates":[{"rawBytes":"AQI="},{"rawBytes":"Aw=="}]}}}
{"verificationMaterial":{"tlogEntries":[{"logId":{"keyId":""},"kindVersion":{"kind":"hashedrekord","version":"0.0.2"},"integratedTime":"0","inclusionProof":{"rootHash":"AAAAAAAAAAAAAAAAAAAAAAAAAAAAAAAAAAAAAAAAAAA=","hashes":[],"checkpoint":{"envelope":""}},"canonicalizedBody":""},{"logIndex":"9223372036854775807","logId":{"keyId":""},"kindVersion":{"kind":"intoto","version":"0.0.2"},"integratedTime":"9223372036854775807","canonicalizedBody":""}],"publicKey":{}},"dsseEnvelope":{"payload":"","payloadType":"","signatures":[{"sig":"","keyid":""}]},"mediaType":"application/vnd.dev.sigstore.bundle.v0.3+json"} => {"dsseEnvelope":{"payload":"","payloadType":"","signatures":[{"sig":""}]},"mediaType":"application/vnd.dev.sigstore.bundle.v0.3+json","verificationMaterial":{"publicKey":{},"tlogEntries":[{"canonicalizedBody":"","inclusionProof":{"logIndex":"0","rootHash":"AAAAAAAAAAAAAAAAAAAAAAAAAAAAAAAAAAAAAAAAAAA=","treeSize":"0"},"kindVersion":{"kind":"hashedrekord","version":"0.0.2"},"logId":{"keyId":""},"logIndex":"0"},{"canonicalizedBody":"","integratedTime":"9223372036854775807","kindVersion":{"kind":"intoto","version":"0.0.2"},"logId":{"keyId":""},"logIndex":"9223372036854775807"}]}}"#;

/// What the bundle of a text is written as.
pub fn answer<X: AllocGlobal + Abort>(rt: &X, given: &str) -> String {
    written(rt, read(rt, given))
}

fn read<X: AllocGlobal + Abort>(rt: &X, text: &str) -> Bundle {
    good(rt, Bundle::from_json(rt.alloc(), text.as_bytes()))
}

fn written<X: AllocGlobal + Abort>(rt: &X, bundle: Bundle) -> String {
    let text = text_of(rt, &bundle);
    equals(rt, read(rt, text.as_str()), &bundle);
    drop(bundle);
    text
}

fn text_of<X: AllocGlobal + Abort>(rt: &X, bundle: &Bundle) -> String {
    let octets = good(rt, bundle.to_json(rt.alloc()));
    good(rt, String::from_utf8(octets.into_vec()))
}

#[test]
fn bundles_are_written(rt: HostRuntime) {
    hold(&rt, "written", KEYS);
    hold(&rt, "written", TOKENS);
    hold(&rt, "written", ENTRIES);
    entries_are_read_again();
    envelopes_are_read_again();
    bundles_are_read_again();
}
