// The parts of the fixture where its signer has a certificate, which is valid for ten minutes from 1700000000. Its bundle
// has a token at 1700000060 and the entry of `logged` over the certificate, with a promise at 1700000100; each window of
// the trust file begins at 1600000000. The run is at 1700001000.
use crate::keyless_data::{AUTHORITY, CERTIFICATE, CERTIFICATE_LOG, STAMPER, TOKEN};
use crate::logged;
use crate::tables::{Change, first, good, string, text};
use sigstore_types_parts::{DigestBytes, Text};
use std::process::Abort;

pub(crate) const WORDS: &str =
    "verify --root=a --repository=b --store=c --bundle=d --artifact=e --policy=f --provider=g --now=2023-11-14T22:30:00Z";

pub(crate) const POLICY: &str =
    "keyless;identity email a@example.com;issuer https://accounts.example.com";

const WINDOW: &str = r#""start":"2020-09-13T12:26:40Z""#;

// Whether the signer has a certificate.
pub(crate) fn is_keyless(change: Change) -> bool {
    change.keyless
}

// The trust file, whose log has this key.
pub(crate) fn trust<X: AllocGlobal + Abort>(rt: &X, key: &str) -> String {
    let text = format!(in rt.alloc();
        r#"{{"tlogs":[{{"logId":{{"keyId":"AQEBAQEBAQEBAQEBAQEBAQEBAQEBAQEBAQEBAQEBAQE="}},"publicKey":{{"rawBytes":"{key}","validFor":{{{WINDOW}}}}}}}],"ctlogs":[{CERTIFICATE_LOG}],"certificateAuthorities":[{{"certChain":{{"certificates":[{{"rawBytes":"{AUTHORITY}"}}]}},"validFor":{{{WINDOW}}}}}],"timestampAuthorities":[{STAMPER}]}}"#
    );
    good(rt, text)
}

// The text in which each `;` ends a line, and so does the end.
pub(crate) fn lines<X: AllocGlobal + Abort>(rt: &X, words: &str) -> String {
    let mut lines = string(rt, "");
    for line in words.split(';') {
        good(rt, lines.push_str(line));
        good(rt, lines.push('\n'));
    }
    lines
}

// The token in base64, or that of its first octets.
fn token<X: AllocGlobal + Abort>(rt: &X, change: Change) -> Text {
    let count = change.of("start of token", "");
    if count.is_empty() {
        return text(rt, TOKEN);
    }
    let whole = good(rt, DigestBytes::from_base64(rt.alloc(), TOKEN));
    let start = good(
        rt,
        DigestBytes::from_bytes(rt.alloc(), first(rt, whole.as_bytes(), count)),
    );
    drop(whole);
    let base64 = start.to_base64(rt.alloc());
    drop(start);
    good(rt, base64)
}

pub(crate) fn material<X: AllocGlobal + Abort>(rt: &X, change: Change) -> String {
    let (entries, token) = (logged::entries(rt), token(rt, change));
    let text = format!(in rt.alloc();
        r#""certificate":{{"rawBytes":"{CERTIFICATE}"}},"timestampVerificationData":{{"rfc3161Timestamps":[{{"signedTimestamp":"{token}"}}]}},{entries}"#
    );
    drop(entries);
    drop(token);
    good(rt, text)
}
