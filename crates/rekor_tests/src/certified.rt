// Whether entries are of the signatures of a certificate's subject, and when they were logged. A row has who signed (the
// `key` alone, or the `certificate`, which is valid from 1700000000 to 1700000600 seconds), when the entry was logged
// (`-` for no time, and `+` behind one that is promised), and then what rows of keys have. Each answer was worked out by
// hand from the table of what is compared.
use crate::entries::{described_by, entry, key_of};
use crate::words::{expanded, good, halves, hold};
use sigstore_binding::SignedBy;
use sigstore_entries::TransparencyLogEntry;
use sigstore_types_parts::{DerCertificate, SignedTimestamp, TimeRange, at_second};
use std::process::Abort;
use std::rt::HostRuntime;

// With the certificate in the place of the key, of each kind of key.
const ACCEPTED: &str =
    r#"certificate p256 - message hashedrekord 0.0.1 rekord1 | <.key> ~ <.certificate> => accepted
certificate p384 - message hashedrekord 0.0.1 rekord1 | <.key> ~ <.certificate> => accepted
certificate p256 - message hashedrekord 0.0.2 rekord2 | "publicKey":{"rawBytes":"<.der>"} ~ "x509Certificate":{"rawBytes":"<.certificate.der>"} => accepted
certificate p384 - message hashedrekord 0.0.2 rekord2 | "publicKey":{"rawBytes":"<.der>"} ~ "x509Certificate":{"rawBytes":"<.certificate.der>"} => accepted
certificate p256 - envelope hashedrekord 0.0.2 of_envelope | "publicKey":{"rawBytes":"<.der>"} ~ "x509Certificate":{"rawBytes":"<.certificate.der>"} => accepted
certificate ed - envelope hashedrekord 0.0.2 of_envelope | "publicKey":{"rawBytes":"<.der>"} ~ "x509Certificate":{"rawBytes":"<.certificate.der>"} => accepted
certificate p256 - envelope dsse 0.0.1 dsse1 | <.key> ~ <.certificate> => accepted
certificate ed - envelope dsse 0.0.1 dsse1 | <.key> ~ <.certificate> => accepted
certificate p256 - envelope intoto 0.0.2 intoto2 | <.key> ~ <.certificate> => accepted
certificate p384 - envelope intoto 0.0.2 intoto2 | <.key> ~ <.certificate> => accepted
certificate ed - envelope intoto 0.0.2 intoto2 | <.key> ~ <.certificate> => accepted"#;

// hashedrekord 0.0.1: the armoured certificate, whole; a key alone is no certificate.
const REKORD1: &str =
    r#"certificate p256 - message hashedrekord 0.0.1 rekord1 | <.key> ~ <.second> => EntryMismatch
certificate p256 - message hashedrekord 0.0.1 rekord1 | <.key> ~ <other.certificate> => EntryMismatch
certificate p256 - message hashedrekord 0.0.1 rekord1 | <.key> ~ <unread> => EntryMismatch
certificate p256 - message hashedrekord 0.0.1 rekord1 | <.key> ~ <.chain> => accepted
certificate p256 - message hashedrekord 0.0.1 rekord1 | <.key> ~ <.both> => MalformedEntry
certificate p256 - message hashedrekord 0.0.1 rekord1 |  => MalformedEntry
certificate p256 - message hashedrekord 0.0.1 rekord1 | <.key> ~ <other.key> => MalformedEntry
certificate p256 - message hashedrekord 0.0.1 rekord1 | <.key> ~ <.private> => MalformedEntry
certificate p256 - message hashedrekord 0.0.1 rekord1 | <.key> ~ <.certificate.der> => MalformedEntry
certificate p256 - message hashedrekord 0.0.1 rekord1 | <.key> ~ <text> => MalformedEntry
certificate p256 - message hashedrekord 0.0.1 rekord1 | <.key> ~  => MalformedEntry
certificate p256 - message hashedrekord 0.0.1 rekord1 | <.key> ~ <.certificate> ; <digest> ~ <nothing> => ArtifactMismatch
certificate p256 - message hashedrekord 0.0.1 rekord1 | <digest> ~ <nothing> => ArtifactMismatch
certificate p256 - message hashedrekord 0.0.1 rekord1 | <.key> ~ <.certificate> ; <.message> ~ <other.message> => EntryMismatch
certificate p256 - message hashedrekord 0.0.1 rekord1 | <.message> ~ <other.message> => MalformedEntry
certificate p256 - undigested hashedrekord 0.0.1 rekord1 | <.key> ~ <.certificate> => ArtifactMismatch
certificate other - message hashedrekord 0.0.1 rekord1 | <.key> ~ <p256.certificate> => EntryMismatch"#;

// hashedrekord 0.0.2: the certificate in DER, whole; a key beside it isn't looked at, and one in its place is none.
const REKORD2: &str = r#"certificate p256 - message hashedrekord 0.0.2 rekord2 |  => EntryMismatch
certificate p256 - message hashedrekord 0.0.2 rekord2 | "publicKey":{"rawBytes":"<.der>"} ~ "x509Certificate":{"rawBytes":"<.second.der>"} => EntryMismatch
certificate p256 - message hashedrekord 0.0.2 rekord2 | "publicKey":{"rawBytes":"<.der>"} ~ "x509Certificate":{"rawBytes":"<other.certificate.der>"} => EntryMismatch
certificate p256 - message hashedrekord 0.0.2 rekord2 | "publicKey":{"rawBytes":"<.der>"} ~ "x509Certificate":{"rawBytes":"<.certificate>"} => EntryMismatch
certificate p256 - message hashedrekord 0.0.2 rekord2 | "publicKey":{"rawBytes":"<.der>"} ~ "x509Certificate":{"rawBytes":"<.der>"} => EntryMismatch
certificate p256 - message hashedrekord 0.0.2 rekord2 | "publicKey":{"rawBytes":"<.der>"} ~ "x509Certificate":null => EntryMismatch
certificate p256 - message hashedrekord 0.0.2 rekord2 | "publicKey" ~ "x509Certificate":{"rawBytes":"<.certificate.der>"},"publicKey" => accepted
certificate p256 - message hashedrekord 0.0.2 rekord2 | "publicKey":{"rawBytes":"<.der>"} ~ "x509Certificate":{"rawBytes":"<.certificate.der>"},"publicKey":{"rawBytes":"<other.der>"} => accepted
certificate p256 - message hashedrekord 0.0.2 rekord2 | "publicKey" ~ "x509Certificate":{"rawBytes":"<.second.der>"},"publicKey" => EntryMismatch
certificate p256 - message hashedrekord 0.0.2 rekord2 | "publicKey":{"rawBytes":"<.der>"} ~ "x509Certificate":{"rawBytes":"!"} => MalformedEntry
certificate p256 - message hashedrekord 0.0.2 rekord2 | SHA2_256 ~ SHA2_512 => Unsupported
certificate p256 - message hashedrekord 0.0.2 rekord2 | <digest.bytes> ~ <nothing.bytes> => ArtifactMismatch
certificate p256 - message hashedrekord 0.0.2 rekord2 | "publicKey":{"rawBytes":"<.der>"} ~ "x509Certificate":{"rawBytes":"<.certificate.der>"} ; <.message> ~ <other.message> => EntryMismatch
certificate p256 - envelope hashedrekord 0.0.2 of_envelope |  => EntryMismatch
certificate p256 - envelope hashedrekord 0.0.2 of_envelope | "publicKey":{"rawBytes":"<.der>"} ~ "x509Certificate":{"rawBytes":"<.second.der>"} => EntryMismatch
certificate p256 - envelope hashedrekord 0.0.2 of_envelope | "publicKey":{"rawBytes":"<.der>"} ~ "x509Certificate":{"rawBytes":"<.certificate.der>"} ; <.envelope> ~ <other.envelope> => EntryMismatch
key p256 - message hashedrekord 0.0.2 rekord2 | "publicKey":{"rawBytes":"<.der>"} ~ "x509Certificate":{"rawBytes":"<.certificate.der>"} => EntryMismatch"#;

// dsse 0.0.1: the armoured certificate, whole.
const DSSE1: &str =
    r#"certificate p256 - envelope dsse 0.0.1 dsse1 | <.key> ~ <.second> => EntryMismatch
certificate p256 - envelope dsse 0.0.1 dsse1 | <.key> ~ <other.certificate> => EntryMismatch
certificate p256 - envelope dsse 0.0.1 dsse1 | <.key> ~ <.both> => MalformedEntry
certificate p256 - envelope dsse 0.0.1 dsse1 | <.key> ~ <.chain> => accepted
certificate p256 - envelope dsse 0.0.1 dsse1 | <.key> ~ <unread> => EntryMismatch
certificate p256 - envelope dsse 0.0.1 dsse1 |  => MalformedEntry
certificate p256 - envelope dsse 0.0.1 dsse1 | <.key> ~ <other.key> => MalformedEntry
certificate p256 - envelope dsse 0.0.1 dsse1 | <.key> ~ <.private> => MalformedEntry
certificate p256 - envelope dsse 0.0.1 dsse1 | <.key> ~ <text> => MalformedEntry
certificate p256 - envelope dsse 0.0.1 dsse1 | <.key> ~ <.certificate.der> => MalformedEntry
certificate p256 - envelope dsse 0.0.1 dsse1 | <.envelope> ~ <other.envelope> => EntryMismatch
certificate p256 - envelope dsse 0.0.1 dsse1 | <.key> ~ <.certificate> ; <payload.digest> ~ <nothing> => EntryMismatch
certificate p256 - envelope dsse 0.0.1 dsse1 | <.key> ~ <.certificate> ; "signatures":[ ~ "signatures":[{"signature":"<.envelope>","verifier":"<.certificate>"}, => EntryMismatch
key p256 - envelope dsse 0.0.1 dsse1 | <.key> ~ <.second> => accepted"#;

// intoto 0.0.2: the key, of an armoured certificate or of an armoured key.
const INTOTO2: &str =
    r#"certificate p256 - envelope intoto 0.0.2 intoto2 | <.key> ~ <.second> => accepted
certificate p256 - envelope intoto 0.0.2 intoto2 |  => accepted
certificate p256 - envelope intoto 0.0.2 intoto2 | <.key> ~ <.both> => accepted
certificate p256 - envelope intoto 0.0.2 intoto2 | <.key> ~ <other.certificate> => EntryMismatch
certificate p256 - envelope intoto 0.0.2 intoto2 | <.key> ~ <other.key> => EntryMismatch
certificate p256 - envelope intoto 0.0.2 intoto2 | <.key> ~ <.private> => MalformedEntry
certificate p256 - envelope intoto 0.0.2 intoto2 | <.key> ~ <text> => MalformedEntry
certificate p256 - envelope intoto 0.0.2 intoto2 | <.key> ~ <unread> => MalformedEntry
certificate p256 - envelope intoto 0.0.2 intoto2 | <.key> ~ <other.key> ; <.envelope.twice> ~ <.envelope> => MalformedEntry
certificate p256 - envelope intoto 0.0.2 intoto2 | <.key> ~ <text> ; <.envelope.twice> ~ <other.envelope.twice> => EntryMismatch"#;

// When an entry of hashedrekord 0.0.1 was logged: both ends belong to the window, and a promise changes nothing.
const WINDOW: &str =
    r#"certificate p256 1699999999 message hashedrekord 0.0.1 rekord1 | <.key> ~ <.certificate> => IntegratedTime
certificate p256 1699999999+ message hashedrekord 0.0.1 rekord1 | <.key> ~ <.certificate> => IntegratedTime
certificate p256 1700000000 message hashedrekord 0.0.1 rekord1 | <.key> ~ <.certificate> => accepted
certificate p256 1700000000+ message hashedrekord 0.0.1 rekord1 | <.key> ~ <.certificate> => accepted
certificate p256 1700000001 message hashedrekord 0.0.1 rekord1 | <.key> ~ <.certificate> => accepted
certificate p256 1700000001+ message hashedrekord 0.0.1 rekord1 | <.key> ~ <.certificate> => accepted
certificate p256 1700000599 message hashedrekord 0.0.1 rekord1 | <.key> ~ <.certificate> => accepted
certificate p256 1700000599+ message hashedrekord 0.0.1 rekord1 | <.key> ~ <.certificate> => accepted
certificate p256 1700000600 message hashedrekord 0.0.1 rekord1 | <.key> ~ <.certificate> => accepted
certificate p256 1700000600+ message hashedrekord 0.0.1 rekord1 | <.key> ~ <.certificate> => accepted
certificate p256 1700000601 message hashedrekord 0.0.1 rekord1 | <.key> ~ <.certificate> => IntegratedTime
certificate p256 1700000601+ message hashedrekord 0.0.1 rekord1 | <.key> ~ <.certificate> => IntegratedTime
certificate p256 -+ message hashedrekord 0.0.1 rekord1 | <.key> ~ <.certificate> => accepted
certificate p256 0 message hashedrekord 0.0.1 rekord1 | <.key> ~ <.certificate> => IntegratedTime
certificate p256 -1700000300 message hashedrekord 0.0.1 rekord1 | <.key> ~ <.certificate> => IntegratedTime
certificate p256 1700000300000 message hashedrekord 0.0.1 rekord1 | <.key> ~ <.certificate> => IntegratedTime
certificate p256 9223372036854775807 message hashedrekord 0.0.1 rekord1 | <.key> ~ <.certificate> => IntegratedTime
certificate p256 -9223372036854775808 message hashedrekord 0.0.1 rekord1 | <.key> ~ <.certificate> => IntegratedTime
certificate p384 1700000601 message hashedrekord 0.0.1 rekord1 | <.key> ~ <.certificate> => IntegratedTime
certificate p256 1700000601 message hashedrekord 0.0.1 rekord1 | <.key> ~ <.certificate> ; <digest> ~ <nothing> => ArtifactMismatch
certificate p256 1700000601 message hashedrekord 0.0.1 rekord1 | <.key> ~ <.second> => EntryMismatch
certificate p256 1700000601 message hashedrekord 0.0.1 rekord1 |  => MalformedEntry
certificate p256 1700000601 message hashedrekord 0.0.1 rekord1 | <.key> ~ <.certificate> ; <.message> ~ <other.message> => EntryMismatch"#;

// Who has no window, and kinds whose time isn't asked.
const UNASKED: &str = r#"key p256 1699999999 message hashedrekord 0.0.1 rekord1 |  => accepted
key p256 1700000601+ message hashedrekord 0.0.1 rekord1 |  => accepted
key p256 0 message hashedrekord 0.0.1 rekord1 |  => accepted
certificate p256 1699999999 message hashedrekord 0.0.2 rekord2 | "publicKey" ~ "x509Certificate":{"rawBytes":"<.certificate.der>"},"publicKey" => accepted
certificate p256 1700000601+ message hashedrekord 0.0.2 rekord2 | "publicKey" ~ "x509Certificate":{"rawBytes":"<.certificate.der>"},"publicKey" => accepted
certificate p256 1700000601+ envelope hashedrekord 0.0.2 of_envelope | "publicKey" ~ "x509Certificate":{"rawBytes":"<.certificate.der>"},"publicKey" => accepted
certificate p256 1699999999+ envelope dsse 0.0.1 dsse1 | <.key> ~ <.certificate> => accepted
certificate p256 1700000601 envelope dsse 0.0.1 dsse1 | <.key> ~ <.certificate> => accepted
certificate p256 1699999999 envelope intoto 0.0.2 intoto2 | <.key> ~ <.certificate> => accepted
certificate p256 1700000601+ envelope intoto 0.0.2 intoto2 | <.key> ~ <.certificate> => accepted"#;

// Kinds that aren't compared with what was signed.
const KINDS: &str =
    r#"certificate p256 1700000601 envelope hashedrekord 0.0.1 rekord1 | <.key> ~ <.certificate> => Unsupported
certificate p256 - message dsse 0.0.1 dsse1 | <.key> ~ <.certificate> => Unsupported
certificate p256 - envelope dsse 0.0.2 dsse2 |  => Unsupported
certificate p256 - message intoto 0.0.2 intoto2 | <.key> ~ <.certificate> => Unsupported
certificate p256 - message hashedrekord 0.0.2 dsse2 |  => MalformedEntry"#;

// When an entry was logged, where a word tells it.
fn time<X: Abort>(rt: &X, word: &str) -> Option<i64> {
    if word == "-" {
        return None;
    }
    Some(good(rt, word.parse::<i64>()))
}

// The entry of a row, with its time and a promise.
fn timed<X: AllocGlobal + Abort>(
    rt: &X,
    word: &str,
    given: &str,
    name: &str,
) -> TransparencyLogEntry {
    let mut entry = entry(rt, given, name);
    match word.strip_suffix("+") {
        Some(word) => {
            entry.integrated_time = time(rt, word);
            entry.inclusion_promise = Some(good(rt, SignedTimestamp::from_bytes(rt.alloc(), &[1])));
        }
        None => entry.integrated_time = time(rt, word),
    }
    entry
}

fn certificate_of<X: AllocGlobal + Abort>(rt: &X, name: &str) -> DerCertificate {
    let text = expanded(rt, "<.certificate.der>", name);
    good(rt, DerCertificate::from_base64(rt.alloc(), text.as_str()))
}

// By a certificate.
fn certified<X: AllocGlobal + Abort>(
    rt: &X,
    name: &str,
    what: &str,
    entry: &TransparencyLogEntry,
) -> String {
    let (key, certificate) = (key_of(rt, name), certificate_of(rt, name));
    let validity = TimeRange::new(at_second(1_700_000_000), Some(at_second(1_700_000_600)));
    let who = SignedBy::Certificate {
        certificate: &certificate,
        key: &key,
        validity: &validity,
    };
    let answer = described_by(rt, who, name, what, entry);
    drop((key, certificate));
    answer
}

// By a key.
fn keyed<X: AllocGlobal + Abort>(
    rt: &X,
    name: &str,
    what: &str,
    entry: &TransparencyLogEntry,
) -> String {
    let key = key_of(rt, name);
    let answer = described_by(rt, SignedBy::Key(&key), name, what, entry);
    drop(key);
    answer
}

/// Whether an entry is of a signature by a key or a certificate.
pub fn signed<X: AllocGlobal + Abort>(rt: &X, given: &str) -> String {
    let (who, rest) = halves(rt, given, " ");
    let (name, rest) = halves(rt, rest, " ");
    let (word, rest) = halves(rt, rest, " ");
    let (what, rest) = halves(rt, rest, " ");
    let entry = timed(rt, word, rest, name);
    let answer = if who == "key" {
        keyed(rt, name, what, &entry)
    } else {
        certified(rt, name, what, &entry)
    };
    drop(entry);
    answer
}

#[test]
fn entries_of_certificates_are_described(rt: HostRuntime) {
    hold(
        &rt,
        &[
            ("signed", ACCEPTED),
            ("signed", REKORD1),
            ("signed", REKORD2),
            ("signed", DSSE1),
            ("signed", INTOTO2),
            ("signed", WINDOW),
            ("signed", UNASKED),
            ("signed", KINDS),
        ],
    );
}
