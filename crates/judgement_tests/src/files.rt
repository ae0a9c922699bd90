// Tables of trust files, one row a line: a call, a text, ` => ` and the answer, worked out by hand. In a text
// `<NAME>` stands for the octets of that name, in base64. `read` answers what a file holds: of each log its id
// and its key, each as its first octet and its length, and its window; of each authority the number of its
// certificates, and its window. `stamping` answers of each time-stamp authority its own certificate, the number of
// those between, its root and its window. `made` answers whether a verifier is made of it.
use crate::data::{OCTETS, OF_SIGSTORE};
use crate::tables::good;
use command_files::read_provider;
use foundation::Duplicate;
use jiff::Timestamp;
use sigstore_judgement::{Verifier, usable_exactly};
use sigstore_types::{Authority, TimeRange, TrustedLog, TrustedRoot, TsaAuthority};
use std::process::Abort;

// The members and their order.
const READ: &str = r#"read {} => nothing
read [] => Json
read { => Json
read {"tlogs":1.5} => Float
read {"tlogs":[],"ctlogs":null,"certificateAuthorities":[],"timestampAuthorities":null} => nothing
read {"mediaType":0,"other":{}} => nothing
read {"tlogs":{}} => Field { member: Tlogs }
read {"tlogs":[0]} => Field { member: Tlogs }
read {"tlogs":[null]} => Field { member: Tlogs }
read {"ctlogs":0,"tlogs":0} => Field { member: Tlogs }
read {"ctlogs":0,"certificateAuthorities":0} => Field { member: Ctlogs }
read {"timestampAuthorities":0,"certificateAuthorities":0} => Field { member: CertificateAuthorities }
read {"timestampAuthorities":0} => Field { member: TimestampAuthorities }"#;

const LOGS: &str = r#"read {"tlogs":[{}]} => Field { member: PublicKey }
read {"tlogs":[{"publicKey":null}]} => Field { member: PublicKey }
read {"tlogs":[{"publicKey":{}}]} => Field { member: RawBytes }
read {"tlogs":[{"publicKey":{"rawBytes":0}}]} => Field { member: RawBytes }
read {"tlogs":[{"publicKey":{"rawBytes":"A"}}]} => Base64
read {"tlogs":[{"publicKey":{"rawBytes":"AQ==","validFor":0}}]} => Field { member: ValidFor }
read {"tlogs":[{"publicKey":{"rawBytes":"AQ==","validFor":{"start":0}}}]} => Field { member: Start }
read {"tlogs":[{"publicKey":{"rawBytes":"AQ==","validFor":{"start":"2021"}}}]} => Field { member: Start }
read {"tlogs":[{"publicKey":{"rawBytes":"AQ==","validFor":{"end":"never"}}}]} => Field { member: End }
read {"tlogs":[{"publicKey":{"rawBytes":"AQ=="}}]} => Field { member: LogId }
read {"tlogs":[{"publicKey":{"rawBytes":"AQ=="},"logId":{}}]} => Field { member: KeyId }
read {"tlogs":[{"publicKey":{"rawBytes":"AQ=="},"logId":{"keyId":"%"}}]} => Base64
read {"tlogs":[{"publicKey":{"rawBytes":"AQ=="},"logId":{"keyId":"AgM="}}]} => tlog 02/2 01/1 always;
read {"tlogs":[{"publicKey":{"rawBytes":"AQ==","validFor":null},"logId":{"keyId":"AgM="}}]} => tlog 02/2 01/1 always;
read {"tlogs":[{"publicKey":{"rawBytes":"AQ==","validFor":{}},"logId":{"keyId":"AgM="}}]} => tlog 02/2 01/1 earliest..;
read {"tlogs":[{"publicKey":{"rawBytes":"AQ==","validFor":{"start":"2021-01-12T11:53:27.000Z","end":null}},"logId":{"keyId":"AgM="}}]} => tlog 02/2 01/1 2021-01-12T11:53:27Z..;
read {"tlogs":[{"publicKey":{"rawBytes":"AQ==","validFor":{"end":"2022-10-31T23:59:59.999Z"}},"logId":{"keyId":"AgM="}}]} => tlog 02/2 01/1 earliest..2022-10-31T23:59:59.999Z;
read {"ctlogs":[{"publicKey":{"rawBytes":"AQ=="},"logId":{"keyId":"AgM="},"baseUrl":0},{"publicKey":{"rawBytes":"BAUG"},"logId":{"keyId":""}}]} => ctlog 02/2 01/1 always;ctlog none 04/3 always;"#;

const AUTHORITIES: &str = r#"read {"certificateAuthorities":[{}]} => Field { member: CertChain }
read {"certificateAuthorities":[0]} => Field { member: CertificateAuthorities }
read {"certificateAuthorities":[{"certChain":0}]} => Field { member: CertChain }
read {"certificateAuthorities":[{"certChain":{}}]} => ca 0 always;
read {"certificateAuthorities":[{"certChain":{"certificates":null}}]} => ca 0 always;
read {"certificateAuthorities":[{"certChain":{"certificates":0}}]} => Field { member: Certificates }
read {"certificateAuthorities":[{"certChain":{"certificates":[0]}}]} => Field { member: Certificates }
read {"certificateAuthorities":[{"certChain":{"certificates":[{}]}}]} => Field { member: RawBytes }
read {"certificateAuthorities":[{"certChain":{"certificates":[{"rawBytes":"AA=="},{"rawBytes":"*"}]}}]} => Base64
read {"certificateAuthorities":[{"certChain":{"certificates":[{"rawBytes":"AA=="},{"rawBytes":"AQ=="}]},"validFor":0}]} => Field { member: ValidFor }
read {"certificateAuthorities":[{"certChain":{"certificates":[{"rawBytes":"AA=="},{"rawBytes":"AQ=="}]},"validFor":{"start":"2021-01-01T00:00:00Z"}}]} => ca 2 2021-01-01T00:00:00Z..;
read {"timestampAuthorities":[{"certChain":{"certificates":[{"rawBytes":"AA=="}]}},{"certChain":{}}]} => tsa 1 always;tsa 0 always;"#;

const STAMPING: &str = r#"stamping {} => nothing
stamping {"certificateAuthorities":[{"certChain":{}}]} => nothing
stamping {"timestampAuthorities":[{"certChain":{}}]} => Field { member: Certificates }
stamping {"timestampAuthorities":[{"certChain":{"certificates":[{"rawBytes":"AA=="}]}}]} => 00/1 0 00/1 always;
stamping {"timestampAuthorities":[{"certChain":{"certificates":[{"rawBytes":"AA=="},{"rawBytes":"AQI="}]},"validFor":{}}]} => 00/1 0 01/2 earliest..;
stamping {"timestampAuthorities":[{"certChain":{"certificates":[{"rawBytes":"AA=="},{"rawBytes":"AQI="},{"rawBytes":"AgMA"},{"rawBytes":"AwM="}]}},{"certChain":{"certificates":[{"rawBytes":"BA=="}]}}]} => 00/1 2 03/2 always;04/1 0 04/1 always;"#;

// The logs of a file.
const MADE_OF_LOGS: &str = r#"made {} => made
made {"tlogs":[{"publicKey":{"rawBytes":"<p256>"},"logId":{"keyId":"<zeros>"}}]} => made
made {"tlogs":[{"publicKey":{"rawBytes":"<p256>"},"logId":{"keyId":"<zeros>"}},{"publicKey":{"rawBytes":"<p256b>"},"logId":{"keyId":"<ones>"}}]} => made
made {"tlogs":[{"publicKey":{"rawBytes":"<p256>"},"logId":{"keyId":"<zeros>"}},{"publicKey":{"rawBytes":"<p256b>"},"logId":{"keyId":"<zeros>"}}]} => 24 InvalidTrustRoot
made {"ctlogs":[{"publicKey":{"rawBytes":"<p256>"},"logId":{"keyId":"<ones>"}},{"publicKey":{"rawBytes":"<p256>"},"logId":{"keyId":"<ones>"}}]} => 24 InvalidTrustRoot
made {"tlogs":[{"publicKey":{"rawBytes":"<p256>"},"logId":{"keyId":"<zeros>"}}],"ctlogs":[{"publicKey":{"rawBytes":"<p256>"},"logId":{"keyId":"<zeros>"}}]} => made
made {"tlogs":[{"publicKey":{"rawBytes":"<p256>"},"logId":{"keyId":"<short>"}}]} => 25 Types
made {"tlogs":[{"publicKey":{"rawBytes":"AA=="},"logId":{"keyId":"<zeros>"}}]} => 26 Crypto
made {"ctlogs":[{"publicKey":{"rawBytes":"AA=="},"logId":{"keyId":"<zeros>"}}]} => 26 Crypto
made {"tlogs":[{"publicKey":{"rawBytes":"<bare>"},"logId":{"keyId":"<zeros>"}}]} => 26 Crypto
made {"ctlogs":[{"publicKey":{"rawBytes":"<bare>"},"logId":{"keyId":"<zeros>"}}]} => made
made {"ctlogs":[{"publicKey":{"rawBytes":"<ed>"},"logId":{"keyId":"<zeros>"}},{"publicKey":{"rawBytes":"<p384>"},"logId":{"keyId":"<ones>"}}]} => made
made {"tlogs":[{"publicKey":{"rawBytes":"<small>"},"logId":{"keyId":"<zeros>"}}],"ctlogs":[{"publicKey":{"rawBytes":"<rsa>"},"logId":{"keyId":"<zeros>"}}]} => made
made {"tlogs":[{"publicKey":{"rawBytes":"<p256>","validFor":{"start":"2022-01-01T00:00:00Z","end":"2021-12-31T23:59:59.999999999Z"}},"logId":{"keyId":"<zeros>"}}]} => 24 InvalidTrustRoot
made {"tlogs":[{"publicKey":{"rawBytes":"<p256>","validFor":{"start":"2022-01-01T00:00:00Z","end":"2022-01-01T00:00:00Z"}},"logId":{"keyId":"<zeros>"}}]} => made
made {"tlogs":[{"publicKey":{"rawBytes":"AA==","validFor":{"start":"2022-01-01T00:00:00Z","end":"2021-01-01T00:00:00Z"}},"logId":{"keyId":"AA=="}}]} => 24 InvalidTrustRoot
made {"tlogs":[{"publicKey":{"rawBytes":"AA=="},"logId":{"keyId":"AA=="}}]} => 25 Types
made {"ctlogs":[{"publicKey":{"rawBytes":"<p256>"},"logId":{"keyId":"AA=="}}],"tlogs":[{"publicKey":{"rawBytes":"AA=="},"logId":{"keyId":"<zeros>"}}]} => 26 Crypto
made {"tlogs":[{"publicKey":{"rawBytes":"<p256>"},"logId":{"keyId":"<zeros>"}},{"publicKey":{"rawBytes":"AA=="},"logId":{"keyId":"<zeros>"}}]} => 24 InvalidTrustRoot"#;

// The authorities of a file.
const MADE_OF_AUTHORITIES: &str =
    r#"made {"certificateAuthorities":[{"certChain":{"certificates":[{"rawBytes":"<root>"}]}}]} => made
made {"certificateAuthorities":[{"certChain":{"certificates":[{"rawBytes":"<one>"},{"rawBytes":"<root>"}]}},{"certChain":{"certificates":[{"rawBytes":"<root>"}]}}]} => made
made {"certificateAuthorities":[{"certChain":{"certificates":[]}}]} => 24 InvalidTrustRoot
made {"certificateAuthorities":[{"certChain":{"certificates":[{"rawBytes":"AA=="}]}}]} => 29 TrustedCertificate
made {"certificateAuthorities":[{"certChain":{"certificates":[{"rawBytes":"<one>"},{"rawBytes":"AA=="}]}}]} => 29 TrustedCertificate
made {"certificateAuthorities":[{"certChain":{"certificates":[{"rawBytes":"<i_names>"}]}}]} => 29 TrustedCertificate
made {"certificateAuthorities":[{"certChain":{"certificates":[{"rawBytes":"AA=="}]},"validFor":{"start":"2022-01-01T00:00:00Z","end":"2021-01-01T00:00:00Z"}}]} => 24 InvalidTrustRoot
made {"timestampAuthorities":[{"certChain":{"certificates":[{"rawBytes":"<time>"},{"rawBytes":"<two>"},{"rawBytes":"<root>"}]}}]} => made
made {"timestampAuthorities":[{"certChain":{}}]} => 24 InvalidTrustRoot
made {"timestampAuthorities":[{"certChain":{"certificates":[{"rawBytes":"<time>"},{"rawBytes":"<i_names>"}]}}]} => 29 TrustedCertificate
made {"timestampAuthorities":[{"certChain":{}}],"certificateAuthorities":[{"certChain":{"certificates":[{"rawBytes":"AA=="}]}}]} => 29 TrustedCertificate
made {"certificateAuthorities":[{"certChain":{}}],"ctlogs":[{"publicKey":{"rawBytes":"AA=="},"logId":{"keyId":"<zeros>"}}]} => 26 Crypto"#;

// A text with the octets of each name in the place of its mark.
fn meant<X: AllocGlobal + Abort>(rt: &X, given: &str) -> String {
    let mut text = good(rt, String::from_str(rt.alloc(), given));
    for row in OCTETS.lines() {
        let (name, octets) = row.split_once(' ').expect(rt, "octets");
        let mark = good(rt, format!(in rt.alloc(); "<{name}>"));
        let next = good(rt, text.as_str().replace(rt.alloc(), mark.as_str(), octets));
        text = next;
    }
    text
}

// A part's first octet and its length.
fn part<X: AllocGlobal + Abort>(rt: &X, octets: &[u8]) -> String {
    match octets {
        [] => good(rt, String::from_str(rt.alloc(), "none")),
        [first, ..] => {
            let first = good(rt, hex::encode(rt.alloc(), &[*first]));
            let length = octets.len();
            good(rt, format!(in rt.alloc(); "{first}/{length}"))
        }
    }
}

fn moment<X: AllocGlobal + Abort>(rt: &X, moment: Timestamp) -> String {
    if moment == Timestamp::MIN {
        good(rt, String::from_str(rt.alloc(), "earliest"))
    } else {
        good(rt, format!(in rt.alloc(); "{moment}"))
    }
}

// A window: its start, two dots, and its end where it has one.
fn window<X: AllocGlobal + Abort>(rt: &X, window: Option<TimeRange>) -> String {
    match window {
        None => good(rt, String::from_str(rt.alloc(), "always")),
        Some(range) => {
            let start = moment(rt, range.start);
            match range.end {
                None => good(rt, format!(in rt.alloc(); "{start}..")),
                Some(end) => {
                    let end = moment(rt, end);
                    good(rt, format!(in rt.alloc(); "{start}..{end}"))
                }
            }
        }
    }
}

fn tell_logs<X: AllocGlobal + Abort>(rt: &X, name: &str, logs: &[TrustedLog], told: &mut String) {
    for log in logs {
        let id = part(rt, log.log_id.key_id.as_bytes());
        let key = part(rt, log.raw_bytes.as_bytes());
        let window = window(rt, log.valid_for);
        let text = good(rt, format!(in rt.alloc(); "{name} {id} {key} {window};"));
        good(rt, told.push_str(text.as_str()));
    }
}

fn tell_authorities<X: AllocGlobal + Abort>(
    rt: &X,
    name: &str,
    authorities: &[Authority],
    told: &mut String,
) {
    for authority in authorities {
        let count = authority.certificates.len();
        let window = window(rt, authority.valid_for);
        let text = good(rt, format!(in rt.alloc(); "{name} {count} {window};"));
        good(rt, told.push_str(text.as_str()));
    }
}

// What a trust file holds.
fn told<X: AllocGlobal + Abort>(rt: &X, trust: &TrustedRoot) -> String {
    let mut told = String::new(rt.alloc());
    tell_logs(rt, "tlog", trust.tlogs.as_slice(), &mut told);
    tell_logs(rt, "ctlog", trust.ctlogs.as_slice(), &mut told);
    tell_authorities(
        rt,
        "ca",
        trust.certificate_authorities.as_slice(),
        &mut told,
    );
    tell_authorities(rt, "tsa", trust.timestamp_authorities.as_slice(), &mut told);
    if told.is_empty() {
        good(rt, told.push_str("nothing"));
    }
    told
}

fn read<X: AllocGlobal + Abort>(rt: &X, text: &str) -> String {
    match TrustedRoot::from_json(rt.alloc(), text.as_bytes()) {
        Ok(trust) => {
            let copy = good(rt, trust.duplicate(rt.alloc()));
            assert!(rt; copy == trust);
            told(rt, &trust)
        }
        Err(refusal) => good(rt, format!(in rt.alloc(); "{refusal:?}")),
    }
}

fn tell_stamping<X: AllocGlobal + Abort>(rt: &X, authorities: &[TsaAuthority]) -> String {
    let mut told = String::new(rt.alloc());
    for authority in authorities {
        let leaf = part(rt, authority.leaf.as_bytes());
        let count = authority.intermediates.len();
        let root = part(rt, authority.root.as_bytes());
        let window = window(rt, authority.valid_for);
        let text = good(
            rt,
            format!(in rt.alloc(); "{leaf} {count} {root} {window};"),
        );
        good(rt, told.push_str(text.as_str()));
    }
    if told.is_empty() {
        good(rt, told.push_str("nothing"));
    }
    told
}

fn stamping<X: AllocGlobal + Abort>(rt: &X, text: &str) -> String {
    let trust = good(rt, TrustedRoot::from_json(rt.alloc(), text.as_bytes()));
    match trust.tsa_authorities(rt.alloc()) {
        Ok(authorities) => tell_stamping(rt, authorities.as_slice()),
        Err(refusal) => good(rt, format!(in rt.alloc(); "{refusal:?}")),
    }
}

fn made<X: AllocGlobal + Abort>(rt: &X, text: &str) -> String {
    let trust = good(rt, TrustedRoot::from_json(rt.alloc(), text.as_bytes()));
    let tables = good(rt, read_provider(rt.alloc(), &[]));
    let answer = match Verifier::new(rt.alloc(), &tables.provider, &tables.armor, &trust) {
        Ok(_) => good(rt, String::from_str(rt.alloc(), "made")),
        Err(refusal) => {
            let number = refusal.number();
            good(rt, format!(in rt.alloc(); "{number} {refusal}"))
        }
    };
    answer
}

// Ends the process where a call doesn't give its answer.
fn check_row<X: AllocGlobal + Abort>(rt: &X, row: &str) {
    let (given, wanted) = row.split_once(" => ").expect(rt, "an answer");
    let (call, cell) = given.split_once(' ').expect(rt, "a call");
    let text = meant(rt, cell);
    let found = match call {
        "read" => read(rt, text.as_str()),
        "stamping" => stamping(rt, text.as_str()),
        "made" => made(rt, text.as_str()),
        _ => panic!(rt; "no call {call}"),
    };
    assert!(rt; found.as_str() == wanted, "{row}\nfound: {found}");
}

fn check_rows<X: AllocGlobal + Abort>(rt: &X, rows: &str) {
    for row in rows.lines() {
        check_row(rt, row);
    }
}

#[test]
fn files_are_read_by_their_members(rt: HostRuntime) {
    check_rows(&rt, READ);
    check_rows(&rt, LOGS);
    check_rows(&rt, AUTHORITIES);
    check_rows(&rt, STAMPING);
}

#[test]
fn verifiers_are_made_of_usable_files(rt: HostRuntime) {
    check_rows(&rt, MADE_OF_LOGS);
    check_rows(&rt, MADE_OF_AUTHORITIES);
    usable_exactly();
}

// What the file of Sigstore's shape holds, as the script that made it was told; ids are the SHA-256 values of the keys.
const TOLD: &str =
    "tlog f0/32 30/91 2021-01-12T11:53:27Z..;tlog c8/32 30/44 2025-09-23T00:00:00Z..;ctlog 7d/32 30/91 2021-03-14T00:00:00Z..2022-10-31T23:59:59.999Z;ctlog 64/32 30/91 2022-10-20T00:00:00Z..;ca 1 2021-03-07T03:20:29Z..2022-12-31T23:59:59.999Z;ca 2 2022-04-13T20:06:15Z..;tsa 4 2025-07-04T00:00:00Z..;";

#[test]
fn a_file_of_the_shape_of_sigstore_makes_a_verifier(rt: HostRuntime) {
    let told = read(&rt, OF_SIGSTORE);
    assert_eq!(rt; told.as_str(), TOLD);
    let made = made(&rt, OF_SIGSTORE);
    assert_eq!(rt; made.as_str(), "made");
}
