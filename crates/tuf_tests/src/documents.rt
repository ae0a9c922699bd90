// Documents of each kind, read and refused, and the checks of pins and of expiries.
use crate::patterns;
use crate::words::{good, halves, hold, hold_filled, number, printed, there, word};
use foundation::Duplicate;
use sigstore_tuf_parts::*;
use sigstore_types_parts::instant;
use std::alloc::Global;
use std::process::Abort;

/// The answer of a call that is given a text; for any other name that of a call of sigstore_tuf.
pub fn answer<X: AllocGlobal + Abort>(rt: &X, call: &str, given: &str) -> String {
    match call {
        "root" => word(rt, document::<Root>(rt.alloc(), given)),
        "timestamp" => word(rt, document::<Timestamp>(rt.alloc(), given)),
        "snapshot" => word(rt, document::<Snapshot>(rt.alloc(), given)),
        "targets" => word(rt, document::<Targets>(rt.alloc(), given)),
        "documents" => told(rt, given),
        _ => patterns::answer(rt, call, given),
    }
}

fn document<T: Role>(alloc: Global, text: &str) -> Result<Metadata<T>, Error> {
    Metadata::from_slice(alloc, text.as_bytes())
}

const FRAMES: &str = r#" => Json
[1.5] => NonIntegerNumber
[] => Malformed(Frame)
{"signed":{}} => Malformed(Frame)
{"signatures":[]} => Malformed(Frame)
{"signatures":[],"signed":[]} => Json"#;

const HEADERS: &str = r#"{} | "_type":"root" => Malformed(Kind)
{} | "_type":"timestamp","spec_version":"2.0" => Malformed(SpecVersion)
{} | "_type":1,"spec_version":"10" => Malformed(SpecVersion)
{} | "_type":"timestamp","spec_version":"1" => Json
[] |  => Json"#;

const HEADER: &str = r#"{"signatures":*,"signed":{*}}"#;

const SIGNED: &str =
    r#"{"signatures":*,"signed":{"_type":"timestamp","spec_version":"1.0","version":*,"expires":"2030-01-01T00:00:00Z","meta":{}}}"#;

const SIGNATURES: &str = r#"[{"keyid":"k"}] | 1 => Json
[] | 18446744073709551615 => Ok
[] | 18446744073709551616 => NonIntegerNumber"#;

// Members that are null or absent.
const LISTING: &str =
    r#"{"signatures":[],"signed":{"_type":"targets","spec_version":"1.0","version":1,"expires":"2030-01-01T00:00:00Z","targets":{"a":{"length":2,"hashes":{}}}*}}"#;

const LISTINGS: &str = r#" => Ok
,"delegations":null => Ok
,"delegations":{"keys":{}} => Ok
,"delegations":{"keys":{},"roles":null} => Json
,"delegations":{"roles":[]} => Json
,"delegations":{"keys":{},"roles":[{"name":"d","keyids":[],"threshold":1,"paths":null,"path_hash_prefixes":null}]} => Ok
,"delegations":{"keys":{},"roles":[{"name":"d","keyids":[],"threshold":1,"terminating":null}]} => Json
,"delegations":{"keys":{},"roles":[{"name":"d","keyids":[],"threshold":-1}]} => Json"#;

const ROOT: &str =
    r#"{"signatures":[{"keyid":"k","sig":"01"}],"signed":{"_type":"root","spec_version":"1.0.0","version":1,"expires":"2031-01-01T00:00:00Z","consistent_snapshot":false,"keys":{"k":{"keytype":"ecdsa","scheme":"ecdsa-sha2-nistp256","keyval":{"public":"p"}}},"roles":{"root":{"keyids":["k"],"threshold":1},"timestamp":{"keyids":["k"],"threshold":1},"snapshot":{"keyids":["k"],"threshold":1},"targets":{"keyids":["k"],"threshold":1}}}}"#;

const TIMESTAMP: &str =
    r#"{"signatures":[{"keyid":"k","sig":"01"}],"signed":{"_type":"timestamp","spec_version":"1.0.0","version":1,"expires":"2030-01-01T00:00:00Z","meta":{"snapshot.json":{"version":1}}}}"#;

const SNAPSHOT: &str =
    r#"{"signatures":[{"keyid":"k","sig":"01"}],"signed":{"_type":"snapshot","spec_version":"1.0.0","version":1,"expires":"2031-01-01T00:00:00Z","meta":{"targets.json":{"version":1}}}}"#;

const TARGETS: &str =
    r#"{"signatures":[{"keyid":"k","sig":"01"}],"signed":{"_type":"targets","spec_version":"1.0.0","version":1,"expires":"2031-01-01T00:00:00Z","targets":{"trusted_root.json":{"length":2,"hashes":{"sha256":"44136fa355b3678a1146ad16f7e8649e94fb4fc21fe77e8310c060f61caaff8a"}}}}}"#;

fn copied_key<X: AllocGlobal + Abort>(rt: &X, root: &Root) -> Key {
    let key = there(rt, root.keys.get("k"));
    good(rt, key.duplicate(rt.alloc()))
}

fn public_text<X: AllocGlobal + Abort>(rt: &X, root: &Root) -> String {
    let key = copied_key(rt, root);
    let text = printed(rt, &key.keyval.public);
    drop(key);
    text
}

// The threshold of a role, the first signature, or the public text of a key.
fn root_part<X: AllocGlobal + Abort>(rt: &X, root: &Metadata<Root>, part: &str) -> String {
    match part {
        "threshold" => printed(rt, there(rt, root.signed().role("targets")).threshold),
        "signature" => printed(rt, &there(rt, root.signatures().first()).sig),
        _ => public_text(rt, root.signed()),
    }
}

// The version, the length of the text that is signed, the word for a version of the snapshot that the
// timestamp pins, or the word for it at a moment.
fn timestamp_part<X: AllocGlobal + Abort>(
    rt: &X,
    read: &Metadata<Timestamp>,
    what: &str,
    value: &str,
) -> String {
    match what {
        "pin" => pin_word(rt, read.signed(), number(rt, value)),
        "moment" => moment_word(rt, read.signed(), there(rt, instant(value))),
        _ => match value {
            "version" => printed(rt, read.signed().version()),
            _ => printed(rt, read.signed_canonical().len()),
        },
    }
}

fn pin_word<X: AllocGlobal + Abort>(rt: &X, timestamp: &Timestamp, version: u64) -> String {
    word(
        rt,
        check_version(there(rt, timestamp.snapshot_meta()), version),
    )
}

// The word for the timestamp at a moment, at which it has to be fresh exactly if it isn't expired.
fn moment_word<X: AllocGlobal + Abort>(
    rt: &X,
    timestamp: &Timestamp,
    now: jiff::Timestamp,
) -> String {
    let answer = check_fresh(rt.alloc(), Timestamp::kind(), timestamp.expires(), now);
    assert!(rt; answer.is_err() == timestamp.is_expired(now));
    word(rt, answer)
}

// The word for the bytes of the file that the targets document lists.
fn file_word<X: AllocGlobal + Abort>(rt: &X, targets: &Targets, bytes: &str) -> String {
    let target = there(rt, targets.target("trusted_root.json"));
    let answer = check_integrity(Some(target.length), Some(&target.hashes), bytes.as_bytes());
    word(rt, answer)
}

fn of_root<X: AllocGlobal + Abort>(rt: &X, part: &str) -> String {
    let root = good(rt, document(rt.alloc(), ROOT));
    let answer = root_part(rt, &root, part);
    drop(root);
    answer
}

fn of_timestamp<X: AllocGlobal + Abort>(rt: &X, what: &str, value: &str) -> String {
    let timestamp = good(rt, document(rt.alloc(), TIMESTAMP));
    let answer = timestamp_part(rt, &timestamp, what, value);
    drop(timestamp);
    answer
}

fn of_file<X: AllocGlobal + Abort>(rt: &X, bytes: &str) -> String {
    let targets = good(rt, document(rt.alloc(), TARGETS)).into_signed();
    let answer = file_word(rt, &targets, bytes);
    drop(targets);
    answer
}

// Whether the copy of a document is the same document.
fn is_copied<X: AllocGlobal + Abort, T: Role + Duplicate + PartialEq>(
    rt: &X,
    text: &str,
) -> String {
    let read = good(rt, document::<T>(rt.alloc(), text));
    let copy = good(rt, read.duplicate(rt.alloc()));
    let same = copy.signed() == read.signed() && copy.signatures() == read.signatures();
    drop(copy);
    drop(read);
    printed(rt, same)
}

fn of_copy<X: AllocGlobal + Abort>(rt: &X, kind: &str) -> String {
    match kind {
        "root" => is_copied::<X, Root>(rt, ROOT),
        "timestamp" => is_copied::<X, Timestamp>(rt, TIMESTAMP),
        "snapshot" => is_copied::<X, Snapshot>(rt, SNAPSHOT),
        "targets" => is_copied::<X, Targets>(rt, TARGETS),
        _ => is_copied::<X, Targets>(rt, DELEGATING),
    }
}

// What is told of one of the documents.
fn told<X: AllocGlobal + Abort>(rt: &X, row: &str) -> String {
    let (what, value) = halves(rt, row, " ");
    match what {
        "root" => of_root(rt, value),
        "file" => of_file(rt, value),
        "copy" => of_copy(rt, value),
        "snapshot" => word(rt, document::<Snapshot>(rt.alloc(), SNAPSHOT)),
        _ => of_timestamp(rt, what, value),
    }
}

const TOLD: &str = r#"root threshold => 1
root signature => "01"
root key => "p"
timestamp version => 1
timestamp length => 128
snapshot  => Ok
pin 1 => Ok
pin 2 => IntegrityMismatch(Version)
moment 2030-01-01T00:00:00Z => Ok
moment 2030-01-01T00:00:01Z => Expired { role: "timestamp", expires: 2030-01-01T00:00:00Z }
file {} => Ok
file {  => IntegrityMismatch(Digest)
file { => IntegrityMismatch(Length)
copy root => true
copy timestamp => true
copy snapshot => true
copy targets => true
copy delegating => true"#;

// A targets document with delegations, and members that no kind has.
const DELEGATING: &str =
    r#"{"signatures":[{"keyid":"k","sig":""}],"signed":{"_type":"targets","spec_version":"1.0","version":1,"expires":"2030-01-01T00:00:00Z","x":[null,true,-1,{"y":"z"}],"targets":{"a":{"length":2,"hashes":{"sha256":"00"},"custom":{}}},"delegations":{"keys":{"k":{"keytype":"t","scheme":"s","keyval":{"public":"p","q":1}}},"roles":[{"name":"d","keyids":["k"],"threshold":1,"terminating":true,"paths":["a/*"],"path_hash_prefixes":["0"]}]}}}"#;

#[test]
fn documents(rt: HostRuntime) {
    hold(&rt, "timestamp", FRAMES);
    hold_filled(&rt, "timestamp", HEADER, HEADERS);
    hold_filled(&rt, "timestamp", SIGNED, SIGNATURES);
    hold_filled(&rt, "targets", LISTING, LISTINGS);
    hold(&rt, "documents", TOLD);
}
