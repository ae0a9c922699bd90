// What is read of a log's answers: a status and a text, each answer worked out by hand from the API of Rekor, from
// rekor-tiles and from C2SP tlog-tiles.
use crate::requests::sent;
use crate::words::{
    body, changed, copied, expanded, good, halves, hold, holds, marked, number, printed, refused,
    string, there, width,
};
use foundation::Sequence;
use serde_json::Value;
use sigstore_entries::{Checkpoint, InclusionProof, KindVersion, TransparencyLogEntry};
use sigstore_rekor::{
    EntryUuid, Error, HashedRekordV2, LogEntry, RekorInclusionProof, RekorV2EntryBundle,
    RekorV2Tile, Verification, read_checkpoint, read_entry, read_entry_bundle, read_search,
    read_tile, read_v2_entry, validate_v2_entry,
};
use sigstore_types_parts::{CanonicalizedBody, Sha256Hash, SignedTimestamp, Text, parse_json};
use std::process::Abort;
use std::rt::HostRuntime;

// Statuses before anything that is read.
const STATUSES: &str = r#"404  => Status { status: 404 }
404 {"a":{"body":"","logID":"","logIndex":0}} => Status { status: 404 }
0 {} => Status { status: 0 }
199 {} => Status { status: 199 }
300 {} => Status { status: 300 }
65535 { => Status { status: 65535 }
200 {} => rule Entries
299 {} => rule Entries
299 {"a":{"body":"","logID":"","logIndex":0}} => ("a", "", None, "", 0) None
201 { => Json
200  => Json"#;

// `*` stands for the members that are required.
const ENTRIES: &str =
    r#"200 {"24296f":{"body":"e30=","integratedTime":1700000100,"logID":"c0d2","logIndex":7,"verification":{"inclusionProof":{"checkpoint":"c","hashes":["<nothing>","<ENCODING>"],"logIndex":3,"rootHash":"<digest>","treeSize":5},"signedEntryTimestamp":"AQI="}}} => ("24296f", "e30=", Some(1700000100), "c0d2", 7) Some("AQI=") ("c", 3, "<digest>", 5) <nothing> <encoding>
200 {"a":{*}} => ("a", "e30=", None, "c0d2", 7) None
200 <line>{ "" :<line>{*, "more":[{}]<line>} } => ("", "e30=", None, "c0d2", 7) None
200 {"a":0,"a":{*}} => ("a", "e30=", None, "c0d2", 7) None
200 {"a":{"verification":{},"logIndex":"7","logID":"no digits","integratedTime":0,"body":""}} => ("a", "", Some(0), "no digits", 7) None
200 {"a":{*,"integratedTime":null,"verification":null}} => ("a", "e30=", None, "c0d2", 7) None
200 {"a":{*,"integratedTime":-9223372036854775808,"verification":{"inclusionProof":null,"signedEntryTimestamp":null}}} => ("a", "e30=", Some(-9223372036854775808), "c0d2", 7) None
200 {"a":{*,"verification":{"signedEntryTimestamp":""}}} => ("a", "e30=", None, "c0d2", 7) Some("")
200 {"a":{*,"verification":{"inclusionProof":{"treeSize":9223372036854775807,"rootHash":"<DIGEST>","logIndex":9223372036854775807,"hashes":[],"checkpoint":""}}}} => ("a", "e30=", None, "c0d2", 7) None ("", 9223372036854775807, "<digest>", 9223372036854775807)
200 {"a":{*},"b":{*}} => rule Entries
200 {"a":{*},"b":0} => rule Entries
200 {"a":0,"b":0,"c":0} => rule Entries
200 [] => rule Shape
200 [{*}] => rule Shape
200 null => rule Shape
200 {"a":null} => rule Shape
200 {"a":[]} => rule Shape
200 {"a":{*,"n":1.5}} => rule Float
200 {"a":0,"b":1e2} => rule Float
200 {"a":{"logIndex":0,"logID":0,"integratedTime":""}} => Body
200 {"a":{*,"body":null}} => Body
200 {"a":{*,"body":{}}} => Body
200 {"a":{*,"body":"e30","integratedTime":""}} => rule Base64
200 {"a":{*,"integratedTime":"1700000100","logID":0}} => IntegratedTime
200 {"a":{*,"integratedTime":9223372036854775808}} => IntegratedTime
200 {"a":{"body":"","logIndex":-1}} => LogId
200 {"a":{*,"logID":null}} => LogId
200 {"a":{*,"logID":7,"logIndex":-1}} => LogId
200 {"a":{"body":"","logID":""}} => LogIndex
200 {"a":{*,"logIndex":null,"verification":0}} => LogIndex
200 {"a":{*,"logIndex":-1}} => LogIndex
200 {"a":{*,"logIndex":9223372036854775808}} => LogIndex
200 {"a":{*,"logIndex":"x"}} => LogIndex
200 {"a":{*,"verification":0}} => Verification
200 {"a":{*,"verification":[]}} => Verification
200 {"a":{*,"verification":{"inclusionProof":0,"signedEntryTimestamp":0}}} => InclusionProof
200 {"a":{*,"verification":{"inclusionProof":{}}}} => Checkpoint
200 {"a":{*,"verification":{"inclusionProof":{"checkpoint":null,"hashes":0}}}} => Checkpoint
200 {"a":{*,"verification":{"inclusionProof":{"checkpoint":"","logIndex":-1}}}} => Hashes
200 {"a":{*,"verification":{"inclusionProof":{"checkpoint":"","hashes":"<nothing>"}}}} => Hashes
200 {"a":{*,"verification":{"inclusionProof":{"checkpoint":"","hashes":[0]}}}} => Hashes
200 {"a":{*,"verification":{"inclusionProof":{"checkpoint":"","hashes":["<nothing>","<digest.cut>"]}}}} => rule Length
200 {"a":{*,"verification":{"inclusionProof":{"checkpoint":"","hashes":["<digest.cut>0"]}}}} => rule Hex
200 {"a":{*,"verification":{"inclusionProof":{"checkpoint":"","hashes":["<digest.bytes>"]}}}} => rule Hex
200 {"a":{*,"verification":{"inclusionProof":{"checkpoint":"","hashes":[],"rootHash":0}}}} => LogIndex
200 {"a":{*,"verification":{"inclusionProof":{"checkpoint":"","hashes":[],"logIndex":-1,"rootHash":0}}}} => LogIndex
200 {"a":{*,"verification":{"inclusionProof":{"checkpoint":"","hashes":[],"logIndex":0,"treeSize":-1}}}} => RootHash
200 {"a":{*,"verification":{"inclusionProof":{"checkpoint":"","hashes":[],"logIndex":0,"rootHash":"<digest>00"}}}} => rule Length
200 {"a":{*,"verification":{"inclusionProof":{"checkpoint":"","hashes":[],"logIndex":0,"rootHash":""}}}} => rule Length
200 {"a":{*,"verification":{"inclusionProof":{"checkpoint":"","hashes":[],"logIndex":0,"rootHash":"x"}}}} => rule Hex
200 {"a":{*,"verification":{"inclusionProof":{"checkpoint":"","hashes":[],"logIndex":0,"rootHash":"<digest>"}}}} => TreeSize
200 {"a":{*,"verification":{"inclusionProof":{"checkpoint":"","hashes":[],"logIndex":0,"rootHash":"<digest>","treeSize":"5"}}}} => TreeSize
200 {"a":{*,"verification":{"inclusionProof":{"checkpoint":"","hashes":[],"logIndex":0,"rootHash":"<digest>","treeSize":-1}}}} => TreeSize
200 {"a":{*,"verification":{"inclusionProof":{"checkpoint":"","hashes":[],"logIndex":0,"rootHash":"<digest>","treeSize":9223372036854775808}}}} => TreeSize
200 {"a":{*,"verification":{"inclusionProof":{"checkpoint":"","hashes":[],"logIndex":0,"rootHash":"<digest>","treeSize":18446744073709551615}}}} => TreeSize
200 {"a":{*,"verification":{"signedEntryTimestamp":0}}} => SignedEntryTimestamp
200 {"a":{*,"verification":{"signedEntryTimestamp":"!"}}} => rule Base64"#;

// An entry alone, which has no name.
const VALUES: &str = r#"{*} => ("", "e30=", None, "c0d2", 7) None
{*,"integratedTime":5} => ("", "e30=", Some(5), "c0d2", 7) None
{"n":1.5} => rule Float
{"n":[{"a":18446744073709551616}],*} => rule Float
[] => rule Shape
{} => Body"#;

// A kind and an entry, and the entry of a bundle.
const OF_BUNDLES: &str =
    r#"hashedrekord 0.0.1 {*} => (7, [192, 210], "hashedrekord", "0.0.1", None, None, "e30=")
dsse 0.0.1 {*,"integratedTime":0,"verification":{"signedEntryTimestamp":"AQI="}} => (7, [192, 210], "dsse", "0.0.1", Some(0), Some("AQI="), "e30=")
intoto 0.0.2 {*,"integratedTime":-5,"verification":{"inclusionProof":{"checkpoint":"","hashes":["<nothing>"],"logIndex":3,"rootHash":"<digest>","treeSize":5}}} => (7, [192, 210], "intoto", "0.0.2", Some(-5), None, "e30=") (3, "<digest>", 5, 1, 0)
dsse 0.0.2 {*,"verification":{"inclusionProof":{"checkpoint":"o\n8\n<digest.bytes>\n\n— n AQIDBAUG\n","hashes":[],"logIndex":3,"rootHash":"<digest>","treeSize":5}}} => (7, [192, 210], "dsse", "0.0.2", None, None, "e30=") (3, "<digest>", 5, 0, 65)
hashedrekord 0.0.2 {*,"logID":""} => (7, [], "hashedrekord", "0.0.2", None, None, "e30=")
hashedrekord 0.0.2 {*,"logID":"C0D2"} => (7, [192, 210], "hashedrekord", "0.0.2", None, None, "e30=")
hashedrekord 0.0.2 {*,"logID":"c0d"} => Hex
hashedrekord 0.0.2 {*,"logID":"c0dg"} => Hex
hashedrekord 0.0.1 {*,"verification":{"inclusionProof":{"checkpoint":"c","hashes":[],"logIndex":3,"rootHash":"<digest>","treeSize":5}}} => Checkpoint(Origin)
hashedrekord 0.0.1 {*,"verification":{"inclusionProof":{"checkpoint":"o\n8\n<digest>\n","hashes":[],"logIndex":3,"rootHash":"<digest>","treeSize":5}}} => Checkpoint(Root)
hashedrekord 0.0.1 {*,"logID":"x","verification":{"inclusionProof":{"checkpoint":"c","hashes":[],"logIndex":3,"rootHash":"<digest>","treeSize":5}}} => Hex"#;

const REQUIRED: &str = r#""body":"e30=","logID":"c0d2","logIndex":7"#;

const SEARCHES: &str = r#"200 ["a","24296f"] => a;24296f;
200 [] => 
299 [""] => ;
200 ["a","a"] => a;a;
200 {} => rule Shape
200 "a" => rule Shape
200 [0] => rule Shape
200 ["a",null] => rule Shape
200 ["a",1.5] => rule Float
200 [ => Json
200  => Json
300 ["a"] => Status { status: 300 }
404 [ => Status { status: 404 }"#;

// The origin, the size, the root and the number of signatures.
const CHECKPOINTS: &str =
    r#"200 o<line>8<line><digest.bytes><line><line>— n AQIDBAUG<line> => ("o", 8, "<digest>", 1)
299 o<line>0<line><nothing.bytes><line>more<line><line>— n AQIDBAUG<line>— m AQIDBAUG<line> => ("o", 0, "<nothing>", 2)
200  => rule Checkpoint
200 o => rule Checkpoint
200 o<line>8<line><digest><line><line>— n AQIDBAUG<line> => rule Checkpoint
200 {"checkpoint":"o"} => rule Checkpoint
199 o<line>8<line><digest.bytes><line><line>— n AQIDBAUG<line> => Status { status: 199 }
404  => Status { status: 404 }"#;

// A level, an index, a width, a status and the octets.
const TILES: &str = "\
0 5 255 200 0102ff => RekorV2Tile { level: 0, index: 5, width: Some(255), bytes: [1, 2, 255] }
4294967295 18446744073709551615 - 299  => RekorV2Tile { level: 4294967295, index: 18446744073709551615, width: None, bytes: [] }
0 5 1 300 0102 => Status { status: 300 }
0 5 1 404  => Status { status: 404 }";

// The same without a level.
const BUNDLES: &str = "\
1234 7 200 00017b => RekorV2EntryBundle { index: 1234, width: Some(7), bytes: [0, 1, 123] }
0 - 201  => RekorV2EntryBundle { index: 0, width: None, bytes: [] }
0 - 199 00 => Status { status: 199 }
0 255 500  => Status { status: 500 }";

// What was sent, by whom; the body that was logged, with its changes; and what is changed in the entry. What refuses
// stands in the order of the checks.
const V2: &str = r#"key p256 rekord2 |  |  => accepted
key p256 rekord2 | SHA2_256 ~ sha256 |  => accepted
key p256 rekord2 | "publicKey" ~ "x509Certificate":null,"publicKey" |  => accepted
key p256 rekord2 |  | "logId" ~ "integratedTime":"0","logId" => accepted
key p256 rekord2 |  | "logId" ~ "integratedTime":null,"inclusionPromise":null,"logId" => accepted
key p256 rekord2 |  | "treeSize":"8" ~ "treeSize":"0" => accepted
certificate <p256.certificate.der> rekord2 | "publicKey":{"rawBytes":"<.der>"} ~ "x509Certificate":{"rawBytes":"<.certificate.der>"} |  => accepted
certificate AQI= rekord2 | "publicKey":{"rawBytes":"<.der>"} ~ "x509Certificate":{"rawBytes":"AQI="} |  => accepted
key p256 rekord2 |  | "version":"0.0.2" ~ "version":"0.0.1" => rule Kind
key p256 rekord2 |  | "hashedrekord" ~ "dsse" => rule Kind
key p256 text | X ~ { | "hashedrekord" ~ "intoto" => rule Kind
key p256 rekord1 |  |  => HashedRekordV002
key p256 dsse2 |  |  => HashedRekordV002
key p256 text | X ~ { |  => rule NotJson
key p256 rekord2 | "0.0.2" ~ 0.02 |  => rule Float
key p256 rekord2 | SHA2_256 ~ md5 |  => rule Algorithm
key p256 rekord2 | SHA2_256 ~ SHA2_512 |  => rule Algorithm
key p256 rekord2 | SHA2_256 ~ SHA3_256 ; <digest.bytes> ~ <nothing.bytes> |  => rule Algorithm
key p256 rekord2 | <digest.bytes> ~ <nothing.bytes> |  => rule Digest
key p256 rekord2 | <digest.bytes> ~ <digest.bytes.cut> |  => rule Digest
key p256 rekord2 | <digest.bytes> ~  ; <.message> ~ <other.message> |  => rule Digest
key p256 rekord2 | <.message> ~ <other.message> |  => rule Signature
key p256 rekord2 | <.message> ~  ; <.der> ~ <other.der> |  => rule Signature
key p256 rekord2 | P256_SHA_256 ~ P384_SHA_384 |  => rule KeyDetails
key p256 rekord2 | <.der> ~ <other.der> |  => rule Verifier
key other rekord2 |  |  => rule Verifier
key p256 rekord2 | "publicKey":{"rawBytes":"<.der>"} ~ "publicKey":null |  => rule Verifier
key p256 rekord2 | "publicKey" ~ "x509Certificate":{"rawBytes":"<.certificate.der>"},"publicKey" |  => rule Verifier
key p256 rekord2 | "publicKey":{"rawBytes":"<.der>"} ~ "x509Certificate":{"rawBytes":"<.certificate.der>"} |  => rule Verifier
key p256 rekord2 | "publicKey" ~ "x509Certificate" |  => rule Verifier
certificate <p256.certificate.der> rekord2 |  |  => rule Verifier
certificate <p256.certificate.der> rekord2 | "publicKey" ~ "x509Certificate":{"rawBytes":"<.certificate.der>"},"publicKey" |  => rule Verifier
certificate <p256.certificate.der> rekord2 | "publicKey":{"rawBytes":"<.der>"} ~ "x509Certificate":{"rawBytes":"<other.certificate.der>"} |  => rule Verifier
certificate <p256.der> rekord2 |  |  => rule Verifier
key p256 rekord2 | <.der> ~ <other.der> | "logId" ~ "integratedTime":"5","logId" => rule Verifier
key p256 rekord2 |  | "logId" ~ "integratedTime":"5","logId" => rule IntegratedTime
key p256 rekord2 |  | "logId" ~ "integratedTime":-1,"inclusionPromise":{"signedEntryTimestamp":""},"logId" => rule IntegratedTime
key p256 rekord2 |  | "logId" ~ "inclusionPromise":{"signedEntryTimestamp":""},"logId" => rule InclusionPromise
key p256 rekord2 |  | "logId" ~ "inclusionPromise":{"signedEntryTimestamp":"AQI="},"logId" ; "inclusionProof" ~ "proof" => rule InclusionPromise
key p256 rekord2 |  | "inclusionProof" ~ "proof" => rule InclusionProof
key p256 rekord2 |  | "inclusionProof":{ ~ "inclusionProof":null,"proof":{ => rule InclusionProof
key p256 rekord2 |  | "checkpoint" ~ "c" => rule EmptyCheckpoint
key p256 rekord2 |  | "checkpoint":{ ~ "checkpoint":null,"c":{ => rule EmptyCheckpoint
key p256 rekord2 |  | "envelope":" ~ "envelope":"","e":" => rule EmptyCheckpoint"#;

// The same with a status, of answers that are refused before they are compared with what was sent.
const V2_ANSWERS: &str = r#"200 key p256 rekord2 |  |  => accepted
299 key p256 rekord2 |  |  => accepted
300 key p256 rekord2 |  |  => Status { status: 300 }
404 key p256 rekord1 |  | {"logIndex" ~ x => Status { status: 404 }
200 key p256 rekord1 |  | {"logIndex" ~ "logIndex" => Json
200 key p256 rekord1 |  | "logId" ~ "n":1.5,"logId" => rule Float
200 key p256 rekord1 |  | {"logIndex" ~ [{"logIndex" => Json
200 key p256 rekord1 |  | {"logIndex" ~ [{"logIndex" ; "<body>"} ~ "<body>"}] => rule Entry { error: Json }
200 key p256 rekord1 |  | "hashedrekord" ~ "x" => rule Entry { error: Kind }
200 key p256 rekord1 |  | "version":"0.0.2" ~ "version":"0.0.3" => rule Entry { error: Kind }
200 key p256 rekord1 |  | "AQ==" ~ 0 => rule Entry { error: Field { member: KeyId } }
200 key p256 rekord1 |  | "logIndex":"7","logId" ~ "logIndex":"x","logId" => rule Entry { error: Field { member: LogIndex } }
200 key p256 rekord1 |  | "canonicalizedBody" ~ "c" => rule Entry { error: Field { member: CanonicalizedBody } }
200 key p256 rekord1 |  | "canonicalizedBody":" ~ "canonicalizedBody":"! => rule Entry { error: Base64 }
200 key p256 rekord1 |  | "<digest.bytes>" ~ "<digest.bytes.cut>" => rule Length
200 key p256 rekord1 |  | "envelope":"o ~ "envelope":" => rule Checkpoint"#;

// An answer of a log of the second version; `<body>` is the body that was logged, in base64.
const V2_ENTRY: &str =
    r#"{"logIndex":"7","logId":{"keyId":"AQ=="},"kindVersion":{"kind":"hashedrekord","version":"0.0.2"},"inclusionProof":{"logIndex":"7","rootHash":"<digest.bytes>","treeSize":"8","hashes":[],"checkpoint":{"envelope":"o\n8\n<digest.bytes>\n\n— n AQIDBAUG\n"}},"canonicalizedBody":"<body>"}"#;

fn status<X: Abort>(rt: &X, word: &str) -> u16 {
    good(rt, word.parse::<u16>())
}

// A text with the parts and the members that it names.
fn whole<X: AllocGlobal + Abort>(rt: &X, text: &str) -> String {
    let text = expanded(rt, text, "p256");
    good(rt, text.replace(rt.alloc(), "*", REQUIRED))
}

fn hexadecimal<X: AllocGlobal + Abort>(rt: &X, hash: &Sha256Hash) -> Text {
    good(rt, hash.to_hex(rt.alloc()))
}

// ---- entries of the first version

fn proof<X: AllocGlobal + Abort>(rt: &X, proof: &RekorInclusionProof) -> String {
    let mut told = printed(
        rt,
        (
            proof.checkpoint.as_str(),
            proof.log_index.get(),
            hexadecimal(rt, &proof.root_hash),
            proof.tree_size,
        ),
    );
    for hash in proof.hashes.as_slice() {
        let hash = hexadecimal(rt, hash);
        told = good(rt, format!(in rt.alloc(); "{told} {hash}"));
    }
    told
}

fn promise<X: AllocGlobal + Abort>(rt: &X, promise: &Option<SignedTimestamp>) -> Option<Text> {
    match promise {
        Some(promise) => Some(good(rt, promise.to_base64(rt.alloc()))),
        None => None,
    }
}

fn verification<X: AllocGlobal + Abort>(rt: &X, shown: &Verification) -> String {
    let told = printed(rt, promise(rt, &shown.signed_entry_timestamp));
    match &shown.inclusion_proof {
        Some(there) => {
            let there = proof(rt, there);
            good(rt, format!(in rt.alloc(); "{told} {there}"))
        }
        None => told,
    }
}

fn entry<X: AllocGlobal + Abort>(rt: &X, entry: &LogEntry) -> String {
    let told = printed(
        rt,
        (
            entry.uuid.as_str(),
            good(rt, entry.body.to_base64(rt.alloc())),
            entry.integrated_time,
            entry.log_id.as_str(),
            entry.log_index.get(),
        ),
    );
    let shown = match &entry.verification {
        Some(shown) => verification(rt, shown),
        None => string(rt, "None"),
    };
    good(rt, format!(in rt.alloc(); "{told} {shown}"))
}

fn entry_told<X: AllocGlobal + Abort>(rt: &X, read: LogEntry) -> String {
    let read = copied(rt, read);
    let told = entry(rt, &read);
    drop(read);
    marked(rt, told)
}

fn entry_shown<X: AllocGlobal + Abort>(rt: &X, read: Result<LogEntry, Error>) -> String {
    match read {
        Ok(read) => entry_told(rt, read),
        Err(refusal) => refused(rt, refusal),
    }
}

/// An answer to a request for an entry.
pub fn answered<X: AllocGlobal + Abort>(rt: &X, given: &str) -> String {
    let (word, rest) = halves(rt, given, " ");
    let text = whole(rt, rest);
    let read = read_entry(rt.alloc(), status(rt, word), text.as_bytes());
    drop(text);
    entry_shown(rt, read)
}

fn alone<X: AllocGlobal + Abort>(rt: &X, given: &str) -> Result<LogEntry, Error> {
    let text = whole(rt, given);
    let value = good(rt, Value::from_str(rt.alloc(), text.as_str()));
    drop(text);
    let read = LogEntry::from_value(rt.alloc(), &value);
    drop(value);
    read
}

/// An entry alone.
pub fn value<X: AllocGlobal + Abort>(rt: &X, given: &str) -> String {
    entry_shown(rt, alone(rt, given))
}

fn bundle_proof<X: AllocGlobal + Abort>(rt: &X, proof: &InclusionProof) -> String {
    printed(
        rt,
        (
            proof.log_index.get(),
            hexadecimal(rt, &proof.root_hash),
            proof.tree_size,
            proof.hashes.len(),
            proof.checkpoint.envelope().len(),
        ),
    )
}

fn bundle_entry<X: AllocGlobal + Abort>(rt: &X, entry: &TransparencyLogEntry) -> String {
    let told = printed(
        rt,
        (
            entry.log_index.get(),
            entry.log_id.key_id.as_bytes(),
            entry.kind_version.kind(),
            entry.kind_version.version(),
            entry.integrated_time,
            promise(rt, &entry.inclusion_promise),
            good(rt, entry.canonicalized_body.to_base64(rt.alloc())),
        ),
    );
    match &entry.inclusion_proof {
        Some(proof) => {
            let proof = bundle_proof(rt, proof);
            good(rt, format!(in rt.alloc(); "{told} {proof}"))
        }
        None => told,
    }
}

fn bundle_entry_told<X: AllocGlobal + Abort>(rt: &X, entry: TransparencyLogEntry) -> String {
    let told = bundle_entry(rt, &entry);
    drop(entry);
    marked(rt, told)
}

/// An entry as bundles have it: a kind, a version, and the entry alone.
pub fn of_bundle<X: AllocGlobal + Abort>(rt: &X, given: &str) -> String {
    let (kind, rest) = halves(rt, given, " ");
    let (version, rest) = halves(rt, rest, " ");
    let kind = good(rt, KindVersion::named(kind, version));
    let read = good(rt, alone(rt, rest));
    let entry = read.to_bundle_entry(rt.alloc(), kind);
    drop(read);
    match entry {
        Ok(entry) => bundle_entry_told(rt, entry),
        Err(refusal) => printed(rt, refusal),
    }
}

// ---- searches, checkpoints, tiles

fn names<X: AllocGlobal + Abort>(rt: &X, uuids: &[EntryUuid]) -> String {
    let mut told = string(rt, "");
    for uuid in uuids {
        let name = uuid.as_str();
        told = good(rt, format!(in rt.alloc(); "{told}{name};"));
    }
    told
}

fn names_told<X: AllocGlobal + Abort>(rt: &X, uuids: Sequence<EntryUuid>) -> String {
    let told = names(rt, uuids.as_slice());
    drop(uuids);
    told
}

/// An answer to a search.
pub fn searched<X: AllocGlobal + Abort>(rt: &X, given: &str) -> String {
    let (word, text) = halves(rt, given, " ");
    match read_search(rt.alloc(), status(rt, word), text.as_bytes()) {
        Ok(uuids) => names_told(rt, uuids),
        Err(refusal) => refused(rt, refusal),
    }
}

fn checkpoint_told<X: AllocGlobal + Abort>(rt: &X, checkpoint: Checkpoint) -> String {
    let told = printed(
        rt,
        (
            checkpoint.origin(),
            checkpoint.tree_size(),
            hexadecimal(rt, checkpoint.root_hash()),
            checkpoint.signatures().len(),
        ),
    );
    drop(checkpoint);
    marked(rt, told)
}

/// An answer to a request for a checkpoint.
pub fn checkpoint<X: AllocGlobal + Abort>(rt: &X, given: &str) -> String {
    let (word, rest) = halves(rt, given, " ");
    let text = expanded(rt, rest, "p256");
    let read = read_checkpoint(rt.alloc(), status(rt, word), text.as_bytes());
    drop(text);
    match read {
        Ok(checkpoint) => checkpoint_told(rt, checkpoint),
        Err(refusal) => refused(rt, refusal),
    }
}

fn tile_told<X: AllocGlobal + Abort>(rt: &X, read: Result<RekorV2Tile, Error>) -> String {
    match read {
        Ok(tile) => printed(rt, copied(rt, tile)),
        Err(refusal) => refused(rt, refusal),
    }
}

/// An answer to a request for a tile.
pub fn tile<X: AllocGlobal + Abort>(rt: &X, given: &str) -> String {
    let (level, rest) = halves(rt, given, " ");
    let (index, rest) = halves(rt, rest, " ");
    let (wide, rest) = halves(rt, rest, " ");
    let (word, digits) = halves(rt, rest, " ");
    let (level, index, wide) = (
        good(rt, level.parse::<u32>()),
        number(rt, index),
        width(rt, wide),
    );
    let status = status(rt, word);
    let octets = good(rt, hex::decode(rt.alloc(), digits));
    let read = read_tile(rt.alloc(), status, octets.as_slice(), level, index, wide);
    drop(octets);
    tile_told(rt, read)
}

fn bundle_told<X: AllocGlobal + Abort>(rt: &X, read: Result<RekorV2EntryBundle, Error>) -> String {
    match read {
        Ok(bundle) => printed(rt, copied(rt, bundle)),
        Err(refusal) => refused(rt, refusal),
    }
}

/// An answer to a request for a bundle of entries.
pub fn bundle<X: AllocGlobal + Abort>(rt: &X, given: &str) -> String {
    let (index, rest) = halves(rt, given, " ");
    let (wide, rest) = halves(rt, rest, " ");
    let (word, digits) = halves(rt, rest, " ");
    let (index, wide, status) = (number(rt, index), width(rt, wide), status(rt, word));
    let octets = good(rt, hex::decode(rt.alloc(), digits));
    let read = read_entry_bundle(rt.alloc(), status, octets.as_slice(), index, wide);
    drop(octets);
    bundle_told(rt, read)
}

// ---- entries of the second version

// What was sent, and the text of the answer.
fn second<X: AllocGlobal + Abort>(rt: &X, given: &str) -> (HashedRekordV2, String) {
    let (sort, rest) = halves(rt, given, " ");
    let (word, rest) = halves(rt, rest, " ");
    let (logged, changes) = there(rt, rest.rsplit_once(" | "));
    let text = body(rt, logged, "p256");
    let logged = CanonicalizedBody::from_bytes(rt.alloc(), text.as_bytes());
    drop(text);
    let logged = good(rt, good(rt, logged).to_base64(rt.alloc()));
    let entry = changed(rt, V2_ENTRY, changes);
    let entry = expanded(rt, entry.as_str(), "p256");
    let entry = good(rt, entry.replace(rt.alloc(), "<body>", logged.as_str()));
    drop(logged);
    (sent(rt, sort, word), entry)
}

fn accepted<X: AllocGlobal + Abort>(rt: &X, answer: Result<(), Error>) -> String {
    match answer {
        Ok(()) => string(rt, "accepted"),
        Err(refusal) => refused(rt, refusal),
    }
}

/// An answer of a log of the second version, with a status before what is told of it.
pub fn second_answered<X: AllocGlobal + Abort>(rt: &X, given: &str) -> String {
    let (word, rest) = halves(rt, given, " ");
    let status = status(rt, word);
    let (request, text) = second(rt, rest);
    let read = read_v2_entry(rt.alloc(), status, text.as_bytes(), &request);
    drop((request, text));
    match read {
        Ok(entry) => {
            drop(entry);
            string(rt, "accepted")
        }
        Err(refusal) => refused(rt, refusal),
    }
}

/// Whether an entry is of what was sent, by both calls.
pub fn valid<X: AllocGlobal + Abort>(rt: &X, given: &str) -> String {
    let (request, text) = second(rt, given);
    let value = good(rt, parse_json(rt.alloc(), text.as_bytes()));
    let entry = good(rt, TransparencyLogEntry::from_value(rt.alloc(), &value));
    drop(value);
    let answer = validate_v2_entry(rt.alloc(), &entry, &request);
    drop(entry);
    let read = read_v2_entry(rt.alloc(), 200, text.as_bytes(), &request);
    drop((request, text));
    let is_read = match read {
        Ok(entry) => {
            drop(entry);
            answer == Ok(())
        }
        Err(refusal) => answer == Err(refusal),
    };
    holds(rt, is_read);
    accepted(rt, answer)
}

#[test]
fn answers_are_read(rt: HostRuntime) {
    hold(
        &rt,
        &[
            ("answer", STATUSES),
            ("answer", ENTRIES),
            ("value", VALUES),
            ("of_bundle", OF_BUNDLES),
            ("search", SEARCHES),
            ("checkpoint", CHECKPOINTS),
            ("tile", TILES),
            ("bundle", BUNDLES),
            ("valid", V2),
            ("second", V2_ANSWERS),
        ],
    );
}
