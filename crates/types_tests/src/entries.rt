// Tables of entries, one row a line: a call, a text, ` => ` and the answer, worked out by hand. In a text `<zeros>`
// and `<ones>` stand for 32 octets 0 and 1 in base64, `<short>` for 31 octets 0, and `*` for the members that are
// required. `read` answers what an entry holds: its place, the log's id as its first octet and its length, the
// kind and version, the time, the promise's length, the proof as its place, its root's first octet, its size, the
// number of its hashes and its checkpoint's size, and the body. `payload` answers what its promise signs, and
// `index` a place.
use crate::tables::{
    copied, displayed, equals, first, good, halves, hexadecimal, hold, number, place, printed,
    replaced, string,
};
use serde_json::Value;
use sigstore_entries::{
    CheckpointData, InclusionProof, LogIndex, TransparencyLogEntry, promise_payload,
};
use sigstore_types_parts::{FromValue, TypesError};
use std::process::Abort;

// The members that are required.
const REQUIRED: &str =
    r#""logId":{"keyId":"<ones>"},"kindVersion":{"kind":"dsse","version":"0.0.1"},"canonicalizedBody":"e30=""#;

const READ: &str = r#"read {*} => 0 01/32 dsse/0.0.1 - - - 7b7d
read {*,"logIndex":null,"integratedTime":null,"inclusionPromise":null,"inclusionProof":null} => 0 01/32 dsse/0.0.1 - - - 7b7d
read {*,"logIndex":"7","integratedTime":"1689177396","other":{"a":[]}} => 7 01/32 dsse/0.0.1 1689177396 - - 7b7d
read {*,"logIndex":7,"integratedTime":1689177396} => 7 01/32 dsse/0.0.1 1689177396 - - 7b7d
read {*,"logIndex":"+007","integratedTime":"+008"} => 7 01/32 dsse/0.0.1 8 - - 7b7d
read {*,"logIndex":"9223372036854775807","integratedTime":"-9223372036854775808"} => 9223372036854775807 01/32 dsse/0.0.1 -9223372036854775808 - - 7b7d
read {*,"logIndex":9223372036854775807,"integratedTime":9223372036854775807} => 9223372036854775807 01/32 dsse/0.0.1 9223372036854775807 - - 7b7d
read {*,"integratedTime":0} => 0 01/32 dsse/0.0.1 - - - 7b7d
read {*,"integratedTime":"-0"} => 0 01/32 dsse/0.0.1 - - - 7b7d
read {*,"integratedTime":-1} => 0 01/32 dsse/0.0.1 -1 - - 7b7d
read {*,"inclusionPromise":{"signedEntryTimestamp":"AQID"}} => 0 01/32 dsse/0.0.1 - 3 - 7b7d
read {*,"inclusionPromise":{"signedEntryTimestamp":""}} => 0 01/32 dsse/0.0.1 - 0 - 7b7d
read {*,"inclusionProof":{"rootHash":"<ones>"}} => 0 01/32 dsse/0.0.1 - - 0/01/0/0/empty 7b7d
read {*,"inclusionProof":{"rootHash":"<ones>","logIndex":null,"treeSize":null,"hashes":null,"checkpoint":null}} => 0 01/32 dsse/0.0.1 - - 0/01/0/0/empty 7b7d
read {*,"inclusionProof":{"rootHash":"<ones>","logIndex":"1","treeSize":"3","hashes":["<zeros>","<ones>"],"checkpoint":{"envelope":""}}} => 0 01/32 dsse/0.0.1 - - 1/01/3/2/empty 7b7d
read {*,"inclusionProof":{"rootHash":"<ones>","logIndex":1,"treeSize":3,"hashes":[],"checkpoint":{"envelope":"o\n5\n<zeros>\n\n— n AQIDBAUG\n"}}} => 0 01/32 dsse/0.0.1 - - 1/01/3/0/5 7b7d
read {"canonicalizedBody":"","logId":{"keyId":"","x":0},"kindVersion":{"version":"0.0.2","kind":"hashedrekord"}} => 0 nothing/0 hashedrekord/0.0.2 - - - 
read {"canonicalizedBody":"","logId":{"keyId":""},"kindVersion":{"kind":"hashedrekord","version":"0.0.1"}} => 0 nothing/0 hashedrekord/0.0.1 - - - 
read {"canonicalizedBody":"","logId":{"keyId":""},"kindVersion":{"kind":"dsse","version":"0.0.2"}} => 0 nothing/0 dsse/0.0.2 - - - 
read {"canonicalizedBody":"","logId":{"keyId":""},"kindVersion":{"kind":"intoto","version":"0.0.2"}} => 0 nothing/0 intoto/0.0.2 - - - "#;

// Each member wrong.
const REFUSED: &str = r#"read [] => Json
read {} => Field { member: LogId }
read {*,"x":[{"y":1.5}]} => Float
read {"logIndex":1.5,*} => Float
read {*,"logIndex":9223372036854775808} => Field { member: LogIndex }
read {*,"logIndex":"9223372036854775808"} => Field { member: LogIndex }
read {*,"logIndex":"18446744073709551616"} => Field { member: LogIndex }
read {*,"logIndex":-1} => Field { member: LogIndex }
read {*,"logIndex":"-1"} => Field { member: LogIndex }
read {*,"logIndex":""} => Field { member: LogIndex }
read {*,"logIndex":" 1"} => Field { member: LogIndex }
read {*,"logIndex":"0x1"} => Field { member: LogIndex }
read {*,"logIndex":true} => Field { member: LogIndex }
read {"logIndex":true,"kindVersion":0} => Field { member: LogIndex }
read {"kindVersion":{"kind":"x","version":"x"},"canonicalizedBody":"!"} => Field { member: LogId }
read {"logId":0} => Field { member: LogId }
read {"logId":null} => Field { member: LogId }
read {"logId":{}} => Field { member: KeyId }
read {"logId":{"keyId":0}} => Field { member: KeyId }
read {"logId":{"keyId":"A"}} => Base64
read {"logId":{"keyId":""},"canonicalizedBody":""} => Field { member: KindVersion }
read {"logId":{"keyId":""},"kindVersion":"dsse"} => Field { member: KindVersion }
read {"logId":{"keyId":""},"kindVersion":{"version":"0.0.1"}} => Field { member: Kind }
read {"logId":{"keyId":""},"kindVersion":{"kind":0,"version":0}} => Field { member: Kind }
read {"logId":{"keyId":""},"kindVersion":{"kind":"dsse"}} => Field { member: Version }
read {"logId":{"keyId":""},"kindVersion":{"kind":"dsse","version":1}} => Field { member: Version }
read {"logId":{"keyId":""},"kindVersion":{"kind":"dsse","version":"0.0.3"}} => Kind
read {"logId":{"keyId":""},"kindVersion":{"kind":"intoto","version":"0.0.1"}} => Kind
read {"logId":{"keyId":""},"kindVersion":{"kind":"Dsse","version":"0.0.1"}} => Kind
read {"logId":{"keyId":""},"kindVersion":{"kind":"","version":""}} => Kind
read {*,"integratedTime":9223372036854775808} => Field { member: IntegratedTime }
read {*,"integratedTime":"9223372036854775808"} => Field { member: IntegratedTime }
read {*,"integratedTime":"-9223372036854775809"} => Field { member: IntegratedTime }
read {*,"integratedTime":"--1"} => Field { member: IntegratedTime }
read {*,"integratedTime":"-"} => Field { member: IntegratedTime }
read {*,"integratedTime":[]} => Field { member: IntegratedTime }
read {*,"inclusionPromise":0,"inclusionProof":0} => Field { member: InclusionPromise }
read {*,"inclusionPromise":{}} => Field { member: SignedEntryTimestamp }
read {*,"inclusionPromise":{"signedEntryTimestamp":null}} => Field { member: SignedEntryTimestamp }
read {*,"inclusionPromise":{"signedEntryTimestamp":"AQI"}} => Base64
read {*,"inclusionProof":0} => Field { member: InclusionProof }
read {*,"inclusionProof":{}} => Field { member: RootHash }
read {*,"inclusionProof":{"logIndex":"x"}} => Field { member: LogIndex }
read {*,"inclusionProof":{"logIndex":9223372036854775808,"rootHash":"<ones>"}} => Field { member: LogIndex }
read {*,"inclusionProof":{"rootHash":null}} => Field { member: RootHash }
read {*,"inclusionProof":{"rootHash":"<short>"}} => Length { expected: 32, actual: 31 }
read {*,"inclusionProof":{"rootHash":""}} => Length { expected: 32, actual: 0 }
read {*,"inclusionProof":{"rootHash":"!"}} => Base64
read {*,"inclusionProof":{"rootHash":"<ones>","treeSize":"9223372036854775808","hashes":0}} => Field { member: TreeSize }
read {*,"inclusionProof":{"rootHash":"<ones>","treeSize":{}}} => Field { member: TreeSize }
read {*,"inclusionProof":{"rootHash":"<ones>","hashes":{},"checkpoint":0}} => Field { member: Hashes }
read {*,"inclusionProof":{"rootHash":"<ones>","hashes":[0]}} => Field { member: Hashes }
read {*,"inclusionProof":{"rootHash":"<ones>","hashes":["<ones>","<short>"]}} => Length { expected: 32, actual: 31 }
read {*,"inclusionProof":{"rootHash":"<ones>","hashes":["<ones>","A"]}} => Base64
read {*,"inclusionProof":{"rootHash":"<ones>","checkpoint":""}} => Field { member: Checkpoint }
read {*,"inclusionProof":{"rootHash":"<ones>","checkpoint":{}}} => Field { member: Envelope }
read {*,"inclusionProof":{"rootHash":"<ones>","checkpoint":{"envelope":0}}} => Field { member: Envelope }
read {*,"inclusionProof":{"rootHash":"<ones>","checkpoint":{"envelope":"\n"}}} => Checkpoint(Origin)
read {*,"inclusionProof":{"rootHash":"<ones>","checkpoint":{"envelope":"o\n01\n"}}} => Checkpoint(Size)
read {"logId":{"keyId":""},"kindVersion":{"kind":"dsse","version":"0.0.1"}} => Field { member: CanonicalizedBody }
read {"logId":{"keyId":""},"kindVersion":{"kind":"dsse","version":"0.0.1"},"canonicalizedBody":null} => Field { member: CanonicalizedBody }
read {"logId":{"keyId":""},"kindVersion":{"kind":"dsse","version":"0.0.1"},"canonicalizedBody":"e30"} => Base64
read {"logId":{"keyId":""},"kindVersion":{"kind":"dsse","version":"0.0.1"},"canonicalizedBody":"","canonicalizedBody":0} => Field { member: CanonicalizedBody }"#;

// An entry of the shape of the public log's; docs/FORMATS.md says how its values were made.
const OF_SIGSTORE: &str =
    r#"read {"logIndex":"4163430","logId":{"keyId":"g2/xhOe0Gx4Ty1/Yn6HemNu6uZ6dKRiRP/Q7hqXHwhM="},"kindVersion":{"kind":"hashedrekord","version":"0.0.1"},"integratedTime":"1689177396","inclusionPromise":{"signedEntryTimestamp":"buDrSQ/4MhAc+Co9OHw18p5CML54aXj3rPnoEf6/ZyM="},"inclusionProof":{"logIndex":"4163430","rootHash":"SBNJTRN+FjG7owHVrKtue7eqdM4RhdRWVl71HXN2d7I=","treeSize":"4163431","hashes":["gg1di692LsZtzVb+0Vx4vyeY1Pm9SS9FU+mbRoSGVJg=","Z2uLuEznJn3VIN7KSBHI8QpT5jY1LwaYf0L+QlrO3YA=","BICpPS6bCUuJ4I4Bl2CJrBgZOvgCxmtjHMjS3BuujIg="],"checkpoint":{"envelope":"log.example - 1193050959916656506\n4163431\nSBNJTRN+FjG7owHVrKtue7eqdM4RhdRWVl71HXN2d7I=\n\n— log.example LHDhK0VDSeQi8FKXGR6tE+IdPbUg5avvUgVeSWS4L7IT9ZOhBDpxh3TFcr2KJa2+sb/NXAJWrhHOz5+cP5JdDlK+r4k=\n"}},"canonicalizedBody":"eyJhcGlWZXJzaW9uIjoiMC4wLjEiLCJraW5kIjoiaGFzaGVkcmVrb3JkIiwic3BlYyI6e319"} => 4163430 83/32 hashedrekord/0.0.1 1689177396 32 4163430/48/4163431/3/4163431 7b2261706956657273696f6e223a22302e302e31222c226b696e64223a2268617368656472656b6f7264222c2273706563223a7b7d7d
payload {"logIndex":"4163430","logId":{"keyId":"g2/xhOe0Gx4Ty1/Yn6HemNu6uZ6dKRiRP/Q7hqXHwhM="},"kindVersion":{"kind":"hashedrekord","version":"0.0.1"},"integratedTime":"1689177396","canonicalizedBody":"eyJhcGlWZXJzaW9uIjoiMC4wLjEiLCJraW5kIjoiaGFzaGVkcmVrb3JkIiwic3BlYyI6e319"} => {"body":"eyJhcGlWZXJzaW9uIjoiMC4wLjEiLCJraW5kIjoiaGFzaGVkcmVrb3JkIiwic3BlYyI6e319","integratedTime":1689177396,"logID":"836ff184e7b41b1e13cb5fd89fa1de98dbbab99e9d2918913ff43b86a5c7c213","logIndex":4163430}"#;

const PAYLOADS: &str =
    r#"payload {*,"logIndex":7,"integratedTime":1} => {"body":"e30=","integratedTime":1,"logID":"0101010101010101010101010101010101010101010101010101010101010101","logIndex":7}
payload {*} => {"body":"e30=","integratedTime":0,"logID":"0101010101010101010101010101010101010101010101010101010101010101","logIndex":0}
payload {*,"logIndex":9007199254740992,"integratedTime":-9223372036854775808} => {"body":"e30=","integratedTime":-9223372036854775808,"logID":"0101010101010101010101010101010101010101010101010101010101010101","logIndex":9007199254740992}
payload {*,"logIndex":9007199254740993} => none
payload {*,"logIndex":9223372036854775807} => none
payload {"logId":{"keyId":"q80="},"kindVersion":{"kind":"dsse","version":"0.0.1"},"canonicalizedBody":"+/8="} => {"body":"+/8=","integratedTime":0,"logID":"abcd","logIndex":0}
payload {"logId":{"keyId":""},"kindVersion":{"kind":"dsse","version":"0.0.1"},"canonicalizedBody":""} => {"body":"","integratedTime":0,"logID":"","logIndex":0}"#;

const INDICES: &str = r"index 0 => 0 0
index 9223372036854775807 => 9223372036854775807 9223372036854775807
index 9223372036854775808 => Field { member: LogIndex }
index 18446744073709551615 => Field { member: LogIndex }";

const MEANT: [(&str, &str); 4] = [
    ("*", REQUIRED),
    ("<ones>", "AQEBAQEBAQEBAQEBAQEBAQEBAQEBAQEBAQEBAQEBAQE="),
    ("<zeros>", "AAAAAAAAAAAAAAAAAAAAAAAAAAAAAAAAAAAAAAAAAAA="),
    ("<short>", "AAAAAAAAAAAAAAAAAAAAAAAAAAAAAAAAAAAAAAAAAA=="),
];

// The first of some octets, and how many there are.
fn part<X: AllocGlobal + Abort>(rt: &X, octets: &[u8]) -> String {
    let (first, length) = (first(rt, octets), octets.len());
    good(rt, format!(in rt.alloc(); "{first}/{length}"))
}

fn held<X: AllocGlobal + Abort>(rt: &X, held: &CheckpointData) -> String {
    match held.checkpoint() {
        Some(checkpoint) => displayed(rt, checkpoint.tree_size()),
        None => string(rt, "empty"),
    }
}

fn proof<X: AllocGlobal + Abort>(rt: &X, proof: &Option<InclusionProof>) -> String {
    match proof {
        Some(proof) => some_proof(rt, proof),
        None => string(rt, "-"),
    }
}

fn some_proof<X: AllocGlobal + Abort>(rt: &X, proof: &InclusionProof) -> String {
    let (index, size, count) = (proof.log_index.get(), proof.tree_size, proof.hashes.len());
    let root = first(rt, proof.root_hash.as_bytes());
    let checkpoint = held(rt, &proof.checkpoint);
    good(
        rt,
        format!(in rt.alloc(); "{index}/{root}/{size}/{count}/{checkpoint}"),
    )
}

fn signed<X: AllocGlobal + Abort>(rt: &X, number: Option<i64>) -> String {
    match number {
        Some(number) => displayed(rt, number),
        None => string(rt, "-"),
    }
}

fn promise<X: AllocGlobal + Abort>(rt: &X, entry: &TransparencyLogEntry) -> String {
    match &entry.inclusion_promise {
        Some(promise) => signed(rt, Some(promise.as_bytes().len() as i64)),
        None => signed(rt, None),
    }
}

// The place, the log's id, the kind and the version of an entry.
fn front<X: AllocGlobal + Abort>(rt: &X, entry: &TransparencyLogEntry) -> String {
    let (index, id) = (
        entry.log_index.get(),
        part(rt, entry.log_id.key_id.as_bytes()),
    );
    let (kind, version) = (entry.kind_version.kind(), entry.kind_version.version());
    good(rt, format!(in rt.alloc(); "{index} {id} {kind}/{version}"))
}

// The time, the promise and the proof of an entry.
fn middle<X: AllocGlobal + Abort>(rt: &X, entry: &TransparencyLogEntry) -> String {
    let (time, promise) = (signed(rt, entry.integrated_time), promise(rt, entry));
    let proof = proof(rt, &entry.inclusion_proof);
    good(rt, format!(in rt.alloc(); "{time} {promise} {proof}"))
}

// What an entry holds.
fn entry_told<X: AllocGlobal + Abort>(rt: &X, entry: &TransparencyLogEntry) -> String {
    let (front, middle) = (front(rt, entry), middle(rt, entry));
    let body = hexadecimal(rt, entry.canonicalized_body.as_bytes());
    good(rt, format!(in rt.alloc(); "{front} {middle} {body}"))
}

fn value<X: AllocGlobal + Abort>(rt: &X, text: &str) -> Value {
    good(rt, Value::from_str(rt.alloc(), text))
}

fn entry<X: AllocGlobal + Abort>(rt: &X, text: &str) -> Result<TransparencyLogEntry, TypesError> {
    let value = value(rt, text);
    let entry = TransparencyLogEntry::from_value(rt.alloc(), &value);
    drop(value);
    entry
}

// The same by the reader that all types share.
fn entry_in<X: AllocGlobal + Abort>(rt: &X, text: &str) -> TransparencyLogEntry {
    let value = value(rt, text);
    let entry = <TransparencyLogEntry as FromValue<TypesError>>::from_value(rt.alloc(), &value);
    drop(value);
    good(rt, entry)
}

fn read<X: AllocGlobal + Abort>(rt: &X, text: &str) -> String {
    match entry(rt, text) {
        Ok(entry) => read_told(rt, copied(rt, entry), text),
        Err(refusal) => printed(rt, refusal),
    }
}

fn read_told<X: AllocGlobal + Abort>(rt: &X, entry: TransparencyLogEntry, text: &str) -> String {
    equals(rt, entry_in(rt, text), &entry);
    let told = entry_told(rt, &entry);
    drop(entry);
    told
}

fn payload<X: AllocGlobal + Abort>(rt: &X, text: &str) -> String {
    let entry = entry_in(rt, text);
    let payload = promise_payload(rt.alloc(), &entry);
    drop(entry);
    match good(rt, payload) {
        Some(payload) => good(rt, String::from_utf8(payload.into_vec())),
        None => string(rt, "none"),
    }
}

fn index<X: AllocGlobal + Abort>(rt: &X, text: &str) -> String {
    match LogIndex::new(number(rt, text)) {
        Ok(index) => index_told(rt, index),
        Err(refusal) => printed(rt, refusal),
    }
}

fn index_told<X: AllocGlobal + Abort>(rt: &X, index: LogIndex) -> String {
    let (place, signed) = (index.get(), index.as_i64());
    good(rt, format!(in rt.alloc(); "{place} {signed}"))
}

/// The answer of a call that is given a text with marks.
pub fn answer<X: AllocGlobal + Abort>(rt: &X, given: &str) -> String {
    let (call, cell) = halves(rt, given, " ");
    let text = replaced(rt, cell, &MEANT);
    let answer = asked(rt, call, text.as_str());
    drop(text);
    answer
}

fn asked<X: AllocGlobal + Abort>(rt: &X, call: &str, text: &str) -> String {
    match place(call, "read payload index") {
        0 => read(rt, text),
        1 => payload(rt, text),
        2 => index(rt, text),
        _ => string(rt, "no call"),
    }
}

#[test]
fn entries_are_read_by_their_members(rt: HostRuntime) {
    hold(&rt, "entry", READ);
    hold(&rt, "entry", REFUSED);
    hold(&rt, "entry", OF_SIGSTORE);
    hold(&rt, "entry", PAYLOADS);
    hold(&rt, "entry", INDICES);
}
