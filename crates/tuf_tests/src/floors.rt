// A client whose repository goes back: what stays in force, alone and over a store.
use crate::client::version;
use crate::lying_repository::{LyingRepository, Reply};
use crate::provider::{One, OneKey, armor};
use crate::words::{check, filled, good, halves, printed, there, word};
use jiff::Timestamp;
use sigstore_tuf::*;
use sigstore_types_parts::Bytes;
use std::process::Abort;

// The documents by their kinds. The cells are, of a root its version and the id of its timestamp role; of a
// timestamp the id that signed it, its version and that of its pin; of a snapshot its version and a name that it
// pins besides; and the version of a targets document.
const FORMS: &str =
    r#"root {"signatures":[{"keyid":"k","sig":"01"}],"signed":{"_type":"root","spec_version":"1.0.0","version":*,"expires":"2031-01-01T00:00:00Z","keys":{"k":{"keytype":"ecdsa","scheme":"ecdsa-sha2-nistp256","keyval":{"public":"p"}},"l":{"keytype":"ecdsa","scheme":"ecdsa-sha2-nistp256","keyval":{"public":"p"}}},"roles":{"root":{"keyids":["k"],"threshold":1},"timestamp":{"keyids":["*"],"threshold":1},"snapshot":{"keyids":["k"],"threshold":1},"targets":{"keyids":["k"],"threshold":1}}}}
timestamp {"signatures":[{"keyid":"*","sig":"01"}],"signed":{"_type":"timestamp","spec_version":"1.0.0","version":*,"expires":"2031-01-01T00:00:00Z","meta":{"snapshot.json":{"version":*}}}}
snapshot {"signatures":[{"keyid":"k","sig":"01"}],"signed":{"_type":"snapshot","spec_version":"1.0.0","version":*,"expires":"2031-01-01T00:00:00Z","meta":{"*":{"version":1},"targets.json":{"version":4}}}}
targets {"signatures":[{"keyid":"k","sig":"01"}],"signed":{"_type":"targets","spec_version":"1.0.0","version":*,"expires":"2031-01-01T00:00:00Z","targets":{}}}"#;

fn form<X: Abort>(rt: &X, kind: &str) -> &'static str {
    for line in FORMS.lines() {
        let (name, form) = halves(rt, line, " ");
        if name == kind {
            return form;
        }
    }
    panic!(rt; "no document {kind}")
}

// A document: its kind and its cells.
fn document<X: AllocGlobal + Abort>(rt: &X, words: &str) -> String {
    let (kind, cells) = halves(rt, words, " ");
    filled(rt, form(rt, kind), cells)
}

// A document, `-` where nothing is there, or `!` where the call fails.
fn reply<X: AllocGlobal + Abort>(rt: &X, words: &str) -> Reply {
    if words == "-" {
        return Reply::Absent;
    }
    if words == "!" {
        return Reply::Failed;
    }
    let document = document(rt, words);
    let bytes = good(rt, Bytes::new(rt.alloc(), document.as_bytes()));
    drop(document);
    Reply::File(bytes)
}

// A repository with these replies.
fn repository<X: AllocGlobal + Abort>(rt: &X, list: &str) -> LyingRepository {
    let mut replies = Vec::new(rt.alloc());
    for words in list.split(", ") {
        good(rt, replies.push(reply(rt, words)));
    }
    LyingRepository::new(replies)
}

type Client<'a> = Updater<'a, One, OneKey, LyingRepository, MemoryStore>;

// The versions of root and timestamp, that of its pin, the snapshot's, and that of its pin of d.json.
fn versions<X: AllocGlobal + Abort>(rt: &X, set: &TrustedMetadataSet<One, OneKey>) -> String {
    let (root, timestamp, snapshot) = (set.root().version, set.timestamp(), set.snapshot());
    let pin = match timestamp {
        Some(timestamp) => Some(there(rt, timestamp.snapshot_meta()).version),
        None => None,
    };
    let role = match snapshot {
        Some(snapshot) => Some(there(rt, snapshot.meta.get("d.json")).version),
        None => None,
    };
    printed(rt, (root, version(timestamp), pin, version(snapshot), role))
}

// Refreshes as often as there are rows: a row is the answer, ` | ` and the versions then in force.
fn refreshed<X: AllocGlobal + Abort>(rt: &X, client: &mut Client, rows: &str) {
    let now: Timestamp = good(rt, "2025-01-01T00:00:00Z".parse());
    for row in rows.lines() {
        let (wanted, stands) = halves(rt, row, " | ");
        check(rt, row, wanted, word(rt, client.refresh(rt.alloc(), now)));
        check(rt, row, stands, versions(rt, client.trusted()));
    }
}

fn alone<X: AllocGlobal + Abort>(rt: &X, replies: &str, rows: &str) {
    let (armor, root, mut repo) = (
        armor(rt),
        document(rt, "root 1 | k"),
        repository(rt, replies),
    );
    let made = Updater::new(rt.alloc(), &One, &armor, &mut repo, root.as_bytes());
    let mut client: Client = good(rt, made);
    refreshed(rt, &mut client, rows);
    drop(client);
    drop(repo);
    drop(root);
    drop(armor);
}

fn over<X: AllocGlobal + Abort>(rt: &X, store: &mut MemoryStore, replies: &str, rows: &str) {
    let (armor, root, mut repo) = (
        armor(rt),
        document(rt, "root 1 | k"),
        repository(rt, replies),
    );
    let made = Updater::new(rt.alloc(), &One, &armor, &mut repo, root.as_bytes());
    let client: Client = good(rt, made);
    let mut client = good(rt, client.with_store(rt.alloc(), store));
    refreshed(rt, &mut client, rows);
    drop(client);
    drop(repo);
    drop(root);
    drop(armor);
}

const FALLS: &str =
    "-, timestamp k | 2 | 3, snapshot 3 | d.json, targets 4, -, timestamp k | 1 | 3, -, !, -";

const FALLEN: &str = r#"Ok | (1, Some(2), Some(3), Some(3), Some(1))
Rollback { role: "timestamp", trusted: 2, new: 1 } | (1, Some(2), Some(3), Some(3), Some(1))
Transport(Failed) | (1, Some(2), Some(3), Some(3), Some(1))
Transport(Absent) | (1, Some(2), Some(3), Some(3), Some(1))"#;

// Another timestamp of the same version.
const REPEATS: &str =
    "-, timestamp k | 2 | 3, snapshot 3 | d.json, targets 4, -, timestamp k | 2 | 9";

const REPEATED: &str = "Ok | (1, Some(2), Some(3), Some(3), Some(1))
Ok | (1, Some(2), Some(3), Some(3), Some(1))";

// A next snapshot without the pin of d.json.
const DROPS: &str =
    "-, timestamp k | 2 | 3, snapshot 3 | d.json, targets 4, -, timestamp k | 3 | 4, snapshot 4 | e.json";

const DROPPED: &str = "Ok | (1, Some(2), Some(3), Some(3), Some(1))
IntegrityMismatch(Vanished) | (1, Some(3), Some(4), Some(3), Some(1))";

// Under a next root a client has no floor but that of its store, and of that only what the next root's keys signed.
const TURNS: &str =
    "-, timestamp k | 2 | 3, snapshot 3 | d.json, targets 4, root 2 | k, -, timestamp k | 1 | 3, snapshot 3 | d.json, targets 4";

const TURNED: &str = "Ok | (1, Some(2), Some(3), Some(3), Some(1))
Ok | (2, Some(1), Some(3), Some(3), Some(1))";

const TURNED_OVER_A_STORE: &str = r#"Ok | (1, Some(2), Some(3), Some(3), Some(1))
Rollback { role: "timestamp", trusted: 2, new: 1 } | (2, Some(2), Some(3), Some(3), Some(1))"#;

const TAKES_BACK: &str =
    "-, timestamp k | 2 | 3, snapshot 3 | d.json, targets 4, root 2 | l, -, timestamp l | 1 | 3, snapshot 3 | d.json, targets 4";

const FIRST: &str = "-, timestamp k | 2 | 3, snapshot 3 | d.json, targets 4";

const FIRST_DONE: &str = "Ok | (1, Some(2), Some(3), Some(3), Some(1))";

const LATER: &str = "-, timestamp k | 1 | 3";

const LATER_REFUSED: &str =
    r#"Rollback { role: "timestamp", trusted: 2, new: 1 } | (1, Some(2), Some(3), Some(3), Some(1))"#;

#[test]
fn nothing_goes_below_what_was_trusted(rt: HostRuntime) {
    alone(&rt, FALLS, FALLEN);
    alone(&rt, REPEATS, REPEATED);
    alone(&rt, DROPS, DROPPED);
    alone(&rt, TURNS, TURNED);
}

#[test]
fn a_store_carries_the_floor(rt: HostRuntime) {
    let mut store = MemoryStore::new(rt.alloc());
    over(&rt, &mut store, TURNS, TURNED_OVER_A_STORE);
    drop(store);
    let mut store = MemoryStore::new(rt.alloc());
    over(&rt, &mut store, TAKES_BACK, TURNED);
    drop(store);
    let mut store = MemoryStore::new(rt.alloc());
    over(&rt, &mut store, FIRST, FIRST_DONE);
    over(&rt, &mut store, LATER, LATER_REFUSED);
    drop(store);
}
