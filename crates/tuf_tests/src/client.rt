// The client over a repository in memory.
use crate::provider::{One, OneKey, armor};
use crate::searches;
use crate::thresholds::signatures;
use crate::words::{check, filled, good, halves, hold, printed, string, there, word};
use jiff::Timestamp;
use sigstore_keys::CryptoProvider;
use sigstore_tuf::*;
use sigstore_tuf_parts::{Role, TargetFile};
use sigstore_types_parts::{Armor, FailList};
use std::process::Abort;

/// The answer of a call by this name; for any other name that of a search.
pub fn answer<X: AllocGlobal + Abort>(rt: &X, call: &str, given: &str) -> String {
    match call {
        "limits by default" => printed(rt, UpdaterConfig::default()),
        "set of documents" => versions_of_a_set(rt),
        "next root of another key" => next_root(rt, given),
        _ => searches::answer(rt, call, given),
    }
}

const ROOT: &str =
    r#"{"signatures":[{"keyid":"k","sig":"01"}],"signed":{"_type":"root","spec_version":"1.0.0","version":1,"expires":"2031-01-01T00:00:00Z","keys":{"k":{"keytype":"ecdsa","scheme":"ecdsa-sha2-nistp256","keyval":{"public":"p"}}},"roles":{"root":{"keyids":["k"],"threshold":1},"timestamp":{"keyids":["k"],"threshold":1},"snapshot":{"keyids":["k"],"threshold":1},"targets":{"keyids":["k"],"threshold":1}}}}"#;

const TIMESTAMP: &str =
    r#"{"signatures":[{"keyid":"k","sig":"01"}],"signed":{"_type":"timestamp","spec_version":"1.0.0","version":2,"expires":"2030-01-01T00:00:00Z","meta":{"snapshot.json":{"version":3}}}}"#;

// Timestamps of a store: one that is signed, and one that isn't.
const NEWER: &str =
    r#"{"signatures":[{"keyid":"k","sig":"01"}],"signed":{"_type":"timestamp","spec_version":"1.0.0","version":3,"expires":"2030-01-01T00:00:00Z","meta":{"snapshot.json":{"version":3}}}}"#;

const UNSIGNED: &str =
    r#"{"signatures":[{"keyid":"k","sig":"02"}],"signed":{"_type":"timestamp","spec_version":"1.0.0","version":3,"expires":"2030-01-01T00:00:00Z","meta":{"snapshot.json":{"version":3}}}}"#;

const SNAPSHOT: &str =
    r#"{"signatures":[{"keyid":"k","sig":"01"}],"signed":{"_type":"snapshot","spec_version":"1.0.0","version":3,"expires":"2031-01-01T00:00:00Z","meta":{"targets.json":{"version":4}}}}"#;

const TARGETS: &str =
    r#"{"signatures":[{"keyid":"k","sig":"01"}],"signed":{"_type":"targets","spec_version":"1.0.0","version":4,"expires":"2031-01-01T00:00:00Z","targets":{"a":{"length":2,"hashes":{"sha256":"44136fa355b3678a1146ad16f7e8649e94fb4fc21fe77e8310c060f61caaff8a"}}}}}"#;

// The root of this version.
fn root<X: AllocGlobal + Abort>(rt: &X, version: &str) -> String {
    let version = good(rt, format!(in rt.alloc(); "\"version\":{version}"));
    let root = ROOT.replace(rt.alloc(), "\"version\":1", version.as_str());
    drop(version);
    good(rt, root)
}

// What a client finds: the version of the given root, the least number of which the repository has no next
// root, the timestamps of the repository and of the store (an empty text is none), the moment, and how many
// next roots it takes at most.
#[derive(Clone, Copy)]
struct Setting<'a> {
    version: &'a str,
    absent_root: u32,
    timestamp: &'a str,
    kept: &'a str,
    now: &'a str,
    most: u32,
}

const USUAL: Setting = Setting {
    version: "1",
    absent_root: 2,
    timestamp: TIMESTAMP,
    kept: "",
    now: "2025-01-01T00:00:00Z",
    most: 32,
};

fn put<X: AllocGlobal + Abort>(rt: &X, repo: &mut MemoryRepository, name: &str, text: &str) {
    if !text.is_empty() {
        good(rt, repo.put_metadata(rt.alloc(), name, text.as_bytes()));
    }
}

fn put_root<X: AllocGlobal + Abort>(rt: &X, repo: &mut MemoryRepository, number: u32) {
    let version = printed(rt, number);
    let name = good(rt, format!(in rt.alloc(); "{version}.root.json"));
    let root = root(rt, version.as_str());
    put(rt, repo, name.as_str(), root.as_str());
    drop(version);
    drop(name);
    drop(root);
}

// Puts the next roots below this number.
fn put_roots<X: AllocGlobal + Abort>(rt: &X, repo: &mut MemoryRepository, absent: u32) {
    for number in 2..absent {
        put_root(rt, repo, number);
    }
}

fn repository<X: AllocGlobal + Abort>(rt: &X, setting: Setting) -> MemoryRepository {
    let failures = there(rt, FailList::new(Vec::new(rt.alloc())));
    let mut repo = MemoryRepository::new(rt.alloc(), failures);
    put_roots(rt, &mut repo, setting.absent_root);
    put(rt, &mut repo, "timestamp.json", setting.timestamp);
    put(rt, &mut repo, "snapshot.json", SNAPSHOT);
    put(rt, &mut repo, "targets.json", TARGETS);
    good(rt, repo.put_target(rt.alloc(), "a", b"{}"));
    repo
}

// A store that has this timestamp.
fn store<X: AllocGlobal + Abort>(rt: &X, kept: &str) -> MemoryStore {
    let mut store = MemoryStore::new(rt.alloc());
    if !kept.is_empty() {
        good(
            rt,
            store.store(rt.alloc(), "timestamp.json", kept.as_bytes()),
        );
    }
    store
}

const LIMITS: &str =
    " => UpdaterConfig { root_max_length: 512000, timestamp_max_length: 16384, snapshot_max_length: 2000000, targets_max_length: 5000000, target_max_length: 50000000, max_root_rotations: 32, max_delegations: 32 }";

/// The version of a document that is there.
pub fn version<T: Role>(document: Option<&T>) -> Option<u64> {
    match document {
        Some(document) => Some(document.version()),
        None => None,
    }
}

// The versions of the documents that are there.
fn versions<X: AllocGlobal + Abort, C: CryptoProvider, M: Armor>(
    rt: &X,
    set: &TrustedMetadataSet<C, M>,
) -> String {
    let root = set.root().version;
    let (timestamp, snapshot) = (version(set.timestamp()), version(set.snapshot()));
    let targets = version(set.targets_role("targets"));
    printed(rt, (root, timestamp, snapshot, targets))
}

fn versions_of_a_set<X: AllocGlobal + Abort>(rt: &X) -> String {
    let armor = armor(rt);
    let made = TrustedMetadataSet::from_root(rt.alloc(), &One, &armor, ROOT.as_bytes());
    let mut set = good(rt, made);
    let second = root(rt, "2");
    let now = good(rt, "2025-01-01T00:00:00Z".parse());
    good(rt, set.update_root(rt.alloc(), second.as_bytes()));
    good(rt, set.check_root_expired(rt.alloc(), now));
    good(
        rt,
        set.update_timestamp(rt.alloc(), TIMESTAMP.as_bytes(), now),
    );
    good(rt, set.check_timestamp_expired(rt.alloc(), now));
    good(
        rt,
        set.update_snapshot(rt.alloc(), SNAPSHOT.as_bytes(), now),
    );
    good(rt, set.check_snapshot_expired(rt.alloc(), now));
    good(rt, set.update_targets(rt.alloc(), TARGETS.as_bytes(), now));
    assert!(rt;
        set.root_bytes() == second.as_bytes(),
        "the bytes of the root in force"
    );
    let answer = versions(rt, &set);
    drop(second);
    drop(set);
    drop(armor);
    answer
}

// A next root whose root role has another key; its star is its signatures.
const OF_ANOTHER_KEY: &str =
    r#"{"signatures":[{"keyid":"*"}],"signed":{"_type":"root","spec_version":"1.0.0","version":2,"expires":"2031-01-01T00:00:00Z","keys":{"l":{"keytype":"ecdsa","scheme":"ecdsa-sha2-nistp256","keyval":{"public":"p"}}},"roles":{"root":{"keyids":["l"],"threshold":1}}}}"#;

// The word for that root behind the root of the key k, signed by words of an id, `=` and a signature.
fn next_root<X: AllocGlobal + Abort>(rt: &X, words: &str) -> String {
    let signatures = signatures(rt, words);
    let next = filled(rt, OF_ANOTHER_KEY, signatures.as_str());
    drop(signatures);
    let armor = armor(rt);
    let made = TrustedMetadataSet::from_root(rt.alloc(), &One, &armor, ROOT.as_bytes());
    let mut set = good(rt, made);
    let answer = set.update_root(rt.alloc(), next.as_bytes());
    drop(set);
    drop(armor);
    drop(next);
    word(rt, answer)
}

const OTHER_KEYS: &str = r#"k=01 l=01 => Ok
k=01 => ThresholdNotMet { role: "root", found: 0, threshold: 1 }
l=01 => ThresholdNotMet { role: "root", found: 0, threshold: 1 }"#;

// How many roots and roles a chain has, whether its documents are those of the repository, the length of
// its target, and its file.
fn shown<X: AllocGlobal + Abort>(rt: &X, chain: &TrustChain) -> String {
    let (roots, roles, length) = (chain.roots.len(), chain.roles.len(), chain.target.length);
    let timestamp = chain.timestamp.as_bytes() == TIMESTAMP.as_bytes();
    let snapshot = chain.snapshot.as_bytes() == SNAPSHOT.as_bytes();
    let file = &chain.file;
    printed(rt, (roots, roles, timestamp, snapshot, length, file))
}

type Client<'a> = Updater<'a, One, OneKey, MemoryRepository, MemoryStore>;

fn chain_shown<X: AllocGlobal + Abort>(rt: &X, client: &Client) -> String {
    match good(rt, client.chain(rt.alloc())) {
        Some(chain) => {
            let answer = shown(rt, &chain);
            drop(chain);
            answer
        }
        None => string(rt, "none"),
    }
}

// The listed length of the target `a`.
fn info<X: AllocGlobal + Abort>(rt: &X, client: &mut Client, now: Timestamp) -> TargetFile {
    there(rt, good(rt, client.get_target_info(rt.alloc(), "a", now)))
}

fn told<X: AllocGlobal + Abort>(rt: &X, client: &mut Client, call: &str, now: Timestamp) -> String {
    match call {
        "chain" => chain_shown(rt, client),
        "length" => {
            let target = info(rt, client, now);
            let length = target.length;
            drop(target);
            printed(rt, length)
        }
        "kept" => {
            let target = info(rt, client, now);
            let file = client.find_cached_target(rt.alloc(), &target, "a");
            drop(target);
            printed(rt, file)
        }
        "file" => {
            let target = info(rt, client, now);
            let file = client.download_target(rt.alloc(), &target, "a");
            drop(target);
            printed(rt, file)
        }
        "refresh" => word(rt, client.refresh(rt.alloc(), now)),
        "versions" => versions(rt, client.trusted()),
        path => printed(rt, client.get_target(rt.alloc(), path, now)),
    }
}

fn told_all<X: AllocGlobal + Abort>(rt: &X, client: &mut Client, now: Timestamp, rows: &str) {
    for row in rows.lines() {
        let (call, wanted) = halves(rt, row, " => ");
        check(rt, row, wanted, told(rt, client, call, now));
    }
}

// Tries calls of one client, one after the other.
fn called<X: AllocGlobal + Abort>(rt: &X, setting: Setting, rows: &str) {
    let config = UpdaterConfig {
        max_root_rotations: setting.most,
        ..UpdaterConfig::default()
    };
    let (armor, root) = (armor(rt), root(rt, setting.version));
    let (mut repo, mut store) = (repository(rt, setting), store(rt, setting.kept));
    let made = Updater::new(rt.alloc(), &One, &armor, &mut repo, root.as_bytes());
    let client: Client = good(rt, made).with_config(config);
    let mut client = good(rt, client.with_store(rt.alloc(), &mut store));
    told_all(rt, &mut client, good(rt, setting.now.parse()), rows);
    drop(client);
    drop(store);
    drop(repo);
    drop(root);
    drop(armor);
}

// The file `a` is `{}`.
const CALLS: &str = "chain => none
refresh => Ok
versions => (1, Some(2), Some(3), Some(4))
length => 2
kept => Ok(None)
file => Ok([123, 125])
kept => Ok(Some([123, 125]))
a => Ok([123, 125])
chain => (1, 1, true, true, 2, [123, 125])";

const EXPIRED: &str = r#"refresh => Expired { role: "timestamp", expires: 2030-01-01T00:00:00Z }"#;

const LIMITED: &str = "refresh => Transport(Rotations { max: 0 })";

const ABSENT: &str = "refresh => Transport(Absent)";

#[test]
fn clients(rt: HostRuntime) {
    hold(&rt, "limits by default", LIMITS);
    hold(
        &rt,
        "set of documents",
        " => (2, Some(2), Some(3), Some(4))",
    );
    let late = Setting {
        now: "2030-01-01T00:00:00Z",
        ..USUAL
    };
    let too_late = Setting {
        now: "2030-01-01T00:00:01Z",
        ..USUAL
    };
    let absent = Setting {
        timestamp: "",
        ..USUAL
    };
    called(&rt, USUAL, CALLS);
    called(&rt, late, "refresh => Ok");
    called(&rt, too_late, EXPIRED);
    called(&rt, absent, ABSENT);
}

#[test]
fn a_next_root_meets_the_old_root_and_itself(rt: HostRuntime) {
    hold(&rt, "next root of another key", OTHER_KEYS);
}

// The root of the greatest number has no next, so that none is fetched.
const THIRTY_ONE_ROOTS: &str = "refresh => Ok
versions => (32, Some(2), Some(3), Some(4))";

const THIRTY_TWO_ROOTS: &str = "refresh => Transport(Rotations { max: 32 })
versions => (33, None, None, None)";

const GREATEST_ROOT: &str = "refresh => Ok
versions => (18446744073709551615, Some(2), Some(3), Some(4))";

#[test]
fn next_roots_up_to_the_limit(rt: HostRuntime) {
    let below = Setting {
        absent_root: 33,
        ..USUAL
    };
    let at_the_limit = Setting {
        absent_root: 34,
        ..USUAL
    };
    let none = Setting { most: 0, ..USUAL };
    let greatest = Setting {
        version: "18446744073709551615",
        ..none
    };
    called(&rt, below, THIRTY_ONE_ROOTS);
    called(&rt, at_the_limit, THIRTY_TWO_ROOTS);
    called(&rt, none, LIMITED);
    called(&rt, greatest, GREATEST_ROOT);
}

const ROLLED_BACK: &str = r#"refresh => Rollback { role: "timestamp", trusted: 3, new: 2 }
versions => (1, Some(3), None, None)"#;

const PASSED_OVER: &str = "refresh => Ok
versions => (1, Some(2), Some(3), Some(4))";

#[test]
fn a_signed_timestamp_of_the_store_is_a_floor(rt: HostRuntime) {
    let signed = Setting {
        kept: NEWER,
        ..USUAL
    };
    let unsigned = Setting {
        kept: UNSIGNED,
        ..USUAL
    };
    called(&rt, signed, ROLLED_BACK);
    called(&rt, unsigned, PASSED_OVER);
}
