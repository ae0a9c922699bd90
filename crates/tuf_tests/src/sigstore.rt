// A repository of the shape of Sigstore's own: five holders of the root, three of whom sign; names are
// consistent; the root has been rotated, and one holder replaced by another; what belongs to npm stands
// under a delegation, with slashes and percent signs in the names of the targets.
use crate::calls::{called, kept_all};
use crate::thresholds::signatures;
use crate::trees::put;
use crate::words::{filled, good, there};
use sigstore_tuf::{MemoryRepository, MemoryStore};
use sigstore_types_parts::FailList;
use std::process::Abort;

// A root, whose stars are its signatures, the id of its fifth holder (three times), and its version.
const ROOT: &str =
    r#"{"signatures":[{"keyid":"*"}],"signed":{"_type":"root","consistent_snapshot":true,"expires":"2031-01-01T00:00:00Z","keys":{"ann":{"keytype":"ecdsa","keyval":{"public":"p"},"scheme":"ecdsa-sha2-nistp256","x-tuf-on-ci-keyowner":"@ann"},"bob":{"keytype":"ecdsa","keyval":{"public":"p"},"scheme":"ecdsa-sha2-nistp256","x-tuf-on-ci-keyowner":"@bob"},"cyd":{"keytype":"ecdsa","keyval":{"public":"p"},"scheme":"ecdsa-sha2-nistp256"},"dee":{"keytype":"ecdsa","keyval":{"public":"p"},"scheme":"ecdsa-sha2-nistp256"},"*":{"keytype":"ecdsa","keyval":{"public":"p"},"scheme":"ecdsa-sha2-nistp256"},"online":{"keytype":"ecdsa","keyval":{"public":"p"},"scheme":"ecdsa-sha2-nistp256","x-tuf-on-ci-online-uri":"gcpkms:projects/p"}},"roles":{"root":{"keyids":["ann","bob","cyd","dee","*"],"threshold":3},"snapshot":{"keyids":["online"],"threshold":1,"x-tuf-on-ci-expiry-period":3650,"x-tuf-on-ci-signing-period":365},"targets":{"keyids":["ann","bob","cyd","dee","*"],"threshold":3},"timestamp":{"keyids":["online"],"threshold":1,"x-tuf-on-ci-expiry-period":7,"x-tuf-on-ci-signing-period":6}},"spec_version":"1.0","version":*,"x-tuf-on-ci-expiry-period":197,"x-tuf-on-ci-signing-period":46}}"#;

const TIMESTAMP: &str =
    r#"{"signatures":[{"keyid":"online","sig":"01"}],"signed":{"_type":"timestamp","expires":"2026-01-07T00:00:00Z","meta":{"snapshot.json":{"version":159}},"spec_version":"1.0","version":300}}"#;

const SNAPSHOT: &str =
    r#"{"signatures":[{"keyid":"online","sig":"01"}],"signed":{"_type":"snapshot","expires":"2031-01-01T00:00:00Z","meta":{"registry.npmjs.org.json":{"version":3},"targets.json":{"version":12}},"spec_version":"1.0","version":159}}"#;

// Two holders didn't sign, which is said by empty signatures. Eve is a holder in the last root alone.
const TARGETS: &str =
    r#"{"signatures":[{"keyid":"ann","sig":""},{"keyid":"bob","sig":"01"},{"keyid":"cyd","sig":"01"},{"keyid":"dee","sig":""},{"keyid":"eve","sig":"01"}],"signed":{"_type":"targets","delegations":{"keys":{"npm":{"keytype":"ecdsa","keyval":{"public":"p"},"scheme":"ecdsa-sha2-nistp256"}},"roles":[{"keyids":["npm"],"name":"registry.npmjs.org","paths":["registry.npmjs.org/*"],"terminating":true,"threshold":1}]},"expires":"2031-01-01T00:00:00Z","spec_version":"1.0","targets":{"rekor.pub":{"custom":{"sigstore":{"status":"Active","uri":"https://rekor.sigstore.dev","usage":"Rekor"}},"hashes":{"sha256":"00"},"length":178},"trusted_root.json":{"hashes":{"sha256":"44136fa355b3678a1146ad16f7e8649e94fb4fc21fe77e8310c060f61caaff8a"},"length":2}},"version":12,"x-tuf-on-ci-expiry-period":197,"x-tuf-on-ci-signing-period":46}}"#;

// By a script: SHA-256 of `{"keys":[]}`, and SHA-512 of `[]`.
const REGISTRY: &str =
    r#"{"signatures":[{"keyid":"npm","sig":"01"}],"signed":{"_type":"targets","expires":"2031-01-01T00:00:00Z","spec_version":"1.0","targets":{"registry.npmjs.org/keys.json":{"hashes":{"sha256":"9638d11914735d0072002dd4d67c734a94ee7a0cd845e6dcbc984ee7581860a7"},"length":11},"registry.npmjs.org/%40sigstore%2Fcli.json":{"hashes":{"sha512":"b25b294cb4deb69ea00a4c3cf3113904801b6015e5956bd019a8570b1fe1d6040e944ef3cdee16d0a46503ca6e659a25f21cf9ceddc13f352a3c98138c15d6af"},"length":2}},"version":3}}"#;

// The name of a root, and its text by its cells.
fn put_root<X: AllocGlobal + Abort>(
    rt: &X,
    repo: &mut MemoryRepository,
    name: &str,
    signers: &str,
    cells: &str,
) {
    let root = root(rt, signers, cells);
    put(rt, repo, name, root.as_str());
    drop(root);
}

// A root that is signed by words of an id, `=` and a signature.
fn root<X: AllocGlobal + Abort>(rt: &X, signers: &str, cells: &str) -> String {
    let signatures = signatures(rt, signers);
    let cells = good(rt, format!(in rt.alloc(); "{signatures} | {cells}"));
    drop(signatures);
    let root = filled(rt, ROOT, cells.as_str());
    drop(cells);
    root
}

// The last root is signed by three holders as the one before it asks, and by three as it asks itself.
fn repository<X: AllocGlobal + Abort>(rt: &X) -> MemoryRepository {
    let failures = there(rt, FailList::new(Vec::new(rt.alloc())));
    let mut repo = MemoryRepository::new(rt.alloc(), failures);
    let holders = "ann=01 bob= cyd=01 dee=01 abe=";
    put_root(rt, &mut repo, "6.root.json", holders, "abe | abe | abe | 6");
    let holders = "ann=01 bob=01 cyd= dee= eve=01 abe=01";
    put_root(rt, &mut repo, "7.root.json", holders, "eve | eve | eve | 7");
    put(rt, &mut repo, "timestamp.json", TIMESTAMP);
    put(rt, &mut repo, "159.snapshot.json", SNAPSHOT);
    put(rt, &mut repo, "12.targets.json", TARGETS);
    put(rt, &mut repo, "3.registry.npmjs.org.json", REGISTRY);
    put_target(rt, &mut repo, TRUST_FILE, "{}");
    put_target(rt, &mut repo, KEYS, "{\"keys\":[]}");
    put_target(rt, &mut repo, CLI, "[]");
    repo
}

fn put_target<X: AllocGlobal + Abort>(rt: &X, repo: &mut MemoryRepository, name: &str, text: &str) {
    good(rt, repo.put_target(rt.alloc(), name, text.as_bytes()));
}

const TRUST_FILE: &str =
    "44136fa355b3678a1146ad16f7e8649e94fb4fc21fe77e8310c060f61caaff8a.trusted_root.json";

const KEYS: &str =
    "registry.npmjs.org/9638d11914735d0072002dd4d67c734a94ee7a0cd845e6dcbc984ee7581860a7.keys.json";

const CLI: &str =
    "registry.npmjs.org/b25b294cb4deb69ea00a4c3cf3113904801b6015e5956bd019a8570b1fe1d6040e944ef3cdee16d0a46503ca6e659a25f21cf9ceddc13f352a3c98138c15d6af.%40sigstore%2Fcli.json";

const CALLS: &str = r#"versions => (5, None, None, None)
refresh => Ok
versions => (7, Some(300), Some(159), Some(12))
role registry.npmjs.org => None
get trusted_root.json => {}
chain => root>targets@12
get registry.npmjs.org/keys.json => {"keys":[]}
chain => root>targets@12 targets>registry.npmjs.org@3
role registry.npmjs.org => Some(3)
get registry.npmjs.org/%40sigstore%2Fcli.json => []
info registry.npmjs.org/keys.json => 11
info registry.npmjs.org/@sigstore/cli.json => none
info registry.npmjs.org/other.json => none
get registry.npmjs.org/other.json => TargetNotFound { path: "registry.npmjs.org/other.json" }
chain => root>targets@12 targets>registry.npmjs.org@3"#;

const KEPT: &str = "root.json => 7.root.json
root_history/6.root.json => 6.root.json
root_history/7.root.json => 7.root.json
timestamp.json => timestamp.json
snapshot.json => 159.snapshot.json
159.snapshot.json => 159.snapshot.json
targets.json => 12.targets.json
12.targets.json => none
registry.npmjs.org.json => 3.registry.npmjs.org.json
3.registry.npmjs.org.json => none
targets/trusted_root.json => targets/44136fa355b3678a1146ad16f7e8649e94fb4fc21fe77e8310c060f61caaff8a.trusted_root.json
targets/registry.npmjs.org/keys.json => targets/registry.npmjs.org/9638d11914735d0072002dd4d67c734a94ee7a0cd845e6dcbc984ee7581860a7.keys.json
targets/registry.npmjs.org/%40sigstore%2Fcli.json => targets/registry.npmjs.org/b25b294cb4deb69ea00a4c3cf3113904801b6015e5956bd019a8570b1fe1d6040e944ef3cdee16d0a46503ca6e659a25f21cf9ceddc13f352a3c98138c15d6af.%40sigstore%2Fcli.json";

// A later run begins with the store's roots.
const LATER: &str = r#"versions => (7, None, None, None)
refresh => Ok
get registry.npmjs.org/keys.json => {"keys":[]}
chain => root>targets@12 targets>registry.npmjs.org@3"#;

#[test]
fn a_repository_like_that_of_sigstore(rt: HostRuntime) {
    let holders = "ann=01 bob=01 cyd=01 dee= abe=";
    let root = root(&rt, holders, "abe | abe | abe | 5");
    let (mut repo, mut store) = (repository(&rt), MemoryStore::new(rt.alloc()));
    called(&rt, root.as_str(), &mut repo, &mut store, CALLS);
    kept_all(&rt, &mut repo, &mut store, KEPT);
    called(&rt, root.as_str(), &mut repo, &mut store, LATER);
    drop(root);
    drop(repo);
    drop(store);
}
