// Under which names the documents of delegated roles and the files of targets are fetched and kept.
use crate::archives;
use crate::calls::answered;
use crate::trees::{put, put_snapshot, root, with_timestamp};
use crate::words::{filled, good, halves, hold, there};
use sigstore_tuf::{MemoryRepository, MemoryStore, MetadataStore, UpdaterConfig};
use std::process::Abort;

/// The answer of a call by this name; for any other name that of a call about archives.
pub fn answer<X: AllocGlobal + Abort>(rt: &X, call: &str, given: &str) -> String {
    match call {
        "name of a role" => role(rt, "false", given),
        "consistent name of a role" => role(rt, "true", given),
        "name of a target" => target(rt, "false", given),
        "consistent name of a target" => target(rt, "true", given),
        _ => archives::answer(rt, call, given),
    }
}

// A document that delegates the path f to the role of its star, and that of the role.
const DELEGATING: &str =
    r#"{"signatures":[{"keyid":"k","sig":"01"}],"signed":{"_type":"targets","spec_version":"1.0.0","version":2,"expires":"2031-01-01T00:00:00Z","targets":{},"delegations":{"keys":{"k":{"keytype":"ecdsa","scheme":"ecdsa-sha2-nistp256","keyval":{"public":"p"}}},"roles":[{"name":"*","keyids":["k"],"threshold":1,"paths":["f"]}]}}}"#;

const DELEGATED: &str =
    r#"{"signatures":[{"keyid":"k","sig":"01"}],"signed":{"_type":"targets","spec_version":"1.0.0","version":3,"expires":"2031-01-01T00:00:00Z","targets":{"f":{"length":2,"hashes":{"sha256":"44136fa355b3678a1146ad16f7e8649e94fb4fc21fe77e8310c060f61caaff8a"}}}}}"#;

// The file of the target f under consistent names, and else.
const DIGEST_NAME: &str = "44136fa355b3678a1146ad16f7e8649e94fb4fc21fe77e8310c060f61caaff8a.f";

// The name of a file, where the word for consistent names says so, and else.
fn name_of(consistent: &str, versioned: &'static str, plain: &'static str) -> &'static str {
    if consistent == "true" {
        versioned
    } else {
        plain
    }
}

// Puts a snapshot with this pin beside that of the targets document, and the targets document.
fn put_top<X: AllocGlobal + Abort>(
    rt: &X,
    repo: &mut MemoryRepository,
    consistent: &str,
    pin: &str,
    targets: &str,
) {
    let pins = good(
        rt,
        format!(in rt.alloc(); r#""targets.json":{{"version":2}},"{pin}.json":{{"version":3}}"#),
    );
    let name = name_of(consistent, "1.snapshot.json", "snapshot.json");
    put_snapshot(rt, repo, name, pins.as_str());
    drop(pins);
    put(
        rt,
        repo,
        name_of(consistent, "2.targets.json", "targets.json"),
        targets,
    );
}

// A repository that delegates to a role, which is pinned as another, with its document in a file.
fn delegating<X: AllocGlobal + Abort>(
    rt: &X,
    consistent: &str,
    role: &str,
    pin: &str,
    file: &str,
) -> MemoryRepository {
    let mut repo = with_timestamp(rt);
    let targets = filled(rt, DELEGATING, role);
    put_top(rt, &mut repo, consistent, pin, targets.as_str());
    drop(targets);
    put(rt, &mut repo, file, DELEGATED);
    let name = name_of(consistent, DIGEST_NAME, "f");
    good(rt, repo.put_target(rt.alloc(), name, b"{}"));
    repo
}

// Whether the store has the document of the role under a name.
fn is_kept<X: AllocGlobal + Abort>(rt: &X, store: &mut MemoryStore, name: &str) -> bool {
    match good(rt, store.load(rt.alloc(), name)) {
        Some(bytes) => {
            let same = bytes.as_bytes() == DELEGATED.as_bytes();
            drop(bytes);
            same
        }
        None => false,
    }
}

// A row: a role, the role as it is pinned, the file of its document, and its name in the store. The answer has
// the visits, and whether it is kept there.
fn role<X: AllocGlobal + Abort>(rt: &X, consistent: &str, row: &str) -> String {
    let (role, cells) = halves(rt, row, " | ");
    let (pin, cells) = halves(rt, cells, " | ");
    let (file, name) = halves(rt, cells, " | ");
    let (root, mut store) = (root(rt, consistent), MemoryStore::new(rt.alloc()));
    let mut repo = delegating(rt, consistent, role, pin, file);
    let config = UpdaterConfig::default();
    let found = answered(rt, config, root.as_str(), &mut repo, &mut store, "search f");
    let kept = is_kept(rt, &mut store, name);
    drop(root);
    drop(repo);
    drop(store);
    let answer = good(rt, format!(in rt.alloc(); "{found} {kept}"));
    drop(found);
    answer
}

// Bytes but letters, digits and the marks `-`, `.`, `_` and `~` are percent signs and two digits. A pin has the
// name of the role as it is.
const ROLES: &str = r#"d | d | d.json | d.json => root>targets@2 targets>d@3 true
a/b | a/b | a%2Fb.json | a%2Fb.json => root>targets@2 targets>a/b@3 true
a/b | a/b | a/b.json | a%2Fb.json => Transport(Absent) false
a/b | a/b | a%2fb.json | a%2Fb.json => Transport(Absent) false
a/b | a%2Fb | a%2Fb.json | a%2Fb.json => TargetNotFound { path: "f" } false
../d | ../d | ..%2Fd.json | ..%2Fd.json => root>targets@2 targets>../d@3 true
é%2F +Zz09-._~ | é%2F +Zz09-._~ | %C3%A9%252F%20%2BZz09-._~.json | %C3%A9%252F%20%2BZz09-._~.json => root>targets@2 targets>é%2F +Zz09-._~@3 true"#;

const CONSISTENT_ROLES: &str = "d | d | 3.d.json | d.json => root>targets@2 targets>d@3 true
d | d | 3.d.json | 3.d.json => root>targets@2 targets>d@3 false
d | d | d.json | d.json => Transport(Absent) false
a/b | a/b | 3.a%2Fb.json | a%2Fb.json => root>targets@2 targets>a/b@3 true";

// A document that lists a target; its stars are the target's path and its digests.
const LISTING: &str =
    r#"{"signatures":[{"keyid":"k","sig":"01"}],"signed":{"_type":"targets","spec_version":"1.0.0","version":2,"expires":"2031-01-01T00:00:00Z","targets":{"*":{"length":2,"hashes":{*}}}}}"#;

// A repository that lists a target by these cells, with its file `{}` under a name.
fn listing<X: AllocGlobal + Abort>(
    rt: &X,
    consistent: &str,
    cells: &str,
    name: &str,
) -> MemoryRepository {
    let mut repo = with_timestamp(rt);
    let targets = filled(rt, LISTING, cells);
    put_top(rt, &mut repo, consistent, "d", targets.as_str());
    drop(targets);
    good(rt, repo.put_target(rt.alloc(), name, b"{}"));
    repo
}

// A row: a path, the digests that are listed, and the name of the file. The answer is the file.
fn target<X: AllocGlobal + Abort>(rt: &X, consistent: &str, row: &str) -> String {
    let (cells, name) = there(rt, row.rsplit_once(" | "));
    let (path, _) = halves(rt, cells, " | ");
    let (root, mut store) = (root(rt, consistent), MemoryStore::new(rt.alloc()));
    let mut repo = listing(rt, consistent, cells, name);
    let call = good(rt, format!(in rt.alloc(); "get {path}"));
    let config = UpdaterConfig::default();
    let answer = answered(
        rt,
        config,
        root.as_str(),
        &mut repo,
        &mut store,
        call.as_str(),
    );
    drop(call);
    drop(root);
    drop(repo);
    drop(store);
    answer
}

const TARGETS: &str =
    r#"a/f | "sha256":"44136fa355b3678a1146ad16f7e8649e94fb4fc21fe77e8310c060f61caaff8a" | a/f => {}
a/f | "sha256":"44136fa355b3678a1146ad16f7e8649e94fb4fc21fe77e8310c060f61caaff8a" | a/44136fa355b3678a1146ad16f7e8649e94fb4fc21fe77e8310c060f61caaff8a.f => Transport(Absent)"#;

// By a script: SHA-256 and SHA-512 of `{}`. The digest in a name is written as the document writes it.
const CONSISTENT_TARGETS: &str =
    r#"f | "sha256":"44136fa355b3678a1146ad16f7e8649e94fb4fc21fe77e8310c060f61caaff8a" | 44136fa355b3678a1146ad16f7e8649e94fb4fc21fe77e8310c060f61caaff8a.f => {}
f | "sha256":"44136fa355b3678a1146ad16f7e8649e94fb4fc21fe77e8310c060f61caaff8a" | f => Transport(Absent)
a/b.c/f | "sha256":"44136fa355b3678a1146ad16f7e8649e94fb4fc21fe77e8310c060f61caaff8a" | a/b.c/44136fa355b3678a1146ad16f7e8649e94fb4fc21fe77e8310c060f61caaff8a.f => {}
a%2Fb/%40c%.d | "sha256":"44136fa355b3678a1146ad16f7e8649e94fb4fc21fe77e8310c060f61caaff8a" | a%2Fb/44136fa355b3678a1146ad16f7e8649e94fb4fc21fe77e8310c060f61caaff8a.%40c%.d => {}
f | "sha256":"44136FA355B3678A1146AD16F7E8649E94FB4FC21FE77E8310C060F61CAAFF8A" | 44136FA355B3678A1146AD16F7E8649E94FB4FC21FE77E8310C060F61CAAFF8A.f => {}
f | "sha256":"44136FA355B3678A1146AD16F7E8649E94FB4FC21FE77E8310C060F61CAAFF8A" | 44136fa355b3678a1146ad16f7e8649e94fb4fc21fe77e8310c060f61caaff8a.f => Transport(Absent)
f | "md5":"ab","sha512":"27c74670adb75075fad058d5ceaf7b20c4e7786c83bae8a32f626f9782af34c9a33c2046ef60fd2a7878d378e29fec851806bbd9a67878f3a9f1cda4830763fd" | 27c74670adb75075fad058d5ceaf7b20c4e7786c83bae8a32f626f9782af34c9a33c2046ef60fd2a7878d378e29fec851806bbd9a67878f3a9f1cda4830763fd.f => {}
f | "sha512":"27c74670adb75075fad058d5ceaf7b20c4e7786c83bae8a32f626f9782af34c9a33c2046ef60fd2a7878d378e29fec851806bbd9a67878f3a9f1cda4830763fd","sha256":"44136fa355b3678a1146ad16f7e8649e94fb4fc21fe77e8310c060f61caaff8a" | 44136fa355b3678a1146ad16f7e8649e94fb4fc21fe77e8310c060f61caaff8a.f => {}
f | "md5":"cd","a":"ab" | ab.f => IntegrityMismatch(NoDigest)
f | "md5":"cd","a":"ab" | f => Transport(Absent)
f |  | f => IntegrityMismatch(NoDigest)"#;

#[test]
fn names_of_files(rt: HostRuntime) {
    hold(&rt, "name of a role", ROLES);
    hold(&rt, "consistent name of a role", CONSISTENT_ROLES);
    hold(&rt, "name of a target", TARGETS);
    hold(&rt, "consistent name of a target", CONSISTENT_TARGETS);
}
