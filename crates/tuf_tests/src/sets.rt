// The documents of delegated roles in a set of documents, put there and looked at one by one.
use crate::client::version;
use crate::provider::{One, OneKey, armor};
use crate::trees::{repository, root, split_or};
use crate::words::{check, good, printed, there};
use jiff::Timestamp;
use sigstore_tuf::*;
use sigstore_types_parts::Bytes;
use std::process::Abort;

type Documents<'p> = TrustedMetadataSet<'p, One, OneKey>;

// A document of the repository; of a name that it hasn't one byte.
fn bytes<X: AllocGlobal + Abort>(rt: &X, repo: &mut MemoryRepository, role: &str) -> Bytes {
    let name = good(rt, format!(in rt.alloc(); "{role}.json"));
    let bytes = good(
        rt,
        repo.fetch_metadata(rt.alloc(), name.as_str(), 1_000_000),
    );
    drop(name);
    match bytes {
        Some(bytes) => bytes,
        None => good(rt, Bytes::new(rt.alloc(), b"x")),
    }
}

// Puts the top-level documents of a repository in force.
fn put_top<X: AllocGlobal + Abort>(rt: &X, set: &mut Documents, repo: &mut MemoryRepository) {
    let now = good(rt, "2025-01-01T00:00:00Z".parse());
    let timestamp = bytes(rt, repo, "timestamp");
    good(
        rt,
        set.update_timestamp(rt.alloc(), timestamp.as_bytes(), now),
    );
    drop(timestamp);
    let snapshot = bytes(rt, repo, "snapshot");
    good(
        rt,
        set.update_snapshot(rt.alloc(), snapshot.as_bytes(), now),
    );
    drop(snapshot);
    let targets = bytes(rt, repo, "targets");
    good(rt, set.update_targets(rt.alloc(), targets.as_bytes(), now));
    drop(targets);
}

fn updated<X: AllocGlobal + Abort>(
    rt: &X,
    set: &mut Documents,
    repo: &mut MemoryRepository,
    role: &str,
    delegator: &str,
    now: Timestamp,
) -> String {
    let bytes = bytes(rt, repo, role);
    let answer = set.update_delegated_targets(rt.alloc(), bytes.as_bytes(), role, delegator, now);
    drop(bytes);
    printed(rt, answer)
}

fn verified<X: AllocGlobal + Abort>(
    rt: &X,
    set: &Documents,
    role: &str,
    delegator: &str,
    now: Timestamp,
) -> String {
    match set.verify_delegated_targets(rt.alloc(), role, delegator, now) {
        Ok(targets) => printed(rt, targets.version),
        Err(refusal) => printed(rt, refusal),
    }
}

// A call: a word, a delegator, `>` and a role, and behind ` at ` the moment.
fn told<X: AllocGlobal + Abort>(
    rt: &X,
    set: &mut Documents,
    repo: &mut MemoryRepository,
    call: &str,
) -> String {
    let (call, moment) = split_or(call, " at ", "2025-01-01T00:00:00Z");
    let (call, asked) = split_or(call, " ", "");
    let (delegator, role) = split_or(asked, ">", "");
    let now = good(rt, moment.parse());
    match call {
        "update" => updated(rt, set, repo, role, delegator, now),
        "verify" => verified(rt, set, role, delegator, now),
        "version" => printed(rt, version(set.targets_role(asked))),
        _ => panic!(rt; "no call {call}"),
    }
}

fn told_all<X: AllocGlobal + Abort>(
    rt: &X,
    set: &mut Documents,
    repo: &mut MemoryRepository,
    rows: &str,
) {
    for row in rows.lines() {
        let (call, wanted) = there(rt, row.rsplit_once(" => "));
        check(rt, row, wanted, told(rt, set, repo, call));
    }
}

const LINE: &str = "targets > a d=l:x e; a > d b; brief d; unpinned e; newer b";

// The delegation is looked at first, then the pin and the document, and the expiry last.
const CALLS: &str = r#"update targets>timestamp => Err(Malformed(TopLevel))
update a>d => Err(UnknownRole { name: "a" })
update targets>x => Err(UnknownRole { name: "x" })
update targets>e => Err(Malformed(Unpinned))
update targets>d => Err(ThresholdNotMet { role: "d", found: 0, threshold: 1 })
verify targets>a => UnknownRole { name: "a" }
update targets>a => Ok(())
verify targets>a => 1
update a>b => Err(IntegrityMismatch(Version))
update a>d at 2026-01-01T00:00:01Z => Err(Expired { role: "d", expires: 2026-01-01T00:00:00Z })
version d => None
update a>d at 2026-01-01T00:00:00Z => Ok(())
version d => Some(1)
verify a>d at 2026-01-01T00:00:01Z => Expired { role: "d", expires: 2026-01-01T00:00:00Z }
verify a>d => 1
verify targets>d => ThresholdNotMet { role: "d", found: 0, threshold: 1 }
verify targets>root => Malformed(TopLevel)
update d>b => Err(Malformed(NoDelegations))
version b => None"#;

#[test]
fn documents_of_delegated_roles(rt: HostRuntime) {
    let (root, mut repo, armor) = (root(&rt, "false"), repository(&rt, LINE), armor(&rt));
    let made = TrustedMetadataSet::from_root(rt.alloc(), &One, &armor, root.as_bytes());
    let mut set: Documents = good(&rt, made);
    put_top(&rt, &mut set, &mut repo);
    told_all(&rt, &mut set, &mut repo, CALLS);
    drop(set);
    drop(armor);
    drop(repo);
    drop(root);
}
