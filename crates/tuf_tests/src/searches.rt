// The order of the search over delegated roles, and why it is refused.
use crate::calls::{answered, called, kept_all};
use crate::names;
use crate::requests::requested;
use crate::trees::{repository, root};
use crate::words::{good, halves, hold};
use sigstore_tuf::{MemoryStore, UpdaterConfig};
use std::process::Abort;

/// The answer of a call by this name; for any other name that of a call about names of files.
pub fn answer<X: AllocGlobal + Abort>(rt: &X, call: &str, given: &str) -> String {
    match call {
        "search" => searched(rt, UpdaterConfig::default(), given),
        "limited search" => limited(rt, given),
        "requests" => requested(rt, given),
        _ => names::answer(rt, call, given),
    }
}

// The visits of the search for the path f over the repository of a line, or why there are none.
fn searched<X: AllocGlobal + Abort>(rt: &X, config: UpdaterConfig, line: &str) -> String {
    let (root, mut repo) = (root(rt, "false"), repository(rt, line));
    let mut store = MemoryStore::new(rt.alloc());
    let answer = answered(rt, config, root.as_str(), &mut repo, &mut store, "search f");
    drop(store);
    drop(repo);
    drop(root);
    answer
}

// A row: how many visits are allowed, and the line.
fn limited<X: AllocGlobal + Abort>(rt: &X, row: &str) -> String {
    let (most, line) = halves(rt, row, " | ");
    let config = UpdaterConfig {
        max_delegations: good(rt, most.parse::<u32>()),
        ..UpdaterConfig::default()
    };
    searched(rt, config, line)
}

// A row of these tables: a repository's line, and the visits or the refusal. A visit is the delegator, `>` and
// the role, and `@` and the version of the document where there is one. The matching delegations are walked in
// order, each with all below it before the next one.
const ORDERS: &str = r#"targets f > d; d f => root>targets@1
targets > d; d f => root>targets@1 targets>d@1
targets > d:x; d f => TargetNotFound { path: "f" }
targets > d; d g => TargetNotFound { path: "f" }
targets > e d; e; d f => root>targets@1 targets>e@1 targets>d@1
targets > a b; a > c; b f; c f => root>targets@1 targets>a@1 a>c@1
targets > a b; a > c; b f; c => root>targets@1 targets>a@1 a>c@1 targets>b@1
targets > a:x b; a f; b > a => root>targets@1 targets>b@1 b>a@1"#;

// A role that isn't pinned is visited without a document, and again by the next delegation. One whose document
// was read isn't visited again.
const VISITS: &str = "targets > e d; d f => root>targets@1 targets>e targets>d@1
targets > e d; unpinned e f; d f => root>targets@1 targets>e targets>d@1
targets > a e d; a > e; d f => root>targets@1 targets>a@1 a>e targets>e targets>d@1
targets > a b c; a > b; b; c f => root>targets@1 targets>a@1 a>b@1 targets>c@1
targets > a d; a > a; d f => root>targets@1 targets>a@1 targets>d@1
targets > a a d; a; d f => root>targets@1 targets>a@1 targets>d@1";

// A terminating delegation that matches ends the whole search after it and all below it.
const TERMINATING: &str = r#"targets > e! d; e; d f => TargetNotFound { path: "f" }
targets > e! d; d f => TargetNotFound { path: "f" }
targets > d! e; e; d f => root>targets@1 targets>d@1
targets > e:x! d; e; d f => root>targets@1 targets>d@1
targets > a c; a > b!; b; c f => TargetNotFound { path: "f" }
targets > a c; a > b:x!; b; c f => root>targets@1 targets>a@1 targets>c@1
targets > a! c; a > b; b f; c f => root>targets@1 targets>a@1 a>b@1
targets > a b! c; a; b f; c f => root>targets@1 targets>a@1 targets>b@1"#;

// A delegation of a top-level name is left out before it is matched. The others are matched up to the first
// terminating one before any is walked. By a script: SHA-256 of `f` begins with 252f, that of its file with 4413.
const MATCHING: &str = r#"targets > timestamp! d; d f => root>targets@1 targets>d@1
targets > root:[! d; d f => root>targets@1 targets>d@1
targets > targets snapshot d; d f => root>targets@1 targets>d@1
targets > d e:[; d f; e => Malformed(Pattern)
targets > d! e:[; d f; e => root>targets@1 targets>d@1
targets f > e:[; e => root>targets@1
targets > d#252f; d f => root>targets@1 targets>d@1
targets > d#4413; d f => TargetNotFound { path: "f" }"#;

// The keys of a role are those of the first delegation of its name in its delegator's document, by the keys
// beside it.
const AUTHORITIES: &str =
    r#"targets > d=l:x d; d f => ThresholdNotMet { role: "d", found: 0, threshold: 1 }
targets > d=l:x d; d=l f => root>targets@1 targets>d@1
targets > d d=l; d=l f => ThresholdNotMet { role: "d", found: 0, threshold: 1 }
targets > d; d=l f => ThresholdNotMet { role: "d", found: 0, threshold: 1 }
targets > d=l; d=l f => root>targets@1 targets>d@1
targets > d=o; d=o f => ThresholdNotMet { role: "d", found: 0, threshold: 1 }
targets > d=m; d=m f => ThresholdNotMet { role: "d", found: 0, threshold: 1 }
targets > a d=l:x; a > d; d f => root>targets@1 targets>a@1 a>d@1
targets > a d:x; a > d=l; d f => ThresholdNotMet { role: "d", found: 0, threshold: 1 }
targets > d; absent d f => Transport(Absent)
targets > d; newer d f => IntegrityMismatch(Version)
targets > d; longer d f => IntegrityMismatch(Length)"#;

// Each visit counts, one without a document too; a name that is passed over doesn't. Nothing is fetched beyond
// the limit.
const LIMITED: &str = r#"0 | targets f => TargetNotFound { path: "f" }
1 | targets f => root>targets@1
1 | targets > d; absent d => TargetNotFound { path: "f" }
2 | targets > e d; d f => TargetNotFound { path: "f" }
3 | targets > e d; d f => root>targets@1 targets>e targets>d@1
3 | targets > a b d; a > b; b; d f => TargetNotFound { path: "f" }
4 | targets > a b d; a > b; b; d f => root>targets@1 targets>a@1 a>b@1 targets>d@1"#;

#[test]
fn the_order_of_a_search(rt: HostRuntime) {
    hold(&rt, "search", ORDERS);
    hold(&rt, "search", VISITS);
    hold(&rt, "search", TERMINATING);
    hold(&rt, "search", MATCHING);
    hold(&rt, "search", AUTHORITIES);
    hold(&rt, "limited search", LIMITED);
}

// Tries calls of one client over the repository of a line, and what its store then has.
fn hold_calls<X: AllocGlobal + Abort>(rt: &X, line: &str, rows: &str, kept: &str) {
    let (root, mut repo) = (root(rt, "false"), repository(rt, line));
    let mut store = MemoryStore::new(rt.alloc());
    called(rt, root.as_str(), &mut repo, &mut store, rows);
    kept_all(rt, &mut repo, &mut store, kept);
    drop(store);
    drop(repo);
    drop(root);
}

const LISTED: &str = "targets g > d; d f";

const INFOS: &str = r#"info f => NotRefreshed
refresh => Ok
info f => 2
role d => Some(1)
info g => 2
info h => none
search h => TargetNotFound { path: "h" }
chain => none
search f => root>targets@1 targets>d@1
search h => TargetNotFound { path: "h" }
chain => root>targets@1 targets>d@1"#;

const KEPT: &str = "d.json => d.json
targets/f => targets/f
targets/g => none";

// The second role's document isn't there.
const HALF: &str = "targets > a b; a; absent b";

const REFUSED: &str = "refresh => Ok
search f => Transport(Absent)
role a => Some(1)
role b => None
info f => Transport(Absent)
chain => none";

const KEPT_HALF: &str = "a.json => a.json
b.json => none
targets/f => none";

// The top-level document delegates to d and to a, which asks for another id of d.
const TWO_WAYS: &str = "targets > d:x a:y; d x y; a > d=l:y";

const JUDGED_AGAIN: &str = r#"refresh => Ok
search x => root>targets@1 targets>d@1
search y => ThresholdNotMet { role: "d", found: 0, threshold: 1 }
role a => Some(1)
role d => Some(1)
search x => root>targets@1 targets>d@1"#;

const BRIEF: &str = "targets > d; brief d f";

const LATE: &str = r#"refresh => Ok
search f at 2026-01-01T00:00:01Z => Expired { role: "d", expires: 2026-01-01T00:00:00Z }
role d => None
search f at 2026-01-01T00:00:00Z => root>targets@1 targets>d@1
search f at 2026-01-01T00:00:01Z => Expired { role: "d", expires: 2026-01-01T00:00:00Z }
role d => Some(1)"#;

#[test]
fn searches_of_one_client(rt: HostRuntime) {
    hold_calls(&rt, LISTED, INFOS, KEPT);
    hold_calls(&rt, HALF, REFUSED, KEPT_HALF);
    hold_calls(&rt, TWO_WAYS, JUDGED_AGAIN, "d.json => d.json");
    hold_calls(&rt, BRIEF, LATE, "d.json => d.json");
}
