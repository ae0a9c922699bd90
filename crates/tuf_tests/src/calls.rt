// Calls of a client over a repository and a store in memory, and what the store then has.
use crate::client::version;
use crate::provider::{One, OneKey, armor};
use crate::trees::split_or;
use crate::words::{check, good, halves, printed, string, text_of, there, word};
use jiff::Timestamp;
use sigstore_tuf::*;
use sigstore_types_parts::Bytes;
use std::process::Abort;

type Client<'a> = Updater<'a, One, OneKey, MemoryRepository, MemoryStore>;

// A client from a root, over a store.
fn client<'a, X: AllocGlobal + Abort>(
    rt: &X,
    armor: &'a OneKey,
    config: UpdaterConfig,
    root: &str,
    repo: &'a mut MemoryRepository,
    store: &'a mut MemoryStore,
) -> Client<'a> {
    let made = Updater::new(rt.alloc(), &One, armor, repo, root.as_bytes());
    let client: Client = good(rt, made).with_config(config);
    good(rt, client.with_store(rt.alloc(), store))
}

/// The answer of a call of a client that was refreshed.
pub fn answered<X: AllocGlobal + Abort>(
    rt: &X,
    config: UpdaterConfig,
    root: &str,
    repo: &mut MemoryRepository,
    store: &mut MemoryStore,
    call: &str,
) -> String {
    let armor = armor(rt);
    let mut client = client(rt, &armor, config, root, repo, store);
    let refreshed = told(rt, &mut client, "refresh");
    check(rt, "refresh", "Ok", refreshed);
    let answer = told(rt, &mut client, call);
    drop(client);
    drop(armor);
    answer
}

/// Tries calls of one client, one after the other: a row is a call, ` => ` and its answer.
pub fn called<X: AllocGlobal + Abort>(
    rt: &X,
    root: &str,
    repo: &mut MemoryRepository,
    store: &mut MemoryStore,
    rows: &str,
) {
    let armor = armor(rt);
    let config = UpdaterConfig::default();
    let mut client = client(rt, &armor, config, root, repo, store);
    told_all(rt, &mut client, rows);
    drop(client);
    drop(armor);
}

fn told_all<X: AllocGlobal + Abort>(rt: &X, client: &mut Client, rows: &str) {
    for row in rows.lines() {
        let (call, wanted) = halves(rt, row, " => ");
        check(rt, row, wanted, told(rt, client, call));
    }
}

// A call: a word, what is asked, and behind ` at ` the moment.
fn told<X: AllocGlobal + Abort>(rt: &X, client: &mut Client, call: &str) -> String {
    let (call, moment) = split_or(call, " at ", "2025-01-01T00:00:00Z");
    let (call, asked) = split_or(call, " ", "");
    let now = good(rt, moment.parse());
    match call {
        "refresh" => word(rt, client.refresh(rt.alloc(), now)),
        "versions" => versions(rt, client),
        "role" => printed(rt, version(client.trusted().targets_role(asked))),
        "info" => length(rt, client.get_target_info(rt.alloc(), asked, now)),
        "get" => file(rt, client, asked, now),
        "search" => found(rt, client, asked, now),
        "chain" => last_chain(rt, client),
        _ => panic!(rt; "no call {call}"),
    }
}

// The versions of the top-level documents that are in force.
fn versions<X: AllocGlobal + Abort>(rt: &X, client: &Client) -> String {
    let set = client.trusted();
    let (timestamp, snapshot) = (version(set.timestamp()), version(set.snapshot()));
    let targets = version(set.targets_role("targets"));
    printed(rt, (set.root().version, timestamp, snapshot, targets))
}

// The length that is listed.
fn length<X: AllocGlobal + Abort>(rt: &X, answer: Result<Option<TargetFile>, Error>) -> String {
    match answer {
        Ok(Some(target)) => {
            let length = target.length;
            drop(target);
            printed(rt, length)
        }
        Ok(None) => string(rt, "none"),
        Err(refusal) => printed(rt, refusal),
    }
}

// The text of a target's file.
fn file<X: AllocGlobal + Abort>(rt: &X, client: &mut Client, path: &str, now: Timestamp) -> String {
    match client.get_target(rt.alloc(), path, now) {
        Ok(file) => {
            let text = text_of(rt, file.as_bytes());
            drop(file);
            text
        }
        Err(refusal) => printed(rt, refusal),
    }
}

// The visits of the search for a target's file.
fn found<X: AllocGlobal + Abort>(
    rt: &X,
    client: &mut Client,
    path: &str,
    now: Timestamp,
) -> String {
    match client.get_target(rt.alloc(), path, now) {
        Ok(file) => {
            drop(file);
            last_chain(rt, client)
        }
        Err(refusal) => printed(rt, refusal),
    }
}

// The visits of the last chain.
fn last_chain<X: AllocGlobal + Abort>(rt: &X, client: &Client) -> String {
    match good(rt, client.chain(rt.alloc())) {
        Some(chain) => {
            let visits = visits(rt, &chain);
            drop(chain);
            visits
        }
        None => string(rt, "none"),
    }
}

// Each visit: the delegator, `>` and the role, and `@` and the version of the document where there is one.
fn visits<X: AllocGlobal + Abort>(rt: &X, chain: &TrustChain) -> String {
    let mut visits = string(rt, "");
    for role in chain.roles.as_slice() {
        if !visits.is_empty() {
            good(rt, visits.push(' '));
        }
        add_visit(rt, &mut visits, role);
    }
    visits
}

fn add_visit<X: AllocGlobal + Abort>(rt: &X, visits: &mut String, role: &RoleDoc) {
    let (delegator, name) = (role.delegator.as_str(), role.name.as_str());
    good(rt, write!(visits, "{delegator}>{name}"));
    if let Some(bytes) = &role.bytes {
        let version = version_in(rt, bytes);
        good(rt, write!(visits, "@{version}"));
    }
}

fn version_in<X: AllocGlobal + Abort>(rt: &X, bytes: &Bytes) -> u64 {
    let read = Metadata::<Targets>::from_slice(rt.alloc(), bytes.as_bytes());
    let document = good(rt, read);
    let version = document.signed().version;
    drop(document);
    version
}

// A document of the repository, or behind `targets/` a target.
fn served<X: AllocGlobal + Abort>(rt: &X, repo: &mut MemoryRepository, name: &str) -> Bytes {
    let max = 1_000_000;
    let file = match name.strip_prefix("targets/") {
        Some(path) => repo.fetch_target(rt.alloc(), path, max),
        None => repo.fetch_metadata(rt.alloc(), name, max),
    };
    there(rt, good(rt, file))
}

// The file of the repository that a store has to have; none where there has to be none.
fn wanted<X: AllocGlobal + Abort>(
    rt: &X,
    repo: &mut MemoryRepository,
    name: &str,
) -> Option<Bytes> {
    if name == "none" {
        None
    } else {
        Some(served(rt, repo, name))
    }
}

/// Tries what a store has: a row is a name, ` => ` and the name of the repository's file that is there, or none.
pub fn kept_all<X: AllocGlobal + Abort>(
    rt: &X,
    repo: &mut MemoryRepository,
    store: &mut MemoryStore,
    rows: &str,
) {
    for row in rows.lines() {
        let (name, file) = halves(rt, row, " => ");
        let found = good(rt, store.load(rt.alloc(), name));
        let wanted = wanted(rt, repo, file);
        let same = found == wanted;
        drop(found);
        drop(wanted);
        assert!(rt; same, "{row}");
    }
}
