// Each object of the outside, at its type and through its trait.
use crate::client;
use crate::words::{
    check, displayed, good, halves, hold, number, printed, string, text, text_of, there,
};
use sigstore_tuf::*;
use sigstore_types_parts::{Bytes, FailList};
use std::fmt::Debug;
use std::fs;
use std::process::Abort;

/// The display text of a fault; for any other name the answer of a call of the client.
pub fn answer<X: AllocGlobal + Abort>(rt: &X, call: &str, given: &str) -> String {
    match call {
        "FetchFault" => match given {
            "Failed" => displayed(rt, FetchFault::Failed),
            "TooLong" => displayed(rt, FetchFault::TooLong { seen: 1 }),
            _ => displayed(rt, FetchFault::NoMemory),
        },
        "StoreFault" => match given {
            "Failed" => displayed(rt, StoreFault::Failed),
            "BadName" => displayed(rt, StoreFault::BadName),
            _ => displayed(rt, StoreFault::NoMemory),
        },
        _ => client::answer(rt, call, given),
    }
}

const FETCH_FAULTS: &str = "Failed => Failed
TooLong => TooLong
NoMemory => NoMemory";

const STORE_FAULTS: &str = "Failed => Failed
BadName => BadName
NoMemory => NoMemory";

// The text of a short file, or the length of a long one.
fn shown<X: AllocGlobal + Abort>(rt: &X, bytes: &[u8]) -> String {
    if bytes.len() < 100 {
        text_of(rt, bytes)
    } else {
        printed(rt, bytes.len())
    }
}

// What was found, none, or the fault.
fn found<X: AllocGlobal + Abort, E: Debug + Drop>(
    rt: &X,
    answer: Result<Option<Bytes>, E>,
) -> String {
    match answer {
        Ok(Some(bytes)) => shown(rt, bytes.as_bytes()),
        Ok(None) => string(rt, "none"),
        Err(fault) => printed(rt, fault),
    }
}

// A fetch of a document or of a target, of at most so many bytes.
fn fetched<X: AllocGlobal + Abort, R: Repository>(rt: &X, repo: &mut R, row: &str) -> String {
    let (call, asked) = halves(rt, row, " ");
    let (max, name) = halves(rt, asked, " ");
    let max = number(rt, max);
    match call {
        "metadata" => found(rt, repo.fetch_metadata(rt.alloc(), name, max)),
        _ => found(rt, repo.fetch_target(rt.alloc(), name, max)),
    }
}

fn fetch_all<X: AllocGlobal + Abort, R: Repository>(rt: &X, repo: &mut R, rows: &str) {
    for row in rows.lines() {
        let (asked, wanted) = halves(rt, row, " => ");
        check(rt, row, wanted, fetched(rt, repo, asked));
    }
}

// A load, or the store of a text under a name.
fn stored<X: AllocGlobal + Abort, S: MetadataStore>(rt: &X, store: &mut S, row: &str) -> String {
    let (call, asked) = halves(rt, row, " ");
    match call {
        "load" => found(rt, store.load(rt.alloc(), asked)),
        _ => {
            let (name, text) = halves(rt, asked, " ");
            printed(rt, store.store(rt.alloc(), name, text.as_bytes()))
        }
    }
}

fn store_all<X: AllocGlobal + Abort, S: MetadataStore>(rt: &X, store: &mut S, rows: &str) {
    for row in rows.lines() {
        let (asked, wanted) = halves(rt, row, " => ");
        check(rt, row, wanted, stored(rt, store, asked));
    }
}

// Without a store nothing is there; names that are absolute or have a component `..` are bad.
const NOTHING: &str = "store root.json ab => Ok(())
load root.json => none
load  => none
load a/b => none
load a//b => none
load ./a => none
load ... => none
load ..a/b.. => none
load / => BadName
load /a => BadName
load .. => BadName
load ../a => BadName
load a/.. => BadName
load a/../b => BadName
load a/b/../..c => BadName";

fn second_fails<X: AllocGlobal + Abort>(rt: &X) -> FailList {
    let calls = good(rt, Vec::from_slice(rt.alloc(), &[2]));
    there(rt, FailList::new(calls))
}

fn repository<X: AllocGlobal + Abort>(rt: &X) -> MemoryRepository {
    let mut repo = MemoryRepository::new(rt.alloc(), second_fails(rt));
    good(rt, repo.put_metadata(rt.alloc(), "timestamp.json", b"old"));
    good(rt, repo.put_metadata(rt.alloc(), "timestamp.json", b"ab"));
    good(rt, repo.put_target(rt.alloc(), "a/b", b"file"));
    repo
}

// The second call fails.
const IN_MEMORY: &str = "metadata 2 timestamp.json => ab
metadata 2 timestamp.json => Failed
metadata 1 timestamp.json => TooLong { seen: 2 }
metadata 9 a/b => none
target 9 a/b => file
target 9 timestamp.json => none";

// The second call fails.
const STORED: &str = "store root.json old => Ok(())
store root.json ab => Err(Failed)
load root.json => old
store root.json ab => Ok(())
load root.json => ab";

const STORED_ELSEWHERE: &str = "load root.json => none
store ../a  => Err(BadName)";

// A document under its name, a target under `targets/` and its path; nothing under a bad name.
const OVER_A_STORE: &str = "metadata 2 root.json => ab
metadata 1 root.json => TooLong { seen: 2 }
metadata 9 2.root.json => none
target 9 a/b => file
target 9 root.json => none
target 9 ../root.json => none
metadata 9 /root.json => none";

const CARRIED_IN: &str = "store root.json ab => Ok(())
store targets/a/b file => Ok(())";

#[test]
fn a_repository_over_a_store(rt: HostRuntime) {
    let mut store = MemoryStore::new(rt.alloc());
    store_all(&rt, &mut store, CARRIED_IN);
    let mut repo = StoreRepository::new(store);
    fetch_all(&rt, &mut repo, OVER_A_STORE);
    drop(repo);
}

#[test]
fn objects_in_memory(rt: HostRuntime) {
    hold(&rt, "FetchFault", FETCH_FAULTS);
    hold(&rt, "StoreFault", STORE_FAULTS);
    store_all(&rt, &mut NoStore, NOTHING);
    let mut repo = repository(&rt);
    fetch_all(&rt, &mut repo, IN_MEMORY);
    drop(repo);
    let mut store = MemoryStore::with_failures(rt.alloc(), second_fails(&rt));
    store_all(&rt, &mut store, STORED);
    drop(store);
    let mut other = MemoryStore::new(rt.alloc());
    store_all(&rt, &mut other, STORED_ELSEWHERE);
    drop(other);
}

const IN_A_FOLDER: &str = "metadata 2 1.root.json => ab
metadata 1 1.root.json => TooLong { seen: 2 }
metadata 2 2.root.json => none
metadata 2 targets/../1.root.json => none
metadata 2 targets => Failed
target 70000 a/b => 70000
target 69999 a/b => TooLong { seen: 70000 }";

const STORED_IN_A_FOLDER: &str = "load root_history/1.root.json => none
store root_history/1.root.json a longer one => Ok(())
store root_history/1.root.json ab => Ok(())
load root_history/1.root.json => ab
store root_history ab => Err(Failed)
load a/../b => BadName";

#[test]
fn a_repository_in_a_folder(rt: HostRuntime) {
    let long = good(&rt, vec![in rt.alloc(); b'7'; 70_000]);
    good(&rt, fs::create_dir_all(&rt, "repo/targets/a"));
    good(&rt, fs::write(&rt, "repo/1.root.json", "ab"));
    good(&rt, fs::write(&rt, "repo/targets/a/b", long.as_slice()));
    let mut repo = FileRepository::new(&rt, text(&rt, "repo"));
    drop(long);
    fetch_all(&rt, &mut repo, IN_A_FOLDER);
    drop(repo);
}

#[test]
fn a_store_in_a_folder(rt: HostRuntime) {
    let mut store = FileStore::new(&rt, text(&rt, "store"));
    store_all(&rt, &mut store, STORED_IN_A_FOLDER);
    drop(store);
    let name = "store/root_history/1.root.json";
    let written = good(&rt, fs::read_to_string(&rt, name));
    let is_there = good(&rt, fs::exists(&rt, "store/root_history/1.root.json.new~0"));
    let is_left = good(&rt, fs::exists(&rt, "store/root_history.new~0"));
    let found = printed(&rt, (written, is_there, is_left));
    check(&rt, name, r#"("ab", false, false)"#, found);
}

// Another process has begun to write the first name beside.
const STORED_BESIDE: &str = "load timestamp.json => none
store timestamp.json ab => Ok(())
load timestamp.json => ab
load timestamp.json.new~0 => half
load timestamp.json.new~1 => none";

#[test]
fn a_store_that_another_process_writes(rt: HostRuntime) {
    good(&rt, fs::create_dir_all(&rt, "shared"));
    good(&rt, fs::write(&rt, "shared/timestamp.json.new~0", "half"));
    let mut store = FileStore::new(&rt, text(&rt, "shared"));
    store_all(&rt, &mut store, STORED_BESIDE);
    drop(store);
}
