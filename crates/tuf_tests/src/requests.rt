// Which files a client asks for, in which order, and of how many bytes at most. No clause says it: what a
// repository promises is told of each call, and not how often it is called.
use crate::provider::{One, OneKey, armor};
use crate::trees::{put, repository_failing, root};
use crate::words::{good, halves, hold, number, printed, string, text_of, there};
use sigstore_tuf::*;
use sigstore_types_parts::{Bytes, FailList};
use std::alloc::Global;
use std::process::Abort;

// A repository that notes each request: the file, a blank, and the greatest length that is taken.
#[derive(Drop)]
struct Noting<R: Repository> {
    inner: R,
    requests: String,
}

// Notes a request, behind `, ` where it isn't the first. What can't be written is missing in the list.
fn note(requests: &mut String, folder: &str, name: &str, max: u64) {
    if !requests.is_empty() {
        drop(requests.push_str(", "));
    }
    drop(write!(requests, "{folder}{name} {max}"));
}

impl<R: Repository> Repository for Noting<R> {
    ghost seen = { λ n. R.seen n.inner };

    fn fetch_metadata(
        &mut self,
        alloc: Global,
        name: &str,
        max: u64,
    ) -> Result<Option<Bytes>, FetchFault> {
        note(&mut self.requests, "", name, max);
        self.inner.fetch_metadata(alloc, name, max)
    }

    fn fetch_target(
        &mut self,
        alloc: Global,
        path: &str,
        max: u64,
    ) -> Result<Option<Bytes>, FetchFault> {
        note(&mut self.requests, "targets/", path, max);
        self.inner.fetch_target(alloc, path, max)
    }
}

type Client<'a> = Updater<'a, One, OneKey, Noting<MemoryRepository>, MemoryStore>;

// The calls that fail: none for 0, else the one of this number.
fn failures<X: AllocGlobal + Abort>(rt: &X, number: u64) -> FailList {
    let mut calls = Vec::new(rt.alloc());
    if number > 0 {
        good(rt, calls.push(number));
    }
    there(rt, FailList::new(calls))
}

// Puts the next roots up to this number.
fn put_roots<X: AllocGlobal + Abort>(rt: &X, repo: &mut MemoryRepository, root: &str, last: u64) {
    for number in 2..last.saturating_add(1) {
        let name = good(rt, format!(in rt.alloc(); "{number}.root.json"));
        let version = good(rt, format!(in rt.alloc(); "\"version\":{number}"));
        let next = good(
            rt,
            root.replace(rt.alloc(), "\"version\":1", version.as_str()),
        );
        put(rt, repo, name.as_str(), next.as_str());
        drop(next);
        drop(version);
        drop(name);
    }
}

// What a client answers to a refresh and then to the request for the file f: its text, or the refusal.
fn answer<X: AllocGlobal + Abort>(rt: &X, client: &mut Client) -> String {
    let now = good(rt, "2025-01-01T00:00:00Z".parse());
    if let Err(refusal) = client.refresh(rt.alloc(), now) {
        return printed(rt, refusal);
    }
    match client.get_target(rt.alloc(), "f", now) {
        Ok(file) => {
            let text = text_of(rt, file.as_bytes());
            drop(file);
            text
        }
        Err(refusal) => printed(rt, refusal),
    }
}

// The requests of a client over a repository and a store, and what it answers.
fn run<X: AllocGlobal + Abort>(
    rt: &X,
    root: &str,
    repo: MemoryRepository,
    store: &mut MemoryStore,
) -> String {
    let armor = armor(rt);
    let mut noting = Noting {
        inner: repo,
        requests: string(rt, ""),
    };
    let made = Updater::new(rt.alloc(), &One, &armor, &mut noting, root.as_bytes());
    let client: Client = good(rt, made);
    let mut client = good(rt, client.with_store(rt.alloc(), store));
    let answer = answer(rt, &mut client);
    drop(client);
    drop(armor);
    let requests = noting.requests.as_str();
    let said = format!(in rt.alloc(); "{requests}; {answer}");
    drop(noting);
    drop(answer);
    good(rt, said)
}

/// The requests of the last run and its answer. A row: how many clients run over one store, which call of each
/// fails (0: none), the version of the last root, whether names are consistent, `|` and the line of a repository.
pub fn requested<X: AllocGlobal + Abort>(rt: &X, row: &str) -> String {
    let (words, line) = halves(rt, row, " | ");
    let (runs, words) = halves(rt, words, " ");
    let (failing, words) = halves(rt, words, " ");
    let (last, consistent) = halves(rt, words, " ");
    let root = root(rt, consistent);
    let mut store = MemoryStore::new(rt.alloc());
    let mut said = string(rt, "");
    for _ in 0..number(rt, runs) {
        let mut repo = repository_failing(rt, line, failures(rt, number(rt, failing)));
        put_roots(rt, &mut repo, root.as_str(), number(rt, last));
        said = run(rt, root.as_str(), repo, &mut store);
    }
    drop(store);
    drop(root);
    said
}

// What a first client asks for: each next root until one is absent, then each document once and the file. The
// greatest lengths are those of the configuration, and of the file the listed one.
const FIRST: &str =
    r#"1 0 1 false | targets f => 2.root.json 512000, timestamp.json 16384, snapshot.json 2000000, targets.json 5000000, targets/f 2; {}
1 0 3 false | targets f => 2.root.json 512000, 3.root.json 512000, 4.root.json 512000, timestamp.json 16384, snapshot.json 2000000, targets.json 5000000, targets/f 2; {}
1 0 1 true | targets f => 2.root.json 512000, timestamp.json 16384, 1.snapshot.json 2000000; Transport(Absent)
1 0 1 false | targets g => 2.root.json 512000, timestamp.json 16384, snapshot.json 2000000, targets.json 5000000; TargetNotFound { path: "f" }"#;

// Of a delegated role whose document isn't pinned nothing is asked, and of each other one once.
const DELEGATED: &str =
    r#"1 0 1 false | targets > a b; a; b f => 2.root.json 512000, timestamp.json 16384, snapshot.json 2000000, targets.json 5000000, a.json 5000000, b.json 5000000, targets/f 2; {}
1 0 1 false | targets > e d; d f => 2.root.json 512000, timestamp.json 16384, snapshot.json 2000000, targets.json 5000000, d.json 5000000, targets/f 2; {}
1 0 1 false | targets > d; absent d f => 2.root.json 512000, timestamp.json 16384, snapshot.json 2000000, targets.json 5000000, d.json 5000000; Transport(Absent)
1 0 1 false | targets > a b; a > a; b f => 2.root.json 512000, timestamp.json 16384, snapshot.json 2000000, targets.json 5000000, a.json 5000000, b.json 5000000, targets/f 2; {}"#;

// A second client over the store of the first: the next root and the timestamp are asked for again, and the
// documents of delegated roles; the snapshot, the targets document and the file stand in the store.
const SECOND: &str = "2 0 1 false | targets f => 2.root.json 512000, timestamp.json 16384; {}
2 0 3 false | targets f => 4.root.json 512000, timestamp.json 16384; {}
2 0 1 false | targets > a b; a; b f => 2.root.json 512000, timestamp.json 16384, a.json 5000000, b.json 5000000; {}";

// Nothing is asked for behind a request that fails, and none is made twice.
const FAILING: &str = "1 1 1 false | targets > d; d f => 2.root.json 512000; Transport(Failed)
1 2 1 false | targets > d; d f => 2.root.json 512000, timestamp.json 16384; Transport(Failed)
1 3 1 false | targets > d; d f => 2.root.json 512000, timestamp.json 16384, snapshot.json 2000000; Transport(Failed)
1 4 1 false | targets > d; d f => 2.root.json 512000, timestamp.json 16384, snapshot.json 2000000, targets.json 5000000; Transport(Failed)
1 5 1 false | targets > d; d f => 2.root.json 512000, timestamp.json 16384, snapshot.json 2000000, targets.json 5000000, d.json 5000000; Transport(Failed)
1 6 1 false | targets > d; d f => 2.root.json 512000, timestamp.json 16384, snapshot.json 2000000, targets.json 5000000, d.json 5000000, targets/f 2; Transport(Failed)";

#[test]
fn the_requests_of_a_client(rt: HostRuntime) {
    hold(&rt, "requests", FIRST);
    hold(&rt, "requests", DELEGATED);
    hold(&rt, "requests", SECOND);
    hold(&rt, "requests", FAILING);
}
