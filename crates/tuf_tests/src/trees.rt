// Repositories that are made up of one line: the documents of the roles, and what each delegates.
use crate::words::{filled, good, string, there};
use sigstore_tuf::MemoryRepository;
use sigstore_types_parts::FailList;
use std::process::Abort;

// A document of a role: its name, the id that signed it, the paths that it lists, its delegations, and a word
// for what is unusual about it.
#[derive(Clone, Copy)]
struct Doc<'a> {
    word: &'a str,
    name: &'a str,
    id: &'a str,
    paths: &'a str,
    delegations: &'a str,
}

/// What stands before and behind a mark, or the whole text and another.
pub fn split_or<'a>(text: &'a str, mark: &str, other: &'a str) -> (&'a str, &'a str) {
    match text.split_once(mark) {
        Some(parts) => parts,
        None => (text, other),
    }
}

// Not pinned, pinned and not there, of another version than its pin, longer than its pin, expired in 2026.
fn is_unusual(word: &str) -> bool {
    word == "unpinned" || word == "absent" || word == "newer" || word == "longer" || word == "brief"
}

// The word for what is unusual, and what stands behind it.
fn marked(text: &str) -> (&str, &str) {
    match text.split_once(" ") {
        Some((word, others)) if is_unusual(word) => (word, others),
        _ => ("", text),
    }
}

fn parsed(text: &str) -> Doc<'_> {
    let (front, delegations) = split_or(text, " > ", "");
    let (word, front) = marked(front);
    let (head, paths) = split_or(front, " ", "");
    let (name, id) = split_or(head, "=", "k");
    Doc {
        word,
        name,
        id,
        paths,
        delegations,
    }
}

// Adds an item to a list, behind a comma where it isn't the first.
fn add<X: Abort>(rt: &X, list: &mut String, item: String) {
    if !list.is_empty() {
        good(rt, list.push(','));
    }
    good(rt, list.push_str(item.as_str()));
    drop(item);
}

// The member that says which paths a delegation is for, with the text in it.
fn scope(word: &str) -> (&str, &'static str, &str) {
    match word.split_once("#") {
        Some((word, prefix)) => (word, "path_hash_prefixes", prefix),
        None => {
            let (word, pattern) = split_or(word, ":", "f");
            (word, "paths", pattern)
        }
    }
}

fn delegation<X: AllocGlobal + Abort>(rt: &X, word: &str) -> String {
    let (word, ends) = match word.strip_suffix('!') {
        Some(word) => (word, true),
        None => (word, false),
    };
    let (word, member, scope) = scope(word);
    let (name, id) = split_or(word, "=", "k");
    let text = format!(in rt.alloc();
        r#"{{"name":"{name}","keyids":["{id}"],"threshold":1,"terminating":{ends},"{member}":["{scope}"]}}"#
    );
    good(rt, text)
}

// The keys beside delegations. That of the id `o` has another scheme than the armour's key, so that nothing is
// signed well under it; in the root it has the key's.
const KEYS: &str =
    r#"{"k":{"keytype":"ecdsa","scheme":"ecdsa-sha2-nistp256","keyval":{"public":"p"}},"l":{"keytype":"ecdsa","scheme":"ecdsa-sha2-nistp256","keyval":{"public":"p"}},"o":{"keytype":"ed25519","scheme":"ed25519","keyval":{"public":"p"}}}"#;

fn delegations<X: AllocGlobal + Abort>(rt: &X, words: &str) -> String {
    if words.is_empty() {
        return string(rt, "null");
    }
    let mut roles = string(rt, "");
    for word in words.split_whitespace() {
        add(rt, &mut roles, delegation(rt, word));
    }
    let text = format!(in rt.alloc(); r#"{{"keys":{KEYS},"roles":[{roles}]}}"#);
    drop(roles);
    good(rt, text)
}

// The entry of a file that is `{}`.
fn entry<X: AllocGlobal + Abort>(rt: &X, path: &str) -> String {
    let text = format!(in rt.alloc();
        r#""{path}":{{"length":2,"hashes":{{"sha256":"44136fa355b3678a1146ad16f7e8649e94fb4fc21fe77e8310c060f61caaff8a"}}}}"#
    );
    good(rt, text)
}

fn entries<X: AllocGlobal + Abort>(rt: &X, paths: &str) -> String {
    let mut entries = string(rt, "");
    for path in paths.split_whitespace() {
        add(rt, &mut entries, entry(rt, path));
    }
    entries
}

fn document<X: AllocGlobal + Abort>(rt: &X, doc: Doc) -> String {
    let (id, version) = (doc.id, if doc.word == "newer" { 2 } else { 1 });
    let year = if doc.word == "brief" { 2026 } else { 2031 };
    let (targets, delegations) = (entries(rt, doc.paths), delegations(rt, doc.delegations));
    let text = format!(in rt.alloc();
        r#"{{"signatures":[{{"keyid":"{id}","sig":"01"}}],"signed":{{"_type":"targets","spec_version":"1.0.0","version":{version},"expires":"{year}-01-01T00:00:00Z","targets":{{{targets}}},"delegations":{delegations}}}}}"#
    );
    drop(targets);
    drop(delegations);
    good(rt, text)
}

fn pin<X: AllocGlobal + Abort>(rt: &X, doc: Doc) -> String {
    let length = if doc.word == "longer" {
        r#""length":1,"#
    } else {
        ""
    };
    let name = doc.name;
    let text = format!(in rt.alloc(); r#""{name}.json":{{{length}"version":1}}"#);
    good(rt, text)
}

fn pins<X: AllocGlobal + Abort>(rt: &X, line: &str) -> String {
    let mut pins = string(rt, "");
    for text in line.split("; ") {
        let doc = parsed(text);
        if doc.word != "unpinned" {
            add(rt, &mut pins, pin(rt, doc));
        }
    }
    pins
}

const ROOT: &str =
    r#"{"signatures":[{"keyid":"k","sig":"01"}],"signed":{"_type":"root","spec_version":"1.0.0","version":1,"expires":"2031-01-01T00:00:00Z","consistent_snapshot":*,"keys":{"k":{"keytype":"ecdsa","scheme":"ecdsa-sha2-nistp256","keyval":{"public":"p"}},"o":{"keytype":"ecdsa","scheme":"ecdsa-sha2-nistp256","keyval":{"public":"p"}}},"roles":{"root":{"keyids":["k"],"threshold":1},"timestamp":{"keyids":["k"],"threshold":1},"snapshot":{"keyids":["k"],"threshold":1},"targets":{"keyids":["k"],"threshold":1}}}}"#;

/// A root with the keys k and o, by whose word names are consistent or not.
pub fn root<X: AllocGlobal + Abort>(rt: &X, consistent: &str) -> String {
    filled(rt, ROOT, consistent)
}

const TIMESTAMP: &str =
    r#"{"signatures":[{"keyid":"k","sig":"01"}],"signed":{"_type":"timestamp","spec_version":"1.0.0","version":1,"expires":"2031-01-01T00:00:00Z","meta":{"snapshot.json":{"version":1}}}}"#;

// Its star is its pins.
const SNAPSHOT: &str =
    r#"{"signatures":[{"keyid":"k","sig":"01"}],"signed":{"_type":"snapshot","spec_version":"1.0.0","version":1,"expires":"2031-01-01T00:00:00Z","meta":{*}}}"#;

/// Puts a document under its name.
pub fn put<X: AllocGlobal + Abort>(rt: &X, repo: &mut MemoryRepository, name: &str, text: &str) {
    good(rt, repo.put_metadata(rt.alloc(), name, text.as_bytes()));
}

/// Puts a snapshot of these pins under its name.
pub fn put_snapshot<X: AllocGlobal + Abort>(
    rt: &X,
    repo: &mut MemoryRepository,
    name: &str,
    pins: &str,
) {
    let snapshot = filled(rt, SNAPSHOT, pins);
    put(rt, repo, name, snapshot.as_str());
    drop(snapshot);
}

fn put_files<X: AllocGlobal + Abort>(rt: &X, repo: &mut MemoryRepository, paths: &str) {
    for path in paths.split_whitespace() {
        good(rt, repo.put_target(rt.alloc(), path, b"{}"));
    }
}

fn put_role<X: AllocGlobal + Abort>(rt: &X, repo: &mut MemoryRepository, doc: Doc) {
    let (name, text) = (doc.name, document(rt, doc));
    let file = good(rt, format!(in rt.alloc(); "{name}.json"));
    put(rt, repo, file.as_str(), text.as_str());
    put_files(rt, repo, doc.paths);
    drop(text);
    drop(file);
}

fn put_roles<X: AllocGlobal + Abort>(rt: &X, repo: &mut MemoryRepository, line: &str) {
    for text in line.split("; ") {
        let doc = parsed(text);
        if doc.word != "absent" {
            put_role(rt, repo, doc);
        }
    }
}

/// A repository with a timestamp and nothing else.
pub fn with_timestamp<X: AllocGlobal + Abort>(rt: &X) -> MemoryRepository {
    let mut repo = MemoryRepository::new(rt.alloc(), no_failures(rt));
    put(rt, &mut repo, "timestamp.json", TIMESTAMP);
    repo
}

fn no_failures<X: AllocGlobal + Abort>(rt: &X) -> FailList {
    there(rt, FailList::new(Vec::new(rt.alloc())))
}

/// The repository of a line. The line has the documents of the roles, with `; ` between them. A document is a
/// word where something is unusual about it, the role's name, the paths that it lists, and behind ` > ` its
/// delegations. A delegation is a name, `:` and the pattern of the paths that it is for (else `f`) or `#` and a
/// prefix of their digests, and a last `!` where it is terminating. Behind `=` stands the id that signed a
/// document, or that has to sign for a delegation (else `k`).
pub fn repository<X: AllocGlobal + Abort>(rt: &X, line: &str) -> MemoryRepository {
    repository_failing(rt, line, no_failures(rt))
}

/// The repository of a line, some of whose calls fail.
pub fn repository_failing<X: AllocGlobal + Abort>(
    rt: &X,
    line: &str,
    failures: FailList,
) -> MemoryRepository {
    let mut repo = MemoryRepository::new(rt.alloc(), failures);
    put(rt, &mut repo, "timestamp.json", TIMESTAMP);
    let pins = pins(rt, line);
    put_snapshot(rt, &mut repo, "snapshot.json", pins.as_str());
    drop(pins);
    put_roles(rt, &mut repo, line);
    repo
}
