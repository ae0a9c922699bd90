// A run of the program over objects in memory: the fixture, with one of its parts changed.
use crate::tables::{
    Change, bytes, change_in, display, failures, first, good, source, string, text_of, there, words,
};
use crate::{
    archives, audits, bundles, delegated, downloads, gate_runs, gate_ways, gates, hostile, keyless,
    keyless_data, logged, outputs, told,
};
use command_files::{
    CommandLine, InputFile, MemoryInputs, MemorySink, Status, TableArmor, TableProvider, Tables,
};
use command_generate::{is_generate, run_generate};
use command_verify::run;
use jiff::Timestamp;
use sigstore_keys::{MemorySource, Providers, sha256};
use sigstore_tuf::{MemoryRepository, MemoryStore, MetadataStore, UpdaterConfig};
use sigstore_types_parts::{Bytes, DigestBytes, Text};
use sigstore_verify::{Anchor, RootFault};
use std::process::Abort;

// The answer of a call: what a run says, what it leaves in the store, or the display text of a refusal.
pub(crate) fn answer<X: AllocGlobal + Abort>(rt: &X, call: &str, given: &str) -> String {
    match call {
        "run" => said(rt, given),
        "kept" => kept(rt, given),
        "archive" => archives::written(rt, given),
        "check" => archives::judged(rt, given),
        "download" => downloads::said(rt, given),
        "outputs" => outputs::said(rt, given),
        "bundles" => bundles::said(rt, given),
        "audit" => audits::said(rt, given),
        "gate" => gates::said(rt, given),
        "listed" => gates::listed(rt, given),
        "gate run" => gate_runs::said(rt, given),
        "gate way" => gate_ways::said(rt, given),
        "each" => hostile::each(rt, given),
        "bounded" => hostile::bounded(rt, given),
        "told" => told::said(rt, given),
        "fault" => match given {
            "RootFault::Tuf" => display(rt, RootFault::Tuf(sigstore_tuf::Error::Json)),
            _ => display(rt, RootFault::NoMemory),
        },
        _ => panic!(rt; "no call {call}"),
    }
}

// The raw key 04 and 64 zero bytes.
pub(crate) const RAW_KEY: &str =
    "BAAAAAAAAAAAAAAAAAAAAAAAAAAAAAAAAAAAAAAAAAAAAAAAAAAAAAAAAAAAAAAAAAAAAAAAAAAAAAAAAAAAAAA=";

// The same key as a subject public key info.
pub(crate) const SPKI: &str =
    "MFkwEwYHKoZIzj0CAQYIKoZIzj0DAQcDQgAEAAAAAAAAAAAAAAAAAAAAAAAAAAAAAAAAAAAAAAAAAAAAAAAAAAAAAAAAAAAAAAAAAAAAAAAAAAAAAAAAAAAAAA==";

const ROLES: &str =
    r#""roles":{"root":{"keyids":["k"],"threshold":1},"snapshot":{"keyids":["k"],"threshold":1},"targets":{"keyids":["k"],"threshold":1},"timestamp":{"keyids":["k"],"threshold":1}}"#;

const TIMESTAMP: &str =
    r#"{"_type":"timestamp","expires":"2030-01-01T00:00:00Z","meta":{"snapshot.json":{"version":1}},"spec_version":"1.0.0","version":1}"#;

const SNAPSHOT: &str =
    r#"{"_type":"snapshot","expires":"2031-01-01T00:00:00Z","meta":{"targets.json":{"version":1}},"spec_version":"1.0.0","version":1}"#;

pub(crate) const MESSAGE: &str =
    r#""messageSignature":{"messageDigest":{"algorithm":"SHA2_256","digest":"LPJNul+wow4m6DsqxbninhsWHlwfp0JecwQzYpOLmCQ="},"signature":"AQ=="}"#;

const WORDS: &str =
    "verify --root=a --repository=b --store=c --bundle=d --artifact=e --policy=f --provider=g --now=2025-01-01T00:00:00Z";

// The trust file's name under consistent names.
const DIGEST_NAME: &str =
    "44136fa355b3678a1146ad16f7e8649e94fb4fc21fe77e8310c060f61caaff8a.trusted_root.json";

// The parts of the fixture that a change names; nothing is unchanged.
pub(crate) const PARTS: &str = "nothing
words
consistent names
second root
kept root
kept timestamp
unsigned
trust
delegated
skip
policy
rules
bundle of blanks
start of root
start of bundle
start of token
material
content
repository fails
store fails
inputs fail
artifact fails
byte fails
sink fails
shelf fails
archive fails
room";

// The name of a file in the repository, where the change makes names consistent, and else.
fn name_of(change: Change, consistent: &'static str, plain: &'static str) -> &'static str {
    if change.part == "consistent names" {
        consistent
    } else {
        plain
    }
}

pub(crate) fn root<X: AllocGlobal + Abort>(rt: &X, change: Change, version: &str) -> String {
    let consistent = name_of(change, "true", "false");
    let text = format!(in rt.alloc();
        r#"{{"_type":"root","consistent_snapshot":{consistent},"expires":"2031-01-01T00:00:00Z","keys":{{"k":{{"keytype":"ecdsa","keyval":{{"public":"der:{SPKI}"}},"scheme":"ecdsa-sha2-nistp256"}}}},{ROLES},"spec_version":"1.0.0","version":{version}}}"#
    );
    good(rt, text)
}

// The version of the second root, where there is one: in the repository, or in the store alone.
fn second_version(change: Change) -> &str {
    change.of("second root", change.of("kept root", ""))
}

pub(crate) fn trust<X: AllocGlobal + Abort>(rt: &X, change: Change) -> String {
    if keyless::is_keyless(change) {
        return keyless::trust(rt, SPKI);
    }
    string(rt, change.of("trust", "{}"))
}

// The entry of the trust file, with its length and digest.
fn listed<X: AllocGlobal + Abort>(rt: &X, trust: &str) -> String {
    let digest = good(rt, sha256(trust.as_bytes()).to_hex(rt.alloc()));
    let (sha256, length) = (digest.as_str(), trust.len());
    let text = format!(in rt.alloc();
        r#""trusted_root.json":{{"hashes":{{"sha256":"{sha256}"}},"length":{length}}}"#
    );
    drop(digest);
    good(rt, text)
}

pub(crate) fn targets<X: AllocGlobal + Abort>(rt: &X, change: Change) -> String {
    if change.part == "delegated" {
        return delegated::delegating(rt, change.text, SPKI);
    }
    let trust = trust(rt, change);
    let entry = listed(rt, trust.as_str());
    drop(trust);
    let listed = entry.as_str();
    let text = format!(in rt.alloc();
        r#"{{"_type":"targets","expires":"2031-01-01T00:00:00Z","spec_version":"1.0.0","targets":{{{listed}}},"version":1}}"#
    );
    drop(entry);
    good(rt, text)
}

fn snapshot(change: Change) -> &'static str {
    if change.part == "delegated" {
        delegated::SNAPSHOT
    } else {
        SNAPSHOT
    }
}

fn document<X: AllocGlobal + Abort>(rt: &X, signed: &str) -> String {
    let text = format!(in rt.alloc();
        r#"{{"signatures":[{{"keyid":"k","sig":"01"}}],"signed":{signed}}}"#
    );
    good(rt, text)
}

// Puts a document in its place.
fn put<X: AllocGlobal + Abort>(rt: &X, repo: &mut MemoryRepository, name: &str, signed: &str) {
    let document = document(rt, signed);
    good(rt, repo.put_metadata(rt.alloc(), name, document.as_bytes()));
    drop(document);
}

fn put_delegated<X: AllocGlobal + Abort>(rt: &X, repo: &mut MemoryRepository, change: Change) {
    if change.part == "delegated" {
        put(rt, repo, "d.json", delegated::LISTING);
        put(rt, repo, "e.json", delegated::EMPTY);
    }
}

fn put_trust<X: AllocGlobal + Abort>(rt: &X, repo: &mut MemoryRepository, change: Change) {
    let trust = trust(rt, change);
    let file = name_of(change, DIGEST_NAME, "trusted_root.json");
    good(rt, repo.put_target(rt.alloc(), file, trust.as_bytes()));
    drop(trust);
}

pub(crate) fn repository<X: AllocGlobal + Abort>(
    rt: &X,
    change: Change,
    targets: &str,
) -> MemoryRepository {
    let failures = failures(rt, change.of("repository fails", ""));
    let mut repo = MemoryRepository::new(rt.alloc(), failures);
    if change.part == "second root" {
        let second = root(rt, change, change.text);
        put(rt, &mut repo, "2.root.json", second.as_str());
        drop(second);
    }
    put(rt, &mut repo, "timestamp.json", TIMESTAMP);
    let name = name_of(change, "1.snapshot.json", "snapshot.json");
    put(rt, &mut repo, name, snapshot(change));
    let name = name_of(change, "1.targets.json", "targets.json");
    put(rt, &mut repo, name, targets);
    put_delegated(rt, &mut repo, change);
    put_trust(rt, &mut repo, change);
    repo
}

fn digest<X: AllocGlobal + Abort>(rt: &X, subject: &str) -> Text {
    let digest = sha256(subject.as_bytes());
    let digest = good(rt, DigestBytes::from_bytes(rt.alloc(), digest.as_bytes()));
    let base64 = digest.to_base64(rt.alloc());
    drop(digest);
    good(rt, base64)
}

// Adds the provider's row for what is signed, unless the change leaves it out.
fn sign<X: AllocGlobal + Abort>(
    rt: &X,
    change: Change,
    rows: &mut String,
    name: &str,
    subject: &str,
) {
    if change.of("unsigned", "") != name {
        let digest = digest(rt, subject);
        let base64 = digest.as_str();
        good(
            rt,
            write!(rows, "accept ECDSA_P256_SHA256 {RAW_KEY} {base64} AQ==\n"),
        );
        drop(digest);
    }
}

fn sign_second<X: AllocGlobal + Abort>(rt: &X, change: Change, rows: &mut String) {
    let version = second_version(change);
    if !version.is_empty() {
        let second = root(rt, change, version);
        sign(rt, change, rows, "second root", second.as_str());
        drop(second);
    }
}

fn sign_kept<X: AllocGlobal + Abort>(rt: &X, change: Change, rows: &mut String) {
    let kept = change.of("kept timestamp", "");
    if !kept.is_empty() {
        sign(rt, change, rows, "kept timestamp", kept);
    }
}

fn sign_delegated<X: AllocGlobal + Abort>(rt: &X, change: Change, rows: &mut String) {
    if change.part == "delegated" {
        sign(rt, change, rows, "d", delegated::LISTING);
        sign(rt, change, rows, "e", delegated::EMPTY);
    }
}

fn sign_entry<X: AllocGlobal + Abort>(rt: &X, change: Change, rows: &mut String) {
    if keyless::is_keyless(change) {
        let signed = logged::signed(rt);
        sign(rt, change, rows, "entry", signed.as_str());
        drop(signed);
        let payload = logged::payload(rt);
        sign(rt, change, rows, "promise", payload.as_str());
        drop(payload);
    }
}

// The rows of the certificates and of the token, where the signer has them.
fn stamps(change: Change) -> &'static str {
    if keyless::is_keyless(change) {
        keyless_data::ROWS
    } else {
        ""
    }
}

pub(crate) fn provider<X: AllocGlobal + Abort>(
    rt: &X,
    change: Change,
    root: &str,
    targets: &str,
) -> Bytes {
    let mut rows = String::new(rt.alloc());
    sign(rt, change, &mut rows, "root", root);
    sign_second(rt, change, &mut rows);
    sign(rt, change, &mut rows, "timestamp", TIMESTAMP);
    sign_kept(rt, change, &mut rows);
    sign(rt, change, &mut rows, "snapshot", snapshot(change));
    sign(rt, change, &mut rows, "targets", targets);
    sign_delegated(rt, change, &mut rows);
    sign_entry(rt, change, &mut rows);
    good(rt, rows.push_str(stamps(change)));
    sign(rt, change, &mut rows, "hello", "hello");
    Bytes::from_vec(rows.into_bytes())
}

fn policy<X: AllocGlobal + Abort>(rt: &X, change: Change) -> Bytes {
    if keyless::is_keyless(change) {
        return Bytes::from_vec(keyless::lines(rt, keyless::POLICY).into_bytes());
    }
    if change.part == "policy" {
        return Bytes::from_vec(keyless::lines(rt, change.text).into_bytes());
    }
    let skip = change.of("skip", "skip tlog\n");
    let text = good(rt, format!(in rt.alloc(); "key {SPKI}\n{skip}"));
    Bytes::from_vec(text.into_bytes())
}

// The first octets, as many as a number says.
fn start<X: AllocGlobal + Abort>(rt: &X, whole: &[u8], count: &str) -> Bytes {
    bytes(rt, first(rt, whole, count))
}

// The given root, or its first octets.
pub(crate) fn given_root<X: AllocGlobal + Abort>(rt: &X, change: Change, root: &str) -> Bytes {
    let document = document(rt, root);
    let count = change.of("start of root", "");
    if count.is_empty() {
        return Bytes::from_vec(document.into_bytes());
    }
    let start = start(rt, document.as_bytes(), count);
    drop(document);
    start
}

// That many blanks.
fn blanks<X: AllocGlobal + Abort>(rt: &X, count: &str) -> Bytes {
    let count = good(rt, count.parse::<usize>());
    Bytes::from_vec(good(rt, vec![in rt.alloc(); b' '; count]))
}

fn material<X: AllocGlobal + Abort>(rt: &X, change: Change) -> String {
    if keyless::is_keyless(change) {
        return keyless::material(rt, change);
    }
    string(rt, change.of("material", r#""publicKey":{"hint":"k"}"#))
}

fn made_bundle<X: AllocGlobal + Abort>(rt: &X, change: Change) -> Bytes {
    let material = material(rt, change);
    let content = change.of("content", MESSAGE);
    let text = format!(in rt.alloc();
        r#"{{"mediaType":"application/vnd.dev.sigstore.bundle.v0.3+json","verificationMaterial":{{{material}}},{content}}}"#
    );
    drop(material);
    Bytes::from_vec(good(rt, text).into_bytes())
}

pub(crate) fn bundle<X: AllocGlobal + Abort>(rt: &X, change: Change) -> Bytes {
    match change.part {
        "bundle of blanks" => blanks(rt, change.text),
        "start of bundle" => {
            let whole = made_bundle(rt, change);
            let start = start(rt, whole.as_bytes(), change.text);
            drop(whole);
            start
        }
        _ => made_bundle(rt, change),
    }
}

pub(crate) fn inputs<X: AllocGlobal + Abort>(
    rt: &X,
    change: Change,
    root: &str,
    targets: &str,
) -> MemoryInputs {
    let mut inputs = MemoryInputs::new(failures(rt, change.of("inputs fail", "")));
    inputs.put(InputFile::Root, given_root(rt, change, root));
    inputs.put(InputFile::Policy, policy(rt, change));
    inputs.put(InputFile::Provider, provider(rt, change, root, targets));
    inputs.put(InputFile::Bundle, bundle(rt, change));
    inputs
}

// The artifact, two bytes at a time, or one byte at a time where the read of a byte fails.
fn artifact<X: AllocGlobal + Abort>(rt: &X, change: Change) -> MemorySource {
    if change.part == "byte fails" {
        return source(rt, "hello", 1, change.text);
    }
    source(rt, "hello", 2, change.of("artifact fails", ""))
}

// The words that the run is told.
fn told(change: Change) -> &str {
    if keyless::is_keyless(change) {
        keyless::WORDS
    } else {
        change.of("words", WORDS)
    }
}

// How a run over these inputs, this repository and this store ends.
fn ended<X: AllocGlobal + Abort>(
    rt: &X,
    change: Change,
    inputs: &mut MemoryInputs,
    repo: &mut MemoryRepository,
    store: &mut MemoryStore,
    sink: &mut MemorySink,
) -> Status {
    let words = words(rt, told(change));
    if is_generate(&words) {
        let status = run_generate(rt.alloc(), &words, sink);
        drop(words);
        return status;
    }
    let mut artifact = artifact(rt, change);
    let line = CommandLine {
        words: &words,
        clock: Timestamp::UNIX_EPOCH,
    };
    let status = run(rt.alloc(), &line, inputs, repo, store, &mut artifact, sink);
    drop(words);
    drop(artifact);
    status
}

// From what the libraries trust the fixture's documents.
pub(crate) fn anchor<'a, X: Abort>(
    rt: &X,
    tables: &'a Tables,
    root: &'a Bytes,
) -> Anchor<'a, TableProvider, TableArmor> {
    Anchor {
        providers: Providers {
            provider: &tables.provider,
            armor: &tables.armor,
        },
        root: root.as_bytes(),
        config: UpdaterConfig::default(),
        now: good(rt, "2025-01-01T00:00:00Z".parse::<Timestamp>()),
    }
}

// How a run over the changed fixture and a store ends.
fn run_over<X: AllocGlobal + Abort>(
    rt: &X,
    change: Change,
    store: &mut MemoryStore,
    sink: &mut MemorySink,
) -> Status {
    let (root, targets) = (root(rt, change, "1"), targets(rt, change));
    let mut repo = repository(rt, change, targets.as_str());
    let mut inputs = inputs(rt, change, root.as_str(), targets.as_str());
    let status = ended(rt, change, &mut inputs, &mut repo, store, sink);
    drop(inputs);
    drop(repo);
    drop(root);
    drop(targets);
    status
}

// A run whose repository has a second root, after which the store has it.
fn keep_second<X: AllocGlobal + Abort>(rt: &X, version: &str, store: &mut MemoryStore) {
    let change = Change {
        keyless: false,
        part: "second root",
        text: version,
    };
    let mut sink = good(rt, MemorySink::new(rt.alloc(), 1024, failures(rt, "")));
    let status = run_over(rt, change, store, &mut sink);
    assert!(rt; status == Status::Accepted, "a second root");
    drop(sink);
}

// Puts a document in the store, as its timestamp.
fn keep_timestamp<X: AllocGlobal + Abort>(rt: &X, signed: &str, store: &mut MemoryStore) {
    let document = document(rt, signed);
    good(
        rt,
        store.store(rt.alloc(), "timestamp.json", document.as_bytes()),
    );
    drop(document);
}

// The store before the run; without a change it is empty.
pub(crate) fn store<X: AllocGlobal + Abort>(rt: &X, change: Change) -> MemoryStore {
    let failures = failures(rt, change.of("store fails", ""));
    let mut store = MemoryStore::with_failures(rt.alloc(), failures);
    match change.part {
        "kept root" => keep_second(rt, change.text, &mut store),
        "kept timestamp" => keep_timestamp(rt, change.text, &mut store),
        _ => {}
    }
    store
}

// How a run over the changed fixture ends.
fn run_with<X: AllocGlobal + Abort>(rt: &X, change: Change, sink: &mut MemorySink) -> Status {
    let mut store = store(rt, change);
    let status = run_over(rt, change, &mut store, sink);
    drop(store);
    status
}

// The status of a run over the changed fixture, and what the sink took, as Debug prints them.
fn said<X: AllocGlobal + Abort>(rt: &X, row: &str) -> String {
    said_of(rt, change_in(rt, row, PARTS))
}

pub(crate) fn said_of<X: AllocGlobal + Abort>(rt: &X, change: Change) -> String {
    let room = change.of("room", "1024");
    let failures = failures(rt, change.of("sink fails", ""));
    let room = good(rt, room.parse::<u32>());
    let mut sink = good(rt, MemorySink::new(rt.alloc(), room, failures));
    let status = run_with(rt, change, &mut sink);
    let taken = text_of(rt, sink.bytes());
    drop(sink);
    let said = format!(in rt.alloc(); "{status:?} {taken:?}");
    drop(taken);
    good(rt, said)
}

// The length and the SHA-256 value of a file.
pub(crate) fn measured<X: AllocGlobal + Abort>(rt: &X, file: &[u8]) -> String {
    let digest = good(rt, sha256(file).to_hex(rt.alloc()));
    let (length, sha256) = (file.len(), digest.as_str());
    let measured = good(rt, format!(in rt.alloc(); "{length} {sha256}"));
    drop(digest);
    measured
}

// What the store has under a name after a run over the changed fixture.
fn kept<X: AllocGlobal + Abort>(rt: &X, row: &str) -> String {
    let (row, name) = there(rt, row.rsplit_once(" | "));
    let change = change_in(rt, row, PARTS);
    let mut sink = good(rt, MemorySink::new(rt.alloc(), 1024, failures(rt, "")));
    let mut store = store(rt, change);
    let _status = run_over(rt, change, &mut store, &mut sink);
    drop(sink);
    let file = good(rt, store.load(rt.alloc(), name));
    drop(store);
    match file {
        Some(file) => {
            let measured = measured(rt, file.as_bytes());
            drop(file);
            measured
        }
        None => string(rt, "none"),
    }
}
