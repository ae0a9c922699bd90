// The questions of a download over the stored world.
use crate::runs::{NONE, inputs, repository, sink, taken, words};
use crate::tables::{bytes, check, good, no_failures, string, there};
use crate::world::ROWS;
use command_download::{MemoryShelf, run_download};
use command_files::{CommandLine, InputFile, Status};
use command_questions::{ReadingStore, run_download_questions};
use jiff::Timestamp;
use sigstore_tuf::MemoryStore;
use std::process::Abort;

const ASK: &str =
    "download-questions --root=a --repository=b --store=c --refused=d --target=trusted_root.json --out=e --now=2027-01-01T00:00:00Z";

const ASK_TWICE: &str =
    "download-questions --root=a --repository=b --store=c --refused=d --target=trusted_root.json --out=e --target=trusted_root.json --out=f --now=2027-01-01T00:00:00Z";

const DOWNLOAD: &str =
    "download --root=a --repository=b --store=c --provider=d --target=trusted_root.json --out=e --now=2027-01-01T00:00:00Z";

// What is said of the target, which has 73 bytes; its name in the repository is its digest's.
const DOWNLOADED: &str =
    "downloaded;root 2;timestamp 5;snapshot 4;role targets 3;target trusted_root.json 73 sha256 cb300e403aa71d48b0775bb1baf17a316e72a0b23d64ada9af987bdb8b2e0a4c;";

// The rows of the documents: all but the last one, which is the bundle's.
const OF_DOCUMENTS: usize = 18;

// The first row of the timestamp, of which two are wanted.
const OF_TIMESTAMP: usize = 10;

// How the questions of these words over the world end where these rows are refused, and what is written.
fn asked<X: AllocGlobal + Abort>(rt: &X, line: &str, refused: &str) -> (Status, String) {
    let words = words(rt, line);
    let (mut inputs, mut repo) = (inputs(rt, NONE), repository(rt, NONE));
    inputs.put(InputFile::Provider, bytes(rt, refused));
    let mut store = ReadingStore::new(MemoryStore::new(rt.alloc()));
    let mut sink = sink(rt);
    let ended = run_download_questions(
        rt.alloc(),
        &CommandLine {
            words: &words,
            clock: Timestamp::UNIX_EPOCH,
        },
        &mut inputs,
        &mut repo,
        &mut store,
        &mut sink,
    );
    drop(words);
    drop(inputs);
    drop(repo);
    drop(store);
    (ended, taken(rt, sink))
}

// The first rows of the world but one, each with this behind it.
fn rows<X: AllocGlobal + Abort>(rt: &X, count: usize, left_out: usize, end: char) -> String {
    let mut text = String::new(rt.alloc());
    for (i, line) in ROWS.lines().enumerate() {
        if i < count && i != left_out {
            good(rt, text.push_str(line));
            good(rt, text.push(end));
        }
    }
    text
}

fn check_asked<X: AllocGlobal + Abort>(rt: &X, line: &str, refused: &str, wanted: String) {
    let (ended, text) = asked(rt, line, refused);
    check(rt, line, wanted.as_str(), text);
    drop(wanted);
    assert!(rt; ended == Status::Accepted, "the questions are asked");
}

#[test]
fn the_questions_of_a_target_are_asked(rt: HostRuntime) {
    check_asked(&rt, ASK, "", rows(&rt, OF_DOCUMENTS, OF_DOCUMENTS, ';'));
}

// Each question once, though two targets ask it.
#[test]
fn the_questions_of_two_targets_are_asked(rt: HostRuntime) {
    check_asked(
        &rt,
        ASK_TWICE,
        "",
        rows(&rt, OF_DOCUMENTS, OF_DOCUMENTS, ';'),
    );
}

// Behind a timestamp that isn't signed by two keys nothing is asked.
#[test]
fn a_refused_signature_ends_the_questions(rt: HostRuntime) {
    let mut refused = string(&rt, there(&rt, ROWS.lines().nth(OF_TIMESTAMP)));
    good(&rt, refused.push('\n'));
    let wanted = rows(&rt, OF_TIMESTAMP + 2, OF_TIMESTAMP, ';');
    check_asked(&rt, ASK, refused.as_str(), wanted);
    drop(refused);
}

#[test]
fn words_that_download_ask_nothing(rt: HostRuntime) {
    let (ended, text) = asked(&rt, DOWNLOAD, "");
    check(&rt, DOWNLOAD, "usage;", text);
    assert!(&rt; ended == Status::Usage, "download isn't download-questions");
}

// Over the rows that are asked, all of which are good, the target is put in its place.
#[test]
fn the_questions_are_enough_for_the_download(rt: HostRuntime) {
    let words = words(&rt, DOWNLOAD);
    let (mut inputs, mut repo) = (inputs(&rt, NONE), repository(&rt, NONE));
    let held = rows(&rt, OF_DOCUMENTS, OF_DOCUMENTS, '\n');
    inputs.put(InputFile::Provider, bytes(&rt, held.as_str()));
    drop(held);
    let mut store = MemoryStore::new(rt.alloc());
    let mut shelf = MemoryShelf::new(rt.alloc(), no_failures(&rt));
    let mut sink = sink(&rt);
    let ended = run_download(
        rt.alloc(),
        &CommandLine {
            words: &words,
            clock: Timestamp::UNIX_EPOCH,
        },
        &mut inputs,
        &mut repo,
        &mut store,
        &mut shelf,
        &mut sink,
    );
    drop(words);
    drop(inputs);
    drop(repo);
    drop(store);
    let placed = shelf.files().len();
    drop(shelf);
    check(&rt, DOWNLOAD, DOWNLOADED, taken(&rt, sink));
    assert!(&rt; placed == 1, "one file is in its place");
    assert!(&rt; ended == Status::Accepted, "the target is had");
}
