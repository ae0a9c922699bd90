// How tables of rows are tried, and what the rows mean: names of certificates, moments, and answers as texts. A
// call is found by its place in a list of names, since the proof of a match on numbers costs far less than that
// of one on texts.
use crate::certificates::{CERTIFICATES, KEYS};
use crate::counting::CountingProvider;
use crate::paths;
use crate::signatures::SIGNATURES;
use command_files::{Tables, read_provider};
use jiff::Timestamp;
use path_core::{Anchor, FoundPath, PathError, PathRequest, Purpose, Steps, find_path};
use sigstore_types_parts::{DerCertificate, DerPublicKey, TimeRange};
use std::fmt::{Debug, Display};
use std::process::Abort;

/// Tries tables, each behind the call that it is of: a row is what the call is given, ` => ` and its answer.
pub fn hold<X: AllocGlobal + Abort>(rt: &X, rows_of_calls: &[(&str, &str)]) {
    let tables = good(rt, read_provider(rt.alloc(), SIGNATURES.as_bytes()));
    for (call, rows) in rows_of_calls {
        hold_rows(rt, &tables, call, rows);
    }
    drop(tables);
}

fn hold_rows<X: AllocGlobal + Abort>(rt: &X, tables: &Tables, call: &str, rows: &str) {
    for row in rows.lines() {
        hold_row(rt, tables, call, row);
    }
}

fn hold_row<X: AllocGlobal + Abort>(rt: &X, tables: &Tables, call: &str, row: &str) {
    let (given, wanted) = halves(rt, row, " => ");
    check(rt, row, wanted, answer(rt, tables, call, given));
}

/// Ends the process where a row's answer isn't the one that is wanted.
fn check<X: Abort>(rt: &X, row: &str, wanted: &str, found: String) {
    assert!(rt; found.as_str() == wanted, "{row}\nfound: {found}");
}

/// The answer of a call.
fn answer<X: AllocGlobal + Abort>(rt: &X, tables: &Tables, call: &str, given: &str) -> String {
    match place(call, "path count making refusal") {
        0 => search(rt, tables, given, false),
        1 => search(rt, tables, given, true),
        2 => making(rt, given),
        3 => paths::refusal(rt, given),
        _ => text(rt, "no call"),
    }
}

/// The place of a word in a list with blanks between the words, or how many these are.
pub fn place(word: &str, words: &str) -> usize {
    let mut place = 0;
    for other in words.split(' ') {
        if other == word {
            return place;
        }
        place = place.saturating_add(1);
    }
    place
}

/// What a call gave; a refusal ends the process.
pub fn good<X: Abort, T, E: Debug>(rt: &X, given: Result<T, E>) -> T {
    given.expect(rt, "a value")
}

/// What is there; where nothing is, the process ends.
fn there<X: Abort, T>(rt: &X, given: Option<T>) -> T {
    given.expect(rt, "something")
}

/// What stands before and behind the first of these marks.
fn halves<'a, X: Abort>(rt: &X, text: &'a str, mark: &str) -> (&'a str, &'a str) {
    there(rt, text.split_once(mark))
}

/// A text of its own.
fn text<X: AllocGlobal + Abort>(rt: &X, text: &str) -> String {
    good(rt, String::from_str(rt.alloc(), text))
}

/// The display text of a value, which is let go.
pub fn displayed<X: AllocGlobal + Abort, D: Display + Drop>(rt: &X, value: D) -> String {
    good(rt, format!(in rt.alloc(); "{value}"))
}

/// The Debug text of a value, which is let go.
fn printed<X: AllocGlobal + Abort, D: Debug + Drop>(rt: &X, value: D) -> String {
    good(rt, format!(in rt.alloc(); "{value:?}"))
}

// What a table has behind a name.
fn behind<X: Abort>(rt: &X, table: &'static str, name: &str) -> &'static str {
    for row in table.lines() {
        let (first, rest) = halves(rt, row, " ");
        if first == name {
            return rest;
        }
    }
    there(rt, None)
}

/// The certificate of a name.
fn certificate<X: AllocGlobal + Abort>(rt: &X, name: &str) -> DerCertificate {
    let encoded = behind(rt, CERTIFICATES, name);
    good(rt, DerCertificate::from_base64(rt.alloc(), encoded))
}

// Adds the certificate of a word, as often as it says: `name*20` twenty times.
fn push_each<X: AllocGlobal + Abort>(rt: &X, word: &str, all: &mut Vec<DerCertificate>) {
    let (name, count) = word.split_once('*').unwrap_or((word, "1"));
    for _ in 0..good(rt, count.parse::<usize>()) {
        good(rt, all.push(certificate(rt, name)));
    }
}

// The certificates of names.
fn certificates<X: AllocGlobal + Abort>(rt: &X, names: &str) -> Vec<DerCertificate> {
    let mut all = Vec::new(rt.alloc());
    for word in names.split_ascii_whitespace() {
        push_each(rt, word, &mut all);
    }
    all
}

/// A moment; `now` is the middle of 2024.
fn moment<X: Abort>(rt: &X, word: &str) -> Timestamp {
    let word = if word == "now" {
        "2024-06-01T00:00:00Z"
    } else {
        word
    };
    good(rt, word.parse::<Timestamp>())
}

// A window: `START..END`, the end left out where there is none.
fn window<X: Abort>(rt: &X, word: &str) -> TimeRange {
    let (start, end) = halves(rt, word, "..");
    TimeRange {
        start: moment(rt, start),
        end: if end.is_empty() {
            None
        } else {
            Some(moment(rt, end))
        },
    }
}

// The anchor of `NAME`, or of `NAME@WINDOW`.
fn anchor<X: AllocGlobal + Abort>(rt: &X, word: &str) -> Result<Anchor, PathError> {
    let (name, valid_for) = match word.split_once('@') {
        Some((name, range)) => (name, Some(window(rt, range))),
        None => (word, None),
    };
    let certificate = certificate(rt, name);
    Anchor::from_certificate(rt.alloc(), &certificate, valid_for)
}

// The anchors of words.
fn anchors<X: AllocGlobal + Abort>(rt: &X, words: &str) -> Vec<Anchor> {
    let mut all = Vec::new(rt.alloc());
    for word in words.split_ascii_whitespace() {
        good(rt, all.push(good(rt, anchor(rt, word))));
    }
    all
}

// What a leaf is wanted for.
fn purpose(word: &str) -> Purpose {
    if word == "code" {
        Purpose::CodeSigning
    } else {
        Purpose::TimeStamping
    }
}

// What the making of an anchor answers.
fn making<X: AllocGlobal + Abort>(rt: &X, word: &str) -> String {
    match anchor(rt, word) {
        Ok(_) => text(rt, "made"),
        Err(refusal) => displayed(rt, refusal),
    }
}

// The name of a key.
fn key_name<X: AllocGlobal + Abort>(rt: &X, spki: &[u8]) -> &'static str {
    for row in KEYS.lines() {
        let (name, encoded) = halves(rt, row, " ");
        if is_key(rt, encoded, spki) {
            return name;
        }
    }
    "another key"
}

fn is_key<X: AllocGlobal + Abort>(rt: &X, encoded: &str, spki: &[u8]) -> bool {
    let key = good(rt, DerPublicKey::from_base64(rt.alloc(), encoded));
    key.as_bytes() == spki
}

// Positions, each before a blank.
fn positions<X: AllocGlobal + Abort>(rt: &X, positions: &[u64]) -> String {
    let mut all = text(rt, "");
    for position in positions {
        good(rt, all.push_str(printed(rt, *position).as_str()));
        good(rt, all.push_str(" "));
    }
    all
}

// A path: its positions, `>`, its anchor's, and whose key issued the leaf.
fn path<X: AllocGlobal + Abort>(rt: &X, found: &FoundPath) -> String {
    let positions = positions(rt, found.positions.as_slice());
    let name = key_name(rt, found.issuer_spki.as_bytes());
    let anchor = found.anchor;
    good(
        rt,
        format!(in rt.alloc(); "{positions}> {anchor} by {name}"),
    )
}

// The answer of a search, or how many pairs it judged and how often it asked the provider. What is asked has four parts between colons: a leaf,
// intermediates, anchors, and what for and when.
fn search<X: AllocGlobal + Abort>(rt: &X, tables: &Tables, given: &str, counts: bool) -> String {
    let (leaf, rest) = halves(rt, given, " :");
    let (intermediates, rest) = halves(rt, rest, " :");
    let (anchor_words, last) = halves(rt, rest, " : ");
    let intermediates = certificates(rt, intermediates);
    let anchors = anchors(rt, anchor_words);
    let parts = (intermediates.as_slice(), anchors.as_slice());
    let answer = found(rt, tables, leaf, parts, last, counts);
    drop(anchors);
    drop(intermediates);
    answer
}

fn found<X: AllocGlobal + Abort>(
    rt: &X,
    tables: &Tables,
    leaf: &str,
    parts: (&[DerCertificate], &[Anchor]),
    last: &str,
    counts: bool,
) -> String {
    let (purpose_word, at) = halves(rt, last, " ");
    let (leaf, time) = (certificate(rt, leaf), moment(rt, at));
    let (intermediates, anchors) = parts;
    let provider = CountingProvider::new(&tables.provider);
    let request = PathRequest {
        provider: &provider,
        leaf: &leaf,
        intermediates,
        anchors,
        purpose: purpose(purpose_word),
        at: time,
    };
    let mut steps = Steps::new();
    let found = find_path(rt.alloc(), &request, &mut steps);
    drop(leaf);
    if counts {
        drop(found);
        let (judged, asked) = (steps.count(), provider.asked());
        return good(rt, format!(in rt.alloc(); "{judged} {asked}"));
    }
    told(rt, found)
}

fn told<X: AllocGlobal + Abort>(rt: &X, found: Result<FoundPath, PathError>) -> String {
    match found {
        Ok(found) => path(rt, &found),
        Err(refusal) => printed(rt, refusal),
    }
}
