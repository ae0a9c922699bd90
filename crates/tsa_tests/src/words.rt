// How tables of rows are tried, and what the rows mean.
use crate::data::{CERTIFICATES, SIGNATURES};
use crate::{tokens, types};
use command_files::{Tables, read_provider};
use foundation::Sequence;
use jiff::Timestamp;
use sigstore_types::{Authority, DerCertificate, TimeRange, TsaAuthority};
use std::fmt::{Debug, Display};
use std::process::Abort;

/// Tries tables, each behind the call that it is of: a row is what the call is given, ` => ` and its answer.
pub fn hold<X: AllocGlobal + Abort>(rt: &X, rows_of_calls: &[(&str, &str)]) {
    let tables = good(rt, read_provider(rt.alloc(), SIGNATURES.as_bytes()));
    for (call, rows) in rows_of_calls {
        hold_rows(rt, &tables, call, rows);
    }
    drop(tables);
}

fn hold_rows<X: AllocGlobal + Abort>(rt: &X, tables: &Tables, call: &str, rows: &str) {
    for row in rows.lines() {
        hold_row(rt, tables, call, row);
    }
}

fn hold_row<X: AllocGlobal + Abort>(rt: &X, tables: &Tables, call: &str, row: &str) {
    let (given, wanted) = halves(rt, row, " => ");
    check(rt, row, wanted, answer(rt, tables, call, given));
}

/// Ends the process where a row's answer isn't the one that is wanted.
fn check<X: Abort>(rt: &X, row: &str, wanted: &str, found: String) {
    assert!(rt; found.as_str() == wanted, "{row}\nfound: {found}");
}

fn answer<X: AllocGlobal + Abort>(rt: &X, tables: &Tables, call: &str, given: &str) -> String {
    match place(
        call,
        "token among kept status digest answers written refusal",
    ) {
        0 => tokens::judged(rt, tables, given),
        1 => tokens::among(rt, tables, given),
        2 => types::kept(rt, given),
        3 => types::status(rt, given),
        4 => types::identifier(rt, given),
        5 => types::answered(rt, given),
        6 => types::written(rt, given),
        7 => types::refusal(rt, given),
        _ => text(rt, "no call"),
    }
}

/// The place of a word in a list with blanks between the words, or how many these are.
pub fn place(word: &str, words: &str) -> usize {
    let mut place = 0;
    for other in words.split(' ') {
        if other == word {
            return place;
        }
        place = place.saturating_add(1);
    }
    place
}

/// What a call gave; a refusal ends the process.
pub fn good<X: Abort, T, E: Debug>(rt: &X, given: Result<T, E>) -> T {
    given.expect(rt, "a value")
}

/// What is there; where nothing is, the process ends.
pub fn there<X: Abort, T>(rt: &X, given: Option<T>) -> T {
    given.expect(rt, "something")
}

/// What stands before and behind the first of these marks.
pub fn halves<'a, X: Abort>(rt: &X, text: &'a str, mark: &str) -> (&'a str, &'a str) {
    there(rt, text.split_once(mark))
}

/// A text of its own.
pub fn text<X: AllocGlobal + Abort>(rt: &X, text: &str) -> String {
    good(rt, String::from_str(rt.alloc(), text))
}

/// The display text of a value, which is let go.
pub fn displayed<X: AllocGlobal + Abort, D: Display + Drop>(rt: &X, value: D) -> String {
    good(rt, format!(in rt.alloc(); "{value}"))
}

/// The Debug text of a value, which is let go.
pub fn printed<X: AllocGlobal + Abort, D: Debug + Drop>(rt: &X, value: D) -> String {
    good(rt, format!(in rt.alloc(); "{value:?}"))
}

/// What a table has behind a name.
pub fn behind<X: Abort>(rt: &X, table: &'static str, name: &str) -> &'static str {
    for row in table.lines() {
        let (first, rest) = halves(rt, row, " ");
        if first == name {
            return rest;
        }
    }
    there(rt, None)
}

fn certificate<X: AllocGlobal + Abort>(rt: &X, name: &str) -> DerCertificate {
    let encoded = behind(rt, CERTIFICATES, name);
    good(rt, DerCertificate::from_base64(rt.alloc(), encoded))
}

/// A moment.
pub fn moment<X: Abort>(rt: &X, word: &str) -> Timestamp {
    good(rt, word.parse::<Timestamp>())
}

// `START..END`, the end left out where there is none, or `-` for no window.
fn window<X: Abort>(rt: &X, word: &str) -> Option<TimeRange> {
    let (start, end) = word.split_once("..")?;
    Some(TimeRange {
        start: moment(rt, start),
        end: if end.is_empty() {
            None
        } else {
            Some(moment(rt, end))
        },
    })
}

/// The authority of the certificates with these names, in a window.
pub fn authority<X: AllocGlobal + Abort>(rt: &X, names: &str, valid_for: &str) -> TsaAuthority {
    let mut chain = Authority {
        certificates: Sequence::new(rt.alloc()),
        valid_for: window(rt, valid_for),
    };
    for name in names.split_ascii_whitespace() {
        good(rt, chain.certificates.push(certificate(rt, name)));
    }
    let stamping = good(rt, chain.stamping(rt.alloc()));
    drop(chain);
    stamping
}
