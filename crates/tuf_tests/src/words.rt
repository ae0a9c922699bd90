// How tables of rows are tried, and the words that they compare. A test ends the process where it
// fails, so no helper hands a failure on.
use crate::refusals;
use foundation::Duplicate;
use sigstore_types_parts::{Bytes, DerPublicKey, Text};
use std::fmt::{Debug, Display};
use std::process::Abort;

/// Tries a table of a call: a row is what the call is given, ` => ` and its answer.
pub fn hold<X: AllocGlobal + Abort>(rt: &X, call: &str, rows: &str) {
    for row in rows.lines() {
        let (given, wanted) = there(rt, row.rsplit_once(" => "));
        check(rt, row, wanted, refusals::answer(rt, call, given));
    }
}

/// Tries a table of a call that is given this text; a row has the cells in the place of its stars.
pub fn hold_filled<X: AllocGlobal + Abort>(rt: &X, call: &str, text: &str, rows: &str) {
    for row in rows.lines() {
        let (cells, wanted) = there(rt, row.rsplit_once(" => "));
        let given = filled(rt, text, cells);
        check(rt, row, wanted, refusals::answer(rt, call, given.as_str()));
        drop(given);
    }
}

/// Ends the process where a row's answer isn't the one that is wanted.
pub fn check<X: Abort>(rt: &X, row: &str, wanted: &str, found: String) {
    assert!(rt; found.as_str() == wanted, "{row}\nfound: {found}");
}

/// A text with a cell in the place of each of its stars; ` | ` stands between cells.
pub fn filled<X: AllocGlobal + Abort>(rt: &X, text: &str, cells: &str) -> String {
    let mut filled = String::new(rt.alloc());
    let mut parts = text.split('*');
    good(rt, filled.push_str(there(rt, parts.next())));
    for cell in cells.split(" | ") {
        good(rt, filled.push_str(cell));
        good(rt, filled.push_str(there(rt, parts.next())));
    }
    assert!(rt; parts.next().is_none(), "a cell for each star");
    filled
}

/// What a call gave; a refusal ends the process.
pub fn good<X: Abort, T, E: Debug>(rt: &X, given: Result<T, E>) -> T {
    given.expect(rt, "a value")
}

/// What is there; where nothing is, the process ends.
pub fn there<X: Abort, T>(rt: &X, given: Option<T>) -> T {
    given.expect(rt, "something")
}

/// What stands before and behind the first of these marks.
pub fn halves<'a, X: Abort>(rt: &X, text: &'a str, mark: &str) -> (&'a str, &'a str) {
    there(rt, text.split_once(mark))
}

pub fn number<X: Abort>(rt: &X, text: &str) -> u64 {
    good(rt, text.parse::<u64>())
}

pub fn string<X: AllocGlobal + Abort>(rt: &X, text: &str) -> String {
    good(rt, String::from_str(rt.alloc(), text))
}

pub fn text<X: AllocGlobal + Abort>(rt: &X, text: &str) -> Text {
    good(rt, Text::new(rt.alloc(), text))
}

/// The Debug text of a value, which is let go.
pub fn printed<X: AllocGlobal + Abort, D: Debug + Drop>(rt: &X, value: D) -> String {
    good(rt, format!(in rt.alloc(); "{value:?}"))
}

/// The display text of a value, which is let go.
pub fn displayed<X: AllocGlobal + Abort, D: Display + Drop>(rt: &X, value: D) -> String {
    good(rt, format!(in rt.alloc(); "{value}"))
}

/// `Ok`, or the Debug text of the refusal.
pub fn word<X: AllocGlobal + Abort, T: Drop, E: Debug + Drop>(
    rt: &X,
    answer: Result<T, E>,
) -> String {
    match answer {
        Ok(_) => string(rt, "Ok"),
        Err(refusal) => printed(rt, refusal),
    }
}

/// The text of bytes in UTF-8.
pub fn text_of<X: AllocGlobal + Abort>(rt: &X, bytes: &[u8]) -> String {
    string(rt, good(rt, str::from_utf8(bytes)))
}

/// A copy in the place of a value.
pub fn copied<X: AllocGlobal + Abort, T: Duplicate>(rt: &X, value: T) -> T {
    good(rt, value.duplicate(rt.alloc()))
}

/// Whether a call gave a value, which is let go.
pub fn is_good<T: Drop, E: Drop>(answer: Result<T, E>) -> bool {
    answer.is_ok()
}

pub fn key_bytes<X: AllocGlobal + Abort>(rt: &X, base64: &str) -> Bytes {
    let key = key_in(rt, base64);
    let bytes = good(rt, Bytes::new(rt.alloc(), key.as_bytes()));
    drop(key);
    bytes
}

fn key_in<X: AllocGlobal + Abort>(rt: &X, base64: &str) -> DerPublicKey {
    good(rt, DerPublicKey::from_base64(rt.alloc(), base64))
}
