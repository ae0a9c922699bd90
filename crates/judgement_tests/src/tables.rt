// How tables of rows are tried, and the values that their rows name. A test ends the process where it
// fails, so no helper hands a failure on.
use crate::inputs;
use sigstore_keys::MemorySource;
use sigstore_types_parts::{Bytes, FailList, Text};
use std::fmt::{Debug, Display};
use std::num::NonZeroU32;
use std::process::Abort;

// Tries a table of a call: a row is what the call is given, ` | ` and its answer; a line that begins with
// `#` is a comment.
pub(crate) fn hold<X: AllocGlobal + Abort>(rt: &X, call: &str, rows: &str) {
    for row in rows.lines() {
        if !row.starts_with('#') {
            let (given, wanted) = answered(rt, row);
            check(rt, row, wanted, inputs::answer(rt, call, given));
        }
    }
}

// What a row asks, and the answer that it wants.
pub(crate) fn answered<'a, X: Abort>(rt: &X, row: &'a str) -> (&'a str, &'a str) {
    there(rt, row.rsplit_once(" | "))
}

// Ends the process where a row's answer isn't the one that is wanted.
pub(crate) fn check<X: Abort>(rt: &X, row: &str, wanted: &str, found: String) {
    assert!(rt; found.as_str() == wanted, "{row}\nfound: {found}");
}

// What a call gave; a refusal ends the process.
pub(crate) fn good<X: Abort, T, E: Debug>(rt: &X, given: Result<T, E>) -> T {
    given.expect(rt, "a value")
}

// What is there; where nothing is, the process ends.
pub(crate) fn there<X: Abort, T>(rt: &X, given: Option<T>) -> T {
    given.expect(rt, "something")
}

// What stands before and behind the first of these marks.
pub(crate) fn halves<'a, X: Abort>(rt: &X, text: &'a str, mark: &str) -> (&'a str, &'a str) {
    there(rt, text.split_once(mark))
}

pub(crate) fn number<X: Abort>(rt: &X, text: &str) -> u64 {
    good(rt, text.parse::<u64>())
}

pub(crate) fn string<X: AllocGlobal + Abort>(rt: &X, text: &str) -> String {
    good(rt, String::from_str(rt.alloc(), text))
}

// The Debug text of a value, which is let go.
pub(crate) fn debug<X: AllocGlobal + Abort, T: Debug + Drop>(rt: &X, value: T) -> String {
    good(rt, format!(in rt.alloc(); "{value:?}"))
}

// The display text of a value, which is let go.
pub(crate) fn display<X: AllocGlobal + Abort, T: Display + Drop>(rt: &X, value: T) -> String {
    good(rt, format!(in rt.alloc(); "{value}"))
}

// A word for what a call gave, or the Debug text of its refusal.
pub(crate) fn word<X: AllocGlobal + Abort, T: Drop, E: Debug + Drop>(
    rt: &X,
    good: &str,
    answer: Result<T, E>,
) -> String {
    match answer {
        Ok(_) => string(rt, good),
        Err(refusal) => debug(rt, refusal),
    }
}

// The text of bytes in UTF-8.
pub(crate) fn text_of<X: AllocGlobal + Abort>(rt: &X, bytes: &[u8]) -> String {
    string(rt, good(rt, str::from_utf8(bytes)))
}

// A text with the end of a line in the place of each `;`.
pub(crate) fn lines_of<X: AllocGlobal + Abort>(rt: &X, text: &str) -> String {
    good(rt, text.replace(rt.alloc(), ';', "\n"))
}

// A part of what is given to a call, and the text in its place.
#[derive(Clone, Copy)]
pub(crate) struct Change<'a> {
    pub(crate) part: &'a str,
    pub(crate) text: &'a str,
}

impl<'a> Change<'a> {
    // The text of a part: that of the change, or else the usual one.
    pub(crate) fn of(self, part: &str, text: &'a str) -> &'a str {
        if self.part == part { self.text } else { text }
    }
}

// The change that a row names: one of these parts, ` | ` and its text.
pub(crate) fn change_in<'a, X: Abort>(rt: &X, row: &'a str, parts: &str) -> Change<'a> {
    let (part, text) = halves(rt, row, " | ");
    assert!(rt; parts.lines().any(|known| known == part), "{row}");
    Change { part, text }
}

// The calls that fail: the one of that number, or none where there is no number.
pub(crate) fn failures<X: AllocGlobal + Abort>(rt: &X, call: &str) -> FailList {
    let mut calls = Vec::new(rt.alloc());
    if !call.is_empty() {
        good(rt, calls.push(number(rt, call)));
    }
    there(rt, FailList::new(calls))
}

pub(crate) fn text<X: AllocGlobal + Abort>(rt: &X, text: &str) -> Text {
    good(rt, Text::new(rt.alloc(), text))
}

pub(crate) fn words<X: AllocGlobal + Abort>(rt: &X, line: &str) -> Vec<Text> {
    let mut words = Vec::new(rt.alloc());
    for word in line.split_whitespace() {
        there(rt, words.push(text(rt, word)).ok());
    }
    words
}

pub(crate) fn bytes<X: AllocGlobal + Abort>(rt: &X, bytes: &[u8]) -> Bytes {
    good(rt, Bytes::new(rt.alloc(), bytes))
}

// An artifact, so many bytes at a time; the read of that number fails.
pub(crate) fn source<X: AllocGlobal + Abort>(
    rt: &X,
    artifact: &str,
    step: u32,
    read: &str,
) -> MemorySource {
    let step = there(rt, NonZeroU32::new(step));
    MemorySource::new(bytes(rt, artifact.as_bytes()), step, failures(rt, read))
}
