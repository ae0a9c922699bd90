// What tables of rows are tried with. A test ends the process where it fails.
use sigstore_types_parts::{Bytes, FailList};
use std::fmt::Debug;
use std::process::Abort;

// What a call gave; a refusal ends the process.
pub(crate) fn good<X: Abort, T, E: Debug>(rt: &X, given: Result<T, E>) -> T {
    given.expect(rt, "a value")
}

// What is there; where nothing is, the process ends.
pub(crate) fn there<X: Abort, T>(rt: &X, given: Option<T>) -> T {
    given.expect(rt, "something")
}

// What stands before and behind the first of these marks.
pub(crate) fn halves<'a, X: Abort>(rt: &X, text: &'a str, mark: &str) -> (&'a str, &'a str) {
    there(rt, text.split_once(mark))
}

pub(crate) fn string<X: AllocGlobal + Abort>(rt: &X, text: &str) -> String {
    good(rt, String::from_str(rt.alloc(), text))
}

pub(crate) fn bytes<X: AllocGlobal + Abort>(rt: &X, text: &str) -> Bytes {
    good(rt, Bytes::new(rt.alloc(), text.as_bytes()))
}

// No call fails.
pub(crate) fn no_failures<X: AllocGlobal + Abort>(rt: &X) -> FailList {
    there(rt, FailList::new(Vec::new(rt.alloc())))
}

// Ends the process where a row's answer isn't the one that is wanted.
pub(crate) fn check<X: Abort>(rt: &X, row: &str, wanted: &str, found: String) {
    assert!(rt; found.as_str() == wanted, "{row}\nfound: {found}");
}
