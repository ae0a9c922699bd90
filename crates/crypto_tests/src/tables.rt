// How tables of rows are tried, and the words that they compare. A test ends the process where it
// fails, so no helper hands a failure on. A call is found by its place in a list of names, since the
// proof of a match on numbers costs far less than that of one on texts.
use crate::{claims, key_forms, keys, logs, pairs, rings, sources, witnesses};
use foundation::Duplicate;
use sigstore_types_parts::{Bytes, DerPublicKey, Text};
use std::fmt::{Debug, Display};
use std::process::Abort;

/// Tries a table of a call: a row is what the call is given, ` => ` and its answer.
pub fn hold<X: AllocGlobal + Abort>(rt: &X, call: &str, rows: &str) {
    for row in rows.lines() {
        hold_row(rt, call, row);
    }
}

fn hold_row<X: AllocGlobal + Abort>(rt: &X, call: &str, row: &str) {
    let (given, wanted) = there(rt, row.rsplit_once(" => "));
    check(rt, row, wanted, answer(rt, call, given));
}

/// Ends the process where a row's answer isn't the one that is wanted.
pub fn check<X: Abort>(rt: &X, row: &str, wanted: &str, found: String) {
    assert!(rt; found.as_str() == wanted, "{row}\nfound: {found}");
}

const CALLS: &str = "\
refusal scheme algorithm sha256 sha384 sha512 from_spki judgement answers_alike in_der under_scheme raw_key \
signature source said public_key ring entry promise told_time under_key signed log_refusal least \
vkey cosigned witness_refusal";

/// The answer of a call that is given a text.
fn answer<X: AllocGlobal + Abort>(rt: &X, call: &str, given: &str) -> String {
    match place(call, CALLS) {
        0 => keys::refusal(rt, given),
        1 => keys::scheme(rt, given),
        2 => keys::resolved(rt, given),
        3 => keys::by_sha256(rt, given),
        4 => keys::by_sha384(rt, given),
        5 => keys::by_sha512(rt, given),
        6 => keys::key(rt, given),
        7 => keys::judged(rt, given),
        8 => keys::alike(rt, given.as_bytes()),
        9 => key_forms::own(rt, given),
        10 => key_forms::under(rt, given),
        11 => key_forms::raw(rt, given),
        12 => key_forms::signature(rt, given),
        13 => sources::source_read(rt, given),
        14 => claims::said(rt, given),
        15 => pairs::public_key(rt, given),
        16 => rings::answer(rt, given),
        17 => logs::entry_judged(rt, given),
        18 => logs::promise_judged(rt, given),
        19 => logs::told(rt, given),
        20 => logs::under_key(rt, given),
        21 => logs::signed(rt, given),
        22 => logs::refusal(rt, given),
        23 => rings::least(rt, given),
        24 => witnesses::vkey(rt, given),
        25 => witnesses::cosigned(rt, given),
        26 => witnesses::refusal(rt, given),
        _ => string(rt, "no call"),
    }
}

/// The place of a word in a list with blanks between the words, or how many these are.
pub fn place(word: &str, words: &str) -> usize {
    let mut place = 0;
    for other in words.split(' ') {
        if other == word {
            return place;
        }
        place = place.saturating_add(1);
    }
    place
}

/// What a call gave; a refusal ends the process.
pub fn good<X: Abort, T, E: Debug>(rt: &X, given: Result<T, E>) -> T {
    given.expect(rt, "a value")
}

/// What is there; where nothing is, the process ends.
pub fn there<X: Abort, T>(rt: &X, given: Option<T>) -> T {
    given.expect(rt, "something")
}

/// Ends the process where something doesn't hold.
pub fn holds<X: Abort>(rt: &X, holds: bool) {
    assert!(rt; holds);
}

/// What stands before and behind the first of these marks.
pub fn halves<'a, X: Abort>(rt: &X, text: &'a str, mark: &str) -> (&'a str, &'a str) {
    there(rt, text.split_once(mark))
}

pub fn number<X: Abort>(rt: &X, text: &str) -> u64 {
    good(rt, text.parse::<u64>())
}

pub fn string<X: AllocGlobal + Abort>(rt: &X, text: &str) -> String {
    good(rt, String::from_str(rt.alloc(), text))
}

pub fn text<X: AllocGlobal + Abort>(rt: &X, text: &str) -> Text {
    good(rt, Text::new(rt.alloc(), text))
}

/// The Debug text of a value, which is let go.
pub fn printed<X: AllocGlobal + Abort, D: Debug + Drop>(rt: &X, value: D) -> String {
    good(rt, format!(in rt.alloc(); "{value:?}"))
}

/// The display text of a value, which is let go.
pub fn displayed<X: AllocGlobal + Abort, D: Display + Drop>(rt: &X, value: D) -> String {
    good(rt, format!(in rt.alloc(); "{value}"))
}

/// A number and the display text of what has it.
pub fn numbered<X: AllocGlobal + Abort, D: Display + Drop>(rt: &X, number: u8, value: D) -> String {
    good(rt, format!(in rt.alloc(); "{number} {value}"))
}

/// The octets of a hexadecimal text.
pub fn octets<X: AllocGlobal + Abort>(rt: &X, text: &str) -> Bytes {
    Bytes::from_vec(good(rt, hex::decode(rt.alloc(), text)))
}

/// Octets in hexadecimal.
pub fn hex_of<X: AllocGlobal + Abort>(rt: &X, octets: &[u8]) -> String {
    good(rt, hex::encode(rt.alloc(), octets))
}

/// A copy in the place of the value that it equals.
pub fn copied<X: AllocGlobal + Abort, T: Duplicate + PartialEq + Drop>(rt: &X, value: T) -> T {
    let copy = good(rt, value.duplicate(rt.alloc()));
    let is_copied = copy == value;
    drop(value);
    holds(rt, is_copied);
    copy
}

/// Ends the process where two values, which are let go, aren't equal.
pub fn equals<X: Abort, T: PartialEq + Drop>(rt: &X, first: T, second: T) {
    let equals = first == second;
    drop(first);
    drop(second);
    holds(rt, equals);
}

/// `Ok`, or the Debug text of the refusal.
pub fn word<X: AllocGlobal + Abort, T: Drop, E: Debug + Drop>(
    rt: &X,
    answer: Result<T, E>,
) -> String {
    match answer {
        Ok(_) => string(rt, "Ok"),
        Err(refusal) => printed(rt, refusal),
    }
}

pub fn key_in<X: AllocGlobal + Abort>(rt: &X, base64: &str) -> DerPublicKey {
    good(rt, DerPublicKey::from_base64(rt.alloc(), base64))
}
