// How tables of rows are tried, and the words that they compare. A test ends the process where it
// fails, so no helper hands a failure on. A call is found by its place in a list of names, since the
// proof of a match on numbers costs far less than that of one on texts.
use crate::{
    bundles, checkpoints, entries, envelopes, grown, inclusions, pem, texts, tiles, written,
};
use foundation::Duplicate;
use std::fmt::{Debug, Display};
use std::process::Abort;

/// Tries a table of a call: a row is what the call is given, ` => ` and its answer.
pub fn hold<X: AllocGlobal + Abort>(rt: &X, call: &str, rows: &str) {
    for row in rows.lines() {
        hold_row(rt, call, row);
    }
}

fn hold_row<X: AllocGlobal + Abort>(rt: &X, call: &str, row: &str) {
    let (given, wanted) = there(rt, row.rsplit_once(" => "));
    check(rt, row, wanted, answer(rt, call, given));
}

/// Ends the process where a row's answer isn't the one that is wanted.
fn check<X: Abort>(rt: &X, row: &str, wanted: &str, found: String) {
    assert!(rt; found.as_str() == wanted, "{row}\nfound: {found}");
}

const CALLS: &str = "\
refusal algorithm encoding parse_json member fail_list hint same range bundle material content structure \
byte_ff over_hello pem checkpoint entry inclusion envelope over_envelope signer moment written grown tiles";

/// The answer of a call that is given a text.
fn answer<X: AllocGlobal + Abort>(rt: &X, call: &str, given: &str) -> String {
    match place(call, CALLS) {
        0 => texts::refusal(rt, given),
        1 => texts::algorithm(rt, given),
        2 => texts::encoding(rt, given),
        3 => texts::fault(rt, given),
        4 => texts::member(rt, given),
        5 => texts::listed(rt, given),
        6 => texts::hint(rt, given),
        7 => texts::same(rt, given),
        8 => texts::range(rt, given),
        9 => bundles::bundle(rt, given.as_bytes()),
        10 => bundles::material(rt, given),
        11 => bundles::content(rt, given),
        12 => bundles::entries(rt, given),
        13 => bundles::bundle(rt, &[0xff]),
        14 => bundles::over_hello(rt, given),
        15 => pem::answer(rt, given),
        16 => checkpoints::answer(rt, given),
        17 => entries::answer(rt, given),
        18 => inclusions::answer(rt, given),
        19 => envelopes::answer(rt, given),
        20 => bundles::over_envelope(rt),
        21 => bundles::signer(rt, given),
        22 => texts::moment(rt, given),
        23 => written::answer(rt, given),
        24 => grown::answer(rt, given),
        25 => tiles::answer(rt, given),
        _ => string(rt, "no call"),
    }
}

/// The place of a word in a list with blanks between the words, or how many these are.
pub fn place(word: &str, words: &str) -> usize {
    let mut place = 0;
    for other in words.split(' ') {
        if other == word {
            return place;
        }
        place = place.saturating_add(1);
    }
    place
}

/// A text with others in the places of its marks, one mark after the other.
pub fn replaced<X: AllocGlobal + Abort>(rt: &X, text: &str, marks: &[(&str, &str)]) -> String {
    let mut text = string(rt, text);
    for (mark, other) in marks {
        text = good(rt, text.replace(rt.alloc(), *mark, *other));
    }
    text
}

/// What a call gave; a refusal ends the process.
pub fn good<X: Abort, T, E: Debug>(rt: &X, given: Result<T, E>) -> T {
    given.expect(rt, "a value")
}

/// What is there; where nothing is, the process ends.
pub fn there<X: Abort, T>(rt: &X, given: Option<T>) -> T {
    given.expect(rt, "something")
}

/// Ends the process where something doesn't hold.
pub fn holds<X: Abort>(rt: &X, holds: bool) {
    assert!(rt; holds);
}

/// What stands before and behind the first of these marks.
pub fn halves<'a, X: Abort>(rt: &X, text: &'a str, mark: &str) -> (&'a str, &'a str) {
    there(rt, text.split_once(mark))
}

pub fn number<X: Abort>(rt: &X, text: &str) -> u64 {
    good(rt, text.parse::<u64>())
}

pub fn string<X: AllocGlobal + Abort>(rt: &X, text: &str) -> String {
    good(rt, String::from_str(rt.alloc(), text))
}

/// Octets in hexadecimal.
pub fn hexadecimal<X: AllocGlobal + Abort>(rt: &X, octets: &[u8]) -> String {
    good(rt, hex::encode(rt.alloc(), octets))
}

/// The first octet in hexadecimal, `nothing` where there is none.
pub fn first<X: AllocGlobal + Abort>(rt: &X, octets: &[u8]) -> String {
    match octets.first() {
        Some(first) => hexadecimal(rt, &[*first]),
        None => string(rt, "nothing"),
    }
}

/// The Debug text of a value, which is let go.
pub fn printed<X: AllocGlobal + Abort, D: Debug + Drop>(rt: &X, value: D) -> String {
    good(rt, format!(in rt.alloc(); "{value:?}"))
}

/// The display text of a value, which is let go.
pub fn displayed<X: AllocGlobal + Abort, D: Display + Drop>(rt: &X, value: D) -> String {
    good(rt, format!(in rt.alloc(); "{value}"))
}

/// A number and the display text of what has it.
pub fn numbered<X: AllocGlobal + Abort, D: Display + Drop>(rt: &X, number: u8, value: D) -> String {
    good(rt, format!(in rt.alloc(); "{number} {value}"))
}

/// A copy in the place of the value that it equals.
pub fn copied<X: AllocGlobal + Abort, T: Duplicate + PartialEq + Drop>(rt: &X, value: T) -> T {
    let copy = good(rt, value.duplicate(rt.alloc()));
    let is_copied = copy == value;
    drop(value);
    holds(rt, is_copied);
    copy
}

/// Ends the process where a value that is let go isn't another.
pub fn equals<X: Abort, T: PartialEq + Drop>(rt: &X, value: T, other: &T) {
    let equals = value == *other;
    drop(value);
    holds(rt, equals);
}

/// `Ok`, or the Debug text of the refusal.
pub fn word<X: AllocGlobal + Abort, T: Drop, E: Debug + Drop>(
    rt: &X,
    answer: Result<T, E>,
) -> String {
    match answer {
        Ok(_) => string(rt, "Ok"),
        Err(refusal) => printed(rt, refusal),
    }
}
