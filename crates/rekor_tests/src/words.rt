// How tables of rows are tried, and what the marks of texts mean. A call is found by its place in a list of names.
use crate::bodies_data::BODIES;
use crate::data::PARTS;
use crate::{answers, bodies, certified, entries, ids, requests};
use foundation::Duplicate;
use sigstore_rekor_parts::{Error, ResponseRule};
use std::fmt::{Debug, Display};
use std::num::NonZeroU8;
use std::process::Abort;

/// Tries tables, each behind the call that it is of: a row is what the call is given, ` => ` and its answer.
pub fn hold<X: AllocGlobal + Abort>(rt: &X, rows_of_calls: &[(&str, &str)]) {
    for (call, rows) in rows_of_calls {
        hold_rows(rt, call, rows);
    }
}

fn hold_rows<X: AllocGlobal + Abort>(rt: &X, call: &str, rows: &str) {
    for row in rows.lines() {
        hold_row(rt, call, row);
    }
}

fn hold_row<X: AllocGlobal + Abort>(rt: &X, call: &str, row: &str) {
    let (given, wanted) = there(rt, row.rsplit_once(" => "));
    check(rt, row, wanted, answer(rt, call, given));
}

/// Ends the process where a row's answer isn't the one that is wanted.
fn check<X: Abort>(rt: &X, row: &str, wanted: &str, found: String) {
    assert!(rt; found.as_str() == wanted, "{row}\nfound: {found}");
}

const CALLS: &str = "\
read parsed octets armored described digests id hash refusal \
path request answer value of_bundle search checkpoint tile bundle valid second signed";

fn answer<X: AllocGlobal + Abort>(rt: &X, call: &str, given: &str) -> String {
    match place(call, CALLS) {
        0 => bodies::read(rt, given),
        1 => bodies::parsed(rt, given),
        2 => bodies::octets(rt, given),
        3 => bodies::armored(rt, given),
        4 => entries::described(rt, given),
        5 => entries::digests(rt, given),
        6 => ids::id(rt, given),
        7 => ids::hash(rt, given),
        8 => ids::refusal(rt, given),
        9 => requests::path(rt, given),
        10 => requests::request(rt, given),
        11 => answers::answered(rt, given),
        12 => answers::value(rt, given),
        13 => answers::of_bundle(rt, given),
        14 => answers::searched(rt, given),
        15 => answers::checkpoint(rt, given),
        16 => answers::tile(rt, given),
        17 => answers::bundle(rt, given),
        18 => answers::valid(rt, given),
        19 => answers::second_answered(rt, given),
        20 => certified::signed(rt, given),
        _ => string(rt, "no call"),
    }
}

/// The place of a word in a list with blanks between the words, or how many these are.
pub fn place(word: &str, words: &str) -> usize {
    let mut place = 0;
    for other in words.split(' ') {
        if other == word {
            return place;
        }
        place = place.saturating_add(1);
    }
    place
}

/// What a call gave; a refusal ends the process.
pub fn good<X: Abort, T, E: Debug>(rt: &X, given: Result<T, E>) -> T {
    given.expect(rt, "a value")
}

/// What is there; where nothing is, the process ends.
pub fn there<X: Abort, T>(rt: &X, given: Option<T>) -> T {
    given.expect(rt, "something")
}

/// Ends the process where something doesn't hold.
pub fn holds<X: Abort>(rt: &X, holds: bool) {
    assert!(rt; holds);
}

/// What stands before and behind the first of these marks.
pub fn halves<'a, X: Abort>(rt: &X, text: &'a str, mark: &str) -> (&'a str, &'a str) {
    there(rt, text.split_once(mark))
}

/// A text of its own.
pub fn string<X: AllocGlobal + Abort>(rt: &X, text: &str) -> String {
    good(rt, String::from_str(rt.alloc(), text))
}

/// The display text of a value, which is let go.
pub fn displayed<X: AllocGlobal + Abort, D: Display + Drop>(rt: &X, value: D) -> String {
    good(rt, format!(in rt.alloc(); "{value}"))
}

/// The Debug text of a value, which is let go.
pub fn printed<X: AllocGlobal + Abort, D: Debug + Drop>(rt: &X, value: D) -> String {
    good(rt, format!(in rt.alloc(); "{value:?}"))
}

/// A text and a second one behind a blank.
pub fn joined<X: AllocGlobal + Abort>(rt: &X, text: String, more: String) -> String {
    good(rt, format!(in rt.alloc(); "{text} {more}"))
}

/// A copy in the place of the value that it equals.
pub fn copied<X: AllocGlobal + Abort, T: Duplicate + PartialEq + Drop>(rt: &X, value: T) -> T {
    let copy = good(rt, value.duplicate(rt.alloc()));
    let is_copied = copy == value;
    drop(value);
    holds(rt, is_copied);
    copy
}

/// What a log's refusal is shown as: the rule, where it has one.
pub fn refused<X: AllocGlobal + Abort>(rt: &X, refusal: Error) -> String {
    match refusal {
        Error::InvalidResponse { rule } => ruled(rt, rule),
        other => printed(rt, other),
    }
}

fn ruled<X: AllocGlobal + Abort>(rt: &X, rule: ResponseRule) -> String {
    match rule {
        ResponseRule::Member { member } => printed(rt, member),
        other => {
            let other = printed(rt, other);
            good(rt, format!(in rt.alloc(); "rule {other}"))
        }
    }
}

/// A number.
pub fn number<X: Abort>(rt: &X, word: &str) -> u64 {
    good(rt, word.parse::<u64>())
}

/// How many hashes or entries a partial tile has, or `-` for a full one.
pub fn width<X: Abort>(rt: &X, word: &str) -> Option<NonZeroU8> {
    if word == "-" {
        return None;
    }
    NonZeroU8::new(good(rt, word.parse::<u8>()))
}

fn parts() -> &'static str {
    PARTS
}

/// A text with the parts that its marks name; `<.` begins the mark of a part that this key has.
pub fn expanded<X: AllocGlobal + Abort>(rt: &X, text: &str, key: &str) -> String {
    let own = good(rt, format!(in rt.alloc(); "<{key}."));
    let mut text = good(rt, string(rt, text).replace(rt.alloc(), "<.", own.as_str()));
    text = good(rt, text.replace(rt.alloc(), "<line>", "\n"));
    for row in parts().lines() {
        let (mark, part) = halves(rt, row, " ");
        text = good(rt, text.replace(rt.alloc(), mark, part));
    }
    text
}

/// A text with marks in the places of the parts that they name.
pub fn marked<X: AllocGlobal + Abort>(rt: &X, text: String) -> String {
    let mut text = text;
    for row in parts().lines() {
        let (mark, part) = halves(rt, row, " ");
        text = good(rt, text.replace(rt.alloc(), part, mark));
    }
    text
}

// The text with one part in another's place: `OLD ~ NEW`.
fn once_changed<X: AllocGlobal + Abort>(rt: &X, whole: &str, change: &str) -> String {
    let (old, new) = halves(rt, change, " ~ ");
    let (before, behind) = halves(rt, whole, old);
    good(rt, format!(in rt.alloc(); "{before}{new}{behind}"))
}

/// The text with changes, one behind the other.
pub fn changed<X: AllocGlobal + Abort>(rt: &X, whole: &str, changes: &str) -> String {
    let mut text = string(rt, whole);
    if changes.is_empty() {
        return text;
    }
    for change in changes.split(" ; ") {
        text = once_changed(rt, text.as_str(), change);
    }
    text
}

// What a table has behind a name.
fn behind<X: Abort>(rt: &X, table: &'static str, name: &str) -> &'static str {
    for row in table.lines() {
        let (first, rest) = halves(rt, row, " ");
        if first == name {
            return rest;
        }
    }
    there(rt, None)
}

/// The body that a row tells for a key: `NAME | CHANGES`.
pub fn body<X: AllocGlobal + Abort>(rt: &X, given: &str, key: &str) -> String {
    let (name, changes) = halves(rt, given, " | ");
    let text = changed(rt, behind(rt, BODIES, name), changes);
    let body = expanded(rt, text.as_str(), key);
    drop(text);
    body
}
