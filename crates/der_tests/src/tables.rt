// Tables of calls, one row a line: a call, what it is given, ` => ` and its answer. Octets are given
// in hexadecimal or by the name of a certificate or a message, and `+N` stands for N octets 7 behind
// them. A test ends the process where it fails, so no helper hands a failure on. A call is found by
// its place in a list of names, since the proof of a match on numbers costs far less than that of one
// on texts.
use crate::certificate_data::{ED25519, LISTED, P256, P384, RSA, SIGNED};
use crate::leaves;
use crate::messages::{
    ATTACHED, BUILT, CERTIFICATE, DETACHED, DIGESTED, ENCRYPTED, EXTRA, HANDED_ON, ISSUER, KARI,
    KEYID, KTRI, LISTS, MESSAGE, NOATTR, SEVERAL, SIGNATURE, TWO_SIGNERS,
};
use der_core::{Der, DerError, OctetString, Tag};
use std::fmt::{self, Debug, Display};
use std::process::Abort;

/// Ends the process at the first row of tables whose call doesn't give its answer.
pub fn check_tables<X: AllocGlobal + Abort>(rt: &X, tables: &[&str]) {
    for rows in tables {
        check_rows(rt, rows);
    }
}

fn check_rows<X: AllocGlobal + Abort>(rt: &X, rows: &str) {
    for row in rows.lines() {
        check_row(rt, row);
    }
}

fn check_row<X: AllocGlobal + Abort>(rt: &X, row: &str) {
    let (call, wanted) = halves(rt, row, " => ");
    let (name, given) = halves(rt, call, " ");
    let found = leaves::answer_to_text(rt, name, given);
    check(rt, row, named(wanted), found);
}

/// Ends the process where an answer isn't the one that is wanted.
fn check<X: Abort>(rt: &X, row: &str, wanted: &str, found: String) {
    assert!(rt; found.as_str() == wanted, "{row}\nfound: {found}");
}

/// The place of a word in a list with blanks between the words, or how many these are.
pub fn place(word: &str, words: &str) -> usize {
    let mut place = 0;
    for other in words.split(' ') {
        if other == word {
            return place;
        }
        place = place.saturating_add(1);
    }
    place
}

/// What a call gave; a refusal ends the process.
pub fn good<X: Abort, T, E: Debug>(rt: &X, given: Result<T, E>) -> T {
    given.expect(rt, "a value")
}

/// What is there; where nothing is, the process ends.
pub fn there<X: Abort, T>(rt: &X, given: Option<T>) -> T {
    given.expect(rt, "something")
}

/// Ends the process where something doesn't hold.
pub fn holds<X: Abort>(rt: &X, holds: bool) {
    assert!(rt; holds);
}

/// What stands before and behind the first of these marks.
pub fn halves<'a, X: Abort>(rt: &X, text: &'a str, mark: &str) -> (&'a str, &'a str) {
    there(rt, text.split_once(mark))
}

const NAMES: &str = "\
p256 p384 rsa ed25519 listed signed attached detached two_signers keyid extra noattr lists built ktri kari \
several encrypted digested certificate issuer message signature handed_on -";

/// The text with this name, or the name itself.
fn named(name: &str) -> &str {
    match place(name, NAMES) {
        0 => P256,
        1 => P384,
        2 => RSA,
        3 => ED25519,
        4 => LISTED,
        5 => SIGNED,
        6 => ATTACHED,
        7 => DETACHED,
        8 => TWO_SIGNERS,
        9 => KEYID,
        10 => EXTRA,
        11 => NOATTR,
        12 => LISTS,
        13 => BUILT,
        14 => KTRI,
        15 => KARI,
        16 => SEVERAL,
        17 => ENCRYPTED,
        18 => DIGESTED,
        19 => CERTIFICATE,
        20 => ISSUER,
        21 => MESSAGE,
        22 => SIGNATURE,
        23 => HANDED_ON,
        24 => "",
        _ => name,
    }
}

/// The octets of a name, or of a text in hexadecimal.
pub fn octets<X: AllocGlobal + Abort>(rt: &X, text: &str) -> Vec<u8> {
    good(rt, hex::decode(rt.alloc(), named(text)))
}

/// The same with the octets 7 behind them.
pub fn octets_and_more<X: AllocGlobal + Abort>(rt: &X, text: &str) -> Vec<u8> {
    let (front, more) = text.split_once('+').unwrap_or((text, "0"));
    let mut bytes = octets(rt, front);
    let length = bytes.len().saturating_add(number(rt, more));
    good(rt, bytes.resize(length, 7));
    bytes
}

/// A copy with an octet in the place of another, or at the end.
pub fn changed<X: AllocGlobal + Abort>(rt: &X, bytes: &[u8], place: usize, octet: u8) -> Vec<u8> {
    let mut changed = good(rt, bytes.to_vec(rt.alloc()));
    match changed.get_mut(place) {
        Some(place) => *place = octet,
        None => good(rt, changed.push(octet)),
    }
    changed
}

/// A tag and the contents behind it.
pub fn tagged<'a, X: Abort>(rt: &X, bytes: &'a [u8]) -> (Tag, &'a [u8]) {
    let (tag, contents) = there(rt, bytes.split_first());
    (Tag(*tag), contents)
}

/// A decimal number.
pub fn number<X: Abort>(rt: &X, text: &str) -> usize {
    good(rt, text.parse::<usize>())
}

pub fn string<X: AllocGlobal + Abort>(rt: &X, text: &str) -> String {
    good(rt, String::from_str(rt.alloc(), text))
}

/// The form of `Debug` of a value, which is let go.
pub fn debug<X: AllocGlobal + Abort, T: Debug + Drop>(rt: &X, value: T) -> String {
    good(rt, format!(in rt.alloc(); "{value:?}"))
}

/// The text of a value, which is let go.
pub fn displayed<X: AllocGlobal + Abort, T: Display + Drop>(rt: &X, value: T) -> String {
    good(rt, format!(in rt.alloc(); "{value}"))
}

/// The number and the text of a refusal.
pub fn numbered<X: AllocGlobal + Abort, E: Display + Drop>(
    rt: &X,
    number: u8,
    refusal: E,
) -> String {
    good(rt, format!(in rt.alloc(); "{number} {refusal}"))
}

/// What a call gave, or its refusal, in the form of `Debug`.
pub fn shown<X: AllocGlobal + Abort, T: Debug + Drop, E: Debug + Drop>(
    rt: &X,
    given: Result<T, E>,
) -> String {
    match given {
        Ok(value) => debug(rt, value),
        Err(refusal) => debug(rt, refusal),
    }
}

pub fn hex_of<X: AllocGlobal + Abort>(rt: &X, bytes: &[u8]) -> String {
    good(rt, hex::encode(rt.alloc(), bytes))
}

/// Octets in hexadecimal, or the refusal.
pub fn in_hexadecimal<X: AllocGlobal + Abort, E: Debug + Drop>(
    rt: &X,
    given: Result<OctetString, E>,
) -> String {
    match given {
        Ok(bytes) => hex_of(rt, bytes.as_bytes()),
        Err(refusal) => debug(rt, refusal),
    }
}

/// The encoding of a value in hexadecimal, or the refusal.
pub fn encoded<X: AllocGlobal + Abort, T: Der, E: Debug + Drop>(
    rt: &X,
    given: Result<T, E>,
) -> String {
    match given {
        Ok(value) => in_hexadecimal::<X, DerError>(rt, value.to_der(rt.alloc())),
        Err(refusal) => debug(rt, refusal),
    }
}

/// `kept` where the octets are those that were read, else the octets in hexadecimal.
pub fn compared<X: AllocGlobal + Abort>(rt: &X, read: &[u8], written: OctetString) -> String {
    if written.as_bytes() == read {
        string(rt, "kept")
    } else {
        hex_of(rt, written.as_bytes())
    }
}

/// Octets whose form of `Debug` is hexadecimal.
#[derive(Clone, Copy)]
pub struct Hexadecimal<'a>(pub &'a [u8]);

impl Debug for Hexadecimal<'_> {
    fn fmt<W: fmt::Write>(&self, f: &mut fmt::Formatter<W>) -> fmt::Result {
        for octet in self.0 {
            write!(f, "{octet:02x}")?;
        }
        Ok(())
    }
}
