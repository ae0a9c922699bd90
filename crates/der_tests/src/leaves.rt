// Calls of der_core, with answers worked out by hand.
use crate::tables::{
    check_tables, compared, debug, encoded, good, hex_of, holds, number, numbered, octets_and_more,
    place, shown, string, tagged, there,
};
use crate::{builders, contents, encodings, lists};
use der_core::*;
use jiff::Timestamp;
use std::process::Abort;

const CALLS_ON_TEXTS: &str = "\
DerError ObjectIdentifier::new ObjectIdentifier::as_bytes ObjectIdentifier::parent ObjectIdentifier::arc \
UtcTime::new GeneralizedTime::new Sequence::numbers Sequence::options NoMemory";

/// The answer of a call that is given a text; for any other name that of a builder.
pub fn answer_to_text<X: AllocGlobal + Abort>(rt: &X, name: &str, given: &str) -> String {
    match place(name, CALLS_ON_TEXTS) {
        0 => numbered_error(rt, refusal(number(rt, given))),
        1 => encoded(rt, ObjectIdentifier::new(given)),
        2 => hex_of(rt, identifier(rt, given).as_bytes()),
        3 => encoded(rt, identifier(rt, given).parent().ok_or(DerError::Oid)),
        4 => arcs_of(rt, &identifier(rt, given)),
        5 => letters_of::<X, UtcTimeKind>(rt, moment_of(rt, given)),
        6 => letters_of::<X, GeneralizedTimeKind>(rt, moment_of(rt, given)),
        7 => lists::numbers(rt),
        8 => lists::options(rt),
        9 => lists::want_of_memory(rt),
        _ => builders::answer(rt, name, given),
    }
}

/// The answer of a call that is given octets and words behind them, if any.
pub fn answer_to_words<X: AllocGlobal + Abort>(rt: &X, name: &str, given: &str) -> String {
    let (front, words) = given.split_once(' ').unwrap_or((given, ""));
    let bytes = octets_and_more(rt, front);
    let answer = encodings::answer(rt, name, &bytes, words);
    drop(bytes);
    answer
}

const CALLS_ON_OCTETS: &str = "\
Any::new Int::new Uint::new Uint::as_bytes Int::encode_into Int::der_cmp OctetString::as_bytes \
SetOfVec::insert SetOfVec::try_from SetOfVec::eq SetOfVec::len ObjectIdentifier::from_arcs \
ObjectIdentifier::is_contents Uint::is_contents Reader read_default append_default explicit_default \
UtcTime::moment GeneralizedTime::moment";

/// The answer of a call that is given octets; for any other name that of a call about messages.
pub fn answer_to_octets<X: AllocGlobal + Abort>(
    rt: &X,
    name: &str,
    bytes: &[u8],
    words: &str,
) -> String {
    match place(name, CALLS_ON_OCTETS) {
        0 => any_of(rt, bytes),
        1 => encoded(rt, Int::new(rt.alloc(), bytes)),
        2 => encoded(rt, Uint::new(rt.alloc(), bytes)),
        3 => magnitude(rt, bytes),
        4 => behind_nine(rt, int(rt, bytes)),
        5 => order_of(rt, bytes),
        6 => length_of(rt, bytes),
        7 => inserted(rt, bytes),
        8 => encoded(rt, set_from(rt, bytes)),
        9 => are_equal(rt, bytes),
        10 => members_of(rt, bytes),
        11 => three_arcs(rt, bytes),
        12 => debug(rt, ObjectIdentifier::is_contents(bytes)),
        13 => debug(rt, Uint::is_contents(bytes)),
        14 => two_values(rt, bytes),
        15 => truth_read(rt, bytes),
        16 => truth_written(rt, bytes == [1u8].as_slice()),
        17 => number_again(rt, bytes),
        18 => second_of::<X, UtcTimeKind>(rt, bytes),
        19 => second_of::<X, GeneralizedTimeKind>(rt, bytes),
        _ => contents::answer(rt, name, bytes, words),
    }
}

fn refusal(number: usize) -> DerError {
    match number {
        1 => DerError::Truncated,
        2 => DerError::Length,
        3 => DerError::Tag,
        4 => DerError::Value,
        5 => DerError::Trailing,
        6 => DerError::SetDuplicate,
        7 => DerError::Oid,
        8 => DerError::TooLong,
        _ => DerError::NoMemory,
    }
}

fn numbered_error<X: AllocGlobal + Abort>(rt: &X, error: DerError) -> String {
    numbered(rt, error.number(), error)
}

// The number and the text of each refusal.
const REFUSALS: &str = "\
DerError 1 => 1 Truncated
DerError 2 => 2 Length
DerError 3 => 3 Tag
DerError 4 => 4 Value
DerError 5 => 5 Trailing
DerError 6 => 6 SetDuplicate
DerError 7 => 7 Oid
DerError 8 => 8 TooLong
DerError 9 => 9 NoMemory";

// Lengths at the boundaries of their forms, and the same lengths in longer forms.
const LENGTHS: &str = "\
OctetString 047f+127 => kept
OctetString 048180+128 => kept
OctetString 0481ff+255 => kept
OctetString 04820100+256 => kept
OctetString 0482ffff+65535 => kept
OctetString 0483010000+65536 => kept
OctetString::as_bytes 047f+127 => 127
OctetString::as_bytes 048180+128 => 128
OctetString::as_bytes 0481ff+255 => 255
OctetString::as_bytes 04820100+256 => 256
OctetString::as_bytes 0482ffff+65535 => 65535
OctetString::as_bytes 0483010000+65536 => 65536
OctetString 04817f+127 => Length
OctetString 04820080+128 => Length
OctetString 048200ff+255 => Length
OctetString 048300ffff+65535 => Length";

// Made values. The first octet of an Any is its tag, `encode_into` appends to an octet 9, and
// `der_cmp` compares two encodings that follow one another.
const MADE: &str = "\
Any::new a00102 => a0020102
Any::new 1f => Value
Int::new 0001 => Value
Uint::new 000080 => 02020080
Uint::as_bytes 000080 => 80
Uint::new  => Value
Int::encode_into 01 => 09020101
Int::der_cmp 02010102020100 => Less
Int::der_cmp 020102020101 => Greater
Int::der_cmp 020107020107 => Equal";

/// The encoding of the value of a tag with contents behind it.
fn any_of<X: AllocGlobal + Abort>(rt: &X, bytes: &[u8]) -> String {
    let (tag, contents) = tagged(rt, bytes);
    encoded(rt, Any::new(rt.alloc(), tag, contents))
}

fn int<X: AllocGlobal + Abort>(rt: &X, bytes: &[u8]) -> Int {
    good(rt, Int::new(rt.alloc(), bytes))
}

fn magnitude<X: AllocGlobal + Abort>(rt: &X, bytes: &[u8]) -> String {
    let number = good(rt, Uint::new(rt.alloc(), bytes));
    let answer = hex_of(rt, number.as_bytes());
    drop(number);
    answer
}

/// An octet 9, and the encoding of an INTEGER behind it.
fn behind_nine<X: AllocGlobal + Abort>(rt: &X, number: Int) -> String {
    let mut out = good(rt, OctetString::new(rt.alloc(), &[9]));
    good(rt, number.encode_into(rt.alloc(), &mut out));
    drop(number);
    let answer = hex_of(rt, out.as_bytes());
    drop(out);
    answer
}

/// How the encodings of two INTEGERs are ordered.
fn order_of<X: AllocGlobal + Abort>(rt: &X, bytes: &[u8]) -> String {
    let mut reader = Reader::new(bytes);
    let first = good(rt, read_value::<Int>(rt.alloc(), &mut reader));
    let second = good(rt, read_value::<Int>(rt.alloc(), &mut reader));
    let order = first.der_cmp(rt.alloc(), &second);
    drop(first);
    drop(second);
    shown(rt, order)
}

fn length_of<X: AllocGlobal + Abort>(rt: &X, bytes: &[u8]) -> String {
    let value = good(rt, OctetString::from_der(rt.alloc(), bytes));
    let length = value.as_bytes().len();
    drop(value);
    debug(rt, length)
}

// Texts of identifiers, and identifiers of three arcs: one octet, two octets and one.
const DOTTED: &str = "\
ObjectIdentifier::new 1.3.6.1.4.1.57264.1.8 => 060a2b0601040183bf300108
ObjectIdentifier::parent 1.3.6.1.4.1.57264.1.8 => 06092b0601040183bf3001
ObjectIdentifier::parent 1.3 => Oid
ObjectIdentifier::from_arcs 0203e703 => 0603883703
ObjectIdentifier::is_contents 2a03 => true
ObjectIdentifier::is_contents 8001 => false
Uint::is_contents 0080 => true
Uint::is_contents 80 => false
Uint::is_contents 007f => false
ObjectIdentifier::new 3.1 => Oid
ObjectIdentifier::new  => Oid
ObjectIdentifier::new 1 => Oid
ObjectIdentifier::new 1. => Oid
ObjectIdentifier::new 1..2 => Oid
ObjectIdentifier::new 1.40 => Oid
ObjectIdentifier::new 1.2.03 => Oid
ObjectIdentifier::new 1.2.4294967296 => Oid
ObjectIdentifier::new 1.2.+3 => Oid
ObjectIdentifier::new .1.2 => Oid
ObjectIdentifier::as_bytes 0.39.0 => 2700
ObjectIdentifier::arc 1.3.6.1.4.1.57264.1.8 => (9, Some(3), Some(57264), None)
ObjectIdentifier::arc 2.4294967295 => (2, Some(4294967295), None, None)";

fn identifier<X: Abort>(rt: &X, text: &str) -> ObjectIdentifier {
    good(rt, ObjectIdentifier::new(text))
}

/// The number of arcs, and those at 1, 6 and 9.
fn arcs_of<X: AllocGlobal + Abort>(rt: &X, identifier: &ObjectIdentifier) -> String {
    let (first, sixth, ninth) = (identifier.arc(1), identifier.arc(6), identifier.arc(9));
    debug(rt, (identifier.len(), first, sixth, ninth))
}

/// The identifier of three arcs: one octet, two octets and one.
fn three_arcs<X: AllocGlobal + Abort>(rt: &X, bytes: &[u8]) -> String {
    match bytes {
        [a, b, c, d] => of_arcs(rt, [*a as u32, 256 * *b as u32 + *c as u32, *d as u32]),
        _ => string(rt, "no arcs"),
    }
}

fn of_arcs<X: AllocGlobal + Abort>(rt: &X, arcs: [u32; 3]) -> String {
    encoded(rt, ObjectIdentifier::from_arcs(&arcs))
}

// Sets of INTEGERs of one octet each.
const MEMBERS: &str = "\
SetOfVec::insert 020102 => SetDuplicate
SetOfVec::try_from 020102 => SetDuplicate
SetOfVec::eq 020301030201 => true
SetOfVec::len 0201 => (2, true)";

fn insert<X: AllocGlobal + Abort>(
    rt: &X,
    set: &mut SetOfVec<Int>,
    octet: u8,
) -> Result<(), DerError> {
    set.insert(rt.alloc(), int(rt, &[octet]))
}

/// The set of INTEGERs of one octet each, put in one after the other.
fn set_with<X: AllocGlobal + Abort>(rt: &X, octets: &[u8]) -> SetOfVec<Int> {
    let mut set = SetOfVec::new(rt.alloc());
    for octet in octets {
        good(rt, insert(rt, &mut set, *octet));
    }
    set
}

/// What the insertion of the last INTEGER answers.
fn inserted<X: AllocGlobal + Abort>(rt: &X, octets: &[u8]) -> String {
    let (last, front) = there(rt, octets.split_last());
    let mut set = set_with(rt, front);
    let answer = insert(rt, &mut set, *last);
    drop(set);
    shown(rt, answer)
}

/// The set of INTEGERs of one octet each, all at once.
fn set_from<X: AllocGlobal + Abort>(rt: &X, octets: &[u8]) -> Result<SetOfVec<Int>, DerError> {
    let mut items = Vec::new(rt.alloc());
    for octet in octets {
        there(rt, items.push(int(rt, &[*octet])).ok());
    }
    SetOfVec::try_from(rt.alloc(), items)
}

/// Whether the first half of the octets, put in one after the other, makes the set of the second.
fn are_equal<X: AllocGlobal + Abort>(rt: &X, octets: &[u8]) -> String {
    let (first, second) = octets.split_at(octets.len() / 2);
    let (set, other) = (set_with(rt, first), good(rt, set_from(rt, second)));
    let are_equal = set == other;
    drop(set);
    drop(other);
    debug(rt, are_equal)
}

/// The number of members, and whether none stands at that index.
fn members_of<X: AllocGlobal + Abort>(rt: &X, octets: &[u8]) -> String {
    let set = set_with(rt, octets);
    let answer = (set.len(), set.get(set.len()).is_none());
    drop(set);
    debug(rt, answer)
}

// A reader gives the contents and the whole of the first value, the tag behind it, the whole of the
// second value, and no tag at the end. Values that are the defaults aren't written.
const READ: &str = "\
Reader 0401070500 => ([7], [4, 1, 7], Some(Tag(5)), [5, 0], None)
read_default 010100 => Value
read_default 0400 => false
read_default 0101ff => true
append_default 00 => []
append_default 01 => [1, 1, 255]
explicit_default a003020102 => kept
explicit_default  => kept
explicit_default a003020100 => Value";

fn two_values<X: AllocGlobal + Abort>(rt: &X, bytes: &[u8]) -> String {
    let mut reader = Reader::new(bytes);
    let first = good(rt, reader.read_tlv());
    let next = reader.peek_tag();
    let second = good(rt, reader.read_tlv());
    let last = reader.peek_tag();
    good(rt, reader.finish());
    debug(rt, (first.value, first.whole, next, second.whole, last))
}

/// A BOOLEAN DEFAULT FALSE as it is read.
fn truth_read<X: AllocGlobal + Abort>(rt: &X, bytes: &[u8]) -> String {
    let mut reader = Reader::new(bytes);
    shown(rt, read_default(rt.alloc(), false, &mut reader))
}

/// A BOOLEAN DEFAULT FALSE as it is written.
fn truth_written<X: AllocGlobal + Abort>(rt: &X, truth: bool) -> String {
    let mut out = OctetString::empty(rt.alloc());
    good(rt, append_default(rt.alloc(), &false, &truth, &mut out));
    debug(rt, out)
}

/// An INTEGER DEFAULT 0 under tag a0 as it is written.
fn number_written<X: AllocGlobal + Abort>(rt: &X, number: Int) -> OctetString {
    let zero = int(rt, &[0]);
    let mut out = OctetString::empty(rt.alloc());
    good(
        rt,
        append_explicit_default(rt.alloc(), Tag(0xa0), &zero, &number, &mut out),
    );
    drop(zero);
    drop(number);
    out
}

/// The INTEGER DEFAULT 0 under tag a0 at the front of octets, written again.
fn number_again<X: AllocGlobal + Abort>(rt: &X, bytes: &[u8]) -> String {
    let mut reader = Reader::new(bytes);
    match read_explicit_default(rt.alloc(), Tag(0xa0), int(rt, &[0]), &mut reader) {
        Ok(number) => compared(rt, bytes, number_written(rt, number)),
        Err(refusal) => debug(rt, refusal),
    }
}

// The seconds of times from the start of 1970 on, and whether the moment is the last one: the starts of
// 1970, of 2000 and of 1950, the last second of 29 February 2000, and that of 9999, which is past the
// last moment.
const MOMENTS: &str = "\
UtcTime::moment 170d3730303130313030303030305a => (0, false)
UtcTime::moment 170d3030303130313030303030305a => (946684800, false)
UtcTime::moment 170d3530303130313030303030305a => (-631152000, false)
GeneralizedTime::moment 180f32303030303232393233353935395a => (951868799, false)
GeneralizedTime::moment 180f39393939313233313233353935395a => (253402207200, true)";

/// The moment of a time in seconds from the start of 1970 on, and whether it is the last one.
fn second_of<X: AllocGlobal + Abort, K: TimeKind>(rt: &X, bytes: &[u8]) -> String {
    let moment = good(rt, Time::<K>::from_der(rt.alloc(), bytes)).moment();
    debug(rt, (moment.as_second(), moment == Timestamp::MAX))
}

// The times of moments in milliseconds. A fraction is dropped, before 1970 too. The first and the
// last second of a UTCTime, and those beside them.
const MILLISECONDS: &str = "\
GeneralizedTime::new 0 => 19700101000000Z
GeneralizedTime::new -500 => 19691231235959Z
UtcTime::new -631152001000 => Value
UtcTime::new -631152000000 => 500101000000Z
UtcTime::new 2524607999000 => 491231235959Z
UtcTime::new 2524608000000 => Value
GeneralizedTime::new MIN => Value";

/// The moment of milliseconds from the start of 1970 on, or the first one.
fn moment_of<X: Abort>(rt: &X, text: &str) -> Timestamp {
    if text == "MIN" {
        Timestamp::MIN
    } else {
        good(
            rt,
            Timestamp::from_millisecond(good(rt, text.parse::<i64>())),
        )
    }
}

/// The letters of a moment's time.
fn letters_of<X: AllocGlobal + Abort, K: TimeKind>(rt: &X, moment: Timestamp) -> String {
    match Time::<K>::new(moment) {
        Ok(time) => string(rt, good(rt, str::from_utf8(time.as_bytes()))),
        Err(refusal) => debug(rt, refusal),
    }
}

#[test]
fn calls(rt: HostRuntime) {
    check_tables(
        &rt,
        &[
            REFUSALS,
            LENGTHS,
            MADE,
            DOTTED,
            MEMBERS,
            READ,
            MOMENTS,
            MILLISECONDS,
        ],
    );
}
