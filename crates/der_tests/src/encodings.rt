// Encodings worked out from X.690 and RFC 5280 by hand, and those of certificates: read, copied and
// written again with ample memory. A row answers `kept` where the same octets are written.
use crate::leaves;
use crate::tables::{check_tables, compared, debug, good, holds, place};
use der_core::*;
use der_numbers::{Number, OctetKind, U16Kind, U64Kind};
use foundation::{Duplicate, Sequence};
use std::process::Abort;
use x509_core::{
    AlgorithmIdentifierOwned, Attributes, Certificate, CertificateList, Extension, GeneralName,
    Name, SerialNumber, SubjectKeyIdentifier,
};

/// The encoding of a copy that equals the value.
fn copied<X: AllocGlobal + Abort, T: Der + Duplicate + PartialEq>(rt: &X, value: T) -> OctetString {
    let copy = good(rt, value.duplicate(rt.alloc()));
    holds(rt, copy == value);
    good(rt, copy.to_der(rt.alloc()))
}

/// `kept` where the value that octets are is written again to these, else what is written, or the refusal.
pub fn again<X: AllocGlobal + Abort, T: Der + Duplicate + PartialEq>(
    rt: &X,
    bytes: &[u8],
) -> String {
    match T::from_der(rt.alloc(), bytes) {
        Ok(value) => compared(rt, bytes, copied(rt, value)),
        Err(refusal) => debug(rt, refusal),
    }
}

const TYPES: &str = "\
Any Int Uint BitString OctetString Utf8 Ia5 bool Octet U16 U64 ObjectIdentifier SetOfVec Sequence \
UtcTime GeneralizedTime Time AlgorithmIdentifierOwned Attributes Extension GeneralName Name \
SubjectKeyIdentifier SerialNumber CertificateList Certificate";

/// What a type answers to octets; for any other name the answer of a call of der_core.
pub fn answer<X: AllocGlobal + Abort>(rt: &X, name: &str, bytes: &[u8], words: &str) -> String {
    match place(name, TYPES) {
        0 => again::<X, Any>(rt, bytes),
        1 => again::<X, Int>(rt, bytes),
        2 => again::<X, Uint>(rt, bytes),
        3 => again::<X, BitString>(rt, bytes),
        4 => again::<X, OctetString>(rt, bytes),
        5 => again::<X, Utf8>(rt, bytes),
        6 => again::<X, Ia5>(rt, bytes),
        7 => again::<X, bool>(rt, bytes),
        8 => again::<X, Number<OctetKind>>(rt, bytes),
        9 => again::<X, Number<U16Kind>>(rt, bytes),
        10 => again::<X, Number<U64Kind>>(rt, bytes),
        11 => again::<X, ObjectIdentifier>(rt, bytes),
        12 => again::<X, SetOfVec<Int>>(rt, bytes),
        13 => again::<X, Sequence<Int>>(rt, bytes),
        14 => again::<X, UtcTime>(rt, bytes),
        15 => again::<X, GeneralizedTime>(rt, bytes),
        16 => again::<X, x509_core::Time>(rt, bytes),
        17 => again::<X, AlgorithmIdentifierOwned>(rt, bytes),
        18 => again::<X, Attributes>(rt, bytes),
        19 => again::<X, Extension>(rt, bytes),
        20 => again::<X, GeneralName>(rt, bytes),
        21 => again::<X, Name>(rt, bytes),
        22 => again::<X, SubjectKeyIdentifier>(rt, bytes),
        23 => again::<X, SerialNumber>(rt, bytes),
        24 => again::<X, CertificateList>(rt, bytes),
        25 => again::<X, Certificate>(rt, bytes),
        _ => leaves::answer_to_octets(rt, name, bytes, words),
    }
}

// Tags and lengths.
const TAGS: &str = "\
Any  => Truncated
Any 04 => Truncated
Any 0481 => Truncated
Any 048501 => Truncated
Any 04840fffffff => Truncated
Any 0201 => Truncated
Any 1f0100 => Tag
Any 04800000 => Length
Any 04817f => Length
Any 048200ff => Length
Any 04850100000000 => Length
Any 04850000000001 => Length
Any 048410000000 => TooLong
Any 050000 => Trailing
Int 040100 => Tag
Any be0100 => kept
Any 0500 => kept
Any a003020101 => kept
Any a0020102 => kept";

// Whole numbers.
const NUMBERS: &str = "\
Int 020100 => kept
Int 02017f => kept
Int 02020080 => kept
Int 020180 => kept
Int 0202ff7f => kept
Int 0201ff => kept
Int 0200 => Value
Int 02020001 => Value
Int 0202007f => Value
Int 0202ff80 => Value
Int 0202ffff => Value
Uint 020100 => kept
Uint 02020080 => kept
Uint 0200 => Value
Uint 020180 => Value
Uint 0202007f => Value";

// Strings of bits, with each number of unused bits.
const BITS: &str = "\
BitString 0307040a3b5f291cd0 => kept
BitString 030100 => kept
BitString 030200ff => kept
BitString 030201fe => kept
BitString 030202fc => kept
BitString 030203f8 => kept
BitString 030204f0 => kept
BitString 030205e0 => kept
BitString 030206c0 => kept
BitString 03020780 => kept
BitString 0300 => Value
BitString 030101 => Value
BitString 03020800 => Value
BitString 03020101 => Value
BitString 03020202 => Value
BitString 03020304 => Value
BitString 03020408 => Value
BitString 03020510 => Value
BitString 03020620 => Value
BitString 03020740 => Value
BitString 230100 => Tag";

// Texts and truth values.
const TEXTS: &str = "\
Utf8 0c02c3a9 => kept
Utf8 0c00 => kept
Utf8 0c01c3 => Value
Utf8 0c02c080 => Value
Ia5 16054a6f6e6573 => kept
Ia5 160180 => Value
bool 0101ff => kept
bool 010100 => kept
bool 010101 => Value
bool 0100 => Value";

// Identifiers, among them arcs of 127, 128 and 2^32 - 1, and an identifier of 39 octets.
const IDENTIFIERS: &str = "\
ObjectIdentifier 060a2b0601040183bf300108 => kept
ObjectIdentifier 0603883703 => kept
ObjectIdentifier 0603813403 => kept
ObjectIdentifier 06022b7f => kept
ObjectIdentifier 06032b8100 => kept
ObjectIdentifier 06062b8fffffff7f => kept
ObjectIdentifier 06272b0101010101010101010101010101010101010101010101010101010101010101010101010101 => kept
ObjectIdentifier 0600 => Value
ObjectIdentifier 06032b8001 => Value
ObjectIdentifier 06032b807f => Value
ObjectIdentifier 06022b81 => Value
ObjectIdentifier 06062b9080808000 => Value
ObjectIdentifier 06282b010101010101010101010101010101010101010101010101010101010101010101010101010101 => Value";

// Numbers of a range.
const RANGES: &str = "\
Octet 020100 => kept
Octet 02017f => kept
Octet 020200ff => kept
Octet 020180 => Value
Octet 02020100 => Value
Octet 02020001 => Value
Octet 0200 => Value
U16 020300ffff => kept
U16 0203010000 => Value
U64 020900ffffffffffffffff => kept
U64 0209010000000000000000 => Value
U64 020a0000ffffffffffffffff => Value
U64 040100 => Tag";

// Sets and lists.
const SETS: &str = "\
SetOfVec 3106020101020102 => kept
SetOfVec 3100 => kept
SetOfVec 3103020103 => kept
SetOfVec 3106020102020101 => 3106020101020102
SetOfVec 3106020101020101 => SetDuplicate
Sequence 3006020102020101 => kept
Sequence 3000 => kept
Sequence 30020400 => Tag";

// The starts of 1970, of 2000 and of 1950, the last second of 1969; then what is refused: 29 February
// 1900, a fraction, a leap second, hour 24, a letter.
const TIMES: &str = "\
UtcTime 170d3730303130313030303030305a => kept
UtcTime 170d3030303130313030303030305a => kept
UtcTime 170d3530303130313030303030305a => kept
GeneralizedTime 180f31393639313233313233353935395a => kept
GeneralizedTime 180f31393030303232393030303030305a => Value
GeneralizedTime 181132303030303232393233353935392e355a => Value
GeneralizedTime 180f32303136313233313233353936305a => Value
GeneralizedTime 180f32303136313233313234303030305a => Value
GeneralizedTime 180f32303136313233313233353935615a => Value";

// Parts of certificates, and whole ones.
const OWNED: &str = "\
AlgorithmIdentifierOwned 300d06092a864886f70d01010b0500 => kept
AlgorithmIdentifierOwned 300506032b6570 => kept
AlgorithmIdentifierOwned 300706032b65700500ff => Trailing
AlgorithmIdentifierOwned 300906032b657005000500 => Trailing
Attributes 310c300a06032b65703103020101 => kept
Attributes 3100 => kept
Attributes 310f300d06032b65703106020101020101 => SetDuplicate
Extension 300e0603551d0f0101ff040403020780 => kept
Extension 300b0603551d0f040403020780 => kept
Extension 300e0603551d0f010100040403020780 => Value
GeneralName 8103614062 => kept
GeneralName 8603613a62 => kept
GeneralName a000 => kept
GeneralName 8704c0000201 => kept
GeneralName 8101ff => Value
GeneralName a100 => Tag
Time 170d3236313132373036333835395a => kept
Time 180f32303236313132373036333835395a => kept
Time 170d3236313332373036333835395a => Value
Time 160100 => Tag
Name 3000 => kept
Name 3002ffff => kept
SubjectKeyIdentifier 0400 => kept
SerialNumber 0215008000000000000000000000000000000000000001 => kept
SerialNumber 021600800000000000000000000000000000000000000001 => Value
SerialNumber 0200 => Value
CertificateList 3006300005000500 => kept
CertificateList 300430000500 => Value
CertificateList 3008300005000500 => Truncated
CertificateList 3008300005000500ff00 => Value
Certificate p256 => kept
Certificate ed25519 => kept
Certificate 3000 => Value";

#[test]
fn encodings(rt: HostRuntime) {
    check_tables(
        &rt,
        &[
            TAGS,
            NUMBERS,
            RANGES,
            BITS,
            TEXTS,
            IDENTIFIERS,
            SETS,
            TIMES,
            OWNED,
        ],
    );
}
