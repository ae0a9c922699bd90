// INTEGER, BIT STRING, UTF8String and IA5String.
ghost use Rattle.std.specs.Prelude.{◌≡◌, ℕ, refl};
ghost use Rattle.der_core.specs.Strings.{is_int, is_bit_string, is_utf8_string, is_ia5_string};

use crate::primitive::{Primitive, PrimitiveKind};
use der_grammar::tag;

/// The kind of whole numbers.
#[derive(Drop)]
pub struct IntKind;

/// An INTEGER as its contents, the shortest two's complement (X.690, 8.3).
pub type Int = Primitive<IntKind>;

impl PrimitiveKind for IntKind {
    ghost number = { 2 };

    ghost test = { is_int };

    fn tag_byte() -> u8 {
        tag::INTEGER
    }

    fn allows(contents: &[u8]) -> bool {
        match contents {
            [] => false,
            [_] => true,
            [first, second, ..] => {
                !((*first == 0 && *second < 128) || (*first == 255 && *second >= 128))
            }
        }
    }

    ghost is_number = { refl };
}

/// The kind of strings of bits.
#[derive(Drop)]
pub struct BitStringKind;

/// A BIT STRING as its contents: the count of unused bits, then the bits (X.690, 8.6 and 11.2).
pub type BitString = Primitive<BitStringKind>;

impl PrimitiveKind for BitStringKind {
    ghost number = { 3 };

    ghost test = { is_bit_string };

    fn tag_byte() -> u8 {
        tag::BIT_STRING
    }

    fn allows(contents: &[u8]) -> bool {
        match contents {
            [] => false,
            [unused] => *unused == 0,
            [unused, .., last] => *unused < 8 && *last % (1 << *unused) == 0,
        }
    }

    ghost is_number = { refl };
}

/// The kind of strings of Unicode characters.
#[derive(Drop)]
pub struct Utf8Kind;

/// A UTF8String as its contents (X.690, 8.23.10).
pub type Utf8 = Primitive<Utf8Kind>;

impl PrimitiveKind for Utf8Kind {
    ghost number = { 12 };

    ghost test = { is_utf8_string };

    fn tag_byte() -> u8 {
        tag::UTF8
    }

    fn allows(contents: &[u8]) -> bool {
        str::from_utf8(contents).is_ok()
    }

    ghost is_number = { refl };
}

/// The kind of strings of ASCII characters.
#[derive(Drop)]
pub struct Ia5Kind;

/// An IA5String as its contents, octets below 128 (X.690, 8.23.5).
pub type Ia5 = Primitive<Ia5Kind>;

impl PrimitiveKind for Ia5Kind {
    ghost number = { 22 };

    ghost test = { is_ia5_string };

    fn tag_byte() -> u8 {
        tag::IA5
    }

    fn allows(contents: &[u8]) -> bool {
        contents.iter().all(|byte| *byte < 128)
    }

    ghost is_number = { refl };
}
