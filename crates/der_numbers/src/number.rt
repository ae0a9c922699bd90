// INTEGER from 0 up to a greatest number.
ghost use Rattle.std.specs.Prelude.{◌≡◌, ◌≢◌, ◌<◌, ◌≤◌, ℕ, [], IfOk, IfErr, Ok, Err, nat_eq, refl};
ghost use Rattle.std.specs.Cmp.Rules.{comparing};
ghost use Rattle.std.proofs.Common.{rules};
ghost use Rattle.der_grammar.specs.declared.error.DerError.TheVariants.{Value as BadValue};
ghost use Rattle.der_numbers.specs.Numbers.{number_from, octets_before, contents_of, number_of, number_type};

use der_core::{Der, DerError, OctetString, Tag, Uint, tag};
use foundation::{Duplicate, NoMemory};
use std::alloc::Global;
use std::marker::{Model, PhantomData};

/// A range of numbers from 0 on.
pub trait NumberKind {
    ghost most: { ℕ };

    /// The greatest number.
    fn greatest() -> u64
        ensures { result ≡ most };
}

/// The numbers 0 to 255.
#[derive(Drop)]
pub struct OctetKind;

impl NumberKind for OctetKind {
    ghost most = { 255 };

    fn greatest() -> u64 {
        255
    }
}

/// The numbers below 2^16.
#[derive(Drop)]
pub struct U16Kind;

impl NumberKind for U16Kind {
    ghost most = { 65535 };

    fn greatest() -> u64 {
        65535
    }
}

/// The numbers below 2^64.
#[derive(Drop)]
pub struct U64Kind;

impl NumberKind for U64Kind {
    ghost most = { 18446744073709551615 };

    fn greatest() -> u64 {
        18446744073709551615
    }
}

/// An INTEGER of a range (X.690, 8.3); contracts see its number.
#[derive(Drop)]
pub struct Number<K: NumberKind> {
    number: u64,
    kind: PhantomData<K>,
}

impl<K: NumberKind> Model for Number<K> {
    ghost use Rattle.std.specs.Prelude.{ℕ, ◌≤◌};

    ghost Value = { ℕ };

    ghost view = { λ n. n.number };

    ghost invariant = { λ n. n.number ≤ K.most };
}

/// The number that octets write; Value where it is 2^64 or more.
fn number_in(octets: &[u8]) -> Result<u64, DerError>
    ensures ok { IfOk result (λ n. number_from 0 octets.now ≡ n) }
    ensures err { IfErr result (λ e. (e ≡ BadValue) × (18446744073709551615 < number_from 0 octets.now)) }
{
    let mut number: u64 = 0;
    'octets: for octet in octets {
        if number >= 72057594037927936 {
            return Err(DerError::Value);
        }
        number = 256 * number + *octet as u64;
    }
    Ok(number)
}

/// The eight octets of a number.
fn octets_of(number: u64) -> [u8; 8]
    ensures { result ≡ octets_before 7 number [] }
{
    let seventh = number / 256;
    let sixth = seventh / 256;
    let fifth = sixth / 256;
    let fourth = fifth / 256;
    let third = fourth / 256;
    let second = third / 256;
    let first = second / 256;
    [
        first as u8,
        (second % 256) as u8,
        (third % 256) as u8,
        (fourth % 256) as u8,
        (fifth % 256) as u8,
        (sixth % 256) as u8,
        (seventh % 256) as u8,
        (number % 256) as u8,
    ]
}

/// The shortest contents of a number.
#[tactic(auto, unfolding(crate::specs::Numbers::contents_of))]
fn contents_of(alloc: Global, number: u64) -> Result<OctetString, DerError>
    ensures ok { IfOk result (λ c. c ≡ contents_of number) }
    ensures err { IfErr result (λ e. e ≡ DerError.NoMemory) }
{
    let octets = octets_of(number);
    match Uint::new(alloc, &octets) {
        Ok(uint) => match uint.contents(alloc) {
            Ok(contents) => Ok(contents),
            Err(_) => Err(DerError::NoMemory),
        },
        Err(_) => Err(DerError::NoMemory),
    }
}

/// The number whose shortest contents these are; Value where there is none up to the greatest.
#[tactic(auto, unfolding(crate::specs::Numbers::number_of))]
fn number_of(alloc: Global, greatest: u64, contents: &[u8]) -> Result<u64, DerError>
    ensures ok { IfOk result (λ n. number_of greatest contents.now ≡ Ok n) }
    ensures err { IfErr result (λ e. e ≢ DerError.NoMemory → number_of greatest contents.now ≡ Err e) }
    ensures within { IfOk result (λ n. n ≤ greatest) }
{
    let number = number_in(contents)?;
    if number > greatest {
        return Err(DerError::Value);
    }
    let shortest = contents_of(alloc, number)?;
    if shortest.as_bytes() != contents {
        return Err(DerError::Value);
    }
    Ok(number)
}

impl<K: NumberKind> Number<K> {
    /// This number; Value exactly where it is above the greatest.
    pub fn new(number: u64) -> Result<Number<K>, DerError>
        ensures ok { IfOk result (λ n. n ≡ number) }
        ensures err { IfErr result (λ e. (e ≡ BadValue) × (K.most < number)) }
    {
        if number > K::greatest() {
            return Err(DerError::Value);
        }
        Ok(Number {
            number,
            kind: PhantomData,
        })
    }

    /// The number.
    pub fn get(&self) -> u64
        ensures { result ≡ self.now }
    {
        self.number
    }
}

impl<K: NumberKind> Der for Number<K> {
    ghost grammar = { (number_type K.most).grammar };

    fn accepts(tag: Tag) -> bool {
        tag.0 == tag::INTEGER
    }

    fn from_contents(alloc: Global, _tag: Tag, contents: &[u8]) -> Result<Number<K>, DerError> {
        let number = number_of(alloc, K::greatest(), contents)?;
        Ok(Number {
            number,
            kind: PhantomData,
        })
    }

    fn tag(&self) -> Tag {
        Tag(tag::INTEGER)
    }

    fn contents(&self, alloc: Global) -> Result<OctetString, DerError> {
        contents_of(alloc, self.number)
    }

    ghost lawful = { (number_type K.most).lawful };
}

impl<K: NumberKind> Duplicate for Number<K> {
    fn duplicate(&self, _alloc: Global) -> Result<Number<K>, NoMemory> {
        Ok(Number {
            number: self.number,
            kind: PhantomData,
        })
    }
}

impl<K: NumberKind> PartialEq for Number<K> {
    ghost eq = { nat_eq };

    ghost laws = { Prim.search (comparing, rules) };

    fn eq(&self, other: &Number<K>) -> bool {
        self.number == other.number
    }
}
