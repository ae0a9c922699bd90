// UTCTime and GeneralizedTime.
ghost use Rattle.std.specs.Prelude.{◌≡◌, ◌<◌, ℕ, List, Bool, true, bytes_eq, IfOk, IfErr, Ok, Err, is_ok, length, refl};
ghost use Rattle.std.specs.Cmp.{partial_equiv_from_equiv};
ghost use Rattle.std.specs.Cmp.Lexicographic.{nat_list_eq_equiv};
ghost use Rattle.der_grammar.specs.Choices.{is_tag};
ghost use Rattle.der_grammar.specs.Grammar.{primitive};
ghost use Rattle.der_grammar.specs.Laws.{primitive-lawful};
ghost use Rattle.der_grammar.specs.Outcome.{Outcome};
ghost use Rattle.der_grammar.specs.Types.{valid};
ghost use Rattle.der_core.specs.declared.civil.Civil.{Civil as CivilTime};
ghost use Rattle.der_core.specs.Times.{generalized_of, utc_of, reads, is_civil, nanos_of, nearest, IsWithinSecond};
ghost use Rattle.der_grammar.specs.declared.error.DerError.TheVariants.{Value as BadValue};
ghost use Rattle.der_core.specs.TimeLaws.{utc-real, generalized-real};

use crate::civil::{Civil, EPOCH, generalized_in, utc_in};
use crate::digits::{Contents, generalized_out, utc_out};
use crate::moment::{civil_of, moment_of};
use der_grammar::{Der, DerError, OctetString, Tag, tag};
use foundation::{Duplicate, NoMemory};
use jiff::Timestamp;
use std::alloc::Global;
use std::fmt;
use std::marker::{Model, PhantomData};

/// A type of times: its tag, and the civil time that contents name.
pub trait TimeKind {
    ghost number: { ℕ };

    ghost civil: { List ℕ → Outcome CivilTime };

    /// The tag.
    fn tag_byte() -> u8
        ensures { result ≡ number };

    /// The civil time of contents; Value where they are none.
    fn read(contents: &[u8]) -> Result<Civil, DerError>
        ensures exact { result ≡ civil contents.now }
        ensures short { IfOk result (λ c. length contents.now < 16) }
        ensures real { IfOk result (λ c. is_civil c ≡ true) };

    /// The contents that name a civil time; Value exactly where none do.
    fn write(time: &Civil) -> Result<Contents, DerError>
        requires { is_civil time.now ≡ true }
        ensures ok { IfOk result (λ out. civil out.items ≡ Ok time.now) }
        ensures err { IfErr result (λ e. (e ≡ BadValue) × ((bytes : List ℕ) → civil bytes ≡ Ok time.now → ⊥)) };

    ghost is_number: { is_tag number ≡ true };

    ghost real: { (bytes : List ℕ) (c : CivilTime) → civil bytes ≡ Ok c → is_civil c ≡ true };
}

/// The kind of times with two digits of the year.
#[derive(Drop)]
pub struct UtcTimeKind;

/// A UTCTime with seconds, of the years 1950 to 2049 (X.690, 11.8).
pub type UtcTime = Time<UtcTimeKind>;

impl TimeKind for UtcTimeKind {
    ghost number = { 23 };

    ghost civil = { utc_of };

    fn tag_byte() -> u8 {
        tag::UTC_TIME
    }

    fn read(contents: &[u8]) -> Result<Civil, DerError> {
        utc_in(contents)
    }

    fn write(time: &Civil) -> Result<Contents, DerError> {
        utc_out(time)
    }

    ghost is_number = { refl };

    ghost real = { utc-real };
}

/// The kind of times with four digits of the year.
#[derive(Drop)]
pub struct GeneralizedTimeKind;

/// A GeneralizedTime with seconds and no fraction (X.690, 11.7).
pub type GeneralizedTime = Time<GeneralizedTimeKind>;

impl TimeKind for GeneralizedTimeKind {
    ghost number = { 24 };

    ghost civil = { generalized_of };

    fn tag_byte() -> u8 {
        tag::GENERALIZED_TIME
    }

    fn read(contents: &[u8]) -> Result<Civil, DerError> {
        generalized_in(contents)
    }

    fn write(time: &Civil) -> Result<Contents, DerError> {
        Ok(generalized_out(time))
    }

    ghost is_number = { refl };

    ghost real = { generalized-real };
}

/// A civil time of UTC, kept as it was written; contracts see its contents.
#[derive(Drop)]
pub struct Time<K: TimeKind> {
    contents: Contents,
    kind: PhantomData<K>,
}

impl<K: TimeKind> Model for Time<K> {
    ghost use Rattle.std.specs.Prelude.{◌≡◌, ℕ, List, true};
    ghost use Rattle.der_core.specs.Times.{reads};

    ghost Value = { List ℕ };

    ghost view = { λ t. t.contents.items };

    ghost invariant = { λ t. reads K.civil t.contents.items ≡ true };
}

fn copy_of(contents: &[u8]) -> Contents
    requires { length contents.now < 16 }
    ensures { result.items ≡ contents.now }
{
    let mut copy = Contents::new();
    'octets: for octet in contents {
        copy.push(*octet);
    }
    copy
}

impl<K: TimeKind> Time<K> {
    /// The civil time of UTC in whose second a moment lies; Value exactly where its year is outside
    /// those of the type.
    pub fn new(moment: Timestamp) -> Result<Time<K>, DerError>
        ensures ok { IfOk result (λ t. (c : CivilTime) × (K.civil t ≡ Ok c) × IsWithinSecond moment.nanosecond c) }
        ensures err { IfErr result (λ e. (e ≡ BadValue)
            × ((bytes : List ℕ) (c : CivilTime) → K.civil bytes ≡ Ok c → IsWithinSecond moment.nanosecond c → ⊥)) }
    {
        match civil_of(moment) {
            None => Err(DerError::Value),
            Some(time) => match K::write(&time) {
                Ok(contents) => Ok(Time {
                    contents,
                    kind: PhantomData,
                }),
                Err(refusal) => Err(refusal),
            },
        }
    }

    /// The civil time.
    pub fn civil(&self) -> Civil
        ensures exact { K.civil self.now ≡ Ok result }
        ensures real { is_civil result ≡ true }
    {
        match K::read(self.contents.as_slice()) {
            Ok(civil) => civil,
            Err(_) => EPOCH,
        }
    }

    /// The moment of the civil time, or the nearest one in the range of `Timestamp`.
    pub fn moment(&self) -> Timestamp
        ensures { (c : CivilTime) → K.civil self.now ≡ Ok c → result.nanosecond ≡ nearest (nanos_of c) }
    {
        moment_of(&self.civil())
    }

    /// The contents.
    pub fn as_bytes(&self) -> &[u8]
        ensures { result.now ≡ self.now }
    {
        self.contents.as_slice()
    }
}

impl<K: TimeKind> Der for Time<K> {
    ghost grammar = { primitive K.number (reads K.civil) };

    fn accepts(tag: Tag) -> bool {
        tag.0 == K::tag_byte()
    }

    fn from_contents(_alloc: Global, _tag: Tag, contents: &[u8]) -> Result<Time<K>, DerError> {
        match K::read(contents) {
            Ok(_) => Ok(Time {
                contents: copy_of(contents),
                kind: PhantomData,
            }),
            Err(_) => Err(DerError::Value),
        }
    }

    fn tag(&self) -> Tag {
        Tag(K::tag_byte())
    }

    fn contents(&self, alloc: Global) -> Result<OctetString, DerError> {
        OctetString::new(alloc, self.contents.as_slice())
    }

    ghost lawful = { primitive-lawful K.number (reads K.civil) (valid K.number K.is_number) };
}

impl<K: TimeKind> Duplicate for Time<K> {
    fn duplicate(&self, _alloc: Global) -> Result<Time<K>, NoMemory> {
        Ok(Time {
            contents: copy_of(self.contents.as_slice()),
            kind: PhantomData,
        })
    }
}

impl<K: TimeKind> PartialEq for Time<K> {
    ghost eq = { bytes_eq };

    ghost laws = { partial_equiv_from_equiv nat_list_eq_equiv };

    fn eq(&self, other: &Time<K>) -> bool {
        self.as_bytes() == other.as_bytes()
    }
}

impl<K: TimeKind> fmt::Debug for Time<K> {
    fn fmt<W: fmt::Write>(&self, f: &mut fmt::Formatter<W>) -> fmt::Result {
        fmt::Debug::fmt(&self.as_bytes(), f)
    }
}
