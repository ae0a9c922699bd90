// INTEGER of numbers from 0 on.
ghost use Rattle.std.specs.Prelude.{◌≡◌, ◌≢◌, ◌++◌, ◌∷◌, [], true, bytes_eq, IfOk, IfErr, OnOk, Ok, Err};
ghost use Rattle.std.specs.Cmp.{partial_equiv_from_equiv};
ghost use Rattle.std.specs.Cmp.Lexicographic.{nat_list_eq_equiv};
ghost use Rattle.der_core.specs.Unsigned.{is_uint, without_zeros, with_sign, uint_of, uint_type};

use der_grammar::{Der, DerError, OctetString, Tag, tag};
use foundation::{Duplicate, NoMemory};
use std::alloc::Global;
use std::fmt;
use std::marker::Model;

/// An INTEGER from 0 on (X.690, 8.3); contracts see its contents.
#[derive(Drop)]
pub struct Uint {
    contents: OctetString,
}

impl Model for Uint {
    ghost use Rattle.std.specs.Prelude.{◌≡◌, ℕ, List, true};
    ghost use Rattle.der_core.specs.Unsigned.{is_uint};

    ghost Value = { List ℕ };

    ghost view = { λ u. u.contents };

    ghost invariant = { λ u. is_uint u.contents ≡ true };
}

/// The octets behind leading zeros, but one at least where there is one.
fn significant(bytes: &[u8]) -> &[u8]
    ensures { result.now ≡ without_zeros bytes.now }
{
    let mut digits = bytes;
    'zeros: while let [0, _, ..] = digits {
        let (_, rest) = digits.split_at(1);
        digits = rest;
    }
    digits
}

fn is_unsigned(contents: &[u8]) -> bool
    ensures { result ≡ is_uint contents.now }
{
    match contents {
        [] => false,
        [only] => *only < 128,
        [first, second, ..] => *first < 128 && !(*first == 0 && *second < 128),
    }
}

fn signed(alloc: Global, digits: &[u8]) -> Result<OctetString, NoMemory>
    ensures { IfOk result (λ contents. contents ≡ with_sign digits.now) }
{
    let mut contents = OctetString::empty(alloc);
    if let [first, ..] = digits {
        if *first >= 128 {
            contents.append(&[0])?;
        }
    }
    contents.append(digits)?;
    Ok(contents)
}

impl Uint {
    /// Whether octets are the contents of an INTEGER from 0 on; no memory is taken.
    pub fn is_contents(contents: &[u8]) -> bool
        ensures { result ≡ is_uint contents.now }
    {
        is_unsigned(contents)
    }

    /// The number of these octets, the most significant first, leading zeros dropped; Value exactly
    /// where there is none.
    pub fn new(alloc: Global, bytes: &[u8]) -> Result<Uint, DerError>
        ensures ok { IfOk result (λ u. uint_of bytes.now ≡ Ok u) }
        ensures err { IfErr result (λ e. e ≢ DerError.NoMemory → uint_of bytes.now ≡ Err e) }
    {
        if bytes.is_empty() {
            return Err(DerError::Value);
        }
        Ok(Uint {
            contents: signed(alloc, significant(bytes))?,
        })
    }

    /// The octets of the number without leading zeros, one for 0.
    pub fn as_bytes(&self) -> &[u8]
        ensures { result.now ≡ without_zeros self.now }
    {
        significant(self.contents.as_bytes())
    }
}

impl Der for Uint {
    ghost grammar = { uint_type.grammar };

    fn accepts(tag: Tag) -> bool {
        tag.0 == tag::INTEGER
    }

    fn from_contents(alloc: Global, _tag: Tag, contents: &[u8]) -> Result<Uint, DerError> {
        if !is_unsigned(contents) {
            return Err(DerError::Value);
        }
        Ok(Uint {
            contents: OctetString::new(alloc, contents)?,
        })
    }

    fn tag(&self) -> Tag {
        Tag(tag::INTEGER)
    }

    fn contents(&self, alloc: Global) -> Result<OctetString, DerError> {
        Ok(self.contents.duplicate(alloc)?)
    }

    ghost lawful = { uint_type.lawful };
}

impl Duplicate for Uint {
    fn duplicate(&self, alloc: Global) -> Result<Uint, NoMemory> {
        Ok(Uint {
            contents: self.contents.duplicate(alloc)?,
        })
    }
}

impl PartialEq for Uint {
    ghost eq = { bytes_eq };

    ghost laws = { partial_equiv_from_equiv nat_list_eq_equiv };

    fn eq(&self, other: &Uint) -> bool {
        self.contents == other.contents
    }
}

impl fmt::Debug for Uint {
    fn fmt<W: fmt::Write>(&self, f: &mut fmt::Formatter<W>) -> fmt::Result {
        fmt::Debug::fmt(&self.contents, f)
    }
}
