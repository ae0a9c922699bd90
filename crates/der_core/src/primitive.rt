// Primitive types whose values are their contents.
ghost use Rattle.std.specs.Prelude.{◌≡◌, ◌≢◌, ℕ, List, Bool, true, false, bytes_eq, IfOk, IfErr, Ok, Err};
ghost use Rattle.std.specs.Cmp.{partial_equiv_from_equiv};
ghost use Rattle.std.specs.Cmp.Lexicographic.{nat_list_eq_equiv};
ghost use Rattle.der_grammar.specs.Choices.{is_tag};
ghost use Rattle.der_grammar.specs.Grammar.{primitive};
ghost use Rattle.der_grammar.specs.Laws.{primitive-lawful};
ghost use Rattle.der_grammar.specs.Types.{valid};

use der_grammar::{Der, DerError, OctetString, Tag};
use foundation::{Duplicate, NoMemory};
use std::alloc::Global;
use std::fmt;
use std::marker::{Model, PhantomData};

/// A primitive type: its tag, and which contents are in its grammar.
pub trait PrimitiveKind {
    ghost number: { ℕ };

    ghost test: { List ℕ → Bool };

    /// The tag.
    fn tag_byte() -> u8
        ensures { result ≡ number };

    /// Whether contents are in the grammar.
    fn allows(contents: &[u8]) -> bool
        ensures { result ≡ test contents.now };

    /// The same, over memory where a kind has use for it; want of memory is the only refusal.
    fn allows_in(_alloc: Global, contents: &[u8]) -> Result<bool, NoMemory>
        ensures { IfOk result (λ b. b ≡ test contents.now) }
    {
        Ok(Self::allows(contents))
    }

    ghost is_number: { is_tag number ≡ true };
}

/// A value of a primitive type; contracts see its contents.
#[derive(Drop)]
pub struct Primitive<K: PrimitiveKind> {
    contents: OctetString,
    kind: PhantomData<K>,
}

impl<K: PrimitiveKind> Model for Primitive<K> {
    ghost use Rattle.std.specs.Prelude.{◌≡◌, ℕ, List, true};

    ghost Value = { List ℕ };

    ghost view = { λ p. p.contents };

    ghost invariant = { λ p. K.test p.contents ≡ true };
}

impl<K: PrimitiveKind> Primitive<K> {
    /// The value with these contents; Value exactly where they are outside the grammar.
    pub fn new(alloc: Global, bytes: &[u8]) -> Result<Primitive<K>, DerError>
        ensures ok { IfOk result (λ p. (primitive K.number K.test).value K.number bytes.now ≡ Ok p) }
        ensures err { IfErr result (λ e. e ≢ DerError.NoMemory → (primitive K.number K.test).value K.number bytes.now ≡ Err e) }
    {
        if !K::allows_in(alloc, bytes)? {
            return Err(DerError::Value);
        }
        Ok(Primitive {
            contents: OctetString::new(alloc, bytes)?,
            kind: PhantomData,
        })
    }

    /// The contents.
    pub fn as_bytes(&self) -> &[u8]
        ensures { result.now ≡ self.now }
    {
        self.contents.as_bytes()
    }
}

impl<K: PrimitiveKind> Der for Primitive<K> {
    ghost grammar = { primitive K.number K.test };

    fn accepts(tag: Tag) -> bool {
        tag.0 == K::tag_byte()
    }

    fn from_contents(alloc: Global, _tag: Tag, contents: &[u8]) -> Result<Primitive<K>, DerError> {
        match Primitive::new(alloc, contents) {
            Ok(value) => Ok(value),
            Err(refusal) => Err(refusal),
        }
    }

    fn tag(&self) -> Tag {
        Tag(K::tag_byte())
    }

    fn contents(&self, alloc: Global) -> Result<OctetString, DerError> {
        Ok(self.contents.duplicate(alloc)?)
    }

    ghost lawful = { primitive-lawful K.number K.test (valid K.number K.is_number) };
}

impl<K: PrimitiveKind> Duplicate for Primitive<K> {
    fn duplicate(&self, alloc: Global) -> Result<Primitive<K>, NoMemory> {
        Ok(Primitive {
            contents: self.contents.duplicate(alloc)?,
            kind: PhantomData,
        })
    }
}

impl<K: PrimitiveKind> PartialEq for Primitive<K> {
    ghost eq = { bytes_eq };

    ghost laws = { partial_equiv_from_equiv nat_list_eq_equiv };

    fn eq(&self, other: &Primitive<K>) -> bool {
        self.contents == other.contents
    }
}

impl<K: PrimitiveKind> fmt::Debug for Primitive<K> {
    fn fmt<W: fmt::Write>(&self, f: &mut fmt::Formatter<W>) -> fmt::Result {
        fmt::Debug::fmt(&self.as_bytes(), f)
    }
}
