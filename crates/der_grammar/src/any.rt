// A value of any type.
ghost use Rattle.std.specs.Prelude.{◌≡◌, ◌≢◌, true, false, IfOk, IfErr};
ghost use Rattle.der_grammar.specs.declared.error.DerError.TheVariants.{Value as BadValue};
ghost use Rattle.der_grammar.specs.Choices.{is_tag};
ghost use Rattle.der_grammar.specs.Types.{any_type};
ghost use Rattle.std.specs.Prelude.{nat_eq, bytes_eq};
ghost use Rattle.std.specs.Ordering.{on, eq_of_both};
ghost use Rattle.std.specs.Cmp.Rules.{comparing};
ghost use Rattle.std.proofs.Common.{rules};

use crate::der::Der;
use crate::error::DerError;
use crate::octet_string::OctetString;
use crate::reader::Tag;
use foundation::{Duplicate, NoMemory};
use std::alloc::Global;
use std::marker::Model;

/// A value of any type: a tag of one byte with its contents, kept as encoded.
#[derive(Debug, Drop)]
pub struct Any {
    tag: Tag,
    bytes: OctetString,
}

impl Model for Any {
    ghost use Rattle.std.specs.Prelude.{◌≡◌, ℕ, List, true};
    ghost use Rattle.der_grammar.specs.Choices.{is_tag};

    ghost Value = { ℕ × List ℕ };

    ghost view = { λ a. (a.tag.0, a.bytes) };

    ghost invariant = { λ a. is_tag a.tag.0 ≡ true };
}

fn is_one_byte(tag: Tag) -> bool
    ensures { result ≡ is_tag tag.0 }
{
    tag.0 % 32 != 31
}

impl Any {
    /// A tag with contents; Value exactly where the tag marks one of several bytes (X.690, 8.1.2.4).
    pub fn new(alloc: Global, tag: Tag, bytes: &[u8]) -> Result<Any, DerError>
        ensures ok { IfOk result (λ a. (is_tag tag.0 ≡ true) × (a ≡ (tag.0, bytes.now))) }
        ensures err { IfErr result (λ e. e ≢ DerError.NoMemory → (is_tag tag.0 ≡ false) × (e ≡ BadValue)) }
    {
        if !is_one_byte(tag) {
            return Err(DerError::Value);
        }
        Ok(Any {
            tag,
            bytes: OctetString::new(alloc, bytes)?,
        })
    }

    /// The tag.
    pub fn tag_byte(&self) -> Tag
        ensures { result.0 ≡ self.now.0 }
    {
        self.tag
    }

    /// The contents.
    pub fn as_bytes(&self) -> &[u8]
        ensures { result.now ≡ self.now.1 }
    {
        self.bytes.as_bytes()
    }
}

impl Der for Any {
    ghost grammar = { any_type.grammar };

    fn accepts(tag: Tag) -> bool {
        is_one_byte(tag)
    }

    fn from_contents(alloc: Global, tag: Tag, contents: &[u8]) -> Result<Any, DerError> {
        Ok(Any {
            tag,
            bytes: OctetString::new(alloc, contents)?,
        })
    }

    fn tag(&self) -> Tag {
        self.tag
    }

    fn contents(&self, alloc: Global) -> Result<OctetString, DerError> {
        Ok(self.bytes.duplicate(alloc)?)
    }

    ghost lawful = { any_type.lawful };
}

impl Duplicate for Any {
    fn duplicate(&self, alloc: Global) -> Result<Any, NoMemory> {
        Ok(Any {
            tag: self.tag,
            bytes: self.bytes.duplicate(alloc)?,
        })
    }
}

impl PartialEq for Any {
    ghost eq = { eq_of_both (on (λ a. a.0) nat_eq) (on (λ a. a.1) bytes_eq) };

    ghost laws = { Prim.search (comparing, rules) };

    fn eq(&self, other: &Any) -> bool {
        self.tag == other.tag && self.bytes == other.bytes
    }
}
