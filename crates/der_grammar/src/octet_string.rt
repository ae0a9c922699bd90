// A string of octets.
ghost use Rattle.std.specs.Prelude.{◌≡◌, ◌++◌, [], IfOk, IfErr, OnOk, OnErr, bytes_eq};
ghost use Rattle.std.specs.Cmp.{partial_equiv_from_equiv};
ghost use Rattle.std.specs.Cmp.Lexicographic.{nat_list_eq_equiv};
ghost use Rattle.der_grammar.specs.Octets.{octet_string_type};

use crate::der::Der;
use crate::error::DerError;
use crate::reader::Tag;
use crate::tag;
use foundation::{Duplicate, NoMemory};
use std::alloc::Global;
use std::fmt;
use std::marker::Model;

/// An OCTET STRING (X.690, 8.7), also what is written; contracts see its octets.
#[derive(Drop)]
pub struct OctetString {
    bytes: Vec<u8>,
}

impl Model for OctetString {
    ghost use Rattle.std.specs.Prelude.{ℕ, List};

    ghost Value = { List ℕ };

    ghost view = { λ s. s.bytes.items };
}

impl OctetString {
    /// A copy of octets; NoMemory is its only refusal.
    pub fn new(alloc: Global, bytes: &[u8]) -> Result<OctetString, DerError>
        ensures ok { IfOk result (λ s. s ≡ bytes.now) }
        ensures err { IfErr result (λ e. e ≡ DerError.NoMemory) }
    {
        Ok(OctetString {
            bytes: Vec::from_slice(alloc, bytes)?,
        })
    }

    /// No octets; takes no memory.
    pub fn empty(alloc: Global) -> OctetString
        ensures { result ≡ [] }
    {
        OctetString {
            bytes: Vec::new(alloc),
        }
    }

    /// The octets.
    pub fn as_bytes(&self) -> &[u8]
        ensures { result.now ≡ self.now }
    {
        self.bytes.as_slice()
    }

    /// Adds octets at the end; after want of memory the string is as before.
    pub fn append(&mut self, bytes: &[u8]) -> Result<(), NoMemory>
        ensures ok { OnOk result (self.new ≡ self.old ++ bytes.now) }
        ensures err { OnErr result (self.new ≡ self.old) }
    {
        self.bytes.extend_from_slice(bytes)?;
        Ok(())
    }
}

impl Duplicate for OctetString {
    fn duplicate(&self, alloc: Global) -> Result<OctetString, NoMemory> {
        Ok(OctetString {
            bytes: Vec::from_slice(alloc, &self.bytes)?,
        })
    }
}

impl PartialEq for OctetString {
    ghost eq = { bytes_eq };

    ghost laws = { partial_equiv_from_equiv nat_list_eq_equiv };

    fn eq(&self, other: &OctetString) -> bool {
        self.as_bytes() == other.as_bytes()
    }
}

impl Eq for OctetString {
    ghost laws = { nat_list_eq_equiv };
}

impl fmt::Debug for OctetString {
    fn fmt<W: fmt::Write>(&self, f: &mut fmt::Formatter<W>) -> fmt::Result {
        fmt::Debug::fmt(&self.as_bytes(), f)
    }
}

impl Der for OctetString {
    ghost grammar = { octet_string_type.grammar };

    fn accepts(tag: Tag) -> bool {
        tag.0 == tag::OCTET_STRING
    }

    fn from_contents(alloc: Global, _tag: Tag, contents: &[u8]) -> Result<OctetString, DerError> {
        OctetString::new(alloc, contents)
    }

    fn tag(&self) -> Tag {
        Tag(tag::OCTET_STRING)
    }

    fn contents(&self, alloc: Global) -> Result<OctetString, DerError> {
        Ok(self.duplicate(alloc)?)
    }

    ghost lawful = { octet_string_type.lawful };
}
