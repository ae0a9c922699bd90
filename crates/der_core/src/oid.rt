// Object identifiers.
ghost use Rattle.std.specs.Prelude.{◌≡◌, ◌<◌, bytes_eq, length, IfOk, IfErr, Ok, Err, slice_get};
ghost use Rattle.std.specs.Bool.{OnTrue};
ghost use Rattle.std.specs.Cmp.{partial_equiv_from_equiv};
ghost use Rattle.std.specs.Cmp.Lexicographic.{nat_list_eq_equiv};
ghost use Rattle.der_core.specs.Oid.{oid_type, is_oid, arcs_of, arcs, oid_of, oid_of_text, without_last, if_ok};

use crate::arcs::{Arcs, Contents, arcs_in, contents_of};
use crate::dotted::arcs_of_text;
use der_grammar::{Der, DerError, OctetString, Tag, tag};
use foundation::{Duplicate, NoMemory};
use std::alloc::Global;
use std::fmt;
use std::marker::Model;

/// An OBJECT IDENTIFIER of at most 39 octets and with arcs below 2^32 (X.690, 8.19); contracts see
/// its contents.
#[derive(Drop)]
pub struct ObjectIdentifier {
    contents: Contents,
}

impl Model for ObjectIdentifier {
    ghost use Rattle.std.specs.Prelude.{◌≡◌, ℕ, List, true};
    ghost use Rattle.der_core.specs.Oid.{is_oid};

    ghost Value = { List ℕ };

    ghost view = { λ o. o.contents.items };

    ghost invariant = { λ o. is_oid o.contents.items ≡ true };
}

fn copy_of(contents: &[u8]) -> Contents
    requires { length contents.now < 40 }
    ensures { result.items ≡ contents.now }
{
    let mut copy = Contents::new();
    'octets: for octet in contents {
        copy.push(*octet);
    }
    copy
}

/// All arcs but the last.
fn front(arcs: &[u32]) -> &[u32]
    ensures { result.now ≡ without_last arcs.now }
{
    let (front, _) = arcs.split_at(arcs.len().saturating_sub(1));
    front
}

impl ObjectIdentifier {
    /// Whether octets are the contents of an identifier; no memory is taken.
    #[tactic(auto, unfolding(crate::specs::Oid::is_oid))]
    pub fn is_contents(octets: &[u8]) -> bool
        ensures exact { result ≡ is_oid octets.now }
        ensures short { OnTrue result (length octets.now < 40) }
    {
        octets.len() < 40 && arcs_in(octets).is_ok()
    }

    /// The identifier of a text of two or more shortest decimals joined by dots; Oid exactly where
    /// it is none.
    #[tactic(auto, unfolding(crate::specs::Oid::oid_of_text))]
    pub fn new(text: &str) -> Result<ObjectIdentifier, DerError>
        ensures ok { IfOk result (λ o. oid_of_text text.now ≡ Ok o) }
        ensures err { IfErr result (λ e. oid_of_text text.now ≡ Err e) }
    {
        let arcs = arcs_of_text(text.as_bytes())?;
        ObjectIdentifier::from_arcs(arcs.as_slice())
    }

    /// The identifier with these arcs; Oid exactly where there is none of at most 39 octets.
    pub fn from_arcs(arcs: &[u32]) -> Result<ObjectIdentifier, DerError>
        ensures ok { IfOk result (λ o. oid_of arcs.now ≡ Ok o) }
        ensures err { IfErr result (λ e. oid_of arcs.now ≡ Err e) }
        // Its arcs are these.
        ensures same { IfOk result (λ o. arcs_of o ≡ Ok arcs.now) }
    {
        Ok(ObjectIdentifier {
            contents: contents_of(arcs)?,
        })
    }

    fn all_arcs(&self) -> Arcs
        ensures { result.items ≡ arcs self.now }
    {
        match arcs_in(self.contents.as_slice()) {
            Ok(arcs) => arcs,
            Err(_) => Arcs::new(),
        }
    }

    /// The arc at an index; None exactly from the number of arcs on.
    pub fn arc(&self, index: usize) -> Option<u32>
        ensures { result ≡ slice_get (arcs self.now) index }
    {
        self.all_arcs().as_slice().get(index).copied()
    }

    /// The number of arcs.
    pub fn len(&self) -> usize
        ensures { result ≡ length (arcs self.now) }
    {
        self.all_arcs().as_slice().len()
    }

    /// The identifier with one arc less; None exactly where there is none.
    pub fn parent(&self) -> Option<ObjectIdentifier>
        ensures { result ≡ if_ok (oid_of (without_last (arcs self.now))) }
    {
        let arcs = self.all_arcs();
        match ObjectIdentifier::from_arcs(front(arcs.as_slice())) {
            Ok(parent) => Some(parent),
            Err(_) => None,
        }
    }

    /// The contents.
    pub fn as_bytes(&self) -> &[u8]
        ensures { result.now ≡ self.now }
    {
        self.contents.as_slice()
    }
}

impl Der for ObjectIdentifier {
    ghost grammar = { oid_type.grammar };

    fn accepts(tag: Tag) -> bool {
        tag.0 == tag::OID
    }

    fn from_contents(
        _alloc: Global,
        _tag: Tag,
        contents: &[u8],
    ) -> Result<ObjectIdentifier, DerError> {
        if !ObjectIdentifier::is_contents(contents) {
            return Err(DerError::Value);
        }
        Ok(ObjectIdentifier {
            contents: copy_of(contents),
        })
    }

    fn tag(&self) -> Tag {
        Tag(tag::OID)
    }

    fn contents(&self, alloc: Global) -> Result<OctetString, DerError> {
        OctetString::new(alloc, self.contents.as_slice())
    }

    ghost lawful = { oid_type.lawful };
}

impl Duplicate for ObjectIdentifier {
    fn duplicate(&self, _alloc: Global) -> Result<ObjectIdentifier, NoMemory> {
        Ok(ObjectIdentifier {
            contents: copy_of(self.contents.as_slice()),
        })
    }
}

impl PartialEq for ObjectIdentifier {
    ghost eq = { bytes_eq };

    ghost laws = { partial_equiv_from_equiv nat_list_eq_equiv };

    fn eq(&self, other: &ObjectIdentifier) -> bool {
        self.as_bytes() == other.as_bytes()
    }
}

impl fmt::Debug for ObjectIdentifier {
    fn fmt<W: fmt::Write>(&self, f: &mut fmt::Formatter<W>) -> fmt::Result {
        fmt::Debug::fmt(&self.as_bytes(), f)
    }
}
