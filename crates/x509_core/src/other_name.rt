// Names of the forms that aren't looked into.
ghost use Rattle.std.specs.Prelude.{◌≡◌, ◌≢◌, true, false, IfOk, IfErr, nat_eq, bytes_eq};
ghost use Rattle.std.specs.Ordering.{on, eq_of_both};
ghost use Rattle.std.specs.Cmp.Rules.{comparing};
ghost use Rattle.std.proofs.Common.{rules};
ghost use Rattle.der_grammar.specs.declared.error.DerError.TheVariants.{Value as BadValue};
ghost use Rattle.der_grammar.specs.Types.{is_in};
ghost use Rattle.x509_core.specs.OtherNames.{other_tags, other_name_type};

use der_core::{Der, DerError, OctetString, Tag};
use foundation::{Duplicate, NoMemory};
use std::alloc::Global;
use std::marker::Model;

/// A GeneralName other than rfc822Name and uniformResourceIdentifier (RFC 5280, 4.2.1.6), kept as
/// encoded.
#[derive(Debug, Drop)]
pub struct OtherName {
    tag: Tag,
    bytes: OctetString,
}

impl Model for OtherName {
    ghost use Rattle.std.specs.Prelude.{◌≡◌, ℕ, List, true};
    ghost use Rattle.der_grammar.specs.Types.{is_in};
    ghost use Rattle.x509_core.specs.OtherNames.{other_tags};

    ghost Value = { ℕ × List ℕ };

    ghost view = { λ n. (n.tag.0, n.bytes) };

    ghost invariant = { λ n. is_in n.tag.0 other_tags ≡ true };
}

fn is_other(tag: Tag) -> bool
    ensures { result ≡ is_in tag.0 other_tags }
{
    matches!(tag.0, 160 | 130 | 163 | 164 | 165 | 135 | 136)
}

impl OtherName {
    /// A name with this tag and contents; Value exactly where the tag is none of the seven.
    pub fn new(alloc: Global, tag: Tag, bytes: &[u8]) -> Result<OtherName, DerError>
        ensures ok { IfOk result (λ n. (is_in tag.0 other_tags ≡ true) × (n ≡ (tag.0, bytes.now))) }
        ensures err { IfErr result (λ e. e ≢ DerError.NoMemory → (is_in tag.0 other_tags ≡ false) × (e ≡ BadValue)) }
    {
        if !is_other(tag) {
            return Err(DerError::Value);
        }
        Ok(OtherName {
            tag,
            bytes: OctetString::new(alloc, bytes)?,
        })
    }

    /// The tag.
    pub fn tag_byte(&self) -> Tag
        ensures { result.0 ≡ self.now.0 }
    {
        self.tag
    }

    /// The contents.
    pub fn as_bytes(&self) -> &[u8]
        ensures { result.now ≡ self.now.1 }
    {
        self.bytes.as_bytes()
    }
}

impl Der for OtherName {
    ghost grammar = { other_name_type.grammar };

    fn accepts(tag: Tag) -> bool {
        is_other(tag)
    }

    fn from_contents(alloc: Global, tag: Tag, contents: &[u8]) -> Result<OtherName, DerError> {
        Ok(OtherName {
            tag,
            bytes: OctetString::new(alloc, contents)?,
        })
    }

    fn tag(&self) -> Tag {
        self.tag
    }

    fn contents(&self, alloc: Global) -> Result<OctetString, DerError> {
        Ok(self.bytes.duplicate(alloc)?)
    }

    ghost lawful = { other_name_type.lawful };
}

impl Duplicate for OtherName {
    fn duplicate(&self, alloc: Global) -> Result<OtherName, NoMemory> {
        Ok(OtherName {
            tag: self.tag,
            bytes: self.bytes.duplicate(alloc)?,
        })
    }
}

impl PartialEq for OtherName {
    ghost eq = { eq_of_both (on (λ n. n.0) nat_eq) (on (λ n. n.1) bytes_eq) };

    ghost laws = { Prim.search (comparing, rules) };

    fn eq(&self, other: &OtherName) -> bool {
        self.tag == other.tag && self.bytes == other.bytes
    }
}
