// Sets, and lists of values.
ghost use Rattle.std.specs.Prelude.{◌≡◌, ◌≢◌, ◌∷◌, [], ◌≤◌, ◌<◌, length, true, IfOk, IfErr, OnOk, OnErr, MatchOption, Ok, Err, slice_get};
ghost use Rattle.std.specs.Cmp.Lexicographic.{pointwise, lists_per};
ghost use Rattle.std.specs.Option.{option_copied};
ghost use Rattle.der_grammar.specs.Grammar.{write};
ghost use Rattle.der_grammar.specs.Many.{sequence_of};
ghost use Rattle.der_grammar.specs.Outcome.{IsSetRefusal};
ghost use Rattle.der_grammar.specs.ManyLaws.{sequence_of-lawful};
ghost use Rattle.der_grammar.specs.Places.{place_of, put};
ghost use Rattle.der_grammar.specs.Sets.{set_from, set_of};
ghost use Rattle.der_grammar.specs.SetLaws.{set_of-lawful};

use crate::der::Der;
use crate::error::DerError;
use crate::keyed::{all_rise, members_of, sort, with_encodings};
use crate::octet_string::OctetString;
use crate::read::read_each;
use crate::reader::{Reader, Tag};
use crate::tag;
use crate::write::append_each;
use foundation::{Duplicate, NoMemory, Sequence};
use std::alloc::Global;
use std::cmp::Ordering;
use std::marker::Model;

/// A SET OF, its members in ascending order of their encodings and no two equal (X.690, 11.6);
/// contracts see its members.
#[derive(Debug, Drop)]
pub struct SetOfVec<T: Der> {
    members: Vec<T>,
}

impl<T: Der> Model for SetOfVec<T> {
    ghost use Rattle.std.specs.Prelude.{◌≡◌, List, true};
    ghost use Rattle.der_grammar.specs.Sets.{is_set};

    ghost Value = { List T };

    ghost view = { λ s. s.members.items };

    ghost invariant = { λ s. is_set T.grammar s.members.items ≡ true };
}

/// The members in the order of their encodings.
#[tactic(auto, unfolding(crate::specs::Sets::set_from))]
fn in_order<T: Der>(alloc: Global, members: Vec<T>) -> Result<Vec<T>, DerError>
    ensures ok { IfOk result (λ v. set_from T.grammar members.items ≡ Ok v.items) }
    ensures err { IfErr result (λ e. e ≢ DerError.NoMemory → set_from T.grammar members.items ≡ Err e) }
    ensures cause { IfErr result IsSetRefusal }
{
    let mut keys = with_encodings(alloc, members)?;
    sort(&mut keys)?;
    if !all_rise(&keys) {
        return Err(DerError::SetDuplicate);
    }
    Ok(members_of(alloc, keys)?)
}

/// The place of a member with this encoding.
fn place_for<T: Der>(alloc: Global, key: &[u8], members: &[T]) -> Result<usize, DerError>
    ensures ok { IfOk result (λ i. place_of T.grammar key.now members.now ≡ Ok i) }
    ensures err { IfErr result (λ e. e ≢ DerError.NoMemory → place_of T.grammar key.now members.now ≡ Err e) }
    ensures cause { IfErr result IsSetRefusal }
    ensures within { IfOk result (λ i. i ≤ length members.now) }
{
    let mut place = 0;
    'members: for member in members {
        let other = member.to_der(alloc)?;
        match key.cmp(other.as_bytes()) {
            Ordering::Less => return Ok(place),
            Ordering::Equal => return Err(DerError::SetDuplicate),
            Ordering::Greater => place += 1,
        }
    }
    Ok(place)
}

/// Puts a member into its place. A refusal changes nothing.
#[tactic(auto, unfolding(crate::specs::Places::put))]
fn put_in<T: Der>(alloc: Global, members: &mut Vec<T>, member: T) -> Result<(), DerError>
    ensures ok { OnOk result (put T.grammar member members.old.items ≡ Ok members.new.items) }
    ensures err { IfErr result (λ e. e ≢ DerError.NoMemory → put T.grammar member members.old.items ≡ Err e) }
    ensures cause { IfErr result IsSetRefusal }
    ensures same { OnErr result (members.new.items ≡ members.old.items) }
{
    let key = member.to_der(alloc)?;
    let place = place_for(alloc, key.as_bytes(), members)?;
    members.insert(place, member)?;
    Ok(())
}

impl<T: Der> SetOfVec<T> {
    /// The empty set; takes no memory.
    #[tactic(auto, unfolding(crate::specs::Sets::is_set, crate::specs::Sets::keyed))]
    pub fn new(alloc: Global) -> SetOfVec<T>
        ensures { result ≡ [] }
    {
        SetOfVec {
            members: Vec::new(alloc),
        }
    }

    /// The set of these members: TooLong where one has no encoding, then SetDuplicate exactly where
    /// two are equal.
    pub fn try_from(alloc: Global, members: Vec<T>) -> Result<SetOfVec<T>, DerError>
        ensures ok { IfOk result (λ set. set_from T.grammar members.items ≡ Ok set) }
        ensures err { IfErr result (λ e. e ≢ DerError.NoMemory → set_from T.grammar members.items ≡ Err e) }
        ensures cause { IfErr result IsSetRefusal }
    {
        Ok(SetOfVec {
            members: in_order(alloc, members)?,
        })
    }

    /// Adds a member: TooLong where it has no encoding, SetDuplicate exactly where an equal one is
    /// there. A refusal changes nothing.
    pub fn insert(&mut self, alloc: Global, member: T) -> Result<(), DerError>
        ensures ok { OnOk result (set_from T.grammar (member ∷ self.old) ≡ Ok self.new) }
        ensures err { IfErr result (λ e. e ≢ DerError.NoMemory → set_from T.grammar (member ∷ self.old) ≡ Err e) }
        ensures cause { IfErr result IsSetRefusal }
        ensures same { OnErr result (self.new ≡ self.old) }
    {
        put_in(alloc, &mut self.members, member)
    }

    /// The member at an index; None exactly from the number of members on.
    pub fn get(&self, index: usize) -> Option<&T>
        ensures { option_copied result ≡ slice_get self.now index }
    {
        self.members.get(index)
    }

    /// The members in order.
    pub fn as_slice(&self) -> &[T]
        ensures { result.now ≡ self.now }
    {
        self.members.as_slice()
    }

    /// The number of members.
    pub fn len(&self) -> usize
        ensures { result ≡ length self.now }
    {
        self.members.len()
    }
}

impl<T: Der> Der for SetOfVec<T> {
    ghost grammar = { set_of T.grammar };

    fn accepts(tag: Tag) -> bool {
        tag.0 == tag::SET
    }

    fn from_contents(alloc: Global, _tag: Tag, contents: &[u8]) -> Result<SetOfVec<T>, DerError> {
        let mut reader = Reader::new(contents);
        let members = read_each::<T>(alloc, &mut reader)?;
        match SetOfVec::try_from(alloc, members) {
            Ok(set) => Ok(set),
            Err(refusal) => Err(refusal),
        }
    }

    fn tag(&self) -> Tag {
        Tag(tag::SET)
    }

    fn contents(&self, alloc: Global) -> Result<OctetString, DerError> {
        let mut out = OctetString::empty(alloc);
        append_each(alloc, &self.members, &mut out)?;
        Ok(out)
    }

    ghost lawful = { set_of-lawful T.grammar T.lawful };
}

fn copies<T: Duplicate>(alloc: Global, members: &[T]) -> Result<Vec<T>, NoMemory>
    ensures { IfOk result (λ v. v.items ≡ members.now) }
{
    let mut out = Vec::new(alloc);
    'members: for member in members {
        out.push(member.duplicate(alloc)?)?;
    }
    Ok(out)
}

impl<T: Der + Duplicate> Duplicate for SetOfVec<T> {
    fn duplicate(&self, alloc: Global) -> Result<SetOfVec<T>, NoMemory> {
        Ok(SetOfVec {
            members: copies(alloc, &self.members)?,
        })
    }
}

impl<T: Der + PartialEq> PartialEq for SetOfVec<T> {
    ghost eq = { pointwise T.eq };

    ghost laws = { lists_per T.laws };

    fn eq(&self, other: &SetOfVec<T>) -> bool {
        self.members.as_slice() == other.members.as_slice()
    }
}

/// A SEQUENCE OF (X.690, 8.10).
impl<T: Der> Der for Sequence<T> {
    ghost grammar = { sequence_of T.grammar };

    fn accepts(tag: Tag) -> bool {
        tag.0 == tag::SEQUENCE
    }

    fn from_contents(alloc: Global, _tag: Tag, contents: &[u8]) -> Result<Sequence<T>, DerError> {
        let mut reader = Reader::new(contents);
        let members = read_each::<T>(alloc, &mut reader)?;
        Ok(Sequence::from_vec(members))
    }

    fn tag(&self) -> Tag {
        Tag(tag::SEQUENCE)
    }

    fn contents(&self, alloc: Global) -> Result<OctetString, DerError> {
        let mut out = OctetString::empty(alloc);
        append_each(alloc, self.as_slice(), &mut out)?;
        Ok(out)
    }

    ghost lawful = { sequence_of-lawful T.grammar T.lawful };
}
