// How many different parties vouch, and how many have to.
ghost use Rattle.std.specs.Prelude.{◌≡◌, [], length, max, nat_le, OnOk};
ghost use Rattle.std.specs.Int.NonZero.{non_zero_u8_get};
ghost use Rattle.std.specs.List.{list_any};
ghost use Rattle.sigstore_keys.specs.Distinct.{is_among, with_id, is_enough};

use foundation::{NoMemory, Sequence};
use sigstore_types_parts::Bytes;
use std::alloc::Global;
use std::num::NonZeroU8;

/// How many different parties have to vouch, as logs or time-stamp authorities, from 1 to 255: one alone is one party to
/// trust.
#[derive(Clone, Copy, Debug, PartialEq, Eq, Drop)]
pub struct Threshold {
    value: u8,
}

impl Threshold {
    /// One, as everyone asks who asks for no more.
    pub fn one() -> Threshold
        ensures { result.value ≡ 1 }
    {
        Threshold { value: 1 }
    }

    /// So many.
    pub fn new(count: NonZeroU8) -> Threshold
        ensures { result.value ≡ non_zero_u8_get count }
    {
        Threshold { value: count.get() }
    }

    /// How many.
    pub fn get(self) -> NonZeroU8
        ensures { non_zero_u8_get result ≡ max 1 self.value }
    {
        match NonZeroU8::new(self.value) {
            Some(count) => count,
            None => NonZeroU8::MIN,
        }
    }

    /// The same as a number.
    pub fn number(self) -> u64
        ensures { result ≡ self.value }
    {
        self.value as u64
    }

    /// Whether so many are enough.
    pub fn is_met_by(self, count: u64) -> bool
        ensures { result ≡ is_enough self count }
    {
        self.value as u64 <= count
    }
}

/// Ids of those who vouch for something, each once, in the order in which they came: an id that comes again is the same
/// party.
#[derive(Drop)]
pub struct DistinctIds {
    ids: Sequence<Bytes>,
}

// Whether an id came before.
fn is_among(id: &[u8], ids: &[Bytes]) -> bool
    ensures { result ≡ is_among id.now ids.now }
{
    ids.iter().any(|other| id == other.as_bytes())
}

impl DistinctIds {
    /// No ids; takes no memory.
    pub fn new(alloc: Global) -> DistinctIds
        ensures { result.ids ≡ [] }
    {
        DistinctIds {
            ids: Sequence::new(alloc),
        }
    }

    /// Adds an id, unless it came before. Each call looks through the ids that are there: they are of logs and
    /// authorities that are trusted, so their number is nobody else's to choose.
    pub fn add(&mut self, alloc: Global, id: &[u8]) -> Result<(), NoMemory>
        ensures { OnOk result (self.new.ids ≡ with_id id.now self.old.ids) }
    {
        if is_among(id, self.ids.as_slice()) {
            return Ok(());
        }
        self.ids.push(Bytes::new(alloc, id)?)?;
        Ok(())
    }

    /// How many there are.
    pub fn count(&self) -> u64
        ensures { result ≡ length self.now.ids }
    {
        self.ids.len() as u64
    }
}
