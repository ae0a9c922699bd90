// A map from texts, seen as its entries in the order of their names.
ghost use Rattle.std.specs.Prelude.{◌≡◌, [], IfOk, OnOk, OnErr, string_bytes, option_copied};
ghost use Rattle.std.specs.Ordering.{nat_cmp};
ghost use Rattle.std.specs.Cmp.{partial_equiv_from_equiv, on_per, and_per, on_equiv, and_equiv};
ghost use Rattle.std.specs.Cmp.Lexicographic.{slice_cmp, nat_list_eq_equiv, lists_per, lists_equiv};
ghost use Rattle.std.specs.BTreeMap.{insert_entry};
ghost use Rattle.std.specs.List.Sorted.{IsStrictlySortedBy};
ghost use Rattle.std.specs.Map.{keys_of};
ghost use Rattle.sigstore_types_parts.specs.Entries.{text_cmp, at_name, named, same_entries};

use crate::text::Text;
use foundation::{Duplicate, NoMemory};
use std::alloc::Global;
use std::collections::BTreeMap;
use std::collections::btree_map::Iter;
use std::marker::Model;

/// A map from texts; contracts see its entries in ascending order of their names' bytes.
#[derive(Drop)]
pub struct TextMap<T> {
    inner: BTreeMap<String, T>,
}

impl<T> Model for TextMap<T> {
    ghost use Rattle.std.specs.Prelude.{ℕ, List};
    ghost use Rattle.sigstore_types_parts.specs.Entries.{named};

    ghost Value = { List (List ℕ × T) };

    ghost view = { λ m. named m.inner.entries };
}

impl<T> TextMap<T> {
    /// The empty map; takes no memory.
    pub fn new(alloc: Global) -> TextMap<T>
        ensures { result ≡ [] }
    {
        TextMap {
            inner: BTreeMap::new(alloc),
        }
    }

    /// The entries, in ascending order of their names.
    pub fn iter(&self) -> Iter<'_, String, T>
        ensures entries { named result ≡ self.now }
        ensures ordered { IsStrictlySortedBy text_cmp (keys_of self.now) }
    {
        self.inner.iter()
    }

    /// The item at a name.
    pub fn get(&self, name: &str) -> Option<&T>
        ensures { option_copied result ≡ at_name name.now self.now }
    {
        self.inner.get(name)
    }
}

impl<T: Drop> TextMap<T> {
    /// Puts an item at a name, in place of the one there; after want of memory the map is as before.
    pub fn insert(&mut self, name: Text, item: T) -> Result<(), NoMemory>
        ensures ok { OnOk result (self.new ≡ insert_entry text_cmp self.old name item) }
        ensures err { OnErr result (self.new ≡ self.old) }
    {
        self.inner.insert(name.into_string(), item)?;
        Ok(())
    }
}

// An insertion under a copy of the name.
pub(crate) fn put<T: Drop>(
    alloc: Global,
    found: &mut TextMap<T>,
    name: &str,
    item: T,
) -> Result<(), NoMemory>
    ensures ok { OnOk result (found.new ≡ insert_entry text_cmp found.old name.now item) }
    ensures err { OnErr result (found.new ≡ found.old) }
{
    found.insert(Text::new(alloc, name)?, item)?;
    Ok(())
}

impl<T: Duplicate> Duplicate for TextMap<T> {
    fn duplicate(&self, alloc: Global) -> Result<TextMap<T>, NoMemory> {
        copies(alloc, self)
    }
}

fn copies<T: Duplicate>(alloc: Global, entries: &TextMap<T>) -> Result<TextMap<T>, NoMemory>
    ensures { IfOk result (λ map. map ≡ entries.now) }
{
    let mut found = TextMap::new(alloc);
    for (name, item) in entries.iter() {
        put(alloc, &mut found, name.as_str(), item.duplicate(alloc)?)?;
    }
    Ok(found)
}

impl<T: PartialEq> PartialEq for TextMap<T> {
    ghost eq = { same_entries T.eq };

    ghost laws = { lists_per
        (and_per (on_per (λ e. e.0) (partial_equiv_from_equiv nat_list_eq_equiv))
        (on_per (λ e. e.1) T.laws)) };

    fn eq(&self, other: &TextMap<T>) -> bool {
        self.inner == other.inner
    }
}

impl<T: Eq> Eq for TextMap<T> {
    ghost laws = { lists_equiv
        (and_equiv (on_equiv (λ e. e.0) nat_list_eq_equiv) (on_equiv (λ e. e.1) T.Eq.laws)) };
}
