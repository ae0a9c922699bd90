// A map from byte strings, seen as its entries in the order of their keys.
ghost use Rattle.std.specs.Prelude.{◌≡◌, [], OnOk, option_copied};
ghost use Rattle.std.specs.BTreeMap.{insert_entry, is_at};
ghost use Rattle.std.specs.List.Sorted.{IsStrictlySortedBy};
ghost use Rattle.std.specs.Map.{keys_of, remove_entry};
ghost use Rattle.sigstore_types_parts.specs.Entries.{text_cmp, at_name};

use foundation::NoMemory;
use sigstore_types_parts::Bytes;
use std::alloc::Global;
use std::collections::BTreeMap;
use std::marker::Model;

/// A map from byte strings; contracts see its entries in ascending order of their keys.
#[derive(Drop)]
pub struct ByteMap<T> {
    inner: BTreeMap<Vec<u8>, T>,
}

impl<T> Model for ByteMap<T> {
    ghost use Rattle.std.specs.Prelude.{ℕ, List};
    ghost use Rattle.command_files.specs.ByteMap.{keyed};

    ghost Value = { List (List ℕ × T) };

    ghost view = { λ m. keyed m.inner.entries };
}

impl<T> ByteMap<T> {
    /// The empty map; takes no memory.
    pub fn new(alloc: Global) -> ByteMap<T>
        ensures { result ≡ [] }
    {
        ByteMap {
            inner: BTreeMap::new(alloc),
        }
    }

    /// The item at a key.
    pub fn get(&self, key: &[u8]) -> Option<&T>
        ensures { option_copied result ≡ at_name key.now self.now }
    {
        self.inner.get(key)
    }
}

impl<T: Drop> ByteMap<T> {
    /// Puts an item at a key, in place of the one there.
    pub fn insert(&mut self, key: Bytes, item: T) -> Result<(), NoMemory>
        ensures { OnOk result (self.new ≡ insert_entry text_cmp self.old key item) }
    {
        self.inner.insert(key.into_vec(), item)?;
        Ok(())
    }

    /// Takes the item at a key out.
    pub fn take(&mut self, key: &[u8]) -> Option<T>
        ensures taken { result ≡ at_name key.now self.old }
        ensures others { self.new ≡ remove_entry (is_at (text_cmp key.now)) self.old }
        ensures ordered { IsStrictlySortedBy text_cmp (keys_of self.old) }
    {
        // (asked only for its contract: the keys of every map ascend)
        let _ = self.inner.len();
        self.inner.remove(key)
    }
}
