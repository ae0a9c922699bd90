// A set of borrowed texts, seen as a list of them.
ghost use Rattle.std.specs.Prelude.{◌≡◌, ℕ, List, [], ◌||◌, not, bytes_eq, IfOk, OnOk};
ghost use Rattle.sigstore_tuf_parts.specs.Threshold.{is_among};

use foundation::NoMemory;
use std::alloc::Global;
use std::collections::BTreeSet;
use std::marker::Model;

/// A set of texts, whose look-ups take time as the logarithm of its size.
#[derive(Drop)]
pub(crate) struct TextSet<'t> {
    inner: BTreeSet<&'t str>,
}

impl<'t> Model for TextSet<'t> {
    ghost use Rattle.std.specs.Prelude.{ℕ, List, map};

    ghost Value = { List (List ℕ) };

    ghost view = { λ s. map (λ t. t.now) s.inner.keys };
}

impl<'t> TextSet<'t> {
    /// The empty set; takes no memory.
    pub(crate) fn new(alloc: Global) -> TextSet<'t>
        ensures { result ≡ [] }
    {
        TextSet {
            inner: BTreeSet::new(alloc),
        }
    }

    /// Whether the text is in the set.
    pub(crate) fn contains(&self, text: &str) -> bool
        ensures { result ≡ is_among self.now text.now }
    {
        self.inner.contains(text)
    }

    /// Puts a text in, and tells whether it is new there.
    pub(crate) fn insert(&mut self, text: &'t str) -> Result<bool, NoMemory>
        ensures fresh { IfOk result (λ fresh. fresh ≡ not (is_among self.old text.now)) }
        ensures all { OnOk result
            ((other : List ℕ) → is_among self.new other ≡ (bytes_eq text.now other || is_among self.old other)) }
    {
        Ok(self.inner.insert(text)?)
    }
}
