// The calls of an object in memory: which of them fail, and how many failed.
ghost use Rattle.std.specs.Prelude.{◌≡◌, ◌≤◌, ◌+◌, ◌-◌, ◌^◌, ◌&&◌, [], List, ℕ, Some, None, min, true, false, nat_lt, if◌then◌else◌, IfSome, IsNone, ◌↔◌, bytes_eq};
ghost use Rattle.std.specs.Cmp.{partial_equiv_from_equiv};
ghost use Rattle.std.specs.Cmp.Lexicographic.{slice_cmp, nat_list_eq_equiv, nat_list_cmp_total, texts_ties, texts_po};
ghost use Rattle.foundation.specs.Watched.{Rose};
ghost use Rattle.sigstore_types_parts.specs.Calls.{is_ascending_above, is_named, fails_next};

use foundation::{Duplicate, NoMemory};
use std::alloc::Global;
use std::marker::Model;

/// The ascending numbers of the calls that fail, counted from 1.
#[derive(Debug, Drop)]
pub struct FailList {
    numbers: Vec<u64>,
}

impl Model for FailList {
    ghost use Rattle.std.specs.Prelude.{ℕ, List};

    ghost Value = { List ℕ };

    ghost view = { λ l. l.numbers.items };
}

impl PartialEq for FailList {
    ghost eq = { bytes_eq };

    ghost laws = { partial_equiv_from_equiv nat_list_eq_equiv };

    fn eq(&self, other: &FailList) -> bool {
        self.numbers.as_slice() == other.numbers.as_slice()
    }
}

impl Eq for FailList {
    ghost laws = { nat_list_eq_equiv };
}

impl Duplicate for FailList {
    fn duplicate(&self, alloc: Global) -> Result<FailList, NoMemory> {
        Ok(FailList {
            numbers: Vec::from_slice(alloc, &self.numbers)?,
        })
    }
}

impl FailList {
    /// These numbers; none exactly where they aren't strictly ascending or one is 0.
    pub fn new(calls: Vec<u64>) -> Option<FailList>
        ensures some { IfSome result (λ l. (l ≡ calls.items) × (is_ascending_above 0 calls.items ≡ true)) }
        ensures none { IsNone result ↔ (is_ascending_above 0 calls.items ≡ false) }
    {
        if ascends(&calls) {
            Some(FailList { numbers: calls })
        } else {
            None
        }
    }

    fn names(&self, call: u64) -> bool
        ensures { result ≡ is_named call self.now }
    {
        self.numbers.iter().any(|number| *number == call)
    }
}

fn ascends(calls: &[u64]) -> bool
    ensures { result ≡ is_ascending_above 0 calls.now }
{
    let mut low = 0;
    for call in calls {
        if *call <= low {
            return false;
        }
        low = *call;
    }
    true
}

/// Which calls fail, how many were made, and how many failed.
#[derive(Drop)]
pub struct Calls {
    pub failures: FailList,
    pub made: u64,
    pub faults: u64,
}

impl Calls {
    /// No call was made yet.
    pub fn new(failures: FailList) -> Calls
        ensures failures { result.failures ≡ failures }
        ensures made { result.made ≡ 0 }
        ensures faults { result.faults ≡ 0 }
    {
        Calls {
            failures,
            made: 0,
            faults: 0,
        }
    }

    /// Counts a call. Whether the list names it; then its failure is counted.
    pub fn next_fails(&mut self) -> bool
        ensures answer { result ≡ fails_next self.old.failures self.old.made }
        ensures failures { self.new.failures ≡ self.old.failures }
        ensures made { self.new.made ≡ min (self.old.made + 1) (2 ^ 64 - 1) }
        ensures fails { result ≡ true → Rose self.old.faults self.new.faults }
        ensures later { self.old.faults ≤ self.new.faults }
        ensures serves { result ≡ false → self.new.faults ≡ self.old.faults }
        ensures never { self.old.failures ≡ [] → result ≡ false }
    {
        let fails = self.made < u64::MAX && self.failures.names(self.made + 1);
        self.made = self.made.saturating_add(1);
        if fails {
            self.fail();
        }
        fails
    }

    /// Counts a failure.
    pub fn fail(&mut self)
        ensures failures { self.new.failures ≡ self.old.failures }
        ensures made { self.new.made ≡ self.old.made }
        ensures rose { Rose self.old.faults self.new.faults }
        ensures later { self.old.faults ≤ self.new.faults }
    {
        self.faults = self.faults.saturating_add(1);
    }
}
