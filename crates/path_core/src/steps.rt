// The count of judgements.
ghost use Rattle.std.specs.Prelude.{◌≡◌, ◌+◌, ◌-◌, ◌^◌, ◌≤◌, min};

use std::marker::Model;

/// How many pairs of certificates were judged; at its greatest value it stays. Contracts see the count.
#[derive(Drop)]
pub struct Steps {
    made: u128,
}

impl Model for Steps {
    ghost use Rattle.std.specs.Prelude.{ℕ};

    ghost Value = { ℕ };

    ghost view = { λ s. s.made };
}

impl Steps {
    /// None so far.
    pub fn new() -> Steps
        ensures { result ≡ 0 }
    {
        Steps { made: 0 }
    }

    /// How many pairs were judged.
    pub fn count(&self) -> u128
        ensures { result ≡ self.now }
    {
        self.made
    }

    /// The same count.
    pub(crate) fn copied(&self) -> Steps
        ensures same { result ≡ self.now }
        ensures fits { result ≤ 2 ^ 128 - 1 }
    {
        let made = self.count();
        Steps { made }
    }

    /// One more.
    pub(crate) fn tick(&mut self)
        ensures once { self.new ≡ min (self.old + 1) (2 ^ 128 - 1) }
        ensures rises { self.old ≤ self.new }
    {
        self.made = self.made.saturating_add(1);
    }
}
