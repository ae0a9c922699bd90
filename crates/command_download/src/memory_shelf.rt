// A shelf in memory.
ghost use Rattle.std.specs.Prelude.{◌≡◌, ◌≢◌, ◌+◌, ◌-◌, ◌^◌, [], min, true, false, Some, Err};
ghost use Rattle.foundation.specs.Watched.{Rose};
ghost use Rattle.sigstore_types_parts.specs.Calls.{fails_next};
ghost use Rattle.command_download.specs.Shelf.{Places};
ghost use Rattle.command_download.specs.declared.shelf.ShelfFault.TheVariants.{Failed};

use crate::shelf::{Placed, Shelf, ShelfFault};
use sigstore_types_parts::{Bytes, Calls, FailList, Text};
use std::alloc::Global;

/// The files that were put in place, in their order; the calls that the list names fail.
#[derive(Drop)]
pub struct MemoryShelf {
    files: Vec<Placed>,
    calls: Calls,
}

impl MemoryShelf {
    /// A shelf without files; takes no memory.
    pub fn new(alloc: Global, failures: FailList) -> MemoryShelf
        ensures files { result.files.items ≡ [] }
        ensures failures { result.calls.failures ≡ failures }
        ensures made { result.calls.made ≡ 0 }
        ensures faults { result.calls.faults ≡ 0 }
    {
        MemoryShelf {
            files: Vec::new(alloc),
            calls: Calls::new(failures),
        }
    }

    /// The files that were put in place, in their order.
    pub fn files(&self) -> &[Placed]
        ensures { result.now ≡ self.now.files.items }
    {
        &self.files
    }
}

impl Shelf for MemoryShelf {
    ghost seen = { λ s. record { told = Some s.files.items; faults = s.calls.faults } };

    fn place(&mut self, alloc: Global, path: &str, bytes: &[u8]) -> Result<(), ShelfFault>
        ensures places { Places (record { told = Some self.old.files.items; faults = self.old.calls.faults })
            (record { told = Some self.new.files.items; faults = self.new.calls.faults }) path.now bytes.now result }
        ensures failures { self.new.calls.failures ≡ self.old.calls.failures }
        ensures made { self.new.calls.made ≡ min (self.old.calls.made + 1) (2 ^ 64 - 1) }
        ensures fails { fails_next self.old.calls.failures self.old.calls.made ≡ true → (result ≡ Err Failed) × Rose self.old.calls.faults self.new.calls.faults }
        ensures serves { fails_next self.old.calls.failures self.old.calls.made ≡ false → (result ≢ Err Failed) × (self.new.calls.faults ≡ self.old.calls.faults) }
    {
        if self.calls.next_fails() {
            return Err(ShelfFault::Failed);
        }
        let file = Placed {
            path: Text::new(alloc, path)?,
            bytes: Bytes::new(alloc, bytes)?,
        };
        match self.files.push(file) {
            Ok(()) => Ok(()),
            Err(_) => Err(ShelfFault::NoMemory),
        }
    }
}
