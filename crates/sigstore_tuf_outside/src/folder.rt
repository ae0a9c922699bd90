// Files in memory.
ghost use Rattle.std.specs.Prelude.{◌≡◌, ◌≢◌, ◌≤◌, ◌+◌, ◌-◌, ◌^◌, min, true, false, [], Err, OnOk, OnErr};
ghost use Rattle.foundation.specs.Watched.{Rose};
ghost use Rattle.sigstore_tuf_outside.specs.Repository.{FailsOnly, WithinLimit, IsFile};
ghost use Rattle.sigstore_tuf_outside.specs.Store.{with_file};
ghost use Rattle.sigstore_tuf_outside.specs.Memory.{files_of};
ghost use Rattle.sigstore_types_parts.specs.Calls.{fails_next};
ghost use Rattle.sigstore_tuf_outside.specs.declared.repository.FetchFault.TheVariants.{Failed};

use crate::repository::FetchFault;
use foundation::{Duplicate, NoMemory};
use sigstore_types_parts::{Bytes, Calls, Text, TextMap};
use std::alloc::Global;

// Puts a file in place of the one of that name.
pub(crate) fn put(
    alloc: Global,
    files: &mut TextMap<Bytes>,
    name: &str,
    bytes: &[u8],
) -> Result<(), NoMemory>
    ensures ok { OnOk result (files_of files.new ≡ with_file name.now bytes.now (files_of files.old)) }
    ensures err { OnErr result (files.new ≡ files.old) }
{
    files.insert(Text::new(alloc, name)?, Bytes::new(alloc, bytes)?)?;
    Ok(())
}

// The file of that name, unless the call fails.
pub(crate) fn fetch(
    alloc: Global,
    files: &TextMap<Bytes>,
    calls: &mut Calls,
    name: &str,
    max: u64,
) -> Result<Option<Bytes>, FetchFault>
    ensures later { calls.old.faults ≤ calls.new.faults }
    ensures failures { calls.new.failures ≡ calls.old.failures }
    ensures failed { FailsOnly (Rose calls.old.faults calls.new.faults) result }
    ensures limit { WithinLimit max result }
    ensures file { IsFile (files_of files.now name.now) result }
    ensures made { calls.new.made ≡ min (calls.old.made + 1) (2 ^ 64 - 1) }
    ensures fails { fails_next calls.old.failures calls.old.made ≡ true → (result ≡ Err Failed) × Rose calls.old.faults calls.new.faults }
    ensures serves { fails_next calls.old.failures calls.old.made ≡ false → (result ≢ Err Failed) × (calls.new.faults ≡ calls.old.faults) }
    ensures never { calls.old.failures ≡ [] → calls.new.faults ≡ calls.old.faults }
{
    if calls.next_fails() {
        return Err(FetchFault::Failed);
    }
    match files.get(name) {
        None => Ok(None),
        Some(file) => {
            let seen = file.as_bytes().len() as u64;
            if seen > max {
                return Err(FetchFault::TooLong { seen });
            }
            Ok(Some(file.duplicate(alloc)?))
        }
    }
}
