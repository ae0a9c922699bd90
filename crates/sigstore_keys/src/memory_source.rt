// An artifact in memory.
ghost use Rattle.std.specs.Prelude.{◌≡◌, ◌≢◌, ◌≤◌, ◌+◌, ◌-◌, ◌^◌, min, true, false, [], length, drop, IfOk, Some, Err};
ghost use Rattle.foundation.specs.Watched.{Rose};
ghost use Rattle.sigstore_types_parts.specs.Calls.{fails_next};
ghost use Rattle.sigstore_keys.specs.Source.{Reads};
ghost use Rattle.sigstore_keys.specs.declared.source.ReadFault.TheVariants.{Failed};

use crate::source::{ArtifactSource, ReadFault};
use sigstore_types_parts::{Bytes, Calls, FailList};
use std::num::NonZeroU32;

/// Bytes in memory, given at most `step` at a time.
#[derive(Drop)]
pub struct MemorySource {
    bytes: Bytes,
    at: usize,
    step: NonZeroU32,
    calls: Calls,
    ghost within: { at ≤ length bytes },
}

impl MemorySource {
    /// These bytes, at most `step` a call; the calls that the list names fail.
    pub fn new(bytes: Bytes, step: NonZeroU32, failures: FailList) -> MemorySource
        ensures bytes { result.bytes ≡ bytes }
        ensures at { result.at ≡ 0 }
        ensures faults { result.calls.faults ≡ 0 }
        ensures failures { result.calls.failures ≡ failures }
        ensures made { result.calls.made ≡ 0 }
        ensures step { result.step ≡ step }
    {
        MemorySource {
            bytes,
            at: 0,
            step,
            calls: Calls::new(failures),
        }
    }
}

impl ArtifactSource for MemorySource {
    ghost seen = { λ s. record { told = Some (drop s.at s.bytes); faults = s.calls.faults } };

    fn read(&mut self, buf: &mut [u8]) -> Result<usize, ReadFault>
        ensures reads { Reads (record { told = Some (drop self.old.at self.old.bytes); faults = self.old.calls.faults }) (record { told = Some (drop self.new.at self.new.bytes); faults = self.new.calls.faults }) buf.new result }
        ensures failures { self.new.calls.failures ≡ self.old.calls.failures }
        ensures made { self.new.calls.made ≡ min (self.old.calls.made + 1) (2 ^ 64 - 1) }
        ensures fails { fails_next self.old.calls.failures self.old.calls.made ≡ true → (result ≡ Err Failed) × Rose self.old.calls.faults self.new.calls.faults }
        ensures serves { fails_next self.old.calls.failures self.old.calls.made ≡ false → (result ≢ Err Failed) × (self.new.calls.faults ≡ self.old.calls.faults) }
        ensures step { self.new.step ≡ self.old.step }
        ensures at_most { IfOk result (λ n. n ≤ self.old.step.value) }
        ensures never { self.old.calls.failures ≡ [] → self.new.calls.faults ≡ self.old.calls.faults }
    {
        if self.calls.next_fails() {
            return Err(ReadFault::Failed);
        }
        let rest = &self.bytes.as_bytes()[self.at..];
        let count = rest.len().min(buf.len()).min(self.step.get() as usize);
        buf[..count].copy_from_slice(&rest[..count]);
        self.at += count;
        Ok(count)
    }
}
