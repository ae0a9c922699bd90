// A sink in memory.
ghost use Rattle.std.specs.Prelude.{◌≡◌, ◌≤◌, ◌+◌, ◌-◌, ◌^◌, [], length, min, false, Some, OnOk, IfOk, vec_capacity};
ghost use Rattle.sigstore_types_parts.specs.Calls.{fails_next};
ghost use Rattle.command_files.specs.Sink.{Writes, write_of};

use crate::sink::{Sink, SinkFault};
use foundation::NoMemory;
use sigstore_types_parts::{Calls, FailList};
use std::alloc::Global;

/// Bytes in memory, at most `room` of them.
#[derive(Drop)]
pub struct MemorySink {
    bytes: Vec<u8>,
    room: u32,
    calls: Calls,
    ghost fits: { length bytes.items ≤ room },
    ghost room_is_there: { room ≤ vec_capacity bytes },
}

impl MemorySink {
    /// An empty sink with its room; the calls that the list names fail.
    pub fn new(alloc: Global, room: u32, failures: FailList) -> Result<MemorySink, NoMemory>
        ensures bytes { IfOk result (λ s. s.bytes.items ≡ []) }
        ensures room { IfOk result (λ s. s.room ≡ room) }
        ensures failures { IfOk result (λ s. s.calls.failures ≡ failures) }
        ensures made { IfOk result (λ s. s.calls.made ≡ 0) }
        ensures faults { IfOk result (λ s. s.calls.faults ≡ 0) }
    {
        Ok(MemorySink {
            bytes: Vec::with_capacity(alloc, room as usize)?,
            room,
            calls: Calls::new(failures),
        })
    }

    /// The bytes that were taken.
    pub fn bytes(&self) -> &[u8]
        ensures { result.now ≡ self.now.bytes.items }
    {
        &self.bytes
    }
}

impl Sink for MemorySink {
    ghost seen = { λ s. record { told = Some s.bytes.items; faults = s.calls.faults } };

    fn write(&mut self, bytes: &[u8]) -> Result<usize, SinkFault>
        ensures writes { Writes (record { told = Some self.old.bytes.items; faults = self.old.calls.faults })
            (record { told = Some self.new.bytes.items; faults = self.new.calls.faults }) bytes.now result }
        ensures room { self.new.room ≡ self.old.room }
        ensures failures { self.new.calls.failures ≡ self.old.calls.failures }
        ensures made { self.new.calls.made ≡ min (self.old.calls.made + 1) (2 ^ 64 - 1) }
        ensures answer { result ≡ write_of (fails_next self.old.calls.failures self.old.calls.made)
            (self.old.room - length self.old.bytes.items) bytes.now }
        ensures serves { OnOk result (self.new.calls.faults ≡ self.old.calls.faults) }
        ensures never { self.old.calls.failures ≡ [] → result ≡ write_of false (self.old.room - length self.old.bytes.items) bytes.now }
    {
        if self.calls.next_fails() {
            return Err(SinkFault::Failed);
        }
        let count = (self.room as usize - self.bytes.len()).min(bytes.len());
        if count == 0 && !bytes.is_empty() {
            self.calls.fail();
            return Err(SinkFault::Failed);
        }
        self.bytes.extend_from_slice(&bytes[..count]).unwrap();
        Ok(count)
    }
}
