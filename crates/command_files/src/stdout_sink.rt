// Standard output.
ghost use Rattle.std.specs.Prelude.{◌≡◌, OnOk};
ghost use Rattle.foundation.specs.Watched.{untold};
ghost use Rattle.command_files.specs.Sink.{Writes};

use crate::sink::{Sink, SinkFault};
use std::io::Print;

/// Standard output; it tells nothing.
#[derive(Drop)]
pub struct StdoutSink<'r, X: Print> {
    rt: &'r X,
    faults: u64,
}

impl<'r, X: Print> StdoutSink<'r, X> {
    /// Standard output of a runtime.
    pub fn new(rt: &'r X) -> StdoutSink<'r, X>
        ensures { result.faults ≡ 0 }
    {
        StdoutSink { rt, faults: 0 }
    }
}

impl<X: Print> Sink for StdoutSink<'_, X> {
    ghost seen = { λ s. untold s.faults };

    fn write(&mut self, bytes: &[u8]) -> Result<usize, SinkFault>
        ensures writes { Writes (untold self.old.faults) (untold self.new.faults) bytes.now result }
        ensures serves { OnOk result (self.new.faults ≡ self.old.faults) }
    {
        match self.rt.write_some(bytes) {
            Ok(count) if count > 0 || bytes.is_empty() => Ok(count),
            _ => {
                self.faults = self.faults.saturating_add(1);
                Err(SinkFault::Failed)
            }
        }
    }
}
