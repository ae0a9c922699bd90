// The end of every command: what is said is written, and has a status.
ghost use Rattle.std.specs.Prelude.{◌≡◌, ℕ, List};
ghost use Rattle.command_files.specs.declared.answer.Status.{Status};
ghost use Rattle.command_files.specs.Ending.{Ends};

use crate::answer::{Answer, Status};
use crate::sink::Sink;
use crate::writing::write_all;
use foundation::NoMemory;

/// What a run says: the octets that are written, and its status where they are taken whole.
pub trait Said {
    ghost status_said: { Self → Status };

    ghost octets_said: { Self → List ℕ };

    /// The status where the octets are taken whole.
    fn status(&self) -> Status
        ensures { result ≡ status_said self.now };

    /// The octets that are written.
    fn octets(&self) -> &[u8]
        ensures { result.now ≡ octets_said self.now };
}

impl Said for Answer {
    ghost status_said = { λ said. said.status };

    ghost octets_said = { λ said. said.text };

    fn status(&self) -> Status {
        self.status
    }

    fn octets(&self) -> &[u8] {
        self.text.as_str().as_bytes()
    }
}

/// Ends a run: writes what is said, and gives its status. `Output` where a write failed; `Memory`, and nothing is
/// written, out of memory.
pub fn finish<T: Said, K: Sink>(said: &Result<T, NoMemory>, out: &mut K) -> Status
    ensures { Ends T.status_said T.octets_said said.now (K.seen out.old) (K.seen out.new) result }
{
    match said {
        Ok(said) => match write_all(out, said.octets()) {
            Ok(()) => said.status(),
            Err(_) => Status::Output,
        },
        Err(_) => Status::Memory,
    }
}
