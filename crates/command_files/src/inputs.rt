// Where the program's inputs come from.
ghost use Rattle.std.specs.Prelude.{◌≡◌};
ghost use Rattle.command_files.specs.Inputs.{Supply, Gives};
ghost use Rattle.command_files.specs.declared.inputs.InputFault.TheVariants.{NoMemory};

use foundation::NoMemory;
use sigstore_types_parts::Bytes;
use std::alloc::Global;
use std::{error, fmt};

/// The inputs of the program.
#[derive(Clone, Copy, Debug, PartialEq, Eq, Drop)]
pub enum InputFile {
    Root,
    Bundle,
    Policy,
    Provider,
}

/// Why an input wasn't given.
#[derive(Clone, Copy, Debug, PartialEq, Eq, Drop)]
pub enum InputFault {
    /// A read failed.
    Failed,
    /// The input isn't there.
    Absent,
    /// The input is longer than its limit.
    TooLong { seen: u64 },
    /// An allocation was refused.
    NoMemory,
}

impl From<NoMemory> for InputFault {
    ghost from_gives = { λ _ e. e ≡ NoMemory };

    fn from(_: NoMemory) -> InputFault {
        InputFault::NoMemory
    }
}

/// Gives the program's inputs.
pub trait Inputs {
    /// The inputs, where they are told, how often a reading failed, and which input was last not given.
    ghost seen: { Self → Supply };

    /// An input of at most `max` bytes. Errors: `Failed`, `Absent`, `TooLong` above `max`, `NoMemory`.
    fn read(&mut self, alloc: Global, which: InputFile, max: u64) -> Result<Bytes, InputFault>
        ensures { Gives which (seen self.old) (seen self.new) max result };
}

impl fmt::Display for InputFault {
    fn fmt<W: fmt::Write>(&self, f: &mut fmt::Formatter<W>) -> fmt::Result {
        f.write_str(match self {
            InputFault::Failed => "Failed",
            InputFault::Absent => "Absent",
            InputFault::TooLong { .. } => "TooLong",
            InputFault::NoMemory => "NoMemory",
        })
    }
}

impl error::Error for InputFault {}
