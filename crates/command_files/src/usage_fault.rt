// Why words or a file aren't read.
ghost use Rattle.std.specs.Prelude.{◌≡◌};
ghost use Rattle.command_files.specs.declared.usage_fault.UsageFault.TheVariants.{NoMemory};

use foundation::NoMemory;
use std::{error, fmt};

/// Why words or a file aren't read: they are outside their grammar, or memory is wanting.
#[derive(Clone, Copy, Debug, PartialEq, Eq, Drop)]
pub enum UsageFault {
    /// The bytes or words are outside their grammar.
    Usage,
    /// An allocation was refused.
    NoMemory,
}

impl From<NoMemory> for UsageFault {
    ghost from_gives = { λ _ e. e ≡ NoMemory };

    fn from(_: NoMemory) -> UsageFault {
        UsageFault::NoMemory
    }
}

impl fmt::Display for UsageFault {
    fn fmt<W: fmt::Write>(&self, f: &mut fmt::Formatter<W>) -> fmt::Result {
        f.write_str(match self {
            UsageFault::Usage => "Usage",
            UsageFault::NoMemory => "NoMemory",
        })
    }
}

impl error::Error for UsageFault {}
