// Why a text tells no witness, or a checkpoint isn't cosigned.
ghost use Rattle.std.specs.Prelude.{◌≡◌};
ghost use Rattle.log_witnesses.specs.Error.{number_of, name_of};
ghost use Rattle.log_witnesses.specs.declared.error.WitnessError.TheVariants.{NoMemory as Want};

use foundation::NoMemory;
use std::{error, fmt};

/// Why a text tells no witness, or a checkpoint isn't cosigned by enough of them.
#[derive(Debug, PartialEq, Eq, Drop)]
pub enum WitnessError {
    /// The text isn't a name, a key ID in hexadecimal and a key in base64, with a plus between them.
    Form,
    /// The key isn't of a witness: the octet 04, and the 32 octets of an Ed25519 key.
    KeyType,
    /// The key ID isn't that of the name and the key.
    KeyId,
    /// There are more than 64 witnesses.
    TooMany,
    /// Fewer different witnesses cosigned the checkpoint than are asked for.
    TooFew { asked: u64, found: u64 },
    /// An allocation was refused.
    NoMemory,
}

impl WitnessError {
    /// The number of this refusal.
    pub fn number(&self) -> u8
        ensures { result ≡ number_of self.now }
    {
        match self {
            WitnessError::Form => 1,
            WitnessError::KeyType => 2,
            WitnessError::KeyId => 3,
            WitnessError::TooMany => 4,
            WitnessError::TooFew { .. } => 5,
            WitnessError::NoMemory => 6,
        }
    }

    /// The name of this refusal, which is its Display text too.
    pub fn name(&self) -> &'static str
        ensures { result.now ≡ name_of self.now }
    {
        match self {
            WitnessError::Form => "Form",
            WitnessError::KeyType => "KeyType",
            WitnessError::KeyId => "KeyId",
            WitnessError::TooMany => "TooMany",
            WitnessError::TooFew { .. } => "TooFew",
            WitnessError::NoMemory => "NoMemory",
        }
    }
}

impl From<NoMemory> for WitnessError {
    ghost from_gives = { λ _ e. e ≡ Want };

    fn from(_: NoMemory) -> WitnessError {
        WitnessError::NoMemory
    }
}

impl fmt::Display for WitnessError {
    fn fmt<W: fmt::Write>(&self, f: &mut fmt::Formatter<W>) -> fmt::Result {
        f.write_str(self.name())
    }
}

impl error::Error for WitnessError {}
