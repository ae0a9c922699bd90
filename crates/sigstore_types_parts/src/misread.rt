// Why a JSON value isn't read.
ghost use Rattle.std.specs.Prelude.{◌≡◌};
ghost use Rattle.sigstore_types_parts.specs.declared.misread.Misread.TheVariants.{NoMemory};

use foundation::NoMemory;

/// Why a JSON value isn't read: another JSON type, a text that isn't base64 or hexadecimal, a wrong
/// length, or want of memory.
#[derive(Clone, Copy, Debug, PartialEq, Eq, Drop)]
pub enum Misread {
    Shape,
    Base64,
    Hex,
    Length { expected: u64, actual: u64 },
    NoMemory,
}

impl From<NoMemory> for Misread {
    ghost from_gives = { λ _ e. e ≡ NoMemory };

    fn from(_: NoMemory) -> Misread {
        Misread::NoMemory
    }
}

/// A crate's error, which says what each misreading is.
pub trait Refusal: Sized + Drop {
    ghost use Rattle.sigstore_types_parts.specs.declared.misread.Misread.{Misread};

    ghost of: { Misread → Self };

    /// The refusal of a misreading.
    fn of_misread(misread: Misread) -> Self
        ensures { result ≡ of misread };
}

impl Refusal for Misread {
    ghost of = { λ m. m };

    fn of_misread(misread: Misread) -> Misread {
        misread
    }
}
