// What a program is told.
ghost use Rattle.std.specs.Prelude.{◌≡◌, IfOk, IfErr, pos};

use foundation::NoMemory;
use jiff::Timestamp;
use sigstore_types_parts::Text;
use std::env;
use std::io::ErrorKind;
use std::rt::Runtime;

/// The words of the command; none where an argument isn't UTF-8.
pub fn words_of<X: Runtime + AllocGlobal>(rt: &X) -> Result<Vec<Text>, NoMemory> {
    let mut words = Vec::new(rt.alloc());
    match env::args(rt) {
        Ok(arguments) => for argument in arguments.skip(1) {
            words.push(Text::from_string(argument))?;
        },
        Err(e) if e.kind() == ErrorKind::OutOfMemory => return Err(NoMemory),
        Err(_) => (),
    }
    Ok(words)
}

/// The instant that a clock told; where it failed the latest one, at which every document is expired. So a
/// program whose clock fails accepts nothing, and never takes an old state for today's.
pub fn told_or_latest<E: Drop>(told: Result<Timestamp, E>) -> Timestamp
    ensures told { IfOk told (λ now. result ≡ now) }
    ensures latest { IfErr told (λ e. result.nanosecond ≡ pos 253_402_207_200_999_999_999) }
{
    match told {
        Ok(now) => now,
        Err(_) => Timestamp::MAX,
    }
}

/// The clock's instant, or the latest one.
pub fn clock_of<X: Runtime>(rt: &X) -> Timestamp {
    told_or_latest(Timestamp::now(rt))
}
