// Times of entries.
ghost use Rattle.std.specs.Prelude.{◌≡◌, Ok, Err};
ghost use Rattle.sigstore_entries.specs.Numbers.{time_of, unless_zero, known_time_of};

use crate::number::signed;
use serde_json::Value;
use sigstore_types_parts::{FromValue, TypesError};
use std::alloc::Global;

/// Seconds since 1970, as they are written.
#[derive(Drop)]
pub(crate) struct Time {
    seconds: i64,
}

impl FromValue<TypesError> for Time {
    ghost reads = { time_of };

    #[tactic(auto, unfolding(crate::specs::Numbers::time_of))]
    fn from_value(_alloc: Global, value: &Value) -> Result<Time, TypesError> {
        match signed(value) {
            Some(seconds) => Ok(Time { seconds }),
            None => Err(TypesError::Json),
        }
    }
}

fn unless_zero(seconds: i64) -> Option<i64>
    ensures { result ≡ unless_zero seconds }
{
    if seconds == 0 { None } else { Some(seconds) }
}

// The time that was written, if it is one.
pub(crate) fn known_time(time: Option<Time>) -> Option<i64>
    ensures { result ≡ known_time_of time }
{
    match time {
        Some(time) => unless_zero(time.seconds),
        None => None,
    }
}
