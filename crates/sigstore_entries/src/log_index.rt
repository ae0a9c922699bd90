// Places of entries in a log.
ghost use Rattle.std.specs.Prelude.{◌≡◌, ◌-◌, ◌^◌, min, pos, Ok, Err};
ghost use Rattle.serde_json.specs.View.{view};
ghost use Rattle.sigstore_entries.specs.Numbers.{log_index_of, place_of, or_first};

use crate::number::unsigned;
use foundation::{Duplicate, NoMemory};
use serde_json::Value;
use sigstore_types_parts::{FromValue, TypesError, TypesMember};
use std::alloc::Global;

/// The first number that is no place (an int64 in the Sigstore protobuf specs).
const LIMIT: u64 = 9_223_372_036_854_775_808;

/// A place in a log, counted from 0 and below 2^63.
#[derive(Clone, Copy, Debug, PartialEq, Eq, Drop)]
pub struct LogIndex {
    value: u64,
}

impl LogIndex {
    /// This place. Errors: `Field` of `logIndex` from 2^63 on.
    pub fn new(value: u64) -> Result<LogIndex, TypesError>
        ensures { result ≡ log_index_of value }
    {
        if value >= LIMIT {
            return Err(TypesError::Field {
                member: TypesMember::LogIndex,
            });
        }
        Ok(LogIndex { value })
    }

    /// The place.
    pub fn get(self) -> u64
        ensures { result ≡ self.value }
    {
        self.value
    }

    /// The place as an `i64`, which it is below 2^63, as every place that `new` or a reading gives.
    pub fn as_i64(self) -> i64
        ensures { result ≡ pos (min self.value (2 ^ 63 - 1)) }
    {
        self.value.min(LIMIT - 1) as i64
    }
}

impl Duplicate for LogIndex {
    fn duplicate(&self, _alloc: Global) -> Result<LogIndex, NoMemory> {
        Ok(*self)
    }
}

impl FromValue<TypesError> for LogIndex {
    ghost reads = { place_of };

    #[tactic(auto, unfolding(crate::specs::Numbers::place_of))]
    fn from_value(_alloc: Global, value: &Value) -> Result<LogIndex, TypesError> {
        match unsigned(value) {
            Some(number) => if number < LIMIT {
                Ok(LogIndex { value: number })
            } else {
                Err(TypesError::Json)
            },
            None => Err(TypesError::Json),
        }
    }
}

// The place that was read, or the first one.
pub(crate) fn or_first(place: Option<LogIndex>) -> LogIndex
    ensures { result ≡ or_first place }
{
    match place {
        Some(place) => place,
        None => LogIndex { value: 0 },
    }
}
