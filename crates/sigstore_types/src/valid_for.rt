// Spans of time as they are written.
ghost use Rattle.std.specs.Prelude.{◌≡◌, ◌≢◌, Ok, Err, IfOk, IfErr, option_map};
ghost use Rattle.sigstore_types.specs.TrustedRoot.{or_earliest, valid_for_of, window_of};

use jiff::Timestamp;
use serde_json::Value;
use sigstore_types_parts::{FromValue, TimeRange, TypesError, TypesMember, optional};
use std::alloc::Global;

/// A span of time as it is written.
#[derive(Drop)]
pub(crate) struct ValidFor {
    range: TimeRange,
}

fn or_earliest(start: Option<Timestamp>) -> Timestamp
    ensures { result ≡ or_earliest start }
{
    match start {
        Some(start) => start,
        None => Timestamp::MIN,
    }
}

impl FromValue<TypesError> for ValidFor {
    ghost reads = { valid_for_of };

    #[tactic(auto, unfolding(crate::specs::TrustedRoot::valid_for_of))]
    fn from_value(alloc: Global, value: &Value) -> Result<ValidFor, TypesError> {
        let start: Option<Timestamp> = optional(alloc, value, TypesMember::Start)?;
        let end: Option<Timestamp> = optional(alloc, value, TypesMember::End)?;
        Ok(ValidFor {
            range: TimeRange {
                start: or_earliest(start),
                end,
            },
        })
    }
}

/// The span that was written.
pub(crate) fn window(valid_for: Option<ValidFor>) -> Option<TimeRange>
    ensures { result ≡ window_of valid_for }
{
    match valid_for {
        Some(valid_for) => Some(valid_for.range),
        None => None,
    }
}
