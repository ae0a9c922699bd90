// Instants by a count since the start of 1970, as logs tell them.
ghost use Rattle.std.specs.Prelude.{◌≡◌, ◌*ℤ◌, pos};
ghost use Rattle.sigstore_types_parts.specs.Instant.{nearest, at_nanosecond, at_second, at_millisecond};

use jiff::Timestamp;

// The instant nearest to that many nanoseconds after the start of 1970.
fn nearest_instant(nanosecond: i128) -> Timestamp
    ensures { result.nanosecond ≡ nearest nanosecond }
{
    match Timestamp::from_nanosecond(nanosecond) {
        Ok(moment) => moment,
        Err(_) => {
            if nanosecond < 0 {
                Timestamp::MIN
            } else {
                Timestamp::MAX
            }
        }
    }
}

fn at_nanosecond(nanosecond: i128) -> Timestamp
    ensures { result ≡ at_nanosecond nanosecond }
{
    nearest_instant(nanosecond)
}

/// The instant that many seconds after the start of 1970, or the nearest that there is.
pub fn at_second(second: i64) -> Timestamp
    ensures { result ≡ at_second second }
{
    at_nanosecond(second as i128 * 1_000_000_000)
}

/// The instant that many milliseconds after the start of 1970, or the nearest that there is.
pub fn at_millisecond(millisecond: u64) -> Timestamp
    ensures { result ≡ at_millisecond millisecond }
{
    at_nanosecond(millisecond as i128 * 1_000_000)
}
