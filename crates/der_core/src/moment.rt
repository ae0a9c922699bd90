// Moments that civil times of UTC name.
ghost use Rattle.std.specs.Prelude.{◌≡◌, true, IfSome, IfNone};
ghost use Rattle.jiff_core.specs.DateTime.{civil_nanos};
ghost use Rattle.der_core.specs.Times.{is_civil, nanos_of, nearest, instant_of_civil, IsWithinSecond};
ghost use Rattle.der_core.specs.declared.civil.Civil.{Civil as CivilTime};

use crate::civil::{Civil, is_real};
use jiff::Timestamp;
use jiff_core::civil::{Date, DateTime, Time};

/// The instant that many nanoseconds after the start of 1970, or the nearest one.
fn at_nanosecond(nanosecond: i128) -> Timestamp
    ensures { result.nanosecond ≡ nearest nanosecond }
{
    match Timestamp::from_nanosecond(nanosecond) {
        Ok(moment) => moment,
        Err(_) => {
            if nanosecond < 0 {
                Timestamp::MIN
            } else {
                Timestamp::MAX
            }
        }
    }
}

/// The civil time as a date with a time of day of `jiff`.
#[tactic(auto, unfolding(crate::specs::Times::nanos_of))]
fn datetime_of(civil: &Civil) -> DateTime
    requires { is_civil civil.now ≡ true }
    ensures { civil_nanos result ≡ nanos_of civil.now }
{
    DateTime {
        date: Date {
            year: civil.year as i16,
            month: civil.month,
            day: civil.day,
        },
        time: Time {
            hour: civil.hour,
            minute: civil.minute,
            second: civil.second,
            subsec_nanosecond: 0,
        },
    }
}

/// The moment of a civil time of UTC, or the nearest one that there is.
pub fn moment_of(civil: &Civil) -> Timestamp
    requires { is_civil civil.now ≡ true }
    ensures { result.nanosecond ≡ nearest (nanos_of civil.now) }
{
    at_nanosecond(datetime_of(civil).to_nanosecond())
}

impl Civil {
    /// The moment of this time of UTC, or the nearest one in the range of `Timestamp`; the least one
    /// where this is no real date with a time of day.
    pub fn moment(&self) -> Timestamp
        ensures { result.nanosecond ≡ instant_of_civil self.now }
    {
        if is_real(self) {
            moment_of(self)
        } else {
            Timestamp::MIN
        }
    }
}

/// The civil time of UTC in whose second a moment lies; None before the year 0.
pub fn civil_of(moment: Timestamp) -> Option<Civil>
    ensures found { IfSome result (λ c. (is_civil c ≡ true) × IsWithinSecond moment.nanosecond c) }
    ensures none { IfNone result ((c : CivilTime) → is_civil c ≡ true → IsWithinSecond moment.nanosecond c → ⊥) }
{
    match DateTime::from_nanosecond(moment.as_nanosecond()) {
        Ok(datetime) if datetime.date.year >= 0 => Some(Civil {
            year: datetime.date.year as u16,
            month: datetime.date.month,
            day: datetime.date.day,
            hour: datetime.time.hour,
            minute: datetime.time.minute,
            second: datetime.time.second,
        }),
        _ => None,
    }
}
