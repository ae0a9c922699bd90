// Civil times: read from digits, and the moments that they name.
ghost use Rattle.std.specs.Prelude.{◌≡◌, ◌<◌, ◌+◌, length, pos, true, IfOk};
ghost use Rattle.jiff_core.specs.Calendar.{days_in_month};
ghost use Rattle.der_core.specs.Times.{is_civil, pair_at, civil_at, generalized_of, utc_of};

use der_grammar::DerError;

/// A date with a time of day, to the second.
#[derive(Clone, Copy, Debug, PartialEq, Eq)]
pub struct Civil {
    pub year: u16,
    pub month: u8,
    pub day: u8,
    pub hour: u8,
    pub minute: u8,
    pub second: u8,
}

/// The start of 1970.
pub const EPOCH: Civil = Civil {
    year: 1970,
    month: 1,
    day: 1,
    hour: 0,
    minute: 0,
    second: 0,
};

/// The days of a month in the Gregorian calendar.
fn days_in(year: u16, month: u8) -> u8
    ensures { result ≡ days_in_month (pos year) month }
{
    if month == 2 {
        if year % 4 == 0 && (year % 100 != 0 || year % 400 == 0) {
            29
        } else {
            28
        }
    } else if month == 4 || month == 6 || month == 9 || month == 11 {
        30
    } else {
        31
    }
}

/// Whether it is a real date with a time of day.
pub fn is_real(civil: &Civil) -> bool
    ensures { result ≡ is_civil civil.now }
{
    civil.year < 10000
        && 0 < civil.month
        && civil.month < 13
        && 0 < civil.day
        && civil.day <= days_in(civil.year, civil.month)
        && civil.hour < 24
        && civil.minute < 60
        && civil.second < 60
}

/// The number of two digits; Value where they are none.
fn two_digits(bytes: &[u8], at: usize) -> Result<u8, DerError>
    requires { at + 1 < length bytes.now }
    ensures exact { result ≡ pair_at bytes.now at }
    ensures below { IfOk result (λ n. n < 100) }
{
    let (first, second) = (bytes[at], bytes[at + 1]);
    if 47 < first && first < 58 && 47 < second && second < 58 {
        Ok(10 * (first - 48) + (second - 48))
    } else {
        Err(DerError::Value)
    }
}

/// The rest of a civil time behind its year.
#[tactic(auto, unfolding(crate::specs::Times::civil_at))]
fn civil_in(year: u16, bytes: &[u8], at: usize) -> Result<Civil, DerError>
    requires { at + 10 < length bytes.now }
    ensures exact { result ≡ civil_at year bytes.now at }
    ensures real { IfOk result (λ c. is_civil c ≡ true) }
{
    if bytes[at + 10] != 90 {
        return Err(DerError::Value);
    }
    let civil = Civil {
        year,
        month: two_digits(bytes, at)?,
        day: two_digits(bytes, at + 2)?,
        hour: two_digits(bytes, at + 4)?,
        minute: two_digits(bytes, at + 6)?,
        second: two_digits(bytes, at + 8)?,
    };
    if is_real(&civil) {
        Ok(civil)
    } else {
        Err(DerError::Value)
    }
}

/// The civil time of a GeneralizedTime's contents; Value where they are none.
#[tactic(auto, unfolding(crate::specs::Times::generalized_of))]
pub fn generalized_in(bytes: &[u8]) -> Result<Civil, DerError>
    ensures exact { result ≡ generalized_of bytes.now }
    ensures short { IfOk result (λ c. length bytes.now < 16) }
    ensures real { IfOk result (λ c. is_civil c ≡ true) }
{
    if bytes.len() != 15 {
        return Err(DerError::Value);
    }
    let century = two_digits(bytes, 0)?;
    let year = two_digits(bytes, 2)?;
    match civil_in(100 * century as u16 + year as u16, bytes, 4) {
        Ok(civil) => Ok(civil),
        Err(refusal) => Err(refusal),
    }
}

/// The civil time of a UTCTime's contents; Value where they are none.
#[tactic(auto, unfolding(crate::specs::Times::utc_of))]
pub fn utc_in(bytes: &[u8]) -> Result<Civil, DerError>
    ensures exact { result ≡ utc_of bytes.now }
    ensures short { IfOk result (λ c. length bytes.now < 16) }
    ensures real { IfOk result (λ c. is_civil c ≡ true) }
{
    if bytes.len() != 13 {
        return Err(DerError::Value);
    }
    let year = two_digits(bytes, 0)? as u16;
    let year = if year < 50 { 2000 + year } else { 1900 + year };
    match civil_in(year, bytes, 2) {
        Ok(civil) => Ok(civil),
        Err(refusal) => Err(refusal),
    }
}
