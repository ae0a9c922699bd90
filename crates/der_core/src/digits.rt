// Civil times as digits.
ghost use Rattle.std.specs.Prelude.{◌≡◌, ◌≤◌, ◌<◌, ◌+◌, ◌/◌, ◌%◌, ◌++◌, ◌∷◌, [], ℕ, List, true, length, IfOk, IfErr, Ok};
ghost use Rattle.der_grammar.specs.declared.error.DerError.TheVariants.{Value as BadValue};
ghost use Rattle.der_core.specs.Times.{digits, rest_digits, is_civil, generalized_of, utc_of};

use crate::civil::Civil;
use arrayvec::ArrayVec;
use der_grammar::DerError;

/// The contents of a time.
pub type Contents = ArrayVec<u8, 15>;

fn append_pair(number: u8, out: &mut Contents)
    requires small { number < 100 }
    requires room { length out.old.items + 2 ≤ 15 }
    ensures { out.new.items ≡ out.old.items ++ digits number }
{
    out.push(48 + number / 10);
    out.push(48 + number % 10);
}

/// Appends month, day, hour, minute, second and Z.
fn append_rest(time: &Civil, out: &mut Contents)
    requires real { is_civil time.now ≡ true }
    requires room { length out.old.items ≤ 4 }
    ensures { out.new.items ≡ out.old.items ++ rest_digits time.now }
{
    append_pair(time.month, out);
    append_pair(time.day, out);
    append_pair(time.hour, out);
    append_pair(time.minute, out);
    append_pair(time.second, out);
    out.push(90);
}

/// The contents of a GeneralizedTime.
pub fn generalized_out(time: &Civil) -> Contents
    requires { is_civil time.now ≡ true }
    ensures { generalized_of result.items ≡ Ok time.now }
{
    let mut out = Contents::new();
    append_pair((time.year / 100) as u8, &mut out);
    append_pair((time.year % 100) as u8, &mut out);
    append_rest(time, &mut out);
    out
}

/// The contents of a UTCTime; Value exactly outside the years 1950 to 2049.
pub fn utc_out(time: &Civil) -> Result<Contents, DerError>
    requires { is_civil time.now ≡ true }
    ensures ok { IfOk result (λ out. utc_of out.items ≡ Ok time.now) }
    ensures err { IfErr result (λ e. (e ≡ BadValue) × ((bytes : List ℕ) → utc_of bytes ≡ Ok time.now → ⊥)) }
{
    if time.year < 1950 {
        return Err(DerError::Value);
    }
    if time.year > 2049 {
        return Err(DerError::Value);
    }
    let mut out = Contents::new();
    append_pair((time.year % 100) as u8, &mut out);
    append_rest(time, &mut out);
    Ok(out)
}
