// The moment that a time tells.
ghost use Rattle.std.specs.Prelude.{◌≡◌};
ghost use Rattle.certificate_fields.specs.Fields.{moment_of};

use der_core::Civil;
use jiff::Timestamp;

/// The moment of a civil time of UTC, as certificates (RFC 5280, 4.1.2.5) and tokens (RFC 3161, 2.4.2) tell it.
#[tactic(auto, unfolding(crate::specs::Fields::moment_of))]
pub fn moment(civil: &Civil) -> Timestamp
    ensures { result ≡ moment_of civil.now }
{
    civil.moment()
}
