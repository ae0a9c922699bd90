// When an entry was logged.
ghost use Rattle.std.specs.Prelude.{◌≡◌};
ghost use Rattle.sigstore_binding.specs.Checks.{check_of};
ghost use Rattle.sigstore_binding.specs.Rows.{is_within, window_check};
ghost use Rattle.sigstore_binding.specs.Verifier.{signatory_as};

use crate::check::holds;
use crate::error::BindingError;
use crate::signed::SignedBy;
use sigstore_types_parts::at_second;

// The window of a certificate has a time, where one is told.
fn is_within(who: SignedBy<'_>, time: Option<i64>) -> bool
    ensures { result ≡ is_within (signatory_as who.entry) time }
{
    match (who, time) {
        (SignedBy::Certificate { validity, .. }, Some(second)) => {
            validity.contains(at_second(second))
        }
        _ => true,
    }
}

/// The entry was logged within the window of the signer's certificate; a key has none. Else an entry could be logged
/// after the certificate ended, by whoever found its key then. Error: `IntegratedTime`.
pub(crate) fn check_window(who: SignedBy<'_>, time: Option<i64>) -> Result<(), BindingError>
    ensures { result ≡ check_of (window_check (signatory_as who.entry) time) }
{
    holds(is_within(who, time), BindingError::IntegratedTime)
}
