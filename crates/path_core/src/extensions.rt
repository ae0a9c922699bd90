// A certificate's extensions; no memory is taken.
ghost use Rattle.std.specs.Prelude.{◌≡◌};
ghost use Rattle.std.specs.List.{list_any};
ghost use Rattle.der_grammar.specs.Types.{is_in};
ghost use Rattle.x509_views.specs.Walk.{coming};
ghost use Rattle.path_core.specs.Extensions.{known_numbers, is_known, is_unknown, has_unknown_critical};

use x509_views::{Extensions, NamedExtension};

fn is_known_number(last: u8) -> bool
    ensures { result ≡ is_in last known_numbers }
{
    last == 14
        || last == 15
        || last == 17
        || last == 19
        || last == 31
        || last == 32
        || last == 35
        || last == 37
}

// Whether an identifier is one of those under 2.5.29 that are known.
fn is_known(oid: &[u8]) -> bool
    ensures { result ≡ is_known oid.now }
{
    match oid {
        [first, second, last] => *first == 0x55 && *second == 0x1d && is_known_number(*last),
        _ => false,
    }
}

fn is_unknown(extension: &NamedExtension) -> bool
    ensures { result ≡ is_unknown extension.now.critical extension.now.oid.now }
{
    extension.critical && !is_known(extension.oid)
}

/// Whether a critical extension isn't known (RFC 5280, 4.2 and 6.1.4 (o)). Without this check a
/// certificate would be used against a restriction that its issuer wrote into it.
#[tactic(auto, unfolding(crate::specs::Extensions::has_unknown_critical))]
pub(crate) fn has_unknown_critical(extensions: Extensions) -> bool
    ensures { result ≡ has_unknown_critical (coming extensions.entry) }
{
    'extensions: for extension in extensions {
        if is_unknown(&extension) {
            return true;
        }
    }
    false
}
