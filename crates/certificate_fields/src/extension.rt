// The value of an extension.
ghost use Rattle.std.specs.Prelude.{◌≡◌, option_copied};
ghost use Rattle.x509_views.specs.Walk.{coming};
ghost use Rattle.certificate_fields.specs.Fields.{value_of};

use x509_views::Extensions;

/// The value of the extension with this identifier, of which a certificate has at most one (RFC 5280, 4.2); no memory is
/// taken.
pub fn extension_value<'a>(extensions: Extensions<'a>, oid: &[u8]) -> Option<&'a [u8]>
    ensures { option_copied result ≡ value_of oid.now (coming extensions.entry) }
{
    'extensions: for extension in extensions {
        if extension.oid == oid {
            return Some(extension.value);
        }
    }
    None
}
