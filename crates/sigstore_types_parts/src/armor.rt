// What an armoured text holds: it is handed in.
ghost use Rattle.std.specs.Prelude.{◌≡◌, ℕ, List, Bool, Option, Some, IfOk};

use crate::bytes::Bytes;
use foundation::NoMemory;
use std::alloc::Global;

/// Reads and writes armoured texts. Its three readings are functions of the text, and the certificate
/// that is read of what was written is the one that was written.
pub trait Armor {
    ghost armored: { Self → List ℕ → Bool };

    ghost key_in: { Self → List ℕ → Option (List ℕ) };

    ghost certificate_in: { Self → List ℕ → Option (List ℕ) };

    /// Whether a text is armoured.
    fn is_armored(&self, text: &[u8]) -> bool
        ensures { result ≡ armored self.now text.now };

    /// The key that a text holds, as a SubjectPublicKeyInfo in DER, or none.
    fn read_key(&self, alloc: Global, text: &[u8]) -> Result<Option<Bytes>, NoMemory>
        ensures { IfOk result (λ key. key ≡ key_in self.now text.now) };

    /// The certificate that a text holds, in DER, or none.
    fn read_certificate(&self, alloc: Global, text: &[u8]) -> Result<Option<Bytes>, NoMemory>
        ensures { IfOk result (λ certificate. certificate ≡ certificate_in self.now text.now) };

    /// An armoured text of a certificate in DER.
    fn write_certificate(&self, alloc: Global, der: &[u8]) -> Result<Bytes, NoMemory>
        ensures { IfOk result (λ text. certificate_in self.now text ≡ Some der.now) };
}
