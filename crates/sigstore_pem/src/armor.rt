// PEM as the armour of keys and certificates.
ghost use Rattle.std.specs.Prelude.{◌≡◌, Some, IfOk};
ghost use Rattle.sigstore_pem.specs.Pem.{content_of, key_label, certificate_label, is_armored_text};
ghost use Rattle.sigstore_pem.specs.Written.{certificate_text};

use crate::block::{content, opening};
use crate::written::certificate_text;
use foundation::NoMemory;
use sigstore_types_parts::{Armor, Bytes};
use std::alloc::Global;

/// The strict textual encoding of RFC 7468: a text holds what its first block holds, a key where that has
/// the label `PUBLIC KEY`, a certificate where it has the label `CERTIFICATE`.
#[derive(Drop)]
pub struct PemArmor;

impl Armor for PemArmor {
    ghost armored = { λ _. is_armored_text };

    ghost key_in = { λ _. content_of key_label };

    ghost certificate_in = { λ _. content_of certificate_label };

    #[tactic(auto, unfolding(crate::specs::Pem::is_armored_text))]
    fn is_armored(&self, text: &[u8]) -> bool {
        match opening(text) {
            Some((line, _)) => {
                line == b"-----BEGIN PUBLIC KEY-----".as_slice()
                    || line == b"-----BEGIN CERTIFICATE-----".as_slice()
            }
            None => false,
        }
    }

    #[tactic(auto, unfolding(crate::specs::Pem::content_of))]
    fn read_key(&self, alloc: Global, text: &[u8]) -> Result<Option<Bytes>, NoMemory> {
        Ok(content(
            alloc,
            b"-----BEGIN PUBLIC KEY-----",
            b"-----END PUBLIC KEY-----",
            text,
        )?)
    }

    #[tactic(auto, unfolding(crate::specs::Pem::content_of))]
    fn read_certificate(&self, alloc: Global, text: &[u8]) -> Result<Option<Bytes>, NoMemory> {
        Ok(content(
            alloc,
            b"-----BEGIN CERTIFICATE-----",
            b"-----END CERTIFICATE-----",
            text,
        )?)
    }

    fn write_certificate(&self, alloc: Global, der: &[u8]) -> Result<Bytes, NoMemory>
        ensures read { IfOk result (λ text. content_of certificate_label text ≡ Some der.now) }
        ensures exact { IfOk result (λ text. text ≡ certificate_text der.now) }
    {
        Ok(Bytes::from_vec(certificate_text(alloc, der)?))
    }
}
