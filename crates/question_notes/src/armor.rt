// An armour that notes.
ghost use Rattle.sigstore_pem.specs.Pem.{content_of, key_label, certificate_label, is_armored_text};

use crate::notes::Notes;
use foundation::NoMemory;
use sigstore_pem::PemArmor;
use sigstore_types_parts::{Armor, Bytes};
use std::alloc::Global;

/// Reads and writes texts as `PemArmor` does, and notes each text that holds a key or a certificate.
#[derive(Drop)]
pub struct NotingArmor<'a> {
    notes: &'a Notes<'a>,
}

impl<'a> NotingArmor<'a> {
    /// An armour that notes here.
    pub fn new(notes: &'a Notes<'a>) -> NotingArmor<'a> {
        NotingArmor { notes }
    }
}

impl Armor for NotingArmor<'_> {
    ghost armored = { λ _. is_armored_text };

    ghost key_in = { λ _. content_of key_label };

    ghost certificate_in = { λ _. content_of certificate_label };

    fn is_armored(&self, text: &[u8]) -> bool {
        PemArmor.is_armored(text)
    }

    fn read_key(&self, alloc: Global, text: &[u8]) -> Result<Option<Bytes>, NoMemory> {
        let read = PemArmor.read_key(alloc, text)?;
        if let Some(der) = &read {
            self.notes.note_key(text, der.as_bytes());
        }
        Ok(read)
    }

    fn read_certificate(&self, alloc: Global, text: &[u8]) -> Result<Option<Bytes>, NoMemory> {
        let read = PemArmor.read_certificate(alloc, text)?;
        if let Some(der) = &read {
            self.notes.note_certificate(text, der.as_bytes());
        }
        Ok(read)
    }

    fn write_certificate(&self, alloc: Global, der: &[u8]) -> Result<Bytes, NoMemory> {
        PemArmor.write_certificate(alloc, der)
    }
}
