// What one more question adds to what was noted.
ghost use Rattle.std.specs.Prelude.{◌≡◌, [], length, Some, IfOk, string_bytes};
ghost use Rattle.command_files.specs.Tables.{no_rows};
ghost use Rattle.question_notes.specs.Notes.{has_room, key_noted, certificate_noted, signature_noted};
ghost use Rattle.question_notes.specs.Seen.{seen_of};
ghost use Rattle.sigstore_pem.specs.Pem.{content_of, key_label, certificate_label};

use crate::lines::{push_accept_line, push_armor_line};
use crate::noted::Noted;
use command_files::{AcceptRow, Tables, is_der, is_subject};
use foundation::NoMemory;
use sigstore_keys::SigningScheme;
use sigstore_types_parts::Bytes;
use std::alloc::Global;

// The greatest length of a provider file in bytes.
const LIMIT: usize = 16_777_216;

// Whether a text has room for a line of these three fields.
fn has_room(text: &str, a: &[u8], b: &[u8], c: &[u8]) -> bool
    ensures { result ≡ has_room text.now (length a.now) (length b.now) (length c.now) }
{
    if text.len() > LIMIT || a.len() > LIMIT || b.len() > LIMIT || c.len() > LIMIT {
        return false;
    }
    text.len() + (2 * (a.len() + b.len() + c.len()) + 64) <= LIMIT
}

impl Noted {
    /// Nothing was noted; takes no memory.
    pub fn new(alloc: Global) -> Noted
        ensures tables { result.tables ≡ no_rows }
        ensures text { string_bytes result.text ≡ [] }
    {
        Noted {
            tables: Tables::new(alloc),
            text: String::new(alloc),
        }
    }

    /// Notes that an armoured text holds a key, where the text isn't noted yet, can be a row's and has room.
    pub fn with_key(self, alloc: Global, text: &[u8], der: &[u8]) -> Result<Noted, NoMemory>
        requires { content_of key_label text.now ≡ Some der.now }
        ensures { IfOk result (λ noted. seen_of noted ≡ key_noted text.now der.now (seen_of self)) }
    {
        if is_der(text)
            || self.tables.armor.keys.get(text).is_some()
            || !has_room(self.text.as_str(), text, der, &[])
        {
            return Ok(self);
        }
        let Noted {
            mut tables,
            text: mut lines,
        } = self;
        push_armor_line(alloc, &mut lines, "key", text, der)?;
        tables
            .armor
            .keys
            .insert(Bytes::new(alloc, text)?, Bytes::new(alloc, der)?)?;
        Ok(Noted {
            tables,
            text: lines,
        })
    }

    /// Notes that an armoured text holds a certificate, where the text isn't noted yet, can be a row's and has room.
    pub fn with_certificate(self, alloc: Global, text: &[u8], der: &[u8]) -> Result<Noted, NoMemory>
        requires { content_of certificate_label text.now ≡ Some der.now }
        ensures { IfOk result (λ noted. seen_of noted ≡ certificate_noted text.now der.now (seen_of self)) }
    {
        if is_der(text)
            || self.tables.armor.certificates.get(text).is_some()
            || !has_room(self.text.as_str(), text, der, &[])
        {
            return Ok(self);
        }
        let Noted {
            mut tables,
            text: mut lines,
        } = self;
        push_armor_line(alloc, &mut lines, "certificate", text, der)?;
        tables
            .armor
            .certificates
            .insert(Bytes::new(alloc, text)?, Bytes::new(alloc, der)?)?;
        Ok(Noted {
            tables,
            text: lines,
        })
    }

    /// Notes the question whether a signature is good, where it isn't noted yet, its subject is one
    /// that the scheme can have, and its line has room.
    pub fn with_signature(
        self,
        alloc: Global,
        scheme: SigningScheme,
        key: &[u8],
        subject: &[u8],
        signature: &[u8],
    ) -> Result<Noted, NoMemory>
        ensures { IfOk result (λ noted.
            seen_of noted ≡ signature_noted scheme key.now subject.now signature.now (seen_of self)) }
    {
        if !is_subject(scheme, subject)
            || self
                .tables
                .provider
                .accepts(scheme, key, subject, signature)
            || !has_room(self.text.as_str(), key, subject, signature)
        {
            return Ok(self);
        }
        let Noted {
            mut tables,
            text: mut lines,
        } = self;
        push_accept_line(alloc, &mut lines, scheme, key, subject, signature)?;
        let row = AcceptRow {
            scheme,
            key: Bytes::new(alloc, key)?,
            subject: Bytes::new(alloc, subject)?,
            signature: Bytes::new(alloc, signature)?,
        };
        tables.provider.add(alloc, row)?;
        Ok(Noted {
            tables,
            text: lines,
        })
    }
}
