// Names of keys.
ghost use Rattle.std.specs.Prelude.{◌≡◌};
ghost use Rattle.sigstore_envelopes.specs.Envelope.{key_id_of};

use foundation::{Duplicate, NoMemory};
use sigstore_types_parts::Text;
use std::alloc::Global;

/// The name of a key, as a signature tells it without a proof (DSSE, "keyid").
#[derive(Debug, PartialEq, Drop)]
pub struct KeyId {
    text: Text,
}

impl KeyId {
    /// The name that a text is; takes no memory.
    pub fn new(text: Text) -> KeyId
        ensures { result.text ≡ text }
    {
        KeyId { text }
    }

    /// The name.
    pub fn as_str(&self) -> &str
        ensures { result.now ≡ self.now.text }
    {
        self.text.as_str()
    }
}

impl Duplicate for KeyId {
    fn duplicate(&self, alloc: Global) -> Result<KeyId, NoMemory> {
        Ok(KeyId {
            text: self.text.duplicate(alloc)?,
        })
    }
}

// The name that was read, or the empty one.
pub(crate) fn key_id(alloc: Global, text: Option<Text>) -> KeyId
    ensures { result ≡ key_id_of text }
{
    match text {
        Some(text) => KeyId { text },
        None => KeyId {
            text: Text::from_string(String::new(alloc)),
        },
    }
}
