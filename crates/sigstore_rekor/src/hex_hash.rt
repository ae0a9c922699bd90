// SHA-256 values in hexadecimal.
ghost use Rattle.std.specs.Prelude.{◌≡◌, Ok, Err, IfOk};
ghost use Rattle.sigstore_rekor.specs.LogEntry.{hex_hash_of};
ghost use Rattle.sigstore_rekor.specs.Refused.{refused_of};

use crate::refused::refused;
use foundation::{Duplicate, NoMemory, Sequence};
use serde_json::Value;
use sigstore_rekor_parts::{Error, sha256_from_hex};
use sigstore_types_parts::{FromValue, Sha256Hash, Text};
use std::alloc::Global;
use std::marker::Model;

// A SHA-256 value that is written in hexadecimal, seen as its bytes.
#[derive(Drop)]
pub(crate) struct HexSha256 {
    hash: Sha256Hash,
}

impl Model for HexSha256 {
    ghost use Rattle.std.specs.Prelude.{ℕ, List};

    ghost Value = { List ℕ };

    ghost view = { λ h. h.hash };
}

impl HexSha256 {
    // The value.
    pub(crate) fn into_hash(self) -> Sha256Hash
        ensures { result ≡ self }
    {
        let HexSha256 { hash } = self;
        hash
    }

    fn copied(&self, alloc: Global) -> Result<Sha256Hash, NoMemory>
        ensures { IfOk result (λ hash. hash ≡ self.now) }
    {
        self.hash.duplicate(alloc)
    }
}

impl FromValue<Error> for HexSha256 {
    ghost reads = { hex_hash_of };

    #[tactic(auto, unfolding(crate::specs::LogEntry::hex_hash_of))]
    fn from_value(alloc: Global, value: &Value) -> Result<HexSha256, Error> {
        let text: Text = match Text::from_value(alloc, value) {
            Ok(text) => text,
            Err(e) => return Err(e),
        };
        match sha256_from_hex(text.as_str()) {
            Ok(hash) => Ok(HexSha256 { hash }),
            Err(e) => Err(refused(e)),
        }
    }
}

// The values of a list.
pub(crate) fn hashes(
    alloc: Global,
    items: &Sequence<HexSha256>,
) -> Result<Sequence<Sha256Hash>, NoMemory>
    ensures { IfOk result (λ list. list ≡ items.now) }
{
    copies(alloc, items.as_slice())
}

fn copies(alloc: Global, items: &[HexSha256]) -> Result<Sequence<Sha256Hash>, NoMemory>
    ensures { IfOk result (λ list. list ≡ items.now) }
{
    let mut list = Sequence::new(alloc);
    for item in items {
        list.push(item.copied(alloc)?)?;
    }
    Ok(list)
}
