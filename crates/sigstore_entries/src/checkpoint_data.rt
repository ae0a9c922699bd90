// Checkpoints of inclusion proofs.
ghost use Rattle.std.specs.Prelude.{◌≡◌, ◌≢◌, Ok, Err, option_map, is_some, not, IfOk, IfErr};
ghost use Rattle.sigstore_entries.specs.Entry.{checkpoint_data_of, envelope_text_of, envelope_of, or_no_checkpoint};

use crate::checkpoint::{Checkpoint, read_checkpoint};
use foundation::{Duplicate, NoMemory};
use serde_json::Value;
use sigstore_types_parts::{Bytes, FromValue, Text, TypesError, TypesMember, required};
use std::alloc::Global;

/// The checkpoint of an inclusion proof; the empty text where there is none.
#[derive(PartialEq, Drop)]
pub struct CheckpointData {
    checkpoint: Option<Checkpoint>,
}

impl CheckpointData {
    /// The checkpoint that a text is, or none of the empty text; keeps the text. Errors: `Checkpoint` with
    /// the rule that the first wrong line breaks.
    pub fn new(alloc: Global, text: Bytes) -> Result<CheckpointData, TypesError>
        ensures ok { IfOk result (λ d. checkpoint_data_of text ≡ Ok d) }
        ensures err { IfErr result (λ e. e ≢ TypesError.NoMemory → checkpoint_data_of text ≡ Err e) }
    {
        if text.as_bytes().is_empty() {
            return Ok(CheckpointData { checkpoint: None });
        }
        Ok(CheckpointData {
            checkpoint: Some(read_checkpoint(alloc, text.as_bytes())?),
        })
    }

    /// The text that was read.
    pub fn envelope(&self) -> &[u8]
        ensures { result.now ≡ envelope_text_of self.now }
    {
        match &self.checkpoint {
            Some(checkpoint) => checkpoint.text(),
            None => &[],
        }
    }

    /// The checkpoint, unless the text is empty.
    pub fn checkpoint(&self) -> Option<&Checkpoint>
        ensures { option_map (λ c. c.now) result ≡ self.now.checkpoint }
    {
        self.checkpoint.as_ref()
    }

    /// Whether the text is empty.
    pub fn is_empty(&self) -> bool
        ensures { result ≡ not (is_some self.now.checkpoint) }
    {
        self.checkpoint.is_none()
    }
}

impl Duplicate for CheckpointData {
    fn duplicate(&self, alloc: Global) -> Result<CheckpointData, NoMemory> {
        Ok(CheckpointData {
            checkpoint: self.checkpoint.duplicate(alloc)?,
        })
    }
}

impl FromValue<TypesError> for CheckpointData {
    ghost reads = { envelope_of };

    #[tactic(auto, unfolding(crate::specs::Entry::envelope_of))]
    fn from_value(alloc: Global, value: &Value) -> Result<CheckpointData, TypesError> {
        let envelope: Text = required(alloc, value, TypesMember::Envelope)?;
        Ok(CheckpointData::new(alloc, bytes_of(envelope))?)
    }
}

// The checkpoint that was read, or the empty text.
pub(crate) fn or_no_checkpoint(checkpoint: Option<CheckpointData>) -> CheckpointData
    ensures { result ≡ or_no_checkpoint checkpoint }
{
    match checkpoint {
        Some(checkpoint) => checkpoint,
        None => CheckpointData { checkpoint: None },
    }
}

// The bytes of a text; takes no memory.
fn bytes_of(text: Text) -> Bytes
    ensures { result ≡ text }
{
    Bytes::from_vec(text.into_string().into_bytes())
}
