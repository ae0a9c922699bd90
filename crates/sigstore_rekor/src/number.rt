// Numbers of a log's answers.
ghost use Rattle.std.specs.Prelude.{◌≡◌, Ok, Err};
ghost use Rattle.serde_json.specs.View.{view};
ghost use Rattle.sigstore_rekor.specs.LogEntry.{placed_of, seconds_of, tree_size_of};

use serde_json::Value;
use sigstore_entries::LogIndex;
use sigstore_rekor_parts::{Error, ResponseRule};
use sigstore_types_parts::{FromValue, TypesError};
use std::alloc::Global;

/// The first number that is no tree's size (an int64 in the Sigstore protobuf specs).
const LIMIT: u64 = 9_223_372_036_854_775_808;

// A place in a log, as it is written.
#[derive(Drop)]
pub(crate) struct Placed {
    pub(crate) index: LogIndex,
}

impl FromValue<Error> for Placed {
    ghost reads = { placed_of };

    #[tactic(auto, unfolding(crate::specs::LogEntry::placed_of))]
    fn from_value(alloc: Global, value: &Value) -> Result<Placed, Error> {
        match <LogIndex as FromValue<TypesError>>::from_value(alloc, value) {
            Ok(index) => Ok(Placed { index }),
            Err(TypesError::NoMemory) => Err(Error::NoMemory),
            Err(_) => Err(Error::InvalidResponse {
                rule: ResponseRule::Shape,
            }),
        }
    }
}

// Seconds since 1970, as they are written.
#[derive(Drop)]
pub(crate) struct Seconds {
    pub(crate) seconds: i64,
}

impl FromValue<Error> for Seconds {
    ghost reads = { seconds_of };

    #[tactic(auto, unfolding(crate::specs::LogEntry::seconds_of))]
    fn from_value(_alloc: Global, value: &Value) -> Result<Seconds, Error> {
        match value.as_i64() {
            Some(seconds) => Ok(Seconds { seconds }),
            None => Err(Error::InvalidResponse {
                rule: ResponseRule::Shape,
            }),
        }
    }
}

// How many entries a tree has, as it is written.
#[derive(Drop)]
pub(crate) struct TreeSize {
    pub(crate) size: u64,
}

impl FromValue<Error> for TreeSize {
    ghost reads = { tree_size_of };

    #[tactic(auto, unfolding(crate::specs::LogEntry::tree_size_of))]
    fn from_value(_alloc: Global, value: &Value) -> Result<TreeSize, Error> {
        match value.as_u64() {
            Some(size) if size < LIMIT => Ok(TreeSize { size }),
            _ => Err(Error::InvalidResponse {
                rule: ResponseRule::Shape,
            }),
        }
    }
}
