//! Whether a log's tree grew from an older one (RFC 6962, section 2.1.2), and what both trees' leaves show of it; paths and
//! proofs from a log's tiles (C2SP tlog-tiles), and the audit of two checkpoints by them.
#![tactic(auto)]

mod auditing;
mod compare;
mod error;
mod file_tiles;
mod grown;
mod judge;
mod memory_tiles;
mod node;
mod parts;
mod place;
mod proving;
mod reading;
mod source;
mod split;
mod whole;

pub use auditing::{Growth, audit};
pub use compare::{Compared, compare_trees};
pub use error::{TileError, WhichTree};
pub use file_tiles::{FileTiles, tile_file};
pub use judge::verify_consistency;
pub use memory_tiles::MemoryTiles;
pub use proving::{consistency, inclusion};
pub use source::{TileFault, TileSource};
pub use whole::tree_hash;
