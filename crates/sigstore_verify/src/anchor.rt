// From what a chain of documents is trusted.

use jiff::Timestamp;
use sigstore_keys::{CryptoProvider, Providers};
use sigstore_tuf::UpdaterConfig;
use sigstore_types_parts::Armor;

/// From what a chain of documents is trusted: who decides signatures and reads PEM, the pinned root's text, the client's
/// limits, and the moment.
#[derive(Drop)]
pub struct Anchor<'a, C: CryptoProvider, M: Armor> {
    pub providers: Providers<'a, C, M>,
    pub root: &'a [u8],
    pub config: UpdaterConfig,
    pub now: Timestamp,
}
