// What a client's call is given.

use sigstore_keys::{CryptoProvider, Providers};
use sigstore_tuf_rules::UpdaterConfig;
use sigstore_types_parts::Armor;

/// Who decides signatures and who reads PEM, the limits, and the moment.
#[derive(Drop)]
pub struct Session<'s, C: CryptoProvider, M: Armor> {
    pub providers: Providers<'s, C, M>,
    pub config: &'s UpdaterConfig,
    pub moment: jiff::Timestamp,
}
