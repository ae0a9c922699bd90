// Who decides signatures and who reads PEM, handed on together.

use crate::provider::CryptoProvider;
use sigstore_types_parts::Armor;

/// Who decides signatures, and who reads PEM (RFC 7468).
#[derive(Drop)]
pub struct Providers<'p, C: CryptoProvider, M: Armor> {
    pub provider: &'p C,
    pub armor: &'p M,
}
