// What a bundle is judged by.

use crate::trust::Material;
use jiff::Timestamp;
use sigstore_keys::CryptoProvider;
use sigstore_types_parts::Armor;

/// Who decides signatures and reads armoured texts, what is kept of the trust file, and the moment.
#[derive(Drop)]
pub(crate) struct Grounds<'g, C: CryptoProvider, M: Armor> {
    pub(crate) provider: &'g C,
    pub(crate) armor: &'g M,
    pub(crate) material: &'g Material,
    pub(crate) moment: Timestamp,
}
