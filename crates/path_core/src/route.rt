// A path that was found.
use foundation::Sequence;
use sigstore_types_parts::Bytes;

/// The positions of a path's intermediates, from the leaf on, and its anchor's.
#[derive(Drop)]
pub struct Route {
    /// The intermediates' positions.
    pub positions: Sequence<u64>,
    /// The anchor's position.
    pub anchor: u64,
}

/// The first path, with the key of the certificate that issued the leaf.
#[derive(Drop)]
pub struct FoundPath {
    /// The intermediates' positions.
    pub positions: Sequence<u64>,
    /// The anchor's position.
    pub anchor: u64,
    /// The SubjectPublicKeyInfo of the certificate that follows the leaf.
    pub issuer_spki: Bytes,
}
