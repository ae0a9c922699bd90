// What a path is sought for.
use crate::anchor::Anchor;
use crate::purpose::Purpose;
use jiff::Timestamp;
use sigstore_types_parts::DerCertificate;

/// Who decides signatures, the certificates at hand, and what for and when a path is sought.
#[derive(Drop)]
pub struct PathRequest<'a, C> {
    pub provider: &'a C,
    pub leaf: &'a DerCertificate,
    pub intermediates: &'a [DerCertificate],
    pub anchors: &'a [Anchor],
    pub purpose: Purpose,
    pub at: Timestamp,
}
