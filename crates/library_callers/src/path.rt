//! A caller of `path_core`.
use foundation::Sequence;
use jiff::Timestamp;
use path_core::{Anchor, PathError, PathRequest, Purpose, Steps, find_path};
use sigstore_keys::CryptoProvider;
use sigstore_types_parts::{Bytes, DerCertificate};
use std::alloc::Global;

/// Roots that are trusted at any moment.
pub fn anchors_of(alloc: Global, roots: &[DerCertificate]) -> Result<Sequence<Anchor>, PathError> {
    let mut anchors = Sequence::new(alloc);
    for root in roots {
        anchors.push(Anchor::from_certificate(alloc, root, None)?)?;
    }
    Ok(anchors)
}

/// The key that issued a certificate for the signing of code, where a path leads to one of the roots.
pub fn issuer_key<C: CryptoProvider>(
    alloc: Global,
    provider: &C,
    leaf: &DerCertificate,
    intermediates: &[DerCertificate],
    roots: &[Anchor],
    at: Timestamp,
) -> Result<Bytes, PathError> {
    let request = PathRequest {
        provider,
        leaf,
        intermediates,
        anchors: roots,
        purpose: Purpose::CodeSigning,
        at,
    };
    let mut steps = Steps::new();
    let path = find_path(alloc, &request, &mut steps)?;
    Ok(path.issuer_spki)
}
