// What a search is given.
ghost use Rattle.std.specs.Prelude.{◌≡◌, ◌+◌, ◌<◌, length};
ghost use Rattle.path_core.specs.Search.{setting_of, source_at, target_at};

use crate::purpose::Purpose;
use crate::seen::{Seen, SeenAnchor};
use jiff::Timestamp;
use sigstore_keys::CryptoProvider;

/// What a search is given, by reference.
#[derive(Drop)]
pub(crate) struct PathInputs<'a, C> {
    pub(crate) provider: &'a C,
    pub(crate) leaf: &'a Seen<'a>,
    pub(crate) intermediates: &'a [Seen<'a>],
    pub(crate) anchors: &'a [SeenAnchor<'a>],
    pub(crate) purpose: Purpose,
    pub(crate) at: Timestamp,
}

/// The certificate of a source: an intermediate by its position, or the leaf.
pub(crate) fn source_of<'a, C: CryptoProvider>(
    given: &PathInputs<'a, C>,
    place: usize,
) -> &'a Seen<'a>
    ensures { result.now ≡ source_at (setting_of C.accepts given.now) place }
{
    if place < given.intermediates.len() {
        &given.intermediates[place]
    } else {
        given.leaf
    }
}

/// The certificate of a target: an intermediate by its position, and then an anchor.
pub(crate) fn target_of<'a, C: CryptoProvider>(
    given: &PathInputs<'a, C>,
    place: usize,
) -> &'a Seen<'a>
    requires { place < length given.now.intermediates.now + length given.now.anchors.now }
    ensures { result.now ≡ target_at (setting_of C.accepts given.now) place }
{
    if place < given.intermediates.len() {
        &given.intermediates[place]
    } else {
        given.anchors[place - given.intermediates.len()].certificate()
    }
}
