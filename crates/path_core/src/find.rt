// The search for the first path.
ghost use Rattle.std.specs.Prelude.{◌≡◌, ◌≢◌, ◌+◌, ◌-◌, ◌*◌, ◌^◌, ◌≤◌, [], ◌∷◌, IfOk, IfErr, Ok, Err, length, option_copied};
ghost use Rattle.path_core.specs.declared.error.PathError.TheVariants as paths;
ghost use Rattle.path_core.specs.declared.error.LeafFault.{LeafFault};
ghost use Rattle.path_core.specs.declared.route.Route.{Route};
ghost use Rattle.path_core.specs.Counts.{Counts};
ghost use Rattle.path_core.specs.Judged.{AreRight, Keeps, Decides};
ghost use Rattle.path_core.specs.Level.{IsLevel};
ghost use Rattle.path_core.specs.Path.{path_of};
ghost use Rattle.path_core.specs.Paths.{First, IsFound, route_of, follows_leaf, spki_at};
ghost use Rattle.path_core.specs.Refusal.{Refuses};
ghost use Rattle.path_core.specs.Search.{setting_of, setting_for};
ghost use Rattle.path_core.specs.Traits.{leaf_of};

use crate::error::PathError;
use crate::given::PathInputs;
use crate::judgements::Judgements;
use crate::level::{Level, first_end, next_level};
use crate::purpose::Purpose;
use crate::request::PathRequest;
use crate::route::{FoundPath, Route};
use crate::seen::{Seen, read, read_anchors, read_each};
use crate::steps::Steps;
use crate::way::Way;
use foundation::{NoMemory, Sequence};
use sigstore_keys::CryptoProvider;
use sigstore_types_parts::Bytes;
use std::alloc::Global;

// The level of the leaf alone.
fn first_level(alloc: Global, positions: usize) -> Result<Level, NoMemory>
    ensures level { IfOk result (IsLevel positions) }
    ensures way { IfOk result (λ level. level.ways.items ≡ record { source = positions; positions = [] } ∷ []) }
{
    let mut level = Level::new(alloc, positions)?;
    level.ways.push(Way {
        source: positions,
        positions: Sequence::new(alloc),
    })?;
    Ok(level)
}

// The search, over judgements that are kept.
fn search<C: CryptoProvider>(
    alloc: Global,
    given: &PathInputs<C>,
    made: &mut Judgements,
) -> Result<Route, PathError>
    requires right { AreRight (setting_of C.accepts given.now) made.old }
    requires leaf { leaf_of given.now.purpose given.now.leaf.now ≡ Ok tt }
    ensures first { IfOk result (λ p. Decides (setting_of C.accepts given.now) made.new (λ v. First v p)) }
    ensures refused { IfErr result (λ e. Decides (setting_of C.accepts given.now) made.new (λ v. Refuses v e)) }
    ensures keeps { Keeps (setting_of C.accepts given.now) made.old made.new }
{
    let mut level = first_level(alloc, given.intermediates.len())?;
    'levels: for below in 0..6u8 {
        if let Some(found) = first_end(alloc, given, made, &level)? {
            return Ok(found);
        }
        let next = next_level(alloc, given, made, below, &level)?;
        level = next;
    }
    match first_end(alloc, given, made, &level)? {
        Some(found) => Ok(found),
        None => Err(PathError::NoPath),
    }
}

// The first intermediate of a route, or else its anchor.
fn issuer<'a, C: CryptoProvider>(given: &PathInputs<'a, C>, route: &Route) -> Option<&'a Seen<'a>>
    ensures { option_copied result ≡ follows_leaf (setting_of C.accepts given.now) route.now.positions route.now.anchor }
{
    match route.positions.as_slice() {
        [] => match given.anchors.get(route.anchor as usize) {
            Some(anchor) => Some(anchor.certificate()),
            None => None,
        },
        [position, ..] => given.intermediates.get(*position as usize),
    }
}

// The key of the certificate that follows the leaf.
fn issuer_spki<C: CryptoProvider>(
    alloc: Global,
    given: &PathInputs<C>,
    route: &Route,
) -> Result<Bytes, NoMemory>
    ensures { IfOk result (λ key. key ≡ spki_at (follows_leaf (setting_of C.accepts given.now) route.now.positions route.now.anchor)) }
{
    match issuer(given, route) {
        Some(issuer) => Ok(Bytes::new(alloc, issuer.spki())?),
        None => Ok(Bytes::new(alloc, &[])?),
    }
}

// The path of a route.
fn found<C: CryptoProvider>(
    alloc: Global,
    given: &PathInputs<C>,
    route: Route,
) -> Result<FoundPath, PathError>
    ensures route { IfOk result (λ p. route_of p ≡ route) }
    ensures key { IfOk result (λ p. p.issuer_spki ≡ spki_at (follows_leaf (setting_of C.accepts given.now) p.positions p.anchor)) }
    ensures err { IfErr result (λ e. e ≡ paths.NoMemory) }
{
    let issuer_spki = issuer_spki(alloc, given, &route)?;
    let Route { positions, anchor } = route;
    Ok(FoundPath {
        positions,
        anchor,
        issuer_spki,
    })
}

// The first path, over judgements that are kept.
fn seek_over<C: CryptoProvider>(
    alloc: Global,
    given: &PathInputs<C>,
    made: &mut Judgements,
) -> Result<FoundPath, PathError>
    requires right { AreRight (setting_of C.accepts given.now) made.old }
    requires leaf { leaf_of given.now.purpose given.now.leaf.now ≡ Ok tt }
    ensures ok { IfOk result (λ p. Decides (setting_of C.accepts given.now) made.new (λ v. IsFound v p)) }
    ensures err { IfErr result (λ e. Decides (setting_of C.accepts given.now) made.new (λ v. Refuses v e)) }
    ensures keeps { Keeps (setting_of C.accepts given.now) made.old made.new }
{
    let route = search(alloc, given, made)?;
    Ok(found(alloc, given, route)?)
}

// The same from no judgement on, with the count that was there.
fn seek_anew<C: CryptoProvider>(
    alloc: Global,
    given: &PathInputs<C>,
    begun: Steps,
    steps: &mut Steps,
) -> Result<FoundPath, PathError>
    requires begun { begun ≡ steps.old }
    requires fits { begun ≤ 2 ^ 128 - 1 }
    requires leaf { leaf_of given.now.purpose given.now.leaf.now ≡ Ok tt }
    ensures ok { IfOk result (IsFound (setting_of C.accepts given.now)) }
    ensures err { IfErr result (Refuses (setting_of C.accepts given.now)) }
    ensures cost { steps.new ≤ steps.old + (length given.now.intermediates.now + 1) * (length given.now.intermediates.now + length given.now.anchors.now) }
    ensures rises { steps.old ≤ steps.new }
    ensures counted { Counts (setting_of C.accepts given.now) steps.old steps.new result }
{
    let mut made = Judgements::new(alloc, begun);
    let answer = seek_over(alloc, given, &mut made);
    let counted = made.steps.copied();
    *steps = counted;
    answer
}

// A leaf's own properties come first: without them no path is sought.
fn check_leaf(leaf: &Seen, purpose: Purpose) -> Result<(), PathError>
    ensures ok { IfOk result (λ x. leaf_of purpose leaf.now ≡ Ok tt) }
    ensures err { IfErr result (λ e. (fault : LeafFault) × (e ≡ paths.Leaf fault) × (leaf_of purpose leaf.now ≡ Err fault)) }
{
    match leaf.judge_leaf(purpose) {
        Ok(()) => Ok(()),
        Err(fault) => Err(PathError::Leaf(fault)),
    }
}

// Each certificate is read once, and then the search.
#[tactic(auto, using(crate::proofs::Counting::none_counted))]
fn seek<C: CryptoProvider>(
    alloc: Global,
    request: &PathRequest<C>,
    steps: &mut Steps,
) -> Result<FoundPath, PathError>
    ensures ok { IfOk result (IsFound (setting_for C.accepts request.now)) }
    ensures err { IfErr result (Refuses (setting_for C.accepts request.now)) }
    ensures cost { steps.new ≤
        steps.old + (length request.now.intermediates.now + 1) * (length request.now.intermediates.now + length request.now.anchors.now) }
    ensures rises { steps.old ≤ steps.new }
    ensures counted { Counts (setting_for C.accepts request.now) steps.old steps.new result }
{
    let begun = steps.copied();
    let leaf = read(alloc, request.leaf.as_bytes())?;
    check_leaf(&leaf, request.purpose)?;
    let intermediates = read_each(alloc, request.intermediates)?;
    let anchors = read_anchors(alloc, request.anchors)?;
    let given = PathInputs {
        provider: request.provider,
        leaf: &leaf,
        intermediates: intermediates.as_slice(),
        anchors: anchors.as_slice(),
        purpose: request.purpose,
        at: request.at,
    };
    match seek_anew(alloc, &given, begun, steps) {
        Ok(found) => Ok(found),
        Err(e) => Err(e),
    }
}

/// The first path from the leaf over intermediates to an anchor (RFC 5280, section 6), for a purpose at a
/// moment: the least by the number of intermediates, then by their positions, then by the anchor's. Each
/// certificate is read once, and `steps`, the count of judgements, grows by one for each pair that was judged,
/// none of them twice.
/// Errors, in order: `Leaf` with the first property that the leaf lacks; `NoPath` where there is none.
#[tactic(auto, using(crate::proofs::FirstPath::refused_is))]
pub fn find_path<C: CryptoProvider>(
    alloc: Global,
    request: &PathRequest<C>,
    steps: &mut Steps,
) -> Result<FoundPath, PathError>
    ensures ok { IfOk result (IsFound (setting_for C.accepts request.now)) }
    ensures err { IfErr result (Refuses (setting_for C.accepts request.now)) }
    ensures cost { steps.new ≤
        steps.old + (length request.now.intermediates.now + 1) * (length request.now.intermediates.now + length request.now.anchors.now) }
    ensures rises { steps.old ≤ steps.new }
    ensures counted { Counts (setting_for C.accepts request.now) steps.old steps.new result }
    ensures path { IfOk result (λ p. path_of (setting_for C.accepts request.now) ≡ Ok p) }
    ensures refusal { IfErr result (λ e. e ≢ PathError.NoMemory → path_of (setting_for C.accepts request.now) ≡ Err e) }
{
    match seek(alloc, request, steps) {
        Ok(found) => Ok(found),
        Err(refusal) => Err(refusal),
    }
}
