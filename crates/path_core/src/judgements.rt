// Judgements of pairs, each made once.
ghost use Rattle.std.specs.Prelude.{◌≡◌, ◌+◌, ◌<◌, ◌≤◌, ◌-◌, ◌^◌, min, IfOk, OnOk, None, length};
ghost use Rattle.std.specs.Ordering.{nat_cmp};
ghost use Rattle.std.specs.BTreeMap.{get, ContainsKey, IsEmpty};
ghost use Rattle.path_core.specs.Counts.{width_of, place_of};
ghost use Rattle.path_core.specs.Search.{setting_of, judgement};
ghost use Rattle.path_core.specs.Judged.{AreRight, Keeps, Decides};

use crate::given::{PathInputs, source_of, target_of};
use crate::link::is_linked;
use crate::steps::Steps;
use foundation::NoMemory;
use sigstore_keys::CryptoProvider;
use std::alloc::Global;
use std::collections::BTreeMap;

/// The judgements that were made, by the place of source and target in their table, and the count.
#[derive(Drop)]
pub(crate) struct Judgements {
    judged: BTreeMap<u128, bool>,
    pub(crate) steps: Steps,
}

impl Judgements {
    /// None so far.
    pub(crate) fn new(alloc: Global, steps: Steps) -> Judgements
        ensures empty { IsEmpty result.judged }
        ensures steps { result.steps ≡ steps }
    {
        Judgements {
            judged: BTreeMap::new(alloc),
            steps,
        }
    }
}

// The place of a pair in the table.
fn place_of<C: CryptoProvider>(given: &PathInputs<C>, source: usize, target: usize) -> u128
    requires { source ≤ length given.now.intermediates.now }
    ensures { result ≡ place_of (setting_of C.accepts given.now) source target }
{
    let width = given.intermediates.len() as u128 + given.anchors.len() as u128;
    source as u128 * width + target as u128
}

// Judges a pair for the first time: the one place where a link is judged.
fn judge_pair<C: CryptoProvider>(
    made: &mut Judgements,
    given: &PathInputs<C>,
    place: u128,
    source: usize,
    target: usize,
) -> Result<bool, NoMemory>
    requires right { AreRight (setting_of C.accepts given.now) made.old }
    requires source { source ≤ length given.now.intermediates.now }
    requires target { target < width_of (setting_of C.accepts given.now) }
    requires place { place ≡ place_of (setting_of C.accepts given.now) source target }
    requires absent { get nat_cmp made.old.judged place ≡ None }
    ensures value { IfOk result (λ good. good ≡ judgement (setting_of C.accepts given.now) source target) }
    ensures kept { OnOk result (ContainsKey nat_cmp made.new.judged place) }
    ensures keeps { Keeps (setting_of C.accepts given.now) made.old made.new }
    ensures ticks { OnOk result (made.new.steps ≡ min (made.old.steps + 1) (2 ^ 128 - 1)) }
{
    // The place is taken before the judgement: where memory is refused for it, none is made.
    made.judged.insert(place, false)?;
    let good = is_linked(
        given.provider,
        source_of(given, source),
        target_of(given, target),
        &mut made.steps,
    );
    made.judged.insert(place, good)?;
    Ok(good)
}

/// Whether the target follows the source; each pair is judged once.
pub(crate) fn is_link<C: CryptoProvider>(
    made: &mut Judgements,
    given: &PathInputs<C>,
    source: usize,
    target: usize,
) -> Result<bool, NoMemory>
    requires right { AreRight (setting_of C.accepts given.now) made.old }
    requires source { source ≤ length given.now.intermediates.now }
    requires target { target < width_of (setting_of C.accepts given.now) }
    ensures value { IfOk result (λ good. Decides (setting_of C.accepts given.now) made.new (λ v. good ≡ judgement v source target)) }
    ensures keeps { Keeps (setting_of C.accepts given.now) made.old made.new }
{
    let place = place_of(given, source, target);
    if let Some(good) = made.judged.get(&place) {
        return Ok(*good);
    }
    judge_pair(made, given, place, source, target)
}
