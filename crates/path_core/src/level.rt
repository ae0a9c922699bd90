// The ways of one level, and those of the next.
ghost use Rattle.std.specs.Prelude.{◌≡◌, [], ℕ, suc, ◌+◌, ◌<◌, ◌≤◌, All, IfOk, OnOk, length};
ghost use Rattle.std.specs.Option.{option_or};
ghost use Rattle.path_core.specs.Search.{setting_of, goes, ends, over, over_ways, over_next, extended};
ghost use Rattle.path_core.specs.Judged.{AreRight, Keeps, Decides};
ghost use Rattle.path_core.specs.Level.{IsLevel, Adds};

use crate::given::PathInputs;
use crate::judgements::{Judgements, is_link};
use crate::route::Route;
use crate::way::Way;
use foundation::{Duplicate, NoMemory};
use sigstore_keys::CryptoProvider;
use std::alloc::Global;

/// The ways of a level in order, with a mark at each position that one of them ends at.
#[derive(Drop)]
pub(crate) struct Level {
    pub(crate) reached: Vec<bool>,
    pub(crate) ways: Vec<Way>,
}

impl Level {
    /// No way yet.
    pub(crate) fn new(alloc: Global, positions: usize) -> Result<Level, NoMemory>
        ensures level { IfOk result (IsLevel positions) }
        ensures empty { IfOk result (λ level. level.ways.items ≡ []) }
    {
        Ok(Level {
            reached: vec![in alloc; false; positions]?,
            ways: Vec::new(alloc),
        })
    }
}

// Whether the anchor at a position is open and follows the source.
fn is_end<C: CryptoProvider>(
    made: &mut Judgements,
    given: &PathInputs<C>,
    source: usize,
    a: usize,
) -> Result<bool, NoMemory>
    requires right { AreRight (setting_of C.accepts given.now) made.old }
    requires source { source ≤ length given.now.intermediates.now }
    requires anchor { a < length given.now.anchors.now }
    ensures value { IfOk result (λ yes. Decides (setting_of C.accepts given.now) made.new (λ v. yes ≡ ends v source a)) }
    ensures keeps { Keeps (setting_of C.accepts given.now) made.old made.new }
{
    if !given.anchors[a].is_open(given.at) {
        return Ok(false);
    }
    Ok(is_link(made, given, source, given.intermediates.len() + a)?)
}

// Whether the intermediate at a position follows the source and may stand above so many others.
fn is_next<C: CryptoProvider>(
    made: &mut Judgements,
    given: &PathInputs<C>,
    below: u8,
    source: usize,
    position: usize,
) -> Result<bool, NoMemory>
    requires right { AreRight (setting_of C.accepts given.now) made.old }
    requires source { source ≤ length given.now.intermediates.now }
    requires position { position < length given.now.intermediates.now }
    ensures value { IfOk result (λ yes. Decides (setting_of C.accepts given.now) made.new (λ v. yes ≡ goes v below source position)) }
    ensures keeps { Keeps (setting_of C.accepts given.now) made.old made.new }
{
    if !given.intermediates[position].is_fit(given.purpose, given.at, below) {
        return Ok(false);
    }
    Ok(is_link(made, given, source, position)?)
}

// The path that ends the way at the first anchor that it can.
fn first_anchor<C: CryptoProvider>(
    alloc: Global,
    given: &PathInputs<C>,
    made: &mut Judgements,
    way: &Way,
) -> Result<Option<Route>, NoMemory>
    requires right { AreRight (setting_of C.accepts given.now) made.old }
    requires source { way.now.source ≤ length given.now.intermediates.now }
    ensures found { IfOk result (λ found. Decides (setting_of C.accepts given.now) made.new (λ v. (below : ℕ) → found ≡ over v 0 below way.now)) }
    ensures keeps { Keeps (setting_of C.accepts given.now) made.old made.new }
{
    'anchors: for a in 0..given.anchors.len() {
        if is_end(made, given, way.source, a)? {
            return Ok(Some(Route {
                positions: way.positions.duplicate(alloc)?,
                anchor: a as u64,
            }));
        }
    }
    Ok(None)
}

/// The path of the first way that can end at an anchor.
pub(crate) fn first_end<C: CryptoProvider>(
    alloc: Global,
    given: &PathInputs<C>,
    made: &mut Judgements,
    level: &Level,
) -> Result<Option<Route>, NoMemory>
    requires right { AreRight (setting_of C.accepts given.now) made.old }
    requires level { IsLevel (length given.now.intermediates.now) level.now }
    ensures found { IfOk result (λ found. Decides (setting_of C.accepts given.now) made.new (λ v.
        (below : ℕ) → found ≡ over_ways v 0 below level.now.ways.items)) }
    ensures keeps { Keeps (setting_of C.accepts given.now) made.old made.new }
{
    'ways: for way in &level.ways {
        if let Some(found) = first_anchor(alloc, given, made, way)? {
            return Ok(Some(found));
        }
    }
    Ok(None)
}

// The way and one more position.
pub(crate) fn longer(alloc: Global, way: &Way, position: usize) -> Result<Way, NoMemory>
    ensures { IfOk result (λ longer. longer ≡ extended way.now position) }
{
    let mut positions = way.positions.duplicate(alloc)?;
    positions.push(position as u64)?;
    Ok(Way {
        source: position,
        positions,
    })
}

// Adds the way over a position to the next level, if it leads there and no earlier one does.
fn add_over<C: CryptoProvider>(
    alloc: Global,
    given: &PathInputs<C>,
    made: &mut Judgements,
    next: &mut Level,
    below: u8,
    way: &Way,
    position: usize,
) -> Result<(), NoMemory>
    requires right { AreRight (setting_of C.accepts given.now) made.old }
    requires source { way.now.source ≤ length given.now.intermediates.now }
    requires next { IsLevel (length given.now.intermediates.now) next.old }
    requires position { position < length given.now.intermediates.now }
    ensures next { IsLevel (length given.now.intermediates.now) next.new }
    ensures added { OnOk result (Decides (setting_of C.accepts given.now) made.new (λ v.
        (r : ℕ) → Adds v r (below + 1) next.old.ways.items next.new.ways.items (over_next v r below way.now position))) }
    ensures keeps { Keeps (setting_of C.accepts given.now) made.old made.new }
{
    if next.reached[position] {
        return Ok(());
    }
    if is_next(made, given, below, way.source, position)? {
        next.ways.push(longer(alloc, way, position)?)?;
        next.reached[position] = true;
    }
    Ok(())
}

// Adds each way that is one longer to the next level, unless an earlier one ends there.
fn add_all<C: CryptoProvider>(
    alloc: Global,
    given: &PathInputs<C>,
    made: &mut Judgements,
    next: &mut Level,
    below: u8,
    way: &Way,
) -> Result<(), NoMemory>
    requires right { AreRight (setting_of C.accepts given.now) made.old }
    requires source { way.now.source ≤ length given.now.intermediates.now }
    requires next { IsLevel (length given.now.intermediates.now) next.old }
    ensures next { IsLevel (length given.now.intermediates.now) next.new }
    ensures added { OnOk result (Decides (setting_of C.accepts given.now) made.new (λ v.
        (r : ℕ) → Adds v r (below + 1) next.old.ways.items next.new.ways.items (over v (suc r) below way.now))) }
    ensures keeps { Keeps (setting_of C.accepts given.now) made.old made.new }
{
    'positions: for position in 0..given.intermediates.len() {
        add_over(alloc, given, made, next, below, way, position)?;
    }
    Ok(())
}

/// The ways that are one longer, the first to each position.
pub(crate) fn next_level<C: CryptoProvider>(
    alloc: Global,
    given: &PathInputs<C>,
    made: &mut Judgements,
    below: u8,
    level: &Level,
) -> Result<Level, NoMemory>
    requires right { AreRight (setting_of C.accepts given.now) made.old }
    requires level { IsLevel (length given.now.intermediates.now) level.now }
    ensures level { IfOk result (IsLevel (length given.now.intermediates.now)) }
    ensures next { IfOk result (λ next. Decides (setting_of C.accepts given.now) made.new (λ v.
        (r : ℕ) → over_ways v r (below + 1) next.ways.items ≡ over_ways v (suc r) below level.now.ways.items)) }
    ensures keeps { Keeps (setting_of C.accepts given.now) made.old made.new }
{
    let mut next = Level::new(alloc, given.intermediates.len())?;
    'ways: for way in &level.ways {
        add_all(alloc, given, made, &mut next, below, way)?;
    }
    Ok(next)
}
