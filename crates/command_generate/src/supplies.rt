// What a workload's verifications are over, all of one number.
ghost use Rattle.std.specs.Prelude.{◌≡◌, ◌≤◌, ◌<◌, ◌+◌, ◌^◌, ◌++◌, Ok, length, map, IfOk};
ghost use Rattle.sigstore_merkle.specs.Whole.{IsTree};
ghost use Rattle.workload.specs.Drawn.{drawn_from};
ghost use Rattle.workload.specs.Log.{IsLog, bundle_of};
ghost use Rattle.command_files.specs.Tables.{crypto_of};
ghost use Rattle.command_generate.specs.Supplies.{leaves_of, item_of, items_from, AreSupplies, AreSupplied};
ghost use Rattle.workload.specs.Law.{SignsDocuments};

use crate::rows::tables;
use command_files::{Tables, rows_are_found};
use foundation::{Duplicate, NoMemory, Sequence};
use sigstore_entries::LogIndex;
use sigstore_merkle::{Tree, build_tree, hash_leaf};
use sigstore_tuf_outside::MemoryRepository;
use sigstore_types_parts::{Bytes, Sha256Hash};
use std::alloc::Global;
use workload::{Drawn, Log, Published, bundle, draw_all, publish};

/// An item: a bundle as a JSON text, and the artifact that is handed in with it.
#[derive(Drop)]
pub struct Item {
    pub bundle: Bytes,
    pub artifact: Bytes,
}

/// What a workload's verifications are over: the pinned root, the repository, the tables that decide signatures and
/// read armoured texts, and the items.
#[derive(Drop)]
pub struct Supplies {
    pub root: Bytes,
    pub repository: MemoryRepository,
    pub tables: Tables,
    pub items: Sequence<Item>,
}

// The hashes of the leaves of a log that has all bodies in their order.
fn leaves(alloc: Global, drawn: &[Drawn]) -> Result<Sequence<Sha256Hash>, NoMemory>
    ensures { IfOk result (λ leaves. leaves ≡ leaves_of drawn.now) }
{
    let mut leaves = Sequence::new(alloc);
    'drawn: for item in drawn {
        leaves.push(hash_leaf(item.body.as_bytes()))?;
    }
    Ok(leaves)
}

fn place(index: usize) -> LogIndex
    requires { index < 4096 }
    ensures { result ≡ record { value = index } }
{
    LogIndex::new(index as u64).unwrap()
}

fn make_item(
    alloc: Global,
    log: &Log,
    index: usize,
    drawn: &Drawn,
    path: &Sequence<Sha256Hash>,
) -> Result<Item, NoMemory>
    requires { index < 4096 }
    ensures { IfOk result (λ item. item ≡ item_of log.now index drawn.now path.now) }
{
    let path = path.duplicate(alloc)?;
    let bundle = bundle(alloc, log, place(index), drawn, path)?;
    let text = bundle.to_json(alloc)?;
    drop(bundle);
    let artifact = drawn.artifact.duplicate(alloc)?;
    Ok(Item {
        bundle: text,
        artifact,
    })
}

// The items of what was drawn, with their paths.
fn items(
    alloc: Global,
    log: &Log,
    drawn: &[Drawn],
    paths: &[Sequence<Sha256Hash>],
) -> Result<Sequence<Item>, NoMemory>
    requires some { length drawn.now ≤ 4096 }
    requires each { length paths.now ≡ length drawn.now }
    ensures { IfOk result (λ items. items ≡ items_from log.now 0 drawn.now paths.now) }
{
    let mut items = Sequence::new(alloc);
    'items: for index in 0..drawn.len() {
        items.push(make_item(alloc, log, index, &drawn[index], &paths[index])?)?;
    }
    Ok(items)
}

// The log of what was drawn, and each item's path.
fn plan(
    alloc: Global,
    count: u32,
    drawn: &[Drawn],
) -> Result<(Log, Sequence<Sequence<Sha256Hash>>), NoMemory>
    requires { 0 < length drawn.now }
    ensures tree { IfOk result (λ made. IsTree (leaves_of drawn.now) made.0.root made.1) }
    ensures log { IfOk result (λ made. IsLog count made.0.root made.0) }
    ensures each { IfOk result (λ made. length made.1 ≡ length drawn.now) }
{
    let leaves = leaves(alloc, drawn)?;
    let Tree { root, paths } = build_tree(alloc, leaves.as_slice())?;
    let log = Log::new(alloc, u64::from(count), root)?;
    Ok((log, paths))
}

// The supplies for what was drawn, in the log that has it.
fn make_supplies(
    alloc: Global,
    drawn: &[Drawn],
    log: &Log,
    paths: &[Sequence<Sha256Hash>],
) -> Result<Supplies, NoMemory>
    requires some { length drawn.now ≤ 4096 }
    requires each { length paths.now ≡ length drawn.now }
    ensures { IfOk result (AreSupplies drawn.now (record { log = log.now; paths = paths.now })) }
{
    let items = items(alloc, log, drawn, paths)?;
    let Published {
        root,
        repository,
        rows,
    } = publish(alloc)?;
    let tables = tables(alloc, rows, log, drawn)?;
    Ok(Supplies {
        root,
        repository,
        tables,
        items,
    })
}

// The same, where the log isn't made yet.
fn supply_drawn(alloc: Global, count: u32, drawn: &[Drawn]) -> Result<Supplies, NoMemory>
    requires some { 0 < length drawn.now }
    requires most { length drawn.now ≤ 4096 }
    ensures { IfOk result (AreSupplied count drawn.now) }
{
    let (log, paths) = plan(alloc, count, drawn)?;
    let made = make_supplies(alloc, drawn, &log, paths.as_slice());
    drop(log);
    drop(paths);
    made
}

/// The supplies of the workload of a number, with so many items, from 1 to 4,096. All bodies of the items stand in one
/// tree, in their order, under one checkpoint.
pub fn supply(alloc: Global, number: u32, count: u32) -> Result<Supplies, NoMemory>
    requires some { 0 < count }
    requires most { count ≤ 4096 }
    ensures whole { IfOk result (AreSupplied count (drawn_from 0 number count)) }
    ensures count { IfOk result (λ supplies. length supplies.items ≡ count) }
    ensures signed { IfOk result (λ supplies. SignsDocuments (crypto_of supplies.tables)) }
{
    rows_are_found();
    let drawn = draw_all(alloc, number, count)?;
    let made = supply_drawn(alloc, count, drawn.as_slice());
    drop(drawn);
    made
}
