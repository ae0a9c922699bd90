// What a workload's items are judged as.
ghost use Rattle.std.specs.Prelude.{◌≡◌, ◌++◌, ◌∷◌, map, IfOk};
ghost use Rattle.command_files.specs.Tables.{crypto_of};
ghost use Rattle.command_generate.specs.Judged.{AnswersItem, judged_as};
ghost use Rattle.command_generate.specs.Workload.{policy_of, tables_in};
ghost use Rattle.workload.specs.Documents.{root_bytes};
ghost use Rattle.workload.specs.Law.{SignsDocuments};

use crate::generating::Workload;
use crate::steady::{SteadyRepository, SteadySource};
use crate::supplies::Item;
use foundation::{NoMemory, Sequence};
use sigstore_keys::Providers;
use sigstore_tuf::{MemoryStore, UpdaterConfig};
use sigstore_verify::{Acceptance, Anchor, Asked, Error, RootFault, verify_from_root};
use std::alloc::Global;
use workload::{moment, publish, repository_offers};

// What the top call answers of an item, over a repository, a store and an artifact of its own.
fn verified(alloc: Global, workload: &Workload, item: &Item) -> Result<Acceptance, RootFault>
    requires root { workload.now.root ≡ root_bytes }
    requires policy { workload.now.policy ≡ policy_of }
    requires signed { SignsDocuments (crypto_of (tables_in workload.now)) }
    ensures { AnswersItem (tables_in workload.now) item.now result }
{
    repository_offers();
    let files = match publish(alloc) {
        Ok(published) => published.repository,
        Err(NoMemory) => return Err(RootFault::NoMemory),
    };
    let mut repository = SteadyRepository::new(files);
    let mut store = MemoryStore::new(alloc);
    let mut artifact = SteadySource {
        left: item.artifact.as_bytes(),
    };
    let anchor = Anchor {
        providers: Providers {
            provider: &workload.provider,
            armor: &workload.armor,
        },
        root: workload.root.as_bytes(),
        config: UpdaterConfig::default(),
        now: moment(),
    };
    let asked = Asked {
        bundle: item.bundle.as_bytes(),
        max_artifact: item.artifact.as_bytes().len() as u64,
        policy: &workload.policy,
    };
    verify_from_root(
        alloc,
        &anchor,
        &mut repository,
        &mut store,
        &mut artifact,
        &asked,
    )
}

// What an item is judged as. No refusal of the repository comes, since it offers its chain.
fn judge(alloc: Global, workload: &Workload, item: &Item) -> Result<Result<(), Error>, NoMemory>
    requires root { workload.now.root ≡ root_bytes }
    requires policy { workload.now.policy ≡ policy_of }
    requires signed { SignsDocuments (crypto_of (tables_in workload.now)) }
    ensures { IfOk result (λ outcome. outcome ≡ judged_as (tables_in workload.now) item.now) }
{
    match verified(alloc, workload, item) {
        Ok(rooted) => {
            drop(rooted);
            Ok(Ok(()))
        }
        Err(RootFault::Verify { fault, chain }) => {
            drop(chain);
            Ok(Err(fault))
        }
        Err(RootFault::Tuf(_)) => unreachable!(),
        Err(RootFault::NoMemory) => Err(NoMemory),
    }
}

/// What each item is judged as, in their order.
pub(crate) fn judge_items(
    alloc: Global,
    workload: &Workload,
) -> Result<Sequence<Result<(), Error>>, NoMemory>
    requires root { workload.now.root ≡ root_bytes }
    requires policy { workload.now.policy ≡ policy_of }
    requires signed { SignsDocuments (crypto_of (tables_in workload.now)) }
    ensures { IfOk result (λ outcomes. outcomes ≡ map (judged_as (tables_in workload.now)) workload.now.items) }
{
    let mut outcomes = Sequence::new(alloc);
    'items: for item in workload.items.as_slice() {
        outcomes.push(judge(alloc, workload, item)?)?;
    }
    Ok(outcomes)
}
