// A workload: what is verified, and under which policy.
ghost use Rattle.std.specs.Prelude.{◌≡◌, ◌<◌, ◌≤◌, length, IfOk};
ghost use Rattle.workload.specs.Law.{SignsDocuments};
ghost use Rattle.command_files.specs.Tables.{crypto_of};
ghost use Rattle.command_generate.specs.Workload.{tables_in, IsWorkload};

use crate::supplies::{Item, Supplies, supply};
use command_files::{TableArmor, TableProvider, Tables};
use foundation::{NoMemory, Sequence};
use sigstore_tuf::MemoryRepository;
use sigstore_types_parts::{ByteString, Bytes};
use sigstore_verify::PublicKeyVerificationPolicy;
use std::alloc::Global;
use workload::spki;

/// A workload: the pinned root, the repository, who decides signatures and reads armoured texts, the policy, and the
/// items.
#[derive(Drop)]
pub struct Workload {
    pub root: Bytes,
    pub repository: MemoryRepository,
    pub provider: TableProvider,
    pub armor: TableArmor,
    pub policy: PublicKeyVerificationPolicy,
    pub items: Sequence<Item>,
}

/// The workload of a number, with so many items, from 1 to 4,096.
pub fn generate(alloc: Global, number: u32, count: u32) -> Result<Workload, NoMemory>
    requires some { 0 < count }
    requires most { count ≤ 4096 }
    ensures whole { IfOk result (IsWorkload number count) }
    ensures count { IfOk result (λ workload. length workload.items ≡ count) }
    ensures signed { IfOk result (λ workload. SignsDocuments (crypto_of (tables_in workload))) }
{
    let key = ByteString::new(spki(alloc)?);
    let Supplies {
        root,
        repository,
        tables,
        items,
    } = supply(alloc, number, count)?;
    let Tables { provider, armor } = tables;
    Ok(Workload {
        root,
        repository,
        provider,
        armor,
        policy: PublicKeyVerificationPolicy::new(key),
        items,
    })
}
