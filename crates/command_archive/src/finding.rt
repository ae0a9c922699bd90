// The chain of an archive that is trusted and no older than it may be.
ghost use Rattle.std.specs.Prelude.{◌≡◌, Ok, IfOk, Some, true, false};
ghost use Rattle.sigstore_verify.specs.Inputs.{anchor_with};
ghost use Rattle.command_verify.specs.Report.{timestamp_version};
ghost use Rattle.command_archive.specs.Check.{IsRecent, IsOlder, Takes, Finds, rollback_answer, fault_answer};

use crate::reading::{MAX_ARCHIVE, chain_in_archive, refused_archive, unread_archive};
use command_files::{Answer, WholeFault, read_whole, refusal};
use foundation::NoMemory;
use sigstore_keys::{ArtifactSource, CryptoProvider};
use sigstore_tuf::TrustChain;
use sigstore_tuf_parts::{Error, Metadata, Role, Timestamp};
use sigstore_types_parts::Armor;
use sigstore_verify::Anchor;
use std::alloc::Global;
use trust_archive::ArchiveError;

/// Why no chain is taken from an archive.
#[derive(Drop)]
pub(crate) enum CheckFault {
    /// The archive can't be read, or is longer than 256 MiB.
    Unread,
    /// Its bytes are refused.
    Archive(ArchiveError),
    /// Its timestamp's version is below the least one.
    Rollback,
    /// An allocation was refused.
    NoMemory,
}

// The version of the timestamp that bytes read as.
#[tactic(auto, unfolding(command_verify::specs::Report::timestamp_version, command_verify::specs::Report::version_of))]
fn timestamp_version(alloc: Global, bytes: &[u8]) -> Result<u64, Error>
    ensures { IfOk result (λ version. timestamp_version bytes.now ≡ Ok version) }
{
    match Metadata::<Timestamp>::from_slice(alloc, bytes) {
        Ok(document) => Ok(document.signed().version()),
        Err(e) => Err(e),
    }
}

// Whether the timestamp's version isn't below the least one. The timestamp of a trusted chain reads, unless memory is wanting.
fn is_recent(alloc: Global, least: Option<u64>, chain: &TrustChain) -> Result<bool, NoMemory>
    ensures recent { result ≡ Ok true → IsRecent least chain.now }
    ensures older { result ≡ Ok false → IsOlder least chain.now }
{
    match least {
        None => Ok(true),
        Some(least) => match timestamp_version(alloc, chain.timestamp.as_bytes()) {
            Ok(version) => if version < least { Ok(false) } else { Ok(true) },
            Err(_) => Err(NoMemory),
        },
    }
}

// The chain that an archive's bytes hold.
fn taken<C: CryptoProvider, M: Armor>(
    alloc: Global,
    anchor: &Anchor<'_, C, M>,
    least: Option<u64>,
    bytes: &[u8],
) -> Result<TrustChain, CheckFault>
    ensures { Takes (anchor_with C.CryptoProvider M.Armor anchor.entry.now) least bytes.now result }
{
    match chain_in_archive(alloc, anchor, bytes) {
        Ok(chain) => match is_recent(alloc, least, &chain) {
            Ok(true) => Ok(chain),
            Ok(false) => {
                drop(chain);
                Err(CheckFault::Rollback)
            }
            Err(_) => {
                drop(chain);
                Err(CheckFault::NoMemory)
            }
        },
        Err(ArchiveError::NoMemory) => Err(CheckFault::NoMemory),
        Err(e) => Err(CheckFault::Archive(e)),
    }
}

// The chain that an archive holds, read to its end.
pub(crate) fn found<C: CryptoProvider, M: Armor, A: ArtifactSource>(
    alloc: Global,
    anchor: &Anchor<'_, C, M>,
    least: Option<u64>,
    archive: &mut A,
) -> Result<TrustChain, CheckFault>
    ensures { Finds (anchor_with C.CryptoProvider M.Armor anchor.entry.now) least (A.seen archive.old) (A.seen archive.new) result }
{
    match read_whole(alloc, archive, MAX_ARCHIVE) {
        Ok(bytes) => {
            let found = taken(alloc, anchor, least, bytes.as_bytes());
            drop(bytes);
            found
        }
        Err(WholeFault::NoMemory) => Err(CheckFault::NoMemory),
        Err(WholeFault::Failed) => Err(CheckFault::Unread),
        Err(WholeFault::TooLong) => Err(CheckFault::Unread),
    }
}

fn rollback(alloc: Global) -> Result<Answer, NoMemory>
    ensures { IfOk result (λ said. said ≡ rollback_answer) }
{
    Ok(refusal(alloc, "archive", 11, "Rollback")?)
}

// What is said of a fault.
pub(crate) fn declined(alloc: Global, why: CheckFault) -> Result<Answer, NoMemory>
    ensures { IfOk result (λ said. fault_answer why ≡ Some said) }
{
    match why {
        CheckFault::Unread => unread_archive(alloc),
        CheckFault::Archive(e) => {
            let said = refused_archive(alloc, &e);
            drop(e);
            said
        }
        CheckFault::Rollback => rollback(alloc),
        CheckFault::NoMemory => Err(NoMemory),
    }
}
