// The chain that an archive holds, and what is said where there is none.
ghost use Rattle.std.specs.Prelude.{◌≡◌, ◌≢◌, Ok, Err, IfOk, IfErr};
ghost use Rattle.sigstore_verify.specs.Inputs.{anchor_with};
ghost use Rattle.command_archive.specs.Reading.{Holds, held_in, Why, archive_answer, unread_answer};

use command_files::{Answer, Status, pair, refusal};
use foundation::NoMemory;
use sigstore_keys::CryptoProvider;
use sigstore_tuf::TrustChain;
use sigstore_types_parts::Armor;
use sigstore_verify::{Anchor, TRUST_PATH};
use std::alloc::Global;
use trust_archive::{ArchiveError, ArchiveTerms, read_archive};

/// The greatest length of an archive in bytes: 256 MiB.
pub const MAX_ARCHIVE: u64 = 268_435_456;

/// What is said of a refusal of an archive.
pub fn refused_archive(alloc: Global, e: &ArchiveError) -> Result<Answer, NoMemory>
    ensures { IfOk result (λ said. said ≡ archive_answer e.now) }
{
    Ok(refusal(alloc, "archive", e.number(), e.name())?)
}

/// What is said of an archive that can't be read, or is too long.
pub fn unread_archive(alloc: Global) -> Result<Answer, NoMemory>
    ensures { IfOk result (λ said. said ≡ unread_answer) }
{
    pair(alloc, Status::Input, "input", "archive")
}

/// The chain for the trusted root that an archive's bytes hold. Errors as `read_archive`.
pub fn chain_in_archive<C: CryptoProvider, M: Armor>(
    alloc: Global,
    anchor: &Anchor<'_, C, M>,
    bytes: &[u8],
) -> Result<TrustChain, ArchiveError>
    ensures ok { IfOk result (λ chain. held_in (anchor_with C.CryptoProvider M.Armor anchor.entry.now) bytes.now ≡ Ok chain) }
    ensures err { IfErr result (λ e. e ≢ ArchiveError.NoMemory →
        held_in (anchor_with C.CryptoProvider M.Armor anchor.entry.now) bytes.now ≡ Err e) }
    ensures trusted { IfOk result (Holds (anchor_with C.CryptoProvider M.Armor anchor.entry.now) bytes.now) }
    ensures cause { IfErr result (λ e. e ≢ ArchiveError.NoMemory →
        Why (anchor_with C.CryptoProvider M.Armor anchor.entry.now) bytes.now e) }
{
    let terms = ArchiveTerms {
        root: anchor.root,
        path: TRUST_PATH,
        max_delegations: anchor.config.max_delegations,
        moment: anchor.now,
    };
    read_archive(alloc, &anchor.providers, &terms, bytes)
}
