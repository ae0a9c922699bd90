// The repository as it is published, with the rows of its documents' signatures.
ghost use Rattle.std.specs.Prelude.{◌≡◌, [], ◌∷◌, false, Some, IfOk, OnOk};
ghost use Rattle.serde_json.specs.View.{view};
ghost use Rattle.serde_json.specs.Written.{has_float};
ghost use Rattle.sigstore_tuf_outside.specs.Memory.{no_folders, folders_of, told_folders};
ghost use Rattle.workload.specs.Documents.{root_signed, timestamp_signed, snapshot_signed, targets_signed, document_text, root_bytes};
ghost use Rattle.workload.specs.Documents.{timestamp_bytes, snapshot_bytes, targets_bytes};
ghost use Rattle.workload.specs.Rows.{document_row, document_rows, moment};
ghost use Rattle.workload.specs.Published.{publishing, published};

use crate::documents::{
    document_text, root_signed, snapshot_signed, targets_signed, timestamp_signed,
};
use crate::raw_key;
use crate::trust::trust_file;
use command_files::AcceptRow;
use foundation::{NoMemory, Sequence};
use jiff::Timestamp;
use serde_json::Value;
use sigstore_keys::{SigningScheme, sha256};
use sigstore_tuf_outside::MemoryRepository;
use sigstore_tuf_text::{SNAPSHOT_NAME, TARGETS_NAME, TIMESTAMP_NAME, to_canonical_bytes};
use sigstore_types_parts::{Bytes, FailList, at_second};
use std::alloc::Global;

/// The first root, the repository that follows it, and the documents' signatures as rows that a provider may
/// have: root, timestamp, snapshot, targets.
#[derive(Drop)]
pub struct Published {
    pub root: Bytes,
    pub repository: MemoryRepository,
    pub rows: Sequence<AcceptRow>,
}

/// The moment at which the documents are fresh: 2025-01-01T00:00:00Z.
#[tactic(auto, unfolding(crate::specs::Rows::moment))]
pub fn moment() -> Timestamp
    ensures { result ≡ moment }
{
    at_second(1735689600)
}

// The row of the signature of what a document signs.
#[tactic(auto, unfolding(crate::specs::Rows::document_row))]
fn row(alloc: Global, signed: &Value) -> Result<AcceptRow, NoMemory>
    ensures row { IfOk result (λ row. row ≡ document_row (view signed.now)) }
    ensures whole { OnOk result (has_float (view signed.now) ≡ false) }
{
    let Ok(text) = to_canonical_bytes(alloc, signed) else {
        return Err(NoMemory);
    };
    let subject = sha256(text.as_bytes());
    Ok(AcceptRow {
        scheme: SigningScheme::EcdsaP256Sha256,
        key: raw_key(alloc)?,
        subject: Bytes::new(alloc, subject.as_bytes())?,
        signature: Bytes::new(alloc, &[1u8])?,
    })
}

// A document's text, and the row of its signature.
#[derive(Drop)]
struct Signed {
    text: Bytes,
    row: AcceptRow,
}

fn sign(alloc: Global, signed: &Value) -> Result<Signed, NoMemory>
    ensures row { IfOk result (λ document. document.row ≡ document_row (view signed.now)) }
    ensures text { IfOk result (λ document. document.text ≡ document_text (view signed.now)) }
{
    let row = row(alloc, signed)?;
    let text = document_text(alloc, signed)?;
    Ok(Signed { text, row })
}

// The four documents, in the order of their rows.
#[derive(Drop)]
struct Collection {
    root: Signed,
    timestamp: Signed,
    snapshot: Signed,
    targets: Signed,
}

#[tactic(auto, unfolding(crate::specs::Documents::root_bytes, crate::specs::Documents::timestamp_bytes, crate::specs::Documents::snapshot_bytes, crate::specs::Documents::targets_bytes))]
fn documents(alloc: Global) -> Result<Collection, NoMemory>
    ensures root { IfOk result (λ all. (all.root.text ≡ root_bytes) × (all.root.row ≡ document_row root_signed)) }
    ensures timestamp { IfOk result
        (λ all. (all.timestamp.text ≡ timestamp_bytes) × (all.timestamp.row ≡ document_row timestamp_signed)) }
    ensures snapshot { IfOk result
        (λ all. (all.snapshot.text ≡ snapshot_bytes) × (all.snapshot.row ≡ document_row snapshot_signed)) }
    ensures targets { IfOk result
        (λ all. (all.targets.text ≡ targets_bytes) × (all.targets.row ≡ document_row targets_signed)) }
{
    let root = root_signed(alloc)?;
    let timestamp = timestamp_signed(alloc)?;
    let snapshot = snapshot_signed(alloc)?;
    let targets = targets_signed(alloc)?;
    Ok(Collection {
        root: sign(alloc, &root)?,
        timestamp: sign(alloc, &timestamp)?,
        snapshot: sign(alloc, &snapshot)?,
        targets: sign(alloc, &targets)?,
    })
}

// A repository without files, where no call fails.
fn empty(alloc: Global) -> MemoryRepository
    ensures folders { folders_of result.metadata result.targets ≡ no_folders }
    ensures faults { result.calls.faults ≡ 0 }
    ensures failures { result.calls.failures ≡ [] }
{
    MemoryRepository::new(alloc, FailList::new(Vec::new(alloc)).unwrap())
}

// The folders with these documents and the trust file, where no call fails.
fn repository(
    alloc: Global,
    timestamp: &Bytes,
    snapshot: &Bytes,
    targets: &Bytes,
) -> Result<MemoryRepository, NoMemory>
    ensures seen { IfOk result (λ r. told_folders r.metadata r.targets r.calls.faults
        ≡ record { told = Some (publishing timestamp.now snapshot.now targets.now); faults = 0 }) }
    ensures failures { IfOk result (λ r. r.calls.failures ≡ []) }
{
    let file = trust_file(alloc)?;
    let mut made = empty(alloc);
    made.put_metadata(alloc, TIMESTAMP_NAME, timestamp.as_bytes())?;
    made.put_metadata(alloc, SNAPSHOT_NAME, snapshot.as_bytes())?;
    made.put_metadata(alloc, TARGETS_NAME, targets.as_bytes())?;
    made.put_target(alloc, "trusted_root.json", file.as_bytes())?;
    Ok(made)
}

fn rows(
    alloc: Global,
    root: AcceptRow,
    timestamp: AcceptRow,
    snapshot: AcceptRow,
    targets: AcceptRow,
) -> Result<Sequence<AcceptRow>, NoMemory>
    ensures { IfOk result (λ rows. rows ≡ root ∷ timestamp ∷ snapshot ∷ targets ∷ []) }
{
    let mut rows = Sequence::new(alloc);
    rows.push(root)?;
    rows.push(timestamp)?;
    rows.push(snapshot)?;
    rows.push(targets)?;
    Ok(rows)
}

/// The repository, in memory, with no call that fails.
#[tactic(auto, unfolding(crate::specs::Published::published, crate::specs::Rows::document_rows))]
pub fn publish(alloc: Global) -> Result<Published, NoMemory>
    ensures root { IfOk result (λ p. p.root ≡ root_bytes) }
    ensures seen { IfOk result (λ p. told_folders p.repository.metadata p.repository.targets p.repository.calls.faults
        ≡ record { told = Some published; faults = 0 }) }
    ensures failures { IfOk result (λ p. p.repository.calls.failures ≡ []) }
    ensures rows { IfOk result (λ p. p.rows ≡ document_rows) }
{
    let Collection {
        root,
        timestamp,
        snapshot,
        targets,
    } = documents(alloc)?;
    let repository = repository(alloc, &timestamp.text, &snapshot.text, &targets.text)?;
    let rows = rows(alloc, root.row, timestamp.row, snapshot.row, targets.row)?;
    Ok(Published {
        root: root.text,
        repository,
        rows,
    })
}
