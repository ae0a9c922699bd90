// The table of the signatures of a workload that are good.
ghost use Rattle.std.specs.Prelude.{◌≡◌, ◌∷◌, [], IfOk, OnOk};
ghost use Rattle.command_generate.specs.Provider.{row_of, rows_with, row_added, rows_added, checkpoint_row_of, tables_of};

use command_files::{AcceptRow, TableProvider, Tables};
use foundation::{Duplicate, NoMemory, Sequence};
use sigstore_keys::{SigningScheme, sha256};
use sigstore_types_parts::{Bytes, Sha256Hash};
use std::alloc::Global;
use workload::{Drawn, Log, raw_key, signed_text};

// The row of a signature over a SHA-256 value, by the one key of the workload.
fn row(alloc: Global, subject: &Sha256Hash, signature: &[u8]) -> Result<AcceptRow, NoMemory>
    ensures { IfOk result (λ row. row ≡ row_of subject.now signature.now) }
{
    let key = raw_key(alloc)?;
    let subject = Bytes::new(alloc, subject.as_bytes())?;
    let signature = Bytes::new(alloc, signature)?;
    Ok(AcceptRow {
        scheme: SigningScheme::EcdsaP256Sha256,
        key,
        subject,
        signature,
    })
}

// Adds rows in their order.
fn add_rows(
    alloc: Global,
    provider: &mut TableProvider,
    rows: Sequence<AcceptRow>,
) -> Result<(), NoMemory>
    ensures { OnOk result (provider.new.rows ≡ rows_with provider.old.rows rows) }
{
    'rows: for row in rows.into_vec() {
        provider.add(alloc, row)?;
    }
    Ok(())
}

// Adds the row of the log's signature.
fn add_checkpoint(alloc: Global, provider: &mut TableProvider, log: &Log) -> Result<(), NoMemory>
    ensures { OnOk result (provider.new.rows ≡ rows_with provider.old.rows (checkpoint_row_of log.now ∷ [])) }
{
    let signed = signed_text(alloc, log.size, &log.root)?;
    provider.add(alloc, row(alloc, &sha256(signed.as_bytes()), b"c")?)
}

// Adds the row of an item's signature, where that is good.
fn add_item(alloc: Global, provider: &mut TableProvider, drawn: &Drawn) -> Result<(), NoMemory>
    ensures { OnOk result (provider.new.rows ≡ row_added provider.old.rows drawn.now) }
{
    if drawn.kind.has_row() {
        let row = row(alloc, &drawn.subject, drawn.signature.as_bytes())?;
        return provider.add(alloc, row);
    }
    Ok(())
}

fn add_items(alloc: Global, provider: &mut TableProvider, items: &[Drawn]) -> Result<(), NoMemory>
    ensures { OnOk result (provider.new.rows ≡ rows_added provider.old.rows items.now) }
{
    'items: for drawn in items {
        add_item(alloc, provider, drawn)?;
    }
    Ok(())
}

/// The tables that judge a workload: the signatures of the documents, of the log and of the items.
pub(crate) fn tables(
    alloc: Global,
    documents: Sequence<AcceptRow>,
    log: &Log,
    items: &[Drawn],
) -> Result<Tables, NoMemory>
    ensures { IfOk result (λ tables. tables ≡ tables_of documents log.now items.now) }
{
    let mut tables = Tables::new(alloc);
    add_rows(alloc, &mut tables.provider, documents)?;
    add_checkpoint(alloc, &mut tables.provider, log)?;
    add_items(alloc, &mut tables.provider, items)?;
    Ok(tables)
}
