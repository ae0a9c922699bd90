// The provider file.
ghost use Rattle.std.specs.Prelude.{◌≡◌, ◌≢◌, Ok, Err, IfOk, IfErr, OnOk};
ghost use Rattle.std.specs.BTreeMap.{is_at};
ghost use Rattle.std.specs.List.Sorted.{IsStrictlySortedBy};
ghost use Rattle.std.specs.Map.{keys_of, remove_entry};
ghost use Rattle.sigstore_types_parts.specs.Entries.{text_cmp};
ghost use Rattle.command_files.specs.Rows.{of_subject, with_subject_row, of_signature, with_accept_row};
ghost use Rattle.command_files.specs.Tables.{with_armor_row, armor_line_of, accept_line_of, table_line_of, no_rows, tables_of};

use crate::byte_map::ByteMap;
use crate::lines::{ByLine, take_file};
use crate::rows::{AcceptRow, ArmorRow, accept_row, armor_row, parted};
use crate::usage_fault::UsageFault;
use foundation::{Duplicate, NoMemory, Sequence};
use sigstore_types_parts::Bytes;
use std::alloc::Global;

/// Judges signatures: accepts exactly its rows, which stand by their signatures and then by their
/// subjects. (A bundle may have thousands of entries with one signature.)
#[derive(Drop)]
pub struct TableProvider {
    pub rows: ByteMap<ByteMap<Sequence<AcceptRow>>>,
}

/// Reads armoured texts: `der:` with base64, and its rows' texts, with what each holds.
#[derive(Drop)]
pub struct TableArmor {
    pub keys: ByteMap<Bytes>,
    pub certificates: ByteMap<Bytes>,
}

/// The tables of a provider file.
#[derive(Drop)]
pub struct Tables {
    pub provider: TableProvider,
    pub armor: TableArmor,
}

impl Tables {
    /// Tables without rows; takes no memory.
    pub fn new(alloc: Global) -> Tables
        ensures { result ≡ no_rows }
    {
        Tables {
            provider: TableProvider {
                rows: ByteMap::new(alloc),
            },
            armor: TableArmor {
                keys: ByteMap::new(alloc),
                certificates: ByteMap::new(alloc),
            },
        }
    }
}

// The rows of a subject, taken out.
fn taken_rows(
    alloc: Global,
    rows: &mut ByteMap<Sequence<AcceptRow>>,
    subject: &[u8],
) -> Sequence<AcceptRow>
    ensures taken { result ≡ of_subject subject.now rows.old }
    ensures others { rows.new ≡ remove_entry (is_at (text_cmp subject.now)) rows.old }
    ensures ordered { IsStrictlySortedBy text_cmp (keys_of rows.old) }
{
    match rows.take(subject) {
        Some(taken) => taken,
        None => Sequence::new(alloc),
    }
}

// Adds a row under its subject.
fn add_under_subject(
    alloc: Global,
    rows: &mut ByteMap<Sequence<AcceptRow>>,
    row: AcceptRow,
) -> Result<(), NoMemory>
    ensures { OnOk result (rows.new ≡ with_subject_row rows.old row) }
{
    let subject = row.subject.duplicate(alloc)?;
    let mut others = taken_rows(alloc, rows, subject.as_bytes());
    others.push(row)?;
    rows.insert(subject, others)?;
    Ok(())
}

// The rows of a signature, taken out.
fn taken_subjects(
    alloc: Global,
    rows: &mut ByteMap<ByteMap<Sequence<AcceptRow>>>,
    signature: &[u8],
) -> ByteMap<Sequence<AcceptRow>>
    ensures taken { result ≡ of_signature signature.now rows.old }
    ensures others { rows.new ≡ remove_entry (is_at (text_cmp signature.now)) rows.old }
    ensures ordered { IsStrictlySortedBy text_cmp (keys_of rows.old) }
{
    match rows.take(signature) {
        Some(subjects) => subjects,
        None => ByteMap::new(alloc),
    }
}

impl TableProvider {
    /// Adds a row.
    pub fn add(&mut self, alloc: Global, row: AcceptRow) -> Result<(), NoMemory>
        ensures { OnOk result (self.new.rows ≡ with_accept_row self.old.rows row) }
    {
        let signature = row.signature.duplicate(alloc)?;
        let mut subjects = taken_subjects(alloc, &mut self.rows, signature.as_bytes());
        add_under_subject(alloc, &mut subjects, row)?;
        self.rows.insert(signature, subjects)?;
        Ok(())
    }
}

// Adds a row whose text no row has.
fn add_armor_row(rows: &mut ByteMap<Bytes>, row: ArmorRow) -> Result<(), UsageFault>
    ensures ok { OnOk result (with_armor_row rows.old row ≡ Ok rows.new) }
    ensures err { IfErr result (λ e. e ≢ UsageFault.NoMemory → with_armor_row rows.old row ≡ Err e) }
{
    if rows.get(row.text.as_bytes()).is_some() {
        drop(row);
        return Err(UsageFault::Usage);
    }
    let ArmorRow { text, der } = row;
    rows.insert(text, der)?;
    Ok(())
}

fn armor_line(alloc: Global, armor: &mut TableArmor, text: &str) -> Result<(), UsageFault>
    ensures ok { OnOk result (armor_line_of armor.old text.now ≡ Ok armor.new) }
    ensures err { IfErr result (λ e. e ≢ UsageFault.NoMemory → armor_line_of armor.old text.now ≡ Err e) }
{
    let (sort, rest) = parted(text)?;
    let row = armor_row(alloc, rest)?;
    match sort {
        "key" => add_armor_row(&mut armor.keys, row)?,
        "certificate" => add_armor_row(&mut armor.certificates, row)?,
        _ => return Err(UsageFault::Usage),
    }
    Ok(())
}

fn accept_line(alloc: Global, provider: &mut TableProvider, text: &str) -> Result<(), UsageFault>
    ensures ok { OnOk result (accept_line_of provider.old text.now ≡ Ok provider.new) }
    ensures err { IfErr result (λ e. e ≢ UsageFault.NoMemory → accept_line_of provider.old text.now ≡ Err e) }
{
    let row = accept_row(alloc, text)?;
    provider.add(alloc, row)?;
    Ok(())
}

impl ByLine for Tables {
    ghost takes = { table_line_of };

    fn take(&mut self, alloc: Global, line: &str) -> Result<(), UsageFault> {
        let (word, rest) = parted(line)?;
        match word {
            "accept" => accept_line(alloc, &mut self.provider, rest)?,
            "armor" => armor_line(alloc, &mut self.armor, rest)?,
            _ => return Err(UsageFault::Usage),
        }
        Ok(())
    }
}

/// The tables of a provider file. Errors: `Usage` for a file outside the grammar; `NoMemory`.
#[tactic(auto, unfolding(crate::specs::Tables::tables_of))]
pub fn read_provider(alloc: Global, bytes: &[u8]) -> Result<Tables, UsageFault>
    ensures ok { IfOk result (λ t. tables_of bytes.now ≡ Ok t) }
    ensures err { IfErr result (λ e. e ≢ UsageFault.NoMemory → tables_of bytes.now ≡ Err e) }
{
    let mut tables = Tables::new(alloc);
    match take_file(alloc, &mut tables, bytes) {
        Ok(()) => Ok(tables),
        Err(e) => Err(e),
    }
}
