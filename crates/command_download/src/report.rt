// The lines that `download` writes.
ghost use Rattle.std.specs.Prelude.{◌≡◌, ◌++◌, OnOk, string_bytes, option_copied};
ghost use Rattle.command_download.specs.Report.{timestamp_text, snapshot_text, targets_text, versions_text, target_line};

use command_files::{
    push_decimal, push_line, push_named_line, push_number_line, push_pair_line, push_printed,
    push_refused_line,
};
use foundation::NoMemory;
use sigstore_keys::sha256;
use sigstore_tuf_parts::{Snapshot, Targets, Timestamp};
use sigstore_tuf_rules::{Held, InForce};
use std::alloc::Global;

fn push_timestamp(text: &mut String, held: &Option<Held<Timestamp>>) -> Result<(), NoMemory>
    ensures { OnOk result (string_bytes text.new ≡ string_bytes text.old ++ timestamp_text held.now) }
{
    match held {
        Some(held) => push_number_line(text, "timestamp", held.document.signed().version),
        None => Ok(()),
    }
}

fn push_snapshot(text: &mut String, held: &Option<Held<Snapshot>>) -> Result<(), NoMemory>
    ensures { OnOk result (string_bytes text.new ≡ string_bytes text.old ++ snapshot_text held.now) }
{
    match held {
        Some(held) => push_number_line(text, "snapshot", held.document.signed().version),
        None => Ok(()),
    }
}

fn push_targets(text: &mut String, held: Option<&Held<Targets>>) -> Result<(), NoMemory>
    ensures { OnOk result (string_bytes text.new ≡ string_bytes text.old ++ targets_text (option_copied held.entry)) }
{
    match held {
        Some(held) => {
            push_named_line(
                text,
                "role",
                "targets".as_bytes(),
                held.document.signed().version,
            )
        }
        None => Ok(()),
    }
}

// Adds the versions of the top-level documents.
#[tactic(auto, unfolding(crate::specs::Report::versions_text))]
pub(crate) fn push_versions(text: &mut String, documents: &InForce) -> Result<(), NoMemory>
    ensures { OnOk result (string_bytes text.new ≡ string_bytes text.old ++ versions_text documents.now) }
{
    push_number_line(text, "root", documents.root.signed().version)?;
    push_timestamp(text, &documents.timestamp)?;
    push_snapshot(text, &documents.snapshot)?;
    push_targets(text, documents.targets.get("targets"))
}

// Adds the line of a target whose file is in its place.
#[tactic(auto, unfolding(crate::specs::Report::target_line, command_files::specs::Printed::line_of, command_files::specs::Printed::pair_line))]
pub(crate) fn push_target(
    alloc: Global,
    text: &mut String,
    name: &str,
    file: &[u8],
) -> Result<(), NoMemory>
    ensures { OnOk result (string_bytes text.new ≡ string_bytes text.old ++ target_line name.now file.now) }
{
    let digest = sha256(file);
    let digits = hex::encode(alloc, digest.as_bytes())?;
    text.push_str("target ")?;
    push_printed(text, name.as_bytes())?;
    text.push(' ')?;
    push_decimal(text, file.len() as u64)?;
    text.push_str(" sha256 ")?;
    push_line(text, digits.as_str())
}
