// The names under which documents are fetched and kept.
ghost use Rattle.std.specs.Prelude.{◌≡◌, Ok, IfOk, IfErr, option_map, option_copied};
ghost use Rattle.std.specs.Path.{slash, rsplit_once};
ghost use Rattle.sigstore_tuf_rules.specs.Names.{is_consistent, snapshot_pin_in, targets_pin_in, pinned_name, max_length, history_name, is_unreserved, escaped, role_file, role_pin_in, role_name_in, first_of, name_digest, digest_name, target_name_of, kept_target};

use crate::config::UpdaterConfig;
use crate::documents::InForce;
use crate::kind::Kind;
use foundation::NoMemory;
use percent_encoding::percent_encode_byte;
use sigstore_tuf_parts::{MetaFile, TargetFile, pin_name, versioned_name};
use sigstore_types_parts::{Text, TextMap};
use std::alloc::Global;

/// Whether the root in force asks for consistent names.
pub fn is_consistent(documents: &InForce) -> bool
    ensures { result ≡ is_consistent documents.now }
{
    documents.root.signed().consistent_snapshot
}

/// What the documents in force pin the snapshot by.
pub fn snapshot_pin_in(documents: &InForce) -> Option<&MetaFile>
    ensures { option_copied result ≡ snapshot_pin_in documents.now }
{
    match &documents.timestamp {
        Some(held) => held.document.signed().snapshot_meta(),
        None => None,
    }
}

/// What the documents in force pin the targets document by.
pub fn targets_pin_in(documents: &InForce) -> Option<&MetaFile>
    ensures { option_copied result ≡ targets_pin_in documents.now }
{
    match &documents.snapshot {
        Some(held) => held.document.signed().targets_meta(),
        None => None,
    }
}

/// The name of the root in force in the store.
pub const ROOT_FILE: &'static str = "root.json";

/// The name of a root in the store.
pub fn history_name(alloc: Global, number: u64) -> Result<Text, NoMemory>
    ensures { IfOk result (λ name. name ≡ history_name number) }
{
    Ok(Text::from_string(format!(in alloc; "root_history/{number}.root.json")?))
}

/// The name of a target in the store.
pub fn kept_target(alloc: Global, path: &str) -> Result<Text, NoMemory>
    ensures { IfOk result (λ name. name ≡ kept_target path.now) }
{
    Ok(Text::from_string(format!(in alloc; "targets/{path}")?))
}

/// The name of a document that is pinned so: under consistent names the pinned version stands before it.
pub fn pinned_name(
    alloc: Global,
    consistent: bool,
    pin: Option<&MetaFile>,
    name: &str,
) -> Result<Text, NoMemory>
    ensures { IfOk result (λ out. out ≡ pinned_name consistent (option_copied pin.entry) name.now) }
{
    match pin {
        Some(pin) => if consistent {
            versioned_name(alloc, pin.version, name)
        } else {
            Text::new(alloc, name)
        },
        None => Text::new(alloc, name),
    }
}

// The first digest.
fn first_of(hashes: &TextMap<Text>) -> Option<&Text>
    ensures { option_copied result ≡ first_of hashes.now }
{
    match hashes.iter().next() {
        Some((_, digest)) => Some(digest),
        None => None,
    }
}

// The digest that the name of a target has: SHA-256, else SHA-512, else the first.
fn name_digest(entry: &TargetFile) -> Option<&Text>
    ensures { option_copied result ≡ name_digest entry.now }
{
    if let Some(digest) = entry.hashes.get("sha256") {
        return Some(digest);
    }
    if let Some(digest) = entry.hashes.get("sha512") {
        return Some(digest);
    }
    first_of(&entry.hashes)
}

// A path before its last slash, and its last part.
fn last_part(path: &str) -> Option<(&str, &str)>
    ensures { option_map (λ x. (x.0.now, x.1.now)) result ≡ rsplit_once slash path.now }
{
    path.rsplit_once('/')
}

// A target's name with a digest before its last part.
fn digest_name(alloc: Global, digest: &str, path: &str) -> Result<Text, NoMemory>
    ensures { IfOk result (λ name. name ≡ digest_name digest.now path.now) }
{
    match last_part(path) {
        Some((folder, name)) => Ok(Text::from_string(format!(in alloc;
            "{folder}/{digest}.{name}"
        )?)),
        None => Ok(Text::from_string(format!(in alloc; "{digest}.{path}")?)),
    }
}

/// The name of a target's file in the repository; none where names are consistent and there is no digest.
pub fn target_name(
    alloc: Global,
    consistent: bool,
    entry: &TargetFile,
    path: &str,
) -> Result<Option<Text>, NoMemory>
    ensures { IfOk result (λ name. name ≡ target_name_of consistent entry.now path.now) }
{
    if !consistent {
        return Ok(Some(Text::new(alloc, path)?));
    }
    match name_digest(entry) {
        Some(digest) => Ok(Some(digest_name(alloc, digest.as_str(), path)?)),
        None => Ok(None),
    }
}

/// How long a document may be.
pub fn max_length(config: &UpdaterConfig, kind: Kind) -> u64
    ensures { result ≡ max_length config.now kind }
{
    match kind {
        Kind::Root(_) => config.root_max_length,
        Kind::Timestamp => config.timestamp_max_length,
        Kind::Snapshot => config.snapshot_max_length,
        Kind::Targets => config.targets_max_length,
    }
}

// Whether a byte stands in a file name as it is.
fn is_unreserved(c: u8) -> bool
    ensures { result ≡ is_unreserved c }
{
    c.is_ascii_alphanumeric() || c == b'-' || c == b'.' || c == b'_' || c == b'~'
}

// A role's name as it stands in a file name.
fn escaped(alloc: Global, name: &str) -> Result<Text, NoMemory>
    ensures { IfOk result (λ out. out ≡ escaped name.now) }
{
    let mut out = String::new(alloc);
    for byte in name.bytes() {
        if is_unreserved(byte) {
            out.push(char::from(byte))?;
        } else {
            out.push_str(percent_encode_byte(byte))?;
        }
    }
    Ok(Text::from_string(out))
}

/// The file name of a role's document.
pub fn role_file(alloc: Global, name: &str) -> Result<Text, NoMemory>
    ensures { IfOk result (λ out. out ≡ role_file name.now) }
{
    let escaped = escaped(alloc, name)?;
    Ok(Text::from_string(format!(in alloc; "{}.json", escaped.as_str())?))
}

/// What the snapshot in force pins a role's document by.
pub fn role_pin_in<'d>(
    alloc: Global,
    documents: &'d InForce,
    name: &str,
) -> Result<Option<&'d MetaFile>, NoMemory>
    ensures { IfOk result (λ pin. option_copied pin ≡ role_pin_in documents.now name.now) }
{
    let pinned = pin_name(alloc, name)?;
    match &documents.snapshot {
        Some(held) => Ok(held.document.signed().meta.get(pinned.as_str())),
        None => Ok(None),
    }
}

/// The name of a role's document in the repository.
pub fn role_name_in(alloc: Global, documents: &InForce, name: &str) -> Result<Text, NoMemory>
    ensures { IfOk result (λ out. out ≡ role_name_in documents.now name.now) }
{
    let pin = role_pin_in(alloc, documents, name)?;
    let file = role_file(alloc, name)?;
    pinned_name(alloc, is_consistent(documents), pin, file.as_str())
}
