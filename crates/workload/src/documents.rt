// The four documents.
ghost use Rattle.std.specs.Prelude.{◌≡◌, false, IfOk, OnOk};
ghost use Rattle.serde_json.specs.Data.{string, put};
ghost use Rattle.serde_json.specs.View.{view, members_view};
ghost use Rattle.serde_json.specs.Written.{has_float};
ghost use Rattle.workload.specs.Documents.{key_value, role_value, roles_value, target_value, head_members, pinning, root_signed};
ghost use Rattle.workload.specs.Documents.{timestamp_signed, snapshot_signed, targets_signed, document_value, document_text};

use crate::armored_key;
use crate::trust::trust_file;
use foundation::NoMemory;
use serde_json::{Map, Value, json};
use sigstore_keys::sha256;
use sigstore_tuf_text::{SNAPSHOT_NAME, TARGETS_NAME};
use sigstore_types_parts::Bytes;
use std::alloc::Global;

const SOON: &'static str = "2030-01-01T00:00:00Z";

const LATER: &'static str = "2031-01-01T00:00:00Z";

#[tactic(auto, unfolding(crate::specs::Documents::key_value))]
fn key_value(alloc: Global) -> Result<Value, NoMemory>
    ensures { IfOk result (λ key. view key ≡ key_value) }
{
    let public = armored_key(alloc)?;
    Ok(
        json!(in alloc; {"keytype": "ecdsa", "keyval": {"public": &public}, "scheme": "ecdsa-sha2-nistp256"})?,
    )
}

#[tactic(auto, unfolding(crate::specs::Documents::role_value))]
fn role_value(alloc: Global) -> Result<Value, NoMemory>
    ensures { IfOk result (λ role. view role ≡ role_value) }
{
    Ok(json!(in alloc; {"keyids": ["k"], "threshold": 1u64})?)
}

#[tactic(auto, unfolding(crate::specs::Documents::roles_value))]
fn roles_value(alloc: Global) -> Result<Value, NoMemory>
    ensures { IfOk result (λ roles. view roles ≡ roles_value) }
{
    let role = role_value(alloc)?;
    Ok(json!(in alloc; {"root": &role, "snapshot": &role, "targets": &role, "timestamp": &role})?)
}

#[tactic(auto, unfolding(crate::specs::Documents::target_value))]
fn target_value(alloc: Global) -> Result<Value, NoMemory>
    ensures { IfOk result (λ target. view target ≡ target_value) }
{
    let file = trust_file(alloc)?;
    let length = file.as_bytes().len() as u64;
    let digest = sha256(file.as_bytes()).to_hex(alloc)?;
    Ok(json!(in alloc; {"hashes": {"sha256": digest.as_str()}, "length": length})?)
}

fn put_text(
    alloc: Global,
    members: &mut Map<String, Value>,
    name: &str,
    text: &str,
) -> Result<(), NoMemory>
    ensures { OnOk result
        (members_view members.new.entries ≡ put name.now (string text.now) (members_view members.old.entries)) }
{
    let value = Value::try_from_str(alloc, text)?;
    Ok(serde_json::put(members, alloc, name, value)?)
}

// What every kind of document has.
#[tactic(auto, unfolding(crate::specs::Documents::head_members))]
fn head(alloc: Global, kind: &str, expires: &str) -> Result<Map<String, Value>, NoMemory>
    ensures { IfOk result (λ members. members_view members.entries ≡ head_members kind.now expires.now) }
{
    let mut members = Map::new(alloc);
    put_text(alloc, &mut members, "_type", kind)?;
    put_text(alloc, &mut members, "expires", expires)?;
    put_text(alloc, &mut members, "spec_version", "1.0.0")?;
    serde_json::put(&mut members, alloc, "version", Value::from(1u64))?;
    Ok(members)
}

#[tactic(auto, unfolding(crate::specs::Documents::pinning))]
fn pinning(alloc: Global, kind: &str, expires: &str, name: &str) -> Result<Value, NoMemory>
    ensures { IfOk result (λ signed. view signed ≡ pinning kind.now expires.now name.now) }
{
    let pin = json!(in alloc; {name: {"version": 1u64}})?;
    let mut members = head(alloc, kind, expires)?;
    serde_json::put(&mut members, alloc, "meta", pin)?;
    Ok(Value::Object(members))
}

/// What the root signs.
#[tactic(auto, unfolding(crate::specs::Documents::root_signed, crate::specs::Documents::head_members))]
pub fn root_signed(alloc: Global) -> Result<Value, NoMemory>
    ensures { IfOk result (λ signed. view signed ≡ root_signed) }
{
    let key = key_value(alloc)?;
    let keys = json!(in alloc; {"k": key})?;
    let roles = roles_value(alloc)?;
    let mut members = head(alloc, "root", LATER)?;
    serde_json::put(
        &mut members,
        alloc,
        "consistent_snapshot",
        Value::Bool(false),
    )?;
    serde_json::put(&mut members, alloc, "keys", keys)?;
    serde_json::put(&mut members, alloc, "roles", roles)?;
    Ok(Value::Object(members))
}

/// What the timestamp signs.
#[tactic(auto, unfolding(crate::specs::Documents::timestamp_signed))]
pub fn timestamp_signed(alloc: Global) -> Result<Value, NoMemory>
    ensures { IfOk result (λ signed. view signed ≡ timestamp_signed) }
{
    pinning(alloc, "timestamp", SOON, SNAPSHOT_NAME)
}

/// What the snapshot signs.
#[tactic(auto, unfolding(crate::specs::Documents::snapshot_signed))]
pub fn snapshot_signed(alloc: Global) -> Result<Value, NoMemory>
    ensures { IfOk result (λ signed. view signed ≡ snapshot_signed) }
{
    pinning(alloc, "snapshot", LATER, TARGETS_NAME)
}

/// What the targets document signs.
#[tactic(auto, unfolding(crate::specs::Documents::targets_signed, crate::specs::Documents::head_members))]
pub fn targets_signed(alloc: Global) -> Result<Value, NoMemory>
    ensures { IfOk result (λ signed. view signed ≡ targets_signed) }
{
    let target = target_value(alloc)?;
    let targets = json!(in alloc; {"trusted_root.json": target})?;
    let mut members = head(alloc, "targets", LATER)?;
    serde_json::put(&mut members, alloc, "targets", targets)?;
    Ok(Value::Object(members))
}

#[tactic(auto, unfolding(crate::specs::Documents::document_value, crate::specs::Documents::signature_value))]
fn document_value(alloc: Global, signed: &Value) -> Result<Value, NoMemory>
    ensures { IfOk result (λ document. view document ≡ document_value (view signed.now)) }
{
    Ok(json!(in alloc; {"signatures": [{"keyid": "k", "sig": "01"}], "signed": signed})?)
}

/// The text of the document that signs this, where no float is in it.
#[tactic(auto, unfolding(crate::specs::Documents::document_value, crate::specs::Documents::signature_value))]
pub fn document_text(alloc: Global, signed: &Value) -> Result<Bytes, NoMemory>
    ensures { IfOk result (λ text. has_float (view signed.now) ≡ false → text ≡ document_text (view signed.now)) }
{
    let document = document_value(alloc, signed)?;
    let text = document.to_string(alloc)?;
    Ok(Bytes::from_vec(text.into_bytes()))
}
