// The words of the command `audit`.
ghost use Rattle.std.specs.Prelude.{◌≡◌, ◌≢◌, Ok, Err, IfOk, IfErr, codes};
ghost use Rattle.command_files.specs.Named.{text_at};
ghost use Rattle.command_audit.specs.Layout.{key_in, layout_in, audit_layout_of};

use command_files::{UsageFault, named_words, text_at};
use sigstore_types_parts::{DerPublicKey, Text, TextMap, TypesError};
use std::alloc::Global;

/// The log's key, and where the objects of `audit` lie: the provider's file; the older checkpoint and the newer one; and the
/// folder of the log's tiles.
#[derive(Drop)]
pub struct AuditLayout {
    pub key: DerPublicKey,
    pub provider: Text,
    pub first: Text,
    pub second: Text,
    pub tiles: Text,
}

// The key that stands in base64.
fn key_in(alloc: Global, found: &TextMap<Text>) -> Result<DerPublicKey, UsageFault>
    ensures ok { IfOk result (λ key. key_in (text_at (codes "--key") found.now) ≡ Ok key) }
    ensures err { IfErr result (λ e. e ≢ UsageFault.NoMemory → key_in (text_at (codes "--key") found.now) ≡ Err e) }
{
    let text = text_at(alloc, found, "--key")?;
    let read = DerPublicKey::from_base64(alloc, text.as_str());
    drop(text);
    match read {
        Ok(key) => Ok(key),
        Err(TypesError::NoMemory) => Err(UsageFault::NoMemory),
        Err(_) => Err(UsageFault::Usage),
    }
}

// The layout of values by their names.
fn layout_in(alloc: Global, found: &TextMap<Text>) -> Result<AuditLayout, UsageFault>
    ensures ok { IfOk result (λ l. layout_in found.now ≡ Ok l) }
    ensures err { IfErr result (λ e. e ≢ UsageFault.NoMemory → layout_in found.now ≡ Err e) }
{
    let key = key_in(alloc, found)?;
    Ok(AuditLayout {
        key,
        provider: text_at(alloc, found, "--provider")?,
        first: text_at(alloc, found, "--first")?,
        second: text_at(alloc, found, "--second")?,
        tiles: text_at(alloc, found, "--tiles")?,
    })
}

/// The layout that the words give: `audit`, then `--key=`, `--provider=`, `--first=`, `--second=`, `--tiles=`, each once, in
/// any order, the key as base64 of a SubjectPublicKeyInfo. Errors: `Usage` for other words; `NoMemory`.
#[tactic(auto, unfolding(crate::specs::Layout::audit_layout_of))]
pub fn audit_layout(alloc: Global, words: &[Text]) -> Result<AuditLayout, UsageFault>
    ensures ok { IfOk result (λ l. audit_layout_of words.now ≡ Ok l) }
    ensures err { IfErr result (λ e. e ≢ UsageFault.NoMemory → audit_layout_of words.now ≡ Err e) }
{
    let wanted = ["--key", "--provider", "--first", "--second", "--tiles"];
    match named_words(alloc, "audit", &wanted, &[], words) {
        Ok(found) => {
            let layout = layout_in(alloc, &found);
            drop(found);
            layout
        }
        Err(e) => Err(e),
    }
}
