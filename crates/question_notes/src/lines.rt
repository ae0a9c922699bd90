// The lines of a provider file.
ghost use Rattle.std.specs.Prelude.{◌≡◌, ◌++◌, OnOk, string_bytes};
ghost use Rattle.question_notes.specs.Lines.{field_text, armor_line, accept_line};

use base64::engine::general_purpose::STANDARD;
use foundation::NoMemory;
use sigstore_keys::SigningScheme;
use std::alloc::Global;

// A field: base64, or a dash for no bytes.
fn push_field(alloc: Global, text: &mut String, bytes: &[u8]) -> Result<(), NoMemory>
    ensures { OnOk result (string_bytes text.new ≡ string_bytes text.old ++ field_text bytes.now) }
{
    if bytes.is_empty() {
        text.push('-')?;
        return Ok(());
    }
    let encoded = STANDARD.encode(alloc, bytes)?;
    text.push_str(encoded.as_str())?;
    Ok(())
}

// `armor SORT TEXT DER`.
#[tactic(auto, unfolding(crate::specs::Lines::armor_line))]
pub(crate) fn push_armor_line(
    alloc: Global,
    text: &mut String,
    sort: &str,
    armored: &[u8],
    der: &[u8],
) -> Result<(), NoMemory>
    ensures { OnOk result (string_bytes text.new ≡ string_bytes text.old ++ armor_line sort.now armored.now der.now) }
{
    text.push_str("armor ")?;
    text.push_str(sort)?;
    text.push(' ')?;
    push_field(alloc, text, armored)?;
    text.push(' ')?;
    push_field(alloc, text, der)?;
    text.push('\n')?;
    Ok(())
}

// `accept SCHEME KEY SUBJECT SIGNATURE`.
#[tactic(auto, unfolding(crate::specs::Lines::accept_line))]
pub(crate) fn push_accept_line(
    alloc: Global,
    text: &mut String,
    scheme: SigningScheme,
    key: &[u8],
    subject: &[u8],
    signature: &[u8],
) -> Result<(), NoMemory>
    ensures { OnOk result (string_bytes text.new ≡ string_bytes text.old ++ accept_line scheme key.now subject.now signature.now) }
{
    text.push_str("accept ")?;
    text.push_str(scheme.name())?;
    text.push(' ')?;
    push_field(alloc, text, key)?;
    text.push(' ')?;
    push_field(alloc, text, subject)?;
    text.push(' ')?;
    push_field(alloc, text, signature)?;
    text.push('\n')?;
    Ok(())
}
