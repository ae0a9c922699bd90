// The lines of a call's texts, but for the rows of signatures.
ghost use Rattle.std.specs.Prelude.{◌≡◌, ◌++◌, OnOk, string_bytes};
ghost use Rattle.question_notes.specs.Lines.{field_text};
ghost use Rattle.embedded_verify.specs.Lines.{keep_line, file_line};

use base64::engine::general_purpose::STANDARD;
use command_files::push_decimal;
use foundation::NoMemory;
use std::alloc::Global;

// A field: base64, or a dash for no bytes.
fn push_field(alloc: Global, text: &mut String, bytes: &[u8]) -> Result<(), NoMemory>
    ensures { OnOk result (string_bytes text.new ≡ string_bytes text.old ++ field_text bytes.now) }
{
    if bytes.is_empty() {
        text.push('-')?;
        return Ok(());
    }
    let encoded = STANDARD.encode(alloc, bytes)?;
    text.push_str(encoded.as_str())?;
    Ok(())
}

/// `keep NAME BYTES`.
#[tactic(auto, unfolding(crate::specs::Lines::keep_line))]
pub fn push_keep_line(
    alloc: Global,
    text: &mut String,
    name: &[u8],
    bytes: &[u8],
) -> Result<(), NoMemory>
    ensures { OnOk result (string_bytes text.new ≡ string_bytes text.old ++ keep_line name.now bytes.now) }
{
    text.push_str("keep ")?;
    push_field(alloc, text, name)?;
    text.push(' ')?;
    push_field(alloc, text, bytes)?;
    text.push('\n')?;
    Ok(())
}

/// `file NAME MAX`.
#[tactic(auto, unfolding(crate::specs::Lines::file_line))]
pub fn push_file_line(
    alloc: Global,
    text: &mut String,
    name: &[u8],
    max: u64,
) -> Result<(), NoMemory>
    ensures { OnOk result (string_bytes text.new ≡ string_bytes text.old ++ file_line name.now max) }
{
    text.push_str("file ")?;
    push_field(alloc, text, name)?;
    text.push(' ')?;
    push_decimal(text, max)?;
    text.push('\n')?;
    Ok(())
}
