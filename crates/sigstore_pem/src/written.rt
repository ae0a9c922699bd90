// Base64 in lines.
ghost use Rattle.std.specs.Prelude.{◌≡◌, [], ◌∷◌, ◌++◌, OnOk, IfOk};
ghost use Rattle.sigstore_pem.specs.Written.{wrapped, certificate_text};

use base64::engine::general_purpose::STANDARD;
use foundation::NoMemory;
use std::alloc::Global;

// A line and its end, behind a text.
fn push_line(text: &mut Vec<u8>, line: &[u8]) -> Result<(), NoMemory>
    ensures { OnOk result (text.new.items ≡ text.old.items ++ (line.now ++ (10 ∷ []))) }
{
    text.extend_from_slice(line)?;
    text.push(b'\n')?;
    Ok(())
}

// Base64 in lines of 64 characters and a last one of the rest, behind a text.
fn push_wrapped(text: &mut Vec<u8>, base64: &[u8]) -> Result<(), NoMemory>
    ensures { OnOk result (text.new.items ≡ text.old.items ++ wrapped base64.now) }
{
    let mut rest = base64;
    'lines: while rest.len() > 64 {
        let (line, next) = rest.split_at(64);
        push_line(text, line)?;
        rest = next;
    }
    if rest.is_empty() {
        return Ok(());
    }
    push_line(text, rest)?;
    Ok(())
}

// The text of a certificate.
pub(crate) fn certificate_text(alloc: Global, der: &[u8]) -> Result<Vec<u8>, NoMemory>
    ensures { IfOk result (λ text. text.items ≡ certificate_text der.now) }
{
    let base64 = STANDARD.encode(alloc, der)?;
    let mut text = Vec::new(alloc);
    push_line(&mut text, b"-----BEGIN CERTIFICATE-----")?;
    push_wrapped(&mut text, base64.as_bytes())?;
    push_line(&mut text, b"-----END CERTIFICATE-----")?;
    Ok(text)
}
