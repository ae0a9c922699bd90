// The rows of the provider file.
ghost use Rattle.std.specs.Prelude.{◌≡◌, ◌≢◌, Ok, Err, IfOk, IfErr, MatchResult};
ghost use Rattle.command_files.specs.Rows.{parted_of, is_subject, accepted_row_of, accept_row_of, is_der, armor_row_of, is_row};

use crate::fields::field;
use crate::lines::cut;
use crate::usage_fault::UsageFault;
use sigstore_keys::SigningScheme;
use sigstore_types_parts::Bytes;
use std::alloc::Global;

/// A signature that is accepted: its scheme, raw key, subject and bytes.
#[derive(Debug, PartialEq, Drop)]
pub struct AcceptRow {
    pub scheme: SigningScheme,
    pub key: Bytes,
    pub subject: Bytes,
    pub signature: Bytes,
}

/// An armoured text and what it holds.
#[derive(Debug, PartialEq, Drop)]
pub struct ArmorRow {
    pub text: Bytes,
    pub der: Bytes,
}

impl AcceptRow {
    /// Whether the row is that of a scheme, a raw key, a subject and a signature.
    pub fn is_of(&self, scheme: SigningScheme, key: &[u8], subject: &[u8], signature: &[u8]) -> bool
        ensures { result ≡ is_row scheme key.now subject.now signature.now self.now }
    {
        self.scheme.name() == scheme.name()
            && self.key.as_bytes() == key
            && self.subject.as_bytes() == subject
            && self.signature.as_bytes() == signature
    }
}

// The field before the first blank and what stands behind it.
pub(crate) fn parted(text: &str) -> Result<(&str, &str), UsageFault>
    ensures { MatchResult result (λ parts. parted_of text.now ≡ Ok (parts.0.now, parts.1.now)) (λ e. parted_of text.now ≡ Err e) }
{
    match cut(text, ' ') {
        Some((front, back)) => Ok((front, back)),
        None => Err(UsageFault::Usage),
    }
}

/// Whether a scheme can have the subject: one of its digest's length, where it has a digest.
pub fn is_subject(scheme: SigningScheme, subject: &[u8]) -> bool
    ensures { result ≡ is_subject scheme subject.now }
{
    match scheme.hash_algorithm() {
        Some(algorithm) => subject.len() == algorithm.digest_len(),
        None => true,
    }
}

fn accepted_row(alloc: Global, scheme: SigningScheme, text: &str) -> Result<AcceptRow, UsageFault>
    ensures ok { IfOk result (λ row. accepted_row_of scheme text.now ≡ Ok row) }
    ensures err { IfErr result (λ e. e ≢ UsageFault.NoMemory → accepted_row_of scheme text.now ≡ Err e) }
{
    let (key, rest) = parted(text)?;
    let (subject, signature) = parted(rest)?;
    let key = field(alloc, key)?;
    let subject = field(alloc, subject)?;
    let signature = field(alloc, signature)?;
    if !is_subject(scheme, subject.as_bytes()) {
        return Err(UsageFault::Usage);
    }
    Ok(AcceptRow {
        scheme,
        key,
        subject,
        signature,
    })
}

// `SCHEME KEY SUBJECT SIGNATURE`.
pub(crate) fn accept_row(alloc: Global, text: &str) -> Result<AcceptRow, UsageFault>
    ensures ok { IfOk result (λ row. accept_row_of text.now ≡ Ok row) }
    ensures err { IfErr result (λ e. e ≢ UsageFault.NoMemory → accept_row_of text.now ≡ Err e) }
{
    let (name, rest) = parted(text)?;
    match SigningScheme::from_name(name) {
        Some(scheme) => match accepted_row(alloc, scheme, rest) {
            Ok(row) => Ok(row),
            Err(e) => Err(e),
        },
        None => Err(UsageFault::Usage),
    }
}

/// Whether the text begins with `der:`.
pub fn is_der(text: &[u8]) -> bool
    ensures { result ≡ is_der text.now }
{
    text.starts_with(b"der:")
}

// `TEXT DER`.
pub(crate) fn armor_row(alloc: Global, fields: &str) -> Result<ArmorRow, UsageFault>
    ensures ok { IfOk result (λ row. armor_row_of fields.now ≡ Ok row) }
    ensures err { IfErr result (λ e. e ≢ UsageFault.NoMemory → armor_row_of fields.now ≡ Err e) }
{
    let (text, der) = parted(fields)?;
    let row = ArmorRow {
        text: field(alloc, text)?,
        der: field(alloc, der)?,
    };
    if is_der(row.text.as_bytes()) {
        drop(row);
        return Err(UsageFault::Usage);
    }
    Ok(row)
}
