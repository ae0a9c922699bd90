// Checkpoints.
ghost use Rattle.std.specs.Prelude.{◌≡◌, ◌≢◌, Ok, Err, length, IfOk, IfErr, MatchResult};
ghost use Rattle.std.specs.List.{list_all};
ghost use Rattle.std.specs.Char.{is_ascii_digit};
ghost use Rattle.sigstore_entries.specs.Checkpoint.{lines_of, line_of, origin_of, is_shortest_decimal, decimal_of, shortest_of, size_of, root_of};
ghost use Rattle.sigstore_entries.specs.Checkpoint.{behind_extensions, signed_of, checkpoint_of, signed_data_of};
ghost use Rattle.sigstore_types_parts.specs.declared.error.CheckpointRule.TheVariants.{Origin, Size, Root};

use crate::lines::{cut_line, ended_line, line_text};
use crate::signature_line::{CheckpointSignature, octets, read_signatures};
use foundation::{Duplicate, NoMemory, Sequence};
use sigstore_types_parts::{CheckpointRule, Sha256Hash, Text, TypesError};
use std::alloc::Global;

/// A checkpoint of a log: a tree's size and root, signed (C2SP tlog-checkpoint over signed-note).
#[derive(PartialEq, Drop)]
pub struct Checkpoint {
    text: Text,
    signed_length: usize,
    origin: Text,
    tree_size: u64,
    root_hash: Sha256Hash,
    signatures: Sequence<CheckpointSignature>,
}

impl Duplicate for Checkpoint {
    fn duplicate(&self, alloc: Global) -> Result<Checkpoint, NoMemory> {
        Ok(Checkpoint {
            text: self.text.duplicate(alloc)?,
            signed_length: self.signed_length,
            origin: self.origin.duplicate(alloc)?,
            tree_size: self.tree_size,
            root_hash: self.root_hash.duplicate(alloc)?,
            signatures: self.signatures.duplicate(alloc)?,
        })
    }
}

#[tactic(auto, unfolding(crate::specs::Checkpoint::origin_of))]
fn read_origin(line: &[u8]) -> Result<&str, TypesError>
    ensures { MatchResult result (λ origin. origin_of line.now ≡ Ok origin.now) (λ e. origin_of line.now ≡ Err e) }
{
    let origin = line_text(CheckpointRule::Origin, line)?;
    if origin.is_empty() {
        Err(TypesError::Checkpoint(CheckpointRule::Origin))
    } else {
        Ok(origin)
    }
}

fn are_digits(line: &[u8]) -> bool
    ensures { result ≡ list_all is_ascii_digit line.now }
{
    line.iter().all(|digit| digit.is_ascii_digit())
}

fn is_shortest_decimal(line: &[u8]) -> bool
    ensures { result ≡ is_shortest_decimal line.now }
{
    match line.split_first() {
        None => false,
        Some((first, digits)) => are_digits(line) && (*first != b'0' || digits.is_empty()),
    }
}

// The number that digits write.
#[tactic(auto, unfolding(crate::specs::Checkpoint::decimal_of))]
fn decimal(digits: &str) -> Result<u64, TypesError>
    ensures { result ≡ decimal_of digits.now }
{
    if !is_shortest_decimal(digits.as_bytes()) {
        return Err(TypesError::Checkpoint(CheckpointRule::Size));
    }
    match digits.parse::<u64>() {
        Ok(size) => Ok(size),
        Err(_) => Err(TypesError::Checkpoint(CheckpointRule::Size)),
    }
}

/// The number below 2^64 that a text is the shortest decimal of: digits, of which the first is 0 only in the number 0.
pub fn shortest_decimal(text: &str) -> Option<u64>
    ensures { result ≡ shortest_of text.now }
{
    decimal(text).ok()
}

fn read_size(line: &[u8]) -> Result<u64, TypesError>
    ensures { result ≡ size_of line.now }
{
    Ok(decimal(line_text(CheckpointRule::Size, line)?)?)
}

#[tactic(auto, unfolding(crate::specs::Checkpoint::root_of))]
fn read_root(alloc: Global, line: &[u8]) -> Result<Sha256Hash, TypesError>
    ensures ok { IfOk result (λ root. root_of line.now ≡ Ok root) }
    ensures err { IfErr result (λ e. e ≢ TypesError.NoMemory → root_of line.now ≡ Err e) }
{
    let octets = octets(alloc, CheckpointRule::Root, line)?;
    match Sha256Hash::try_from(octets.as_bytes()) {
        Ok(root) => Ok(root),
        Err(_) => Err(TypesError::Checkpoint(CheckpointRule::Root)),
    }
}

// The origin, and what stands behind its line.
#[tactic(auto, unfolding(crate::specs::Checkpoint::line_of))]
fn origin_line(text: &[u8]) -> Result<(&str, &[u8]), TypesError>
    ensures { MatchResult result (λ r. line_of Origin origin_of (lines_of text.now) ≡ Ok (r.0.now, lines_of r.1.now))
        (λ e. line_of Origin origin_of (lines_of text.now) ≡ Err e) }
{
    let (line, behind) = ended_line(CheckpointRule::Origin, text)?;
    Ok((read_origin(line)?, behind))
}

// The tree's size, and what stands behind its line.
#[tactic(auto, unfolding(crate::specs::Checkpoint::line_of))]
fn size_line(text: &[u8]) -> Result<(u64, &[u8]), TypesError>
    ensures { MatchResult result (λ r. line_of Size size_of (lines_of text.now) ≡ Ok (r.0, lines_of r.1.now))
        (λ e. line_of Size size_of (lines_of text.now) ≡ Err e) }
{
    let (line, behind) = ended_line(CheckpointRule::Size, text)?;
    Ok((read_size(line)?, behind))
}

// The tree's root, and what stands behind its line.
#[tactic(auto, unfolding(crate::specs::Checkpoint::line_of))]
fn root_line(alloc: Global, text: &[u8]) -> Result<(Sha256Hash, &[u8]), TypesError>
    ensures ok { IfOk result (λ r. line_of Root root_of (lines_of text.now) ≡ Ok (r.0, lines_of r.1.now)) }
    ensures err { IfErr result (λ e. e ≢ TypesError.NoMemory → line_of Root root_of (lines_of text.now) ≡ Err e) }
{
    let (line, behind) = ended_line(CheckpointRule::Root, text)?;
    Ok((read_root(alloc, line)?, behind))
}

// What stands behind the empty line.
fn behind_extensions(text: &[u8]) -> Result<&[u8], TypesError>
    ensures { MatchResult result (λ behind. behind_extensions (lines_of text.now) ≡ Ok (lines_of behind.now))
        (λ e. behind_extensions (lines_of text.now) ≡ Err e) }
{
    let mut rest = text;
    'lines: while let Some((line, next)) = cut_line(rest) {
        if line.is_empty() {
            return Ok(next);
        }
        line_text(CheckpointRule::Extension, line)?;
        rest = next;
    }
    Err(TypesError::Checkpoint(CheckpointRule::Extension))
}

// How many bytes of a text are signed.
fn signed_length(text: &[u8]) -> usize
    ensures { result ≡ length (signed_of (lines_of text.now)) }
{
    let mut rest = text;
    'lines: while let Some((line, next)) = cut_line(rest) {
        if line.is_empty() {
            break 'lines;
        }
        rest = next;
    }
    text.len() - rest.len()
}

// A checkpoint of a text, of which it keeps a copy.
#[tactic(auto, unfolding(crate::specs::Checkpoint::checkpoint_of))]
pub(crate) fn read_checkpoint(alloc: Global, text: &[u8]) -> Result<Checkpoint, TypesError>
    ensures ok { IfOk result (λ c. checkpoint_of text.now ≡ Ok c) }
    ensures err { IfErr result (λ e. e ≢ TypesError.NoMemory → checkpoint_of text.now ≡ Err e) }
{
    let (origin, behind_origin) = origin_line(text)?;
    let (tree_size, behind_size) = size_line(behind_origin)?;
    let (root_hash, behind_root) = root_line(alloc, behind_size)?;
    let behind = behind_extensions(behind_root)?;
    let signatures = read_signatures(alloc, behind)?;
    let whole = line_text(CheckpointRule::Signature, text)?;
    let origin = Text::new(alloc, origin)?;
    let signed_length = signed_length(text);
    Ok(Checkpoint {
        text: Text::new(alloc, whole)?,
        signed_length,
        origin,
        tree_size,
        root_hash,
        signatures,
    })
}

impl Checkpoint {
    /// The checkpoint that a text is. Errors: `Checkpoint` with the rule that the first wrong line breaks.
    pub fn from_text(alloc: Global, text: &[u8]) -> Result<Checkpoint, TypesError>
        ensures ok { IfOk result (λ c. checkpoint_of text.now ≡ Ok c) }
        ensures err { IfErr result (λ e. e ≢ TypesError.NoMemory → checkpoint_of text.now ≡ Err e) }
    {
        Ok(read_checkpoint(alloc, text)?)
    }

    /// The text that was read.
    pub fn text(&self) -> &[u8]
        ensures { result.now ≡ self.now.text }
    {
        self.text.as_str().as_bytes()
    }

    // The same.
    pub(crate) fn whole(&self) -> &Text
        ensures { result.now ≡ self.now.text }
    {
        &self.text
    }

    /// The log that made it, as its first line names it.
    pub fn origin(&self) -> &str
        ensures { result.now ≡ self.now.origin }
    {
        self.origin.as_str()
    }

    /// How many entries the tree has.
    pub fn tree_size(&self) -> u64
        ensures { result ≡ self.now.tree_size }
    {
        self.tree_size
    }

    /// The tree's root.
    pub fn root_hash(&self) -> &Sha256Hash
        ensures { result.now ≡ self.now.root_hash }
    {
        &self.root_hash
    }

    /// Its signatures, in the order of their lines.
    pub fn signatures(&self) -> &[CheckpointSignature]
        ensures { result.now ≡ self.now.signatures }
    {
        self.signatures.as_slice()
    }

    /// The text that is signed: up to the line feed before the empty line.
    pub fn signed_data(&self) -> &[u8]
        ensures { result.now ≡ signed_data_of self.now }
    {
        let text = self.text();
        let (signed, _) = text.split_at(self.signed_length.min(text.len()));
        signed
    }
}
