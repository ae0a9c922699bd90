// The bundles of a list, each on a line of its own.
ghost use Rattle.std.specs.Prelude.{◌≡◌, ◌≢◌, ◌<◌, ◌==◌, [], ◌∷◌, length, Ok, Err, IfOk, IfErr, OnOk, MatchOption};
ghost use Rattle.std.specs.List.{position};
ghost use Rattle.command_bundles.specs.Lines.{is_space, is_blank, lines_of, added_of, bundles_from, listed_of};
ghost use Rattle.command_bundles.specs.declared.lines.ListFault.TheVariants.{NoMemory as Wanting};

use foundation::{NoMemory, Sequence};
use sigstore_types_parts::Bytes;
use std::alloc::Global;

/// The greatest number of bundles in a list.
pub const MAX_BUNDLES: usize = 1_000;

/// A bundle of a list: the number of its line, from 1 on, and its JSON text.
#[derive(Drop)]
pub struct ListedBundle {
    pub line: u64,
    pub text: Bytes,
}

/// Why the bundles of a list aren't judged.
#[derive(Clone, Copy, Debug, PartialEq, Eq, Drop)]
pub enum ListFault {
    /// Every line is blank, or there is none.
    NoBundle,
    /// There are more than `MAX_BUNDLES`.
    TooManyBundles,
    /// An allocation was refused.
    NoMemory,
}

impl From<NoMemory> for ListFault {
    ghost from_gives = { λ _ e. e ≡ Wanting };

    fn from(_: NoMemory) -> ListFault {
        ListFault::NoMemory
    }
}

// A blank, a tab or a carriage return.
fn is_space(octet: u8) -> bool
    ensures { result ≡ is_space octet }
{
    octet == b' ' || octet == b'\t' || octet == b'\r'
}

fn is_blank(line: &[u8]) -> bool
    ensures { result ≡ is_blank line.now }
{
    line.iter().all(|octet| is_space(*octet))
}

// Where the first line ends.
fn line_end(octets: &[u8]) -> Option<usize>
    ensures { result ≡ position (λ octet. octet == 10) octets.now }
{
    octets.iter().position(|octet| *octet == b'\n')
}

// The first line, and what stands behind its line feed.
fn cut(octets: &[u8]) -> Option<(&[u8], &[u8])>
    ensures { MatchOption result (lines_of octets.now ≡ octets.now ∷ [])
        (λ parts. (lines_of octets.now ≡ parts.0.now ∷ lines_of parts.1.now) × (length parts.1.now < length octets.now)) }
{
    match line_end(octets) {
        Some(end) => {
            let (line, rest) = octets.split_at(end);
            let (_, rest) = rest.split_at(1);
            Some((line, rest))
        }
        None => None,
    }
}

// Adds the bundle of a line that isn't blank.
#[tactic(auto, unfolding(crate::specs::Lines::added_of))]
fn add(
    alloc: Global,
    bundles: &mut Sequence<ListedBundle>,
    line: u64,
    text: &[u8],
) -> Result<(), ListFault>
    ensures ok { OnOk result (added_of bundles.old line text.now ≡ Ok bundles.new) }
    ensures err { IfErr result (λ e. e ≢ ListFault.NoMemory → added_of bundles.old line text.now ≡ Err e) }
{
    if is_blank(text) {
        return Ok(());
    }
    if bundles.len() >= MAX_BUNDLES {
        return Err(ListFault::TooManyBundles);
    }
    let text = Bytes::new(alloc, text)?;
    bundles.push(ListedBundle { line, text })?;
    Ok(())
}

// The bundles of all lines.
fn bundles_in(alloc: Global, list: &[u8]) -> Result<Sequence<ListedBundle>, ListFault>
    ensures ok { IfOk result (λ bundles. bundles_from [] 1 (lines_of list.now) ≡ Ok bundles) }
    ensures err { IfErr result (λ e. e ≢ ListFault.NoMemory → bundles_from [] 1 (lines_of list.now) ≡ Err e) }
{
    let mut bundles = Sequence::new(alloc);
    let mut rest = list;
    let mut line = 1;
    'lines: while let Some((text, next)) = cut(rest) {
        add(alloc, &mut bundles, line, text)?;
        line += 1;
        rest = next;
    }
    add(alloc, &mut bundles, line, rest)?;
    Ok(bundles)
}

/// The bundles of a list, which has a JSON text on each line that isn't blank. Lines are counted from 1 on, the blank ones
/// too. Errors: `TooManyBundles`, where more than `MAX_BUNDLES` stand in it; `NoBundle`; `NoMemory`.
#[tactic(auto, unfolding(crate::specs::Lines::listed_of))]
pub fn listed_bundles(alloc: Global, list: &[u8]) -> Result<Sequence<ListedBundle>, ListFault>
    ensures ok { IfOk result (λ bundles. listed_of list.now ≡ Ok bundles) }
    ensures err { IfErr result (λ e. e ≢ ListFault.NoMemory → listed_of list.now ≡ Err e) }
{
    let bundles = bundles_in(alloc, list)?;
    if bundles.is_empty() {
        return Err(ListFault::NoBundle);
    }
    Ok(bundles)
}
