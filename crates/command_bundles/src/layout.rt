// The words of the command `verify` over a list of bundles.
ghost use Rattle.std.specs.Prelude.{◌≡◌, ◌≢◌, [], ◌++◌, codes, Ok, Err, IfOk, IfErr, option_map};
ghost use Rattle.command_ways.specs.Digests.{behind};
ghost use Rattle.command_bundles.specs.Layout.{word_of, words_from, bundles_layout_of};

use command_files::UsageFault;
use command_outputs::{OutputsLayout, outputs_layout};
use foundation::{NoMemory, Sequence};
use sigstore_types_parts::Text;
use std::alloc::Global;

// What stands behind a name.
fn behind<'w>(name: &str, word: &'w str) -> Option<&'w str>
    ensures { option_map (λ text. text.now) result ≡ behind name.now word.now }
{
    word.strip_prefix(name)
}

// The word for one bundle with this path.
fn renamed(alloc: Global, path: &str) -> Result<Text, NoMemory>
    ensures { IfOk result (λ text. text ≡ codes "--bundle=" ++ path.now) }
{
    let mut text = String::new(alloc);
    text.push_str("--bundle=")?;
    text.push_str(path)?;
    Ok(Text::from_string(text))
}

// The word that `verify` takes in the place of a word.
fn word(alloc: Global, word: &str) -> Result<Text, UsageFault>
    ensures ok { IfOk result (λ text. word_of word.now ≡ Ok text) }
    ensures err { IfErr result (λ e. e ≢ UsageFault.NoMemory → word_of word.now ≡ Err e) }
{
    if behind("--bundle=", word).is_some() {
        return Err(UsageFault::Usage);
    }
    match behind("--bundles=", word) {
        Some(path) => Ok(renamed(alloc, path)?),
        None => Ok(Text::new(alloc, word)?),
    }
}

// Those of all words.
fn words_for_one(alloc: Global, words: &[Text]) -> Result<Sequence<Text>, UsageFault>
    ensures ok { IfOk result (λ found. words_from [] words.now ≡ Ok found) }
    ensures err { IfErr result (λ e. e ≢ UsageFault.NoMemory → words_from [] words.now ≡ Err e) }
{
    let mut found = Sequence::new(alloc);
    'words: for given in words {
        let next = word(alloc, given.as_str())?;
        found.push(next)?;
    }
    Ok(found)
}

/// The layout that the words of `verify` give over a list of bundles: those that `outputs_layout` takes, with `--bundles=` in
/// the place of `--bundle=`, which doesn't stand; the place of the bundle is that of the list. Errors: `Usage` for other
/// words; `NoMemory`.
#[tactic(auto, unfolding(crate::specs::Layout::bundles_layout_of))]
pub fn bundles_layout(alloc: Global, words: &[Text]) -> Result<OutputsLayout, UsageFault>
    ensures ok { IfOk result (λ l. bundles_layout_of words.now ≡ Ok l) }
    ensures err { IfErr result (λ e. e ≢ UsageFault.NoMemory → bundles_layout_of words.now ≡ Err e) }
{
    let found = words_for_one(alloc, words)?;
    let layout = outputs_layout(alloc, found.as_slice());
    drop(found);
    layout
}
