// Words of the form `--name=value`.
ghost use Rattle.std.specs.Prelude.{◌≡◌, ◌≢◌, Ok, Err, IfOk, IfErr, OnOk};
ghost use Rattle.std.specs.List.{list_all};
ghost use Rattle.command_files.specs.Named.{texts, is_among, known_by, has_name, value_placed, word_placed};
ghost use Rattle.command_files.specs.Named.{words_placed, values_of, named_of, text_at, moment_at};

use crate::lines::cut;
use crate::usage_fault::UsageFault;
use foundation::NoMemory;
use jiff::Timestamp;
use sigstore_types_parts::{Text, TextMap, instant};
use std::alloc::Global;

/// Which names may stand, each with its dashes: those that are wanted, and the others.
#[derive(Clone, Copy)]
pub struct Names<'a> {
    pub wanted: &'a [&'a str],
    pub optional: &'a [&'a str],
}

fn is_among(names: &[&str], name: &str) -> bool
    ensures { result ≡ is_among (texts names.now) name.now }
{
    for known in names {
        if *known == name {
            return true;
        }
    }
    false
}

impl<'a> Names<'a> {
    fn know(&self, name: &str) -> bool
        ensures { result ≡ known_by self.now name.now }
    {
        is_among(self.wanted, name) || is_among(self.optional, name)
    }
}

#[tactic(auto, unfolding(crate::specs::Named::has_name))]
fn has_name(found: &TextMap<Text>, name: &str) -> bool
    ensures { result ≡ has_name found.now name.now }
{
    found.get(name).is_some()
}

// A value under a known name that has none yet.
fn place_value(
    alloc: Global,
    names: &Names<'_>,
    found: &mut TextMap<Text>,
    name: &str,
    value: &str,
) -> Result<(), UsageFault>
    ensures ok { OnOk result
        (value_placed (known_by names.now) found.old name.now value.now ≡ Ok found.new) }
    ensures err { IfErr result (λ e. e ≢ UsageFault.NoMemory →
        value_placed (known_by names.now) found.old name.now value.now ≡ Err e) }
{
    if !names.know(name) || has_name(found, name) {
        return Err(UsageFault::Usage);
    }
    found.insert(Text::new(alloc, name)?, Text::new(alloc, value)?)?;
    Ok(())
}

fn place_word(
    alloc: Global,
    names: &Names<'_>,
    found: &mut TextMap<Text>,
    word: &str,
) -> Result<(), UsageFault>
    ensures ok { OnOk result (word_placed (known_by names.now) found.old word.now ≡ Ok found.new) }
    ensures err { IfErr result (λ e. e ≢ UsageFault.NoMemory →
        word_placed (known_by names.now) found.old word.now ≡ Err e) }
{
    match cut(word, '=') {
        Some((_, "")) => Err(UsageFault::Usage),
        Some((name, value)) => match place_value(alloc, names, found, name, value) {
            Ok(()) => Ok(()),
            Err(e) => Err(e),
        },
        None => Err(UsageFault::Usage),
    }
}

fn place_words(
    alloc: Global,
    names: &Names<'_>,
    found: &mut TextMap<Text>,
    words: &[Text],
) -> Result<(), UsageFault>
    ensures ok { OnOk result (words_placed (known_by names.now) found.old words.now ≡ Ok found.new) }
    ensures err { IfErr result (λ e. e ≢ UsageFault.NoMemory →
        words_placed (known_by names.now) found.old words.now ≡ Err e) }
{
    'words: for word in words {
        match place_word(alloc, names, found, word.as_str()) {
            Ok(()) => (),
            Err(e) => return Err(e),
        }
    }
    Ok(())
}

fn has_each(found: &TextMap<Text>, wanted: &[&str]) -> bool
    ensures { result ≡ list_all (has_name found.now) (texts wanted.now) }
{
    for name in wanted {
        if !has_name(found, name) {
            return false;
        }
    }
    true
}

// The values of the words, each wanted one among them.
fn values_of(alloc: Global, names: &Names<'_>, words: &[Text]) -> Result<TextMap<Text>, UsageFault>
    ensures ok { IfOk result (λ found.
        values_of (known_by names.now) (texts names.now.wanted.now) words.now ≡ Ok found) }
    ensures err { IfErr result (λ e. e ≢ UsageFault.NoMemory →
        values_of (known_by names.now) (texts names.now.wanted.now) words.now ≡ Err e) }
{
    let mut found = TextMap::new(alloc);
    match place_words(alloc, names, &mut found, words) {
        Ok(()) => {
            if has_each(&found, names.wanted) {
                return Ok(found);
            }
            drop(found);
            Err(UsageFault::Usage)
        }
        Err(e) => {
            drop(found);
            Err(e)
        }
    }
}

/// The values of a command's words by their names: the first word is the command's; each other one is
/// `--name=value` with a value that isn't empty, under a wanted or an optional name, each at most once;
/// and each wanted name stands. The names have their dashes. Errors: `Usage` for other words; `NoMemory`.
#[tactic(auto, unfolding(crate::specs::Named::named_of))]
pub fn named_words(
    alloc: Global,
    command: &str,
    wanted: &[&str],
    optional: &[&str],
    words: &[Text],
) -> Result<TextMap<Text>, UsageFault>
    ensures ok { let of = named_of command.now (texts wanted.now) (texts optional.now) in
        IfOk result (λ found. of words.now ≡ Ok found) }
    ensures err { let of = named_of command.now (texts wanted.now) (texts optional.now) in
        IfErr result (λ e. e ≢ UsageFault.NoMemory → of words.now ≡ Err e) }
{
    match words {
        [word, others @ ..] => {
            if word.as_str() != command {
                return Err(UsageFault::Usage);
            }
            let names = Names { wanted, optional };
            match values_of(alloc, &names, others) {
                Ok(found) => Ok(found),
                Err(e) => Err(e),
            }
        }
        [] => Err(UsageFault::Usage),
    }
}

/// The value under a name; empty where there is none.
pub fn text_at(alloc: Global, found: &TextMap<Text>, name: &str) -> Result<Text, NoMemory>
    ensures { IfOk result (λ text. text ≡ text_at name.now found.now) }
{
    match found.get(name) {
        Some(text) => Ok(Text::new(alloc, text.as_str())?),
        None => Ok(Text::from_string(String::new(alloc))),
    }
}

/// The instant under a name, where there is one. Errors: `Usage` for a value that is none.
pub fn moment_at(found: &TextMap<Text>, name: &str) -> Result<Option<Timestamp>, UsageFault>
    ensures { result ≡ moment_at name.now found.now }
{
    match found.get(name) {
        Some(text) => match instant(text.as_str()) {
            Some(moment) => Ok(Some(moment)),
            None => Err(UsageFault::Usage),
        },
        None => Ok(None),
    }
}
