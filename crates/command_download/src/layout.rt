// The words of the command `download`.
ghost use Rattle.std.specs.Prelude.{◌≡◌, ◌≢◌, Some, None, Ok, Err, IfOk, IfErr, OnOk, MatchOption, option_map};
ghost use Rattle.command_files.specs.Lines.{cut_of};
ghost use Rattle.command_files.specs.Layout.{form_by};
ghost use Rattle.command_download.specs.Layout.{value_of, given_of, is_taken, is_few, word_sorted, words_sorted, sorted_of, laid_of, download_layout_of, asked_download_layout_of};

use command_files::{Form, Layout, UsageFault, layout_under};
use foundation::{NoMemory, Sequence};
use sigstore_types_parts::Text;
use std::alloc::Global;

/// A target's name, and the path of the file that it is written to.
#[derive(Drop)]
pub struct Download {
    pub target: Text,
    pub out: Text,
}

/// Where the objects of `download` lie, and what is put where.
#[derive(Drop)]
pub struct DownloadLayout {
    pub places: Layout,
    pub downloads: Sequence<Download>,
}

/// The words that were read: those of the form, the target that waits for its file, and the downloads.
#[derive(Drop)]
pub struct Sorted {
    pub plain: Sequence<Text>,
    pub waiting: Option<Text>,
    pub downloads: Sequence<Download>,
}

// The greatest number of targets in one run.
const MAX_DOWNLOADS: usize = 64;

fn cut(text: &str) -> Option<(&str, &str)>
    ensures { MatchOption result (cut_of 61 text.now ≡ None) (λ parts. cut_of 61 text.now ≡ Some (parts.0.now, parts.1.now)) }
{
    text.split_once('=')
}

// The value of a word of this name.
#[tactic(auto, unfolding(crate::specs::Layout::value_of))]
fn value_of<'w>(name: &str, word: &'w str) -> Option<&'w str>
    ensures { option_map (λ text. text.now) result ≡ value_of name.now word.now }
{
    match cut(word) {
        Some((front, back)) => if front == name { Some(back) } else { None },
        None => None,
    }
}

// A copy of a value that isn't empty.
fn given(alloc: Global, value: Option<&str>) -> Result<Text, UsageFault>
    ensures ok { IfOk result (λ text. given_of (option_map (λ text. text.now) value.entry) ≡ Ok text) }
    ensures err { IfErr result (λ e. e ≢ UsageFault.NoMemory → given_of (option_map (λ text. text.now) value.entry) ≡ Err e) }
{
    match value {
        Some("") => Err(UsageFault::Usage),
        Some(text) => Ok(Text::new(alloc, text)?),
        None => Err(UsageFault::Usage),
    }
}

fn is_taken(downloads: &[Download], out: &str) -> bool
    ensures { result ≡ is_taken downloads.now out.now }
{
    for download in downloads {
        if download.out.as_str() == out {
            return true;
        }
    }
    false
}

// One word more.
fn sort_word(alloc: Global, sorted: &mut Sorted, word: &Text) -> Result<(), UsageFault>
    ensures ok { OnOk result (word_sorted sorted.old word.now ≡ Ok sorted.new) }
    ensures err { IfErr result (λ e. e ≢ UsageFault.NoMemory → word_sorted sorted.old word.now ≡ Err e) }
{
    match sorted.waiting.take() {
        Some(target) => {
            let out = given(alloc, value_of("--out", word.as_str()))?;
            if is_taken(sorted.downloads.as_slice(), out.as_str()) {
                return Err(UsageFault::Usage);
            }
            sorted.downloads.push(Download { target, out })?;
        }
        None => match value_of("--target", word.as_str()) {
            Some(name) => sorted.waiting = Some(given(alloc, Some(name))?),
            None => sorted.plain.push(Text::new(alloc, word.as_str())?)?,
        },
    }
    Ok(())
}

// Each of the words in turn.
fn sort_words(alloc: Global, sorted: &mut Sorted, words: &[Text]) -> Result<(), UsageFault>
    ensures ok { OnOk result (words_sorted sorted.old words.now ≡ Ok sorted.new) }
    ensures err { IfErr result (λ e. e ≢ UsageFault.NoMemory → words_sorted sorted.old words.now ≡ Err e) }
{
    'words: for word in words {
        match sort_word(alloc, sorted, word) {
            Ok(()) => (),
            Err(e) => return Err(e),
        }
    }
    Ok(())
}

fn is_few(count: usize) -> bool
    ensures { result ≡ is_few count }
{
    0 < count && count <= MAX_DOWNLOADS
}

// The words, of which no target waits for its file, and as many downloads as may be.
fn sort(alloc: Global, words: &[Text]) -> Result<Sorted, UsageFault>
    ensures ok { IfOk result (λ s. sorted_of words.now ≡ Ok s) }
    ensures err { IfErr result (λ e. e ≢ UsageFault.NoMemory → sorted_of words.now ≡ Err e) }
{
    let mut sorted = Sorted {
        plain: Sequence::new(alloc),
        waiting: None,
        downloads: Sequence::new(alloc),
    };
    match sort_words(alloc, &mut sorted, words) {
        Ok(()) => {
            if sorted.waiting.is_none() && is_few(sorted.downloads.len()) {
                return Ok(sorted);
            }
            drop(sorted);
            Err(UsageFault::Usage)
        }
        Err(e) => {
            drop(sorted);
            Err(e)
        }
    }
}

// The layout that the words give under a form.
fn laid_out(alloc: Global, form: &Form<'_>, words: &[Text]) -> Result<DownloadLayout, UsageFault>
    ensures ok { IfOk result (λ l. laid_of (form_by form.now) words.now ≡ Ok l) }
    ensures err { IfErr result (λ e. e ≢ UsageFault.NoMemory → laid_of (form_by form.now) words.now ≡ Err e) }
{
    match sort(alloc, words) {
        Ok(sorted) => {
            let Sorted {
                plain,
                downloads,
                ..
            } = sorted;
            match layout_under(alloc, form, plain.as_slice()) {
                Ok(places) => Ok(DownloadLayout { places, downloads }),
                Err(e) => {
                    drop(downloads);
                    Err(e)
                }
            }
        }
        Err(e) => Err(e),
    }
}

/// The layout that the words give: `download`, `--root=`, `--repository=`, `--store=`, `--provider=`, each once,
/// `--now=` at most once, and from 1 to 64 times `--target=` with `--out=` right behind it, in any order. Each file is
/// named once. Errors: `Usage` for other words; `NoMemory`.
#[tactic(auto, unfolding(crate::specs::Layout::download_layout_of))]
pub fn download_layout(alloc: Global, words: &[Text]) -> Result<DownloadLayout, UsageFault>
    ensures ok { IfOk result (λ l. download_layout_of words.now ≡ Ok l) }
    ensures err { IfErr result (λ e. e ≢ UsageFault.NoMemory → download_layout_of words.now ≡ Err e) }
{
    let form = Form {
        command: "download",
        wanted: &["--root", "--repository", "--store", "--provider"],
        judged: "",
        rows: "--provider",
    };
    laid_out(alloc, &form, words)
}

/// The layout that the words of a run that notes a download's questions give: `download-questions`, then those of
/// `download_layout` with `refused` in the place of `provider`. The rows of that file are signatures that are known not to
/// be good. Errors: `Usage` for other words; `NoMemory`.
#[tactic(auto, unfolding(crate::specs::Layout::asked_download_layout_of))]
pub fn asked_download_layout(alloc: Global, words: &[Text]) -> Result<DownloadLayout, UsageFault>
    ensures ok { IfOk result (λ l. asked_download_layout_of words.now ≡ Ok l) }
    ensures err { IfErr result (λ e. e ≢ UsageFault.NoMemory → asked_download_layout_of words.now ≡ Err e) }
{
    let form = Form {
        command: "download-questions",
        wanted: &["--root", "--repository", "--store", "--refused"],
        judged: "",
        rows: "--refused",
    };
    laid_out(alloc, &form, words)
}
