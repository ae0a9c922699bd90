// The words of the command `verify` where it is asked for more than the report.
ghost use Rattle.std.specs.List.{list_any};
ghost use Rattle.std.specs.Prelude.{◌≡◌, ◌≢◌, Ok, Err, IfOk, IfErr, option_map};
ghost use Rattle.command_ways.specs.Layout.{way_layout_of};
ghost use Rattle.command_outputs.specs.Layout.{file_in, files_in, is_details, is_other, others_in, file_of, outputs_layout_of};

use command_files::UsageFault;
use command_ways::{WayLayout, way_layout};
use foundation::{NoMemory, Sequence};
use sigstore_types_parts::Text;
use std::alloc::Global;

/// What a verification gives beside its report: the path of the file that the statement is put in, and whether lines on
/// the bundle stand behind the report.
#[derive(Drop)]
pub struct Outputs {
    pub statement: Option<Text>,
    pub details: bool,
}

/// What `verify` is called with: the way of the verification with its places, and what is asked for beside the report.
#[derive(Drop)]
pub struct OutputsLayout {
    pub verification: WayLayout,
    pub outputs: Outputs,
}

// The path that a word names, where it is one of `--statement`.
fn file_in(word: &str) -> Option<&str>
    ensures { option_map (λ text. text.now) result ≡ file_in word.now }
{
    word.strip_prefix("--statement=")
}

// The paths that the words name so.
fn files(alloc: Global, words: &[Text]) -> Result<Sequence<Text>, NoMemory>
    ensures { IfOk result (λ files. files ≡ files_in words.now) }
{
    let mut files = Sequence::new(alloc);
    'words: for word in words {
        if let Some(file) = file_in(word.as_str()) {
            files.push(Text::new(alloc, file)?)?;
        }
    }
    Ok(files)
}

// Whether a word asks for the lines behind the report.
fn is_details(word: &str) -> bool
    ensures { result ≡ is_details word.now }
{
    word == "--details"
}

fn are_details_asked(words: &[Text]) -> bool
    ensures { result ≡ list_any is_details words.now }
{
    words.iter().any(|word| is_details(word.as_str()))
}

fn is_other(word: &str) -> bool
    ensures { result ≡ is_other word.now }
{
    file_in(word).is_none() && !is_details(word)
}

// The other words.
fn others(alloc: Global, words: &[Text]) -> Result<Sequence<Text>, NoMemory>
    ensures { IfOk result (λ others. others ≡ others_in words.now) }
{
    let mut others = Sequence::new(alloc);
    'words: for word in words {
        if is_other(word.as_str()) {
            others.push(Text::new(alloc, word.as_str())?)?;
        }
    }
    Ok(others)
}

// The only one of the paths, where there is one; it isn't empty.
fn only(alloc: Global, files: &[Text]) -> Result<Option<Text>, UsageFault>
    ensures ok { IfOk result (λ file. file_of files.now ≡ Ok file) }
    ensures err { IfErr result (λ e. e ≢ UsageFault.NoMemory → file_of files.now ≡ Err e) }
{
    match files {
        [] => Ok(None),
        [file] => match file.as_str() {
            "" => Err(UsageFault::Usage),
            path => Ok(Some(Text::new(alloc, path)?)),
        },
        [_, _, ..] => Err(UsageFault::Usage),
    }
}

// The path of the statement's file.
fn file(alloc: Global, words: &[Text]) -> Result<Option<Text>, UsageFault>
    ensures ok { IfOk result (λ file. file_of (files_in words.now) ≡ Ok file) }
    ensures err { IfErr result (λ e. e ≢ UsageFault.NoMemory → file_of (files_in words.now) ≡ Err e) }
{
    let files = files(alloc, words)?;
    let file = only(alloc, files.as_slice());
    drop(files);
    file
}

// The layout of the other words.
fn verification(alloc: Global, words: &[Text]) -> Result<WayLayout, UsageFault>
    ensures ok { IfOk result (λ l. way_layout_of (others_in words.now) ≡ Ok l) }
    ensures err { IfErr result (λ e. e ≢ UsageFault.NoMemory → way_layout_of (others_in words.now) ≡ Err e) }
{
    let others = others(alloc, words)?;
    let layout = way_layout(alloc, others.as_slice());
    drop(others);
    layout
}

/// The layout that the words of `verify` give: `--statement=` at most once and not empty, and `--details`, among the words
/// that `way_layout` takes. Errors: `Usage` for other words; `NoMemory`.
#[tactic(auto, unfolding(crate::specs::Layout::outputs_layout_of))]
pub fn outputs_layout(alloc: Global, words: &[Text]) -> Result<OutputsLayout, UsageFault>
    ensures ok { IfOk result (λ l. outputs_layout_of words.now ≡ Ok l) }
    ensures err { IfErr result (λ e. e ≢ UsageFault.NoMemory → outputs_layout_of words.now ≡ Err e) }
{
    let statement = file(alloc, words)?;
    let verification = verification(alloc, words)?;
    Ok(OutputsLayout {
        verification,
        outputs: Outputs {
            statement,
            details: are_details_asked(words),
        },
    })
}
