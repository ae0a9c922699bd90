// The words of the command `check`.
ghost use Rattle.std.specs.Prelude.{◌≡◌, ◌≢◌, Ok, Err, IfOk, IfErr};
ghost use Rattle.sigstore_types_parts.specs.Entries.{at_name};
ghost use Rattle.command_files.specs.Layout.{layout_in};
ghost use Rattle.command_archive.specs.Layout.{check_form, version_of, check_in, check_layout_of};

use command_files::{Layout, UsageFault, moment_at, named_words, text_at};
use foundation::NoMemory;
use sigstore_entries::shortest_decimal;
use sigstore_types_parts::{Text, TextMap};
use std::alloc::Global;

/// What `check` is called with: where its objects lie, the least version that the timestamp may have, and the file that the
/// trusted root is put in.
#[derive(Drop)]
pub struct CheckLayout {
    pub places: Layout,
    pub least: Option<u64>,
    pub trusted_root: Option<Text>,
}

// The version under a name, where there is one.
fn version_at(found: &TextMap<Text>, name: &str) -> Result<Option<u64>, UsageFault>
    ensures { result ≡ version_of (at_name name.now found.now) }
{
    match found.get(name) {
        Some(text) => match shortest_decimal(text.as_str()) {
            Some(version) => Ok(Some(version)),
            None => Err(UsageFault::Usage),
        },
        None => Ok(None),
    }
}

// The path under a name, where there is one.
fn path_at(alloc: Global, found: &TextMap<Text>, name: &str) -> Result<Option<Text>, NoMemory>
    ensures { IfOk result (λ path. path ≡ at_name name.now found.now) }
{
    match found.get(name) {
        Some(text) => Ok(Some(Text::new(alloc, text.as_str())?)),
        None => Ok(None),
    }
}

fn places(alloc: Global, found: &TextMap<Text>) -> Result<Layout, UsageFault>
    ensures ok { IfOk result (λ places. layout_in check_form found.now ≡ Ok places) }
    ensures err { IfErr result (λ e. e ≢ UsageFault.NoMemory → layout_in check_form found.now ≡ Err e) }
{
    let now = moment_at(found, "--now")?;
    Ok(Layout {
        root: text_at(alloc, found, "--root")?,
        repository: text_at(alloc, found, "--repository")?,
        store: text_at(alloc, found, "--store")?,
        bundle: text_at(alloc, found, "--bundle")?,
        judged: text_at(alloc, found, "--archive")?,
        policy: text_at(alloc, found, "--policy")?,
        provider: text_at(alloc, found, "--provider")?,
        now,
    })
}

// The layout of values by their names.
#[tactic(auto, unfolding(crate::specs::Layout::check_in))]
fn check_in(alloc: Global, found: &TextMap<Text>) -> Result<CheckLayout, UsageFault>
    ensures ok { IfOk result (λ l. check_in found.now ≡ Ok l) }
    ensures err { IfErr result (λ e. e ≢ UsageFault.NoMemory → check_in found.now ≡ Err e) }
{
    let least = version_at(found, "--least")?;
    let places = places(alloc, found)?;
    let trusted_root = path_at(alloc, found, "--trusted-root")?;
    Ok(CheckLayout {
        places,
        least,
        trusted_root,
    })
}

/// The layout that the words give: `check`, then `--root=`, `--archive=`, `--provider=`, each once, and `--least=`, a
/// version in its shortest decimal, `--trusted-root=` and `--now=` at most once, in any order. Errors: `Usage` for other
/// words; `NoMemory`.
#[tactic(auto, unfolding(crate::specs::Layout::check_layout_of))]
pub fn check_layout(alloc: Global, words: &[Text]) -> Result<CheckLayout, UsageFault>
    ensures ok { IfOk result (λ l. check_layout_of words.now ≡ Ok l) }
    ensures err { IfErr result (λ e. e ≢ UsageFault.NoMemory → check_layout_of words.now ≡ Err e) }
{
    match named_words(
        alloc,
        "check",
        &["--root", "--archive", "--provider"],
        &["--least", "--trusted-root", "--now"],
        words,
    ) {
        Ok(found) => {
            let layout = check_in(alloc, &found);
            drop(found);
            layout
        }
        Err(e) => Err(e),
    }
}
