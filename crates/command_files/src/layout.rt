// The words of the commands that judge or ask over files.
ghost use Rattle.std.specs.Prelude.{◌≡◌, ◌≢◌, Ok, Err, IfOk, IfErr, unwrap_or};
ghost use Rattle.std.specs.Result.{result_ok};
ghost use Rattle.command_files.specs.Layout.{form_by, layout_in, layout_under, layout_of, asked_layout_of};
ghost use Rattle.command_files.specs.Starting.{now_of};

use crate::named::{moment_at, named_words, text_at};
use crate::usage_fault::UsageFault;
use foundation::NoMemory;
use jiff::Timestamp;
use sigstore_types_parts::{Text, TextMap};
use std::alloc::Global;

/// The words of a command: the first one, and the names that are wanted behind it; `--now` may stand too. `judged` is the
/// name of what is judged, `rows` that of the file of rows: the provider's, or that of the refused signatures.
#[derive(Clone, Copy)]
pub struct Form<'a> {
    pub command: &'a str,
    pub wanted: &'a [&'a str],
    pub judged: &'a str,
    pub rows: &'a str,
}

/// Where the objects of a run lie, and the instant at which it judges; without one the clock counts. `judged` is the artifact,
/// the folder or the archive; `provider` is the file of rows: the provider's, or that of the refused signatures. A place that
/// a command has none of is empty.
#[derive(Drop)]
pub struct Layout {
    pub root: Text,
    pub repository: Text,
    pub store: Text,
    pub bundle: Text,
    pub judged: Text,
    pub policy: Text,
    pub provider: Text,
    pub now: Option<Timestamp>,
}

impl Layout {
    /// The instant of the words, else the clock's.
    pub fn moment(self, clock: Timestamp) -> Timestamp
        ensures { result ≡ now_of self clock }
    {
        self.now.unwrap_or(clock)
    }
}

// The layout of values by their names.
fn layout_in(alloc: Global, form: &Form<'_>, found: &TextMap<Text>) -> Result<Layout, UsageFault>
    ensures ok { IfOk result (λ l. layout_in (form_by form.now) found.now ≡ Ok l) }
    ensures err { IfErr result (λ e. e ≢ UsageFault.NoMemory → layout_in (form_by form.now) found.now ≡ Err e) }
{
    let now = moment_at(found, "--now")?;
    Ok(Layout {
        root: text_at(alloc, found, "--root")?,
        repository: text_at(alloc, found, "--repository")?,
        store: text_at(alloc, found, "--store")?,
        bundle: text_at(alloc, found, "--bundle")?,
        judged: text_at(alloc, found, form.judged)?,
        policy: text_at(alloc, found, "--policy")?,
        provider: text_at(alloc, found, form.rows)?,
        now,
    })
}

/// The layout that the words of a form give. Errors: `Usage` for other words; `NoMemory`.
pub fn layout_under(alloc: Global, form: &Form<'_>, words: &[Text]) -> Result<Layout, UsageFault>
    ensures ok { IfOk result (λ l. layout_under (form_by form.now) words.now ≡ Ok l) }
    ensures err { IfErr result (λ e. e ≢ UsageFault.NoMemory → layout_under (form_by form.now) words.now ≡ Err e) }
{
    match named_words(alloc, form.command, form.wanted, &["--now"], words) {
        Ok(found) => {
            let layout = layout_in(alloc, form, &found);
            drop(found);
            layout
        }
        Err(e) => Err(e),
    }
}

/// What was read, or none for other words.
pub fn or_none<L>(read: Result<L, UsageFault>) -> Result<Option<L>, NoMemory>
    ensures { IfOk result (λ found. found ≡ result_ok read) }
{
    match read {
        Ok(layout) => Ok(Some(layout)),
        Err(UsageFault::Usage) => Ok(None),
        Err(UsageFault::NoMemory) => Err(NoMemory),
    }
}

/// The layout that the words of a run that notes questions give: `questions`, then those of `read_layout`
/// with `refused` in the place of `provider`. The rows of that file are signatures that are known not to be good.
/// Errors: `Usage` for other words; `NoMemory`.
#[tactic(auto, unfolding(crate::specs::Layout::asked_layout_of))]
pub fn read_asked_layout(alloc: Global, words: &[Text]) -> Result<Layout, UsageFault>
    ensures ok { IfOk result (λ l. asked_layout_of words.now ≡ Ok l) }
    ensures err { IfErr result (λ e. e ≢ UsageFault.NoMemory → asked_layout_of words.now ≡ Err e) }
{
    let form = Form {
        command: "questions",
        wanted: &[
            "--root",
            "--repository",
            "--store",
            "--bundle",
            "--artifact",
            "--policy",
            "--refused",
        ],
        judged: "--artifact",
        rows: "--refused",
    };
    layout_under(alloc, &form, words)
}

/// The layout that the words give: `verify`, then `--name=value` at most once each, all names but `now`
/// wanted. Errors: `Usage` for other words; `NoMemory`.
#[tactic(auto, unfolding(crate::specs::Layout::layout_of))]
pub fn read_layout(alloc: Global, words: &[Text]) -> Result<Layout, UsageFault>
    ensures ok { IfOk result (λ l. layout_of words.now ≡ Ok l) }
    ensures err { IfErr result (λ e. e ≢ UsageFault.NoMemory → layout_of words.now ≡ Err e) }
{
    let form = Form {
        command: "verify",
        wanted: &[
            "--root",
            "--repository",
            "--store",
            "--bundle",
            "--artifact",
            "--policy",
            "--provider",
        ],
        judged: "--artifact",
        rows: "--provider",
    };
    layout_under(alloc, &form, words)
}
