// The words of the command `verify` in its other ways.
ghost use Rattle.std.specs.Prelude.{◌≡◌, ◌≢◌, Ok, Err, IfOk, IfErr};
ghost use Rattle.command_files.specs.Named.{has_name};
ghost use Rattle.command_ways.specs.Layout.{root_name, trusted_by, trusted_in, subject_of, places_in, way_in, way_under, way_layout_of, asked_way_layout_of};

use crate::digests::{plain_words, told_digests};
use command_files::{Layout, UsageFault, moment_at, named_words, text_at};
use foundation::Sequence;
use sigstore_types_parts::{ArtifactDigest, Text, TextMap};
use std::alloc::Global;

/// By what a trusted root is trusted.
#[derive(Clone, Copy, Debug, PartialEq, Eq, Drop)]
pub enum TrustedBy {
    /// A repository and a store: the documents are walked to from the pinned root.
    Repository,
    /// An archive, which holds the documents from the pinned root on.
    Archive,
    /// The caller, who hands the trusted root in.
    Caller,
}

/// A way of verifying: by what the trusted root is trusted, and the artifact's digests where these are told.
#[derive(Drop)]
pub struct Way {
    pub by: TrustedBy,
    pub told: Option<Sequence<ArtifactDigest>>,
}

/// What `verify` is called with in any way: which it is, the path of the archive, and the other places. The place of the
/// root is that of the pinned root, or of the trusted root where the caller hands it in; a place that isn't told is empty.
#[derive(Drop)]
pub struct WayLayout {
    pub way: Way,
    pub archive: Text,
    pub places: Layout,
}

impl TrustedBy {
    fn root_name(self) -> &'static str
        ensures { result.now ≡ root_name self }
    {
        match self {
            TrustedBy::Caller => "--trusted-root",
            _ => "--root",
        }
    }
}

#[tactic(auto, unfolding(command_files::specs::Named::has_name))]
fn has(found: &TextMap<Text>, name: &str) -> bool
    ensures { result ≡ has_name found.now name.now }
{
    found.get(name).is_some()
}

// By what trust comes: whether a pinned root, a repository, a store, an archive, a trusted root stand.
fn trusted_by(
    root: bool,
    repository: bool,
    store: bool,
    archive: bool,
    trusted: bool,
) -> Result<TrustedBy, UsageFault>
    ensures { result ≡ trusted_by root repository store archive trusted }
{
    if root && repository && store && !archive && !trusted {
        return Ok(TrustedBy::Repository);
    }
    if root && archive && !repository && !store && !trusted {
        return Ok(TrustedBy::Archive);
    }
    if trusted && !root && !repository && !store && !archive {
        return Ok(TrustedBy::Caller);
    }
    Err(UsageFault::Usage)
}

// The same by the names that stand.
#[tactic(auto, unfolding(crate::specs::Layout::trusted_in))]
pub(crate) fn trusted_in(found: &TextMap<Text>) -> Result<TrustedBy, UsageFault>
    ensures { result ≡ trusted_in found.now }
{
    trusted_by(
        has(found, "--root"),
        has(found, "--repository"),
        has(found, "--store"),
        has(found, "--archive"),
        has(found, "--trusted-root"),
    )
}

// The digests where no artifact stands, and none where one does.
fn subject(
    artifact: bool,
    told: Sequence<ArtifactDigest>,
) -> Result<Option<Sequence<ArtifactDigest>>, UsageFault>
    ensures { result ≡ subject_of artifact told }
{
    if artifact != told.is_empty() {
        drop(told);
        return Err(UsageFault::Usage);
    }
    if artifact {
        drop(told);
        return Ok(None);
    }
    Ok(Some(told))
}

// The places under these names: of what is judged, and of the file of rows.
pub(crate) fn places(
    alloc: Global,
    by: TrustedBy,
    judged: &str,
    rows: &str,
    found: &TextMap<Text>,
) -> Result<Layout, UsageFault>
    ensures ok { IfOk result (λ places. places_in by judged.now rows.now found.now ≡ Ok places) }
    ensures err { IfErr result (λ e. e ≢ UsageFault.NoMemory → places_in by judged.now rows.now found.now ≡ Err e) }
{
    let now = moment_at(found, "--now")?;
    Ok(Layout {
        root: text_at(alloc, found, by.root_name())?,
        repository: text_at(alloc, found, "--repository")?,
        store: text_at(alloc, found, "--store")?,
        bundle: text_at(alloc, found, "--bundle")?,
        judged: text_at(alloc, found, judged)?,
        policy: text_at(alloc, found, "--policy")?,
        provider: text_at(alloc, found, rows)?,
        now,
    })
}

// The layout of values by their names, and of told digests.
#[tactic(auto, unfolding(crate::specs::Layout::way_in))]
fn way_in(
    alloc: Global,
    rows: &str,
    told: Sequence<ArtifactDigest>,
    found: &TextMap<Text>,
) -> Result<WayLayout, UsageFault>
    ensures ok { IfOk result (λ l. way_in rows.now told found.now ≡ Ok l) }
    ensures err { IfErr result (λ e. e ≢ UsageFault.NoMemory → way_in rows.now told found.now ≡ Err e) }
{
    let told = subject(has(found, "--artifact"), told)?;
    let by = trusted_in(found)?;
    let places = places(alloc, by, "--artifact", rows, found)?;
    let archive = text_at(alloc, found, "--archive")?;
    Ok(WayLayout {
        way: Way { by, told },
        archive,
        places,
    })
}

// The layout of a command's words, whose file of rows has this name.
#[tactic(auto, unfolding(crate::specs::Layout::way_under))]
fn way_under(
    alloc: Global,
    command: &str,
    rows: &str,
    words: &[Text],
) -> Result<WayLayout, UsageFault>
    ensures ok { IfOk result (λ l. way_under command.now rows.now words.now ≡ Ok l) }
    ensures err { IfErr result (λ e. e ≢ UsageFault.NoMemory → way_under command.now rows.now words.now ≡ Err e) }
{
    let told = told_digests(alloc, words)?;
    let plain = plain_words(alloc, words)?;
    let wanted = ["--bundle", "--policy", rows];
    let optional = [
        "--root",
        "--repository",
        "--store",
        "--archive",
        "--trusted-root",
        "--artifact",
        "--now",
    ];
    let found = named_words(alloc, command, &wanted, &optional, plain.as_slice())?;
    drop(plain);
    let layout = way_in(alloc, rows, told, &found);
    drop(found);
    layout
}

/// The layout that the words of `verify` give in any way: `--root=`, `--repository=` and `--store=`, or `--root=` and
/// `--archive=`, or `--trusted-root=` alone; `--artifact=`, or `--digest=` once for each algorithm; `--bundle=`, `--policy=`,
/// `--provider=`; `--now=` may stand. Errors: `Usage` for other words; `NoMemory`.
#[tactic(auto, unfolding(crate::specs::Layout::way_layout_of))]
pub fn way_layout(alloc: Global, words: &[Text]) -> Result<WayLayout, UsageFault>
    ensures ok { IfOk result (λ l. way_layout_of words.now ≡ Ok l) }
    ensures err { IfErr result (λ e. e ≢ UsageFault.NoMemory → way_layout_of words.now ≡ Err e) }
{
    way_under(alloc, "verify", "--provider", words)
}

/// The layout that the words of a run that notes questions give: `questions`, then those of `way_layout` with `refused` in
/// the place of `provider`. The rows of that file are signatures that are known not to be good. Errors: `Usage` for other
/// words; `NoMemory`.
#[tactic(auto, unfolding(crate::specs::Layout::asked_way_layout_of))]
pub fn asked_way_layout(alloc: Global, words: &[Text]) -> Result<WayLayout, UsageFault>
    ensures ok { IfOk result (λ l. asked_way_layout_of words.now ≡ Ok l) }
    ensures err { IfErr result (λ e. e ≢ UsageFault.NoMemory → asked_way_layout_of words.now ≡ Err e) }
{
    way_under(alloc, "questions", "--refused", words)
}
