// The words of the command `gate` in its other ways.
ghost use Rattle.std.specs.Prelude.{◌≡◌, ◌≢◌, Ok, Err, IfOk, IfErr};
ghost use Rattle.command_ways.specs.FolderLayout.{folder_in, folder_under, folder_layout_of, asked_folder_layout_of};

use crate::layout::{TrustedBy, places, trusted_in};
use command_files::{Layout, UsageFault, named_words, text_at};
use sigstore_types_parts::{Text, TextMap};
use std::alloc::Global;

/// What `gate` is called with in any way: by what the trusted root is trusted, the path of the archive, and the other places,
/// as in `WayLayout`. What is judged is the folder.
#[derive(Drop)]
pub struct FolderLayout {
    pub by: TrustedBy,
    pub archive: Text,
    pub places: Layout,
}

// The layout of values by their names.
#[tactic(auto, unfolding(crate::specs::FolderLayout::folder_in))]
fn folder_in(alloc: Global, rows: &str, found: &TextMap<Text>) -> Result<FolderLayout, UsageFault>
    ensures ok { IfOk result (λ l. folder_in rows.now found.now ≡ Ok l) }
    ensures err { IfErr result (λ e. e ≢ UsageFault.NoMemory → folder_in rows.now found.now ≡ Err e) }
{
    let by = trusted_in(found)?;
    let places = places(alloc, by, "--folder", rows, found)?;
    let archive = text_at(alloc, found, "--archive")?;
    Ok(FolderLayout {
        by,
        archive,
        places,
    })
}

// The layout of a command's words, whose file of rows has this name.
#[tactic(auto, unfolding(crate::specs::FolderLayout::folder_under))]
fn folder_way_under(
    alloc: Global,
    command: &str,
    rows: &str,
    words: &[Text],
) -> Result<FolderLayout, UsageFault>
    ensures ok { IfOk result (λ l. folder_under command.now rows.now words.now ≡ Ok l) }
    ensures err { IfErr result (λ e. e ≢ UsageFault.NoMemory → folder_under command.now rows.now words.now ≡ Err e) }
{
    let wanted = ["--folder", "--policy", rows];
    let optional = [
        "--root",
        "--repository",
        "--store",
        "--archive",
        "--trusted-root",
        "--now",
    ];
    match named_words(alloc, command, &wanted, &optional, words) {
        Ok(found) => {
            let layout = folder_in(alloc, rows, &found);
            drop(found);
            layout
        }
        Err(e) => Err(e),
    }
}

/// The layout that the words of `gate` give in any way: `--root=`, `--repository=` and `--store=`, or `--root=` and
/// `--archive=`, or `--trusted-root=` alone; `--folder=`, `--policy=`, `--provider=`; `--now=` may stand. Errors: `Usage`
/// for other words; `NoMemory`.
#[tactic(auto, unfolding(crate::specs::FolderLayout::folder_layout_of))]
pub fn gate_way_layout(alloc: Global, words: &[Text]) -> Result<FolderLayout, UsageFault>
    ensures ok { IfOk result (λ l. folder_layout_of words.now ≡ Ok l) }
    ensures err { IfErr result (λ e. e ≢ UsageFault.NoMemory → folder_layout_of words.now ≡ Err e) }
{
    folder_way_under(alloc, "gate", "--provider", words)
}

/// The layout that the words of a run that notes a folder's questions give: `gate-questions`, then those of `gate_way_layout`
/// with `refused` in the place of `provider`. The rows of that file are signatures that are known not to be good. Errors:
/// `Usage` for other words; `NoMemory`.
#[tactic(auto, unfolding(crate::specs::FolderLayout::asked_folder_layout_of))]
pub fn asked_gate_way_layout(alloc: Global, words: &[Text]) -> Result<FolderLayout, UsageFault>
    ensures ok { IfOk result (λ l. asked_folder_layout_of words.now ≡ Ok l) }
    ensures err { IfErr result (λ e. e ≢ UsageFault.NoMemory → asked_folder_layout_of words.now ≡ Err e) }
{
    folder_way_under(alloc, "gate-questions", "--refused", words)
}
