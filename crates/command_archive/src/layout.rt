// The words of the command `archive`.
ghost use Rattle.std.specs.Prelude.{◌≡◌, ◌≢◌, Ok, Err, IfOk, IfErr};
ghost use Rattle.command_archive.specs.Layout.{archive_layout_of};

use command_files::{Form, Layout, UsageFault, layout_under};
use sigstore_types_parts::Text;
use std::alloc::Global;

/// The layout that the words give: `archive`, then `--root=`, `--repository=`, `--store=`, `--provider=`, each once, and
/// `--now=` at most once, in any order. Errors: `Usage` for other words; `NoMemory`.
#[tactic(auto, unfolding(crate::specs::Layout::archive_layout_of))]
pub fn archive_layout(alloc: Global, words: &[Text]) -> Result<Layout, UsageFault>
    ensures ok { IfOk result (λ l. archive_layout_of words.now ≡ Ok l) }
    ensures err { IfErr result (λ e. e ≢ UsageFault.NoMemory → archive_layout_of words.now ≡ Err e) }
{
    let form = Form {
        command: "archive",
        wanted: &["--root", "--repository", "--store", "--provider"],
        judged: "",
        rows: "--provider",
    };
    layout_under(alloc, &form, words)
}
