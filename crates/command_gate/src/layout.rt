// The words of the commands that judge or ask over a folder.
ghost use Rattle.std.specs.Prelude.{◌≡◌, ◌≢◌, Ok, Err, IfOk, IfErr};
ghost use Rattle.command_gate.specs.Layout.{gate_layout_of, asked_gate_layout_of};

use command_files::{Form, Layout, UsageFault, layout_under};
use sigstore_types_parts::Text;
use std::alloc::Global;

/// The layout that the words give: `gate`, then `--root=`, `--repository=`, `--store=`, `--folder=`, `--policy=` and
/// `--provider=`, each once, and `--now=` at most once, in any order. What is judged is the folder, which holds the
/// artifacts and their bundles. Errors: `Usage` for other words; `NoMemory`.
#[tactic(auto, unfolding(crate::specs::Layout::gate_layout_of))]
pub fn gate_layout(alloc: Global, words: &[Text]) -> Result<Layout, UsageFault>
    ensures ok { IfOk result (λ l. gate_layout_of words.now ≡ Ok l) }
    ensures err { IfErr result (λ e. e ≢ UsageFault.NoMemory → gate_layout_of words.now ≡ Err e) }
{
    let form = Form {
        command: "gate",
        wanted: &[
            "--root",
            "--repository",
            "--store",
            "--folder",
            "--policy",
            "--provider",
        ],
        judged: "--folder",
        rows: "--provider",
    };
    layout_under(alloc, &form, words)
}

/// The layout that the words of a run that notes a folder's questions give: `gate-questions`, then those of
/// `gate_layout` with `refused` in the place of `provider`. The rows of that file are signatures that are known not to be
/// good. Errors: `Usage` for other words; `NoMemory`.
#[tactic(auto, unfolding(crate::specs::Layout::asked_gate_layout_of))]
pub fn asked_gate_layout(alloc: Global, words: &[Text]) -> Result<Layout, UsageFault>
    ensures ok { IfOk result (λ l. asked_gate_layout_of words.now ≡ Ok l) }
    ensures err { IfErr result (λ e. e ≢ UsageFault.NoMemory → asked_gate_layout_of words.now ≡ Err e) }
{
    let form = Form {
        command: "gate-questions",
        wanted: &[
            "--root",
            "--repository",
            "--store",
            "--folder",
            "--policy",
            "--refused",
        ],
        judged: "--folder",
        rows: "--refused",
    };
    layout_under(alloc, &form, words)
}
