// What a run over a folder goes to.
ghost use Rattle.std.specs.Prelude.{◌≡◌};

use command_files::{FileInputs, Layout, StdoutSink};
use release_gate::FileFolder;
use sigstore_tuf_outside::{FileRepository, FileStore};
use std::rt::Runtime;

/// What a run over a folder reads from and writes to. Nothing is opened before its first use.
#[derive(Drop)]
pub struct GateObjects<'r, X: Runtime + AllocGlobal> {
    pub inputs: FileInputs<'r, X>,
    pub repository: FileRepository<'r, X>,
    pub store: FileStore<'r, X>,
    pub folder: FileFolder<'r, X>,
    pub out: StdoutSink<'r, X>,
}

/// The objects in the files and folders that a layout names.
pub fn gate_objects_at<X: Runtime + AllocGlobal>(rt: &X, layout: Layout) -> GateObjects<'_, X>
    ensures root { result.inputs.root ≡ layout.root }
    ensures policy { result.inputs.policy ≡ layout.policy }
    ensures provider { result.inputs.provider ≡ layout.provider }
    ensures repository { result.repository.dir ≡ layout.repository }
    ensures store { result.store.dir ≡ layout.store }
    ensures folder { result.folder.dir ≡ layout.judged }
{
    let Layout {
        root,
        repository,
        store,
        bundle,
        judged,
        policy,
        provider,
        ..
    } = layout;
    GateObjects {
        inputs: FileInputs::new(rt, root, bundle, policy, provider),
        repository: FileRepository::new(rt, repository),
        store: FileStore::new(rt, store),
        folder: FileFolder::new(rt, judged),
        out: StdoutSink::new(rt),
    }
}
