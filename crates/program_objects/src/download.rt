// What a run of `download` goes to.
ghost use Rattle.std.specs.Prelude.{◌≡◌};

use command_download::FileShelf;
use command_files::{FileInputs, Layout, StdoutSink};
use sigstore_tuf_outside::{FileRepository, FileStore};
use std::rt::Runtime;

/// What a run of `download` reads from and writes to. Nothing is opened before its first use.
#[derive(Drop)]
pub struct DownloadObjects<'r, X: Runtime + AllocGlobal> {
    pub inputs: FileInputs<'r, X>,
    pub repository: FileRepository<'r, X>,
    pub store: FileStore<'r, X>,
    pub shelf: FileShelf<'r, X>,
    pub out: StdoutSink<'r, X>,
}

/// The objects in the files and folders that a layout names.
pub fn download_objects_at<X: Runtime + AllocGlobal>(
    rt: &X,
    layout: Layout,
) -> DownloadObjects<'_, X>
    ensures root { result.inputs.root ≡ layout.root }
    ensures provider { result.inputs.provider ≡ layout.provider }
    ensures repository { result.repository.dir ≡ layout.repository }
    ensures store { result.store.dir ≡ layout.store }
{
    let Layout {
        root,
        repository,
        store,
        bundle,
        policy,
        provider,
        ..
    } = layout;
    DownloadObjects {
        inputs: FileInputs::new(rt, root, bundle, policy, provider),
        repository: FileRepository::new(rt, repository),
        store: FileStore::new(rt, store),
        shelf: FileShelf::new(rt),
        out: StdoutSink::new(rt),
    }
}
