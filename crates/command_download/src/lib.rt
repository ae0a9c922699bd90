//! The command `download`: a client of a TUF repository that puts the file of any target in its place, whole and only
//! where its chain of documents is trusted from the pinned root.
#![tactic(auto)]

mod chains;
mod client;
mod delivery;
mod documents;
mod fault;
mod file_shelf;
mod layout;
mod memory_shelf;
mod no_shelf;
mod program;
mod report;
mod shelf;

pub use chains::{Chains, DownloadRequest, chains_of};
pub use fault::DownloadFault;
pub use file_shelf::FileShelf;
pub use layout::{Download, DownloadLayout, asked_download_layout, download_layout};
pub use memory_shelf::MemoryShelf;
pub use no_shelf::NoShelf;
pub use program::run_download;
pub use shelf::{Placed, Shelf, ShelfFault};
