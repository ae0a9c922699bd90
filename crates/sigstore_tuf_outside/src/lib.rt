//! Where documents and files of targets are fetched and kept: repositories and stores, in memory and over
//! folders.
#![tactic(auto)]

mod file_repository;
mod file_store;
mod folder;
mod memory_repository;
mod memory_store;
mod name;
mod no_store;
mod repository;
mod store;

pub use file_repository::FileRepository;
pub use file_store::FileStore;
pub use memory_repository::MemoryRepository;
pub use memory_store::MemoryStore;
pub use no_store::NoStore;
pub use repository::{FetchFault, Repository};
pub use store::{MetadataStore, StoreFault};
