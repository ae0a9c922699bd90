//! A portable trust archive: one file that carries a whole chain of signed documents to a site without a repository, where it is
//! judged by the same rules at its own moment.
#![tactic(auto)]

mod archive;
mod error;
mod judgement;
mod laws;
mod reading;
mod roles;
mod top;
mod writing;

pub use error::ArchiveError;
pub use judgement::{ArchiveTerms, read_archive};
pub use laws::archive_laws;
pub use reading::OPENING;
pub use writing::write_archive;
