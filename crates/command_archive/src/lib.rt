//! The commands `archive` and `check`: the one writes a chain of documents as one file, the other judges such a file
//! where there is no repository.
#![tactic(auto)]

mod check;
mod check_words;
mod finding;
mod layout;
mod output;
mod program;
mod reading;

pub use check::run_check;
pub use check_words::{CheckLayout, check_layout};
pub use layout::archive_layout;
pub use output::Output;
pub use program::run_archive;
pub use reading::{MAX_ARCHIVE, chain_in_archive, refused_archive, unread_archive};
