//! What a load test verifies: a small TUF repository that is always the same (one key, four documents, and a trust file
//! with one log), which offers that file to a client, whoever judges signatures, as long as he accepts those of its
//! documents; and items that a number draws, each with what is logged of it and its bundle.
#![tactic(auto)]

mod body;
mod documents;
mod drawn;
mod keys;
mod kind;
mod laws;
mod log;
mod publishing;
mod trust;

pub use drawn::{Drawn, draw_all};
pub use keys::{armored_key, in_base64, log_id, raw_key, spki};
pub use kind::Kind;
pub use laws::repository_offers;
pub use log::{Log, bundle, signed_text};
pub use publishing::{Published, moment, publish};
pub use trust::trust_file;
