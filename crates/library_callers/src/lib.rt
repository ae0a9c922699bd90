//! Callers of the libraries, as somebody writes them who takes one library alone. docs/LIBRARIES.md shows them.
#![tactic(auto)]

pub mod archive;
pub mod certificate;
pub mod crypto;
pub mod der;
pub mod gate;
pub mod growth;
pub mod judgement;
pub mod log;
pub mod merkle;
pub mod message;
pub mod path;
pub mod rekor;
pub mod tsa;
pub mod tuf;
pub mod verify;
