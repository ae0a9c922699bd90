//! Strict DER (ITU-T X.690): readers of tags, lengths and values, grammars of types with their
//! laws, and sets.
#![tactic(auto)]

mod any;
mod boolean;
mod der;
mod error;
mod keyed;
mod laws;
mod octet_string;
mod read;
mod reader;
mod set;
pub mod tag;
mod write;

pub use any::Any;
pub use der::{Der, append_framed, read_value};
pub use error::DerError;
pub use laws::{
    no_prefix, read_is_written, read_is_written_same, set_has_members, written_is_read,
};
pub use octet_string::OctetString;
pub use read::{
    read_default, read_each, read_explicit, read_explicit_default, read_explicit_optional,
    read_implicit, read_implicit_optional, read_optional,
};
pub use reader::{Reader, Tag, Tlv};
pub use set::SetOfVec;
pub use write::{
    append_default, append_each, append_explicit, append_explicit_default,
    append_explicit_optional, append_implicit, append_implicit_optional, append_optional,
};
