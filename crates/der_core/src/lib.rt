//! Strict DER (ITU-T X.690): the types that hold no others, and the names of `der_grammar`.
#![tactic(auto)]

mod arcs;
mod civil;
mod digits;
mod dotted;
mod kinds;
mod moment;
mod oid;
mod primitive;
mod time;
mod uint;

pub use civil::Civil;
pub use der_grammar::{
    Any, Der, DerError, OctetString, Reader, SetOfVec, Tag, Tlv, append_default, append_each,
    append_explicit, append_explicit_default, append_explicit_optional, append_framed,
    append_implicit, append_implicit_optional, append_optional, no_prefix, read_default, read_each,
    read_explicit, read_explicit_default, read_explicit_optional, read_implicit,
    read_implicit_optional, read_is_written, read_is_written_same, read_optional, read_value,
    set_has_members, tag, written_is_read,
};
pub use kinds::{BitString, BitStringKind, Ia5, Ia5Kind, Int, IntKind, Utf8, Utf8Kind};
pub use oid::ObjectIdentifier;
pub use primitive::{Primitive, PrimitiveKind};
pub use time::{GeneralizedTime, GeneralizedTimeKind, Time, TimeKind, UtcTime, UtcTimeKind};
pub use uint::Uint;
