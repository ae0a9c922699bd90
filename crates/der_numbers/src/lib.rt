//! INTEGERs from 0 up to a greatest number, as numbers of the machine.
#![tactic(auto)]

mod number;

pub use number::{Number, NumberKind, OctetKind, U16Kind, U64Kind};
