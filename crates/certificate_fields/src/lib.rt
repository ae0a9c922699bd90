//! What every reader of a certificate takes from its view: the value of an extension, and the moment that a time tells.
#![tactic(auto)]

mod extension;
mod times;

pub use extension::extension_value;
pub use times::moment;
