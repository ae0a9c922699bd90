//! Certificate paths (RFC 5280, section 6): the first path from a leaf over intermediates to an anchor.
#![tactic(auto)]

mod anchor;
mod authority;
mod basic_constraints;
mod error;
mod extensions;
mod find;
mod given;
mod judgements;
mod laws;
mod level;
mod link;
mod purpose;
mod request;
mod route;
mod seen;
mod steps;
mod traits;
mod usage;
mod way;

pub use anchor::Anchor;
pub use error::{LeafFault, PathError};
pub use find::find_path;
pub use laws::{first_is_one, path_exactly};
pub use purpose::Purpose;
pub use request::PathRequest;
pub use route::{FoundPath, Route};
pub use steps::Steps;
