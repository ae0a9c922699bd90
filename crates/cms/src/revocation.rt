//! Revocation information.

pub use cms_parts::revocation::{
    OtherRevocationInfoFormat, RevocationInfoChoice, RevocationInfoChoices,
};
