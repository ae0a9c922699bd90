//! Builders of signed data.

pub use crate::attributes::{
    create_content_type_attribute, create_message_digest_attribute, create_signing_time_attribute,
};
pub use crate::error::{BuilderFault, Error};
pub use crate::signed_data_builder::SignedDataBuilder;
pub use crate::signer::CmsSigner;
pub use crate::signer_info_builder::SignerInfoBuilder;
