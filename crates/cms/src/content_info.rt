//! Contents, and the versions of their syntax.

pub use cms_parts::content_info::{CmsVersion, ContentInfo};
