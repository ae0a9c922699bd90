// The kind of a document, and the version of the specification that it follows.
ghost use Rattle.std.specs.Prelude.{◌≡◌, option_map, not, ◌==◌, bytes_eq};
ghost use Rattle.serde_json.specs.View.{view};
ghost use Rattle.sigstore_tuf_parts.specs.Header.{header_of, kind_of, spec_version_of, is_version_one_text};

use crate::role::Role;
use serde_json::Value;
use sigstore_tuf_text::{Error, Rule};

/// The document is of that kind, and of version 1 of the specification; members that are missing or
/// no texts are left to the reader of members. Errors: `Malformed`.
#[tactic(auto, unfolding(crate::specs::Header::header_of))]
pub(crate) fn check_header<T: Role>(value: &Value) -> Result<(), Error>
    ensures { result ≡ header_of T.kind (view value.now) }
{
    check_kind(value, T::kind())?;
    check_spec_version(value)
}

#[tactic(auto, unfolding(crate::specs::Header::kind_of))]
fn check_kind(value: &Value, kind: &str) -> Result<(), Error>
    ensures { result ≡ kind_of kind.now (view value.now) }
{
    match value.get("_type").and_then(Value::as_str) {
        Some(found) => if found == kind {
            Ok(())
        } else {
            Err(Error::Malformed(Rule::Kind))
        },
        None => Ok(()),
    }
}

#[tactic(auto, unfolding(crate::specs::Header::spec_version_of))]
fn check_spec_version(value: &Value) -> Result<(), Error>
    ensures { result ≡ spec_version_of (view value.now) }
{
    match value.get("spec_version").and_then(Value::as_str) {
        Some(version) => if is_version_one(version) {
            Ok(())
        } else {
            Err(Error::Malformed(Rule::SpecVersion))
        },
        None => Ok(()),
    }
}

// What stands before the first dot is 1.
#[tactic(auto, unfolding(crate::specs::Header::is_version_one_text))]
fn is_version_one(version: &str) -> bool
    ensures { result ≡ is_version_one_text version.now }
{
    match version.split_once('.') {
        Some((major, _)) => major == "1",
        None => version == "1",
    }
}
