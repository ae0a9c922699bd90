// The names of metadata files.
ghost use Rattle.std.specs.Prelude.{◌≡◌, IfOk};
ghost use Rattle.sigstore_tuf_text.specs.Names.{root_name, pin_name, versioned_name};

use foundation::NoMemory;
use sigstore_types_parts::Text;
use std::alloc::Global;

/// The file name of the timestamp document.
pub const TIMESTAMP_NAME: &'static str = "timestamp.json";

/// The file name of the snapshot document; under consistent names its version stands before it.
pub const SNAPSHOT_NAME: &'static str = "snapshot.json";

/// The file name of the targets document; under consistent names its version stands before it.
pub const TARGETS_NAME: &'static str = "targets.json";

/// The file name of the root of that version.
pub fn root_name(alloc: Global, version: u64) -> Result<Text, NoMemory>
    ensures { IfOk result (λ name. name ≡ root_name version) }
{
    Ok(Text::from_string(format!(in alloc; "{version}.root.json")?))
}

/// The name under which a snapshot pins a role.
pub fn pin_name(alloc: Global, role: &str) -> Result<Text, NoMemory>
    ensures { IfOk result (λ name. name ≡ pin_name role.now) }
{
    Ok(Text::from_string(format!(in alloc; "{role}.json")?))
}

/// The file name of that version, under consistent names (TUF specification, section 6.2).
pub fn versioned_name(alloc: Global, version: u64, name: &str) -> Result<Text, NoMemory>
    ensures { IfOk result (λ out. out ≡ versioned_name version name.now) }
{
    Ok(Text::from_string(format!(in alloc; "{version}.{name}")?))
}
