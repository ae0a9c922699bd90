// The names that no store takes, and the paths of the others.
ghost use Rattle.std.specs.Prelude.{◌≡◌, ◌≤◌, length};
ghost use Rattle.std.specs.List.{list_any, position_or_len};
ghost use Rattle.sigstore_tuf_outside.specs.Store.{is_slash, components, is_parent, is_bad_name};

use foundation::NoMemory;
use std::alloc::Global;
use std::path::PathBuf;

// Whether this component leads out of the folder.
fn is_parent(part: &[u8]) -> bool
    ensures { result ≡ is_parent part.now }
{
    part == b"..".as_slice()
}

// The length of the first component.
fn first_len(name: &[u8]) -> usize
    ensures len { result ≡ position_or_len is_slash name.now }
    ensures within { result ≤ length name.now }
{
    for (index, byte) in name.iter().enumerate() {
        if *byte == b'/' {
            return index;
        }
    }
    name.len()
}

// Whether any component of a name is `..`.
fn has_parent(name: &[u8]) -> bool
    ensures { result ≡ list_any is_parent (components name.now) }
{
    let mut rest = name;
    loop {
        let len = first_len(rest);
        let (first, _) = rest.split_at(len);
        if is_parent(first) {
            return true;
        }
        if len == rest.len() {
            return false;
        }
        let (_, after) = rest.split_at(len + 1);
        rest = after;
    }
}

// Whether a name is absolute or has a component `..`.
pub(crate) fn is_bad_name(name: &str) -> bool
    ensures { result ≡ is_bad_name name.now }
{
    name.starts_with('/') || has_parent(name.as_bytes())
}

// The path of a name in a folder of a folder; an empty folder is the one above.
pub(crate) fn path_of(
    alloc: Global,
    dir: &str,
    folder: &str,
    name: &str,
) -> Result<PathBuf, NoMemory> {
    let mut path = PathBuf::from_str(alloc, dir)?;
    path.push(folder)?;
    path.push(name)?;
    Ok(path)
}
