// Files by name.
ghost use Rattle.std.specs.Prelude.{◌≡◌, true, option_copied};
ghost use Rattle.given_objects.specs.Given.{at_file, has_name, HaveTheSame};

/// A file: its name and its bytes.
#[repr(C)]
#[derive(Clone, Copy)]
pub struct File<'a> {
    pub name: &'a [u8],
    pub bytes: &'a [u8],
}

/// The name of a file that isn't there.
#[repr(C)]
#[derive(Clone, Copy)]
pub struct Name<'a> {
    pub name: &'a [u8],
}

/// The bytes of the first file of that name.
pub fn find<'a>(files: &[File<'a>], name: &[u8]) -> Option<&'a [u8]>
    ensures { option_copied result ≡ at_file name.now files.now }
{
    for file in files {
        if file.name == name {
            return Some(file.bytes);
        }
    }
    None
}

/// Whether that name is among these.
pub fn is_among(names: &[Name<'_>], name: &[u8]) -> bool
    ensures { result ≡ has_name name.now names.now }
{
    for absent in names {
        if absent.name == name {
            return true;
        }
    }
    false
}

// Whether two files have one name and the same bytes.
fn is_same(file: &File<'_>, other: &File<'_>) -> bool
    ensures name { result ≡ true → file.now.name.now ≡ other.now.name.now }
    ensures bytes { result ≡ true → file.now.bytes.now ≡ other.now.bytes.now }
{
    file.name == other.name && file.bytes == other.bytes
}

/// Whether these are the same files as the others, in the same order.
pub fn are_same(files: &[File<'_>], others: &[File<'_>]) -> bool
    ensures { result ≡ true → HaveTheSame files.now others.now }
{
    if files.len() != others.len() {
        return false;
    }
    for index in 0..files.len() {
        if !is_same(&files[index], &others[index]) {
            return false;
        }
    }
    true
}
