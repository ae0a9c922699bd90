// Where a tree is split (RFC 6962, section 2.1).
ghost use Rattle.std.specs.Prelude.{◌≡◌, ◌<◌};
ghost use Rattle.sigstore_merkle.specs.Tree.{split};

/// The largest power of two below a number of leaves.
pub fn split(size: u64) -> u64
    requires { 1 < size }
    ensures value { result ≡ split size }
    ensures some { 0 < result }
    ensures below { result < size }
{
    let mut part = 1;
    'doubled: while part < size - part {
        part += part;
    }
    part
}

/// The same of a number of leaves in memory.
pub fn split_len(size: usize) -> usize
    requires { 1 < size }
    ensures value { result ≡ split size }
    ensures some { 0 < result }
    ensures below { result < size }
{
    split(size as u64) as usize
}
