// An artifact that is handed in.
ghost use Rattle.std.specs.Prelude.{Some};

use sigstore_keys::{ArtifactSource, ReadFault};

/// An artifact in memory; it tells what is left, and no read of it fails.
#[derive(Drop)]
pub struct GivenSource<'a> {
    pub left: &'a [u8],
}

impl<'a> ArtifactSource for GivenSource<'a> {
    ghost seen = { λ s. record { told = Some s.left.now; faults = 0 } };

    fn read(&mut self, buf: &mut [u8]) -> Result<usize, ReadFault> {
        let count = self.left.len().min(buf.len());
        let (given, left) = self.left.split_at(count);
        buf[..count].copy_from_slice(given);
        self.left = left;
        Ok(count)
    }
}
