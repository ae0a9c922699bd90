// A buffer that is handed in.
ghost use Rattle.std.specs.Prelude.{◌≡◌, ◌<◌, ◌≤◌, length, take, true, false};

/// Writes a text at the buffer's start, where it fits whole, and else nothing; whether it was written.
pub fn fill(buffer: &mut [u8], text: &[u8]) -> bool
    ensures written { result ≡ true → take (length text.now) buffer.new ≡ text.now }
    ensures fits { result ≡ true → length text.now ≤ length buffer.old }
    ensures short { result ≡ false → length buffer.old < length text.now }
    ensures untouched { result ≡ false → buffer.new ≡ buffer.old }
{
    if text.len() > buffer.len() {
        return false;
    }
    buffer[..text.len()].copy_from_slice(text);
    true
}
