// The writing of a whole text.
ghost use Rattle.command_files.specs.Sink.{WritesText};

use crate::sink::{Sink, SinkFault};

/// Writes a text, piece by piece. Errors: `Failed` where a write failed; then a part that the text begins with was taken.
pub fn write_all<K: Sink>(out: &mut K, text: &[u8]) -> Result<(), SinkFault>
    ensures { WritesText (K.seen out.old) (K.seen out.new) text.now result }
{
    let mut at = 0;
    'pieces: while at < text.len() {
        let (_, rest) = text.split_at(at);
        match out.write(rest) {
            Ok(count) => at += count,
            Err(fault) => return Err(fault),
        }
    }
    Ok(())
}
