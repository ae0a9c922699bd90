// What a command was called with.
use jiff::Timestamp;
use sigstore_types_parts::Text;

/// What a command was called with, and when: its words, and the instant that the clock told.
#[derive(Clone, Copy)]
pub struct CommandLine<'w> {
    pub words: &'w [Text],
    pub clock: Timestamp,
}
