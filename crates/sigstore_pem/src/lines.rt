// The lines of a text.
ghost use Rattle.std.specs.Prelude.{◌≡◌, ◌<◌, ◌≤◌, [], ◌∷◌, length, take, not, true, false, slice_index, ◌-◌, MatchOption};
ghost use Rattle.std.specs.List.{list_all};
ghost use Rattle.sigstore_pem.specs.Pem.{is_line_end, is_at_line_feed, lines_of};

// CR or LF.
fn is_line_end(byte: u8) -> bool
    ensures { result ≡ is_line_end byte }
{
    byte == b'\r' || byte == b'\n'
}

// What stands behind the line feed with which a text may begin.
fn behind_feed(text: &[u8]) -> &[u8]
    ensures feed { is_at_line_feed text.now ≡ true → lines_of text.now ≡ [] ∷ lines_of result.now }
    ensures other { is_at_line_feed text.now ≡ false → result.now ≡ text.now }
    ensures shorter { length result.now ≤ length text.now }
{
    match text.split_first() {
        Some((byte, rest)) => { if *byte == b'\n' { rest } else { text } }
        None => text,
    }
}

// What stands behind the end of a line with which a text begins: CR LF, CR or LF.
fn behind_end(text: &[u8]) -> &[u8]
    ensures end { is_line_end (slice_index text.now 0) ≡ true → lines_of text.now ≡ [] ∷ lines_of result.now }
    ensures empty { length text.now ≡ 0 → result.now ≡ [] }
    ensures shorter { length result.now ≤ length text.now - 1 }
{
    match text.split_first() {
        Some((byte, rest)) => {
            if *byte == b'\r' {
                behind_feed(rest)
            } else {
                rest
            }
        }
        None => text,
    }
}

// How many bytes stand before the end of the first line.
fn line_length(text: &[u8]) -> usize
    ensures within { result ≤ length text.now }
    ensures plain { list_all (λ b. not (is_line_end b)) (take result text.now) ≡ true }
    ensures end { result < length text.now → is_line_end (slice_index text.now result) ≡ true }
{
    let mut at = 0;
    'bytes: while at < text.len() && !is_line_end(text[at]) {
        at += 1;
    }
    at
}

// The first line of a text, and what stands behind its end; none of an empty text.
pub(crate) fn cut_line(text: &[u8]) -> Option<(&[u8], &[u8])>
    ensures { MatchOption result (lines_of text.now ≡ [])
        (λ parts. (lines_of text.now ≡ parts.0.now ∷ lines_of parts.1.now) × (length parts.1.now < length text.now)) }
{
    if text.is_empty() {
        return None;
    }
    let (line, rest) = text.split_at(line_length(text));
    Some((line, behind_end(rest)))
}
