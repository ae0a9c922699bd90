// The members of a class of characters.
ghost use Rattle.std.specs.Prelude.{◌≡◌, ◌≤◌, ◌∷◌, ℕ, ◌&&◌, ◌||◌, nat_le, length};
ghost use Rattle.sigstore_tuf_text.specs.Pattern.{is_member};

/// Whether a character is one of the members, where `a-b` is a range.
pub(crate) fn is_member(members: &[char], c: char) -> bool
    ensures { result ≡ is_member members.now c }
{
    let mut rest = members;
    'members: while let [first, later @ ..] = rest {
        let (last, others) = range_from(*first, later);
        if *first <= c && c <= last {
            return true;
        }
        rest = others;
    }
    false
}

// The last character of the range that begins with `first`, and the members after it; a character
// alone is a range of one.
fn range_from(first: char, later: &[char]) -> (char, &[char])
    ensures exact { (c : ℕ) → is_member (first ∷ later.now) c
        ≡ ((nat_le first c && nat_le c result.0) || is_member result.1.now c) }
    ensures shorter { length result.1.now ≤ length later.now }
{
    match later {
        [] => (first, later),
        [_] => (first, later),
        [dash, last, others @ ..] => if *dash == '-' {
            (*last, others)
        } else {
            (first, later)
        },
    }
}
