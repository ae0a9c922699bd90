// Digests in hexadecimal.
ghost use Rattle.std.specs.Prelude.{◌≡◌, ◌∷◌, []};
ghost use Rattle.std.specs.Str.{str_eq_ignore_ascii_case};
ghost use Rattle.hex.specs.Hex.{encode_lower};
ghost use Rattle.sigstore_envelopes.specs.Statement.{is_spelled};

use sigstore_types_parts::Text;

// Two digits spell an octet in hexadecimal, in either case.
fn spells_octet(digits: &[u8], octet: u8) -> bool
    ensures { result ≡ str_eq_ignore_ascii_case digits.now (encode_lower (octet ∷ [])) }
{
    let mut pair = [0u8; 2];
    match hex::encode_to_slice(&[octet], &mut pair) {
        Ok(()) => digits.eq_ignore_ascii_case(&pair),
        Err(_) => false,
    }
}

// A text spells octets in hexadecimal, in either case; ends at the first digit that differs.
fn spells(text: &[u8], octets: &[u8]) -> bool
    ensures { result ≡ str_eq_ignore_ascii_case text.now (encode_lower octets.now) }
{
    let mut rest = text;
    'octets: for octet in octets {
        if rest.len() < 2 {
            return false;
        }
        let (digits, behind) = rest.split_at(2);
        if !spells_octet(digits, *octet) {
            return false;
        }
        rest = behind;
    }
    rest.is_empty()
}

/// Whether a text is there and spells a digest in hexadecimal, in either case.
pub(crate) fn is_spelled(text: &Option<Text>, digest: &[u8]) -> bool
    ensures { result ≡ is_spelled text.now digest.now }
{
    match text {
        Some(text) => spells(text.as_str().as_bytes(), digest),
        None => false,
    }
}
