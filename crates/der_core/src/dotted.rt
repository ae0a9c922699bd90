// Arcs of object identifiers as decimals joined by dots.
ghost use Rattle.std.specs.Prelude.{◌≡◌, ◌++◌, ◌+◌, ◌<◌, length, Some, None, IfOk, IfErr, OnOk, Ok, Err};
ghost use Rattle.std.specs.Bool.{OnTrue, OnFalse};
ghost use Rattle.std.specs.Option.{option_to_list};
ghost use Rattle.der_core.specs.Oid.{decimals, one_character, at_end, oid_of_text};

use crate::arcs::Arcs;
use der_grammar::DerError;

/// The arc that a character ends, and the number at hand behind it.
fn one_more(number: Option<u32>, character: u8) -> Result<(Option<u32>, Option<u32>), DerError>
    ensures ok { IfOk result (λ x. one_character number character ≡ Ok (option_to_list x.0, x.1)) }
    ensures err { IfErr result (λ e. one_character number character ≡ Err e) }
{
    match number {
        None => {
            if character < 48 || character > 57 {
                return Err(DerError::Oid);
            }
            Ok((None, Some((character - 48) as u32)))
        }
        Some(value) => {
            if character == 46 {
                return Ok((Some(value), None));
            }
            if character < 48 || character > 57 || value == 0 {
                return Err(DerError::Oid);
            }
            let longer = 10 * value as u64 + (character - 48) as u64;
            if longer >= 4294967296 {
                return Err(DerError::Oid);
            }
            Ok((None, Some(longer as u32)))
        }
    }
}

/// Appends an arc, if there is one; false where there is no room for it.
fn append_ended(ended: Option<u32>, arcs: &mut Arcs) -> bool
    ensures ok { OnTrue result (arcs.new.items ≡ arcs.old.items ++ option_to_list ended) }
    ensures full { OnFalse result (40 < length arcs.old.items + length (option_to_list ended)) }
{
    match ended {
        None => true,
        Some(arc) => arcs.try_push(arc).is_ok(),
    }
}

/// The arcs of a text; Oid where it is not the text of an identifier, at the latest where it has
/// more arcs than one can have.
pub fn arcs_of_text(text: &[u8]) -> Result<Arcs, DerError>
    ensures ok { IfOk result (λ a. decimals None text.now ≡ Ok a.items) }
    ensures err { IfErr result (λ e. oid_of_text text.now ≡ Err e) }
{
    let mut arcs = Arcs::new();
    let mut number = None;
    'characters: for character in text {
        let (ended, next) = one_more(number, *character)?;
        if !append_ended(ended, &mut arcs) {
            return Err(DerError::Oid);
        }
        number = next;
    }
    if number.is_none() {
        return Err(DerError::Oid);
    }
    if !append_ended(number, &mut arcs) {
        return Err(DerError::Oid);
    }
    Ok(arcs)
}
