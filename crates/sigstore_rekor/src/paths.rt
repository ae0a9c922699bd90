// Paths of tiles.
ghost use Rattle.std.specs.Prelude.{◌≡◌, option_map, string_bytes, IfOk};
ghost use Rattle.std.specs.Int.NonZero.{non_zero_u8_get};
ghost use Rattle.sigstore_rekor.specs.TilePath.{three_digits, marked, index_path, tile_path_of};

use foundation::NoMemory;
use sigstore_types_parts::Text;
use std::alloc::Global;
use std::num::NonZeroU8;

/// As many groups of three digits as a 64-bit number has at most.
const GROUPS: usize = 7;

// Three decimal digits.
fn three_digits(alloc: Global, number: u64) -> Result<String, NoMemory>
    ensures { IfOk result (λ text. string_bytes text ≡ three_digits number) }
{
    let hundreds = number / 100;
    let tens = number / 10 % 10;
    let ones = number % 10;
    Ok(format!(in alloc; "{hundreds}{tens}{ones}")?)
}

// The groups of a number, each marked and with a slash behind it.
fn marked(alloc: Global, groups: usize, number: u64) -> Result<String, NoMemory>
    ensures { IfOk result (λ text. string_bytes text ≡ marked groups number) }
{
    if groups == 0 || number == 0 {
        return Ok(String::new(alloc));
    }
    let before = marked(alloc, groups - 1, number / 1000)?;
    let digits = three_digits(alloc, number % 1000)?;
    Ok(format!(in alloc; "{before}x{digits}/")?)
}

fn index_path(alloc: Global, index: u64) -> Result<String, NoMemory>
    ensures { IfOk result (λ text. string_bytes text ≡ index_path index) }
{
    let before = marked(alloc, GROUPS, index / 1000)?;
    let digits = three_digits(alloc, index % 1000)?;
    Ok(format!(in alloc; "{before}{digits}")?)
}

/// The path of a tile or of a bundle of entries behind its level: the index in groups of three decimal digits,
/// all but the last marked, and the width of a partial one (C2SP tlog-tiles).
pub fn tile_path(alloc: Global, index: u64, width: Option<NonZeroU8>) -> Result<Text, NoMemory>
    ensures { IfOk result (λ text. text ≡ tile_path_of index (option_map non_zero_u8_get width)) }
{
    let path = index_path(alloc, index)?;
    match width {
        Some(width) => {
            let width = width.get();
            Ok(Text::from_string(format!(in alloc; "{path}.p/{width}")?))
        }
        None => Ok(Text::from_string(path)),
    }
}
