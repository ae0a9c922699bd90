// The lines that the program writes.
ghost use Rattle.std.specs.Prelude.{◌≡◌, ◌<◌, ◌++◌, [], ◌∷◌, OnOk, string_bytes};
ghost use Rattle.std.specs.Fmt.{decimal};
ghost use Rattle.command_files.specs.Printed.{hex_digit_of, is_plain, printed_byte, printed, line_of, pair_line, number_line, text_line, named_line, hex_line, answer_line, refused_line};

use foundation::NoMemory;
use std::alloc::Global;

fn hex_digit(n: u8) -> char
    requires { n < 16 }
    ensures value { result ≡ hex_digit_of n }
    ensures ascii { result < 128 }
{
    if n < 10 {
        (b'0' + n) as char
    } else {
        (b'a' + (n - 10)) as char
    }
}

fn push_byte(text: &mut String, byte: u8) -> Result<(), NoMemory>
    ensures { OnOk result (string_bytes text.new ≡ string_bytes text.old ++ printed_byte byte) }
{
    if 31 < byte && byte < 127 && byte != b'\\' {
        text.push(byte as char)?;
        return Ok(());
    }
    text.push('\\')?;
    text.push('x')?;
    text.push(hex_digit(byte / 16))?;
    text.push(hex_digit(byte % 16))?;
    Ok(())
}

/// Adds a text, its bytes outside 20 to 7E and the backslash as `\x` and two digits.
pub fn push_printed(text: &mut String, bytes: &[u8]) -> Result<(), NoMemory>
    ensures { OnOk result (string_bytes text.new ≡ string_bytes text.old ++ printed bytes.now) }
{
    'bytes: for byte in bytes {
        push_byte(text, *byte)?;
    }
    Ok(())
}

/// Adds a number in decimal.
pub fn push_decimal(text: &mut String, number: u64) -> Result<(), NoMemory>
    ensures { OnOk result (string_bytes text.new ≡ string_bytes text.old ++ decimal number) }
{
    write!(text, "{number}")?;
    Ok(())
}

/// Adds a word on a line of its own.
#[tactic(auto, unfolding(crate::specs::Printed::line_of))]
pub fn push_line(text: &mut String, word: &str) -> Result<(), NoMemory>
    ensures { OnOk result (string_bytes text.new ≡ string_bytes text.old ++ line_of word.now) }
{
    text.push_str(word)?;
    text.push('\n')?;
    Ok(())
}

/// Adds a line of a word and another one.
#[tactic(auto, unfolding(crate::specs::Printed::pair_line))]
pub fn push_pair_line(text: &mut String, word: &str, other: &str) -> Result<(), NoMemory>
    ensures { OnOk result (string_bytes text.new ≡ string_bytes text.old ++ pair_line word.now other.now) }
{
    text.push_str(word)?;
    text.push(' ')?;
    text.push_str(other)?;
    text.push('\n')?;
    Ok(())
}

/// Adds a line of a word and a number.
#[tactic(auto, unfolding(crate::specs::Printed::pair_line))]
pub fn push_number_line(text: &mut String, word: &str, number: u64) -> Result<(), NoMemory>
    ensures { OnOk result (string_bytes text.new ≡ string_bytes text.old ++ number_line word.now number) }
{
    text.push_str(word)?;
    text.push(' ')?;
    push_decimal(text, number)?;
    text.push('\n')?;
    Ok(())
}

/// Adds a line of a word and a text.
#[tactic(auto, unfolding(crate::specs::Printed::pair_line))]
pub fn push_text_line(text: &mut String, word: &str, bytes: &[u8]) -> Result<(), NoMemory>
    ensures { OnOk result (string_bytes text.new ≡ string_bytes text.old ++ text_line word.now bytes.now) }
{
    text.push_str(word)?;
    text.push(' ')?;
    push_printed(text, bytes)?;
    text.push('\n')?;
    Ok(())
}

/// Adds a line of a word, a text and a number.
#[tactic(auto, unfolding(crate::specs::Printed::pair_line))]
pub fn push_named_line(
    text: &mut String,
    word: &str,
    name: &[u8],
    number: u64,
) -> Result<(), NoMemory>
    ensures { OnOk result (string_bytes text.new ≡ string_bytes text.old ++ named_line word.now name.now number) }
{
    text.push_str(word)?;
    text.push(' ')?;
    push_printed(text, name)?;
    text.push(' ')?;
    push_decimal(text, number)?;
    text.push('\n')?;
    Ok(())
}

/// Adds a line of a word, another one and bytes in hexadecimal.
#[tactic(auto, unfolding(crate::specs::Printed::line_of, crate::specs::Printed::pair_line))]
pub fn push_hex_line(
    alloc: Global,
    text: &mut String,
    word: &str,
    name: &str,
    bytes: &[u8],
) -> Result<(), NoMemory>
    ensures { OnOk result (string_bytes text.new ≡ string_bytes text.old ++ hex_line word.now name.now bytes.now) }
{
    let digits = hex::encode(alloc, bytes)?;
    text.push_str(word)?;
    text.push(' ')?;
    text.push_str(name)?;
    text.push(' ')?;
    push_line(text, digits.as_str())
}

/// Adds a line of a word and `yes` or `no`.
pub fn push_answer_line(text: &mut String, word: &str, answer: bool) -> Result<(), NoMemory>
    ensures { OnOk result (string_bytes text.new ≡ string_bytes text.old ++ answer_line word.now answer) }
{
    if answer {
        push_pair_line(text, word, "yes")
    } else {
        push_pair_line(text, word, "no")
    }
}

/// Adds the line of a refusal: its layer, its number and its name.
#[tactic(auto, unfolding(crate::specs::Printed::line_of, crate::specs::Printed::pair_line))]
pub fn push_refused_line(
    text: &mut String,
    layer: &str,
    number: u8,
    name: &str,
) -> Result<(), NoMemory>
    ensures { OnOk result (string_bytes text.new ≡ string_bytes text.old ++ refused_line layer.now number name.now) }
{
    text.push_str("refused ")?;
    text.push_str(layer)?;
    text.push(' ')?;
    push_decimal(text, u64::from(number))?;
    text.push(' ')?;
    push_line(text, name)
}
