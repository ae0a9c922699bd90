// Texts cut at a character, and files of lines.
ghost use Rattle.std.specs.Prelude.{◌≡◌, ◌≢◌, ◌<◌, List, ℕ, Result, Ok, Err, Some, None, MatchOption, OnOk, IfErr};
ghost use Rattle.command_files.specs.Lines.{cut_of, is_passed_over, counted, text_folded_of, file_folded_of};
ghost use Rattle.command_files.specs.declared.usage_fault.UsageFault.{UsageFault};

use crate::usage_fault::UsageFault;
use std::alloc::Global;
use std::str;

// The text before the first such character and the text behind it.
pub(crate) fn cut(text: &str, at: char) -> Option<(&str, &str)>
    requires { at < 128 }
    ensures { MatchOption result (cut_of at text.now ≡ None) (λ parts. cut_of at text.now ≡ Some (parts.0.now, parts.1.now)) }
{
    text.split_once(at)
}

/// What is read of a file line by line.
pub trait ByLine {
    ghost takes: { Self → List ℕ → Result Self UsageFault };

    /// Takes a line that is neither empty nor a comment. Errors: `Usage` for a line outside the grammar; `NoMemory`.
    fn take(&mut self, alloc: Global, line: &str) -> Result<(), UsageFault>
        ensures ok { OnOk result (takes self.old line.now ≡ Ok self.new) }
        ensures err { IfErr result (λ e. e ≢ UsageFault.NoMemory → takes self.old line.now ≡ Err e) };
}

fn is_passed_over(line: &str) -> bool
    ensures { result ≡ is_passed_over line.now }
{
    matches!(line.as_bytes(), [] | [b'#', ..])
}

fn take_line<S: ByLine>(alloc: Global, state: &mut S, line: &str) -> Result<(), UsageFault>
    ensures ok { OnOk result (counted S.takes state.old line.now ≡ Ok state.new) }
    ensures err { IfErr result (λ e. e ≢ UsageFault.NoMemory → counted S.takes state.old line.now ≡ Err e) }
{
    if is_passed_over(line) {
        return Ok(());
    }
    match state.take(alloc, line) {
        Ok(()) => Ok(()),
        Err(e) => Err(e),
    }
}

fn take_text<S: ByLine>(alloc: Global, state: &mut S, text: &str) -> Result<(), UsageFault>
    ensures ok { OnOk result (text_folded_of S.takes state.old text.now ≡ Ok state.new) }
    ensures err { IfErr result (λ e. e ≢ UsageFault.NoMemory → text_folded_of S.takes state.old text.now ≡ Err e) }
{
    let mut rest = text;
    'lines: while let Some((line, next)) = cut(rest, '\n') {
        match take_line(alloc, state, line) {
            Ok(()) => rest = next,
            Err(e) => return Err(e),
        }
    }
    if rest.is_empty() {
        Ok(())
    } else {
        Err(UsageFault::Usage)
    }
}

/// Takes the lines of a file in turn. Errors: `Usage` for bytes that aren't UTF-8, a last line without its line feed, and a
/// line that is refused; `NoMemory`.
pub fn take_file<S: ByLine>(alloc: Global, state: &mut S, bytes: &[u8]) -> Result<(), UsageFault>
    ensures ok { OnOk result (file_folded_of S.takes state.old bytes.now ≡ Ok state.new) }
    ensures err { IfErr result (λ e. e ≢ UsageFault.NoMemory → file_folded_of S.takes state.old bytes.now ≡ Err e) }
{
    match str::from_utf8(bytes) {
        Ok(text) => match take_text(alloc, state, text) {
            Ok(()) => Ok(()),
            Err(e) => Err(e),
        },
        Err(_) => Err(UsageFault::Usage),
    }
}
