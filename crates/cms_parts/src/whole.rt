// Contents that are one value.
ghost use Rattle.std.specs.Prelude.{◌≡◌, ◌≢◌, IfOk, IfErr, Ok, Err};
ghost use Rattle.der_grammar.specs.Choices.{explicit};

use der_core::{Der, DerError, Reader, read_value};
use std::alloc::Global;

/// The one value that the contents under an explicit tag are, or the first refusal.
pub fn whole_value<T: Der>(alloc: Global, contents: &[u8]) -> Result<T, DerError>
    ensures ok { IfOk result (λ a. (explicit 0 T.grammar).value 0 contents.now ≡ Ok a) }
    ensures err { IfErr result (λ e. e ≢ DerError.NoMemory → (explicit 0 T.grammar).value 0 contents.now ≡ Err e) }
{
    let mut reader = Reader::new(contents);
    let value = read_value::<T>(alloc, &mut reader)?;
    match reader.end(value) {
        Ok(value) => Ok(value),
        Err(refusal) => Err(refusal),
    }
}
