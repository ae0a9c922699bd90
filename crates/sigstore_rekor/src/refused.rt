// Refusals of the parts of an answer.
ghost use Rattle.std.specs.Prelude.{◌≡◌};
ghost use Rattle.sigstore_rekor.specs.Refused.{refused_rule, refused_of};

use sigstore_rekor_parts::{Error, ResponseRule};
use sigstore_types_parts::TypesError;

fn rule(error: TypesError) -> ResponseRule
    ensures { result ≡ refused_rule error }
{
    match error {
        TypesError::Hex => ResponseRule::Hex,
        TypesError::Length { .. } => ResponseRule::Length,
        TypesError::Checkpoint(_) => ResponseRule::Checkpoint,
        other => ResponseRule::Entry { error: other },
    }
}

// What a part's refusal is in an answer.
pub(crate) fn refused(error: TypesError) -> Error
    ensures { result ≡ refused_of error }
{
    match error {
        TypesError::NoMemory => Error::NoMemory,
        other => Error::InvalidResponse { rule: rule(other) },
    }
}
