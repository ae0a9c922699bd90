// Values of a type as those of any type, and as members of a set.
ghost use Rattle.std.specs.Prelude.{◌≡◌, ◌≢◌, [], ◌∷◌, IfOk, IfErr, Ok, Err};
ghost use Rattle.der_grammar.specs.Outcome.{IsTooLong};
ghost use Rattle.der_grammar.specs.Sets.{set_from};
ghost use Rattle.cms_parts.specs.Values.{any_from};

use der_core::{Any, Der, DerError, SetOfVec};
use std::alloc::Global;

/// The value as one of any type; TooLong exactly where its contents have 2^28 octets or more, or a
/// length within has.
#[tactic(auto, unfolding(crate::specs::Values::any_from))]
pub fn as_any<T: Der>(alloc: Global, value: &T) -> Result<Any, DerError>
    ensures ok { IfOk result (λ a. any_from T.grammar value.now ≡ Ok a) }
    ensures err { IfErr result (λ e. e ≢ DerError.NoMemory → any_from T.grammar value.now ≡ Err e) }
    ensures cause { IfErr result IsTooLong }
{
    let contents = value.contents(alloc)?;
    if contents.as_bytes().len() > 268435455 {
        return Err(DerError::TooLong);
    }
    match Any::new(alloc, value.tag(), contents.as_bytes()) {
        Ok(any) => Ok(any),
        Err(refusal) => Err(refusal),
    }
}

/// The set of one member; TooLong exactly where it can't be written.
#[tactic(auto, unfolding(der_grammar::specs::Sets::set_from, der_grammar::specs::Sets::keyed))]
pub fn set_of_one<T: Der>(alloc: Global, member: T) -> Result<SetOfVec<T>, DerError>
    ensures ok { IfOk result (λ set. set_from T.grammar (member ∷ []) ≡ Ok set) }
    ensures err { IfErr result (λ e. e ≢ DerError.NoMemory → set_from T.grammar (member ∷ []) ≡ Err e) }
    ensures alone { IfOk result (λ set. set ≡ member ∷ []) }
    ensures cause { IfErr result IsTooLong }
{
    member.to_der(alloc)?;
    let mut set = SetOfVec::new(alloc);
    match set.insert(alloc, member) {
        Ok(()) => Ok(set),
        Err(refusal) => Err(refusal),
    }
}
