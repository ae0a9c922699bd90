// Readers of JSON values. Each states what it answers as one definition, want of memory aside.
ghost use Rattle.std.specs.Prelude.{◌≡◌, ◌≢◌, ℕ, List, Ok, Err, Result, IfOk, IfErr, option_map};
ghost use Rattle.serde_json.specs.Data.{Data};
ghost use Rattle.serde_json.specs.View.{view};
ghost use Rattle.sigstore_types_parts.specs.declared.misread.Misread.TheVariants.{Shape, NoMemory};
ghost use Rattle.sigstore_types_parts.specs.Read.{required_in, optional_in, defaulted_in, required_of, optional_of, defaulted_of};

use crate::misread::{Misread, Refusal};
use serde_json::Value;
use std::alloc::Global;

/// What is read from a JSON value, with E for what isn't.
pub trait FromValue<E: Refusal>: Sized + Drop {
    ghost reads: { Data → Result Self E };

    fn from_value(alloc: Global, value: &Value) -> Result<Self, E>
        ensures ok { IfOk result (λ v. reads (view value.now) ≡ Ok v) }
        ensures err { IfErr result (λ e. e ≢ E.of NoMemory → reads (view value.now) ≡ Err e) };
}

/// A member of an object, and the refusal of what stands there.
pub trait Member: Sized + Copy + Drop {
    type Error: Refusal;

    ghost names: { Self → List ℕ };

    ghost places: { Self → Self.Error → Self.Error };

    fn name(self) -> &'static str
        ensures { result.now ≡ names self };

    fn place(self, error: Self::Error) -> Self::Error
        ensures { result ≡ places self error };

    ghost keeps: { (m : Self) → places m (Self.Error.of NoMemory) ≡ Self.Error.of NoMemory };
}

fn required_in<E: Refusal, T: FromValue<E>>(alloc: Global, value: Option<&Value>) -> Result<T, E>
    ensures ok { IfOk result (λ v. required_in (E.of Shape) T.reads (option_map (λ v. view v.now) value.entry) ≡ Ok v) }
    ensures err { IfErr result
        (λ e. e ≢ E.of NoMemory → required_in (E.of Shape) T.reads (option_map (λ v. view v.now) value.entry) ≡ Err e) }
{
    match value {
        Some(value) => match T::from_value(alloc, value) {
            Ok(read) => Ok(read),
            Err(e) => Err(e),
        },
        None => Err(E::of_misread(Misread::Shape)),
    }
}

fn optional_in<E: Refusal, T: FromValue<E>>(
    alloc: Global,
    value: Option<&Value>,
) -> Result<Option<T>, E>
    ensures ok { IfOk result (λ v. optional_in T.reads (option_map (λ v. view v.now) value.entry) ≡ Ok v) }
    ensures err { IfErr result
        (λ e. e ≢ E.of NoMemory → optional_in T.reads (option_map (λ v. view v.now) value.entry) ≡ Err e) }
{
    match value {
        None => Ok(None),
        Some(value) => if value.is_null() {
            Ok(None)
        } else {
            match T::from_value(alloc, value) {
                Ok(read) => Ok(Some(read)),
                Err(e) => Err(e),
            }
        },
    }
}

fn defaulted_in<E: Refusal, T: FromValue<E>>(
    alloc: Global,
    value: Option<&Value>,
    default: T,
) -> Result<T, E>
    ensures ok { IfOk result (λ v. defaulted_in T.reads default (option_map (λ v. view v.now) value.entry) ≡ Ok v) }
    ensures err { IfErr result
        (λ e. e ≢ E.of NoMemory → defaulted_in T.reads default (option_map (λ v. view v.now) value.entry) ≡ Err e) }
{
    match value {
        Some(value) => match T::from_value(alloc, value) {
            Ok(read) => Ok(read),
            Err(e) => Err(e),
        },
        None => Ok(default),
    }
}

/// The member of that name.
#[tactic(auto, unfolding(crate::specs::Read::required_of))]
pub fn required<M: Member, T: FromValue<M::Error>>(
    alloc: Global,
    value: &Value,
    member: M,
) -> Result<T, M::Error>
    ensures ok { IfOk result (λ v. required_of M.Error.of (M.places member) T.reads (M.names member) (view value.now) ≡ Ok v) }
    ensures err { IfErr result
        (λ e. e ≢ M.Error.of NoMemory → required_of M.Error.of (M.places member) T.reads (M.names member) (view value.now) ≡ Err e) }
{
    if !value.is_object() {
        return Err(M::Error::of_misread(Misread::Shape));
    }
    match required_in::<M::Error, T>(alloc, value.get(member.name())) {
        Ok(read) => Ok(read),
        Err(e) => Err(member.place(e)),
    }
}

/// The member of that name, if it is there and not null.
#[tactic(auto, unfolding(crate::specs::Read::optional_of))]
pub fn optional<M: Member, T: FromValue<M::Error>>(
    alloc: Global,
    value: &Value,
    member: M,
) -> Result<Option<T>, M::Error>
    ensures ok { IfOk result (λ v. optional_of M.Error.of (M.places member) T.reads (M.names member) (view value.now) ≡ Ok v) }
    ensures err { IfErr result
        (λ e. e ≢ M.Error.of NoMemory → optional_of M.Error.of (M.places member) T.reads (M.names member) (view value.now) ≡ Err e) }
{
    if !value.is_object() {
        return Err(M::Error::of_misread(Misread::Shape));
    }
    match optional_in::<M::Error, T>(alloc, value.get(member.name())) {
        Ok(read) => Ok(read),
        Err(e) => Err(member.place(e)),
    }
}

/// The member of that name, or a default where it is absent; null is refused like any other value.
#[tactic(auto, unfolding(crate::specs::Read::defaulted_of))]
pub fn defaulted<M: Member, T: FromValue<M::Error>>(
    alloc: Global,
    value: &Value,
    member: M,
    default: T,
) -> Result<T, M::Error>
    ensures ok { IfOk result (λ v. defaulted_of M.Error.of (M.places member) T.reads (M.names member) default (view value.now) ≡ Ok v) }
    ensures err { IfErr result
        (λ e. e ≢ M.Error.of NoMemory → defaulted_of M.Error.of (M.places member) T.reads (M.names member) default (view value.now) ≡ Err e) }
{
    if !value.is_object() {
        return Err(M::Error::of_misread(Misread::Shape));
    }
    match defaulted_in::<M::Error, T>(alloc, value.get(member.name()), default) {
        Ok(read) => Ok(read),
        Err(e) => Err(member.place(e)),
    }
}
