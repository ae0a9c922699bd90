// Reading components: optional, with a default, under implicit and explicit tags, and lists.
ghost use Rattle.std.specs.Prelude.{◌≡◌, ◌≢◌, true, IfOk, IfErr, Ok, Err};
ghost use Rattle.der_grammar.specs.Grammar.{read, read_option, implicit, optional, defaulted, or_default};
ghost use Rattle.der_grammar.specs.Choices.{explicit};
ghost use Rattle.der_grammar.specs.Many.{many_of};

use crate::der::{Der, read_value};
use crate::error::DerError;
use crate::reader::{Reader, Tag};
use foundation::Sequence;
use std::alloc::Global;

/// Reads an OPTIONAL component: None where its tag doesn't come next.
#[tactic(auto, unfolding(crate::specs::Grammar::read_option))]
pub fn read_optional<T: Der>(alloc: Global, reader: &mut Reader) -> Result<Option<T>, DerError>
    ensures ok { IfOk result (λ a. read_option T.grammar reader.old ≡ Ok (a, reader.new)) }
    ensures err { IfErr result (λ e. e ≢ DerError.NoMemory → read_option T.grammar reader.old ≡ Err e) }
{
    match reader.peek_tag() {
        Some(tag) if T::accepts(tag) => Ok(Some(read_value(alloc, reader)?)),
        _ => Ok(None),
    }
}

fn or_default_value<T: PartialEq + Drop>(default: T, value: Option<T>) -> Result<T, DerError>
    ensures { result ≡ or_default (T.eq default) default value }
{
    match value {
        None => Ok(default),
        Some(value) => {
            if default == value {
                Err(DerError::Value)
            } else {
                Ok(value)
            }
        }
    }
}

/// Reads a component with a DEFAULT; Value where the default was written (X.690, 11.5).
pub fn read_default<T: Der + PartialEq>(
    alloc: Global,
    default: T,
    reader: &mut Reader,
) -> Result<T, DerError>
    ensures ok { IfOk result (λ a. (defaulted (T.eq default) default T.grammar).value_at reader.old ≡ Ok (a, reader.new)) }
    ensures err { IfErr result (λ e. e ≢ DerError.NoMemory → (defaulted (T.eq default) default T.grammar).value_at reader.old ≡ Err e) }
{
    let value = read_optional(alloc, reader)?;
    Ok(or_default_value(default, value)?)
}

/// Reads a value under an implicit tag in the place of its own; Tag for another one.
#[tactic(auto, unfolding(crate::specs::Grammar::read))]
pub fn read_implicit<T: Der>(
    alloc: Global,
    tag: Tag,
    own: Tag,
    reader: &mut Reader,
) -> Result<T, DerError>
    requires { T.grammar.accepts own.0 ≡ true }
    ensures ok { IfOk result (λ a. read (implicit tag.0 own.0 T.grammar) reader.old ≡ Ok (a, reader.new)) }
    ensures err { IfErr result (λ e. e ≢ DerError.NoMemory → read (implicit tag.0 own.0 T.grammar) reader.old ≡ Err e) }
{
    let tlv = reader.read_tlv()?;
    if tlv.tag.0 != tag.0 {
        return Err(DerError::Tag);
    }
    match T::from_contents(alloc, own, tlv.value) {
        Ok(value) => Ok(value),
        Err(refusal) => Err(refusal),
    }
}

/// Reads an OPTIONAL component under an implicit tag: None where that tag doesn't come next.
#[tactic(auto, unfolding(crate::specs::Grammar::read_option))]
pub fn read_implicit_optional<T: Der>(
    alloc: Global,
    tag: Tag,
    own: Tag,
    reader: &mut Reader,
) -> Result<Option<T>, DerError>
    requires { T.grammar.accepts own.0 ≡ true }
    ensures ok { IfOk result (λ a. read_option (implicit tag.0 own.0 T.grammar) reader.old ≡ Ok (a, reader.new)) }
    ensures err { IfErr result (λ e. e ≢ DerError.NoMemory → read_option (implicit tag.0 own.0 T.grammar) reader.old ≡ Err e) }
{
    match reader.peek_tag() {
        Some(next) if next.0 == tag.0 => Ok(Some(read_implicit(alloc, tag, own, reader)?)),
        _ => Ok(None),
    }
}

/// Reads a value under an explicit tag around its own; Tag for another one.
#[tactic(auto, unfolding(crate::specs::Grammar::read))]
pub fn read_explicit<T: Der>(alloc: Global, tag: Tag, reader: &mut Reader) -> Result<T, DerError>
    ensures ok { IfOk result (λ a. read (explicit tag.0 T.grammar) reader.old ≡ Ok (a, reader.new)) }
    ensures err { IfErr result (λ e. e ≢ DerError.NoMemory → read (explicit tag.0 T.grammar) reader.old ≡ Err e) }
{
    let tlv = reader.read_tlv()?;
    if tlv.tag.0 != tag.0 {
        return Err(DerError::Tag);
    }
    let mut inner = Reader::new(tlv.value);
    let value = read_value::<T>(alloc, &mut inner)?;
    inner.finish()?;
    Ok(value)
}

/// Reads an OPTIONAL component under an explicit tag: None where that tag doesn't come next.
#[tactic(auto, unfolding(crate::specs::Grammar::read_option))]
pub fn read_explicit_optional<T: Der>(
    alloc: Global,
    tag: Tag,
    reader: &mut Reader,
) -> Result<Option<T>, DerError>
    ensures ok { IfOk result (λ a. read_option (explicit tag.0 T.grammar) reader.old ≡ Ok (a, reader.new)) }
    ensures err { IfErr result (λ e. e ≢ DerError.NoMemory → read_option (explicit tag.0 T.grammar) reader.old ≡ Err e) }
{
    match reader.peek_tag() {
        Some(next) if next.0 == tag.0 => Ok(Some(read_explicit(alloc, tag, reader)?)),
        _ => Ok(None),
    }
}

/// Reads a component with a DEFAULT under an explicit tag; Value where the default was written.
pub fn read_explicit_default<T: Der + PartialEq>(
    alloc: Global,
    tag: Tag,
    default: T,
    reader: &mut Reader,
) -> Result<T, DerError>
    ensures ok { IfOk result (λ a. (defaulted (T.eq default) default (explicit tag.0 T.grammar)).value_at reader.old ≡ Ok (a, reader.new)) }
    ensures err { IfErr result (λ e. e ≢ DerError.NoMemory → (defaulted (T.eq default) default (explicit tag.0 T.grammar)).value_at reader.old ≡ Err e) }
{
    let value = read_explicit_optional(alloc, tag, reader)?;
    Ok(or_default_value(default, value)?)
}

/// Reads values up to the end of the bytes.
pub fn read_each<T: Der>(alloc: Global, reader: &mut Reader) -> Result<Vec<T>, DerError>
    ensures ok { IfOk result (λ v. many_of T.grammar reader.old ≡ Ok v.items) }
    ensures err { IfErr result (λ e. e ≢ DerError.NoMemory → many_of T.grammar reader.old ≡ Err e) }
{
    let mut items = Vec::new(alloc);
    'values: while let Some(_tag) = reader.peek_tag() {
        let item = read_value::<T>(alloc, reader)?;
        items.push(item)?;
    }
    Ok(items)
}
