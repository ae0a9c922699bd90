// Writing components: optional, with a default, under implicit and explicit tags, and lists.
ghost use Rattle.std.specs.Prelude.{◌≡◌, ◌≢◌, IfErr, OnOk, OnErr, Ok, Err};
ghost use Rattle.der_grammar.specs.Outcome.{IsTooLong};
ghost use Rattle.der_grammar.specs.Grammar.{write, write_option, implicit, Appended, KeepsFront, unless_default};
ghost use Rattle.der_grammar.specs.Choices.{explicit};
ghost use Rattle.der_grammar.specs.Many.{write_each};

use crate::der::{Der, append_framed};
use crate::error::DerError;
use crate::octet_string::OctetString;
use crate::reader::Tag;
use std::alloc::Global;

/// Appends an OPTIONAL component, if there is one.
pub fn append_optional<T: Der>(
    alloc: Global,
    value: &Option<T>,
    out: &mut OctetString,
) -> Result<(), DerError>
    ensures ok { OnOk result (Appended (write_option T.grammar value.now) out.old out.new) }
    ensures err { IfErr result (λ e. e ≢ DerError.NoMemory → write_option T.grammar value.now ≡ Err e) }
    ensures cause { IfErr result IsTooLong }
    ensures kept { OnErr result (KeepsFront out.old out.new) }
{
    match value {
        None => Ok(()),
        Some(value) => value.encode_into(alloc, out),
    }
}

/// Whether a component is left out, being the default.
fn is_left_out<T: PartialEq>(default: &T, value: &T) -> bool
    ensures { result ≡ T.eq default.now value.now }
{
    default == value
}

/// Appends a component with a DEFAULT, unless it is the default (X.690, 11.5).
pub fn append_default<T: Der + PartialEq>(
    alloc: Global,
    default: &T,
    value: &T,
    out: &mut OctetString,
) -> Result<(), DerError>
    ensures ok { OnOk result (Appended (write_option T.grammar (unless_default (T.eq default.now) value.now)) out.old out.new) }
    ensures err { IfErr result (λ e. e ≢ DerError.NoMemory → write_option T.grammar (unless_default (T.eq default.now) value.now) ≡ Err e) }
    ensures cause { IfErr result IsTooLong }
    ensures kept { OnErr result (KeepsFront out.old out.new) }
{
    if is_left_out(default, value) {
        Ok(())
    } else {
        value.encode_into(alloc, out)
    }
}

/// Appends a value under an implicit tag in the place of its own.
#[tactic(auto, unfolding(crate::specs::Grammar::write))]
pub fn append_implicit<T: Der>(
    alloc: Global,
    tag: Tag,
    _own: Tag,
    value: &T,
    out: &mut OctetString,
) -> Result<(), DerError>
    ensures ok { OnOk result (Appended (write (implicit tag.0 _own.0 T.grammar) value.now) out.old out.new) }
    ensures err { IfErr result (λ e. e ≢ DerError.NoMemory → write (implicit tag.0 _own.0 T.grammar) value.now ≡ Err e) }
    ensures cause { IfErr result IsTooLong }
    ensures kept { OnErr result (KeepsFront out.old out.new) }
{
    let contents = value.contents(alloc)?;
    match append_framed(tag, contents.as_bytes(), out) {
        Ok(()) => Ok(()),
        Err(refusal) => Err(refusal),
    }
}

/// Appends an OPTIONAL component under an implicit tag, if there is one.
pub fn append_implicit_optional<T: Der>(
    alloc: Global,
    tag: Tag,
    own: Tag,
    value: &Option<T>,
    out: &mut OctetString,
) -> Result<(), DerError>
    ensures ok { OnOk result (Appended (write_option (implicit tag.0 own.0 T.grammar) value.now) out.old out.new) }
    ensures err { IfErr result (λ e. e ≢ DerError.NoMemory → write_option (implicit tag.0 own.0 T.grammar) value.now ≡ Err e) }
    ensures cause { IfErr result IsTooLong }
    ensures kept { OnErr result (KeepsFront out.old out.new) }
{
    match value {
        None => Ok(()),
        Some(value) => append_implicit(alloc, tag, own, value, out),
    }
}

/// Appends a value under an explicit tag around its own.
#[tactic(auto, unfolding(crate::specs::Grammar::write))]
pub fn append_explicit<T: Der>(
    alloc: Global,
    tag: Tag,
    value: &T,
    out: &mut OctetString,
) -> Result<(), DerError>
    ensures ok { OnOk result (Appended (write (explicit tag.0 T.grammar) value.now) out.old out.new) }
    ensures err { IfErr result (λ e. e ≢ DerError.NoMemory → write (explicit tag.0 T.grammar) value.now ≡ Err e) }
    ensures cause { IfErr result IsTooLong }
    ensures kept { OnErr result (KeepsFront out.old out.new) }
{
    let contents = value.to_der(alloc)?;
    match append_framed(tag, contents.as_bytes(), out) {
        Ok(()) => Ok(()),
        Err(refusal) => Err(refusal),
    }
}

/// Appends an OPTIONAL component under an explicit tag, if there is one.
pub fn append_explicit_optional<T: Der>(
    alloc: Global,
    tag: Tag,
    value: &Option<T>,
    out: &mut OctetString,
) -> Result<(), DerError>
    ensures ok { OnOk result (Appended (write_option (explicit tag.0 T.grammar) value.now) out.old out.new) }
    ensures err { IfErr result (λ e. e ≢ DerError.NoMemory → write_option (explicit tag.0 T.grammar) value.now ≡ Err e) }
    ensures cause { IfErr result IsTooLong }
    ensures kept { OnErr result (KeepsFront out.old out.new) }
{
    match value {
        None => Ok(()),
        Some(value) => append_explicit(alloc, tag, value, out),
    }
}

/// Appends a component with a DEFAULT under an explicit tag, unless it is the default.
pub fn append_explicit_default<T: Der + PartialEq>(
    alloc: Global,
    tag: Tag,
    default: &T,
    value: &T,
    out: &mut OctetString,
) -> Result<(), DerError>
    ensures ok { OnOk result (Appended (write_option (explicit tag.0 T.grammar) (unless_default (T.eq default.now) value.now)) out.old out.new) }
    ensures err { IfErr result (λ e. e ≢ DerError.NoMemory → write_option (explicit tag.0 T.grammar) (unless_default (T.eq default.now) value.now) ≡ Err e) }
    ensures cause { IfErr result IsTooLong }
    ensures kept { OnErr result (KeepsFront out.old out.new) }
{
    if is_left_out(default, value) {
        Ok(())
    } else {
        append_explicit(alloc, tag, value, out)
    }
}

/// Appends values one after the other.
pub fn append_each<T: Der>(
    alloc: Global,
    items: &[T],
    out: &mut OctetString,
) -> Result<(), DerError>
    ensures ok { OnOk result (Appended (write_each T.grammar items.now) out.old out.new) }
    ensures err { IfErr result (λ e. e ≢ DerError.NoMemory → write_each T.grammar items.now ≡ Err e) }
    ensures cause { IfErr result IsTooLong }
    ensures kept { OnErr result (KeepsFront out.old out.new) }
{
    'items: for item in items {
        item.encode_into(alloc, out)?;
    }
    Ok(())
}
