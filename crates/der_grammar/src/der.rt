// Types whose values have a DER encoding.
ghost use Rattle.std.specs.Prelude.{◌≡◌, ◌≢◌, ◌<◌, ◌^◌, ◌++◌, true, IfOk, IfErr, OnOk, OnErr, MatchResult, Ok, Err};
ghost use Rattle.der_grammar.specs.Outcome.{IsTooLong};
ghost use Rattle.der_grammar.specs.Tlv.{length_bytes};
ghost use Rattle.der_grammar.specs.Grammar.{Grammar, read, read_all, write, framed, order_of, Encodes, Appended, KeepsFront};
ghost use Rattle.der_grammar.specs.Law.{IsLawful};

use crate::error::DerError;
use crate::octet_string::OctetString;
use crate::reader::{LONGEST, Reader, Tag};
use foundation::NoMemory;
use std::alloc::Global;
use std::cmp::Ordering;

/// A type whose values have a DER encoding: its grammar, with the laws of grammars.
pub trait Der: Sized + Drop {
    ghost grammar: { Grammar Self };

    /// Whether a value may have this tag.
    fn accepts(tag: Tag) -> bool
        ensures { result ≡ grammar.accepts tag.0 };

    /// The value of contents under a tag that is accepted, or the first refusal.
    fn from_contents(alloc: Global, tag: Tag, contents: &[u8]) -> Result<Self, DerError>
        requires { grammar.accepts tag.0 ≡ true }
        ensures ok { IfOk result (λ a. grammar.value tag.0 contents.now ≡ Ok a) }
        ensures err { IfErr result (λ e. e ≢ DerError.NoMemory → grammar.value tag.0 contents.now ≡ Err e) };

    /// The tag that is written.
    fn tag(&self) -> Tag
        ensures { result.0 ≡ grammar.tag self.now };

    /// The contents that are written; TooLong exactly where a length within is 2^28 or more.
    fn contents(&self, alloc: Global) -> Result<OctetString, DerError>
        ensures ok { IfOk result (λ c. grammar.contents self.now ≡ Ok c) }
        ensures err { IfErr result (λ e. e ≢ DerError.NoMemory → grammar.contents self.now ≡ Err e) }
        ensures cause { IfErr result IsTooLong };

    ghost lawful: { IsLawful grammar };

    /// The value that all the bytes encode, or the first refusal in reading order: those of
    /// `Reader::read_tlv`, Tag for another tag, those of the contents, Trailing.
    final fn from_der(alloc: Global, bytes: &[u8]) -> Result<Self, DerError>
        ensures ok { IfOk result (λ a. read_all grammar bytes.now ≡ Ok a) }
        ensures err { IfErr result (λ e. e ≢ DerError.NoMemory → read_all grammar bytes.now ≡ Err e) }
        // Ok exactly where the bytes encode a value, with that value.
        ensures found { IfOk result (λ a. Encodes grammar a bytes.now) }
        ensures only { (a : Self) → Encodes grammar a bytes.now → MatchResult result (λ x. x ≡ a) (λ e. e ≡ DerError.NoMemory) }
    {
        value_of_all(alloc, bytes)
    }

    /// Appends the encoding; TooLong exactly where a length is 2^28 or more. After a refusal `out`
    /// begins with its old bytes.
    final fn encode_into(&self, alloc: Global, out: &mut OctetString) -> Result<(), DerError>
        ensures ok { OnOk result (Appended (write grammar self.now) out.old out.new) }
        ensures err { IfErr result (λ e. e ≢ DerError.NoMemory → write grammar self.now ≡ Err e) }
        ensures cause { IfErr result IsTooLong }
        ensures kept { OnErr result (KeepsFront out.old out.new) }
    {
        append_encoding(alloc, self, out)
    }

    /// The encoding; TooLong exactly where a length is 2^28 or more.
    final fn to_der(&self, alloc: Global) -> Result<OctetString, DerError>
        ensures ok { IfOk result (λ bytes. write grammar self.now ≡ Ok bytes) }
        ensures err { IfErr result (λ e. e ≢ DerError.NoMemory → write grammar self.now ≡ Err e) }
        ensures cause { IfErr result IsTooLong }
        // What is written encodes the value.
        ensures encodes { IfOk result (λ bytes. Encodes grammar self.now bytes) }
    {
        encoding_of(alloc, self)
    }

    /// The order of the encodings, octet by octet (X.690, 11.6); TooLong as `to_der`, of `self`
    /// before `other`.
    final fn der_cmp(&self, alloc: Global, other: &Self) -> Result<Ordering, DerError>
        ensures ok { IfOk result (λ order. order_of grammar self.now other.now ≡ Ok order) }
        ensures err { IfErr result (λ e. e ≢ DerError.NoMemory → order_of grammar self.now other.now ≡ Err e) }
        ensures cause { IfErr result IsTooLong }
    {
        order_of_encodings(alloc, self, other)
    }
}

/// Reads one value from the front.
#[tactic(auto, unfolding(crate::specs::Grammar::read))]
pub fn read_value<T: Der>(alloc: Global, reader: &mut Reader) -> Result<T, DerError>
    ensures ok { IfOk result (λ a. read T.grammar reader.old ≡ Ok (a, reader.new)) }
    ensures err { IfErr result (λ e. e ≢ DerError.NoMemory → read T.grammar reader.old ≡ Err e) }
{
    let tlv = reader.read_tlv()?;
    if !T::accepts(tlv.tag) {
        return Err(DerError::Tag);
    }
    match T::from_contents(alloc, tlv.tag, tlv.value) {
        Ok(value) => Ok(value),
        Err(refusal) => Err(refusal),
    }
}

#[tactic(auto, unfolding(crate::specs::Grammar::read_all))]
fn only_value<T: Der>(alloc: Global, bytes: &[u8]) -> Result<T, DerError>
    ensures ok { IfOk result (λ a. read_all T.grammar bytes.now ≡ Ok a) }
    ensures err { IfErr result (λ e. e ≢ DerError.NoMemory → read_all T.grammar bytes.now ≡ Err e) }
{
    let mut reader = Reader::new(bytes);
    let value = read_value::<T>(alloc, &mut reader)?;
    reader.finish()?;
    Ok(value)
}

fn value_of_all<T: Der>(alloc: Global, bytes: &[u8]) -> Result<T, DerError>
    ensures ok { IfOk result (λ a. read_all T.grammar bytes.now ≡ Ok a) }
    ensures err { IfErr result (λ e. e ≢ DerError.NoMemory → read_all T.grammar bytes.now ≡ Err e) }
    ensures found { IfOk result (λ a. Encodes T.grammar a bytes.now) }
    ensures only { (a : T) → Encodes T.grammar a bytes.now → MatchResult result (λ x. x ≡ a) (λ e. e ≡ DerError.NoMemory) }
{
    only_value(alloc, bytes)
}

#[tactic(auto, unfolding(crate::specs::Tlv::length_bytes))]
fn append_length(out: &mut OctetString, length: usize) -> Result<(), NoMemory>
    requires { length < 2 ^ 32 }
    ensures ok { OnOk result (out.new ≡ out.old ++ length_bytes length) }
    ensures err { OnErr result (out.new ≡ out.old) }
{
    if length < 128 {
        out.append(&[length as u8])?;
    } else if length < 256 {
        out.append(&[129, length as u8])?;
    } else if length < 65536 {
        out.append(&[130, (length / 256) as u8, (length % 256) as u8])?;
    } else if length < 16777216 {
        out.append(&[
            131,
            (length / 65536) as u8,
            (length / 256 % 256) as u8,
            (length % 256) as u8,
        ])?;
    } else {
        out.append(&[
            132,
            (length / 16777216) as u8,
            (length / 65536 % 256) as u8,
            (length / 256 % 256) as u8,
            (length % 256) as u8,
        ])?;
    }
    Ok(())
}

/// Appends a tag with contents; TooLong exactly from 2^28 octets on.
#[tactic(auto, unfolding(crate::specs::Tlv::tlv))]
pub fn append_framed(tag: Tag, contents: &[u8], out: &mut OctetString) -> Result<(), DerError>
    ensures ok { OnOk result (Appended (framed tag.0 contents.now) out.old out.new) }
    ensures err { IfErr result (λ e. e ≢ DerError.NoMemory → framed tag.0 contents.now ≡ Err e) }
    ensures cause { IfErr result IsTooLong }
    ensures kept { OnErr result (KeepsFront out.old out.new) }
{
    if contents.len() > LONGEST {
        return Err(DerError::TooLong);
    }
    out.append(&[tag.0])?;
    append_length(out, contents.len())?;
    out.append(contents)?;
    Ok(())
}

#[tactic(auto, unfolding(crate::specs::Grammar::write))]
fn append_encoding<T: Der>(alloc: Global, value: &T, out: &mut OctetString) -> Result<(), DerError>
    ensures ok { OnOk result (Appended (write T.grammar value.now) out.old out.new) }
    ensures err { IfErr result (λ e. e ≢ DerError.NoMemory → write T.grammar value.now ≡ Err e) }
    ensures cause { IfErr result IsTooLong }
    ensures kept { OnErr result (KeepsFront out.old out.new) }
{
    let contents = value.contents(alloc)?;
    match append_framed(value.tag(), contents.as_bytes(), out) {
        Ok(()) => Ok(()),
        Err(refusal) => Err(refusal),
    }
}

fn encoding_of<T: Der>(alloc: Global, value: &T) -> Result<OctetString, DerError>
    ensures ok { IfOk result (λ bytes. write T.grammar value.now ≡ Ok bytes) }
    ensures err { IfErr result (λ e. e ≢ DerError.NoMemory → write T.grammar value.now ≡ Err e) }
    ensures cause { IfErr result IsTooLong }
    ensures encodes { IfOk result (λ bytes. Encodes T.grammar value.now bytes) }
{
    let mut out = OctetString::empty(alloc);
    append_encoding(alloc, value, &mut out)?;
    Ok(out)
}

#[tactic(auto, unfolding(crate::specs::Grammar::order_of))]
fn order_of_encodings<T: Der>(alloc: Global, value: &T, other: &T) -> Result<Ordering, DerError>
    ensures ok { IfOk result (λ order. order_of T.grammar value.now other.now ≡ Ok order) }
    ensures err { IfErr result (λ e. e ≢ DerError.NoMemory → order_of T.grammar value.now other.now ≡ Err e) }
    ensures cause { IfErr result IsTooLong }
{
    let encoding = encoding_of(alloc, value)?;
    let other = encoding_of(alloc, other)?;
    Ok(encoding.as_bytes().cmp(other.as_bytes()))
}
