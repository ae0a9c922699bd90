// Reading a tag, a length and a value from the front of bytes.
ghost use Rattle.std.specs.Prelude.{◌≡◌, ◌++◌, IfOk, IfErr, OnErr, Ok, Err};
ghost use Rattle.der_grammar.specs.Grammar.{ended};
ghost use Rattle.der_grammar.specs.Tlv.{IsTlv, tlv, number_of, length_at, tlv_at, next_tag, option_tag};

use crate::error::DerError;
use std::marker::Model;

/// The greatest length that is read or written.
pub const LONGEST: usize = 268435455;

/// A tag of one byte: class, form and number (X.690, 8.1.2).
#[derive(Clone, Copy, Debug, PartialEq, Eq)]
pub struct Tag(pub u8);

/// A tag with its contents, both as slices of the bytes that were read.
#[derive(Clone, Copy)]
pub struct Tlv<'a> {
    pub tag: Tag,
    /// The contents.
    pub value: &'a [u8],
    /// The tag, the length and the contents.
    pub whole: &'a [u8],
}

/// Reads encodings from the front of bytes; contracts see the bytes that are left.
#[derive(Drop)]
pub struct Reader<'a> {
    bytes: &'a [u8],
}

impl<'a> Model for Reader<'a> {
    ghost use Rattle.std.specs.Prelude.{ℕ, List};

    ghost Value = { List ℕ };

    ghost view = { λ r. r.bytes.now };
}

#[tactic(auto, unfolding(crate::specs::Tlv::number_of))]
fn shortest(digits: &[u8]) -> Result<usize, DerError>
    ensures { result ≡ number_of digits.now }
{
    let (number, least) = match digits {
        [a] => (*a as usize, 128),
        [a, b] => (256 * *a as usize + *b as usize, 256),
        [a, b, c] => (256 * (256 * *a as usize + *b as usize) + *c as usize, 65536),
        [a, b, c, d] => (
            256 * (256 * (256 * *a as usize + *b as usize) + *c as usize) + *d as usize,
            16777216,
        ),
        _ => return Err(DerError::Length),
    };
    if number < least {
        return Err(DerError::Length);
    }
    Ok(number)
}

#[tactic(auto, unfolding(crate::specs::Tlv::length_at))]
fn length_of(bytes: &[u8]) -> Result<(usize, &[u8]), DerError>
    ensures ok { IfOk result (λ x. length_at bytes.now ≡ Ok (x.0, x.1.now)) }
    ensures err { IfErr result (λ e. length_at bytes.now ≡ Err e) }
{
    match bytes {
        [] => Err(DerError::Truncated),
        [first, rest @ ..] => {
            let first = *first as usize;
            if first < 128 {
                return Ok((first, rest));
            }
            let count = first - 128;
            if rest.len() < count {
                return Err(DerError::Truncated);
            }
            let (digits, after) = rest.split_at(count);
            let number = shortest(digits)?;
            Ok((number, after))
        }
    }
}

#[tactic(auto, unfolding(crate::specs::Tlv::value_at, crate::specs::Tlv::tlv_at))]
fn tlv_of(bytes: &[u8]) -> Result<(u8, &[u8], &[u8]), DerError>
    ensures ok { IfOk result (λ x. tlv_at bytes.now ≡ Ok (x.0, x.1.now, x.2.now)) }
    ensures err { IfErr result (λ e. tlv_at bytes.now ≡ Err e) }
{
    match bytes {
        [] => Err(DerError::Truncated),
        [tag, rest @ ..] => {
            if *tag % 32 == 31 {
                return Err(DerError::Tag);
            }
            let (length, rest) = length_of(rest)?;
            if length > LONGEST {
                return Err(DerError::TooLong);
            }
            if rest.len() < length {
                return Err(DerError::Truncated);
            }
            let (value, after) = rest.split_at(length);
            Ok((*tag, value, after))
        }
    }
}

fn checked_tlv_of(bytes: &[u8]) -> Result<(u8, &[u8], &[u8]), DerError>
    ensures ok { IfOk result (λ x. tlv_at bytes.now ≡ Ok (x.0, x.1.now, x.2.now)) }
    ensures err { IfErr result (λ e. tlv_at bytes.now ≡ Err e) }
    ensures found { IfOk result (λ x. IsTlv bytes.now x.0 x.1.now x.2.now) }
{
    tlv_of(bytes)
}

impl<'a> Reader<'a> {
    /// A reader of bytes.
    pub fn new(bytes: &'a [u8]) -> Reader<'a>
        ensures { result ≡ bytes.now }
    {
        Reader { bytes }
    }

    /// The tag that comes next; None at the end.
    pub fn peek_tag(&self) -> Option<Tag>
        ensures { option_tag result ≡ next_tag self.now }
    {
        match self.bytes {
            [] => None,
            [tag, ..] => Some(Tag(*tag)),
        }
    }

    /// Reads one tag, length and value (X.690, 8.1 and 10.1). Refusals, in this order: Truncated
    /// where no tag is there, Tag for one of several bytes, Truncated where length bytes are
    /// missing, Length where the length isn't definite and shortest or has more than four bytes,
    /// TooLong from 2^28 on, Truncated where value bytes are missing. A refusal changes nothing.
    pub fn read_tlv(&mut self) -> Result<Tlv<'a>, DerError>
        ensures ok { IfOk result (λ t. tlv_at self.old ≡ Ok (t.tag.0, t.value.now, self.new)) }
        ensures err { IfErr result (λ e. tlv_at self.old ≡ Err e) }
        ensures same { OnErr result (self.new ≡ self.old) }
        // What was read is a slice of the input: its front, and the contents within.
        ensures front { IfOk result (λ t. self.old ≡ t.whole.now ++ self.new) }
        ensures whole { IfOk result (λ t. t.whole.now ≡ tlv t.tag.0 t.value.now) }
        ensures found { IfOk result (λ t. IsTlv self.old t.tag.0 t.value.now self.new) }
    {
        let bytes = self.bytes;
        let (tag, value, rest) = checked_tlv_of(bytes)?;
        let (whole, _) = bytes.split_at(bytes.len() - rest.len());
        self.bytes = rest;
        Ok(Tlv {
            tag: Tag(tag),
            value,
            whole,
        })
    }

    /// Ends reading; Trailing exactly where bytes are left.
    pub fn finish(self) -> Result<(), DerError>
        ensures { result ≡ ended (tt, self.entry) }
    {
        if self.bytes.is_empty() {
            Ok(())
        } else {
            Err(DerError::Trailing)
        }
    }

    /// The value that was read, or Trailing exactly where bytes are left.
    pub fn end<T: Drop>(self, value: T) -> Result<T, DerError>
        ensures { result ≡ ended (value, self.entry) }
    {
        self.finish()?;
        Ok(value)
    }
}
