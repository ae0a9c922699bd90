//! A caller of `der_core`.
use der_core::{DerError, Reader, Tag, Uint, read_value, tag};
use std::alloc::Global;

/// Two numbers from 0 on, as an ECDSA signature has them.
#[derive(Debug, PartialEq, Drop)]
pub struct Pair {
    pub first: Uint,
    pub second: Uint,
}

/// Reads a SEQUENCE of two INTEGERs, with nothing behind it.
pub fn read_pair(alloc: Global, bytes: &[u8]) -> Result<Pair, DerError> {
    let mut outer = Reader::new(bytes);
    let sequence = outer.read_tlv()?;
    outer.finish()?;
    if sequence.tag != Tag(tag::SEQUENCE) {
        return Err(DerError::Tag);
    }
    let mut inner = Reader::new(sequence.value);
    let pair = Pair {
        first: read_value(alloc, &mut inner)?,
        second: read_value(alloc, &mut inner)?,
    };
    inner.end(pair)
}
