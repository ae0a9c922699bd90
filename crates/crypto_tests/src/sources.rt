// Sources of bytes, in memory and over a file, that are read and digested.
use crate::keys::hexadecimal;
use crate::tables::{check, good, halves, hold, number, printed, text, there};
use sigstore_keys::*;
use sigstore_types_parts::{Bytes, FailList};
use std::fs;
use std::num::NonZeroU32;
use std::process::Abort;

// The digest of a source, by whether it is that of `hello`.
fn digested<X: AllocGlobal + Abort>(rt: &X, source: &mut MemorySource, max: u64) -> String {
    match sha256_reader(source, max) {
        Ok(digest) => printed(rt, digest == sha256(b"hello")),
        Err(fault) => printed(rt, fault),
    }
}

fn failures<X: AllocGlobal + Abort>(rt: &X, call: u64) -> FailList {
    let mut calls = Vec::new(rt.alloc());
    if call > 0 {
        good(rt, calls.push(call));
    }
    there(rt, FailList::new(calls))
}

// A source that gives `hello` in steps.
fn source<X: AllocGlobal + Abort>(rt: &X, step: u32, call: u64) -> MemorySource {
    let step = there(rt, NonZeroU32::new(step));
    let bytes = good(rt, Bytes::new(rt.alloc(), b"hello"));
    MemorySource::new(bytes, step, failures(rt, call))
}

pub fn source_read<X: AllocGlobal + Abort>(rt: &X, row: &str) -> String {
    let (step, asked) = halves(rt, row, " ");
    let (call, max) = halves(rt, asked, " ");
    let step = good(rt, step.parse::<u32>());
    let mut source = source(rt, step, number(rt, call));
    let answer = digested(rt, &mut source, number(rt, max));
    drop(source);
    answer
}

// A row: how many bytes a call gives, which call fails or 0, the greatest length, and the answer.
const SOURCES: &str = "1 0 5 => true
7 0 18446744073709551615 => true
1 0 4 => TooLong { max: 4 }
1 3 5 => Failed
2 9 5 => true";

#[test]
fn sources(rt: HostRuntime) {
    hold(&rt, "source", SOURCES);
}

// The octets 0, 1 .. 250, again and again, so that no two pieces of a length that reads have are alike.
fn counting<X: AllocGlobal + Abort>(rt: &X) -> Vec<u8> {
    let mut octets = Vec::new(rt.alloc());
    for place in 0..150_000u32 {
        good(rt, octets.push((place % 251) as u8));
    }
    octets
}

// By Python's hashlib: SHA-256 of these octets.
const COUNTED: &str = "02675bf9284bd74223e98ceea96ebee4c9a469272ead358f462d89753f8c909b";

#[test]
fn files_are_digested(rt: HostRuntime) {
    let name = "sigstore_crypto_artifact";
    let octets = counting(&rt);
    good(&rt, fs::write(&rt, name, octets.as_slice()));
    drop(octets);
    let mut source = FileSource::new(&rt, text(&rt, name));
    let whole = good(&rt, sha256_reader(&mut source, 150_000));
    drop(source);
    good(&rt, fs::remove_file(&rt, name));
    let mut absent = FileSource::new(&rt, text(&rt, name));
    let other = sha256_reader(&mut absent, 1);
    drop(absent);
    let found = hexadecimal(&rt, whole.to_hex(rt.alloc()));
    check(&rt, name, COUNTED, found);
    check(&rt, "no file", "Err(Failed)", printed(&rt, other));
}
