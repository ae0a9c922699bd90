// Tokens under authorities.
use crate::data::TOKENS;
use crate::words::{authority, displayed, good, halves, hold, printed, text};
use command_files::Tables;
use sigstore_tsa::{
    Error, TokenFault, refusals_have_causes, stamped_exactly, token_time, tokens_exactly,
    verify_timestamp_for_authority,
};
use sigstore_types::{SignatureBytes, TimestampToken, TsaAuthority};
use std::process::Abort;
use std::rt::HostRuntime;

// The authorities before a colon, each with its window behind `@`, and a token's name: the first that accepts gives
// the time. The certificates of `leaf` and `leaf_twin` have one issuer and one number, and different keys.
const AMONG: &str = "\
leaf root@-: good => 2024-06-01T00:00:00Z
: good => Invalid
for_code root@-; leaf root@-: good => 2024-06-01T00:00:00Z
leaf_twin root@-: good => Invalid
leaf_twin root@-; leaf root@-: good => 2024-06-01T00:00:00Z
leaf root@-; leaf_twin root@-: by_twin => 2024-06-01T00:00:00Z
leaf root@-: by_twin => Invalid
leaf root@2025-01-01T00:00:00Z..: good => OutsideValidity 2024-06-01T00:00:00Z
leaf root@2025-01-01T00:00:00Z..; leaf root@-: good => 2024-06-01T00:00:00Z
leaf root@-; leaf root@2025-01-01T00:00:00Z..: good => 2024-06-01T00:00:00Z
leaf root@2025-01-01T00:00:00Z..; for_code root@-: good => OutsideValidity 2024-06-01T00:00:00Z
for_code root@-; leaf root@2025-01-01T00:00:00Z..: good => OutsideValidity 2024-06-01T00:00:00Z
leaf limited@2025-01-01T00:00:00Z..: good => Invalid
leaf root@-: rejected => Invalid
leaf root@2025-01-01T00:00:00Z..: another_signature => Invalid";

// What a refusal is shown as: its own name, and what it holds where that is short.
fn shown<X: AllocGlobal + Abort>(rt: &X, refusal: Error) -> String {
    match refusal {
        Error::HashMismatch { expected, actual } => {
            drop((expected, actual));
            text(rt, "HashMismatch")
        }
        Error::TimestampOutsideValidity { time } => {
            good(
                rt,
                format!(in rt.alloc(); "TimestampOutsideValidity {time}"),
            )
        }
        other => printed(rt, other),
    }
}

fn time_of<X: AllocGlobal + Abort>(
    rt: &X,
    tables: &Tables,
    token: &TimestampToken,
    signature: &SignatureBytes,
    authority: &TsaAuthority,
) -> String {
    match verify_timestamp_for_authority(
        rt.alloc(),
        &tables.provider,
        token,
        signature,
        authority,
    ) {
        Ok(time) => displayed(rt, time),
        Err(refusal) => shown(rt, refusal),
    }
}

fn signature<X: AllocGlobal + Abort>(rt: &X, word: &str) -> SignatureBytes {
    good(rt, SignatureBytes::from_base64(rt.alloc(), word))
}

fn token<X: AllocGlobal + Abort>(rt: &X, word: &str) -> TimestampToken {
    good(rt, TimestampToken::from_base64(rt.alloc(), word))
}

/// What a token is answered with: a name, an authority's certificates and window, the signature, the token.
pub fn judged<X: AllocGlobal + Abort>(rt: &X, tables: &Tables, given: &str) -> String {
    let (_, rest) = halves(rt, given, " | ");
    let (names, rest) = halves(rt, rest, " | ");
    let (window, rest) = halves(rt, rest, " | ");
    let (signed, encoded) = halves(rt, rest, " | ");
    let (signature, token) = (signature(rt, signed), token(rt, encoded));
    let authority = authority(rt, names, window);
    let answer = time_of(rt, tables, &token, &signature, &authority);
    drop((signature, token, authority));
    answer
}

// The row of a token.
fn row<X: Abort>(rt: &X, name: &str) -> &'static str {
    for row in TOKENS.lines() {
        let (first, rest) = halves(rt, row, " | ");
        if first == name {
            return rest;
        }
    }
    let (_, rest) = halves(rt, "no such token", " | ");
    rest
}

/// The token of a name.
pub fn named<X: AllocGlobal + Abort>(rt: &X, name: &str) -> TimestampToken {
    let (_, rest) = halves(rt, row(rt, name), " | ");
    let (_, rest) = halves(rt, rest, " | ");
    let (_, rest) = halves(rt, rest, " | ");
    let (encoded, _) = halves(rt, rest, " => ");
    token(rt, encoded)
}

fn authorities<X: AllocGlobal + Abort>(rt: &X, words: &str) -> Vec<TsaAuthority> {
    let mut all = Vec::new(rt.alloc());
    for word in words.split("; ") {
        if let Some((names, window)) = word.split_once("@") {
            good(rt, all.push(authority(rt, names, window)));
        }
    }
    all
}

fn refused<X: AllocGlobal + Abort>(rt: &X, fault: TokenFault) -> String {
    match fault {
        TokenFault::OutsideValidity { time } => {
            good(rt, format!(in rt.alloc(); "OutsideValidity {time}"))
        }
        other => printed(rt, other),
    }
}

fn told<X: AllocGlobal + Abort>(
    rt: &X,
    tables: &Tables,
    all: &[TsaAuthority],
    token: &TimestampToken,
    signature: &SignatureBytes,
) -> String {
    match token_time(rt.alloc(), &tables.provider, token, signature, all) {
        Ok(stamped) => displayed(rt, stamped.time),
        Err(fault) => refused(rt, fault),
    }
}

/// What a token of this name is answered with among authorities.
pub fn among<X: AllocGlobal + Abort>(rt: &X, tables: &Tables, given: &str) -> String {
    let (words, name) = halves(rt, given, ": ");
    let (_, rest) = halves(rt, row(rt, name), " | ");
    let (_, rest) = halves(rt, rest, " | ");
    let (signed, _) = halves(rt, rest, " | ");
    let (signature, token) = (signature(rt, signed), named(rt, name));
    let all = authorities(rt, words);
    let answer = told(rt, tables, all.as_slice(), &token, &signature);
    drop((signature, token, all));
    answer
}

#[test]
fn tokens_are_answered(rt: HostRuntime) {
    stamped_exactly();
    refusals_have_causes();
    tokens_exactly();
    hold(&rt, &[("token", TOKENS), ("among", AMONG)]);
}
