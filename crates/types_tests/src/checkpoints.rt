// Tables of checkpoints, one row a line: a call, a text, ` => ` and the answer, worked out by hand. `read` answers
// the origin, the size, the root's first octet, how many octets are signed, and of each signature its name, its
// hint and its length. `held` answers the same of an inclusion proof's checkpoint, or `none`. In a row `#` stands for
// 43 times `A` and `=`, `@` for 42 times `A` and `==`, `\n` and `\r` for the ends of lines, and `%` for an octet that
// is no UTF-8.
use crate::tables::{
    copied, displayed, first, good, halves, hexadecimal, hold, holds, printed, replaced, string,
};
use sigstore_entries::{
    Checkpoint, CheckpointData, CheckpointSignature, checkpoints_are_parted, envelopes_are_kept,
};
use sigstore_types_parts::Bytes;
use std::process::Abort;

const READ: &str =
    r"read example.com/log\n1\n#\n\n— example.com/log AAAAAAA=\n => example.com/log 1 00 63: example.com/log 00000000 1;
read example.com/log\n1\n#\n\n— example.com/log AAAAAAA= => example.com/log 1 00 63: example.com/log 00000000 1;
read o\n0\n#\n\n— n AQIDBAUG\n => o 0 00 49: n 01020304 2;
read o\n18446744073709551615\n#\n\n— n AQIDBAUG\n => o 18446744073709551615 00 68: n 01020304 2;
read o\n1\n#\nother\n\n— n AQIDBAUG\n => o 1 00 55: n 01020304 2;
read o\n1\n#\nother\n \n— n\n\n— n AQIDBAUG\n => o 1 00 63: n 01020304 2;
read o\n1\n#\n\n— b AQIDBAUG\n— a AAAAAAA=\n => o 1 00 49: b 01020304 2;a 00000000 1;
read o\n1\n#\n\n— a AAAAAAA=\n— a AAAAAAA= => o 1 00 49: a 00000000 1;a 00000000 1;
read o \r\n1\n#\n\n— n+1 AQIDBAUG\n => o \r 1 00 51: n+1 01020304 2;
read —\n1\n#\né\r\n\n— ü AQIDBAUG\n => — 1 00 55: ü 01020304 2;
read log.example - 1193050959916656506\n4163431\nSBNJTRN+FjG7owHVrKtue7eqdM4RhdRWVl71HXN2d7I=\n\n— log.example LHDhK0VDSeQi8FKXGR6tE+IdPbUg5avvUgVeSWS4L7IT9ZOhBDpxh3TFcr2KJa2+sb/NXAJWrhHOz5+cP5JdDlK+r4k=\n => log.example - 1193050959916656506 4163431 48 87: log.example 2c70e12b 64;
read log2025.example/2025\n31415\nSBNJTRN+FjG7owHVrKtue7eqdM4RhdRWVl71HXN2d7I=\nTimestamp: 1689177396231\n\n— log2025.example/2025 LHDhK0VDSeQi8FKXGR6tE+IdPbUg5avvUgVeSWS4L7IT9ZOhBDpxh3TFcr2KJa2+sb/NXAJWrhHOz5+cP5JdDlK+r4k=\n— witness.example UOch5EVDSeQi8FKXGR6tE+IdPbUg5avvUgVeSWS4L7IT9ZOhBDpxh3TFcr2KJa2+sb/NXAJWrhHOz5+cP5JdDlK+r4k=\n => log2025.example/2025 31415 48 97: log2025.example/2025 2c70e12b 64;witness.example 50e721e4 64;";

const REFUSED: &str = r"read  => Checkpoint(Origin)
read o => Checkpoint(Origin)
read \no\n1\n#\n\n— n AQIDBAUG\n => Checkpoint(Origin)
read %\n1\n#\n\n— n AQIDBAUG\n => Checkpoint(Origin)
read %\nx\n => Checkpoint(Origin)
read o\n => Checkpoint(Size)
read o\n1 => Checkpoint(Size)
read o\n\n#\n\n— n AQIDBAUG\n => Checkpoint(Size)
read o\n01\n#\n\n— n AQIDBAUG\n => Checkpoint(Size)
read o\n00\n#\n\n— n AQIDBAUG\n => Checkpoint(Size)
read o\n+1\n#\n\n— n AQIDBAUG\n => Checkpoint(Size)
read o\n-1\n#\n\n— n AQIDBAUG\n => Checkpoint(Size)
read o\n1 \n#\n\n— n AQIDBAUG\n => Checkpoint(Size)
read o\n1\r\n#\r\n\r\n— n AQIDBAUG\r\n => Checkpoint(Size)
read o\n0x1\n#\n\n— n AQIDBAUG\n => Checkpoint(Size)
read o\n%\n#\n\n— n AQIDBAUG\n => Checkpoint(Size)
read o\n18446744073709551616\n#\n\n— n AQIDBAUG\n => Checkpoint(Size)
read o\n1\n => Checkpoint(Root)
read o\n1\n# => Checkpoint(Root)
read o\n1\n\n\n— n AQIDBAUG\n => Checkpoint(Root)
read o\n1\n@\n\n— n AQIDBAUG\n => Checkpoint(Root)
read o\n1\n##\n\n— n AQIDBAUG\n => Checkpoint(Root)
read o\n1\n# \n\n— n AQIDBAUG\n => Checkpoint(Root)
read o\n1\nAAAAAAAAAAAAAAAAAAAAAAAAAAAAAAAAAAAAAAAAAAA\n\n— n AQIDBAUG\n => Checkpoint(Root)
read o\n1\nAAAAAAAAAAAAAAAAAAAAAAAAAAAAAAAAAAAAAAAAAAB=\n\n— n AQIDBAUG\n => Checkpoint(Root)
read o\n1\n#AAAA\n\n— n AQIDBAUG\n => Checkpoint(Root)
read o\n1\n%\n\n— n AQIDBAUG\n => Checkpoint(Root)
read o\n1\n#\n => Checkpoint(Extension)
read o\n1\n#\nother\n => Checkpoint(Extension)
read o\n1\n#\n— n AQIDBAUG\n => Checkpoint(Extension)
read o\n1\n#\n%\n\n— n AQIDBAUG\n => Checkpoint(Extension)
read o\n1\n#\nother => Checkpoint(Extension)
read o\n1\n#\n\n => Checkpoint(Signature)
read o\n1\n#\n\n\n— n AQIDBAUG\n => Checkpoint(Signature)
read o\n1\n#\n\n— n AQIDBAUG\n\n => Checkpoint(Signature)
read o\n1\n#\n\n— n AQIDBAUG\n\n— n AQIDBAUG\n => Checkpoint(Signature)
read o\n1\n#\n\n— n AQIDBAUG\nbehind => Checkpoint(Signature)
read o\n1\n#\n\nn AQIDBAUG\n => Checkpoint(Signature)
read o\n1\n#\n\n- n AQIDBAUG\n => Checkpoint(Signature)
read o\n1\n#\n\n—n AQIDBAUG\n => Checkpoint(Signature)
read o\n1\n#\n\n—  AQIDBAUG\n => Checkpoint(Signature)
read o\n1\n#\n\n—  n AQIDBAUG\n => Checkpoint(Signature)
read o\n1\n#\n\n— n m AQIDBAUG\n => Checkpoint(Signature)
read o\n1\n#\n\n— AQIDBAUG\n => Checkpoint(Signature)
read o\n1\n#\n\n— n  AQIDBAUG\n => Checkpoint(Signature)
read o\n1\n#\n\n— n AQIDBAUG \n => Checkpoint(Signature)
read o\n1\n#\n\n— n AQIDBAUG\r\n => Checkpoint(Signature)
read o\n1\n#\n\n— n AQIDBAU\n => Checkpoint(Signature)
read o\n1\n#\n\n— n \n => Checkpoint(Signature)
read example.com/log\n1\n#\n\n— example.com/log AAAAAA==\n => Checkpoint(Signature)
read o\n1\n#\n\n— % AQIDBAUG\n => Checkpoint(Signature)
read o\n1\n#\n\n— n AQIDBAUG\n— n AAAAAA==\n => Checkpoint(Signature)";

const HELD: &str = r"held  => none
held o\n0\n#\n\n— n AQIDBAUG\n => o 0 00 49: n 01020304 2;
held \n => Checkpoint(Origin)
held o => Checkpoint(Origin)";

const MEANT: [(&str, &str); 4] = [
    ("#", "AAAAAAAAAAAAAAAAAAAAAAAAAAAAAAAAAAAAAAAAAAA="),
    ("@", "AAAAAAAAAAAAAAAAAAAAAAAAAAAAAAAAAAAAAAAAAA=="),
    ("\\r", "\r"),
    ("\\n", "\n"),
];

/// The octets that a row means.
fn meant<X: AllocGlobal + Abort>(rt: &X, cell: &str) -> Vec<u8> {
    let mut octets = replaced(rt, cell, &MEANT).into_bytes();
    for octet in octets.as_mut_slice() {
        if *octet == b'%' {
            *octet = 255;
        }
    }
    octets
}

fn tell_signature<X: AllocGlobal + Abort>(
    rt: &X,
    signature: &CheckpointSignature,
    told: &mut String,
) {
    let hint = hexadecimal(rt, signature.key_id.as_bytes());
    good(rt, told.push_str(signature.name.as_str()));
    good(rt, told.push(' '));
    good(rt, told.push_str(hint.as_str()));
    drop(hint);
    let length = displayed(rt, signature.signature.as_bytes().len());
    good(rt, told.push(' '));
    good(rt, told.push_str(length.as_str()));
    drop(length);
    good(rt, told.push(';'));
}

// What stands before the signatures.
fn text_told<X: AllocGlobal + Abort>(rt: &X, checkpoint: &Checkpoint) -> String {
    let (origin, size) = (checkpoint.origin(), checkpoint.tree_size());
    let root = first(rt, checkpoint.root_hash().as_bytes());
    let length = checkpoint.signed_data().len();
    good(
        rt,
        format!(in rt.alloc(); "{origin} {size} {root} {length}: "),
    )
}

// What a checkpoint holds.
fn checkpoint_told<X: AllocGlobal + Abort>(rt: &X, checkpoint: &Checkpoint) -> String {
    holds(rt, checkpoint.text().starts_with(checkpoint.signed_data()));
    let mut told = text_told(rt, checkpoint);
    for signature in checkpoint.signatures() {
        tell_signature(rt, signature, &mut told);
    }
    let marked = replaced(rt, told.as_str(), &[("\r", "\\r")]);
    drop(told);
    marked
}

fn read<X: AllocGlobal + Abort>(rt: &X, text: &[u8]) -> String {
    match Checkpoint::from_text(rt.alloc(), text) {
        Ok(checkpoint) => read_told(rt, copied(rt, checkpoint), text),
        Err(refusal) => printed(rt, refusal),
    }
}

fn read_told<X: AllocGlobal + Abort>(rt: &X, checkpoint: Checkpoint, text: &[u8]) -> String {
    holds(rt, checkpoint.text() == text);
    let told = checkpoint_told(rt, &checkpoint);
    drop(checkpoint);
    told
}

fn held<X: AllocGlobal + Abort>(rt: &X, text: &[u8]) -> String {
    let bytes = good(rt, Bytes::new(rt.alloc(), text));
    match CheckpointData::new(rt.alloc(), bytes) {
        Ok(held) => held_told(rt, held, text),
        Err(refusal) => printed(rt, refusal),
    }
}

fn held_told<X: AllocGlobal + Abort>(rt: &X, held: CheckpointData, text: &[u8]) -> String {
    holds(
        rt,
        held.envelope() == text && held.is_empty() == text.is_empty(),
    );
    let told = told_or_none(rt, held.checkpoint());
    drop(held);
    told
}

fn told_or_none<X: AllocGlobal + Abort>(rt: &X, checkpoint: Option<&Checkpoint>) -> String {
    match checkpoint {
        Some(checkpoint) => checkpoint_told(rt, checkpoint),
        None => string(rt, "none"),
    }
}

/// The answer of a call that is given a text with marks.
pub fn answer<X: AllocGlobal + Abort>(rt: &X, given: &str) -> String {
    let (call, cell) = halves(rt, given, " ");
    let text = meant(rt, cell);
    let answer = asked(rt, call, text.as_slice());
    drop(text);
    answer
}

fn asked<X: AllocGlobal + Abort>(rt: &X, call: &str, text: &[u8]) -> String {
    if call == "read" {
        read(rt, text)
    } else {
        held(rt, text)
    }
}

#[test]
fn checkpoints_are_read_by_their_grammar(rt: HostRuntime) {
    hold(&rt, "checkpoint", READ);
    hold(&rt, "checkpoint", REFUSED);
    hold(&rt, "checkpoint", HELD);
    checkpoints_are_parted();
    envelopes_are_kept();
}
