// Tables of witnesses and of checkpoints that they cosigned, one row a line, with the answer behind `=>`. Their keys and
// signatures are those of src/witness_data.rt; every answer was worked out by hand.
use crate::log_words::{behind, read_checkpoint};
use crate::tables::{copied, displayed, good, halves, hold, holds, number, numbered, string};
use crate::witness_data::{COSIGNATURES, COSIGNED, WITNESSES};
use command_files::read_provider;
use log_witnesses::{Witness, WitnessError, check_cosigned, cosigned_by, cosigned_exactly};
use sigstore_entries::Checkpoint;
use sigstore_keys::Threshold;
use std::num::NonZeroU8;
use std::process::Abort;

// The text of a witness, and who it is.
const VKEYS: &str = "\
first => first.example
second => second.example
alias => alias.example
upper => first.example
log => KeyType
short => KeyType
keyless => KeyType
other_id => KeyId
spaced => Form
unnamed => Form
idless => Form
odd => Form
unpadded => Form";

// A checkpoint, how many have to have cosigned it, the witnesses, and how many did. A witness counts once, whatever it is
// called and however often it cosigned; a line counts under its own moment, text, name and key ID; of the lines the first
// hundred are looked at.
const COSIGNATURE_ROWS: &str = "\
one | 1 | first => 1
one | 1 | second => TooFew 0 of 1
one | 1 | second first => 1
one | 2 | first second => TooFew 1 of 2
none | 1 | first second third => TooFew 0 of 1
both | 2 | first second => 2
both | 1 | first second third => 2
both | 3 | first second third => TooFew 2 of 3
both | 2 | first first => TooFew 1 of 2
both | 1 |  => TooFew 0 of 1
twice | 2 | first => TooFew 1 of 2
twice | 1 | first => 1
early | 1 | first => 1
late | 1 | first => 1
named | 2 | first alias => TooFew 1 of 2
named | 1 | alias => 1
one | 1 | alias => TooFew 0 of 1
moved | 1 | first second => TooFew 0 of 1
retimed | 1 | first => TooFew 0 of 1
timeless | 1 | first => TooFew 0 of 1
bare | 1 | first => TooFew 0 of 1
longer | 1 | first => TooFew 0 of 1
misnamed | 1 | first second => TooFew 0 of 1
misled | 1 | first second => TooFew 0 of 1
hundredth | 2 | first second => 2
hundred_first | 2 | first second => TooFew 1 of 2";

// The text and the number of each refusal.
const REFUSALS: &str = "\
1 => 1 Form
2 => 2 KeyType
3 => 3 KeyId
4 => 4 TooMany
5 => 5 TooFew
6 => 6 NoMemory";

fn witness<X: AllocGlobal + Abort>(rt: &X, name: &str) -> Result<Witness, WitnessError> {
    Witness::from_vkey(rt.alloc(), behind(rt, WITNESSES, name))
}

fn witnesses<X: AllocGlobal + Abort>(rt: &X, names: &str) -> Vec<Witness> {
    let mut all = Vec::new(rt.alloc());
    for name in names.split_ascii_whitespace() {
        good(rt, all.push(good(rt, witness(rt, name))));
    }
    all
}

/// The name of the witness that a text tells.
pub fn vkey<X: AllocGlobal + Abort>(rt: &X, given: &str) -> String {
    match witness(rt, given) {
        Ok(witness) => {
            let witness = copied(rt, witness);
            let name = string(rt, witness.name());
            drop(witness);
            name
        }
        Err(refusal) => displayed(rt, refusal),
    }
}

fn asked<X: Abort>(rt: &X, count: &str) -> Threshold {
    let count = number(rt, count).min(255) as u8;
    match NonZeroU8::new(count) {
        Some(count) => Threshold::new(count),
        None => Threshold::one(),
    }
}

fn judged<X: AllocGlobal + Abort>(
    rt: &X,
    count: &str,
    names: &str,
    checkpoint: &Checkpoint,
) -> Result<u64, WitnessError> {
    let tables = good(rt, read_provider(rt.alloc(), COSIGNATURES.as_bytes()));
    let witnesses = witnesses(rt, names);
    let provider = &tables.provider;
    let found = good(
        rt,
        cosigned_by(rt.alloc(), provider, witnesses.as_slice(), checkpoint),
    );
    let judged = check_cosigned(
        rt.alloc(),
        provider,
        asked(rt, count),
        witnesses.as_slice(),
        checkpoint,
    );
    drop(witnesses);
    drop(tables);
    if let Ok(count) = judged {
        holds(rt, count == found);
    }
    judged
}

/// How many of the witnesses cosigned a checkpoint, of whom so many are asked for.
pub fn cosigned<X: AllocGlobal + Abort>(rt: &X, given: &str) -> String {
    let (name, rest) = halves(rt, given, " | ");
    let (count, names) = halves(rt, rest, " | ");
    let checkpoint = read_checkpoint(rt, behind(rt, COSIGNED, name));
    let judged = judged(rt, count, names, &checkpoint);
    drop(checkpoint);
    match judged {
        Ok(count) => displayed(rt, count),
        Err(WitnessError::TooFew { asked, found }) => {
            good(rt, format!(in rt.alloc(); "TooFew {found} of {asked}"))
        }
        Err(refusal) => displayed(rt, refusal),
    }
}

// More witnesses than there may be, all of them one.
fn crowd<X: AllocGlobal + Abort>(rt: &X, count: u64) -> Result<u64, WitnessError> {
    let mut names = String::new(rt.alloc());
    for _ in 0..count {
        good(rt, names.push_str("first "));
    }
    let checkpoint = read_checkpoint(rt, behind(rt, COSIGNED, "one"));
    let found = judged(rt, "1", names.as_str(), &checkpoint);
    drop(checkpoint);
    drop(names);
    found
}

fn error(number: u64) -> WitnessError {
    match number {
        1 => WitnessError::Form,
        2 => WitnessError::KeyType,
        3 => WitnessError::KeyId,
        4 => WitnessError::TooMany,
        5 => WitnessError::TooFew { asked: 2, found: 1 },
        _ => WitnessError::NoMemory,
    }
}

/// The number and the text of a refusal.
pub fn refusal<X: AllocGlobal + Abort>(rt: &X, given: &str) -> String {
    let error = error(number(rt, given));
    numbered(rt, error.number(), error)
}

#[test]
fn checkpoints_are_cosigned(rt: HostRuntime) {
    hold(&rt, "vkey", VKEYS);
    hold(&rt, "cosigned", COSIGNATURE_ROWS);
    hold(&rt, "witness_refusal", REFUSALS);
    holds(&rt, crowd(&rt, 64) == Ok(1));
    holds(&rt, crowd(&rt, 65) == Err(WitnessError::TooMany));
    cosigned_exactly();
}
