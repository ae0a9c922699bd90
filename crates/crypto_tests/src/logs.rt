// Tables of entries and checkpoints, one row a line, with the answer behind `=>`. The logs' keys, signatures and
// trees are those of src/log_data.rt; every answer was worked out by hand.
use crate::log_words::{checkpoint, entry, key, logs, moment, tables, who};
use crate::tables::{displayed, good, halves, hold, number, numbered, printed, string};
use command_files::Tables;
use jiff::Timestamp;
use sigstore_log::{
    CheckpointVerifyExt, EntryEvidence, LogError, checkpoint_signer, judge_entry, judge_promise,
    logged_exactly, one_place_one_body, refusals_have_causes, signer_exactly, told_time,
};
use sigstore_types_parts::Sha256Hash;
use std::process::Abort;

// An entry, what is changed in it, the logs, when, and whether it is logged, by which log, with the time that its promise
// tells. The first lines are as they were made: a log of each sort of key, a promise without a time, none, a log of one
// tree, and a place of 2^53. Then come lines of dsse 0.0.2, whose promises tell no time, and at last checkpoints that two
// logs signed, and logs that have one hint.
const ENTRIES: &str = r#"p256 |  | p256 | now => logged by p256 at 2023-11-14T22:15:00Z
p384 |  | p384 | now => logged by p384 at 2023-11-14T22:15:00Z
ed |  | ed | now => logged by ed at 2023-11-14T22:15:00Z
rsa |  | rsa | now => logged by rsa at 2023-11-14T22:15:00Z
p256 |  | other rsa p256 ed | now => logged by p256 at 2023-11-14T22:15:00Z
untimed |  | p256 | now => logged by p256
unpromised |  | p256 | now => logged by p256
second |  | p256 | now => logged by p256
high |  | p256 | now => logged by p256 at 2023-11-14T22:15:00Z
higher |  | p256 | now => InclusionPromise
p256 | "inclusionProof" ~ "proof" | p256 | now => InclusionProof
p256 | "treeSize":"5" ~ "treeSize":"4" | p256 | now => InclusionProof
p256 | "treeSize":"5" ~ "treeSize":"3" | p256 | now => InclusionProof
p256 | "logIndex":"3" ~ "logIndex":"2" | p256 | now => InclusionProof
p256 | "hashes":[ ~ "hashes":["AAAAAAAAAAAAAAAAAAAAAAAAAAAAAAAAAAAAAAAAAAA=", | p256 | now => InclusionProof
p256 | "rootHash":"c0FW ~ "rootHash":"d0FW | p256 | now => InclusionProof
p256 | "canonicalizedBody":"Yw==" ~ "canonicalizedBody":"YQ==" | p256 | now => InclusionProof
second | "treeSize":"5" ~ "treeSize":"4" | p256 | now => logged by p256
second | "rootHash":"c0FW ~ "rootHash":"d0FW | p256 | now => logged by p256
second | "logIndex":"3","rootHash" ~ "logIndex":"2","rootHash" | p256 | now => logged by p256
second | "logIndex":"3","logId" ~ "logIndex":"2","logId" | p256 | now => InclusionProof
second | checkpoint p256 ~ checkpoint smaller | p256 | now => InclusionProof
second | "checkpoint" ~ "note" | p256 | now => Checkpoint
p256 | "checkpoint" ~ "note" | p256 | now => Checkpoint
p256 | checkpoint p256 ~ checkpoint smaller | p256 | now => Checkpoint
p256 | checkpoint p256 ~ checkpoint changed | p256 | now => Checkpoint
p256 | checkpoint p256 ~ checkpoint two | p256 | now => logged by p256 at 2023-11-14T22:15:00Z
p256 | checkpoint p256 ~ checkpoint p384 | p256 | now => Checkpoint
p256 | checkpoint p256 ~ checkpoint p384 | p256 p384 | now => logged by p384 at 2023-11-14T22:15:00Z
p256 |  | other | now => Checkpoint
p256 |  |  | now => Checkpoint
p256 |  | p256@2024-06-01T00:00:01Z.. | now => Checkpoint
p256 |  | p256@2020-01-01T00:00:00Z..2023-12-01T00:00:00Z | now => logged by p256 at 2023-11-14T22:15:00Z
p256 |  | p256@2020-01-01T00:00:00Z..2022-01-01T00:00:00Z | now => InclusionPromise
p256 |  | p256@2023-11-14T22:15:01Z.. | now => InclusionPromise
p256 |  | p256@2023-11-14T22:15:00Z.. | now => logged by p256 at 2023-11-14T22:15:00Z
p256 | "integratedTime":"1700000100" ~ "integratedTime":"1700000101" | p256 | now => InclusionPromise
p256 | "logIndex":"1003" ~ "logIndex":"1004" | p256 | now => InclusionPromise
p256 |  | p256 | 2023-11-14T22:15:00Z => logged by p256 at 2023-11-14T22:15:00Z
p256 |  | p256 | 2023-11-14T22:14:59Z => IntegratedTime
unpromised |  | p256 | 2023-11-14T22:14:59Z => logged by p256
p256 | "keyId":" ~ "keyId":"AAAA | p256 | now => MalformedEntry
p256 | id p256 ~ id other | p256 | now => InclusionPromise
p256 | id p256 ~ id other | p256 other | now => InclusionPromise
untimed | id p256 ~ id other | p256 | now => UnknownLog of other
untimed | checkpoint p256 ~ checkpoint p384 | p384 p256@2024-06-01T00:00:01Z.. | now => UnknownLog of p256
untimed | checkpoint p256 ~ checkpoint p384 | p384 p256 | now => logged by p384
unpromised | id p256 ~ id other | p256 | now => logged by p256
unpromised | "kind":"intoto" ~ "kind":"dsse" | p256 | now => logged by p256
unpromised | "intoto","version":"0.0.2"},"integratedTime":"1700000100","inclusionProof":{"logIndex":"4" ~ "dsse","version":"0.0.2"},"integratedTime":"1700000100","inclusionProof":{"logIndex":"3" | p256 | now => InclusionProof
high | "version":"0.0.1" ~ "version":"0.0.2" | p256 | now => logged by p256
high | "version":"0.0.1" ~ "version":"0.0.2" | p256 | 2023-11-14T22:14:59Z => logged by p256
high | "version":"0.0.1" ~ "version":"0.0.2" | p256@2023-11-14T22:15:01Z.. | now => InclusionPromise
high | "version":"0.0.1" ~ "version":"0.0.2" | other | now => Checkpoint
p256 | checkpoint p256 ~ checkpoint two | other p256 | now => logged by p256 at 2023-11-14T22:15:00Z
p256 | checkpoint p256 ~ checkpoint turned | other p256 | now => logged by p256 at 2023-11-14T22:15:00Z
unpromised | checkpoint p256 ~ checkpoint two | other | now => logged by other
unpromised | checkpoint p256 ~ checkpoint two | other p256@2024-06-01T00:00:01Z.. | now => logged by other
unpromised | checkpoint p256 ~ checkpoint turned | p256=other other | now => logged by other
p256 |  | p256 p256#0 | now => logged by p256#0 at 2023-11-14T22:15:00Z
p256 |  | p256#255 p256 | now => logged by p256 at 2023-11-14T22:15:00Z
p256 |  | p256#0=other p256 | now => logged by p256 at 2023-11-14T22:15:00Z"#;

// An entry, what is changed in it, the logs, when, and what its promise alone shows.
const PROMISES: &str = r#"p256 |  | p256 | now => good at 2023-11-14T22:15:00Z
p256 | "inclusionProof" ~ "proof" | p256 | now => good at 2023-11-14T22:15:00Z
p256 | "canonicalizedBody":"Yw==" ~ "canonicalizedBody":"YQ==" | p256 | now => InclusionPromise
p256 |  | other | now => InclusionPromise
p256 |  | p256 | 2023-11-14T22:14:59Z => IntegratedTime
p256 | "keyId":" ~ "keyId":"AAAA | p256 | now => MalformedEntry
untimed |  | p256 | now => good
untimed |  | other | now => UnknownLog of p256
unpromised |  |  | now => good
high | "version":"0.0.1" ~ "version":"0.0.2" | p256 | 2023-11-14T22:14:59Z => good"#;

// An entry, what is changed in it, and the time that its promise tells, good or not: one of each kind with a promise
// and a time, those that lack one of the two (a time of 0 is none), and times at the ends.
const TOLD: &str = r#"p256 |  => 2023-11-14T22:15:00Z
second | "inclusionProof" ~ "integratedTime":"1700000100","inclusionPromise":{"signedEntryTimestamp":"AA=="},"inclusionProof" => none
high |  => 2023-11-14T22:15:00Z
high | "version":"0.0.1" ~ "version":"0.0.2" => none
unpromised | "inclusionProof" ~ "inclusionPromise":{"signedEntryTimestamp":"AA=="},"inclusionProof" => 2023-11-14T22:15:00Z
unpromised |  => none
untimed |  => none
p256 | "integratedTime":"1700000100" ~ "integratedTime":"0" => none
p256 | "integratedTime":"1700000100" ~ "integratedTime":"-1" => 1969-12-31T23:59:59Z
p256 | "integratedTime":"1700000100" ~ "integratedTime":"9223372036854775807" => 9999-12-30T22:00:00.999999999Z"#;

// A checkpoint, the key that is asked for, and the answer.
const UNDER_ONE_KEY: &str = "\
p256 p256 => good
p384 p384 => good
ed ed => good
rsa rsa => good
two p256 => good
two other => good
p256 other => Checkpoint(NoHint)
changed p256 => Checkpoint(Refused)
changed nothing => InvalidKey(Encoding)";

// A checkpoint, the logs, and the log by which it counts as signed: of those that signed the one of the least id, in
// whichever order their lines stand. `p256` has a lesser id than `other`. Of several logs that a line's hint means, only
// those count by whose key the line is good, and those that have started.
const SIGNED: &str = "\
two | p256 => p256
two | other => other
two | p256 rsa other => p256
two | other p256 => p256
turned | other p256 => p256
turned | other => other
two | rsa => none
changed | p256 => none
changed | p256 p256#0 => none
two | other p256@2024-06-01T00:00:01Z.. => other
turned | other p256@2024-06-01T00:00:01Z.. => other
two | other p256@2024-06-01T00:00:00Z.. => p256
two | other p256@2020-01-01T00:00:00Z..2022-01-01T00:00:00Z => p256
p256 | p256@2024-06-01T00:00:01Z.. => none
p256 | p256 p256#0 => p256#0
p256 | p256#0 p256 => p256#0
p256 | p256 p256#255 => p256
p256 | p256#0@2024-06-01T00:00:01Z.. p256 => p256
p256 | p256#0@2024-06-01T00:00:00Z.. p256 => p256#0
p256 | p256#0=other p256 => p256
p256 | p256=other => none
p256 | p256=other p256#255 => p256#255
two | p256=other other => other
two | p256=other other#0 other => other#0
two | p256#255 other => p256#255";

// Whose id this is.
fn name<X: AllocGlobal + Abort>(rt: &X, id: &Sha256Hash) -> &'static str {
    if is_id(rt, id, "p256") {
        "p256"
    } else if is_id(rt, id, "other") {
        "other"
    } else {
        "nobody"
    }
}

fn is_id<X: AllocGlobal + Abort>(rt: &X, id: &Sha256Hash, name: &str) -> bool {
    let key = key(rt, name);
    *id == sigstore_keys::sha256(key.as_bytes())
}

// A word, and a time where there is one.
fn at<X: AllocGlobal + Abort>(rt: &X, word: &str, time: Option<Timestamp>) -> String {
    match time {
        Some(time) => good(rt, format!(in rt.alloc(); "{word} at {time}")),
        None => string(rt, word),
    }
}

fn refused<X: AllocGlobal + Abort>(rt: &X, refusal: LogError) -> String {
    match refusal {
        LogError::UnknownLog { log_id } => {
            let name = name(rt, &log_id);
            good(rt, format!(in rt.alloc(); "UnknownLog of {name}"))
        }
        refusal => displayed(rt, refusal),
    }
}

/// Whether an entry with a change is logged, under the logs of words and at a time, and by which of them.
pub fn entry_judged<X: AllocGlobal + Abort>(rt: &X, given: &str) -> String {
    let (name, rest) = halves(rt, given, " | ");
    let (change, rest) = halves(rt, rest, " | ");
    let (words, now) = halves(rt, rest, " | ");
    let (entry, logs, tables) = (entry(rt, name, change), logs(rt, words), tables(rt));
    let judged = judge_entry(rt.alloc(), &tables.provider, &logs, moment(rt, now), &entry);
    drop(tables);
    drop(logs);
    drop(entry);
    match judged {
        Ok(EntryEvidence { log, time }) => logged(rt, who(rt, words, &log), time),
        Err(refusal) => refused(rt, refusal),
    }
}

fn logged<X: AllocGlobal + Abort>(rt: &X, name: &str, time: Option<Timestamp>) -> String {
    let words = good(rt, format!(in rt.alloc(); "logged by {name}"));
    let shown = at(rt, words.as_str(), time);
    drop(words);
    shown
}

/// Whether the promise of an entry with a change is good, under the logs of words and at a time.
pub fn promise_judged<X: AllocGlobal + Abort>(rt: &X, given: &str) -> String {
    let (name, rest) = halves(rt, given, " | ");
    let (change, rest) = halves(rt, rest, " | ");
    let (words, now) = halves(rt, rest, " | ");
    let (entry, logs, tables) = (entry(rt, name, change), logs(rt, words), tables(rt));
    let judged = judge_promise(rt.alloc(), &tables.provider, &logs, moment(rt, now), &entry);
    drop(tables);
    drop(logs);
    drop(entry);
    match judged {
        Ok(time) => at(rt, "good", time),
        Err(refusal) => refused(rt, refusal),
    }
}

/// The time that the promise of an entry tells.
pub fn told<X: AllocGlobal + Abort>(rt: &X, given: &str) -> String {
    let (name, change) = halves(rt, given, " | ");
    let entry = entry(rt, name, change);
    let time = told_time(&entry);
    drop(entry);
    match time {
        Some(time) => displayed(rt, time),
        None => string(rt, "none"),
    }
}

/// What a checkpoint is under a key.
pub fn under_key<X: AllocGlobal + Abort>(rt: &X, given: &str) -> String {
    let (name, key_name) = halves(rt, given, " ");
    let (tables, key, checkpoint) = (tables(rt), key(rt, key_name), checkpoint(rt, name));
    let answer = checkpoint.verify_signature(rt.alloc(), &tables.provider, &key);
    drop(checkpoint);
    drop(key);
    drop(tables);
    match answer {
        Ok(()) => string(rt, "good"),
        Err(refusal) => printed(rt, refusal),
    }
}

/// Which of the logs signed a checkpoint, as it counts.
pub fn signed<X: AllocGlobal + Abort>(rt: &X, given: &str) -> String {
    let (name, words) = halves(rt, given, " | ");
    let (tables, logs, checkpoint) = (tables(rt), logs(rt, words), checkpoint(rt, name));
    let signer = checkpoint_signer(&tables.provider, &logs, moment(rt, "now"), &checkpoint);
    drop(checkpoint);
    drop(logs);
    drop(tables);
    match signer {
        Some(id) => string(rt, who(rt, words, &id)),
        None => string(rt, "none"),
    }
}

// The text and the number of each refusal.
const REFUSALS: &str = "\
1 => 1 InclusionProof
2 => 2 Checkpoint
3 => 3 MalformedEntry
4 => 4 UnknownLog
5 => 5 InclusionPromise
6 => 6 IntegratedTime
7 => 7 NoMemory";

fn error(number: u64) -> LogError {
    match number {
        1 => LogError::InclusionProof,
        2 => LogError::Checkpoint,
        3 => LogError::MalformedEntry,
        4 => LogError::UnknownLog {
            log_id: Sha256Hash::new([1; 32]),
        },
        5 => LogError::InclusionPromise,
        6 => LogError::IntegratedTime,
        _ => LogError::NoMemory,
    }
}

/// The number and the text of a refusal.
pub fn refusal<X: AllocGlobal + Abort>(rt: &X, given: &str) -> String {
    let error = error(number(rt, given));
    numbered(rt, error.number(), error)
}

#[test]
fn entries_are_logged(rt: HostRuntime) {
    hold(&rt, "entry", ENTRIES);
    hold(&rt, "promise", PROMISES);
    hold(&rt, "told_time", TOLD);
    hold(&rt, "under_key", UNDER_ONE_KEY);
    hold(&rt, "signed", SIGNED);
    hold(&rt, "log_refusal", REFUSALS);
    logged_exactly();
    one_place_one_body();
    refusals_have_causes();
    signer_exactly();
}
