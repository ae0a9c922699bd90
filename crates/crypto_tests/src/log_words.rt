// What rows of tables mean: names of logs, checkpoints and entries, moments, and answers as texts.
use crate::log_data::{CHECKPOINTS, ENTRIES, KEYS, SIGNATURES};
use crate::tables::{good, halves, holds, number, string, there};
use command_files::{Tables, read_provider};
use jiff::Timestamp;
use sigstore_entries::{Checkpoint, TransparencyLogEntry};
use sigstore_keys::{Keyring, VerificationKey, compute_key_hint, sha256};
use sigstore_types_parts::{DerPublicKey, Hash, LogKeyId, Sha256Hash, TimeRange, parse_json};
use std::process::Abort;

/// What a table has behind a name.
pub fn behind<X: Abort>(rt: &X, table: &'static str, name: &str) -> &'static str {
    for row in table.lines() {
        let (first, rest) = halves(rt, row, " ");
        if first == name {
            return rest;
        }
    }
    there(rt, None)
}

/// The key of a log; that of no name is one byte.
pub fn key<X: AllocGlobal + Abort>(rt: &X, name: &str) -> DerPublicKey {
    if name == "nothing" {
        return good(rt, DerPublicKey::from_bytes(rt.alloc(), &[0]));
    }
    good(
        rt,
        DerPublicKey::from_base64(rt.alloc(), behind(rt, KEYS, name)),
    )
}

/// A moment; `now` is the middle of 2024.
pub fn moment<X: Abort>(rt: &X, word: &str) -> Timestamp {
    let word = if word == "now" {
        "2024-06-01T00:00:00Z"
    } else {
        word
    };
    good(rt, word.parse::<Timestamp>())
}

// A window: `START..END`, the end left out where there is none.
fn window<X: Abort>(rt: &X, word: &str) -> TimeRange {
    let (start, end) = halves(rt, word, "..");
    TimeRange {
        start: moment(rt, start),
        end: if end.is_empty() {
            None
        } else {
            Some(moment(rt, end))
        },
    }
}

// What stands before a mark, or the whole word, and what stands behind the mark.
fn parted<'a>(word: &'a str, mark: char) -> (&'a str, Option<&'a str>) {
    match word.split_once(mark) {
        Some((name, rest)) => (name, Some(rest)),
        None => (word, None),
    }
}

// The log's own id, or another one with its hint, of which all other octets are this number.
fn id_of<X: AllocGlobal + Abort>(rt: &X, name: &str) -> Sha256Hash {
    let (name, other) = parted(name, '#');
    let der = key(rt, name);
    let (own, hint) = (sha256(der.as_bytes()), compute_key_hint(&der));
    drop(der);
    match other {
        None => own,
        Some(octet) => {
            let mut id = [number(rt, octet).min(255) as u8; 32];
            let [first, second, third, fourth] = *hint.as_array();
            id[0] = first;
            id[1] = second;
            id[2] = third;
            id[3] = fourth;
            Hash::new(id)
        }
    }
}

// Holds under an id a key, in a window where one is told: `NAME` is the log's own id, `NAME#OCTET` another one with its hint;
// behind it stands `=NAME` where the key is another log's, and then `@WINDOW`.
fn hold<X: AllocGlobal + Abort>(rt: &X, logs: &mut Keyring, word: &str) {
    let (held, range) = parted(word, '@');
    let (name, other) = parted(held, '=');
    let valid_for = match range {
        Some(range) => Some(window(rt, range)),
        None => None,
    };
    let der = match other {
        Some(other) => key(rt, other),
        None => key(rt, parted(name, '#').0),
    };
    let read = good(rt, VerificationKey::from_spki(rt.alloc(), &der));
    drop(der);
    let id = id_of(rt, name);
    good(rt, logs.add_key_with_validity(id, read, valid_for));
}

/// Which of these words of logs has an id; its name, without the key and the window.
pub fn who<'a, X: AllocGlobal + Abort>(rt: &X, words: &'a str, id: &Sha256Hash) -> &'a str {
    for word in words.split_ascii_whitespace() {
        let (held, _) = parted(word, '@');
        let (name, _) = parted(held, '=');
        if id_of(rt, name) == *id {
            return name;
        }
    }
    "nobody"
}

/// The logs of these words.
pub fn logs<X: AllocGlobal + Abort>(rt: &X, words: &str) -> Keyring {
    let mut logs = Keyring::new(rt.alloc());
    for word in words.split_ascii_whitespace() {
        hold(rt, &mut logs, word);
    }
    logs
}

/// Who decides signatures.
pub fn tables<X: AllocGlobal + Abort>(rt: &X) -> Tables {
    good(rt, read_provider(rt.alloc(), SIGNATURES.as_bytes()))
}

/// The checkpoint of a name.
pub fn checkpoint<X: AllocGlobal + Abort>(rt: &X, name: &str) -> Checkpoint {
    read_checkpoint(rt, behind(rt, CHECKPOINTS, name))
}

/// The checkpoint of a JSON string.
pub fn read_checkpoint<X: AllocGlobal + Abort>(rt: &X, text: &str) -> Checkpoint {
    let value = good(rt, parse_json(rt.alloc(), text.as_bytes()));
    let signed = there(rt, value.as_str());
    good(rt, Checkpoint::from_text(rt.alloc(), signed.as_bytes()))
}

// One side of a change: `checkpoint NAME` or `id NAME` for what the entry has of it, else the text itself.
fn side<X: AllocGlobal + Abort>(rt: &X, side: &str) -> String {
    if let Some(name) = side.strip_prefix("checkpoint ") {
        return string(rt, behind(rt, CHECKPOINTS, name));
    }
    if let Some(name) = side.strip_prefix("id ") {
        let id = sha256(key(rt, name).as_bytes());
        let id = good(rt, LogKeyId::from_bytes(rt.alloc(), id.as_bytes()));
        return string(rt, good(rt, id.to_base64(rt.alloc())).as_str());
    }
    string(rt, side)
}

// The text with one part, which stands in it once, in another's place: `OLD ~ NEW`.
fn changed<X: AllocGlobal + Abort>(rt: &X, whole: &str, change: &str) -> String {
    if change.is_empty() {
        return string(rt, whole);
    }
    let (old, new) = halves(rt, change, " ~ ");
    let (old, new) = (side(rt, old), side(rt, new));
    let (before, behind) = halves(rt, whole, old.as_str());
    holds(rt, behind.split_once(old.as_str()).is_none());
    good(rt, format!(in rt.alloc(); "{before}{new}{behind}"))
}

/// The entry of a name with a change.
pub fn entry<X: AllocGlobal + Abort>(rt: &X, name: &str, change: &str) -> TransparencyLogEntry {
    let whole = changed(rt, behind(rt, ENTRIES, name), change);
    let value = good(rt, parse_json(rt.alloc(), whole.as_str().as_bytes()));
    good(rt, TransparencyLogEntry::from_value(rt.alloc(), &value))
}
