// Trust archives, put together here octet by octet.
use crate::provider::{One, armor};
use crate::words::{good, halves, hold, printed, string, there};
use jiff::Timestamp;
use sigstore_keys::Providers;
use sigstore_tuf::TrustChain;
use std::process::Abort;
use trust_archive::{ArchiveError, ArchiveTerms, read_archive, write_archive};

/// The answer of a call about archives.
pub fn answer<X: AllocGlobal + Abort>(rt: &X, call: &str, given: &str) -> String {
    match call {
        "archive" => judged(rt, "1 2025-01-01T00:00:00Z 32", given),
        "archive at" => {
            let (how, parts) = halves(rt, given, " / ");
            judged(rt, how, parts)
        }
        "archive cut" => cut(rt, good(rt, given.parse::<usize>())),
        "archive changed" => {
            let (at, octet) = halves(rt, given, " ");
            changed(
                rt,
                good(rt, at.parse::<usize>()),
                good(rt, octet.parse::<u8>()),
            )
        }
        _ => panic!(rt; "no call {call}"),
    }
}

// What each word of a row stands for: roots of versions 1, 2 and 4, and one that nobody signed; a timestamp, one
// that pins nothing, and one that nobody signed; a snapshot, and one of another version; and targets documents:
// one that lists f, one that delegates f to b and then to a, one of another version, one with a malformed
// pattern, and one that lists nothing.
const DOCUMENTS: &str =
    r#"1 root 1 2031 01 "keys":{"k":{"keytype":"ecdsa","scheme":"ecdsa-sha2-nistp256","keyval":{"public":"p"}}},"roles":{"root":{"keyids":["k"],"threshold":1},"timestamp":{"keyids":["k"],"threshold":1},"snapshot":{"keyids":["k"],"threshold":1},"targets":{"keyids":["k"],"threshold":1}}
2 root 2 2031 01 "keys":{"k":{"keytype":"ecdsa","scheme":"ecdsa-sha2-nistp256","keyval":{"public":"p"}}},"roles":{"root":{"keyids":["k"],"threshold":1},"timestamp":{"keyids":["k"],"threshold":1},"snapshot":{"keyids":["k"],"threshold":1},"targets":{"keyids":["k"],"threshold":1}}
4 root 4 2031 01 "keys":{},"roles":{}
u root 2 2031 02 "keys":{"k":{"keytype":"ecdsa","scheme":"ecdsa-sha2-nistp256","keyval":{"public":"p"}}},"roles":{"root":{"keyids":["k"],"threshold":1}}
e root 2 2024 01 "keys":{"k":{"keytype":"ecdsa","scheme":"ecdsa-sha2-nistp256","keyval":{"public":"p"}}},"roles":{"root":{"keyids":["k"],"threshold":1}}
t timestamp 1 2030 01 "meta":{"snapshot.json":{"version":1,"length":7}}
n timestamp 1 2030 01 "meta":{}
v timestamp 1 2030 02 "meta":{"snapshot.json":{"version":1}}
s snapshot 1 2031 01 "meta":{"targets.json":{"version":1},"a.json":{"version":1}}
w snapshot 2 2031 01 "meta":{"targets.json":{"version":1}}
g targets 1 2031 01 "targets":{"f":{"length":2,"hashes":{"sha256":"44136fa355b3678a1146ad16f7e8649e94fb4fc21fe77e8310c060f61caaff8a"}}}
d targets 1 2031 01 "targets":{},"delegations":{"keys":{"k":{"keytype":"ecdsa","scheme":"ecdsa-sha2-nistp256","keyval":{"public":"p"}}},"roles":[{"name":"b","keyids":["k"],"threshold":1,"paths":["f"]},{"name":"a","keyids":["k"],"threshold":1,"paths":["f"]}]}
o targets 2 2031 01 "targets":{}
p targets 1 2031 01 "targets":{},"delegations":{"keys":{},"roles":[{"name":"a","keyids":["k"],"threshold":1,"paths":["["]}]}
l targets 1 2031 01 "targets":{}
q targets 1 2024 01 "targets":{}"#;

// The document of a word; the word itself where it stands for none.
fn document<X: AllocGlobal + Abort>(rt: &X, word: &str) -> String {
    for line in DOCUMENTS.lines() {
        let (name, rest) = halves(rt, line, " ");
        if name == word {
            return made(rt, rest);
        }
    }
    string(rt, word)
}

fn made<X: AllocGlobal + Abort>(rt: &X, line: &str) -> String {
    let (kind, rest) = halves(rt, line, " ");
    let (version, rest) = halves(rt, rest, " ");
    let (year, rest) = halves(rt, rest, " ");
    let (signature, members) = halves(rt, rest, " ");
    let text = format!(in rt.alloc();
        r#"{{"signatures":[{{"keyid":"k","sig":"{signature}"}}],"signed":{{"_type":"{kind}","spec_version":"1.0.0","version":{version},"expires":"{year}-01-01T00:00:00Z",{members}}}}}"#
    );
    good(rt, text)
}

fn push<X: Abort>(rt: &X, out: &mut Vec<u8>, octets: &[u8]) {
    good(rt, out.extend_from_slice(octets));
}

// A number below 2^16, in four octets.
fn push_number<X: Abort>(rt: &X, out: &mut Vec<u8>, number: usize) {
    let [high, low] = good(rt, u16::try_from(number)).to_be_bytes();
    push(rt, out, &[0, 0, high, low]);
}

fn push_text<X: Abort>(rt: &X, out: &mut Vec<u8>, text: &str) {
    push_number(rt, out, text.len());
    push(rt, out, text.as_bytes());
}

fn push_document<X: AllocGlobal + Abort>(rt: &X, out: &mut Vec<u8>, word: &str) {
    let document = document(rt, word);
    push_text(rt, out, document.as_str());
    drop(document);
}

// A role is its name, its delegator and its document, none where that is `-`, with `:` between them.
fn push_role<X: AllocGlobal + Abort>(rt: &X, out: &mut Vec<u8>, role: &str) {
    let (name, rest) = halves(rt, role, ":");
    let (delegator, word) = halves(rt, rest, ":");
    push_text(rt, out, name);
    push_text(rt, out, delegator);
    if word == "-" {
        push(rt, out, &[0]);
    } else {
        push(rt, out, &[1]);
        push_document(rt, out, word);
    }
}

// The archive of a row: roots, timestamp, snapshot, roles, file and what follows.
fn archive<X: AllocGlobal + Abort>(rt: &X, row: &str) -> Vec<u8> {
    let mut cells = row.split(" | ");
    let mut out = Vec::new(rt.alloc());
    push(rt, &mut out, b"SIGCHAIN1\n");
    let roots = there(rt, cells.next());
    push_number(rt, &mut out, roots.split_whitespace().count());
    for word in roots.split_whitespace() {
        push_document(rt, &mut out, word);
    }
    push_document(rt, &mut out, there(rt, cells.next()));
    push_document(rt, &mut out, there(rt, cells.next()));
    let roles = there(rt, cells.next());
    push_number(rt, &mut out, roles.split_whitespace().count());
    for role in roles.split_whitespace() {
        push_role(rt, &mut out, role);
    }
    push_text(rt, &mut out, there(rt, cells.next()));
    push(rt, &mut out, there(rt, cells.next()).as_bytes());
    out
}

// The word for an answer; a chain has to be written as it was read.
fn shown<X: AllocGlobal + Abort>(
    rt: &X,
    bytes: &[u8],
    answer: Result<TrustChain, ArchiveError>,
) -> String {
    match answer {
        Ok(chain) => {
            let written = good(rt, write_archive(rt.alloc(), &chain));
            let shown = (chain.target.length, written.as_bytes() == bytes);
            drop(written);
            drop(chain);
            printed(rt, shown)
        }
        Err(e) => printed(rt, e),
    }
}

fn read<X: AllocGlobal + Abort>(rt: &X, root: &str, now: &str, most: &str, bytes: &[u8]) -> String {
    let (armor, root) = (armor(rt), document(rt, root));
    let now: Timestamp = good(rt, now.parse());
    let most = good(rt, most.parse::<u32>());
    let answer = {
        let providers = Providers {
            provider: &One,
            armor: &armor,
        };
        let terms = ArchiveTerms {
            root: root.as_bytes(),
            path: "f",
            max_delegations: most,
            moment: now,
        };
        read_archive(rt.alloc(), &providers, &terms, bytes)
    };
    drop(root);
    drop(armor);
    shown(rt, bytes, answer)
}

// Which root is given, the moment and how many visits are allowed; and the archive.
fn judged<X: AllocGlobal + Abort>(rt: &X, how: &str, row: &str) -> String {
    let (root, rest) = halves(rt, how, " ");
    let (now, most) = halves(rt, rest, " ");
    let bytes = archive(rt, row);
    let answer = read(rt, root, now, most, bytes.as_slice());
    drop(bytes);
    answer
}

const PLAIN: &str = "1 | t | s | targets:root:g | {} | ";

// The first octets of an archive.
fn cut<X: AllocGlobal + Abort>(rt: &X, most: usize) -> String {
    let mut bytes = archive(rt, PLAIN);
    bytes.truncate(most);
    let answer = read(rt, "1", "2025-01-01T00:00:00Z", "32", bytes.as_slice());
    drop(bytes);
    answer
}

// An archive with another octet at this place.
fn changed<X: AllocGlobal + Abort>(rt: &X, at: usize, octet: u8) -> String {
    let mut bytes = archive(rt, PLAIN);
    match bytes.get_mut(at) {
        Some(place) => *place = octet,
        None => {}
    }
    let answer = read(rt, "1", "2025-01-01T00:00:00Z", "32", bytes.as_slice());
    drop(bytes);
    answer
}

// An archive is read and written again. A snapshot isn't held to the length of its pin.
const READ: &str = "1 | t | s | targets:root:g | {} |  => (2, true)
1 2 | t | s | targets:root:g | {} |  => (2, true)
1 | t | s | targets:root:d b:targets:- a:targets:g | {} |  => (2, true)";

// Where the octets leave the format. By a script: the numbers begin at 10 (of the roots), 14, 415, 609, 813 (of
// the roles), 817, 828, 837 and 1095, and what they count behind them; the octet before the document is at 836,
// and the end at 1101.
const FORMAT: &str = "1 | t | s | targets:root:g | {} | x => Format { at: 1101 }
1 | t | s | targets:root:g | {} | xyz => Format { at: 1101 }";

const CUT: &str = "0 => Format { at: 0 }
9 => Format { at: 0 }
10 => Format { at: 10 }
13 => Format { at: 10 }
14 => Format { at: 14 }
414 => Format { at: 18 }
418 => Format { at: 415 }
812 => Format { at: 613 }
816 => Format { at: 813 }
827 => Format { at: 821 }
836 => Format { at: 836 }
837 => Format { at: 837 }
1094 => Format { at: 841 }
1100 => Format { at: 1099 }";

const CHANGED: &str = "8 50 => Format { at: 0 }
9 13 => Format { at: 0 }
14 1 => Format { at: 18 }
821 255 => Format { at: 821 }
836 0 => Format { at: 1095 }
836 2 => Format { at: 836 }
837 1 => Format { at: 841 }
1098 1 => Format { at: 1100 }
1098 3 => Format { at: 1099 }
1099 91 => File";

const ROOTS: &str = r#" | t | s | targets:root:g | {} |  => FirstRoot
2 | t | s | targets:root:g | {} |  => FirstRoot
1 4 | t | s | targets:root:g | {} |  => Root { position: 1, fault: BadRootVersion { trusted: 1, new: 4 } }
1 u | t | s | targets:root:g | {} |  => Root { position: 1, fault: ThresholdNotMet { role: "root", found: 0, threshold: 1 } }
1 e | t | s | targets:root:g | {} |  => Root { position: 1, fault: Expired { role: "root", expires: 2024-01-01T00:00:00Z } }"#;

const TOPS: &str = r#"1 | x | s | targets:root:g | {} |  => Timestamp { fault: Json }
1 | v | s | targets:root:g | {} |  => Timestamp { fault: ThresholdNotMet { role: "timestamp", found: 0, threshold: 1 } }
1 | n | s | targets:root:g | {} |  => Timestamp { fault: Malformed(Unpinned) }
1 | t | w | targets:root:g | {} |  => Snapshot { fault: IntegrityMismatch(Version) }
1 | t | t | targets:root:g | {} |  => Snapshot { fault: Malformed(Kind) }"#;

// At each place the visit comes before its document, and at the end of the list whether the search ends there.
const ROLES: &str = r#"1 | t | s |  | {} |  => Order { position: 0 }
1 | t | s | root:targets:g | {} |  => Order { position: 0 }
1 | t | s | targets:targets:g | {} |  => Order { position: 0 }
1 | t | s | targets:root:- | {} |  => Order { position: 0 }
1 | t | s | targets:root:o | {} |  => Role { position: 0, fault: IntegrityMismatch(Version) }
1 | t | s | targets:root:q | {} |  => Role { position: 0, fault: Expired { role: "targets", expires: 2024-01-01T00:00:00Z } }
1 | t | s | targets:root:p a:targets:g | {} |  => Role { position: 0, fault: Malformed(Pattern) }
1 | t | s | targets:root:l | {} |  => Order { position: 1 }
1 | t | s | targets:root:d | {} |  => Order { position: 1 }
1 | t | s | targets:root:g targets:root:g | {} |  => Order { position: 1 }
1 | t | s | targets:root:d b:targets:g a:targets:g | {} |  => Order { position: 1 }
1 | t | s | targets:root:d b:root:- a:targets:g | {} |  => Order { position: 1 }
1 | t | s | targets:root:d a:targets:g | {} |  => Order { position: 1 }
1 | t | s | targets:root:d b:targets:- a:targets:o | {} |  => Role { position: 2, fault: IntegrityMismatch(Version) }
1 | t | s | targets:root:d b:targets:- a:targets:l | {} |  => Order { position: 3 }
1 | t | s | targets:root:g | {] |  => File"#;

const AT: &str = r#"2 2025-01-01T00:00:00Z 32 / 1 | t | s | targets:root:g | {} |  => FirstRoot
1 2030-01-01T00:00:00Z 32 / 1 | t | s | targets:root:g | {} |  => (2, true)
1 2030-01-01T00:00:01Z 32 / 1 | t | s | targets:root:g | {} |  => Timestamp { fault: Expired { role: "timestamp", expires: 2030-01-01T00:00:00Z } }
1 2025-01-01T00:00:00Z 0 / 1 | t | s | targets:root:g | {} |  => Order { position: 0 }
1 2025-01-01T00:00:00Z 2 / 1 | t | s | targets:root:d b:targets:- a:targets:g | {} |  => Order { position: 2 }
1 2025-01-01T00:00:00Z 3 / 1 | t | s | targets:root:d b:targets:- a:targets:g | {} |  => (2, true)"#;

#[test]
fn archives_are_judged(rt: HostRuntime) {
    hold(&rt, "archive", READ);
    hold(&rt, "archive", FORMAT);
    hold(&rt, "archive cut", CUT);
    hold(&rt, "archive changed", CHANGED);
    hold(&rt, "archive", ROOTS);
    hold(&rt, "archive", TOPS);
    hold(&rt, "archive", ROLES);
    hold(&rt, "archive at", AT);
}
