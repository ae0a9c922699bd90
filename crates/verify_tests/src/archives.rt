// Archives of the fixture's chain: how they are written, and what is said of them.
use crate::downloads::placed;
use crate::fixture::{PARTS, inputs, measured, repository, root, store, targets};
use crate::tables::{Change, bytes, change_in, failures, good, hold, text_of, there, words};
use command_archive::{run_archive, run_check};
use command_download::MemoryShelf;
use command_files::{CommandLine, MemorySink, Status};
use jiff::Timestamp;
use sigstore_keys::MemorySource;
use std::num::NonZeroU32;
use std::process::Abort;

// The words by which the archives of the other rows are made.
const WORDS: &str =
    "archive --root=a --repository=b --store=c --provider=d --now=2025-01-01T00:00:00Z";

// The fixture as it is, by which an archive is made whose judgement is disturbed.
const USUAL: Change = Change {
    keyless: false,
    part: "nothing",
    text: "",
};

// How `archive` ends with these words, over the changed fixture.
fn archived<X: AllocGlobal + Abort>(
    rt: &X,
    change: Change,
    line: &str,
    sink: &mut MemorySink,
) -> Status {
    let (root, targets) = (root(rt, change, "1"), targets(rt, change));
    let mut inputs = inputs(rt, change, root.as_str(), targets.as_str());
    let mut repo = repository(rt, change, targets.as_str());
    let mut store = store(rt, change);
    let words = words(rt, line);
    let line = CommandLine {
        words: &words,
        clock: Timestamp::UNIX_EPOCH,
    };
    let status = run_archive(rt.alloc(), &line, &mut inputs, &mut repo, &mut store, sink);
    drop(words);
    drop(store);
    drop(repo);
    drop(inputs);
    drop(root);
    drop(targets);
    status
}

// How `check` ends with these words, over the changed fixture's inputs and these octets as the archive.
fn checked<X: AllocGlobal + Abort>(
    rt: &X,
    change: Change,
    line: &str,
    octets: &[u8],
    shelf: &mut MemoryShelf,
    sink: &mut MemorySink,
) -> Status {
    let (root, targets) = (root(rt, change, "1"), targets(rt, change));
    let mut inputs = inputs(rt, change, root.as_str(), targets.as_str());
    let step = there(rt, NonZeroU32::new(1000));
    let failures = failures(rt, change.of("artifact fails", ""));
    let mut archive = MemorySource::new(bytes(rt, octets), step, failures);
    let words = words(rt, line);
    let line = CommandLine {
        words: &words,
        clock: Timestamp::UNIX_EPOCH,
    };
    let status = run_check(rt.alloc(), &line, &mut inputs, &mut archive, shelf, sink);
    drop(words);
    drop(archive);
    drop(inputs);
    drop(root);
    drop(targets);
    status
}

fn sink<X: AllocGlobal + Abort>(rt: &X, change: Change) -> MemorySink {
    let room = good(rt, change.of("room", "8192").parse::<u32>());
    let failures = failures(rt, change.of("sink fails", ""));
    good(rt, MemorySink::new(rt.alloc(), room, failures))
}

// How `archive` ends over the changed fixture: with the length and the SHA-256 value of what it wrote, or what it says.
pub(crate) fn written<X: AllocGlobal + Abort>(rt: &X, row: &str) -> String {
    let (row, line) = there(rt, row.rsplit_once(" | "));
    let change = change_in(rt, row, PARTS);
    let mut sink = sink(rt, change);
    let status = archived(rt, change, line, &mut sink);
    let taken = if status == Status::Accepted {
        measured(rt, sink.bytes())
    } else {
        text_of(rt, sink.bytes())
    };
    drop(sink);
    let said = format!(in rt.alloc(); "{status:?} {taken:?}");
    drop(taken);
    good(rt, said)
}

// An archive of the changed fixture's chain; of the usual one where the change is of something else.
pub(crate) fn archive<X: AllocGlobal + Abort>(rt: &X, change: Change) -> MemorySink {
    let made = match change.part {
        "second root" | "consistent names" | "delegated" | "trust" => change,
        _ => USUAL,
    };
    let mut sink = sink(rt, made);
    let status = archived(rt, made, WORDS, &mut sink);
    assert!(rt; status == Status::Accepted, "an archive");
    sink
}

// The octets as they are, or changed: with one behind them, without the last, with the lowest bit of one turned.
fn changed<X: AllocGlobal + Abort>(rt: &X, octets: &[u8], how: &str) -> Vec<u8> {
    let mut changed = Vec::new(rt.alloc());
    there(rt, changed.extend_from_slice(octets).ok());
    match how {
        "whole" => {}
        "longer" => there(rt, changed.push(0).ok()),
        "shorter" => {
            let _last = changed.pop();
        }
        _ => {
            let place = good(rt, how.parse::<usize>());
            match changed.get_mut(place) {
                Some(octet) => *octet ^= 1,
                None => panic!(rt; "no octet {how}"),
            }
        }
    }
    changed
}

// What `check` says over the changed fixture, of an archive of it that may be changed too; and what is put in place, if
// anything is.
pub(crate) fn judged<X: AllocGlobal + Abort>(rt: &X, row: &str) -> String {
    let (row, line) = there(rt, row.rsplit_once(" | "));
    let (row, how) = there(rt, row.rsplit_once(" | "));
    let change = change_in(rt, row, PARTS);
    let whole = archive(rt, change);
    let octets = changed(rt, whole.bytes(), how);
    drop(whole);
    let mut sink = sink(rt, change);
    let mut shelf = MemoryShelf::new(rt.alloc(), failures(rt, change.of("shelf fails", "")));
    let status = checked(rt, change, line, &octets, &mut shelf, &mut sink);
    drop(octets);
    let taken = text_of(rt, sink.bytes());
    let files = placed(rt, &shelf);
    drop(shelf);
    drop(sink);
    let said = if files.is_empty() {
        format!(in rt.alloc(); "{status:?} {taken:?}")
    } else {
        format!(in rt.alloc(); "{status:?} {taken:?} {files:?}")
    };
    drop(taken);
    drop(files);
    good(rt, said)
}

// A row: the part, the text in its place, the words, and the status with what is written: of an archive its length and
// its SHA-256 value, by a script that spells the documents of the fixture.
const WRITTEN: &str =
    r#"nothing |  | archive --root=a --repository=b --store=c --provider=d --now=2025-01-01T00:00:00Z | Accepted "1238 8a6f30162701da67700729494f418318c98950312935acd628eced4ffaec3b06"
second root | 2 | archive --root=a --repository=b --store=c --provider=d --now=2025-01-01T00:00:00Z | Accepted "1794 264bd32b3515a7c3aef6a7541876826f16daddc132ae5b8e4c3262b0e01ce034"
nothing |  | archive --root=a --repository=b --store=c --provider=d --now=2030-01-01T00:00:01Z | Refused "refused tuf 12 Expired\n"
unsigned | targets | archive --root=a --repository=b --store=c --provider=d | Refused "refused tuf 8 ThresholdNotMet\n"
repository fails | 5 | archive --root=a --repository=b --store=c --provider=d | Refused "refused tuf 18 Transport\n"
inputs fail | 1 | archive --root=a --repository=b --store=c --provider=d | Input "input provider\n"
inputs fail | 2 | archive --root=a --repository=b --store=c --provider=d | Input "input root\n"
nothing |  | archive --provider=d --store=c --repository=b --root=a | Accepted "1238 8a6f30162701da67700729494f418318c98950312935acd628eced4ffaec3b06"
sink fails | 1 | archive --root=a --repository=b --store=c --provider=d | Output ""
nothing |  | archive --root=a --repository=b --provider=d | Usage "usage\n"
nothing |  | archive --root=a --repository=b --store=c --archive=e --provider=d | Usage "usage\n""#;

#[test]
fn a_chain_is_written(rt: HostRuntime) {
    hold(&rt, "archive", WRITTEN);
}

// A row: the part, the text in its place, what is done to the archive, the words, and the status with what is written. The
// octets that are turned are of the first root's length, of the role's name, of its delegator, and of the file.
const JUDGED: &str =
    r#"nothing |  | whole | check --root=a --archive=b --provider=c --now=2025-01-01T00:00:00Z | Accepted "trusted\nroot 1\ntimestamp 1\nsnapshot 1\nrole targets 1\ntarget 2\n"
nothing |  | whole | check --now=2030-01-01T00:00:00Z --provider=c --archive=b --root=a | Accepted "trusted\nroot 1\ntimestamp 1\nsnapshot 1\nrole targets 1\ntarget 2\n"
nothing |  | whole | check --root=a --archive=b --provider=c | Accepted "trusted\nroot 1\ntimestamp 1\nsnapshot 1\nrole targets 1\ntarget 2\n"
second root | 2 | whole | check --root=a --archive=b --provider=c | Accepted "trusted\nroot 2\ntimestamp 1\nsnapshot 1\nrole targets 1\ntarget 2\n"
consistent names |  | whole | check --root=a --archive=b --provider=c | Accepted "trusted\nroot 1\ntimestamp 1\nsnapshot 1\nrole targets 1\ntarget 2\n"
delegated | d | whole | check --root=a --archive=b --provider=c | Accepted "trusted\nroot 1\ntimestamp 1\nsnapshot 1\nrole targets 1\nrole d 3\ntarget 2\n"
delegated | u d | whole | check --root=a --archive=b --provider=c | Accepted "trusted\nroot 1\ntimestamp 1\nsnapshot 1\nrole targets 1\nrole d 3\ntarget 2\n"
delegated | e d | whole | check --root=a --archive=b --provider=c | Accepted "trusted\nroot 1\ntimestamp 1\nsnapshot 1\nrole targets 1\nrole e 1\nrole d 3\ntarget 2\n"
nothing |  | whole | check --root=a --archive=b --provider=c --least=1 | Accepted "trusted\nroot 1\ntimestamp 1\nsnapshot 1\nrole targets 1\ntarget 2\n"
nothing |  | whole | check --least=0 --root=a --archive=b --provider=c | Accepted "trusted\nroot 1\ntimestamp 1\nsnapshot 1\nrole targets 1\ntarget 2\n"
nothing |  | whole | check --root=a --archive=b --provider=c --trusted-root=x | Accepted "trusted\nroot 1\ntimestamp 1\nsnapshot 1\nrole targets 1\ntarget 2\n" "x 2 44136fa355b3678a1146ad16f7e8649e94fb4fc21fe77e8310c060f61caaff8a"
second root | 2 | whole | check --trusted-root=x/y --least=1 --root=a --archive=b --provider=c | Accepted "trusted\nroot 2\ntimestamp 1\nsnapshot 1\nrole targets 1\ntarget 2\n" "x/y 2 44136fa355b3678a1146ad16f7e8649e94fb4fc21fe77e8310c060f61caaff8a"
nothing |  | whole | check --root=a --archive=b --provider=c --least=2 | Refused "refused archive 11 Rollback\n"
nothing |  | whole | check --root=a --archive=b --provider=c --least=18446744073709551615 --trusted-root=x | Refused "refused archive 11 Rollback\n"
second root | 2 | whole | check --root=a --archive=b --provider=c --least=2 | Refused "refused archive 11 Rollback\n"
nothing |  | whole | check --root=a --archive=b --provider=c --least=2 --now=2030-01-01T00:00:01Z | Refused "refused archive 4 Timestamp\n"
unsigned | targets | whole | check --root=a --archive=b --provider=c --trusted-root=x | Refused "refused archive 6 Role\n"
nothing |  | 1237 | check --root=a --archive=b --provider=c --trusted-root=x | Refused "refused archive 8 File\n"
artifact fails | 1 | whole | check --root=a --archive=b --provider=c --trusted-root=x | Input "input archive\n"
shelf fails | 1 | whole | check --root=a --archive=b --provider=c --trusted-root=x | Output "output file\n"
shelf fails | 1 | whole | check --root=a --archive=b --provider=c | Accepted "trusted\nroot 1\ntimestamp 1\nsnapshot 1\nrole targets 1\ntarget 2\n"
shelf fails | 2 | whole | check --root=a --archive=b --provider=c --trusted-root=x | Accepted "trusted\nroot 1\ntimestamp 1\nsnapshot 1\nrole targets 1\ntarget 2\n" "x 2 44136fa355b3678a1146ad16f7e8649e94fb4fc21fe77e8310c060f61caaff8a"
sink fails | 1 | whole | check --root=a --archive=b --provider=c --trusted-root=x | Output "" "x 2 44136fa355b3678a1146ad16f7e8649e94fb4fc21fe77e8310c060f61caaff8a"
nothing |  | whole | check --root=a --archive=b --provider=c --now=2030-01-01T00:00:01Z | Refused "refused archive 4 Timestamp\n"
nothing |  | whole | check --root=a --archive=b --provider=c --now=2031-01-01T00:00:01Z | Refused "refused archive 3 Root\n"
nothing |  | longer | check --root=a --archive=b --provider=c | Refused "refused archive 1 Format\n"
nothing |  | shorter | check --root=a --archive=b --provider=c | Refused "refused archive 1 Format\n"
nothing |  | 17 | check --root=a --archive=b --provider=c | Refused "refused archive 1 Format\n"
start of root | 551 | whole | check --root=a --archive=b --provider=c | Refused "refused archive 2 FirstRoot\n"
unsigned | root | whole | check --root=a --archive=b --provider=c | Refused "refused archive 3 Root\n"
unsigned | timestamp | whole | check --root=a --archive=b --provider=c | Refused "refused archive 4 Timestamp\n"
unsigned | snapshot | whole | check --root=a --archive=b --provider=c | Refused "refused archive 5 Snapshot\n"
unsigned | targets | whole | check --root=a --archive=b --provider=c | Refused "refused archive 6 Role\n"
nothing |  | 942 | check --root=a --archive=b --provider=c | Refused "refused archive 7 Order\n"
nothing |  | 953 | check --root=a --archive=b --provider=c | Refused "refused archive 7 Order\n"
nothing |  | 1237 | check --root=a --archive=b --provider=c | Refused "refused archive 8 File\n"
inputs fail | 1 | whole | check --root=a --archive=b --provider=c | Input "input provider\n"
inputs fail | 2 | whole | check --root=a --archive=b --provider=c | Input "input root\n"
artifact fails | 1 | whole | check --root=a --archive=b --provider=c | Input "input archive\n"
artifact fails | 3 | whole | check --root=a --archive=b --provider=c | Input "input archive\n"
sink fails | 1 | whole | check --root=a --archive=b --provider=c | Output ""
room | 3 | whole | check --root=a --archive=b --provider=c | Output "tru"
nothing |  | whole | check --root=a --provider=c | Usage "usage\n"
nothing |  | whole | check --root=a --archive=b --provider=c --store=d | Usage "usage\n"
nothing |  | whole | check --root=a --archive=b --provider=c --now=x | Usage "usage\n"
nothing |  | whole | check --root=a --archive=b --provider=c --least= | Usage "usage\n"
nothing |  | whole | check --root=a --archive=b --provider=c --least=x | Usage "usage\n"
nothing |  | whole | check --root=a --archive=b --provider=c --least=01 | Usage "usage\n"
nothing |  | whole | check --root=a --archive=b --provider=c --least=-1 | Usage "usage\n"
nothing |  | whole | check --root=a --archive=b --provider=c --least=18446744073709551616 | Usage "usage\n"
nothing |  | whole | check --root=a --archive=b --provider=c --least=1 --least=1 | Usage "usage\n"
nothing |  | whole | check --root=a --archive=b --provider=c --trusted-root= | Usage "usage\n"
nothing |  | whole | check --root=a --archive=b --provider=c --trusted-root=x --trusted-root=y | Usage "usage\n"
nothing |  | whole | archive --root=a --repository=b --store=c --provider=d | Usage "usage\n""#;

#[test]
fn archives_are_judged(rt: HostRuntime) {
    hold(&rt, "check", JUDGED);
}
