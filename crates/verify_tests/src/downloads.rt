// What is said of downloads over the fixture, and what is put in place.
use crate::fixture::{PARTS, inputs, measured, repository, root, store, targets};
use crate::tables::{Change, change_in, failures, good, hold, string, text_of, there, words};
use command_download::{MemoryShelf, run_download};
use command_files::{CommandLine, MemorySink, Status};
use jiff::Timestamp;
use std::process::Abort;

// How a run with these words ends, over the changed fixture; the part `artifact fails` is the shelf's.
fn ended<X: AllocGlobal + Abort>(
    rt: &X,
    change: Change,
    line: &str,
    shelf: &mut MemoryShelf,
    sink: &mut MemorySink,
) -> Status {
    let (root, targets) = (root(rt, change, "1"), targets(rt, change));
    let mut inputs = inputs(rt, change, root.as_str(), targets.as_str());
    let mut repo = repository(rt, change, targets.as_str());
    let mut store = store(rt, change);
    let words = words(rt, line);
    let line = CommandLine {
        words: &words,
        clock: Timestamp::UNIX_EPOCH,
    };
    let status = run_download(
        rt.alloc(),
        &line,
        &mut inputs,
        &mut repo,
        &mut store,
        shelf,
        sink,
    );
    drop(words);
    drop(store);
    drop(repo);
    drop(inputs);
    drop(root);
    drop(targets);
    status
}

// The files that were put in place, each with its length and its SHA-256 value.
pub(crate) fn placed<X: AllocGlobal + Abort>(rt: &X, shelf: &MemoryShelf) -> String {
    let mut told = string(rt, "");
    for file in shelf.files() {
        if !told.is_empty() {
            good(rt, told.push_str(", "));
        }
        let measured = measured(rt, file.bytes.as_bytes());
        good(rt, told.push_str(file.path.as_str()));
        good(rt, told.push(' '));
        good(rt, told.push_str(measured.as_str()));
        drop(measured);
    }
    told
}

// How `download` ends over the changed fixture, what it says, and what is in place then.
pub(crate) fn said<X: AllocGlobal + Abort>(rt: &X, row: &str) -> String {
    let (row, line) = there(rt, row.rsplit_once(" | "));
    let change = change_in(rt, row, PARTS);
    let room = good(rt, change.of("room", "8192").parse::<u32>());
    let fails = failures(rt, change.of("sink fails", ""));
    let mut sink = good(rt, MemorySink::new(rt.alloc(), room, fails));
    let fails = failures(rt, change.of("artifact fails", ""));
    let mut shelf = MemoryShelf::new(rt.alloc(), fails);
    let status = ended(rt, change, line, &mut shelf, &mut sink);
    let taken = text_of(rt, sink.bytes());
    let files = placed(rt, &shelf);
    drop(shelf);
    drop(sink);
    let said = format!(in rt.alloc(); "{status:?} {taken:?} {files:?}");
    drop(taken);
    drop(files);
    good(rt, said)
}

// A row: the part, the text in its place, the words, and the status with what is written and what is in place.
const SAID: &str =
    r#"nothing |  | download --root=a --repository=b --store=c --provider=d --target=trusted_root.json --out=x | Accepted "downloaded\nroot 1\ntimestamp 1\nsnapshot 1\nrole targets 1\ntarget trusted_root.json 2 sha256 44136fa355b3678a1146ad16f7e8649e94fb4fc21fe77e8310c060f61caaff8a\n" "x 2 44136fa355b3678a1146ad16f7e8649e94fb4fc21fe77e8310c060f61caaff8a"
nothing |  | download --target=trusted_root.json --out=x --provider=d --now=2030-01-01T00:00:00Z --store=c --repository=b --root=a | Accepted "downloaded\nroot 1\ntimestamp 1\nsnapshot 1\nrole targets 1\ntarget trusted_root.json 2 sha256 44136fa355b3678a1146ad16f7e8649e94fb4fc21fe77e8310c060f61caaff8a\n" "x 2 44136fa355b3678a1146ad16f7e8649e94fb4fc21fe77e8310c060f61caaff8a"
second root | 2 | download --root=a --repository=b --store=c --provider=d --target=trusted_root.json --out=x | Accepted "downloaded\nroot 2\ntimestamp 1\nsnapshot 1\nrole targets 1\ntarget trusted_root.json 2 sha256 44136fa355b3678a1146ad16f7e8649e94fb4fc21fe77e8310c060f61caaff8a\n" "x 2 44136fa355b3678a1146ad16f7e8649e94fb4fc21fe77e8310c060f61caaff8a"
consistent names |  | download --root=a --repository=b --store=c --provider=d --target=trusted_root.json --out=x | Accepted "downloaded\nroot 1\ntimestamp 1\nsnapshot 1\nrole targets 1\ntarget trusted_root.json 2 sha256 44136fa355b3678a1146ad16f7e8649e94fb4fc21fe77e8310c060f61caaff8a\n" "x 2 44136fa355b3678a1146ad16f7e8649e94fb4fc21fe77e8310c060f61caaff8a"
delegated | d | download --root=a --repository=b --store=c --provider=d --target=trusted_root.json --out=x | Accepted "downloaded\nroot 1\ntimestamp 1\nsnapshot 1\nrole targets 1\ntarget trusted_root.json 2 sha256 44136fa355b3678a1146ad16f7e8649e94fb4fc21fe77e8310c060f61caaff8a\n" "x 2 44136fa355b3678a1146ad16f7e8649e94fb4fc21fe77e8310c060f61caaff8a"
delegated | e d | download --root=a --repository=b --store=c --provider=d --target=trusted_root.json --out=x --target=trusted_root.json --out=y | Accepted "downloaded\nroot 1\ntimestamp 1\nsnapshot 1\nrole targets 1\ntarget trusted_root.json 2 sha256 44136fa355b3678a1146ad16f7e8649e94fb4fc21fe77e8310c060f61caaff8a\ntarget trusted_root.json 2 sha256 44136fa355b3678a1146ad16f7e8649e94fb4fc21fe77e8310c060f61caaff8a\n" "x 2 44136fa355b3678a1146ad16f7e8649e94fb4fc21fe77e8310c060f61caaff8a, y 2 44136fa355b3678a1146ad16f7e8649e94fb4fc21fe77e8310c060f61caaff8a"
nothing |  | download --root=a --repository=b --store=c --provider=d --target=trusted_root.json --out=x --target=trusted_root.json --out=y | Accepted "downloaded\nroot 1\ntimestamp 1\nsnapshot 1\nrole targets 1\ntarget trusted_root.json 2 sha256 44136fa355b3678a1146ad16f7e8649e94fb4fc21fe77e8310c060f61caaff8a\ntarget trusted_root.json 2 sha256 44136fa355b3678a1146ad16f7e8649e94fb4fc21fe77e8310c060f61caaff8a\n" "x 2 44136fa355b3678a1146ad16f7e8649e94fb4fc21fe77e8310c060f61caaff8a, y 2 44136fa355b3678a1146ad16f7e8649e94fb4fc21fe77e8310c060f61caaff8a"
nothing |  | download --root=a --repository=b --store=c --provider=d --target=trusted_root.json --out=x --target=other --out=y | Refused "target trusted_root.json 2 sha256 44136fa355b3678a1146ad16f7e8649e94fb4fc21fe77e8310c060f61caaff8a\nrefused tuf 16 TargetNotFound\n" "x 2 44136fa355b3678a1146ad16f7e8649e94fb4fc21fe77e8310c060f61caaff8a"
nothing |  | download --root=a --repository=b --store=c --provider=d --target=other --out=y --target=trusted_root.json --out=x | Refused "refused tuf 16 TargetNotFound\n" ""
nothing |  | download --root=a --repository=b --store=c --provider=d --target=trusted_root.json --out=x --now=2030-01-01T00:00:01Z | Refused "refused tuf 12 Expired\n" ""
unsigned | targets | download --root=a --repository=b --store=c --provider=d --target=trusted_root.json --out=x | Refused "refused tuf 8 ThresholdNotMet\n" ""
repository fails | 5 | download --root=a --repository=b --store=c --provider=d --target=trusted_root.json --out=x | Refused "refused tuf 18 Transport\n" ""
artifact fails | 1 | download --root=a --repository=b --store=c --provider=d --target=trusted_root.json --out=x --target=trusted_root.json --out=y | Output "output file\n" ""
artifact fails | 2 | download --root=a --repository=b --store=c --provider=d --target=trusted_root.json --out=x --target=trusted_root.json --out=y | Output "target trusted_root.json 2 sha256 44136fa355b3678a1146ad16f7e8649e94fb4fc21fe77e8310c060f61caaff8a\noutput file\n" "x 2 44136fa355b3678a1146ad16f7e8649e94fb4fc21fe77e8310c060f61caaff8a"
inputs fail | 1 | download --root=a --repository=b --store=c --provider=d --target=trusted_root.json --out=x | Input "input provider\n" ""
inputs fail | 2 | download --root=a --repository=b --store=c --provider=d --target=trusted_root.json --out=x | Input "input root\n" ""
sink fails | 1 | download --root=a --repository=b --store=c --provider=d --target=trusted_root.json --out=x | Output "" "x 2 44136fa355b3678a1146ad16f7e8649e94fb4fc21fe77e8310c060f61caaff8a"
room | 3 | download --root=a --repository=b --store=c --provider=d --target=trusted_root.json --out=x | Output "dow" "x 2 44136fa355b3678a1146ad16f7e8649e94fb4fc21fe77e8310c060f61caaff8a"
nothing |  | download --root=a --repository=b --store=c --provider=d | Usage "usage\n" ""
nothing |  | download --root=a --repository=b --store=c --provider=d --target=trusted_root.json | Usage "usage\n" ""
nothing |  | download --root=a --repository=b --store=c --provider=d --out=x --target=trusted_root.json | Usage "usage\n" ""
nothing |  | download --root=a --repository=b --store=c --provider=d --target=trusted_root.json --target=trusted_root.json --out=x | Usage "usage\n" ""
nothing |  | download --root=a --repository=b --store=c --provider=d --target=trusted_root.json --now=2025-01-01T00:00:00Z --out=x | Usage "usage\n" ""
nothing |  | download --root=a --repository=b --store=c --provider=d --target=trusted_root.json --out=x --out=y | Usage "usage\n" ""
nothing |  | download --root=a --repository=b --store=c --provider=d --target=trusted_root.json --out=x --target=trusted_root.json --out=x | Usage "usage\n" ""
nothing |  | download --root=a --repository=b --store=c --provider=d --target= --out=x | Usage "usage\n" ""
nothing |  | download --root=a --repository=b --store=c --provider=d --target=trusted_root.json --out= | Usage "usage\n" ""
nothing |  | download --root=a --repository=b --provider=d --target=trusted_root.json --out=x | Usage "usage\n" """#;

#[test]
fn targets_are_put_in_place(rt: HostRuntime) {
    hold(&rt, "download", SAID);
}
