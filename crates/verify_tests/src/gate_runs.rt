// Runs of `gate` over the fixture's chain: what is written, and with which status.
use crate::fixture::{PARTS, inputs, repository, root, store, targets};
use crate::gates::folder;
use crate::tables::{Change, change_in, failures, good, hold, text_of, there, words};
use command_files::{CommandLine, MemorySink, Status};
use command_gate::run_gate;
use jiff::Timestamp;
use std::process::Abort;

// How a run with these words ends, over the changed fixture and a folder with these files.
fn ended<X: AllocGlobal + Abort>(
    rt: &X,
    change: Change,
    files: &str,
    line: &str,
    sink: &mut MemorySink,
) -> Status {
    let (root, targets) = (root(rt, change, "1"), targets(rt, change));
    let mut inputs = inputs(rt, change, root.as_str(), targets.as_str());
    let mut repo = repository(rt, change, targets.as_str());
    let mut store = store(rt, change);
    let mut folder = folder(rt, change, files);
    let words = words(rt, line);
    let line = CommandLine {
        words: &words,
        clock: Timestamp::UNIX_EPOCH,
    };
    let status = run_gate(
        rt.alloc(),
        &line,
        &mut inputs,
        &mut repo,
        &mut store,
        &mut folder,
        sink,
    );
    drop(words);
    drop(folder);
    drop(store);
    drop(repo);
    drop(inputs);
    drop(root);
    drop(targets);
    status
}

// The words of a row: `W` stands for the usual ones up to the moment.
fn line<'a>(words: &'a str) -> &'a str {
    if words == "W" { USUAL } else { words }
}

const USUAL: &str =
    "gate --root=a --repository=b --store=c --folder=d --policy=e --provider=f --now=2025-01-01T00:00:00Z";

// How a run ends, and what it wrote.
pub(crate) fn said<X: AllocGlobal + Abort>(rt: &X, row: &str) -> String {
    let (row, words) = there(rt, row.rsplit_once(" | "));
    let (row, files) = there(rt, row.rsplit_once(" | "));
    let change = change_in(rt, row, PARTS);
    let room = good(rt, change.of("room", "1024").parse::<u32>());
    let failures = failures(rt, change.of("sink fails", ""));
    let mut sink = good(rt, MemorySink::new(rt.alloc(), room, failures));
    let status = ended(rt, change, files, line(words), &mut sink);
    let taken = text_of(rt, sink.bytes());
    drop(sink);
    let said = format!(in rt.alloc(); "{status:?} {taken:?}");
    drop(taken);
    good(rt, said)
}

// A row: the part, the text in its place, the folder's files as in the rows of the library, the words, and the status with
// what is written.
const RUNS: &str =
    r#"nothing |  | hello.txt=hello hello.txt.sigstore.json=@ other.txt=x | W | Refused "admit hello.txt\ndeny other.txt unsigned\n"
nothing |  | hello.txt=hello hello.txt.sigstore.json=@ | W | Accepted "admit hello.txt\n"
nothing |  |  | W | Accepted ""
nothing |  | b.txt=jello b.txt.sigstore.json=@ | W | Refused "deny b.txt 4 ArtifactMismatch\n"
nothing |  | a=hello a.sigstore.json={ | W | Refused "deny a 22 InvalidBundle\n"
nothing |  | a=hello a.sigstore.json=# | W | Refused "deny a toolong\n"
nothing |  | a\b=x é=x | W | Refused "deny a\\x5cb unsigned\ndeny \\xc3\\xa9 unsigned\n"
nothing |  | a=hello a.sigstore.json=@ | gate --folder=d --policy=e --provider=f --root=a --repository=b --store=c | Accepted "admit a\n"
nothing |  | a=x | gate --root=a --repository=b --store=c --folder=d --policy=e --provider=f --now=2030-01-01T00:00:01Z | Refused "refused tuf 12 Expired\n"
trust | { | a=x | W | Refused "refused verify 28 TrustRoot\n"
repository fails | 1 | a=x | W | Refused "refused tuf 18 Transport\n"
inputs fail | 1 | a=x | W | Input "input policy\n"
inputs fail | 2 | a=x | W | Input "input provider\n"
inputs fail | 3 | a=x | W | Input "input root\n"
inputs fail | 4 | a=x | W | Refused "deny a unsigned\n"
policy | skip chain | a=x | W | Usage "usage policy\n"
artifact fails | 1 | a=x | W | Input "input folder\n"
artifact fails | 3 | a=hello a.sigstore.json=@ | W | Input "input folder\n"
sink fails | 1 | a=x | W | Output ""
room | 4 | a=x | W | Output "deny"
nothing |  | a=x | gate --root=a --repository=b --store=c --policy=e --provider=f | Usage "usage\n"
nothing |  | a=x | gate --root=a --repository=b --store=c --folder=d --policy=e --provider=f --bundle=g | Usage "usage\n"
nothing |  | a=x | verify --root=a --repository=b --store=c --folder=d --policy=e --provider=f | Usage "usage\n""#;

#[test]
fn folders_are_gated(rt: HostRuntime) {
    hold(&rt, "gate run", RUNS);
}
