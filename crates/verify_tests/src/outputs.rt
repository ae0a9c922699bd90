// What is said of verifications that are asked for more than the report, and what is put in the statement's file.
use crate::downloads::placed;
use crate::fixture::{
    MESSAGE, RAW_KEY, bundle, inputs, provider, repository, root, store, targets,
};
use crate::tables::{Change, change_in, failures, good, hold, source, text_of, there, words};
use command_download::MemoryShelf;
use command_files::{CommandLine, InputFile, MemoryInputs, MemorySink, Status};
use command_outputs::run_outputs;
use jiff::Timestamp;
use sigstore_types_parts::Bytes;
use std::process::Abort;

// The parts of the fixture that a change names; its bundle has an envelope.
const PARTS: &str = "nothing
content
unsigned
artifact fails
archive fails
inputs fail
shelf fails
sink fails
room";

// An envelope with a statement on `hello`, whose JSON has a blank and a line feed that no writer would put there, and SHA-256
// of its pre-authentication encoding; by Python's base64 and hashlib.
pub(crate) const ENVELOPE: &str =
    r#""dsseEnvelope":{"payload":"eyAiX3R5cGUiOiJodHRwczovL2luLXRvdG8uaW8vU3RhdGVtZW50L3YxIiwic3ViamVjdCI6W3sibmFtZSI6ImhlbGxvIiwiZGlnZXN0Ijp7InNoYTI1NiI6IjJjZjI0ZGJhNWZiMGEzMGUyNmU4M2IyYWM1YjllMjllMWIxNjFlNWMxZmE3NDI1ZTczMDQzMzYyOTM4Yjk4MjQifX1dLCJwcmVkaWNhdGVUeXBlIjoiaHR0cHM6Ly9leGFtcGxlLm9yZy9wIiwicHJlZGljYXRlIjp7fX0K","payloadType":"application/vnd.in-toto+json","signatures":[{"sig":"AQ=="}]}"#;

const ENCODING: &str = "fMiOJ0UbvVeZR0N4Gqv60JNSLWGe8/RbZkOqHPq1H4k=";

// The bundle of a change.
fn enveloped<X: AllocGlobal + Abort>(rt: &X, change: Change) -> Bytes {
    let content = match change.of("content", ENVELOPE) {
        "message" => MESSAGE,
        content => content,
    };
    let change = Change {
        keyless: false,
        part: "content",
        text: content,
    };
    bundle(rt, change)
}

// The rows of the fixture, and that of the envelope.
pub(crate) fn rows<X: AllocGlobal + Abort>(
    rt: &X,
    change: Change,
    root: &str,
    targets: &str,
) -> Bytes {
    let fixture = provider(rt, change, root, targets);
    let mut rows = text_of(rt, fixture.as_bytes());
    drop(fixture);
    good(
        rt,
        write!(rows, "accept ECDSA_P256_SHA256 {RAW_KEY} {ENCODING} AQ==\n"),
    );
    Bytes::from_vec(rows.into_bytes())
}

fn given<X: AllocGlobal + Abort>(
    rt: &X,
    change: Change,
    root: &str,
    targets: &str,
) -> MemoryInputs {
    let mut inputs = inputs(rt, change, root, targets);
    inputs.put(InputFile::Provider, rows(rt, change, root, targets));
    inputs.put(InputFile::Bundle, enveloped(rt, change));
    inputs
}

// How a run with these words ends, over the changed fixture.
fn ended<X: AllocGlobal + Abort>(
    rt: &X,
    change: Change,
    line: &str,
    shelf: &mut MemoryShelf,
    sink: &mut MemorySink,
) -> Status {
    let (root, targets) = (root(rt, change, "1"), targets(rt, change));
    let mut inputs = given(rt, change, root.as_str(), targets.as_str());
    let mut repo = repository(rt, change, targets.as_str());
    let mut store = store(rt, change);
    let mut archive = source(rt, "SIGCHAIN2", 2, change.of("archive fails", ""));
    let mut artifact = source(rt, "hello", 2, change.of("artifact fails", ""));
    let words = words(rt, line);
    let line = CommandLine {
        words: &words,
        clock: Timestamp::UNIX_EPOCH,
    };
    let status = run_outputs(
        rt.alloc(),
        &line,
        &mut inputs,
        &mut repo,
        &mut store,
        &mut archive,
        &mut artifact,
        shelf,
        sink,
    );
    drop(words);
    drop(artifact);
    drop(archive);
    drop(store);
    drop(repo);
    drop(inputs);
    drop(root);
    drop(targets);
    status
}

// How `verify` ends over the changed fixture, what it says, and what is in place then.
pub(crate) fn said<X: AllocGlobal + Abort>(rt: &X, row: &str) -> String {
    let (row, line) = there(rt, row.rsplit_once(" | "));
    let change = change_in(rt, row, PARTS);
    let room = good(rt, change.of("room", "1024").parse::<u32>());
    let fails = failures(rt, change.of("sink fails", ""));
    let mut sink = good(rt, MemorySink::new(rt.alloc(), room, fails));
    let fails = failures(rt, change.of("shelf fails", ""));
    let mut shelf = MemoryShelf::new(rt.alloc(), fails);
    let status = ended(rt, change, line, &mut shelf, &mut sink);
    let taken = text_of(rt, sink.bytes());
    let files = placed(rt, &shelf);
    drop(shelf);
    drop(sink);
    let said = format!(in rt.alloc(); "{status:?} {taken:?} {files:?}");
    drop(taken);
    drop(files);
    good(rt, said)
}

// A row: the part, the text in its place, the words, and the status with what is written, and the path of what is in place with
// its length and its SHA-256 value.
const SAID: &str =
    r#"nothing |  | verify --root=a --repository=b --store=c --bundle=d --artifact=e --policy=f --provider=g --now=2025-01-01T00:00:00Z --statement=s | Accepted "accepted\nroot 1\ntimestamp 1\nsnapshot 1\nrole targets 1\ntarget 2\nartifact sha256 2cf24dba5fb0a30e26e83b2ac5b9e29e1b161e5c1fa7425e73043362938b9824\nidentity none\nissuer none\ncertificate no\nsct no\ntlog no\npolicy no\nintegrated none\ntimes 0\n" "s 216 343e1b0430dc01bb90c105242a2aeb1deccbfd53743995f7f903e39252ca6995"
nothing |  | --statement=s verify --root=a --repository=b --store=c --bundle=d --digest=sha256:2cf24dba5fb0a30e26e83b2ac5b9e29e1b161e5c1fa7425e73043362938b9824 --policy=f --provider=g --now=2025-01-01T00:00:00Z | Accepted "accepted\nroot 1\ntimestamp 1\nsnapshot 1\nrole targets 1\ntarget 2\nartifact sha256 2cf24dba5fb0a30e26e83b2ac5b9e29e1b161e5c1fa7425e73043362938b9824\nidentity none\nissuer none\ncertificate no\nsct no\ntlog no\npolicy no\nintegrated none\ntimes 0\nread no\n" "s 216 343e1b0430dc01bb90c105242a2aeb1deccbfd53743995f7f903e39252ca6995"
nothing |  | verify --trusted-root=a --statement=a/b --bundle=d --artifact=e --policy=f --provider=g --now=2025-01-01T00:00:00Z | Accepted "accepted\nroot none\nartifact sha256 2cf24dba5fb0a30e26e83b2ac5b9e29e1b161e5c1fa7425e73043362938b9824\nidentity none\nissuer none\ncertificate no\nsct no\ntlog no\npolicy no\nintegrated none\ntimes 0\n" "a/b 216 343e1b0430dc01bb90c105242a2aeb1deccbfd53743995f7f903e39252ca6995"
# A message signature has no statement; what is refused leaves none.
content | message | verify --root=a --repository=b --store=c --bundle=d --artifact=e --policy=f --provider=g --now=2025-01-01T00:00:00Z --statement=s | Refused "refused statement 1 NoEnvelope\n" ""
content | "dsseEnvelope":{"payload":"eyAiX3R5cGUiOiJodHRwczovL2luLXRvdG8uaW8vU3RhdGVtZW50L3YxIiwic3ViamVjdCI6W3sibmFtZSI6ImhlbGxvIiwiZGlnZXN0Ijp7InNoYTI1NiI6IjJjZjI0ZGJhNWZiMGEzMGUyNmU4M2IyYWM1YjllMjllMWIxNjFlNWMxZmE3NDI1ZTczMDQzMzYyOTM4Yjk4MjQifX1dLCJwcmVkaWNhdGVUeXBlIjoiaHR0cHM6Ly9leGFtcGxlLm9yZy9wIiwicHJlZGljYXRlIjp7fX0K","payloadType":"application/vnd.in-toto+json","signatures":[{"sig":"Ag=="}]} | verify --root=a --repository=b --store=c --bundle=d --artifact=e --policy=f --provider=g --now=2025-01-01T00:00:00Z --statement=s | Refused "refused verify 3 SignatureInvalid\n" ""
content | "neither":{} | verify --root=a --repository=b --store=c --bundle=d --artifact=e --policy=f --provider=g --now=2025-01-01T00:00:00Z --statement=s | Refused "refused verify 22 InvalidBundle\n" ""
nothing |  | verify --root=a --repository=b --store=c --bundle=d --digest=sha256:0000000000000000000000000000000000000000000000000000000000000000 --policy=f --provider=g --now=2025-01-01T00:00:00Z --statement=s | Refused "refused verify 4 ArtifactMismatch\n" ""
unsigned | targets | verify --root=a --repository=b --store=c --bundle=d --artifact=e --policy=f --provider=g --now=2025-01-01T00:00:00Z --statement=s | Refused "refused tuf 8 ThresholdNotMet\n" ""
nothing |  | verify --root=a --archive=b --bundle=d --artifact=e --policy=f --provider=g --now=2025-01-01T00:00:00Z --statement=s | Refused "refused archive 1 Format\n" ""
artifact fails | 1 | verify --root=a --repository=b --store=c --bundle=d --artifact=e --policy=f --provider=g --now=2025-01-01T00:00:00Z --statement=s | Refused "refused verify 30 ArtifactRead\n" ""
archive fails | 1 | verify --root=a --archive=b --bundle=d --artifact=e --policy=f --provider=g --now=2025-01-01T00:00:00Z --statement=s | Input "input archive\n" ""
inputs fail | 1 | verify --root=a --repository=b --store=c --bundle=d --artifact=e --policy=f --provider=g --now=2025-01-01T00:00:00Z --statement=s | Input "input policy\n" ""
# The statement can't be put in its place; or it is there, and the report can't be written.
shelf fails | 1 | verify --root=a --repository=b --store=c --bundle=d --artifact=e --policy=f --provider=g --now=2025-01-01T00:00:00Z --statement=s | Output "output statement\n" ""
sink fails | 1 | verify --root=a --repository=b --store=c --bundle=d --artifact=e --policy=f --provider=g --now=2025-01-01T00:00:00Z --statement=s | Output "" "s 216 343e1b0430dc01bb90c105242a2aeb1deccbfd53743995f7f903e39252ca6995"
room | 3 | verify --root=a --repository=b --store=c --bundle=d --artifact=e --policy=f --provider=g --now=2025-01-01T00:00:00Z --statement=s | Output "acc" "s 216 343e1b0430dc01bb90c105242a2aeb1deccbfd53743995f7f903e39252ca6995"
# Lines on the bundle stand behind the report, before the statement is put in its place; a refusal has none.
nothing |  | verify --root=a --repository=b --store=c --bundle=d --artifact=e --policy=f --provider=g --now=2025-01-01T00:00:00Z --details | Accepted "accepted\nroot 1\ntimestamp 1\nsnapshot 1\nrole targets 1\ntarget 2\nartifact sha256 2cf24dba5fb0a30e26e83b2ac5b9e29e1b161e5c1fa7425e73043362938b9824\nidentity none\nissuer none\ncertificate no\nsct no\ntlog no\npolicy no\nintegrated none\ntimes 0\npredicate https://example.org/p\nsubject hello\n" ""
nothing |  | --details verify --root=a --repository=b --store=c --bundle=d --artifact=e --policy=f --provider=g --now=2025-01-01T00:00:00Z --statement=s --details | Accepted "accepted\nroot 1\ntimestamp 1\nsnapshot 1\nrole targets 1\ntarget 2\nartifact sha256 2cf24dba5fb0a30e26e83b2ac5b9e29e1b161e5c1fa7425e73043362938b9824\nidentity none\nissuer none\ncertificate no\nsct no\ntlog no\npolicy no\nintegrated none\ntimes 0\npredicate https://example.org/p\nsubject hello\n" "s 216 343e1b0430dc01bb90c105242a2aeb1deccbfd53743995f7f903e39252ca6995"
nothing |  | verify --details --root=a --repository=b --store=c --bundle=d --digest=sha256:2cf24dba5fb0a30e26e83b2ac5b9e29e1b161e5c1fa7425e73043362938b9824 --policy=f --provider=g --now=2025-01-01T00:00:00Z | Accepted "accepted\nroot 1\ntimestamp 1\nsnapshot 1\nrole targets 1\ntarget 2\nartifact sha256 2cf24dba5fb0a30e26e83b2ac5b9e29e1b161e5c1fa7425e73043362938b9824\nidentity none\nissuer none\ncertificate no\nsct no\ntlog no\npolicy no\nintegrated none\ntimes 0\nread no\npredicate https://example.org/p\nsubject hello\n" ""
content | message | verify --root=a --repository=b --store=c --bundle=d --artifact=e --policy=f --provider=g --now=2025-01-01T00:00:00Z --details | Accepted "accepted\nroot 1\ntimestamp 1\nsnapshot 1\nrole targets 1\ntarget 2\nartifact sha256 2cf24dba5fb0a30e26e83b2ac5b9e29e1b161e5c1fa7425e73043362938b9824\nidentity none\nissuer none\ncertificate no\nsct no\ntlog no\npolicy no\nintegrated none\ntimes 0\n" ""
unsigned | targets | verify --root=a --repository=b --store=c --bundle=d --artifact=e --policy=f --provider=g --now=2025-01-01T00:00:00Z --details | Refused "refused tuf 8 ThresholdNotMet\n" ""
# Without these words, with an empty path, with two, and with others that are faulty.
nothing |  | verify --root=a --repository=b --store=c --bundle=d --artifact=e --policy=f --provider=g --now=2025-01-01T00:00:00Z | Accepted "accepted\nroot 1\ntimestamp 1\nsnapshot 1\nrole targets 1\ntarget 2\nartifact sha256 2cf24dba5fb0a30e26e83b2ac5b9e29e1b161e5c1fa7425e73043362938b9824\nidentity none\nissuer none\ncertificate no\nsct no\ntlog no\npolicy no\nintegrated none\ntimes 0\n" ""
nothing |  | verify --root=a --repository=b --store=c --bundle=d --artifact=e --policy=f --provider=g --now=2025-01-01T00:00:00Z --details= | Usage "usage\n" ""
nothing |  | verify --root=a --repository=b --store=c --bundle=d --artifact=e --policy=f --provider=g --now=2025-01-01T00:00:00Z --details=yes | Usage "usage\n" ""
nothing |  | verify --root=a --repository=b --store=c --bundle=d --artifact=e --policy=f --provider=g --now=2025-01-01T00:00:00Z --statement= | Usage "usage\n" ""
nothing |  | verify --root=a --repository=b --store=c --bundle=d --artifact=e --policy=f --provider=g --now=2025-01-01T00:00:00Z --statement=s --statement=s | Usage "usage\n" ""
nothing |  | verify --root=a --repository=b --store=c --bundle=d --artifact=e --policy=f --provider=g --now=2025-01-01T00:00:00Z --statement=s --statement=t | Usage "usage\n" ""
nothing |  | verify --root=a --repository=b --store=c --bundle=d --artifact=e --policy=f --provider=g --now=2025-01-01T00:00:00Z --statement=s --digest=sha256:2cf24dba5fb0a30e26e83b2ac5b9e29e1b161e5c1fa7425e73043362938b9824 | Usage "usage\n" ""
nothing |  | verify --root=a --repository=b --store=c --bundle=d --artifact=e --policy=f --provider=g --now=2025-01-01T00:00:00Z --statement | Usage "usage\n" """#;

#[test]
fn outputs_follow_an_acceptance(rt: HostRuntime) {
    hold(&rt, "outputs", SAID);
}
