// What repositories, stores, bundles, readers, inputs and sinks can do: each call and each length, and how the program
// answers it.
use crate::fixture::{
    PARTS, SPKI, anchor, bundle, given_root, provider, repository, root, said_of, targets,
};
use crate::tables::{Change, change_in, failures, good, halves, hold, number, source, string};
use command_files::{Tables, read_provider};
use sigstore_tuf::{MemoryRepository, MemoryStore};
use sigstore_types_parts::{Bytes, DerPublicKey};
use sigstore_verify::{
    Acceptance, Asked, PublicKeyVerificationPolicy, RootFault, verify_from_root,
};
use std::process::Abort;

// A row: the part, the first and the last number that stand in its place in turn, and from which number on which answer
// comes; `as usual` is that of the unchanged fixture. Of each object the call of the number fails. The next root, the
// timestamp, the snapshot, the targets document and the trust file are fetched; five octets are read in three calls,
// and a fourth finds the end. The given root has 552 octets, the bundle has 248, and the token has 277, by a script.
const EACH: &str = r#"repository fails | 1 7 | 1 Refused "refused tuf 18 Transport\n"; 6 as usual
keyless, repository fails | 1 7 | 1 Refused "refused tuf 18 Transport\n"; 6 as usual
store fails | 1 32 | 1 as usual
keyless, store fails | 1 32 | 1 as usual
keyless, artifact fails | 1 6 | 1 Refused "refused verify 30 ArtifactRead\n"; 5 as usual
keyless, inputs fail | 1 6 | 1 Input "input policy\n"; 2 Input "input provider\n"; 3 Input "input root\n"; 4 Input "input bundle\n"; 5 as usual
keyless, sink fails | 1 3 | 1 Output ""; 2 as usual
start of root | 0 552 | 0 Refused "refused tuf 1 Json\n"; 552 as usual
start of bundle | 0 248 | 0 Refused "refused verify 22 InvalidBundle\n"; 248 as usual
keyless, start of token | 0 277 | 0 Refused "refused verify 19 TimestampInvalid\n"; 277 as usual
keyless, byte fails | 7 8 | 7 as usual"#;

// A row: an artifact, how many octets it may have, and the answer of the top call.
const BOUNDED: &str = "hello! | 5 | ArtifactRead(TooLong { max: 5 })
hello | 5 | accepted";

#[test]
fn nothing_outside_does_more_than_be_refused(rt: HostRuntime) {
    hold(&rt, "each", EACH);
    hold(&rt, "bounded", BOUNDED);
}

// The fixture as it is.
pub(crate) fn unchanged(keyless: bool) -> Change<'static> {
    Change {
        keyless,
        part: "nothing",
        text: "",
    }
}

// An answer, or that it is the usual one.
fn shown<'a>(found: &'a str, usual: &str) -> &'a str {
    if found == usual { "as usual" } else { found }
}

// Adds from which number on an answer comes, where the one before is another.
fn add<X: AllocGlobal + Abort>(rt: &X, told: &mut String, before: &str, number: &str, found: &str) {
    if found != before {
        let mark = if told.is_empty() { "" } else { "; " };
        good(rt, write!(told, "{mark}{number} {found}"));
    }
}

// The answers of the runs of a part with each number in its place.
pub(crate) fn each<X: AllocGlobal + Abort>(rt: &X, row: &str) -> String {
    let change = change_in(rt, row, PARTS);
    let (low, high) = halves(rt, change.text, " ");
    let usual = said_of(rt, unchanged(change.keyless));
    let (mut told, mut before) = (string(rt, ""), string(rt, ""));
    for number in number(rt, low)..=number(rt, high) {
        let text = good(rt, format!(in rt.alloc(); "{number}"));
        let found = said_of(rt, change.with(text.as_str()));
        let shown = string(rt, shown(found.as_str(), usual.as_str()));
        drop(found);
        add(
            rt,
            &mut told,
            before.as_str(),
            text.as_str(),
            shown.as_str(),
        );
        drop(text);
        before = shown;
    }
    drop(before);
    drop(usual);
    told
}

// The answer of the top call over the unchanged fixture, for an artifact of at most so many octets.
pub(crate) fn bounded<X: AllocGlobal + Abort>(rt: &X, row: &str) -> String {
    let (artifact, max) = halves(rt, row, " | ");
    let change = unchanged(false);
    let (root, targets) = (root(rt, change, "1"), targets(rt, change));
    let mut repo = repository(rt, change, targets.as_str());
    let rows = provider(rt, change, root.as_str(), targets.as_str());
    let tables = good(rt, read_provider(rt.alloc(), rows.as_bytes()));
    let document = given_root(rt, change, root.as_str());
    let judged = judged(rt, &tables, &document, &mut repo, artifact, number(rt, max));
    drop(document);
    drop(tables);
    drop(rows);
    drop(repo);
    drop(root);
    drop(targets);
    answered(rt, judged)
}

fn judged<X: AllocGlobal + Abort>(
    rt: &X,
    tables: &Tables,
    root: &Bytes,
    repo: &mut MemoryRepository,
    artifact: &str,
    max: u64,
) -> Result<Acceptance, RootFault> {
    let mut store = MemoryStore::new(rt.alloc());
    let mut artifact = source(rt, artifact, 2, "");
    let bundle = bundle(rt, unchanged(false));
    let key = good(rt, DerPublicKey::from_base64(rt.alloc(), SPKI));
    let policy = PublicKeyVerificationPolicy::new(key).skip_tlog_unsafe();
    let asked = Asked {
        bundle: bundle.as_bytes(),
        max_artifact: max,
        policy: &policy,
    };
    let anchor = anchor(rt, tables, root);
    let judged = verify_from_root(rt.alloc(), &anchor, repo, &mut store, &mut artifact, &asked);
    drop(policy);
    drop(bundle);
    drop(artifact);
    drop(store);
    judged
}

// What a call of the top gave.
fn answered<X: AllocGlobal + Abort>(rt: &X, judged: Result<Acceptance, RootFault>) -> String {
    match judged {
        Ok(rooted) => {
            drop(rooted);
            string(rt, "accepted")
        }
        Err(RootFault::Verify { fault, chain }) => {
            drop(chain);
            good(rt, format!(in rt.alloc(); "{fault:?}"))
        }
        Err(_) => string(rt, "another refusal"),
    }
}
