// Folders of artifacts and bundles under the fixture's chain: the lines on them, and why one isn't judged.
ghost use Rattle.std.specs.Prelude.{◌≡◌, IfErr};
ghost use Rattle.foundation.specs.Watched.{untold, Since};
ghost use Rattle.release_gate.specs.Folder.{ListingCause, Answers};

use crate::fixture::{
    PARTS, SPKI, anchor, bundle, given_root, provider, repository, root, targets,
};
use crate::tables::{
    Change, change_in, check, failures, good, halves, hold, number, string, text, text_of, there,
};
use command_files::{Tables, read_provider};
use release_gate::{
    FileFolder, Folder, FolderFault, GateFault, GateLine, Gated, MemoryFolder, Verdict,
    gate_from_root,
};
use sigstore_tuf::{MemoryRepository, MemoryStore};
use sigstore_types_parts::{Bytes, DerPublicKey, Text};
use sigstore_verify::{PublicKeyVerificationPolicy, SigningPolicy, VerificationPolicy};
use std::alloc::Global;
use std::fs;
use std::process::Abort;

// A row: the part, the text in its place, the folder's files, and what is said. The text of `rules` has a word for each:
// `key` is the fixture's key, `log` the same where the log has to show the signature, and `keyless` any owner of a
// certificate; else there is the first alone. A file is `NAME=TEXT`, where `@` is the fixture's bundle and `#` are 16 MiB
// and one octet; an artifact may have five octets. Of the folder the call of the number fails: the listing, the reading of
// the bundle, that of the artifact, and the one that finds its end.
const GATED: &str =
    r#"nothing |  | hello.txt=hello hello.txt.sigstore.json=@ other.txt=x | hello.txt Admitted; other.txt Unsigned
nothing |  |  | none
nothing |  | b.txt=jello b.txt.sigstore.json=@ | b.txt Denied 4
nothing |  | a=hello b=hello b.sigstore.json=@ | a Unsigned; b Admitted
nothing |  | b=hello B=x a.sigstore.json=@ a=hello -=x | - Unsigned; B Unsigned; a Admitted; b Unsigned
nothing |  | a=hello a.sigstore.json={ | a Denied 22
nothing |  | a=hello! a.sigstore.json=@ | a Denied 30
nothing |  | a=hello a.sigstore.json=# b=hello b.sigstore.json=@ | a BundleTooLong 16777217; b Admitted
nothing |  | a.sigstore.json=@ a.sigstore.json.sigstore.json=@ | none
skip |  | a=hello a.sigstore.json=@ | a Admitted
material | "x509CertificateChain":{"certificates":[]} | a=hello a.sigstore.json=@ | a Denied 22
content | "messageSignature":{"signature":"AQ=="} | a=hello b=jello a.sigstore.json=@ b.sigstore.json=@ | a Admitted; b Denied 3
rules | keyless key | a=hello b=jello c=hello! a.sigstore.json=@ b.sigstore.json=@ c.sigstore.json=@ | a Admitted; b Denied 22 4; c Denied 22 30
rules | key keyless | a=hello b=jello c=x d=x a.sigstore.json=@ b.sigstore.json=@ c.sigstore.json={ | a Admitted; b Denied 4 22; c Denied 22; d Unsigned
rules | log keyless | a=hello! a.sigstore.json=@ | a Denied 27 22
repository fails | 1 | a=hello a.sigstore.json=@ | Tuf 18
trust | { | a=hello a.sigstore.json=@ | Trust 28
artifact fails | 1 | a=hello a.sigstore.json=@ | FolderFailed
artifact fails | 2 | a=hello a.sigstore.json=@ | FolderFailed
artifact fails | 3 | a=hello a.sigstore.json=@ | FolderFailed
artifact fails | 4 | a=hello a.sigstore.json=@ | FolderFailed
artifact fails | 5 | a=hello a.sigstore.json=@ | a Admitted"#;

// A row: the name that is listed once more, the folder's files, and what is said.
const LISTED: &str = "a | a=hello b=x | DoubledName a
b.sigstore.json | b=x b.sigstore.json=@ c=x | DoubledName b.sigstore.json
b.sigstore.json | a=x b=hello | Vanished b.sigstore.json
c.sigstore.json | a=x b=hello | a Unsigned; b Unsigned";

#[test]
fn folders_are_judged(rt: HostRuntime) {
    hold(&rt, "gate", GATED);
    hold(&rt, "listed", LISTED);
}

// What a call of a folder of files gives: the names in order; a file of at most so many bytes; so many bytes from an
// offset on.
const IN_A_FOLDER: &str = "names  => -x a a.sigstore.json
bundle 5 a => hello
bundle 4 a => TooLong { seen: 5 }
bundle 5 b => none
bundle 5 ../folder/a => none
bundle 5 . => none
piece 0 5 a => hello
piece 0 2 a => he
piece 2 9 a => llo
piece 5 9 a => 
piece 9 9 a => 
piece 0 9 -x => y
piece 1 2 a => el
piece 0 9 b => Failed
piece 0 9 ../folder/a => Failed";

// The names once a folder lies in it, and once it is gone.
const WITH_A_FOLDER: &str = "names  => Failed";

const WITHOUT: &str = "names  => -x a a.sigstore.json";

#[test]
fn a_folder_of_files(rt: HostRuntime) {
    good(&rt, fs::create_dir_all(&rt, "folder"));
    good(&rt, fs::write(&rt, "folder/a", "hello"));
    good(&rt, fs::write(&rt, "folder/-x", "y"));
    good(&rt, fs::write(&rt, "folder/a.sigstore.json", "{}"));
    let mut folder = FileFolder::new(&rt, text(&rt, "folder"));
    call_all(&rt, &mut folder, IN_A_FOLDER);
    good(&rt, fs::create_dir_all(&rt, "folder/sub"));
    call_all(&rt, &mut folder, WITH_A_FOLDER);
    good(&rt, fs::remove_dir(&rt, "folder/sub"));
    call_all(&rt, &mut folder, WITHOUT);
    drop(folder);
}

fn call_all<X: AllocGlobal + Abort, D: Folder>(rt: &X, folder: &mut D, rows: &str) {
    for row in rows.lines() {
        let (asked, wanted) = halves(rt, row, " => ");
        check(rt, row, wanted, called(rt, folder, asked));
    }
}

fn called<X: AllocGlobal + Abort, D: Folder>(rt: &X, folder: &mut D, asked: &str) -> String {
    let (call, asked) = halves(rt, asked, " ");
    match call {
        "names" => names_told(rt, folder.names(rt.alloc())),
        "bundle" => {
            let (max, name) = halves(rt, asked, " ");
            file_told(rt, folder.read_bundle(rt.alloc(), name, number(rt, max)))
        }
        _ => piece_told(rt, folder, asked),
    }
}

fn names_told<X: AllocGlobal + Abort>(rt: &X, names: Result<Vec<Text>, FolderFault>) -> String {
    match names {
        Ok(names) => {
            let mut names = names;
            names.sort_unstable();
            let mut told = string(rt, "");
            for name in &names {
                let mark = if told.is_empty() { "" } else { " " };
                good(rt, write!(told, "{mark}{name}"));
            }
            drop(names);
            told
        }
        Err(fault) => good(rt, format!(in rt.alloc(); "{fault:?}")),
    }
}

fn file_told<X: AllocGlobal + Abort>(rt: &X, file: Result<Option<Bytes>, FolderFault>) -> String {
    match file {
        Ok(Some(bytes)) => {
            let told = text_of(rt, bytes.as_bytes());
            drop(bytes);
            told
        }
        Ok(None) => string(rt, "none"),
        Err(fault) => good(rt, format!(in rt.alloc(); "{fault:?}")),
    }
}

fn piece_told<X: AllocGlobal + Abort, D: Folder>(rt: &X, folder: &mut D, asked: &str) -> String {
    let (offset, asked) = halves(rt, asked, " ");
    let (room, name) = halves(rt, asked, " ");
    let mut piece = good(
        rt,
        vec![in rt.alloc(); 0u8; good(rt, room.parse::<usize>())],
    );
    let told = match folder.read_at(name, number(rt, offset), &mut piece) {
        Ok(count) => text_of(rt, piece.split_at(count).0),
        Err(fault) => good(rt, format!(in rt.alloc(); "{fault:?}")),
    };
    drop(piece);
    told
}

// A folder in memory that lists one name more; it tells nothing.
#[derive(Drop)]
struct Listing {
    folder: MemoryFolder,
    more: Text,
}

fn names_and<D: Folder>(alloc: Global, folder: &mut D, more: &str) -> Result<Vec<Text>, FolderFault>
    ensures since { Since (D.seen folder.old) (D.seen folder.new) }
    ensures refused { IfErr result (ListingCause (D.seen folder.old) (D.seen folder.new)) }
{
    let mut names = folder.names(alloc)?;
    let Ok(name) = Text::new(alloc, more) else {
        return Err(FolderFault::NoMemory);
    };
    match names.push(name) {
        Ok(()) => Ok(names),
        Err(_) => Err(FolderFault::NoMemory),
    }
}

impl Folder for Listing {
    ghost seen = { λ d. untold d.folder.calls.faults };

    ghost gave = { λ d call e. Answers (untold d.folder.calls.faults) call (untold e.folder.calls.faults) };

    fn names(&mut self, alloc: Global) -> Result<Vec<Text>, FolderFault> {
        match names_and(alloc, &mut self.folder, self.more.as_str()) {
            Ok(names) => Ok(names),
            Err(FolderFault::NoMemory) => Err(FolderFault::NoMemory),
            Err(FolderFault::Failed) => Err(FolderFault::Failed),
            Err(FolderFault::TooLong { .. }) => Err(FolderFault::Failed),
        }
    }

    fn read_bundle(
        &mut self,
        alloc: Global,
        name: &str,
        max: u64,
    ) -> Result<Option<Bytes>, FolderFault> {
        self.folder.read_bundle(alloc, name, max)
    }

    fn read_at(&mut self, name: &str, offset: u64, buf: &mut [u8]) -> Result<usize, FolderFault> {
        self.folder.read_at(name, offset, buf)
    }

    ghost lists = { λ _. tt };

    ghost answers = { λ _ _ _ given. given };
}

// One octet more than a bundle may have, where one of these files asks for them.
fn long<X: AllocGlobal + Abort>(rt: &X, files: &str) -> Vec<u8> {
    let count = if files.contains('#') { 16_777_217 } else { 0 };
    good(rt, vec![in rt.alloc(); 0u8; count])
}

// The folder with these files.
pub(crate) fn folder<X: AllocGlobal + Abort>(rt: &X, change: Change, files: &str) -> MemoryFolder {
    let mut folder = MemoryFolder::new(rt.alloc(), failures(rt, change.of("artifact fails", "")));
    let (made, long) = (bundle(rt, change), long(rt, files));
    for file in files.split_whitespace() {
        let (name, content) = halves(rt, file, "=");
        let bytes = match content {
            "@" => made.as_bytes(),
            "#" => long.as_slice(),
            _ => content.as_bytes(),
        };
        good(rt, folder.put(rt.alloc(), name, bytes));
    }
    drop(made);
    drop(long);
    folder
}

// The rule of a word.
fn rule<X: AllocGlobal + Abort>(rt: &X, word: &str) -> SigningPolicy {
    let key = good(rt, DerPublicKey::from_base64(rt.alloc(), SPKI));
    match word {
        "log" => SigningPolicy::PublicKey(PublicKeyVerificationPolicy::new(key)),
        "keyless" => {
            drop(key);
            let policy = VerificationPolicy::any_identity(rt.alloc());
            SigningPolicy::Certificate(policy.skip_tlog_unsafe())
        }
        _ => SigningPolicy::PublicKey(PublicKeyVerificationPolicy::new(key).skip_tlog_unsafe()),
    }
}

fn rules<X: AllocGlobal + Abort>(rt: &X, change: Change) -> Vec<SigningPolicy> {
    let mut rules = Vec::new(rt.alloc());
    for word in change.of("rules", "key").split_whitespace() {
        there(rt, rules.push(rule(rt, word)).ok());
    }
    rules
}

// What the gate says of a folder, over the changed fixture.
fn judged<X: AllocGlobal + Abort, D: Folder>(
    rt: &X,
    tables: &Tables,
    root: &Bytes,
    repo: &mut MemoryRepository,
    folder: &mut D,
    rules: &[SigningPolicy],
) -> Result<Gated, GateFault> {
    let mut store = MemoryStore::new(rt.alloc());
    let anchor = anchor(rt, tables, root);
    let judged = gate_from_root(rt.alloc(), &anchor, repo, &mut store, folder, 5, rules);
    drop(store);
    judged
}

fn said_of<X: AllocGlobal + Abort, D: Folder>(rt: &X, change: Change, folder: &mut D) -> String {
    let (root, targets) = (root(rt, change, "1"), targets(rt, change));
    let mut repo = repository(rt, change, targets.as_str());
    let rows = provider(rt, change, root.as_str(), targets.as_str());
    let tables = good(rt, read_provider(rt.alloc(), rows.as_bytes()));
    let document = given_root(rt, change, root.as_str());
    let rules = rules(rt, change);
    let judged = judged(rt, &tables, &document, &mut repo, folder, &rules);
    drop(rules);
    drop(document);
    drop(tables);
    drop(rows);
    drop(repo);
    drop(root);
    drop(targets);
    told(rt, judged)
}

pub(crate) fn said<X: AllocGlobal + Abort>(rt: &X, row: &str) -> String {
    let (row, files) = there(rt, row.rsplit_once(" | "));
    let change = change_in(rt, row, PARTS);
    let mut folder = folder(rt, change, files);
    let said = said_of(rt, change, &mut folder);
    drop(folder);
    said
}

// The same of a folder that lists one name more.
pub(crate) fn listed<X: AllocGlobal + Abort>(rt: &X, row: &str) -> String {
    let (more, files) = halves(rt, row, " | ");
    let change = Change {
        keyless: false,
        part: "nothing",
        text: "",
    };
    let mut listing = Listing {
        folder: folder(rt, change, files),
        more: text(rt, more),
    };
    let said = said_of(rt, change, &mut listing);
    drop(listing);
    said
}

// A verdict by its name, with the numbers that it keeps.
fn verdict_told<X: AllocGlobal + Abort>(rt: &X, verdict: &Verdict) -> String {
    let mut told = good(rt, format!(in rt.alloc(); "{verdict}"));
    match verdict {
        Verdict::Denied { numbers } => {
            for number in numbers.as_slice() {
                good(rt, write!(told, " {number}"));
            }
        }
        Verdict::BundleTooLong { seen } => good(rt, write!(told, " {seen}")),
        _ => {}
    }
    told
}

// Lines, with a mark between them.
fn lines_told<X: AllocGlobal + Abort>(rt: &X, lines: &[GateLine]) -> String {
    if lines.is_empty() {
        return string(rt, "none");
    }
    let mut told = string(rt, "");
    for line in lines {
        let mark = if told.is_empty() { "" } else { "; " };
        let verdict = verdict_told(rt, &line.verdict);
        good(rt, write!(told, "{mark}{} {verdict}", line.name));
        drop(verdict);
    }
    told
}

// A fault by its name, with what it keeps.
fn fault_told<X: AllocGlobal + Abort>(rt: &X, fault: &GateFault) -> String {
    let alloc = rt.alloc();
    let told = match fault {
        GateFault::Tuf(e) => format!(in alloc; "Tuf {}", e.number()),
        GateFault::Trust { fault, .. } => format!(in alloc; "Trust {}", fault.number()),
        GateFault::DoubledName { name } => format!(in alloc; "DoubledName {name}"),
        GateFault::Vanished { name } => format!(in alloc; "Vanished {name}"),
        other => format!(in alloc; "{other}"),
    };
    good(rt, told)
}

fn told<X: AllocGlobal + Abort>(rt: &X, judged: Result<Gated, GateFault>) -> String {
    match judged {
        Ok(gated) => {
            let told = lines_told(rt, gated.lines.as_slice());
            drop(gated);
            told
        }
        Err(fault) => {
            let told = fault_told(rt, &fault);
            drop(fault);
            told
        }
    }
}
