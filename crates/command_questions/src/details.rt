// What a refusal holds beside its number and its name.
use crate::last_asked::LastAsked;
use crate::reading_store::ReadingStore;
use command_files::{
    Answer, CommandLine, Gathered, Inputs, Sink, Started, Status, finish, read_layout, start,
};
use command_verify::{VerifyRequest, verify_request};
use foundation::NoMemory;
use jiff::Timestamp;
use sigstore_keys::{ArtifactSource, Providers};
use sigstore_tuf::{MetadataStore, Repository};
use sigstore_types::{Bundle, TrustedRoot};
use sigstore_types_parts::Text;
use sigstore_verify::{Error, RootFault, RuleAcceptance, RulesFault};
use std::alloc::Global;

// The member of a bundle or of a trust file by which it isn't read, in a line of its own.
fn misread(alloc: Global, fault: &Error, file: &[u8], bundle: &[u8]) -> Result<String, NoMemory> {
    let found = match fault {
        Error::InvalidBundle => Bundle::from_json(alloc, bundle).err(),
        Error::TrustRoot => TrustedRoot::from_json(alloc, file).err(),
        _ => None,
    };
    match found {
        Some(member) => Ok(format!(in alloc; "{member:?}\n")?),
        None => Ok(String::new(alloc)),
    }
}

// A refusal of the bundle, and the member that is misread.
fn of_bundle(alloc: Global, fault: &Error, file: &[u8], bundle: &[u8]) -> Result<String, NoMemory> {
    let member = misread(alloc, fault, file, bundle)?;
    let text = format!(in alloc; "{fault:?}\n{member}");
    drop(member);
    Ok(text?)
}

// A refusal of the documents, and the file that was asked for last.
fn of_documents(
    alloc: Global,
    refusal: &sigstore_tuf::Error,
    last: &str,
) -> Result<String, NoMemory> {
    Ok(format!(in alloc; "{refusal:?}\nthe last file that was asked for: {last}\n")?)
}

// The refusals of the rules, a line each, in their order.
fn of_rules(alloc: Global, faults: &[Error]) -> Result<String, NoMemory> {
    let mut text = String::new(alloc);
    'faults: for fault in faults {
        write!(&mut text, "{fault:?}\n")?;
    }
    Ok(text)
}

fn details(
    alloc: Global,
    judged: &Result<RuleAcceptance, RulesFault>,
    bundle: &[u8],
    last: &str,
) -> Result<String, NoMemory> {
    match judged {
        Ok(_) => Ok(String::new(alloc)),
        Err(RulesFault::Root(RootFault::Tuf(refusal))) => of_documents(alloc, refusal, last),
        Err(RulesFault::Root(RootFault::Verify { fault, chain })) => {
            of_bundle(alloc, fault, chain.file.as_bytes(), bundle)
        }
        Err(RulesFault::Root(RootFault::NoMemory)) => Err(NoMemory),
        Err(RulesFault::Each { faults, .. }) => of_rules(alloc, faults.as_slice()),
    }
}

// The verification once more, and what its refusal holds.
fn judged_details<R: Repository, S: MetadataStore, A: ArtifactSource>(
    alloc: Global,
    gathered: Gathered,
    now: Timestamp,
    repo: &mut LastAsked<R>,
    store: &mut S,
    artifact: &mut A,
) -> Result<String, NoMemory> {
    let request = VerifyRequest {
        rules: gathered.rules.as_slice(),
        root: gathered.root.as_bytes(),
        bundle: gathered.bundle.as_bytes(),
        moment: now,
    };
    let providers = Providers {
        provider: &gathered.tables.provider,
        armor: &gathered.tables.armor,
    };
    let judged = verify_request(alloc, &request, providers, repo, store, artifact);
    let text = details(alloc, &judged, request.bundle, repo.name());
    drop(judged);
    text
}

// The words and the inputs, then the verification.
fn decide<I: Inputs, R: Repository, S: MetadataStore, A: ArtifactSource>(
    alloc: Global,
    line: &CommandLine<'_>,
    inputs: &mut I,
    repo: &mut LastAsked<R>,
    store: &mut S,
    artifact: &mut A,
) -> Result<Answer, NoMemory> {
    let (status, text) = match start(alloc, read_layout(alloc, line.words), inputs)? {
        Started::Asked(layout, gathered) => {
            let now = layout.moment(line.clock);
            let text = judged_details(alloc, gathered, now, repo, store, artifact)?;
            (Status::Accepted, text)
        }
        Started::Stopped(said) => (said.status, String::new(alloc)),
    };
    Ok(Answer {
        status,
        text: Text::from_string(text),
    })
}

/// Verifies once more, and writes all that a refusal holds, as Debug prints it: roles, versions, counts, and of a
/// bundle or a trust file the member that is misread; behind a refusal of the documents the file that was asked
/// for last. Nothing is written where the bundle is accepted. It is for a reader's eye: no contract speaks of
/// the text, and no verdict rests on it. The store is only read. Status 0 where the text was written whole, 2 for
/// words or a file outside their grammar, 3 where an input isn't read, 4 where a write failed, 5 where memory was wanting.
pub fn run_details<I: Inputs, R: Repository, S: MetadataStore, A: ArtifactSource, K: Sink>(
    alloc: Global,
    line: &CommandLine<'_>,
    inputs: &mut I,
    repo: &mut LastAsked<R>,
    store: &mut ReadingStore<S>,
    artifact: &mut A,
    out: &mut K,
) -> Status {
    let said = decide(alloc, line, inputs, repo, store, artifact);
    finish(&said, out)
}
