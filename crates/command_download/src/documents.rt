// The top-level documents, with which each search begins.
ghost use Rattle.std.specs.Prelude.{◌≡◌, IfOk};
ghost use Rattle.sigstore_tuf_rules.specs.Taking.{top_targets};
ghost use Rattle.command_download.specs.Client.{alone, top_of};

use foundation::{Duplicate, NoMemory};
use sigstore_tuf_parts::Targets;
use sigstore_tuf_rules::{Held, InForce};
use sigstore_types_parts::{Text, TextMap};
use std::alloc::Global;

// A copy of a document, with its bytes.
fn copied<T: Duplicate>(alloc: Global, held: &Held<T>) -> Result<Held<T>, NoMemory>
    ensures { IfOk result (λ copy. copy ≡ held.now) }
{
    Ok(Held {
        bytes: held.bytes.duplicate(alloc)?,
        document: held.document.duplicate(alloc)?,
    })
}

// The same of one that may be there.
fn copied_where<T: Duplicate>(
    alloc: Global,
    held: &Option<Held<T>>,
) -> Result<Option<Held<T>>, NoMemory>
    ensures { IfOk result (λ copy. copy ≡ held.now) }
{
    match held {
        Some(held) => Ok(Some(copied(alloc, held)?)),
        None => Ok(None),
    }
}

// The top-level targets document alone.
fn top_alone(alloc: Global, documents: &InForce) -> Result<TextMap<Held<Targets>>, NoMemory>
    ensures { IfOk result (λ targets. targets ≡ alone (top_targets documents.now)) }
{
    let mut targets = TextMap::new(alloc);
    match documents.targets.get("targets") {
        Some(held) => {
            let top = copied(alloc, held)?;
            targets.insert(Text::new(alloc, "targets")?, top)?;
            Ok(targets)
        }
        None => Ok(targets),
    }
}

// A copy of the documents in force without those of delegated roles.
pub(crate) fn top_of(alloc: Global, documents: &InForce) -> Result<InForce, NoMemory>
    ensures { IfOk result (λ set. set ≡ top_of documents.now) }
{
    Ok(InForce {
        roots: documents.roots.duplicate(alloc)?,
        root: documents.root.duplicate(alloc)?,
        timestamp: copied_where(alloc, &documents.timestamp)?,
        snapshot: copied_where(alloc, &documents.snapshot)?,
        targets: top_alone(alloc, documents)?,
    })
}
