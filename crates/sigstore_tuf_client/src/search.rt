// The search for a target over delegated roles, whose documents are fetched on the way.
ghost use Rattle.std.specs.Prelude.{◌≡◌, ◌≢◌, ◌<◌, ◌≤◌, [], ◌∷◌, Some, None, Ok, Err, IfOk, IfErr, OnOk, option_map, reverse, codes};
ghost use Rattle.sigstore_types_parts.specs.Entries.{at_name};
ghost use Rattle.sigstore_keys.specs.Crypto.{crypto_with};
ghost use Rattle.sigstore_tuf_outside.specs.Repository.{metadata_files};
ghost use Rattle.sigstore_tuf_rules.specs.Names.{role_name_in, role_file};
ghost use Rattle.sigstore_tuf_runs.specs.State.{state_of, session_by};
ghost use Rattle.sigstore_tuf_rules.specs.Taking.{Takes, taken_of};
ghost use Rattle.sigstore_tuf_runs.specs.Adopt.{FetchesNamed, KeepsWhere};
ghost use Rattle.sigstore_tuf_rules.specs.Delegated.{update_role_of};
ghost use Rattle.sigstore_tuf_runs.specs.Search.{AdoptsRole, visit_serves_of, reads, IsGap, IsOpen, IsSnapshot, tree_in, Readies, Advances, Searches, FindsVisits};
ghost use Rattle.sigstore_tuf_rules.specs.Order.{Tree, visited, having_read, delegated_in, read_of, read_named, visit_of, first_visit, first_walk};
ghost use Rattle.sigstore_tuf_parts.specs.declared.snapshot.Snapshot.{Snapshot};

use crate::adopt::{fetch_named, save_alone};
use foundation::{Duplicate, NoMemory, Sequence};
use sigstore_keys::CryptoProvider;
use sigstore_tuf_outside::{MetadataStore, Repository};
use sigstore_tuf_parts::{DelegatedRole, Error, Rule, Targets, TransportFault};
use sigstore_tuf_rules::{
    InForce, Next, Visit, Walk, check_search, matching, pop_unread, push_next, role_file,
    role_name_in, role_pin_in, serving_role, taken, update_role,
};
use sigstore_tuf_runs::Session;
use sigstore_types_parts::{Armor, Bytes, Text};
use std::alloc::Global;

// ---- one role

// The file of a delegated role's document, where it is there.
fn fetch_role<R: Repository>(
    alloc: Global,
    documents: &InForce,
    repo: &mut R,
    name: &Text,
    max: u64,
) -> Result<Option<Bytes>, Error>
    ensures { FetchesNamed metadata_files (role_name_in documents.now name.now) max (R.seen repo.old) (R.seen repo.new) result }
{
    match role_name_in(alloc, documents, name.as_str()) {
        Ok(file) => fetch_named(alloc, repo, file.as_str(), max),
        Err(e) => Err(Error::from(e)),
    }
}

// Takes a delegated role's document in.
fn take_role<C: CryptoProvider, M: Armor>(
    alloc: Global,
    session: &Session<'_, C, M>,
    documents: &mut InForce,
    visit: &Visit,
    bytes: Bytes,
) -> Result<bool, Error>
    ensures { Takes (taken_of (update_role_of (crypto_with C.CryptoProvider M.Armor session.now.providers) documents.old visit.now bytes (Some session.now.moment)))
        documents.old documents.new result }
{
    taken(update_role(
        alloc,
        &session.providers,
        documents,
        visit,
        bytes,
        Some(session.moment),
    ))
}

// Writes the document in force of a delegated role.
fn save_role<S: MetadataStore>(
    alloc: Global,
    store: &mut S,
    documents: &InForce,
    name: &Text,
) -> Result<(), Error>
    ensures { KeepsWhere (role_file name.now ∷ []) (option_map (λ held. held.bytes) (at_name name.now documents.now.targets)) (S.seen store.old) (S.seen store.new) result }
{
    match documents.targets.get(name.as_str()) {
        Some(held) => match role_file(alloc, name.as_str()) {
            Ok(file) => save_alone(alloc, store, file.as_str(), held.bytes.as_bytes()),
            Err(e) => Err(Error::from(e)),
        },
        None => Ok(()),
    }
}

// Fetches a delegated role's document and adopts it.
fn adopt_role<C: CryptoProvider, M: Armor, R: Repository, S: MetadataStore>(
    alloc: Global,
    session: &Session<'_, C, M>,
    documents: &mut InForce,
    repo: &mut R,
    store: &mut S,
    visit: &Visit,
) -> Result<bool, Error>
    ensures { AdoptsRole (session_by C.CryptoProvider M.Armor session.now) visit.now (state_of documents.old (R.seen repo.old) (S.seen store.old))
        (state_of documents.new (R.seen repo.new) (S.seen store.new)) result }
{
    let max = session.config.targets_max_length;
    match fetch_role(alloc, documents, repo, &visit.name, max) {
        Ok(Some(bytes)) => match take_role(alloc, session, documents, visit, bytes) {
            Ok(_) => match save_role(alloc, store, documents, &visit.name) {
                Ok(()) => Ok(true),
                Err(e) => Err(e),
            },
            Err(e) => Err(e),
        },
        Ok(None) => Err(Error::Transport(TransportFault::Absent)),
        Err(e) => Err(e),
    }
}

// A role in force is looked at again (5.6.7): its delegator may be another one now, or have another document, and its day may have passed.
fn check_visit<C: CryptoProvider, M: Armor>(
    alloc: Global,
    session: &Session<'_, C, M>,
    documents: &InForce,
    visit: &Visit,
) -> Result<(), Error>
    ensures ok { OnOk result
        (visit_serves_of (crypto_with C.CryptoProvider M.Armor session.now.providers) documents.now visit.now session.now.moment ≡ Ok tt) }
    ensures err { IfErr result (λ e. e ≢ Error.NoMemory →
        visit_serves_of (crypto_with C.CryptoProvider M.Armor session.now.providers) documents.now visit.now session.now.moment ≡ Err e) }
{
    if visit.name.as_str() == "targets" {
        return Ok(());
    }
    match serving_role(alloc, &session.providers, documents, visit, session.moment) {
        Ok(_) => Ok(()),
        Err(e) => Err(e),
    }
}

// Whether a visit that is open reads a document.
fn reads(alloc: Global, documents: &InForce, visit: &Visit) -> Result<bool, NoMemory>
    ensures { IfOk result (λ b. (walk : Walk) → IsOpen visit.now walk → b ≡ reads documents.now visit.now walk) }
{
    let pin = role_pin_in(alloc, documents, visit.name.as_str())?;
    Ok(pin.is_some())
}

// Sees that the document that an open visit reads is there and serves.
fn ready<C: CryptoProvider, M: Armor, R: Repository, S: MetadataStore>(
    alloc: Global,
    session: &Session<'_, C, M>,
    documents: &mut InForce,
    repo: &mut R,
    store: &mut S,
    visit: &Visit,
) -> Result<(), Error>
    ensures { (walk : Walk) → IsOpen visit.now walk → Readies (session_by C.CryptoProvider M.Armor session.now) visit.now walk
        (state_of documents.old (R.seen repo.old) (S.seen store.old)) (state_of documents.new (R.seen repo.new) (S.seen store.new)) result }
{
    match reads(alloc, documents, visit) {
        Ok(true) => {}
        Ok(false) => return Ok(()),
        Err(e) => return Err(Error::from(e)),
    }
    if documents.targets.get(visit.name.as_str()).is_some() {
        return check_visit(alloc, session, documents, visit);
    }
    match adopt_role(alloc, session, documents, repo, store, visit) {
        Ok(_) => Ok(()),
        Err(e) => Err(e),
    }
}

// ---- one visit

// Makes a visit: one fewer is left.
fn count_visit(alloc: Global, visit: &Visit, walk: &mut Walk) -> Result<(), NoMemory>
    ensures { OnOk result (walk.new ≡ visited visit.now walk.old) }
{
    walk.visits.push(visit.duplicate(alloc)?)?;
    walk.left = walk.left.saturating_sub(1);
    Ok(())
}

// Notes a name that is read.
fn note_name(alloc: Global, name: &Text, walk: &mut Walk) -> Result<(), NoMemory>
    ensures { OnOk result (walk.new ≡ having_read name.now walk.old) }
{
    walk.read.push(name.duplicate(alloc)?)?;
    Ok(())
}

// The roles that a document delegates to.
fn delegated(doc: &Targets) -> &[DelegatedRole]
    ensures { result.now ≡ delegated_in doc.now.delegations }
{
    match &doc.delegations {
        Some(delegations) => delegations.roles.as_slice(),
        None => &[],
    }
}

// Reads a document: one that lists the path ends the search, another is followed by its matching delegations.
fn read_document(alloc: Global, path: &str, doc: &Targets, walk: &mut Walk) -> Result<Next, Error>
    ensures ok { IfOk result (λ next. (tree : Tree) → tree.path ≡ path.now → read_of tree doc.now walk.old ≡ Ok (record { walk = walk.new; next = next })) }
    ensures err { IfErr result (λ e. e ≢ Error.NoMemory → (tree : Tree) → tree.path ≡ path.now → IsGap (read_of tree doc.now walk.old) e) }
    ensures less { IfOk result (λ next. walk.new.left ≤ walk.old.left) }
{
    if doc.target(path).is_some() {
        walk.left = 0;
        return Ok(Next {
            names: Sequence::new(alloc),
            ends: false,
        });
    }
    matching(alloc, path, delegated(doc))
}

// Reads the document in force of a role, which is noted.
fn read_role(
    alloc: Global,
    documents: &InForce,
    path: &str,
    name: &Text,
    walk: &mut Walk,
) -> Result<Next, Error>
    ensures ok { IfOk result (λ next. (snapshot : Snapshot) →
        read_named (tree_in documents.now snapshot path.now) name.now walk.old ≡ Ok (record { walk = walk.new; next = next })) }
    ensures err { IfErr result (λ e. e ≢ Error.NoMemory → (snapshot : Snapshot) →
        IsGap (read_named (tree_in documents.now snapshot path.now) name.now walk.old) e) }
    ensures less { IfOk result (λ next. walk.new.left ≤ walk.old.left) }
{
    note_name(alloc, name, walk)?;
    match documents.targets.get(name.as_str()) {
        Some(held) => read_document(alloc, path, held.document.signed(), walk),
        None => Err(Error::Malformed(Rule::Pattern)),
    }
}

// Makes a visit of a role whose document, where it reads one, is there and serves.
fn make_visit(
    alloc: Global,
    documents: &InForce,
    path: &str,
    visit: &Visit,
    walk: &mut Walk,
) -> Result<Next, Error>
    ensures ok { IfOk result (λ next. (snapshot : Snapshot) → IsSnapshot documents.now snapshot → IsOpen visit.now walk.old →
        visit_of (tree_in documents.now snapshot path.now) visit.now walk.old ≡ Ok (record { walk = walk.new; next = next })) }
    ensures err { IfErr result (λ e. e ≢ Error.NoMemory → (snapshot : Snapshot) → IsSnapshot documents.now snapshot → IsOpen visit.now walk.old →
        IsGap (visit_of (tree_in documents.now snapshot path.now) visit.now walk.old) e) }
    ensures less { IfOk result (λ next. walk.old.left ≢ 0 → walk.new.left < walk.old.left) }
{
    count_visit(alloc, visit, walk)?;
    match role_pin_in(alloc, documents, visit.name.as_str())? {
        Some(_) => read_role(alloc, documents, path, &visit.name, walk),
        None => Ok(Next {
            names: Sequence::new(alloc),
            ends: false,
        }),
    }
}

// ---- the search

// The first that is pending.
fn first_pending(alloc: Global) -> Result<Vec<Visit>, NoMemory>
    ensures { IfOk result (λ pending. pending.items ≡ first_visit ∷ []) }
{
    let visit = Visit::new(alloc, "targets", "root")?;
    let mut pending = Vec::new(alloc);
    pending.push(visit)?;
    Ok(pending)
}

// Makes a visit whose document, where it reads one, is there and serves, and puts what follows it before what is pending.
fn advance(
    alloc: Global,
    documents: &InForce,
    path: &str,
    visit: &Visit,
    walk: &mut Walk,
    pending: &mut Vec<Visit>,
) -> Result<(), Error>
    ensures ok { OnOk result ((snapshot : Snapshot) → IsSnapshot documents.now snapshot → IsOpen visit.now walk.old →
        Advances (tree_in documents.now snapshot path.now) visit.now (reverse pending.old.items) walk.old walk.new (reverse pending.new.items)) }
    ensures err { IfErr result (λ e. e ≢ Error.NoMemory → (snapshot : Snapshot) → IsSnapshot documents.now snapshot → IsOpen visit.now walk.old →
        IsGap (visit_of (tree_in documents.now snapshot path.now) visit.now walk.old) e) }
    ensures less { OnOk result (walk.old.left ≢ 0 → walk.new.left < walk.old.left) }
{
    match make_visit(alloc, documents, path, visit, walk) {
        Ok(next) => match push_next(alloc, &visit.name, next, pending) {
            Ok(()) => Ok(()),
            Err(e) => Err(Error::from(e)),
        },
        Err(e) => Err(e),
    }
}

// A walk of so many visits, none of which is made.
fn first_walk(alloc: Global, max: u32) -> Walk
    ensures { result ≡ first_walk max }
{
    Walk {
        visits: Sequence::new(alloc),
        read: Sequence::new(alloc),
        left: max,
    }
}

// The visits of the whole search; of what is pending the last of the list is the first.
fn walk_all<C: CryptoProvider, M: Armor, R: Repository, S: MetadataStore>(
    alloc: Global,
    session: &Session<'_, C, M>,
    documents: &mut InForce,
    repo: &mut R,
    store: &mut S,
    path: &str,
) -> Result<Walk, Error>
    ensures { (snapshot : Snapshot) → IsSnapshot documents.old snapshot → Searches (session_by C.CryptoProvider M.Armor session.now) snapshot path.now
        (first_visit ∷ []) (first_walk session.now.config.now.max_delegations) (state_of documents.old (R.seen repo.old) (S.seen store.old))
        (state_of documents.new (R.seen repo.new) (S.seen store.new)) result }
{
    let mut walk = first_walk(alloc, session.config.max_delegations);
    let mut pending = match first_pending(alloc) {
        Ok(pending) => pending,
        Err(e) => return Err(Error::from(e)),
    };
    while walk.left != 0 {
        let Some(visit) = pop_unread(&mut pending, walk.read.as_slice()) else {
            return Ok(walk);
        };
        match ready(alloc, session, documents, repo, store, &visit) {
            Ok(()) => {}
            Err(e) => return Err(e),
        }
        match advance(alloc, documents, path, &visit, &mut walk, &mut pending) {
            Ok(()) => {}
            Err(e) => return Err(e),
        }
    }
    Ok(walk)
}

// The visits of the search for a path, in documents that serve it; what is fetched on the way is adopted.
pub(crate) fn find_visits<C: CryptoProvider, M: Armor, R: Repository, S: MetadataStore>(
    alloc: Global,
    session: &Session<'_, C, M>,
    documents: &mut InForce,
    repo: &mut R,
    store: &mut S,
    path: &str,
) -> Result<Sequence<Visit>, Error>
    ensures { FindsVisits (session_by C.CryptoProvider M.Armor session.now) path.now (state_of documents.old (R.seen repo.old) (S.seen store.old))
        (state_of documents.new (R.seen repo.new) (S.seen store.new)) result }
{
    if let Err(e) = check_search(alloc, documents, session.moment) {
        return Err(e);
    }
    match walk_all(alloc, session, documents, repo, store, path) {
        Ok(walk) => Ok(walk.visits),
        Err(e) => Err(e),
    }
}
