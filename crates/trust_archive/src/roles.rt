// The roles of an archive: each is the next visit of the search, and its document is judged as a client judges it.
ghost use Rattle.std.specs.Prelude.{◌≡◌, ◌≢◌, Ok, Err, IfOk, IfErr, OnOk, length, ok_or, option_map, option_copied, reverse};
ghost use Rattle.sigstore_keys.specs.Crypto.{crypto_with};
ghost use Rattle.sigstore_tuf_rules.specs.Update.{Updates};
ghost use Rattle.trust_archive.specs.Judgement.{next_in, is_there, due_of, adopted_of, delegated_by, document_in, listed_in, followed_of, read_of, made_of, next_judged_of, visited_of, entry_of, roles_of, begun};
ghost use Rattle.trust_archive.specs.Searching.{going_of};

use crate::error::ArchiveError;
use crate::judgement::ArchiveTerms;
use foundation::{Duplicate, NoMemory, Sequence};
use sigstore_keys::{CryptoProvider, Providers};
use sigstore_tuf_parts::{DelegatedRole, Error, TargetFile, Targets};
use sigstore_tuf_rules::{
    InForce, RoleDoc, Visit, matching, pop_unread, push_next, role_pin_in, update_role,
    update_targets,
};
use sigstore_types_parts::{Armor, Bytes, Text};
use std::alloc::Global;

// How far the visits are: what is pending, the last of the list first; the names that were read; and how many
// visits are left.
#[derive(Drop)]
pub(crate) struct Search {
    pending: Vec<Visit>,
    read: Sequence<Text>,
    left: u32,
}

// Who judges the documents of roles, the path that is searched for, and the moment.
#[derive(Drop)]
pub(crate) struct Judging<'j, 'p, C: CryptoProvider, M: Armor> {
    providers: &'j Providers<'p, C, M>,
    path: &'j str,
    moment: jiff::Timestamp,
}

// The visit that is next, and the position of its role in the list.
#[derive(Drop)]
pub(crate) struct Due {
    position: u64,
    visit: Visit,
}

fn role_error(position: u64, fault: Error) -> ArchiveError
    ensures { result ≢ ArchiveError.NoMemory → (fault ≢ Error.NoMemory) × (result ≡ ArchiveError.Role position fault) }
{
    match fault {
        Error::NoMemory => ArchiveError::NoMemory,
        fault => ArchiveError::Role { position, fault },
    }
}

// ---- which visit is next

// The visit that is next, which is pending no more.
fn next_visit(search: &mut Search) -> Option<Visit>
    ensures next { next_in search.old.left search.old.read (reverse search.old.pending.items)
        ≡ option_map (λ v. (v, reverse search.new.pending.items)) result }
    ensures same { (search.new.read ≡ search.old.read) × (search.new.left ≡ search.old.left) }
{
    if search.left == 0 {
        return None;
    }
    pop_unread(&mut search.pending, search.read.as_slice())
}

// Whether a document stands there exactly where the snapshot pins the name.
fn is_there(document: &Option<Bytes>, pinned: bool) -> bool
    ensures { result ≡ is_there document.now pinned }
{
    match document {
        Some(_) => pinned,
        None => !pinned,
    }
}

// The role is that visit, with a document exactly where the snapshot pins its name.
#[tactic(auto, unfolding(crate::specs::Judgement::due_of))]
fn check_due(
    alloc: Global,
    documents: &InForce,
    due: &Due,
    role: &RoleDoc,
) -> Result<(), ArchiveError>
    ensures ok { OnOk result (due_of due.now.position documents.now due.now.visit role.now ≡ Ok tt) }
    ensures err { IfErr result (λ e. e ≢ ArchiveError.NoMemory → due_of due.now.position documents.now due.now.visit role.now ≡ Err e) }
{
    let pinned = role_pin_in(alloc, documents, due.visit.name.as_str())?.is_some();
    if role.name == due.visit.name
        && role.delegator == due.visit.delegator
        && is_there(&role.bytes, pinned)
    {
        Ok(())
    } else {
        Err(ArchiveError::Order {
            position: due.position,
        })
    }
}

// ---- a document

// Puts a role's document in force.
fn adopt_role<C: CryptoProvider, M: Armor>(
    alloc: Global,
    providers: &Providers<'_, C, M>,
    documents: &mut InForce,
    visit: &Visit,
    bytes: Bytes,
    now: jiff::Timestamp,
) -> Result<(), Error>
    ensures { Updates (adopted_of (crypto_with C.CryptoProvider M.Armor providers.now) now documents.old visit.now bytes)
        documents.old documents.new result }
{
    if visit.name.as_str() == "targets" {
        update_targets(alloc, providers, documents, bytes, Some(now))
    } else {
        update_role(alloc, providers, documents, visit, bytes, Some(now))
    }
}

// The roles that a document delegates to.
fn delegated(document: Option<&Targets>) -> &[DelegatedRole]
    ensures { result.now ≡ delegated_by (option_copied document.entry) }
{
    match document {
        Some(document) => match &document.delegations {
            Some(delegations) => delegations.roles.as_slice(),
            None => &[],
        },
        None => &[],
    }
}

// The document of a role that is in force.
fn document_in<'d>(documents: &'d InForce, name: &Text) -> Option<&'d Targets>
    ensures { option_copied result ≡ document_in documents.now name.now }
{
    match documents.targets.get(name.as_str()) {
        Some(held) => Some(held.document.signed()),
        None => None,
    }
}

// What it lists under a path.
fn listed_in<'d>(documents: &'d InForce, path: &str, name: &Text) -> Option<&'d TargetFile>
    ensures { option_copied result ≡ listed_in documents.now path.now name.now }
{
    match document_in(documents, name) {
        Some(document) => document.target(path),
        None => None,
    }
}

// What follows the document of a visit: nothing behind one that lists the path, else its matching delegations.
fn follow(
    alloc: Global,
    documents: &InForce,
    path: &str,
    due: &Due,
    search: &mut Search,
) -> Result<(), ArchiveError>
    ensures ok { OnOk result (followed_of path.now due.now.position due.now.visit (going_of documents.now search.old)
        (listed_in documents.now path.now due.now.visit.name) ≡ Ok (going_of documents.now search.new)) }
    ensures err { IfErr result (λ e. e ≢ ArchiveError.NoMemory → followed_of path.now due.now.position due.now.visit
        (going_of documents.now search.old) (listed_in documents.now path.now due.now.visit.name) ≡ Err e) }
{
    let name = &due.visit.name;
    if listed_in(documents, path, name).is_some() {
        search.left = 0;
        return Ok(());
    }
    match matching(alloc, path, delegated(document_in(documents, name))) {
        Ok(next) => {
            push_next(alloc, name, next, &mut search.pending)?;
            Ok(())
        }
        Err(e) => Err(role_error(due.position, e)),
    }
}

// Judges the document of a visit, and puts what follows it before what is pending.
#[tactic(auto, unfolding(crate::specs::Judgement::read_of))]
fn read<C: CryptoProvider, M: Armor>(
    alloc: Global,
    judging: &Judging<'_, '_, C, M>,
    documents: &mut InForce,
    due: &Due,
    search: &mut Search,
    bytes: &Bytes,
) -> Result<(), ArchiveError>
    ensures ok { OnOk result (read_of (crypto_with C.CryptoProvider M.Armor judging.now.providers.now) judging.now.moment judging.now.path.now
        due.now.position due.now.visit (going_of documents.old search.old) bytes.now ≡ Ok (going_of documents.new search.new)) }
    ensures err { IfErr result (λ e. e ≢ ArchiveError.NoMemory →
        read_of (crypto_with C.CryptoProvider M.Armor judging.now.providers.now) judging.now.moment judging.now.path.now
        due.now.position due.now.visit (going_of documents.old search.old) bytes.now ≡ Err e) }
{
    let copy = bytes.duplicate(alloc)?;
    match adopt_role(
        alloc,
        judging.providers,
        documents,
        &due.visit,
        copy,
        judging.moment,
    ) {
        Ok(()) => {
            search.read.push(due.visit.name.duplicate(alloc)?)?;
            follow(alloc, documents, judging.path, due, search)?;
            Ok(())
        }
        Err(e) => Err(role_error(due.position, e)),
    }
}

// Makes a visit, where a document stands there.
fn make<C: CryptoProvider, M: Armor>(
    alloc: Global,
    judging: &Judging<'_, '_, C, M>,
    documents: &mut InForce,
    due: &Due,
    search: &mut Search,
    document: &Option<Bytes>,
) -> Result<(), ArchiveError>
    ensures ok { OnOk result (made_of (crypto_with C.CryptoProvider M.Armor judging.now.providers.now) judging.now.moment judging.now.path.now
        due.now.position due.now.visit (going_of documents.old search.old) document.now ≡ Ok (going_of documents.new search.new)) }
    ensures err { IfErr result (λ e. e ≢ ArchiveError.NoMemory →
        made_of (crypto_with C.CryptoProvider M.Armor judging.now.providers.now) judging.now.moment judging.now.path.now
        due.now.position due.now.visit (going_of documents.old search.old) document.now ≡ Err e) }
{
    match document {
        Some(bytes) => read(alloc, judging, documents, due, search, bytes),
        None => Ok(()),
    }
}

// ---- the roles, one after another

// A visit that is next is the role, and its document is judged.
#[tactic(auto, unfolding(crate::specs::Judgement::next_judged_of))]
fn judge_next<C: CryptoProvider, M: Armor>(
    alloc: Global,
    judging: &Judging<'_, '_, C, M>,
    documents: &mut InForce,
    due: &Due,
    role: &RoleDoc,
    search: &mut Search,
) -> Result<(), ArchiveError>
    ensures ok { OnOk result (next_judged_of (crypto_with C.CryptoProvider M.Armor judging.now.providers.now) judging.now.moment
        judging.now.path.now due.now.position due.now.visit role.now (going_of documents.old search.old)
        ≡ Ok (going_of documents.new search.new)) }
    ensures err { IfErr result (λ e. e ≢ ArchiveError.NoMemory →
        next_judged_of (crypto_with C.CryptoProvider M.Armor judging.now.providers.now) judging.now.moment judging.now.path.now
        due.now.position due.now.visit role.now (going_of documents.old search.old) ≡ Err e) }
{
    check_due(alloc, documents, due, role)?;
    search.left = search.left.saturating_sub(1);
    make(alloc, judging, documents, due, search, &role.bytes)?;
    Ok(())
}

// The role is the next visit, and its document is judged.
fn visit<C: CryptoProvider, M: Armor>(
    alloc: Global,
    judging: &Judging<'_, '_, C, M>,
    documents: &mut InForce,
    position: u64,
    role: &RoleDoc,
    search: &mut Search,
) -> Result<(), ArchiveError>
    ensures ok { OnOk result (visited_of (crypto_with C.CryptoProvider M.Armor judging.now.providers.now) judging.now.moment
        judging.now.path.now position role.now (going_of documents.old search.old) ≡ Ok (going_of documents.new search.new)) }
    ensures err { IfErr result (λ e. e ≢ ArchiveError.NoMemory →
        visited_of (crypto_with C.CryptoProvider M.Armor judging.now.providers.now) judging.now.moment judging.now.path.now position role.now
        (going_of documents.old search.old) ≡ Err e) }
{
    match next_visit(search) {
        Some(visit) => {
            let due = Due { position, visit };
            match judge_next(alloc, judging, documents, &due, role, search) {
                Ok(()) => Ok(()),
                Err(e) => Err(e),
            }
        }
        None => Err(ArchiveError::Order { position }),
    }
}

// All of them.
fn visit_all<C: CryptoProvider, M: Armor>(
    alloc: Global,
    judging: &Judging<'_, '_, C, M>,
    documents: &mut InForce,
    roles: &[RoleDoc],
    search: &mut Search,
) -> Result<(), ArchiveError>
    ensures ok { OnOk result (roles_of (crypto_with C.CryptoProvider M.Armor judging.now.providers.now) judging.now.moment
        judging.now.path.now 0 roles.now (going_of documents.old search.old)
        ≡ ok_or (entry_of judging.now.path.now (going_of documents.new search.new)) (ArchiveError.Order (length roles.now))) }
    ensures err { IfErr result (λ e. e ≢ ArchiveError.NoMemory →
        roles_of (crypto_with C.CryptoProvider M.Armor judging.now.providers.now) judging.now.moment
        judging.now.path.now 0 roles.now (going_of documents.old search.old) ≡ Err e) }
{
    let mut position = 0u64;
    for role in roles {
        visit(alloc, judging, documents, position, role, search)?;
        position += 1;
    }
    Ok(())
}

// What the document lists that was read last.
fn entry<'d>(documents: &'d InForce, path: &str, search: &Search) -> Option<&'d TargetFile>
    ensures { option_copied result ≡ entry_of path.now (going_of documents.now search.now) }
{
    match search.read.as_slice().last() {
        Some(name) => listed_in(documents, path, name),
        None => None,
    }
}

// The search before its first visit.
fn begin(alloc: Global, max: u32) -> Result<Search, NoMemory>
    ensures { IfOk result (λ search. (documents : InForce) → going_of documents search ≡ begun documents max) }
{
    let visit = Visit {
        name: Text::new(alloc, "targets")?,
        delegator: Text::new(alloc, "root")?,
    };
    let mut pending = Vec::new(alloc);
    pending.push(visit)?;
    Ok(Search {
        pending,
        read: Sequence::new(alloc),
        left: max,
    })
}

// The entry of the path, from a search that was begun.
fn visits_from<C: CryptoProvider, M: Armor>(
    alloc: Global,
    judging: &Judging<'_, '_, C, M>,
    documents: &mut InForce,
    roles: &[RoleDoc],
    search: &mut Search,
) -> Result<TargetFile, ArchiveError>
    ensures ok { IfOk result (λ target.
        roles_of (crypto_with C.CryptoProvider M.Armor judging.now.providers.now) judging.now.moment
        judging.now.path.now 0 roles.now (going_of documents.old search.old) ≡ Ok target) }
    ensures err { IfErr result (λ e. e ≢ ArchiveError.NoMemory →
        roles_of (crypto_with C.CryptoProvider M.Armor judging.now.providers.now) judging.now.moment
        judging.now.path.now 0 roles.now (going_of documents.old search.old) ≡ Err e) }
{
    visit_all(alloc, judging, documents, roles, search)?;
    match entry(documents, judging.path, search) {
        Some(target) => Ok(target.duplicate(alloc)?),
        None => Err(ArchiveError::Order {
            position: roles.len() as u64,
        }),
    }
}

/// The entry of the path, by roles that are the visits of the search and whose documents are judged in turn. Errors: `Order`, `Role`.
pub(crate) fn visits<C: CryptoProvider, M: Armor>(
    alloc: Global,
    providers: &Providers<'_, C, M>,
    terms: &ArchiveTerms<'_>,
    documents: &mut InForce,
    roles: &[RoleDoc],
) -> Result<TargetFile, ArchiveError>
    ensures ok { IfOk result (λ target. roles_of (crypto_with C.CryptoProvider M.Armor providers.now) terms.now.moment terms.now.path.now 0
        roles.now (begun documents.old terms.now.max_delegations) ≡ Ok target) }
    ensures err { IfErr result (λ e. e ≢ ArchiveError.NoMemory →
        roles_of (crypto_with C.CryptoProvider M.Armor providers.now) terms.now.moment terms.now.path.now 0
        roles.now (begun documents.old terms.now.max_delegations) ≡ Err e) }
{
    let mut search = begin(alloc, terms.max_delegations)?;
    let judging = Judging {
        providers,
        path: terms.path,
        moment: terms.moment,
    };
    visits_from(alloc, &judging, documents, roles, &mut search)
}
