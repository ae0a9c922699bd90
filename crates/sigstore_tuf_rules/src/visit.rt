// The visits of a search, and the delegations that follow a document.
ghost use Rattle.std.specs.Prelude.{◌≡◌, ◌≢◌, [], None, Ok, Err, IfOk, IfErr, OnOk, reverse, option_map};
ghost use Rattle.sigstore_tuf_parts.specs.Delegation.{matches_path_of};
ghost use Rattle.sigstore_tuf_parts.specs.Threshold.{is_among};
ghost use Rattle.sigstore_tuf_rules.specs.Order.{by, pattern, pattern_or, matching, put_before, unread_of};

use crate::delegated::is_top_level;
use foundation::{Duplicate, NoMemory, Sequence};
use sigstore_tuf_parts::{DelegatedRole, Error, Rule};
use sigstore_types_parts::Text;
use std::alloc::Global;
use std::mem;

/// A role that a search visits, and the role that delegates to it (`root` for `targets`).
#[derive(PartialEq, Drop)]
pub struct Visit {
    pub name: Text,
    pub delegator: Text,
}

impl Visit {
    /// The visit of a role of this name, and of its delegator's.
    pub fn new(alloc: Global, name: &str, delegator: &str) -> Result<Visit, NoMemory>
        ensures { IfOk result (λ visit. visit ≡ by delegator.now name.now) }
    {
        Ok(Visit {
            name: Text::new(alloc, name)?,
            delegator: Text::new(alloc, delegator)?,
        })
    }
}

impl Duplicate for Visit {
    fn duplicate(&self, alloc: Global) -> Result<Visit, NoMemory> {
        Ok(Visit {
            name: self.name.duplicate(alloc)?,
            delegator: self.delegator.duplicate(alloc)?,
        })
    }
}

/// How far a search is: its visits, the names that were read, and how many visits it may still make.
#[derive(Drop)]
pub struct Walk {
    pub visits: Sequence<Visit>,
    pub read: Sequence<Text>,
    pub left: u32,
}

/// What follows a document: the names that are walked next, and whether the whole search ends after them.
#[derive(Drop)]
pub struct Next {
    pub names: Sequence<Text>,
    pub ends: bool,
}

// Whether a delegation is for the path; any refusal is that of its pattern.
fn matches(alloc: Global, role: &DelegatedRole, path: &str) -> Result<bool, Error>
    ensures ok { IfOk result (λ found. pattern_or (matches_path_of role.now path.now) ≡ Ok found) }
    ensures err { IfErr result (λ e. e ≢ Error.NoMemory →
        (e ≡ Error.Malformed Rule.Pattern) × (pattern_or (matches_path_of role.now path.now) ≡ Err pattern)) }
{
    match role.matches_path(alloc, path) {
        Ok(found) => Ok(found),
        Err(Error::NoMemory) => Err(Error::NoMemory),
        Err(_) => Err(Error::Malformed(Rule::Pattern)),
    }
}

/// The delegations that match a path, in order, up to the first terminating one.
pub fn matching(alloc: Global, path: &str, roles: &[DelegatedRole]) -> Result<Next, Error>
    ensures ok { IfOk result (λ m. matching path.now roles.now ≡ Ok m) }
    ensures err { IfErr result (λ e. e ≢ Error.NoMemory →
        (e ≡ Error.Malformed Rule.Pattern) × (matching path.now roles.now ≡ Err pattern)) }
{
    let mut names = Sequence::new(alloc);
    for role in roles {
        if is_top_level(role.name.as_str()) || !matches(alloc, role, path)? {
            continue;
        }
        names.push(role.name.duplicate(alloc)?)?;
        if role.terminating {
            return Ok(Next { names, ends: true });
        }
    }
    Ok(Next { names, ends: false })
}

/// The first that is pending and wasn't read; the last of the list is the first.
pub fn pop_unread(pending: &mut Vec<Visit>, read: &[Text]) -> Option<Visit>
    ensures first { unread_of read.now (reverse pending.old.items) ≡ option_map (λ v. (v, reverse pending.new.items)) result }
    ensures none { result ≡ None → pending.new.items ≡ [] }
{
    while let Some(visit) = pending.pop() {
        if !contains(read, &visit.name) {
            return Some(visit);
        }
        drop(visit);
    }
    None
}

/// Whether a name is one of these.
pub fn contains(names: &[Text], name: &Text) -> bool
    ensures { result ≡ is_among names.now name.now }
{
    names.iter().any(|known| known == name)
}

/// Puts what follows a document before the others, which a terminating match drops.
pub fn push_next(
    alloc: Global,
    delegator: &Text,
    next: Next,
    pending: &mut Vec<Visit>,
) -> Result<(), NoMemory>
    ensures { OnOk result (reverse pending.new.items ≡ put_before delegator.now next (reverse pending.old.items)) }
{
    if next.ends {
        drop(mem::replace(pending, Vec::new(alloc)));
    }
    let mut names = next.names.into_vec();
    while let Some(name) = names.pop() {
        pending.push(Visit {
            name,
            delegator: delegator.duplicate(alloc)?,
        })?;
    }
    Ok(())
}
