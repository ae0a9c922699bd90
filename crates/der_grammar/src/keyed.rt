// Members of a set with their encodings, ordered by these.
ghost use Rattle.std.specs.Prelude.{◌≡◌, ◌≢◌, IfOk, IfErr, Ok, Err, bytes_eq, Some};
ghost use Rattle.std.proofs.Common.{rules};
ghost use Rattle.std.specs.Cmp.{partial_equiv_from_equiv, partial_order_from_own_ties};
ghost use Rattle.std.specs.Cmp.Rules.{comparing};
ghost use Rattle.std.specs.Cmp.Lexicographic.{slice_cmp, on_texts_equal};
ghost use Rattle.std.specs.Ordering.{nat_cmp, on, as_partial_cmp};
ghost use Rattle.der_grammar.specs.Outcome.{IsTooLong};
ghost use Rattle.der_grammar.specs.Sets.{is_before, keyed, ordered, rises, values};

use crate::der::Der;
use crate::error::DerError;
use crate::octet_string::OctetString;
use foundation::NoMemory;
use std::alloc::Global;
use std::cmp::Ordering;
use std::marker::Model;

/// A member with its encoding.
#[derive(Drop)]
pub struct Keyed<T> {
    key: OctetString,
    member: T,
}

impl<T> Model for Keyed<T> {
    ghost use Rattle.std.specs.Prelude.{ℕ, List};

    ghost Value = { List ℕ × T };

    ghost view = { λ k. (k.key, k.member) };
}

impl<T> PartialEq for Keyed<T> {
    ghost eq = { on (λ k. k.0) bytes_eq };

    ghost laws = { partial_equiv_from_equiv (on_texts_equal (λ k. k.0)) };

    fn eq(&self, other: &Keyed<T>) -> bool {
        self.key.as_bytes() == other.key.as_bytes()
    }
}

impl<T> Eq for Keyed<T> {
    ghost laws = { on_texts_equal (λ k. k.0) };
}

impl<T> PartialOrd for Keyed<T> {
    ghost partial_cmp = { as_partial_cmp (on (λ k. k.0) (slice_cmp nat_cmp)) };

    ghost laws = { partial_order_from_own_ties (Prim.search (comparing, rules)) (Prim.search (comparing, rules)) };

    fn partial_cmp(&self, other: &Keyed<T>) -> Option<Ordering> {
        Some(self.cmp(other))
    }
}

impl<T> Ord for Keyed<T> {
    ghost cmp = { on (λ k. k.0) (slice_cmp nat_cmp) };

    ghost total = { Prim.search (comparing, rules) };

    ghost matches_partial_cmp = { Prim.search (comparing, rules) };

    ghost matches_eq = { Prim.search (comparing, rules) };

    fn cmp(&self, other: &Keyed<T>) -> Ordering {
        self.key.as_bytes().cmp(other.key.as_bytes())
    }
}

/// The members with their encodings, each encoded once.
pub fn with_encodings<T: Der>(alloc: Global, members: Vec<T>) -> Result<Vec<Keyed<T>>, DerError>
    ensures ok { IfOk result (λ v. keyed T.grammar members.items ≡ Ok v.items) }
    ensures err { IfErr result (λ e. e ≢ DerError.NoMemory → keyed T.grammar members.items ≡ Err e) }
    ensures cause { IfErr result IsTooLong }
{
    let mut keys = Vec::new(alloc);
    'members: for member in members {
        let key = member.to_der(alloc)?;
        keys.push(Keyed { key, member })?;
    }
    Ok(keys)
}

/// Puts the members into the ascending order of their encodings.
pub fn sort<T: Drop>(keys: &mut Vec<Keyed<T>>) -> Result<(), NoMemory>
    ensures { IfOk result (λ u. keys.new.items ≡ ordered keys.old.items) }
{
    keys.sort()?;
    Ok(())
}

/// Whether each encoding comes before the next.
pub fn all_rise<T>(keys: &[Keyed<T>]) -> bool
    ensures { result ≡ rises keys.now }
{
    keys.is_sorted_by(
        |first: &Keyed<T>, second: &Keyed<T>| -> bool
            ensures { result ≡ is_before first.now second.now }
        { first < second },
    )
}

/// The members alone.
pub fn members_of<T: Drop>(alloc: Global, keys: Vec<Keyed<T>>) -> Result<Vec<T>, NoMemory>
    ensures { IfOk result (λ v. v.items ≡ values keys.items) }
{
    let mut members = Vec::new(alloc);
    'keys: for key in keys {
        let Keyed { key: _, member } = key;
        members.push(member)?;
    }
    Ok(members)
}
