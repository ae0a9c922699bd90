// Whether the identifiers of extensions are distinct, over memory for them.
ghost use Rattle.std.specs.Prelude.{◌≡◌, ◌≢◌, IfOk, IfErr, Ok, Err, map};
ghost use Rattle.std.specs.Ordering.{nat_cmp, is_lt};
ghost use Rattle.std.specs.Cmp.Lexicographic.{slice_cmp};
ghost use Rattle.x509_views.specs.Distinct.{listed_of, repeats, IsRefusal};
ghost use Rattle.x509_views.specs.Extensions.{distinct_of};

use crate::extension::{check_list, extension};
use spki_core::X509Error;
use std::alloc::Global;

/// The identifiers of extensions up to the end or to the first refusal, which comes with them.
fn listed(alloc: Global, list: &[u8]) -> Result<(Vec<&[u8]>, Result<(), X509Error>), X509Error>
    ensures ok { IfOk result (λ x. listed_of list.now ≡ (map (λ oid. oid.now) x.0.items, x.1)) }
    ensures err { IfErr result (λ e. e ≡ X509Error.NoMemory) }
{
    let mut identifiers = Vec::new(alloc);
    let mut rest = list;
    'extensions: while !rest.is_empty() {
        match extension(rest) {
            Ok((extension, behind)) => {
                identifiers.push(extension.oid)?;
                rest = behind;
            }
            Err(refusal) => return Ok((identifiers, Err(refusal))),
        }
    }
    Ok((identifiers, Ok(())))
}

/// Whether an identifier stands twice: in order, it would be its own neighbour.
fn has_repeated(identifiers: Vec<&[u8]>) -> bool
    ensures { result ≡ repeats (map (λ oid. oid.now) identifiers.entry.items) }
{
    let mut sorted = identifiers;
    sorted.sort_unstable();
    let rises = sorted.is_sorted_by(
        |first: &&[u8], second: &&[u8]| -> bool
            ensures { result ≡ is_lt (slice_cmp nat_cmp first.now.now second.now.now) }
        { first < second },
    );
    !rises
}

/// The same as `check_list`, with the identifiers sorted and not compared pair by pair.
fn check_sorted(alloc: Global, list: &[u8]) -> Result<(), X509Error>
    ensures ok { IfOk result (λ _. distinct_of list.now ≡ Ok tt) }
    ensures err { IfErr result (λ e. e ≢ X509Error.NoMemory → distinct_of list.now ≡ Err e) }
{
    let (identifiers, end) = listed(alloc, list)?;
    if has_repeated(identifiers) {
        return Err(X509Error::Extension);
    }
    end
}

/// The same as `check_list`, over memory where it is given.
pub fn check_distinct(memory: Option<Global>, list: &[u8]) -> Result<(), X509Error>
    ensures ok { IfOk result (λ _. distinct_of list.now ≡ Ok tt) }
    ensures err { IfErr result (λ e. IsRefusal memory e → distinct_of list.now ≡ Err e) }
{
    match memory {
        Some(alloc) => check_sorted(alloc, list),
        None => check_list(list),
    }
}
