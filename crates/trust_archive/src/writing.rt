// The spelling of a chain, part by part.
ghost use Rattle.std.specs.Prelude.{◌≡◌, ◌≢◌, ◌++◌, [], Ok, Err, IfOk, IfErr, OnOk};
ghost use Rattle.trust_archive.specs.Grammar.{number_spelled, counted, each_spelled, list_spelled, fits_of, all_fit_of};
ghost use Rattle.trust_archive.specs.Spelling.{opening, document_spelled, role_spelled, octets_of, document_numbers, role_numbers, each_number, counted_numbers, numbers_fit_of, archive_in, spelling_of};

use crate::error::ArchiveError;
use crate::reading::OPENING;
use foundation::NoMemory;
use sigstore_tuf_rules::{RoleDoc, TrustChain};
use sigstore_types_parts::Bytes;
use std::alloc::Global;

// ---- the numbers are below 2^32

// A number has four octets.
#[tactic(auto, unfolding(crate::specs::Grammar::fits_of))]
fn check_number(number: usize) -> Result<(), ArchiveError>
    ensures { result ≡ fits_of number }
{
    if (number as u64) < 4_294_967_296 {
        Ok(())
    } else {
        Err(ArchiveError::TooLong {
            length: number as u64,
        })
    }
}

// The length of each byte string.
fn check_each(items: &[Bytes]) -> Result<(), ArchiveError>
    ensures { result ≡ all_fit_of (each_number counted_numbers items.now) }
{
    for item in items {
        check_number(item.as_bytes().len())?;
    }
    Ok(())
}

// The length of a document that is there.
fn check_document(document: &Option<Bytes>) -> Result<(), ArchiveError>
    ensures { result ≡ all_fit_of (document_numbers document.now) }
{
    match document {
        Some(bytes) => check_number(bytes.as_bytes().len()),
        None => Ok(()),
    }
}

// The lengths in a role.
fn check_role(role: &RoleDoc) -> Result<(), ArchiveError>
    ensures { result ≡ all_fit_of (role_numbers role.now) }
{
    check_number(role.name.as_str().len())?;
    check_number(role.delegator.as_str().len())?;
    check_document(&role.bytes)
}

// The lengths in each role.
fn check_roles(roles: &[RoleDoc]) -> Result<(), ArchiveError>
    ensures { result ≡ all_fit_of (each_number role_numbers roles.now) }
{
    for role in roles {
        check_role(role)?;
    }
    Ok(())
}

// Each number of a chain, in the order in which they are written.
#[tactic(auto, unfolding(crate::specs::Spelling::numbers_fit_of))]
fn check_numbers(chain: &TrustChain) -> Result<(), ArchiveError>
    ensures { result ≡ numbers_fit_of (archive_in chain.now) }
{
    check_number(chain.roots.len())?;
    check_each(chain.roots.as_slice())?;
    check_number(chain.timestamp.as_bytes().len())?;
    check_number(chain.snapshot.as_bytes().len())?;
    check_number(chain.roles.len())?;
    check_roles(chain.roles.as_slice())?;
    check_number(chain.file.as_bytes().len())
}

// ---- the octets

// The last four octets of a number, which has no others where it is below 2^32.
fn push_number(out: &mut Vec<u8>, number: usize) -> Result<(), NoMemory>
    ensures { OnOk result (out.new.items ≡ out.old.items ++ number_spelled number) }
{
    let [.., a, b, c, d] = (number as u64).to_be_bytes();
    out.extend_from_slice(&[a, b, c, d])?;
    Ok(())
}

// Octets behind their number.
fn push_counted(out: &mut Vec<u8>, bytes: &[u8]) -> Result<(), NoMemory>
    ensures { OnOk result (out.new.items ≡ out.old.items ++ counted bytes.now) }
{
    push_number(out, bytes.len())?;
    out.extend_from_slice(bytes)?;
    Ok(())
}

// Each byte string.
fn push_each(out: &mut Vec<u8>, items: &[Bytes]) -> Result<(), NoMemory>
    ensures { OnOk result (out.new.items ≡ out.old.items ++ each_spelled counted items.now) }
{
    for item in items {
        push_counted(out, item.as_bytes())?;
    }
    Ok(())
}

// 00, or 01 and a document.
fn push_document(out: &mut Vec<u8>, document: &Option<Bytes>) -> Result<(), NoMemory>
    ensures { OnOk result (out.new.items ≡ out.old.items ++ document_spelled document.now) }
{
    match document {
        Some(bytes) => {
            out.push(1)?;
            push_counted(out, bytes.as_bytes())?;
        }
        None => out.push(0)?,
    }
    Ok(())
}

// A role.
fn push_role(out: &mut Vec<u8>, role: &RoleDoc) -> Result<(), NoMemory>
    ensures { OnOk result (out.new.items ≡ out.old.items ++ role_spelled role.now) }
{
    push_counted(out, role.name.as_str().as_bytes())?;
    push_counted(out, role.delegator.as_str().as_bytes())?;
    push_document(out, &role.bytes)?;
    Ok(())
}

// Each role.
fn push_roles(out: &mut Vec<u8>, roles: &[RoleDoc]) -> Result<(), NoMemory>
    ensures { OnOk result (out.new.items ≡ out.old.items ++ each_spelled role_spelled roles.now) }
{
    for role in roles {
        push_role(out, role)?;
    }
    Ok(())
}

// The opening line, and the roots.
fn push_front(out: &mut Vec<u8>, chain: &TrustChain) -> Result<(), NoMemory>
    ensures { OnOk result (out.new.items ≡ out.old.items ++ (opening ++ list_spelled counted chain.now.roots)) }
{
    out.extend_from_slice(OPENING.as_bytes())?;
    push_number(out, chain.roots.len())?;
    push_each(out, chain.roots.as_slice())?;
    Ok(())
}

// All the octets.
fn octets(alloc: Global, chain: &TrustChain) -> Result<Bytes, NoMemory>
    ensures { IfOk result (λ bytes. bytes ≡ octets_of (archive_in chain.now)) }
{
    let mut out = Vec::new(alloc);
    push_front(&mut out, chain)?;
    push_counted(&mut out, chain.timestamp.as_bytes())?;
    push_counted(&mut out, chain.snapshot.as_bytes())?;
    push_number(&mut out, chain.roles.len())?;
    push_roles(&mut out, chain.roles.as_slice())?;
    push_counted(&mut out, chain.file.as_bytes())?;
    Ok(Bytes::from_vec(out))
}

/// The archive of a chain. Errors: `TooLong` with the first number that reaches 2^32.
#[tactic(auto, unfolding(crate::specs::Spelling::spelling_of))]
pub fn write_archive(alloc: Global, chain: &TrustChain) -> Result<Bytes, ArchiveError>
    ensures ok { IfOk result (λ bytes. spelling_of chain.now ≡ Ok bytes) }
    ensures err { IfErr result (λ e. e ≢ ArchiveError.NoMemory → spelling_of chain.now ≡ Err e) }
{
    check_numbers(chain)?;
    Ok(octets(alloc, chain)?)
}
