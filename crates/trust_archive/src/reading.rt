// The reading of an archive, part by part.
ghost use Rattle.std.specs.Prelude.{◌≡◌, ◌≢◌, Ok, Err, IfOk, IfErr, length};
ghost use Rattle.trust_archive.specs.Grammar.{number_at, octets_at, counted_at, utf8_at, text_at, times_at, list_at, ended_at};
ghost use Rattle.trust_archive.specs.Spelling.{opening_at, document_at, some_at, role_at, documents_at, parts_of, in_format};

use crate::archive::Archive;
use crate::error::{ArchiveError, Unread};
use foundation::Sequence;
use sigstore_tuf_rules::RoleDoc;
use sigstore_types_parts::{Bytes, Text};
use std::alloc::Global;
use std::str;

/// The line that an archive begins with.
pub const OPENING: &'static str = "SIGCHAIN1\n";

// ---- parts

// A number, which has four octets, and what follows.
#[tactic(auto, unfolding(crate::specs::Grammar::number_at))]
fn number(bytes: &[u8]) -> Result<(u32, &[u8]), Unread>
    ensures ok { IfOk result (λ x. number_at bytes.now ≡ Ok (x.0, x.1.now)) }
    ensures err { IfErr result (λ e. number_at bytes.now ≡ Err e) }
{
    if bytes.len() < 4 {
        return Err(Unread::Left(bytes.len()));
    }
    let (front, rest) = bytes.split_at(4);
    let mut octets = [0u8; 4];
    octets.copy_from_slice(front);
    Ok((u32::from_be_bytes(octets), rest))
}

// As many octets, and what follows.
#[tactic(auto, unfolding(crate::specs::Grammar::octets_at))]
fn octets(count: u32, bytes: &[u8]) -> Result<(&[u8], &[u8]), Unread>
    ensures ok { IfOk result (λ x. octets_at count bytes.now ≡ Ok (x.0.now, x.1.now)) }
    ensures err { IfErr result (λ e. octets_at count bytes.now ≡ Err e) }
{
    let count = count as usize;
    if bytes.len() < count {
        return Err(Unread::Left(bytes.len()));
    }
    Ok(bytes.split_at(count))
}

// Octets behind their number, and what follows.
#[tactic(auto, unfolding(crate::specs::Grammar::counted_at))]
fn counted(bytes: &[u8]) -> Result<(&[u8], &[u8]), Unread>
    ensures ok { IfOk result (λ x. counted_at bytes.now ≡ Ok (x.0.now, x.1.now)) }
    ensures err { IfErr result (λ e. counted_at bytes.now ≡ Err e) }
{
    let (count, rest) = number(bytes)?;
    let (front, rest) = octets(count, rest)?;
    Ok((front, rest))
}

// As many octets, which are a text, and what follows.
#[tactic(auto, unfolding(crate::specs::Grammar::utf8_at))]
fn utf8(count: u32, bytes: &[u8]) -> Result<(&str, &[u8]), Unread>
    ensures ok { IfOk result (λ x. utf8_at count bytes.now ≡ Ok (x.0.now, x.1.now)) }
    ensures err { IfErr result (λ e. utf8_at count bytes.now ≡ Err e) }
{
    let (front, rest) = octets(count, bytes)?;
    match str::from_utf8(front) {
        Ok(text) => Ok((text, rest)),
        Err(_) => Err(Unread::Left(bytes.len())),
    }
}

// A text behind its length, and what follows.
#[tactic(auto, unfolding(crate::specs::Grammar::text_at))]
fn text(alloc: Global, bytes: &[u8]) -> Result<(Text, &[u8]), Unread>
    ensures ok { IfOk result (λ x. text_at bytes.now ≡ Ok (x.0, x.1.now)) }
    ensures err { IfErr result (λ e. e ≢ Unread.NoMemory → text_at bytes.now ≡ Err e) }
{
    let (count, rest) = number(bytes)?;
    match utf8(count, rest) {
        Ok((text, rest)) => Ok((Text::new(alloc, text)?, rest)),
        Err(e) => Err(e),
    }
}

// A byte string behind its length, and what follows.
fn byte_string(alloc: Global, bytes: &[u8]) -> Result<(Bytes, &[u8]), Unread>
    ensures ok { IfOk result (λ x. counted_at bytes.now ≡ Ok (x.0, x.1.now)) }
    ensures err { IfErr result (λ e. e ≢ Unread.NoMemory → counted_at bytes.now ≡ Err e) }
{
    let (front, rest) = counted(bytes)?;
    Ok((Bytes::new(alloc, front)?, rest))
}

// ---- roles

// A document that is there, and what follows.
fn some_document(alloc: Global, bytes: &[u8]) -> Result<(Option<Bytes>, &[u8]), Unread>
    ensures ok { IfOk result (λ x. some_at bytes.now ≡ Ok (x.0, x.1.now)) }
    ensures err { IfErr result (λ e. e ≢ Unread.NoMemory → some_at bytes.now ≡ Err e) }
{
    let (document, rest) = byte_string(alloc, bytes)?;
    Ok((Some(document), rest))
}

// 00, or 01 and a document, and what follows.
#[tactic(auto, unfolding(crate::specs::Spelling::document_at))]
fn document(alloc: Global, bytes: &[u8]) -> Result<(Option<Bytes>, &[u8]), Unread>
    ensures ok { IfOk result (λ x. document_at bytes.now ≡ Ok (x.0, x.1.now)) }
    ensures err { IfErr result (λ e. e ≢ Unread.NoMemory → document_at bytes.now ≡ Err e) }
{
    match bytes {
        [0, rest @ ..] => Ok((None, rest)),
        [1, rest @ ..] => Ok(some_document(alloc, rest)?),
        _ => Err(Unread::Left(bytes.len())),
    }
}

// A visit of the search, with its document, and what follows.
#[tactic(auto, unfolding(crate::specs::Spelling::role_at))]
fn role(alloc: Global, bytes: &[u8]) -> Result<(RoleDoc, &[u8]), Unread>
    ensures ok { IfOk result (λ x. role_at bytes.now ≡ Ok (x.0, x.1.now)) }
    ensures err { IfErr result (λ e. e ≢ Unread.NoMemory → role_at bytes.now ≡ Err e) }
{
    let (name, rest) = text(alloc, bytes)?;
    let (delegator, rest) = text(alloc, rest)?;
    let (bytes, rest) = document(alloc, rest)?;
    Ok((
        RoleDoc {
            name,
            delegator,
            bytes,
        },
        rest,
    ))
}

// ---- lists

// So many byte strings, and what follows.
fn byte_strings(alloc: Global, count: u32, bytes: &[u8]) -> Result<(Sequence<Bytes>, &[u8]), Unread>
    ensures ok { IfOk result (λ x. times_at counted_at count bytes.now ≡ Ok (x.0, x.1.now)) }
    ensures err { IfErr result (λ e. e ≢ Unread.NoMemory → times_at counted_at count bytes.now ≡ Err e) }
{
    let mut list = Sequence::new(alloc);
    let mut rest = bytes;
    'items: for _ in 0..count {
        let (item, after) = byte_string(alloc, rest)?;
        list.push(item)?;
        rest = after;
    }
    Ok((list, rest))
}

// So many roles, and what follows.
fn roles(alloc: Global, count: u32, bytes: &[u8]) -> Result<(Sequence<RoleDoc>, &[u8]), Unread>
    ensures ok { IfOk result (λ x. times_at role_at count bytes.now ≡ Ok (x.0, x.1.now)) }
    ensures err { IfErr result (λ e. e ≢ Unread.NoMemory → times_at role_at count bytes.now ≡ Err e) }
{
    let mut list = Sequence::new(alloc);
    let mut rest = bytes;
    'items: for _ in 0..count {
        let (item, after) = role(alloc, rest)?;
        list.push(item)?;
        rest = after;
    }
    Ok((list, rest))
}

fn root_list(alloc: Global, bytes: &[u8]) -> Result<(Sequence<Bytes>, &[u8]), Unread>
    ensures ok { IfOk result (λ x. list_at counted_at bytes.now ≡ Ok (x.0, x.1.now)) }
    ensures err { IfErr result (λ e. e ≢ Unread.NoMemory → list_at counted_at bytes.now ≡ Err e) }
{
    let (count, rest) = number(bytes)?;
    Ok(byte_strings(alloc, count, rest)?)
}

fn role_list(alloc: Global, bytes: &[u8]) -> Result<(Sequence<RoleDoc>, &[u8]), Unread>
    ensures ok { IfOk result (λ x. list_at role_at bytes.now ≡ Ok (x.0, x.1.now)) }
    ensures err { IfErr result (λ e. e ≢ Unread.NoMemory → list_at role_at bytes.now ≡ Err e) }
{
    let (count, rest) = number(bytes)?;
    Ok(roles(alloc, count, rest)?)
}

// ---- the archive

// What follows the opening line.
#[tactic(auto, unfolding(crate::specs::Spelling::opening_at))]
fn behind_opening(bytes: &[u8]) -> Result<&[u8], Unread>
    ensures ok { IfOk result (λ rest. opening_at bytes.now ≡ Ok rest.now) }
    ensures err { IfErr result (λ e. opening_at bytes.now ≡ Err e) }
{
    match bytes.strip_prefix(OPENING.as_bytes()) {
        Some(rest) => Ok(rest),
        None => Err(Unread::Left(bytes.len())),
    }
}

// Nothing follows.
fn end(rest: &[u8]) -> Result<(), Unread>
    ensures { result ≡ ended_at {A = Unit {0}} tt rest.now }
{
    if rest.is_empty() {
        Ok(())
    } else {
        Err(Unread::Left(rest.len()))
    }
}

// The roots, the timestamp and the snapshot, and what follows.
#[tactic(auto, unfolding(crate::specs::Spelling::documents_at))]
fn documents(alloc: Global, bytes: &[u8]) -> Result<(Sequence<Bytes>, Bytes, Bytes, &[u8]), Unread>
    ensures ok { IfOk result (λ x. documents_at bytes.now ≡ Ok (((x.0, x.1), x.2), x.3.now)) }
    ensures err { IfErr result (λ e. e ≢ Unread.NoMemory → documents_at bytes.now ≡ Err e) }
{
    let (roots, rest) = root_list(alloc, bytes)?;
    let (timestamp, rest) = byte_string(alloc, rest)?;
    let (snapshot, rest) = byte_string(alloc, rest)?;
    Ok((roots, timestamp, snapshot, rest))
}

// What the bytes are the spelling of.
#[tactic(auto, unfolding(crate::specs::Spelling::parts_of))]
fn parts(alloc: Global, bytes: &[u8]) -> Result<Archive, Unread>
    ensures ok { IfOk result (λ a. parts_of bytes.now ≡ Ok a) }
    ensures err { IfErr result (λ e. e ≢ Unread.NoMemory → parts_of bytes.now ≡ Err e) }
{
    let rest = behind_opening(bytes)?;
    let (roots, timestamp, snapshot, rest) = documents(alloc, rest)?;
    let (roles, rest) = role_list(alloc, rest)?;
    let (file, rest) = byte_string(alloc, rest)?;
    end(rest)?;
    Ok(Archive {
        roots,
        timestamp,
        snapshot,
        roles,
        file,
    })
}

/// The chain that bytes are the spelling of, but for its target. Errors: `Format`.
pub(crate) fn archive_in(alloc: Global, bytes: &[u8]) -> Result<Archive, ArchiveError>
    ensures ok { IfOk result (λ a. in_format (length bytes.now) (parts_of bytes.now) ≡ Ok a) }
    ensures err { IfErr result (λ e. e ≢ ArchiveError.NoMemory → in_format (length bytes.now) (parts_of bytes.now) ≡ Err e) }
{
    match parts(alloc, bytes) {
        Ok(archive) => Ok(archive),
        Err(Unread::Left(left)) => Err(ArchiveError::Format {
            at: bytes.len().saturating_sub(left) as u64,
        }),
        Err(Unread::NoMemory) => Err(ArchiveError::NoMemory),
    }
}
