// Lists of signed certificate timestamps (RFC 6962, 3.3).
ghost use Rattle.std.specs.Prelude.{◌≡◌, ◌≢◌, ◌<◌, ◌≤◌, IfOk, IfErr, Ok, Err, length};
ghost use Rattle.std.specs.Int.{w64, from_be_bytes};
ghost use Rattle.spki_core.specs.declared.error.X509Error.TheVariants.{SctList as NoList};
ghost use Rattle.spki_core.specs.Reading.{contents_at};
ghost use Rattle.x509_views.specs.Scts.{octets_at, vector_at, ended, behind_version, head_at, sct_of, item_at, scts_of, in_list, list_in, sct_list_of, IsSctList};

use crate::sct::Sct;
use der_core::{OctetString, tag};
use spki_core::{X509Error, read};
use std::alloc::Global;

/// As many octets, and what follows.
fn octets(count: usize, bytes: &[u8]) -> Result<(&[u8], &[u8]), X509Error>
    ensures ok { IfOk result (λ x. octets_at count bytes.now ≡ Ok (x.0.now, x.1.now)) }
    ensures err { IfErr result (λ e. (e ≡ NoList) × (octets_at count bytes.now ≡ Err NoList)) }
    ensures count { IfOk result (λ x. length x.0.now ≡ count) }
    ensures rest { IfOk result (λ x. length x.1.now ≤ length bytes.now) }
{
    if bytes.len() < count {
        return Err(X509Error::SctList);
    }
    Ok(bytes.split_at(count))
}

/// An array of octets, and what follows.
fn array<const N: usize>(bytes: &[u8]) -> Result<([u8; N], &[u8]), X509Error>
    ensures ok { IfOk result (λ x. octets_at N bytes.now ≡ Ok (x.0, x.1.now)) }
    ensures err { IfErr result (λ e. (e ≡ NoList) × (octets_at N bytes.now ≡ Err NoList)) }
{
    let (front, rest) = octets(N, bytes)?;
    let mut all = [0u8; N];
    all.copy_from_slice(front);
    Ok((all, rest))
}

/// Octets behind their number, and what follows.
fn vector(bytes: &[u8]) -> Result<(&[u8], &[u8]), X509Error>
    ensures ok { IfOk result (λ x. vector_at bytes.now ≡ Ok (x.0.now, x.1.now)) }
    ensures err { IfErr result (λ e. (e ≡ NoList) × (vector_at bytes.now ≡ Err NoList)) }
    ensures short { IfOk result (λ x. length x.0.now < 65536) }
    ensures rest { IfOk result (λ x. length x.1.now < length bytes.now) }
{
    match bytes {
        [high, low, rest @ ..] => {
            let (front, rest) = octets(256 * *high as usize + *low as usize, rest)?;
            Ok((front, rest))
        }
        _ => Err(X509Error::SctList),
    }
}

fn end(rest: &[u8]) -> Result<(), X509Error>
    ensures exact { result ≡ ended {A = Unit {0}} tt rest.now }
    ensures cause { IfErr result (λ e. e ≡ NoList) }
{
    if rest.is_empty() {
        Ok(())
    } else {
        Err(X509Error::SctList)
    }
}

fn behind_version(bytes: &[u8]) -> Result<&[u8], X509Error>
    ensures ok { IfOk result (λ rest. behind_version bytes.now ≡ Ok rest.now) }
    ensures err { IfErr result (λ e. (e ≡ NoList) × (behind_version bytes.now ≡ Err NoList)) }
{
    match bytes {
        [0, rest @ ..] => Ok(rest),
        _ => Err(X509Error::SctList),
    }
}

/// The identifier of the log and the time, and what follows.
#[tactic(auto, unfolding(crate::specs::Scts::head_at))]
fn head(bytes: &[u8]) -> Result<([u8; 32], u64, &[u8]), X509Error>
    ensures ok { IfOk result (λ x. head_at bytes.now ≡ Ok ((x.0, x.1), x.2.now)) }
    ensures err { IfErr result (λ e. (e ≡ NoList) × (head_at bytes.now ≡ Err NoList)) }
{
    let rest = behind_version(bytes)?;
    let (log_id, rest) = array::<32>(rest)?;
    let (time, rest) = array::<8>(rest)?;
    Ok((log_id, u64::from_be_bytes(time), rest))
}

/// The timestamp of all the bytes.
#[tactic(auto, unfolding(crate::specs::Scts::sct_of))]
fn sct_in(alloc: Global, bytes: &[u8]) -> Result<Sct, X509Error>
    ensures ok { IfOk result (λ s. sct_of bytes.now ≡ Ok s) }
    ensures err { IfErr result (λ e. e ≢ X509Error.NoMemory → sct_of bytes.now ≡ Err e) }
    ensures cause { IfErr result IsSctList }
{
    let (log_id, milliseconds, rest) = head(bytes)?;
    let (extensions, rest) = vector(rest)?;
    let (algorithm, rest) = array::<2>(rest)?;
    let (signature, rest) = vector(rest)?;
    end(rest)?;
    let extensions = OctetString::new(alloc, extensions)?;
    let signature = OctetString::new(alloc, signature)?;
    Ok(Sct::from_parts(log_id, milliseconds, extensions, algorithm, signature))
}

/// A timestamp behind its length, and what follows.
#[tactic(auto, unfolding(crate::specs::Scts::item_at))]
fn item(alloc: Global, bytes: &[u8]) -> Result<(Sct, &[u8]), X509Error>
    ensures ok { IfOk result (λ x. item_at bytes.now ≡ Ok (x.0, x.1.now)) }
    ensures err { IfErr result (λ e. e ≢ X509Error.NoMemory → item_at bytes.now ≡ Err e) }
    ensures cause { IfErr result IsSctList }
    ensures shorter { IfOk result (λ x. length x.1.now < length bytes.now) }
{
    let (front, rest) = vector(bytes)?;
    let sct = sct_in(alloc, front)?;
    Ok((sct, rest))
}

fn items(alloc: Global, list: &[u8]) -> Result<Vec<Sct>, X509Error>
    ensures ok { IfOk result (λ v. scts_of list.now ≡ Ok v.items) }
    ensures err { IfErr result (λ e. e ≢ X509Error.NoMemory → scts_of list.now ≡ Err e) }
    ensures cause { IfErr result IsSctList }
{
    let mut scts = Vec::new(alloc);
    let mut rest = list;
    'items: while !rest.is_empty() {
        let (sct, after) = item(alloc, rest)?;
        scts.push(sct)?;
        rest = after;
    }
    Ok(scts)
}

fn octet_string(value: &[u8]) -> Result<(&[u8], &[u8]), X509Error>
    ensures ok { IfOk result (λ x. contents_at 4 value.now ≡ Ok (x.0.now, x.1.now)) }
    ensures err { IfErr result (λ e. (e ≡ NoList) × (in_list (contents_at 4 value.now) ≡ Err NoList)) }
{
    match read::contents(tag::OCTET_STRING, value) {
        Ok(contents) => Ok(contents),
        Err(_) => Err(X509Error::SctList),
    }
}

#[tactic(auto, unfolding(crate::specs::Scts::list_in))]
fn list_in(value: &[u8]) -> Result<&[u8], X509Error>
    ensures ok { IfOk result (λ list. list_in value.now ≡ Ok list.now) }
    ensures err { IfErr result (λ e. (e ≡ NoList) × (list_in value.now ≡ Err NoList)) }
{
    let (contents, rest) = octet_string(value)?;
    end(rest)?;
    let (list, rest) = vector(contents)?;
    end(rest)?;
    Ok(list)
}

/// The timestamps in an extension's value; SctList exactly where it holds no list of them.
#[tactic(auto, unfolding(crate::specs::Scts::sct_list_of))]
pub fn sct_list(alloc: Global, extension_value: &[u8]) -> Result<Vec<Sct>, X509Error>
    ensures ok { IfOk result (λ v. sct_list_of extension_value.now ≡ Ok v.items) }
    ensures err { IfErr result (λ e. e ≢ X509Error.NoMemory → sct_list_of extension_value.now ≡ Err e) }
    ensures cause { IfErr result IsSctList }
{
    let list = list_in(extension_value)?;
    let scts = items(alloc, list)?;
    Ok(scts)
}
