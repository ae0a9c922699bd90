// What a log signs for a certificate (RFC 6962, 3.2).
ghost use Rattle.std.specs.Prelude.{◌≡◌, ◌≢◌, ◌++◌, ◌<◌, IfOk, IfErr, OnOk, Ok, Err, Some, option_copied};
ghost use Rattle.der_grammar.specs.Grammar.{framed};
ghost use Rattle.spki_core.specs.Reading.{of_der};
ghost use Rattle.x509_views.specs.Scts.{signed_front, signed_of, IsSctList, three_octets, two_octets};
ghost use Rattle.x509_views.specs.Precertificates.{written_anew, precert_of};

use crate::certificate::CertView;
use crate::extension::find;
use crate::sct::Sct;
use der_core::{OctetString, Tag, append_framed, tag};
use foundation::NoMemory;
use spki_core::{X509Error, read};
use std::alloc::Global;

/// The contents of the identifier 1.3.6.1.4.1.11129.2.4.2.
const SCT_OID: [u8; 10] = [43, 6, 1, 4, 1, 214, 121, 2, 4, 2];

fn framed(alloc: Global, tag: Tag, contents: &[u8]) -> Result<OctetString, X509Error>
    ensures ok { IfOk result (λ out. framed tag.0 contents.now ≡ Ok out) }
    ensures err { IfErr result (λ e. e ≢ X509Error.NoMemory → of_der (framed tag.0 contents.now) ≡ Err e) }
{
    let mut out = OctetString::empty(alloc);
    append_framed(tag, contents, &mut out)?;
    Ok(out)
}

fn joined(alloc: Global, first: &[u8], second: &[u8]) -> Result<OctetString, X509Error>
    ensures ok { IfOk result (λ out. out ≡ first.now ++ second.now) }
    ensures err { IfErr result (λ e. e ≡ X509Error.NoMemory) }
{
    let mut out = OctetString::empty(alloc);
    out.append(first)?;
    out.append(second)?;
    Ok(out)
}

/// A signed part of what stands before its extensions, and of these.
#[tactic(auto, unfolding(crate::specs::Precertificates::written_anew))]
fn written_anew(alloc: Global, front: &[u8], list: &[u8]) -> Result<OctetString, X509Error>
    ensures ok { IfOk result (λ out. written_anew front.now list.now ≡ Ok out) }
    ensures err { IfErr result (λ e. e ≢ X509Error.NoMemory → of_der (written_anew front.now list.now) ≡ Err e) }
{
    let sequence = framed(alloc, Tag(tag::SEQUENCE), list)?;
    let extensions = framed(alloc, Tag(tag::CONSTRUCTED_3), sequence.as_bytes())?;
    let contents = joined(alloc, front, extensions.as_bytes())?;
    let out = framed(alloc, Tag(tag::SEQUENCE), contents.as_bytes())?;
    Ok(out)
}

fn copy_of(alloc: Global, bytes: &[u8]) -> Result<OctetString, X509Error>
    ensures ok { IfOk result (λ out. out ≡ bytes.now) }
    ensures err { IfErr result (λ e. e ≡ X509Error.NoMemory) }
{
    Ok(OctetString::new(alloc, bytes)?)
}

fn precert_in(
    alloc: Global,
    tbs: &[u8],
    front: &[u8],
    list: &[u8],
) -> Result<OctetString, X509Error>
    ensures ok { IfOk result (λ out. precert_of tbs.now front.now (Some list.now) ≡ Ok out) }
    ensures err { IfErr result (λ e. e ≢ X509Error.NoMemory → precert_of tbs.now front.now (Some list.now) ≡ Err e) }
{
    match find(list, SCT_OID.as_slice()) {
        Some(found) => {
            let kept = joined(alloc, read::before(list, found.from), found.behind)?;
            let out = written_anew(alloc, front, kept.as_bytes())?;
            Ok(out)
        }
        None => Ok(copy_of(alloc, tbs)?),
    }
}

/// The signed part that the log saw: without the extension that holds the timestamps.
pub fn precert_tbs(alloc: Global, cert: &CertView) -> Result<OctetString, X509Error>
    ensures ok { IfOk result (λ out. precert_of cert.now.tbs.now cert.now.front.now (option_copied cert.now.extensions) ≡ Ok out) }
    ensures err { IfErr result (λ e. e ≢ X509Error.NoMemory → precert_of cert.now.tbs.now cert.now.front.now (option_copied cert.now.extensions) ≡ Err e) }
{
    match cert.extensions {
        Some(list) => Ok(precert_in(alloc, cert.tbs, cert.front, list)?),
        None => Ok(copy_of(alloc, cert.tbs)?),
    }
}

fn signed_front(
    alloc: Global,
    sct: &Sct,
    issuer_key_hash: &[u8; 32],
) -> Result<OctetString, NoMemory>
    ensures { IfOk result (λ out. out ≡ signed_front sct.now issuer_key_hash.now) }
{
    let mut out = OctetString::empty(alloc);
    out.append(&[0, 0])?;
    out.append(&sct.milliseconds().to_be_bytes())?;
    out.append(&[0, 1])?;
    out.append(issuer_key_hash)?;
    Ok(out)
}

fn append_counted(out: &mut OctetString, count: &[u8], octets: &[u8]) -> Result<(), NoMemory>
    ensures { OnOk result (out.new ≡ out.old ++ count.now ++ octets.now) }
{
    out.append(count)?;
    out.append(octets)?;
    Ok(())
}

/// What the log signed: the timestamp, the SHA-256 value of the issuer's key, and the signed part
/// that `precert_tbs` gives; SctList exactly where this has 2^24 octets or more.
#[tactic(auto, unfolding(crate::specs::Scts::signed_of))]
pub fn sct_signed_bytes(
    alloc: Global,
    sct: &Sct,
    issuer_key_hash: &[u8; 32],
    tbs: &[u8],
) -> Result<OctetString, X509Error>
    ensures ok { IfOk result (λ out. signed_of sct.now issuer_key_hash.now tbs.now ≡ Ok out) }
    ensures err { IfErr result (λ e. e ≢ X509Error.NoMemory → signed_of sct.now issuer_key_hash.now tbs.now ≡ Err e) }
    ensures cause { IfErr result IsSctList }
{
    if tbs.len() >= 16777216 {
        return Err(X509Error::SctList);
    }
    let extensions = sct.extensions();
    let mut out = signed_front(alloc, sct, issuer_key_hash)?;
    append_counted(&mut out, &three_octets(tbs.len()), tbs)?;
    append_counted(&mut out, &two_octets(extensions.len()), extensions)?;
    Ok(out)
}

fn three_octets(count: usize) -> [u8; 3]
    requires { count < 16777216 }
    ensures { result ≡ three_octets count }
{
    [
        (count / 65536) as u8,
        (count / 256 % 256) as u8,
        (count % 256) as u8,
    ]
}

fn two_octets(count: usize) -> [u8; 2]
    requires { count < 65536 }
    ensures { result ≡ two_octets count }
{
    [(count / 256) as u8, (count % 256) as u8]
}
