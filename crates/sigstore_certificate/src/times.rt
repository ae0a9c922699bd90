// The key of a certificate's issuer at the last of several times, with one search for each that differs.
ghost use Rattle.std.specs.Prelude.{◌≡◌, ◌≢◌, List, [], ◌∷◌, ◌++◌, Ok, Err, Some, None, IfOk, IfErr, IfSome, OnOk};
ghost use Rattle.std.specs.BTreeSet.{IsEmpty};
ghost use Rattle.sigstore_certificate.specs.Certified.{at_each, issued_at_each};
ghost use Rattle.sigstore_certificate.specs.Given.{trust_of, issuer_in};
ghost use Rattle.sigstore_certificate.specs.Times.{IsIssuedAt, AreIssued, IsKept};

use crate::error::CertificateRefusal;
use crate::given::CertificateInputs;
use crate::path::issuer_at;
use foundation::NoMemory;
use jiff::Timestamp;
use sigstore_keys::CryptoProvider;
use sigstore_types_parts::Bytes;
use std::alloc::Global;
use std::collections::BTreeSet;

// Puts a time to those that were judged.
fn remember<C: CryptoProvider>(
    given: &CertificateInputs<C>,
    judged: &mut BTreeSet<Timestamp>,
    time: Timestamp,
) -> Result<(), NoMemory>
    requires before { AreIssued (issuer_in C.accepts given.now) judged.old.keys }
    requires valid { IsIssuedAt (issuer_in C.accepts given.now) time }
    ensures { OnOk result (AreIssued (issuer_in C.accepts given.now) judged.new.keys) }
{
    judged.insert(time)?;
    Ok(())
}

// Judges the certificate at a time, unless that was done: then there is no key.
fn judge_once<C: CryptoProvider>(
    alloc: Global,
    given: &CertificateInputs<C>,
    judged: &mut BTreeSet<Timestamp>,
    time: Timestamp,
) -> Result<Option<Bytes>, CertificateRefusal>
    requires before { AreIssued (issuer_in C.accepts given.now) judged.old.keys }
    ensures valid { OnOk result (IsIssuedAt (issuer_in C.accepts given.now) time) }
    ensures after { OnOk result (AreIssued (issuer_in C.accepts given.now) judged.new.keys) }
    ensures key { IfOk result (λ found. IfSome found (λ key. issuer_in C.accepts given.now time ≡ Ok key)) }
    ensures err { IfErr result (λ e. e ≢ CertificateRefusal.NoMemory → issuer_in C.accepts given.now time ≡ Err e) }
{
    if judged.contains(&time) {
        return Ok(None);
    }
    let issuer = issuer_at(alloc, given, time)?;
    remember(given, judged, time)?;
    Ok(Some(issuer))
}

// What was found, where it was found at the last time, or else what was there.
fn kept(
    before: Option<Bytes>,
    found: Option<Bytes>,
    time: Timestamp,
    last: Timestamp,
) -> Option<Bytes>
    ensures { IsKept before found time last result }
{
    if time == last && found.is_some() {
        found
    } else {
        before
    }
}

// Judges the certificate at the times before the last one, and gives the issuer's key at the last where it is one of
// these.
fn issuer_before<C: CryptoProvider>(
    alloc: Global,
    given: &CertificateInputs<C>,
    earlier: &[Timestamp],
    last: Timestamp,
) -> Result<Option<Bytes>, CertificateRefusal>
    ensures each { OnOk result (at_each (issuer_in C.accepts given.now) (earlier.now ++ last ∷ []) []
        ≡ at_each (issuer_in C.accepts given.now) (last ∷ []) []) }
    ensures key { IfOk result (λ found. IfSome found (λ key. issuer_in C.accepts given.now last ≡ Ok key)) }
    ensures err { IfErr result (λ e. e ≢ CertificateRefusal.NoMemory → at_each (issuer_in C.accepts given.now) (earlier.now ++ last ∷ []) [] ≡ Err e) }
{
    let mut judged = BTreeSet::new(alloc);
    let mut issuer = None;
    'times: for time in earlier {
        let found = judge_once(alloc, given, &mut judged, *time)?;
        issuer = kept(issuer, found, *time, last);
    }
    Ok(issuer)
}

// The issuer's key at the last time: it was found already, or a search finds it.
fn issuer_at_last<C: CryptoProvider>(
    alloc: Global,
    given: &CertificateInputs<C>,
    found: Option<Bytes>,
    last: Timestamp,
) -> Result<Bytes, CertificateRefusal>
    requires { IfSome found (λ key. issuer_in C.accepts given.now last ≡ Ok key) }
    ensures ok { IfOk result (λ key. at_each (issuer_in C.accepts given.now) (last ∷ []) [] ≡ Ok key) }
    ensures err { IfErr result (λ e. e ≢ CertificateRefusal.NoMemory → at_each (issuer_in C.accepts given.now) (last ∷ []) [] ≡ Err e) }
{
    match found {
        Some(issuer) => Ok(issuer),
        None => match issuer_at(alloc, given, last) {
            Ok(issuer) => Ok(issuer),
            Err(refusal) => Err(refusal),
        },
    }
}

// The issuer's key at the last time, where there is one at each.
fn issuer_behind<C: CryptoProvider>(
    alloc: Global,
    given: &CertificateInputs<C>,
    earlier: &[Timestamp],
    last: Timestamp,
) -> Result<Bytes, CertificateRefusal>
    ensures ok { IfOk result (λ key. at_each (issuer_in C.accepts given.now) (earlier.now ++ last ∷ []) [] ≡ Ok key) }
    ensures err { IfErr result (λ e. e ≢ CertificateRefusal.NoMemory → at_each (issuer_in C.accepts given.now) (earlier.now ++ last ∷ []) [] ≡ Err e) }
{
    match issuer_before(alloc, given, earlier, last) {
        Ok(found) => match issuer_at_last(alloc, given, found, last) {
            Ok(issuer) => Ok(issuer),
            Err(refusal) => Err(refusal),
        },
        Err(refusal) => Err(refusal),
    }
}

/// The key of the certificate's issuer at the last of the times; the certificate has to be valid at each: else one
/// good time would let whoever has its key sign at any other. A time that is told again costs a look-up and no search,
/// and of what a search takes nothing stays. Errors: those of `issuer_at` at the first time that has one.
pub(crate) fn issuer_at_each<C: CryptoProvider>(
    alloc: Global,
    given: &CertificateInputs<C>,
    times: &[Timestamp],
) -> Result<Bytes, CertificateRefusal>
    ensures ok { IfOk result (λ key.
        issued_at_each (trust_of C.accepts given.now) given.now.info.now given.now.leaf.now given.now.intermediates.now times.now ≡ Ok key) }
    ensures err { IfErr result (λ e. e ≢ CertificateRefusal.NoMemory →
        issued_at_each (trust_of C.accepts given.now) given.now.info.now given.now.leaf.now given.now.intermediates.now times.now ≡ Err e) }
{
    match times {
        [earlier @ .., last] => match issuer_behind(alloc, given, earlier, *last) {
            Ok(issuer) => Ok(issuer),
            Err(refusal) => Err(refusal),
        },
        [] => Ok(Bytes::new(alloc, &[])?),
    }
}
