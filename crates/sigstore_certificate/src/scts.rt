// The timestamps of logs of certificates in a certificate (RFC 6962, sections 3.2 and 3.3).
ghost use Rattle.std.specs.Prelude.{◌≡◌, ◌≢◌, [], Ok, Err, IfOk, IfErr, OnOk, filter_map, option_copied};
ghost use Rattle.std.specs.List.{cons_option, list_any};
ghost use Rattle.sha2.specs.Sha256.{sha256};
ghost use Rattle.x509_views.specs.Precertificates.{sct_oid, precert_of};
ghost use Rattle.x509_views.specs.Scts.{signed_of};
ghost use Rattle.x509_views.specs.Views.{certificate_parts};
ghost use Rattle.sigstore_keys.specs.Good.{is_good};
ghost use Rattle.sigstore_keys.specs.Key.{same_sort};
ghost use Rattle.sigstore_keys.specs.Keyring.{has_key_of, key_at};
ghost use Rattle.sigstore_keys.specs.Distinct.{with_id, each_once, count_distinct, is_enough};
ghost use Rattle.sigstore_certificate.specs.Scts.{scts_in, listed, scts_of, scheme_of, has_scheme, some_scheme, is_of_logs, some_log, written, signed_part_of};
ghost use Rattle.sigstore_certificate.specs.Given.{is_good_in};
ghost use Rattle.sigstore_certificate.specs.Scts.{key_under, log_key, good_over, good_by, good_under, is_good_sct, promising, promising_logs, enough_logs, scts_judged};

use crate::digitally_signed::signed_part;
use crate::error::{CertificateRefusal, SctRule};
use crate::given::SctInputs;
use certificate_fields::extension_value;
use der_core::OctetString;
use foundation::{NoMemory, Sequence};
use sigstore_keys::{
    CryptoProvider, DistinctIds, Keyring, SigningScheme, Threshold, VerificationKey, sha256,
};
use sigstore_types_parts::{Bytes, Sha256Hash, SignatureBytes, at_millisecond};
use std::alloc::Global;
use x509_views::{CertView, Sct, X509Error, sct_list, sct_signed_bytes};

// The contents of the identifier 1.3.6.1.4.1.11129.2.4.2 (RFC 6962, 3.3).
const SCT_OID: [u8; 10] = [43, 6, 1, 4, 1, 214, 121, 2, 4, 2];

fn listed(alloc: Global, value: Option<&[u8]>) -> Result<Sequence<Sct>, CertificateRefusal>
    ensures ok { IfOk result (λ scts. listed (option_copied value.entry) ≡ Ok scts) }
    ensures err { IfErr result (λ e. e ≢ CertificateRefusal.NoMemory → listed (option_copied value.entry) ≡ Err e) }
{
    let Some(value) = value else {
        return Err(CertificateRefusal::Sct(SctRule::List));
    };
    match sct_list(alloc, value) {
        Ok(scts) => Ok(Sequence::from_vec(scts)),
        Err(X509Error::NoMemory) => Err(CertificateRefusal::NoMemory),
        Err(_) => Err(CertificateRefusal::Sct(SctRule::List)),
    }
}

// Without a list no log promised to show the certificate.
fn scts_of(alloc: Global, certificate: &CertView) -> Result<Sequence<Sct>, CertificateRefusal>
    ensures ok { IfOk result (λ scts. scts_of (certificate_parts certificate.now) ≡ Ok scts) }
    ensures err { IfErr result (λ e. e ≢ CertificateRefusal.NoMemory → scts_of (certificate_parts certificate.now) ≡ Err e) }
{
    match listed(
        alloc,
        extension_value(certificate.each_extension(), SCT_OID.as_slice()),
    ) {
        Ok(scts) => Ok(scts),
        Err(e) => Err(e),
    }
}

// The scheme of a hash and a signature algorithm (RFC 5246, 7.4.1.4.1).
fn scheme_of(algorithm: [u8; 2]) -> Option<SigningScheme>
    ensures { result ≡ scheme_of algorithm }
{
    let algorithm = algorithm.as_slice();
    if algorithm == [4, 3].as_slice() {
        Some(SigningScheme::EcdsaP256Sha256)
    } else if algorithm == [5, 3].as_slice() {
        Some(SigningScheme::EcdsaP384Sha384)
    } else if algorithm == [4, 1].as_slice() {
        Some(SigningScheme::RsaPkcs1Sha256)
    } else if algorithm == [5, 1].as_slice() {
        Some(SigningScheme::RsaPkcs1Sha384)
    } else if algorithm == [6, 1].as_slice() {
        Some(SigningScheme::RsaPkcs1Sha512)
    } else {
        None
    }
}

fn has_scheme(sct: &Sct) -> bool
    ensures { result ≡ has_scheme sct.now }
{
    scheme_of(sct.algorithm()).is_some()
}

fn has_schemes(scts: &[Sct]) -> bool
    ensures { result ≡ list_any has_scheme scts.now }
{
    scts.iter().any(has_scheme)
}

// Without a scheme nothing could decide whether a log signed.
fn check_scheme(scts: &[Sct]) -> Result<(), CertificateRefusal>
    ensures { result ≡ some_scheme scts.now }
{
    if has_schemes(scts) {
        Ok(())
    } else {
        Err(CertificateRefusal::Sct(SctRule::Scheme))
    }
}

// Whether some trusted log's key is of the sort that a timestamp's scheme asks for.
fn is_of_logs(ct_logs: &Keyring, sct: &Sct) -> bool
    ensures { result ≡ is_of_logs ct_logs.now sct.now }
{
    match scheme_of(sct.algorithm()) {
        Some(scheme) => ct_logs.has_key_of(scheme),
        None => false,
    }
}

fn any_is_of_logs(ct_logs: &Keyring, scts: &[Sct]) -> bool
    ensures { result ≡ list_any (is_of_logs ct_logs.now) scts.now }
{
    scts.iter().any(|sct| is_of_logs(ct_logs, sct))
}

// Some trusted log has a key of a scheme's sort; else the trusted logs aren't those of such certificates, and that
// is no fault of the certificate.
fn check_log(ct_logs: &Keyring, scts: &[Sct]) -> Result<(), CertificateRefusal>
    ensures { result ≡ some_log ct_logs.now scts.now }
{
    if any_is_of_logs(ct_logs, scts) {
        Ok(())
    } else {
        Err(CertificateRefusal::InvalidTrustRoot)
    }
}

// The certificate's signed part without its timestamps, which is written once for all of them. A length that three
// octets can't tell is no log's to sign.
fn signed_part_of(alloc: Global, certificate: &CertView) -> Result<OctetString, CertificateRefusal>
    ensures ok { IfOk result (λ tbs. signed_part_of (certificate_parts certificate.now) ≡ Ok tbs) }
    ensures err { IfErr result (λ e. e ≢ CertificateRefusal.NoMemory → signed_part_of (certificate_parts certificate.now) ≡ Err e) }
{
    let tbs = signed_part(alloc, certificate)?;
    if tbs.as_bytes().len() < 16777216 {
        Ok(tbs)
    } else {
        Err(CertificateRefusal::Sct(SctRule::Precertificate))
    }
}

// The key under the scheme, where it is of the scheme's sort.
fn key_under(
    alloc: Global,
    scheme: SigningScheme,
    key: Option<&VerificationKey>,
) -> Result<Option<VerificationKey>, NoMemory>
    ensures { IfOk result (λ found. found ≡ key_under scheme (option_copied key.entry)) }
{
    match key {
        Some(key) if key.scheme.key_algorithm() == scheme.key_algorithm() => {
            Ok(Some(VerificationKey {
                scheme,
                key: Bytes::new(alloc, key.key.as_bytes())?,
            }))
        }
        _ => Ok(None),
    }
}

// The key of the timestamp's log, which is used at its time: an old key of a log, or one that is yet to be used,
// may be in other hands.
fn log_key(
    alloc: Global,
    ct_logs: &Keyring,
    scheme: SigningScheme,
    sct: &Sct,
) -> Result<Option<VerificationKey>, NoMemory>
    ensures { IfOk result (λ found. found ≡ key_under scheme (log_key ct_logs.now sct.now)) }
{
    let id = Sha256Hash::new(*sct.log_id());
    key_under(
        alloc,
        scheme,
        ct_logs.key_at(&id, at_millisecond(sct.milliseconds())),
    )
}

// Whether a log's key makes a timestamp's signature good, over what the log signed.
fn is_good_by<C: CryptoProvider>(
    alloc: Global,
    provider: &C,
    key: &VerificationKey,
    key_hash: &[u8; 32],
    tbs: &[u8],
    sct: &Sct,
) -> Result<bool, NoMemory>
    ensures { IfOk result (λ good. good ≡ good_over (C.accepts provider.now) key.now (signed_of sct.now key_hash.now tbs.now) sct.now.signature) }
{
    match sct_signed_bytes(alloc, sct, key_hash, tbs) {
        Ok(message) => {
            let signature = SignatureBytes::from_bytes(alloc, sct.signature())?;
            Ok(key.verify(provider, message.as_bytes(), &signature).is_ok())
        }
        Err(X509Error::NoMemory) => Err(NoMemory),
        Err(_) => Ok(false),
    }
}

// Whether a timestamp is good. What was signed is written only where a trusted log's key could have signed it.
fn is_good<C: CryptoProvider>(
    alloc: Global,
    given: &SctInputs<C>,
    sct: &Sct,
) -> Result<bool, NoMemory>
    ensures { IfOk result (λ good. good ≡ is_good_in C.accepts given.now sct.now) }
{
    let Some(scheme) = scheme_of(sct.algorithm()) else {
        return Ok(false);
    };
    match log_key(alloc, given.ct_logs, scheme, sct)? {
        Some(key) => Ok(is_good_by(alloc, given.provider, &key, given.key_hash, given.tbs, sct)?),
        None => Ok(false),
    }
}

// The logs of those before, and that of a timestamp, where it is good.
fn add_log<C: CryptoProvider>(
    alloc: Global,
    given: &SctInputs<C>,
    sct: &Sct,
    logs: &mut DistinctIds,
) -> Result<(), NoMemory>
    ensures { OnOk result (logs.new.ids ≡ each_once logs.old.ids (cons_option (promising (is_good_in C.accepts given.now) sct.now) [])) }
{
    if is_good(alloc, given, sct)? {
        logs.add(alloc, sct.log_id())?;
    }
    Ok(())
}

// How many different logs have a good timestamp: one that stands twice is one given.
fn promising_logs<C: CryptoProvider>(
    alloc: Global,
    given: &SctInputs<C>,
    scts: &[Sct],
) -> Result<u64, NoMemory>
    ensures { IfOk result (λ count. count ≡ promising_logs (is_good_in C.accepts given.now) scts.now) }
{
    let mut logs = DistinctIds::new(alloc);
    'scts: for sct in scts {
        add_log(alloc, given, sct, &mut logs)?;
    }
    Ok(logs.count())
}

// As many logs as are asked for: fewer could hide what was issued.
fn check_count(asked: Threshold, found: u64) -> Result<u64, CertificateRefusal>
    ensures { result ≡ enough_logs asked found }
{
    if asked.is_met_by(found) {
        Ok(found)
    } else {
        Err(CertificateRefusal::Sct(SctRule::TooFew {
            asked: asked.number(),
            found,
        }))
    }
}

/// How many different trusted logs promised the certificate, by the key of its issuer; as many as are asked for, or
/// more. Errors, in order: `Sct` where there is no list of timestamps that is read, and where none of them has a scheme;
/// `InvalidTrustRoot` where no trusted log has a key of such a sort; `Sct` where what was signed is too long, and where
/// fewer logs have a good timestamp, by such a key that is used at its time.
#[tactic(auto, unfolding(crate::specs::Scts::scts_judged))]
pub(crate) fn check_scts<C: CryptoProvider>(
    alloc: Global,
    provider: &C,
    ct_logs: &Keyring,
    asked: Threshold,
    certificate: &CertView,
    issuer_spki: &[u8],
) -> Result<u64, CertificateRefusal>
    ensures ok { IfOk result (λ count. scts_judged (C.accepts provider.now) ct_logs.now asked (certificate_parts certificate.now) issuer_spki.now ≡ Ok count) }
    ensures err { IfErr result (λ e. e ≢ CertificateRefusal.NoMemory →
        scts_judged (C.accepts provider.now) ct_logs.now asked (certificate_parts certificate.now) issuer_spki.now ≡ Err e) }
{
    let scts = scts_of(alloc, certificate)?;
    check_scheme(scts.as_slice())?;
    check_log(ct_logs, scts.as_slice())?;
    let tbs = signed_part_of(alloc, certificate)?;
    let key_hash = sha256(issuer_spki);
    let given = SctInputs {
        provider,
        ct_logs,
        key_hash: key_hash.as_array(),
        tbs: tbs.as_bytes(),
    };
    let found = promising_logs(alloc, &given, scts.as_slice())?;
    match check_count(asked, found) {
        Ok(count) => Ok(count),
        Err(refusal) => Err(refusal),
    }
}
