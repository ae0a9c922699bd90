// Whether one certificate was issued by the next.
ghost use Rattle.std.specs.Prelude.{◌≡◌, ◌+◌, ◌-◌, ◌^◌, ◌≤◌, min, option_copied};
ghost use Rattle.spki_core.specs.Spki.{spki_view_of};
ghost use Rattle.spki_core.specs.Views.{spki_parts};
ghost use Rattle.x509_views.specs.Views.{certificate_parts};
ghost use Rattle.sigstore_keys.specs.Pairs.{pair_of};
ghost use Rattle.path_core.specs.Links.{is_pair, scheme_of, good_under, is_signed, is_issued, links};
ghost use Rattle.path_core.specs.Seen.{IsKey};

use crate::seen::Seen;
use crate::steps::Steps;
use sigstore_keys::{
    CryptoProvider, SignatureAlgorithm, SigningScheme, validate_raw_public_key,
    webpki_verification_algs,
};
use x509_views::{CertView, SpkiView};

fn is_pair(pair: &SignatureAlgorithm, key_id: &[u8], signature_id: &[u8]) -> bool
    ensures { result ≡ is_pair key_id.now signature_id.now (pair_of pair.now) }
{
    pair.public_key_alg_id == key_id && pair.signature_alg_id == signature_id
}

// The scheme of a key's and a signature's identifier. A signature isn't judged by an algorithm of its own
// choice: the key's identifier has to go with it.
#[tactic(auto, unfolding(crate::specs::Links::scheme_of))]
fn scheme_of(key_id: &[u8], signature_id: &[u8]) -> Option<SigningScheme>
    ensures { result ≡ scheme_of key_id.now signature_id.now }
{
    let pairs = webpki_verification_algs();
    'pairs: for pair in &pairs {
        if is_pair(pair, key_id, signature_id) {
            return Some(pair.scheme);
        }
    }
    None
}

fn is_good_under<C: CryptoProvider>(
    provider: &C,
    scheme: Option<SigningScheme>,
    key: &[u8],
    signed: &CertView,
) -> bool
    ensures { result ≡ good_under (C.accepts provider.now) scheme key.now (certificate_parts signed.now) }
{
    match scheme {
        Some(scheme) => {
            validate_raw_public_key(scheme, key).is_ok()
                && provider.verify_raw(scheme, key, signed.tbs, signed.signature)
        }
        None => false,
    }
}

#[tactic(auto, unfolding(crate::specs::Links::is_signed))]
fn is_signed<C: CryptoProvider>(provider: &C, signed: &CertView, key: &SpkiView) -> bool
    ensures { result ≡ is_signed (C.accepts provider.now) (certificate_parts signed.now) (spki_parts key.now) }
{
    if key.unused_bits != 0 {
        return false;
    }
    let scheme = scheme_of(key.algorithm, signed.signature_algorithm);
    is_good_under(provider, scheme, key.key, signed)
}

// Whether the names meet and the signature is good under the issuer's key. Without the names a key that
// stands in several certificates would link what its holder issued under one name to another name; without
// the signature anybody could write a certificate below an issuer.
#[tactic(auto, unfolding(crate::specs::Links::is_issued))]
fn is_issued<C: CryptoProvider>(
    provider: &C,
    signed: &CertView,
    issuer: &CertView,
    key: Option<&SpkiView>,
) -> bool
    requires key { IsKey (spki_view_of issuer.now.spki.now) (option_copied key) }
    ensures { result ≡ is_issued (C.accepts provider.now) (certificate_parts signed.now) (certificate_parts issuer.now) }
{
    if signed.issuer != issuer.subject {
        return false;
    }
    match key {
        Some(key) => is_signed(provider, signed, key),
        None => false,
    }
}

/// Whether both were read and the second issued the first: one step each time.
#[tactic(auto, unfolding(crate::specs::Links::links))]
pub(crate) fn is_linked<C: CryptoProvider>(
    provider: &C,
    signed: &Seen,
    issuer: &Seen,
    steps: &mut Steps,
) -> bool
    ensures value { result ≡ links (C.accepts provider.now) signed.now issuer.now }
    ensures ticks { steps.new ≡ min (steps.old + 1) (2 ^ 128 - 1) }
{
    steps.tick();
    match (signed.facts(), issuer.facts()) {
        (Some(signed), Some(issuer)) => {
            is_issued(provider, &signed.view, &issuer.view, issuer.key.as_ref())
        }
        _ => false,
    }
}
