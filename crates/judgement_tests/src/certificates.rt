// A real certificate by itself: what is judged of it, and what its log signed.
use crate::keyless_data::{SIGNATURES, TEXTS};
use crate::tables::{check, debug, good, halves, there};
use certificate_claims::parse_certificate_info;
use command_files::{TableProvider, read_provider};
use jiff::Timestamp;
use path_core::Anchor;
use sigstore_certificate::{
    DigitallySigned, Presented, TrustedAuthorities, VerificationPolicy, judge_certificate,
};
use sigstore_keys::{Keyring, SigningScheme, VerificationKey, sha256, verify_signature};
use sigstore_types::{DerCertificate, DerPublicKey, SignatureBytes};
use std::process::Abort;
use std::slice;
use x509_views::{CertView, sct_list};

// The octets of a name, in base64.
fn named<X: Abort>(rt: &X, name: &str) -> &'static str {
    for row in TEXTS.lines() {
        let (first, octets) = halves(rt, row, " ");
        if first == name {
            return octets;
        }
    }
    panic!(rt; "no octets {name}")
}

fn certificate<X: AllocGlobal + Abort>(rt: &X, name: &str) -> DerCertificate {
    good(rt, DerCertificate::from_base64(rt.alloc(), named(rt, name)))
}

fn key<X: AllocGlobal + Abort>(rt: &X, name: &str) -> DerPublicKey {
    good(rt, DerPublicKey::from_base64(rt.alloc(), named(rt, name)))
}

// The one log of certificates.
fn logs<X: AllocGlobal + Abort>(rt: &X) -> Keyring {
    let der = key(rt, "ct_key");
    let mut logs = Keyring::new(rt.alloc());
    let read = good(rt, VerificationKey::from_spki(rt.alloc(), &der));
    good(rt, logs.add_key(sha256(der.as_bytes()), read));
    drop(der);
    logs
}

// The answer for the certificate under a root, with the intermediate beside it, for a signature at some times.
fn judged<X: AllocGlobal + Abort>(
    rt: &X,
    provider: &TableProvider,
    root: &str,
    times: &[Timestamp],
) -> String {
    let (leaf, between, root) = (
        certificate(rt, "leaf"),
        certificate(rt, "intermediate"),
        certificate(rt, root),
    );
    let info = good(rt, parse_certificate_info(rt.alloc(), &leaf));
    let anchor = good(rt, Anchor::from_certificate(rt.alloc(), &root, None));
    let (logs, policy) = (logs(rt), VerificationPolicy::any_identity(rt.alloc()));
    let authorities = TrustedAuthorities {
        anchors: slice::from_ref(&anchor),
        ct_logs: &logs,
    };
    let presented = Presented {
        info: &info,
        leaf: &leaf,
        intermediates: slice::from_ref(&between),
    };
    let answer = judge_certificate(
        rt.alloc(),
        provider,
        &authorities,
        &policy,
        &presented,
        times,
    );
    drop(info);
    drop(anchor);
    drop(logs);
    drop(policy);
    drop(leaf);
    drop(between);
    drop(root);
    debug(rt, answer)
}

// Whether OpenSSL found the timestamp's signature good over what is said that the log signed; the issuer is the owner of
// a certificate.
fn is_signed<X: AllocGlobal + Abort>(rt: &X, provider: &TableProvider, issuer: &str) -> bool {
    let (leaf, above, list, log) = (
        certificate(rt, "leaf"),
        certificate(rt, issuer),
        certificate(rt, "scts"),
        key(rt, "ct_key"),
    );
    let scts = good(rt, sct_list(rt.alloc(), list.as_bytes()));
    let sct = there(rt, scts.first());
    let view = good(rt, CertView::parse(leaf.as_bytes()));
    let issuer = good(rt, CertView::parse(above.as_bytes()));
    let signed = good(
        rt,
        DigitallySigned::from_embedded_sct(rt.alloc(), &view, sct, *sha256(issuer.spki).as_array()),
    );
    assert!(rt; signed.log_id() == sha256(log.as_bytes()));
    let signature = SignatureBytes::new(good(
        rt,
        sigstore_types::Bytes::new(rt.alloc(), sct.signature()),
    ));
    let answer = verify_signature(
        rt.alloc(),
        provider,
        &log,
        signed.signed_data(),
        &signature,
        SigningScheme::EcdsaP256Sha256,
    );
    let is_good = answer.is_ok();
    drop(answer);
    is_good
}

const JUDGED: &str = "root 2024-06-01T00:10:00Z | Ok(1)
root 2024-06-01T00:10:01Z | Err(Expired { time: 2024-06-01T00:10:01Z, not_after: 2024-06-01T00:10:00Z })
other_root 2024-06-01T00:10:00Z | Err(ChainInvalid)";

#[test]
fn certificates_are_judged(rt: HostRuntime) {
    let tables = good(&rt, read_provider(rt.alloc(), SIGNATURES.as_bytes()));
    for row in JUDGED.lines() {
        let (given, wanted) = there(&rt, row.split_once(" | "));
        let (root, now) = there(&rt, given.split_once(" "));
        let time = good(&rt, now.parse::<Timestamp>());
        let answer = judged(&rt, &tables.provider, root, slice::from_ref(&time));
        check(&rt, row, wanted, answer);
    }
    let untimed = judged(&rt, &tables.provider, "root", &[]);
    check(&rt, "no time", "Err(NoTime)", untimed);
    assert!(rt; is_signed(&rt, &tables.provider, "intermediate"));
    assert!(rt; !is_signed(&rt, &tables.provider, "other_intermediate"));
    drop(tables);
}
