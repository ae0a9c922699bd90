// What is read of bodies, each row worked out by hand from the grammar.
use crate::bodies_data::{READ, REFUSED, REFUSED_OTHERS, TEXTS};
use crate::words::{
    body, copied, expanded, good, halves, hold, joined, marked, place, printed, refused, string,
};
use sigstore_entries::KindVersion;
use sigstore_pem::PemArmor;
use sigstore_rekor_parts::{
    DsseV001Body, DsseV001Signature, DsseV002Body, DsseV002Signature, Error, HashedRekordV001Body,
    HashedRekordV002Body, IntotoSignature, IntotoV002Body, PublicKeyContent, PublicKeyRaw,
    RekorEntryBody, X509CertificateRaw,
};
use sigstore_types_parts::{
    ByteString, CanonicalizedBody, DerCertificate, DerPublicKey, PemContent, SignatureBytes, Text,
};
use std::process::Abort;
use std::rt::HostRuntime;

// Octets that are no text in UTF-8, or that begin with a mark of the order of octets.
const OCTETS: &str = "\
7b7d => Spec
7bff7d => rule NotJson
22c328223a => rule NotJson
efbbbf7b7d => rule NotJson
7b7d00 => rule NotJson
0d0a097b20207d0d0a => Spec
ffff => rule NotJson
 => rule NotJson";

// A kind, the sort that is looked for in the armoured text of its signature, the text, and what it holds.
const ARMORED: &str = "\
rekord1 key <p256.key> => <p256.der>
rekord1 key <p384.key> => <p384.der>
rekord1 key <ed.key> => <ed.der>
rekord1 key <p256.both> => <p256.der>
rekord1 key <p256.certificate> => rule Armor
rekord1 key <p256.private> => rule Armor
rekord1 key <p256.der> => rule Armor
rekord1 key <text> => rule Armor
rekord1 key  => rule Armor
rekord1 certificate <p256.certificate> => <p256.certificate.der>
rekord1 certificate <ed.certificate> => <ed.certificate.der>
rekord1 certificate <p256.key> => rule Armor
rekord1 certificate <p256.both> => rule Armor
rekord1 certificate <unread> => MAA=
dsse1 certificate <p384.certificate> => <p384.certificate.der>
dsse1 certificate <p384.key> => rule Armor
dsse1 certificate <text> => rule Armor
intoto2 key <ed.key> => <ed.der>
intoto2 key <ed.certificate> => rule Armor
intoto2 certificate <p256.certificate> => <p256.certificate.der>
intoto2 certificate <p256.certificate.der> => rule Armor";

// Octets in base64.
fn spelled<X: AllocGlobal + Abort, K: Drop>(rt: &X, octets: &ByteString<K>) -> Text {
    good(rt, octets.to_base64(rt.alloc()))
}

fn certificate_in<X: AllocGlobal + Abort>(
    rt: &X,
    there: &Option<X509CertificateRaw>,
) -> Option<Text> {
    match there {
        Some(certificate) => Some(spelled(rt, &certificate.raw_bytes)),
        None => None,
    }
}

fn key_in<X: AllocGlobal + Abort>(rt: &X, there: &Option<PublicKeyRaw>) -> Option<Text> {
    match there {
        Some(key) => Some(spelled(rt, &key.raw_bytes)),
        None => None,
    }
}

fn rekord1<X: AllocGlobal + Abort>(rt: &X, body: &HashedRekordV001Body) -> String {
    let hash = &body.spec.data_.hash;
    let signature = &body.spec.signature;
    printed(
        rt,
        (
            hash.algorithm,
            hash.value.as_str(),
            spelled(rt, &signature.content),
            spelled(rt, &signature.public_key.content),
        ),
    )
}

fn rekord2<X: AllocGlobal + Abort>(rt: &X, body: &HashedRekordV002Body) -> String {
    let logged = &body.spec.hashed_rekord_v002;
    let verifier = &logged.signature.verifier;
    printed(
        rt,
        (
            logged.data_.algorithm,
            spelled(rt, &logged.data_.digest),
            spelled(rt, &logged.signature.content),
            verifier.key_details,
            certificate_in(rt, &verifier.x509_certificate),
            key_in(rt, &verifier.public_key),
        ),
    )
}

fn dsse1_signature<X: AllocGlobal + Abort>(rt: &X, signature: &DsseV001Signature) -> String {
    printed(
        rt,
        (
            spelled(rt, &signature.signature),
            spelled(rt, &signature.verifier),
        ),
    )
}

fn dsse1<X: AllocGlobal + Abort>(rt: &X, body: &DsseV001Body) -> String {
    let (envelope, payload) = (&body.spec.envelope_hash, &body.spec.payload_hash);
    let mut told = printed(
        rt,
        (
            envelope.algorithm,
            envelope.value.as_str(),
            payload.algorithm,
            payload.value.as_str(),
        ),
    );
    for signature in body.spec.signatures.as_slice() {
        told = joined(rt, told, dsse1_signature(rt, signature));
    }
    told
}

fn dsse2_signature<X: AllocGlobal + Abort>(rt: &X, signature: &DsseV002Signature) -> String {
    let verifier = &signature.verifier;
    printed(
        rt,
        (
            spelled(rt, &signature.content),
            verifier.key_details.as_str(),
            certificate_in(rt, &verifier.x509_certificate),
            key_in(rt, &verifier.public_key),
        ),
    )
}

fn dsse2<X: AllocGlobal + Abort>(rt: &X, body: &DsseV002Body) -> String {
    let logged = &body.spec.dsse_v002;
    let mut told = printed(
        rt,
        (
            logged.payload_hash.algorithm,
            spelled(rt, &logged.payload_hash.digest),
        ),
    );
    for signature in logged.signatures.as_slice() {
        told = joined(rt, told, dsse2_signature(rt, signature));
    }
    told
}

fn key_name(signature: &IntotoSignature) -> Option<&str> {
    match &signature.keyid {
        Some(name) => Some(name.as_str()),
        None => None,
    }
}

fn intoto2_signature<X: AllocGlobal + Abort>(rt: &X, signature: &IntotoSignature) -> String {
    printed(
        rt,
        (
            key_name(signature),
            spelled(rt, &signature.sig),
            spelled(rt, &signature.public_key),
        ),
    )
}

fn intoto2<X: AllocGlobal + Abort>(rt: &X, body: &IntotoV002Body) -> String {
    let logged = &body.spec.content;
    let mut told = printed(
        rt,
        (
            logged.envelope.payload_type.as_str(),
            logged.hash.algorithm,
            logged.hash.value.as_str(),
            logged.payload_hash.algorithm,
            logged.payload_hash.value.as_str(),
        ),
    );
    for signature in logged.envelope.signatures.as_slice() {
        told = joined(rt, told, intoto2_signature(rt, signature));
    }
    told
}

fn told<X: AllocGlobal + Abort>(rt: &X, body: &RekorEntryBody) -> String {
    match body {
        RekorEntryBody::HashedRekordV001(body) => rekord1(rt, body),
        RekorEntryBody::HashedRekordV002(body) => rekord2(rt, body),
        RekorEntryBody::DsseV001(body) => dsse1(rt, body),
        RekorEntryBody::DsseV002(body) => dsse2(rt, body),
        RekorEntryBody::IntotoV002(body) => intoto2(rt, body),
    }
}

fn body_told<X: AllocGlobal + Abort>(rt: &X, body: RekorEntryBody) -> String {
    let body = copied(rt, body);
    let told = told(rt, &body);
    drop(body);
    marked(rt, told)
}

fn shown<X: AllocGlobal + Abort>(rt: &X, read: Result<RekorEntryBody, Error>) -> String {
    match read {
        Ok(body) => body_told(rt, body),
        Err(refusal) => refused(rt, refusal),
    }
}

/// What is read of a body: a kind, a version, a body's name and its changes.
pub fn read<X: AllocGlobal + Abort>(rt: &X, given: &str) -> String {
    let (kind, rest) = halves(rt, given, " ");
    let (version, rest) = halves(rt, rest, " ");
    let text = body(rt, rest, "p256");
    let read = RekorEntryBody::from_json(rt.alloc(), text.as_bytes(), kind, version);
    drop(text);
    shown(rt, read)
}

/// The same of an entry's body, whose kind is known.
pub fn parsed<X: AllocGlobal + Abort>(rt: &X, given: &str) -> String {
    let (kind, rest) = halves(rt, given, " ");
    let (version, rest) = halves(rt, rest, " ");
    let kind = good(rt, KindVersion::named(kind, version));
    let text = body(rt, rest, "p256");
    let logged = CanonicalizedBody::from_bytes(rt.alloc(), text.as_bytes());
    drop(text);
    let logged = good(rt, logged);
    let read = RekorEntryBody::parse(rt.alloc(), &logged, kind);
    drop(logged);
    shown(rt, read)
}

/// What is read of octets in hexadecimal.
pub fn octets<X: AllocGlobal + Abort>(rt: &X, given: &str) -> String {
    let bytes = good(rt, hex::decode(rt.alloc(), given));
    let read = RekorEntryBody::from_json(rt.alloc(), bytes.as_slice(), "dsse", "0.0.2");
    drop(bytes);
    shown(rt, read)
}

fn certificate_shown<X: AllocGlobal + Abort>(
    rt: &X,
    held: Result<DerCertificate, Error>,
) -> String {
    match held {
        Ok(certificate) => marked(rt, spelled(rt, &certificate).into_string()),
        Err(refusal) => refused(rt, refusal),
    }
}

fn key_shown<X: AllocGlobal + Abort>(rt: &X, held: Result<DerPublicKey, Error>) -> String {
    match held {
        Ok(key) => marked(rt, spelled(rt, &key).into_string()),
        Err(refusal) => refused(rt, refusal),
    }
}

fn no_signature<X: AllocGlobal + Abort>(rt: &X) -> SignatureBytes {
    good(rt, SignatureBytes::from_bytes(rt.alloc(), &[]))
}

fn of_rekord1<X: AllocGlobal + Abort>(rt: &X, sort: &str, content: PemContent) -> String {
    let key = PublicKeyContent { content };
    if sort == "key" {
        key_shown(rt, key.parse_public_key(rt.alloc(), &PemArmor))
    } else {
        certificate_shown(rt, key.parse_certificate(rt.alloc(), &PemArmor))
    }
}

fn of_dsse1<X: AllocGlobal + Abort>(rt: &X, verifier: PemContent) -> String {
    let signature = DsseV001Signature {
        signature: no_signature(rt),
        verifier,
    };
    certificate_shown(rt, signature.parse_certificate(rt.alloc(), &PemArmor))
}

fn of_intoto2<X: AllocGlobal + Abort>(rt: &X, sort: &str, public_key: PemContent) -> String {
    let signature = IntotoSignature {
        keyid: None,
        sig: no_signature(rt),
        public_key,
    };
    if sort == "key" {
        key_shown(rt, signature.parse_public_key(rt.alloc(), &PemArmor))
    } else {
        certificate_shown(rt, signature.parse_certificate(rt.alloc(), &PemArmor))
    }
}

/// What an armoured text of a signature holds, in base64.
pub fn armored<X: AllocGlobal + Abort>(rt: &X, given: &str) -> String {
    let (kind, rest) = halves(rt, given, " ");
    let (sort, text) = halves(rt, rest, " ");
    let text = expanded(rt, text, "p256");
    let content = PemContent::from_base64(rt.alloc(), text.as_str());
    drop(text);
    let content = good(rt, content);
    match place(kind, "rekord1 dsse1 intoto2") {
        0 => of_rekord1(rt, sort, content),
        1 => of_dsse1(rt, content),
        2 => of_intoto2(rt, sort, content),
        _ => string(rt, "no kind"),
    }
}

#[test]
fn bodies_are_read(rt: HostRuntime) {
    hold(
        &rt,
        &[
            ("read", READ),
            ("parsed", READ),
            ("read", TEXTS),
            ("read", REFUSED),
            ("parsed", REFUSED_OTHERS),
            ("octets", OCTETS),
            ("armored", ARMORED),
        ],
    );
}
