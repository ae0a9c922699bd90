// What is noted of calls, worked out by hand: `a` is YQ==, `b` Yg==, `c` Yw==; the digest is that of `hello`.
use crate::tables::{check, good, halves, there};
use command_files::read_provider;
use question_notes::{Notes, NotingArmor, NotingProvider};
use sigstore_keys::{CryptoProvider, SigningScheme, sha256};
use sigstore_types_parts::Armor;
use std::process::Abort;

fn scheme_of(name: &str) -> SigningScheme {
    match name {
        "EcdsaP256Sha256" => SigningScheme::EcdsaP256Sha256,
        "RsaPssSha256" => SigningScheme::RsaPssSha256,
        _ => SigningScheme::Ed25519,
    }
}

// Asks after a signature: `KEY/MESSAGE/SIGNATURE` under a scheme, or over the digest.
fn ask<X: Abort>(rt: &X, provider: &NotingProvider<'_>, call: &str, text: &str) -> bool {
    let (key, text) = halves(rt, text, "/");
    let (message, signature) = halves(rt, text, "/");
    let (key, message, signature) = (key.as_bytes(), message.as_bytes(), signature.as_bytes());
    if call == "digest" {
        let digest = sha256(message);
        provider.verify_prehashed(
            SigningScheme::EcdsaP256Sha256,
            key,
            digest.as_bytes(),
            signature,
        )
    } else {
        provider.verify_raw(scheme_of(call), key, message, signature)
    }
}

// Reads a text, in which `;` stands for the end of a line.
fn read<X: AllocGlobal + Abort>(rt: &X, notes: &Notes<'_>, call: &str, text: &str) {
    let text = good(rt, text.replace(rt.alloc(), ';', "\n"));
    let armor = NotingArmor::new(notes);
    let answer = if call == "key" {
        armor.read_key(rt.alloc(), text.as_bytes())
    } else {
        armor.read_certificate(rt.alloc(), text.as_bytes())
    };
    drop(good(rt, answer));
    drop(text);
}

// Makes the calls; a signature that isn't accepted is told by `no;`.
fn make<X: AllocGlobal + Abort>(rt: &X, notes: &Notes<'_>, calls: &str) -> String {
    let mut told = String::new(rt.alloc());
    for call in calls.split(", ") {
        let (call, text) = halves(rt, call, " ");
        match call {
            "key" | "certificate" => read(rt, notes, call, text),
            _ => {
                if !ask(rt, &NotingProvider::new(&*notes), call, text) {
                    good(rt, told.push_str("no;"));
                }
            }
        }
    }
    told
}

// The text of what is noted of these calls over a table of refused signatures, with `;` in the place of each
// line feed; `nothing` where there is none.
fn noted<X: AllocGlobal + Abort>(rt: &X, refused: &str, calls: &str) -> String {
    let tables = good(rt, read_provider(rt.alloc(), refused.as_bytes()));
    let notes = Notes::new(rt.alloc(), &tables.provider);
    let mut told = make(rt, &notes, calls);
    let noted = there(rt, notes.into_noted());
    if noted.text.is_empty() {
        good(rt, told.push_str("nothing"));
    } else {
        let text = good(rt, noted.text.replace(rt.alloc(), '\n', ";"));
        good(rt, told.push_str(text.as_str()));
    }
    drop(noted);
    drop(tables);
    told
}

// A row: the calls, and what is noted of them.
const CALLS: &str = "Ed25519 a/b/c => accept ED25519 YQ== Yg== Yw==;
Ed25519 // => accept ED25519 - - -;
Ed25519 a/b/c, Ed25519 a/b/c => accept ED25519 YQ== Yg== Yw==;
Ed25519 a/b/c, Ed25519 a/c/c, Ed25519 a/b/c => accept ED25519 YQ== Yg== Yw==;accept ED25519 YQ== Yw== Yw==;
Ed25519 a/b/c, Ed25519 b/b/c => accept ED25519 YQ== Yg== Yw==;accept ED25519 Yg== Yg== Yw==;
Ed25519 a/b/c, Ed25519 a/b/b => accept ED25519 YQ== Yg== Yw==;accept ED25519 YQ== Yg== Yg==;
EcdsaP256Sha256 a/hello/c => accept ECDSA_P256_SHA256 YQ== LPJNul+wow4m6DsqxbninhsWHlwfp0JecwQzYpOLmCQ= Yw==;
EcdsaP256Sha256 a/hello/c, digest a/hello/c => accept ECDSA_P256_SHA256 YQ== LPJNul+wow4m6DsqxbninhsWHlwfp0JecwQzYpOLmCQ= Yw==;
RsaPssSha256 a/hello/c, digest a/hello/c => accept RSA_PSS_SHA256 YQ== LPJNul+wow4m6DsqxbninhsWHlwfp0JecwQzYpOLmCQ= Yw==;accept ECDSA_P256_SHA256 YQ== LPJNul+wow4m6DsqxbninhsWHlwfp0JecwQzYpOLmCQ= Yw==;
key -----BEGIN PUBLIC KEY-----;AQID;-----END PUBLIC KEY----- => armor key LS0tLS1CRUdJTiBQVUJMSUMgS0VZLS0tLS0KQVFJRAotLS0tLUVORCBQVUJMSUMgS0VZLS0tLS0= AQID;
key -----BEGIN PUBLIC KEY-----;AQID;-----END PUBLIC KEY-----, key -----BEGIN PUBLIC KEY-----;AQID;-----END PUBLIC KEY----- => armor key LS0tLS1CRUdJTiBQVUJMSUMgS0VZLS0tLS0KQVFJRAotLS0tLUVORCBQVUJMSUMgS0VZLS0tLS0= AQID;
key -----BEGIN CERTIFICATE-----;AQID;-----END CERTIFICATE----- => nothing
certificate -----BEGIN CERTIFICATE-----;AQID;-----END CERTIFICATE----- => armor certificate LS0tLS1CRUdJTiBDRVJUSUZJQ0FURS0tLS0tCkFRSUQKLS0tLS1FTkQgQ0VSVElGSUNBVEUtLS0tLQ== AQID;
key der:;-----BEGIN PUBLIC KEY-----;AQID;-----END PUBLIC KEY----- => nothing
key -----BEGIN PUBLIC KEY-----;AQID;-----END PUBLIC KEY-----, Ed25519 a/b/c => armor key LS0tLS1CRUdJTiBQVUJMSUMgS0VZLS0tLS0KQVFJRAotLS0tLUVORCBQVUJMSUMgS0VZLS0tLS0= AQID;accept ED25519 YQ== Yg== Yw==;";

// A table of refused signatures.
const REFUSED: &str = "accept ED25519 YQ== Yg== Yw==
accept ECDSA_P256_SHA256 YQ== LPJNul+wow4m6DsqxbninhsWHlwfp0JecwQzYpOLmCQ= Yw==
";

// The calls, and what is noted of them, where those of the table are refused.
const BEHIND: &str = "Ed25519 a/b/c => no;nothing
Ed25519 a/b/c, Ed25519 a/b/b, Ed25519 a/b/c => no;no;accept ED25519 YQ== Yg== Yg==;
RsaPssSha256 a/hello/c => accept RSA_PSS_SHA256 YQ== LPJNul+wow4m6DsqxbninhsWHlwfp0JecwQzYpOLmCQ= Yw==;
EcdsaP256Sha256 a/hello/c, digest a/hello/c => no;no;nothing";

fn hold_calls<X: AllocGlobal + Abort>(rt: &X, refused: &str, rows: &str) {
    for row in rows.lines() {
        let (calls, wanted) = halves(rt, row, " => ");
        check(rt, row, wanted, noted(rt, refused, calls));
    }
}

#[test]
fn calls_are_noted_once_in_their_order(rt: HostRuntime) {
    hold_calls(&rt, "", CALLS);
    hold_calls(&rt, REFUSED, BEHIND);
}
