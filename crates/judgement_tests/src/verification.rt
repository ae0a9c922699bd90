// The table of refusals, and verifications by a provider that accepts a signature equal to its subject.
ghost use Rattle.std.specs.Prelude.{bytes_eq, Some, None, false};
ghost use Rattle.sigstore_keys.specs.Good.{subject_of};

use crate::tables::{
    Change, change_in, debug, good, halves, hold, number, source, text, there, word,
};
use certificate_claims::{ClaimName, SubjectAltName};
use foundation::{Duplicate, NoMemory, Sequence};
use jiff::Timestamp;
use sigstore_judgement::*;
use sigstore_keys::{CryptoProvider, Providers, ReadError, SigningScheme, sha256, sha384, sha512};
use sigstore_types::{
    Armor, Artifact, ArtifactDigest, Bundle, Bytes, DerPublicKey, DigestBytes, HashAlgorithm,
    MessageDigest, MessageSignature, SignatureBytes, SignatureContent, Text, TrustedRoot,
    VerificationMaterial, VerificationMaterialContent,
};
use std::alloc::Global;
use std::num::NonZeroU8;
use std::process::Abort;
use std::slice;

// The answer of a call by this name.
pub(crate) fn answer<X: AllocGlobal + Abort>(rt: &X, call: &str, given: &str) -> String {
    match call {
        "refusal" => shown(rt, sample(rt, given)),
        "judgement" => judged(rt, given),
        "policy" => policy_shown(rt, given),
        "acceptance" => accepted(rt, given),
        "handed" => handed(rt, given),
        "stepwise" => stepwise(rt, given),
        "hasher" => hashed(rt, given),
        _ => panic!(rt; "no call {call}"),
    }
}

struct Echo;

impl CryptoProvider for Echo {
    ghost accepts = { λ _ scheme key subject signature. bytes_eq subject signature };

    fn verify_raw(
        &self,
        scheme: SigningScheme,
        _key: &[u8],
        message: &[u8],
        signature: &[u8],
    ) -> bool {
        match scheme.hash_algorithm() {
            Some(HashAlgorithm::Sha2256) => sha256(message).as_bytes() == signature,
            Some(HashAlgorithm::Sha2384) => sha384(message).as_bytes() == signature,
            Some(HashAlgorithm::Sha2512) => sha512(message).as_bytes() == signature,
            _ => message == signature,
        }
    }

    fn verify_prehashed(
        &self,
        _scheme: SigningScheme,
        _key: &[u8],
        digest: &[u8],
        signature: &[u8],
    ) -> bool {
        digest == signature
    }
}

struct Bare;

impl Armor for Bare {
    ghost armored = { λ _ _. false };

    ghost key_in = { λ _ _. None };

    ghost certificate_in = { λ _ text. Some text };

    fn is_armored(&self, _text: &[u8]) -> bool {
        false
    }

    fn read_key(&self, _alloc: Global, _text: &[u8]) -> Result<Option<Bytes>, NoMemory> {
        Ok(None)
    }

    fn read_certificate(&self, alloc: Global, text: &[u8]) -> Result<Option<Bytes>, NoMemory> {
        Ok(Some(Bytes::new(alloc, text)?))
    }

    fn write_certificate(&self, alloc: Global, der: &[u8]) -> Result<Bytes, NoMemory> {
        Bytes::new(alloc, der)
    }
}

// The refusals of a certificate.
fn certificate(number: u8) -> CertificateError {
    let time = Timestamp::UNIX_EPOCH;
    match number {
        6 => CertificateError::Malformed,
        7 => CertificateError::ChainInvalid,
        8 => CertificateError::NoValidAuthority { time },
        9 => CertificateError::NotYetValid {
            time,
            not_before: time,
        },
        10 => CertificateError::Expired {
            time,
            not_after: time,
        },
        _ => CertificateError::Sct(SctRule::TooFew { asked: 2, found: 1 }),
    }
}

// The refusals of the log but for the one that names a log.
fn log(number: u8) -> TransparencyLogError {
    match number {
        13 => TransparencyLogError::InclusionProof,
        14 => TransparencyLogError::Checkpoint,
        15 => TransparencyLogError::InclusionPromise,
        16 => TransparencyLogError::EntryMismatch,
        17 => TransparencyLogError::IntegratedTime,
        _ => TransparencyLogError::MalformedEntry,
    }
}

fn timestamp(number: u8) -> TimestampError {
    let time = Timestamp::UNIX_EPOCH;
    match number {
        19 => TimestampError::Invalid,
        20 => TimestampError::OutsideAuthorityValidity { time },
        _ => TimestampError::NoVerifiedTimestamp,
    }
}

// The refusals that hold no text.
fn plain(number: u8) -> Error {
    match number {
        3 => Error::SignatureInvalid,
        4 => Error::ArtifactMismatch,
        5 => Error::UnsupportedArtifact,
        22 => Error::InvalidBundle,
        23 => Error::UnsupportedBundle,
        24 => Error::InvalidTrustRoot,
        25 => Error::Types,
        26 => Error::Crypto,
        27 => Error::Bundle,
        28 => Error::TrustRoot,
        29 => Error::TrustedCertificate,
        30 => Error::ArtifactRead(ReadError::Failed),
        32 => Error::TooFewLogs { asked: 2, found: 1 },
        35 => Error::TooFewTimes { asked: 2, found: 1 },
        36 => Error::TooFewTokens { asked: 2, found: 1 },
        37 => Error::TimeOutside {
            time: Timestamp::UNIX_EPOCH,
        },
        _ => Error::NoMemory,
    }
}

// A refusal of each number.
fn sample<X: AllocGlobal + Abort>(rt: &X, given: &str) -> Error {
    let number = good(rt, given.parse::<u8>());
    match number {
        1 => Error::IdentityMismatch {
            expected: IdentityMatcher::Email(text(rt, "a")),
            actual: Some(SubjectAltName::Uri(text(rt, "a"))),
        },
        2 => Error::IssuerMismatch {
            expected: text(rt, "a"),
            actual: None,
        },
        33 => Error::ClaimMismatch {
            name: ClaimName::BuildTrigger,
            expected: TextMatcher::Exact(text(rt, "a")),
            actual: None,
        },
        34 => Error::PredicateMismatch {
            expected: TextMatcher::Like(text(rt, "a")),
            actual: None,
        },
        6..=11 => Error::Certificate(certificate(number)),
        12 => Error::TransparencyLog(TransparencyLogError::UnknownLog {
            log_id: sha256(b"log"),
        }),
        13..=18 => Error::TransparencyLog(log(number)),
        19..=21 => Error::Timestamp(timestamp(number)),
        _ => plain(number),
    }
}

// The display text of a refusal's part, with a blank before it.
fn part<X: Abort>(rt: &X, alloc: Global, error: &Error) -> String {
    let shown = match error {
        Error::Certificate(part) => format!(in alloc; " {part}"),
        Error::TransparencyLog(part) => format!(in alloc; " {part}"),
        Error::Timestamp(part) => format!(in alloc; " {part}"),
        _ => return String::new(alloc),
    };
    good(rt, shown)
}

// The number and the name of a refusal, its display text, and that of its part.
fn shown<X: AllocGlobal + Abort>(rt: &X, error: Error) -> String {
    let (number, name, part) = (error.number(), error.name(), part(rt, rt.alloc(), &error));
    let shown = format!(in rt.alloc(); "{number} {name} {error}{part}");
    drop(error);
    drop(part);
    good(rt, shown)
}

// A row: which refusal, and its number, its name, its display text and that of its part.
const REFUSALS: &str = "1 | 1 IdentityMismatch IdentityMismatch
2 | 2 IssuerMismatch IssuerMismatch
3 | 3 SignatureInvalid SignatureInvalid
4 | 4 ArtifactMismatch ArtifactMismatch
5 | 5 UnsupportedArtifact UnsupportedArtifact
6 | 6 CertificateMalformed Certificate Malformed
7 | 7 ChainInvalid Certificate ChainInvalid
8 | 8 NoValidAuthority Certificate NoValidAuthority
9 | 9 NotYetValid Certificate NotYetValid
10 | 10 CertificateExpired Certificate Expired
11 | 11 Sct Certificate Sct
12 | 12 UnknownLog TransparencyLog UnknownLog
13 | 13 InclusionProof TransparencyLog InclusionProof
14 | 14 Checkpoint TransparencyLog Checkpoint
15 | 15 InclusionPromise TransparencyLog InclusionPromise
16 | 16 EntryMismatch TransparencyLog EntryMismatch
17 | 17 IntegratedTime TransparencyLog IntegratedTime
18 | 18 MalformedEntry TransparencyLog MalformedEntry
19 | 19 TimestampInvalid Timestamp Invalid
20 | 20 OutsideAuthorityValidity Timestamp OutsideAuthorityValidity
21 | 21 NoVerifiedTimestamp Timestamp NoVerifiedTimestamp
22 | 22 InvalidBundle InvalidBundle
23 | 23 UnsupportedBundle UnsupportedBundle
24 | 24 InvalidTrustRoot InvalidTrustRoot
25 | 25 Types Types
26 | 26 Crypto Crypto
27 | 27 Bundle Bundle
28 | 28 TrustRoot TrustRoot
29 | 29 TrustedCertificate TrustedCertificate
30 | 30 ArtifactRead ArtifactRead
31 | 31 NoMemory NoMemory
32 | 32 TooFewLogs TooFewLogs
33 | 33 ClaimMismatch ClaimMismatch
34 | 34 PredicateMismatch PredicateMismatch
35 | 35 TooFewTimes TooFewTimes
36 | 36 TooFewTokens TooFewTokens
37 | 37 TimeOutside TimeOutside";

// An Ed25519 key of 32 zero bytes (RFC 8410).
const ED25519: &str = "MCowBQYDK2VwAyEAAAAAAAAAAAAAAAAAAAAAAAAAAAAAAAAAAAAAAAAAAAA=";

// The parts of a verification that a change names; nothing is unchanged.
const PARTS: &str = "nothing
key
log
algorithm
by
signed
told and signed
material
greatest length
failing read";

// A P-256 key in 91 bytes.
const KEY: &str =
    "MFkwEwYHKoZIzj0CAQYIKoZIzj0DAQcDQgAEAAAAAAAAAAAAAAAAAAAAAAAAAAAAAAAAAAAAAAAAAAAAAAAAAAAAAAAAAAAAAAAAAAAAAAAAAAAAAAAAAAAAAA==";

fn policy<X: AllocGlobal + Abort>(rt: &X, change: Change) -> PublicKeyVerificationPolicy {
    let key = good(
        rt,
        DerPublicKey::from_base64(rt.alloc(), change.of("key", KEY)),
    );
    let policy = PublicKeyVerificationPolicy::new(key);
    if change.part == "log" {
        policy
    } else {
        policy.skip_tlog_unsafe()
    }
}

// The digest of a text by the algorithm of a change, and by SHA-256 where it names none; the text itself
// where a message is signed.
fn digested<X: AllocGlobal + Abort>(rt: &X, change: Change, text: &str) -> Bytes {
    let bytes = text.as_bytes();
    let copy = match change.of("by", "SHA2_256") {
        "message" => Bytes::new(rt.alloc(), bytes),
        "SHA2_384" => Bytes::new(rt.alloc(), sha384(bytes).as_bytes()),
        _ => Bytes::new(rt.alloc(), sha256(bytes).as_bytes()),
    };
    good(rt, copy)
}

// The digest that a bundle tells under an algorithm; under no algorithm it tells none.
fn told<X: AllocGlobal + Abort>(rt: &X, change: Change) -> Option<MessageDigest> {
    let digest = digested(rt, change, change.of("told and signed", "hello"));
    match HashAlgorithm::from_name(change.of("algorithm", change.of("by", "SHA2_256"))) {
        None => {
            drop(digest);
            None
        }
        Some(algorithm) => Some(MessageDigest {
            algorithm,
            digest: DigestBytes::new(digest),
        }),
    }
}

// A public key; where a change names the material, a chain without certificates, which no text has.
fn material<X: AllocGlobal>(rt: &X, change: Change) -> VerificationMaterialContent {
    if change.part == "material" {
        VerificationMaterialContent::X509CertificateChain(Sequence::new(rt.alloc()))
    } else {
        VerificationMaterialContent::PublicKey { hint: None }
    }
}

// A bundle over what it tells and over the digest of what is signed.
fn bundle<X: AllocGlobal + Abort>(rt: &X, change: Change) -> Bundle {
    let text = change.of("signed", change.of("told and signed", "hello"));
    let signature = SignatureBytes::new(digested(rt, change, text));
    Bundle {
        media_type: Text::from_string(String::new(rt.alloc())),
        content: SignatureContent::MessageSignature(MessageSignature {
            message_digest: told(rt, change),
            signature,
        }),
        verification_material: VerificationMaterial {
            content: material(rt, change),
            tlog_entries: Sequence::new(rt.alloc()),
            rfc3161_timestamps: Sequence::new(rt.alloc()),
        },
    }
}

// A trust file that names nobody.
fn no_trust<X: AllocGlobal + Abort>(rt: &X) -> TrustedRoot {
    good(rt, TrustedRoot::from_json(rt.alloc(), b"{}"))
}

// What the verifier keeps of the changed bundle over the artifact `hello`, or its refusal.
fn verified<X: AllocGlobal + Abort>(rt: &X, change: Change) -> Result<VerificationResult, Error> {
    let max = number(rt, change.of("greatest length", "5"));
    let mut source = source(rt, "hello", 2, change.of("failing read", ""));
    let (policy, bundle) = (policy(rt, change), bundle(rt, change));
    let trust = no_trust(rt);
    let verifier = good(rt, Verifier::new(rt.alloc(), &Echo, &Bare, &trust));
    let now = Timestamp::UNIX_EPOCH;
    let case = Case {
        bundle: &bundle,
        policy: &policy,
        moment: now,
    };
    let answer = verifier.verify_reader(rt.alloc(), &mut source, max, &case);
    drop(verifier);
    drop(bundle);
    drop(policy);
    drop(source);
    answer
}

fn judged<X: AllocGlobal + Abort>(rt: &X, row: &str) -> String {
    word(rt, "accepted", verified(rt, change_in(rt, row, PARTS)))
}

// A row: the part, the text in its place, and the refusal. The keys are no key, the P-256 key with one
// unused bit, an Ed25519 key of 32 zero bytes (RFC 8410), and keys that openssl made: of P-384, and of RSA
// with 2048 and with 1024 bits.
const JUDGED: &str = "nothing |  | accepted
log | wanted | Bundle
material | no certificate | UnsupportedBundle
key | MA== | Crypto
key | MFkwEwYHKoZIzj0CAQYIKoZIzj0DAQcDQgEEAAAAAAAAAAAAAAAAAAAAAAAAAAAAAAAAAAAAAAAAAAAAAAAAAAAAAAAAAAAAAAAAAAAAAAAAAAAAAAAAAAAAAA== | Crypto
key | MCowBQYDK2VwAyEAAAAAAAAAAAAAAAAAAAAAAAAAAAAAAAAAAAAAAAAAAAA= | UnsupportedArtifact
key | MHYwEAYHKoZIzj0CAQYFK4EEACIDYgAEgNI+RIBtU7hzM6AzfrHvfVYi7pyUA+KQ6m7Jk+EXgqzV+GzHEO6SQxmPj8VjgZ7StebwCfeC4sk1FBSSGsPVVY2PpdkRxpaluV7H+zvGaYbZPhwI9SqkYiOwt/3I1f9I | accepted
key | MIIBIjANBgkqhkiG9w0BAQEFAAOCAQ8AMIIBCgKCAQEAiQneHiRk47GJZwBGL6tpttbqnoQpOVNxjInR4jTG3ZHrBwkoK0LO0m3yaopVViz9ncCW513phVYMlR4GVuLmj39S+A3TTnjPodrmqgfCsvTGA/4MU5HjCI+KpW/wD8YnAuCyLP+XlLoUdr+Afzz9qIdakM7Br8K3MPD2EuZECbqBS1IAVNqS3G9Ty6aeExbSi/20SJJg9DEv0nnvL8ChiYeGowJnkbDWr/u+cX1aC301lSZJ2vttr+DteZRplymO/JyIOMoCT+eMEmYhCFpvrPgsUJeUepbnxW8n6Jh0CVGar8zRFNeyb8qEgUpfZ7xZqboN777R+jWMD5tPLE5y8wIDAQAB | accepted
key | MIGfMA0GCSqGSIb3DQEBAQUAA4GNADCBiQKBgQDdpDa1CAKZuZlmyKjdR+Bzvck5oLQItvKQKMKPpdxWXNZvWd0LYV0D44tEcSwsTmL2kyAgvGGzGj4BUTy6N6Eo68jfWNI7ZVvklOQzsXNeluORRa+AfzV/hC+dlfa0iY9FEH4eDMfTcMHt4vLwLgXa2WxJHfywZ5cpBeZo2hv2VwIDAQAB | SignatureInvalid
greatest length | 4 | ArtifactRead(TooLong { max: 4 })
failing read | 2 | ArtifactRead(Failed)
algorithm | none | accepted
algorithm | SHA2_384 | ArtifactMismatch
algorithm | SHA3_256 | Crypto
by | SHA2_384 | accepted
by | SHA2_256 | accepted
algorithm | SHA2_512 | Crypto
told and signed | jello | ArtifactMismatch
signed | jello | SignatureInvalid";

const UNCHANGED: Change = Change {
    part: "nothing",
    text: "",
};

fn kept<X: AllocGlobal + Abort>(rt: &X) -> JudgedBundle {
    let mut source = source(rt, "hello", 2, "");
    let (policy, bundle) = (policy(rt, UNCHANGED), bundle(rt, UNCHANGED));
    let trust = no_trust(rt);
    let verifier = good(rt, Verifier::new(rt.alloc(), &Echo, &Bare, &trust));
    let now = Timestamp::UNIX_EPOCH;
    let case = Case {
        bundle: &bundle,
        policy: &policy,
        moment: now,
    };
    let kept = verifier.verify_reader_kept(rt.alloc(), &mut source, 5, &case);
    drop(verifier);
    drop(bundle);
    drop(policy);
    drop(source);
    good(rt, kept)
}

// The number of digests, the algorithm of the first one, whether its bytes are those of `hello`, and
// whether a copy equals it.
fn digests_shown<X: AllocGlobal + Abort>(rt: &X, kept: &JudgedBundle) -> String {
    let digests = kept.digests.as_slice();
    let digest = there(rt, digests.first());
    let (count, algorithm) = (digests.len(), digest.algorithm());
    let is_hello = digest.as_bytes() == sha256(b"hello").as_bytes();
    let copy = good(rt, digest.duplicate(rt.alloc()));
    let is_copied = copy == *digest;
    drop(copy);
    debug(rt, (count, algorithm, is_hello, is_copied))
}

// Whether an issuer, an integrated time and a verified time are there, what was verified, and how many logs of certificates
// and transparency logs vouched.
fn result_shown<X: AllocGlobal + Abort>(rt: &X, shown: &VerificationResult) -> String {
    let (issuer, integrated) = (shown.issuer().is_some(), shown.integrated_time().is_some());
    let (certificate, sct) = (shown.certificate_verified(), shown.sct_verified());
    let (tlog, identity) = (shown.tlog_verified(), shown.identity_policy_checked());
    let times = shown.verified_timestamps().len();
    let counts = (shown.sct_count(), shown.log_count());
    debug(
        rt,
        (
            issuer,
            integrated,
            times,
            certificate,
            sct,
            tlog,
            identity,
            counts,
        ),
    )
}

fn accepted<X: AllocGlobal + Abort>(rt: &X, part: &str) -> String {
    let kept = kept(rt);
    let shown = match part {
        "digests" => digests_shown(rt, &kept),
        _ => result_shown(rt, &kept.result),
    };
    drop(kept);
    shown
}

const ACCEPTANCE: &str = "digests | (1, Sha2256, true, true)
result | (false, false, 0, false, false, false, false, (0, 0))";

// A policy for the key, with a number of logs that is asked for where one is given.
fn asking<X: AllocGlobal + Abort>(rt: &X, count: &str) -> PublicKeyVerificationPolicy {
    let policy = policy(rt, UNCHANGED);
    if count.is_empty() {
        return policy;
    }
    policy.require_logs(there(rt, NonZeroU8::new(number(rt, count).min(255) as u8)))
}

// The length of a policy's key, whether the log is to be verified, how many logs are asked for, and whether a copy equals it.
fn policy_shown<X: AllocGlobal + Abort>(rt: &X, count: &str) -> String {
    let policy = asking(rt, count);
    let (length, verifies) = (policy.public_key().as_bytes().len(), policy.verifies_tlog());
    let logs = policy.logs();
    let copy = good(rt, policy.duplicate(rt.alloc()));
    let is_copied = copy == policy;
    drop(copy);
    drop(policy);
    debug(rt, (length, verifies, logs, is_copied))
}

const POLICIES: &str = " | (91, false, 1, true)
1 | (91, false, 1, true)
255 | (91, false, 255, true)";

// An artifact that is handed in: its bytes, or its digest by an algorithm.
fn artifact<'a, X: AllocGlobal + Abort>(rt: &X, how: &str, text: &'a str) -> Artifact<'a> {
    let bytes = text.as_bytes();
    let digest = match how {
        "SHA2_256" => Bytes::new(rt.alloc(), sha256(bytes).as_bytes()),
        "SHA2_512" => Bytes::new(rt.alloc(), sha512(bytes).as_bytes()),
        _ => return Artifact::Blob(bytes),
    };
    let algorithm = there(rt, HashAlgorithm::from_name(how));
    Artifact::Digest(good(rt, ArtifactDigest::new(algorithm, good(rt, digest))))
}

// The changes of policy and bundle for a key: an Ed25519 key signs the message, and no digest is told.
fn changes_for(key: &str) -> (Change<'static>, Change<'static>) {
    match key {
        "Ed25519" => (
            Change {
                part: "key",
                text: ED25519,
            },
            Change {
                part: "by",
                text: "message",
            },
        ),
        _ => (UNCHANGED, UNCHANGED),
    }
}

// The answer over an artifact that is handed in, which is that of the call which makes the verifier.
fn handed<X: AllocGlobal + Abort>(rt: &X, row: &str) -> String {
    let (key, given) = halves(rt, row, " ");
    let (how, text) = halves(rt, given, " ");
    let (of_key, of_bundle) = changes_for(key);
    let (policy, bundle) = (policy(rt, of_key), bundle(rt, of_bundle));
    let trust = no_trust(rt);
    let verifier = good(rt, Verifier::new(rt.alloc(), &Echo, &Bare, &trust));
    let (first, second) = (artifact(rt, how, text), artifact(rt, how, text));
    let (alloc, now) = (rt.alloc(), Timestamp::UNIX_EPOCH);
    let case = Case {
        bundle: &bundle,
        policy: &policy,
        moment: now,
    };
    let by_it = word(rt, "accepted", verifier.verify(alloc, first, &case));
    let providers = Providers {
        provider: &Echo,
        armor: &Bare,
    };
    let alone = verify(alloc, &providers, &trust, second, &case);
    let alone = word(rt, "accepted", alone);
    assert!(rt; alone == by_it);
    drop(alone);
    drop(verifier);
    drop(bundle);
    drop(policy);
    by_it
}

// A row: the key, how the artifact is handed in, its text, and the answer.
const HANDED: &str = "P-256 blob hello | accepted
P-256 blob jello | ArtifactMismatch
P-256 SHA2_256 hello | accepted
P-256 SHA2_256 jello | ArtifactMismatch
P-256 SHA2_512 hello | UnsupportedArtifact
Ed25519 blob hello | accepted
Ed25519 blob jello | SignatureInvalid
Ed25519 SHA2_256 hello | UnsupportedArtifact";

// The answer of the steps of a verification, over one digest of `hello` or over none.
fn stepwise<X: AllocGlobal + Abort>(rt: &X, how: &str) -> String {
    let (policy, bundle) = (policy(rt, UNCHANGED), bundle(rt, UNCHANGED));
    let trust = no_trust(rt);
    let verifier = good(rt, Verifier::new(rt.alloc(), &Echo, &Bare, &trust));
    let ready = good(rt, prepare_reader(rt.alloc(), &bundle, &policy));
    let (alloc, now) = (rt.alloc(), Timestamp::UNIX_EPOCH);
    let answer = match artifact(rt, how, "hello") {
        Artifact::Digest(digest) => {
            verifier.judge_digests(alloc, ready, slice::from_ref(&digest), now)
        }
        Artifact::Blob(_) => verifier.judge_digests(alloc, ready, &[], now),
    };
    let answer = word(rt, "accepted", answer);
    drop(verifier);
    drop(bundle);
    drop(policy);
    answer
}

// A row: the algorithm of the digest that is handed in, or nothing, and the answer.
const STEPWISE: &str = "SHA2_256 | accepted
SHA2_512 | UnsupportedArtifact
nothing | UnsupportedArtifact";

fn hashed<X: AllocGlobal + Abort>(rt: &X, name: &str) -> String {
    let algorithm = there(rt, HashAlgorithm::from_name(name));
    word(
        rt,
        "made",
        hashers_for(rt.alloc(), slice::from_ref(&algorithm)),
    )
}

// A row: an algorithm, and whether there is a hasher of it.
const HASHERS: &str = "SHA2_256 | made
SHA3_256 | Crypto";

#[test]
fn verifications(rt: HostRuntime) {
    hold(&rt, "refusal", REFUSALS);
    hold(&rt, "judgement", JUDGED);
    hold(&rt, "policy", POLICIES);
    hold(&rt, "acceptance", ACCEPTANCE);
    hold(&rt, "handed", HANDED);
    hold(&rt, "stepwise", STEPWISE);
    hold(&rt, "hasher", HASHERS);
}
