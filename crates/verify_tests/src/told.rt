// The top call over an artifact that is told by its digests.
use crate::fixture::{SPKI, anchor, bundle, given_root, provider, repository, root, targets};
use crate::hostile::unchanged;
use crate::tables::{bytes, good, halves, hold, string, there};
use command_files::{Tables, read_provider};
use foundation::Sequence;
use sigstore_tuf::{MemoryRepository, MemoryStore};
use sigstore_types_parts::{ArtifactDigest, Bytes, DerPublicKey, DigestBytes, HashAlgorithm};
use sigstore_verify::{
    DigestsAsked, Error, PublicKeyVerificationPolicy, RuleAcceptance, RulesFault, SigningPolicy,
    verify_digests_from_root,
};
use std::process::Abort;

// A row: the digest that is told, and the answer. The first is SHA-256 of `hello`, the second of `hallo`, the third SHA-512
// of `hello`, by Python's hashlib; the bundle needs SHA-256 alone.
const TOLD: &str = "sha256 LPJNul+wow4m6DsqxbninhsWHlwfp0JecwQzYpOLmCQ= | accepted by rule 1
sha256 03UdM/nNUEnErytGJzVFfk07rxMLy7h/OJ40n7rrILk= | ArtifactMismatch
sha512 m3HSJL1i83hdltRq0+o9czGb+8KJDKra4t/3JRlnPKcjI8PZm6XBHXx6zG4UuMXaDEZjR1wuXDre9G9zvN7AQw== | UnsupportedArtifact";

#[test]
fn an_artifact_is_told_by_its_digests(rt: HostRuntime) {
    hold(&rt, "told", TOLD);
}

fn digest<X: AllocGlobal + Abort>(rt: &X, row: &str) -> ArtifactDigest {
    let (name, text) = halves(rt, row, " ");
    let algorithm = there(rt, HashAlgorithm::from_name(name));
    let octets = good(rt, DigestBytes::from_base64(rt.alloc(), text));
    let digest = ArtifactDigest::new(algorithm, bytes(rt, octets.as_bytes()));
    drop(octets);
    good(rt, digest)
}

// The answer over the unchanged fixture.
pub(crate) fn said<X: AllocGlobal + Abort>(rt: &X, row: &str) -> String {
    let change = unchanged(false);
    let (root, targets) = (root(rt, change, "1"), targets(rt, change));
    let mut repo = repository(rt, change, targets.as_str());
    let rows = provider(rt, change, root.as_str(), targets.as_str());
    let tables = good(rt, read_provider(rt.alloc(), rows.as_bytes()));
    let document = given_root(rt, change, root.as_str());
    let judged = judged(rt, &tables, &document, &mut repo, digest(rt, row));
    drop(document);
    drop(tables);
    drop(rows);
    drop(repo);
    drop(root);
    drop(targets);
    answered(rt, judged)
}

fn judged<X: AllocGlobal + Abort>(
    rt: &X,
    tables: &Tables,
    root: &Bytes,
    repo: &mut MemoryRepository,
    digest: ArtifactDigest,
) -> Result<RuleAcceptance, RulesFault> {
    let mut store = MemoryStore::new(rt.alloc());
    let bundle = bundle(rt, unchanged(false));
    let key = good(rt, DerPublicKey::from_base64(rt.alloc(), SPKI));
    let mut rules = Sequence::new(rt.alloc());
    let policy = PublicKeyVerificationPolicy::new(key).skip_tlog_unsafe();
    good(rt, rules.push(SigningPolicy::PublicKey(policy)));
    let mut digests = Sequence::new(rt.alloc());
    good(rt, digests.push(digest));
    let asked = DigestsAsked {
        bundle: bundle.as_bytes(),
        rules: rules.as_slice(),
    };
    let anchor = anchor(rt, tables, root);
    let judged = verify_digests_from_root(rt.alloc(), &anchor, repo, &mut store, digests, &asked);
    drop(rules);
    drop(bundle);
    drop(store);
    judged
}

fn first_of<X: AllocGlobal + Abort>(rt: &X, faults: &[Error]) -> String {
    match faults {
        [fault, ..] => good(rt, format!(in rt.alloc(); "{fault:?}")),
        [] => string(rt, "no rule"),
    }
}

fn answered<X: AllocGlobal + Abort>(rt: &X, judged: Result<RuleAcceptance, RulesFault>) -> String {
    match judged {
        Ok(accepted) => {
            let rule = accepted.rule;
            drop(accepted);
            good(rt, format!(in rt.alloc(); "accepted by rule {rule}"))
        }
        Err(RulesFault::Each { faults, chain }) => {
            drop(chain);
            first_of(rt, faults.as_slice())
        }
        Err(_) => string(rt, "another refusal"),
    }
}
