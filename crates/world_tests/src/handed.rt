// The libraries alone, to which the artifact of a world is handed in another way than the program does.
use crate::details::{push_refusal, push_result};
use crate::fault::Fault;
use crate::objects::artifact;
use crate::world::World;
use command_files::{Tables, read_provider, read_rules};
use jiff::Timestamp;
use sigstore_judgement::{Asked, Case, judge_bundle, verify};
use sigstore_keys::{Providers, sha256};
use sigstore_pem::PemArmor;
use sigstore_policy::SigningPolicy;
use sigstore_types::{Artifact, ArtifactDigest, Bundle, Bytes, HashAlgorithm, TrustedRoot};
use std::alloc::Global;

// The octets of a file; none where it isn't there.
fn octets<'a>(world: &World<'a>, name: &str) -> &'a [u8] {
    world.file(name).unwrap_or("").as_bytes()
}

fn trust_file<'a>(world: &World<'a>) -> &'a [u8] {
    octets(world, "repository/targets/trusted_root.json")
}

// Has so many bytes of the artifact read, and judged.
fn push_read(
    alloc: Global,
    world: &World,
    tables: &Tables,
    policy: &SigningPolicy,
    now: Timestamp,
    text: &mut String,
) -> Result<(), Fault> {
    let mut artifact = artifact(alloc, world)?;
    let providers = Providers {
        provider: &tables.provider,
        armor: &PemArmor,
    };
    let asked = Asked {
        bundle: octets(world, "bundle.json"),
        max_artifact: world.number("most").unwrap_or(u64::MAX),
        policy,
    };
    let judged = judge_bundle(
        alloc,
        &providers,
        trust_file(world),
        now,
        &mut artifact,
        &asked,
    );
    drop(artifact);
    match judged {
        Ok(kept) => push_result(alloc, text, &kept.result),
        Err(refusal) => push_refusal(text, &refusal),
    }
}

// The artifact by its octets, or by their SHA-256 value.
fn handed<'a>(alloc: Global, octets: &'a [u8], how: &str) -> Result<Artifact<'a>, Fault> {
    if how == "blob" {
        return Ok(Artifact::Blob(octets));
    }
    let digest = Bytes::new(alloc, sha256(octets).as_bytes())?;
    match ArtifactDigest::new(HashAlgorithm::Sha2256, digest) {
        Ok(digest) => Ok(Artifact::Digest(digest)),
        Err(_) => Err(Fault::World),
    }
}

// Has the artifact judged as it is handed in.
fn push_handed(
    alloc: Global,
    world: &World,
    tables: &Tables,
    policy: &SigningPolicy,
    now: Timestamp,
    text: &mut String,
) -> Result<(), Fault> {
    let Ok(trust) = TrustedRoot::from_json(alloc, trust_file(world)) else {
        return Err(Fault::World);
    };
    let Ok(bundle) = Bundle::from_json(alloc, octets(world, "bundle.json")) else {
        return Err(Fault::World);
    };
    let how = world.text("handed").unwrap_or("");
    let artifact = handed(alloc, octets(world, "artifact"), how)?;
    let providers = Providers {
        provider: &tables.provider,
        armor: &PemArmor,
    };
    let case = Case {
        bundle: &bundle,
        policy,
        moment: now,
    };
    let judged = verify(alloc, &providers, &trust, artifact, &case);
    match judged {
        Ok(result) => push_result(alloc, text, &result),
        Err(refusal) => push_refusal(text, &refusal),
    }
}

/// Whether a world is for the libraries alone.
pub fn is_handed(world: &World) -> bool {
    world.text("handed").is_some() || world.number("most").is_some()
}

/// Judges the bundle of a world by a library alone, and adds what is found.
pub fn push_alone(
    alloc: Global,
    world: &World,
    now: Timestamp,
    text: &mut String,
) -> Result<(), Fault> {
    let Ok(tables) = read_provider(alloc, octets(world, "provider")) else {
        return Err(Fault::World);
    };
    let Ok(rules) = read_rules(alloc, octets(world, "policy")) else {
        return Err(Fault::World);
    };
    let [policy] = rules.as_slice() else {
        return Err(Fault::World);
    };
    match world.text("handed") {
        Some(_) => push_handed(alloc, world, &tables, policy, now, text),
        None => push_read(alloc, world, &tables, policy, now, text),
    }
}
