// The judgement of a list of bundles: the trusted root is established once, the artifact is read once, and then the bundles
// are judged in their order until a rule accepts one.
ghost use Rattle.std.specs.Prelude.{◌≡◌, ◌≢◌, [], ◌∷◌, ◌++◌, map, Some, Ok, Err, IfOk, IfErr, OnOk};
ghost use Rattle.sigstore_keys.specs.Crypto.{crypto_with};
ghost use Rattle.sigstore_judgement.specs.Grounds.{grounds_at};
ghost use Rattle.sigstore_judgement.specs.Rules.{IsReadFor};
ghost use Rattle.sigstore_judgement.specs.Under.{bundle_of};
ghost use Rattle.sigstore_judgement.specs.declared.error.Error.TheVariants.{NoMemory as Wanting};
ghost use Rattle.sigstore_judgement.specs.declared.rules.RulesError.TheVariants.{Shared};
ghost use Rattle.sigstore_policy.specs.Policy.{meaning_in};
ghost use Rattle.sigstore_verify.specs.ByDigests.{TellsVerdict};
ghost use Rattle.sigstore_verify.specs.Inputs.{anchor_with};
ghost use Rattle.command_verify.specs.Run.{max_artifact};
ghost use Rattle.command_ways.specs.Judging.{outside_by};
ghost use Rattle.command_bundles.specs.Judging.{hashed, IsHad, verdict_under, first_of, found_as, refusal_of, JudgesOver, inputs_with, given_of, JudgesUnder, VerifiesList};

use crate::lines::ListedBundle;
use command_verify::MAX_ARTIFACT;
use command_ways::{Trust, TrustFault, Way, establish};
use foundation::{NoMemory, Sequence};
use jiff::Timestamp;
use release_gate::verifier_over;
use sigstore_judgement::{
    Error, JudgedByRule, ReadArtifact, RulesCase, RulesError, Verifier, read_digests,
};
use sigstore_keys::{ArtifactSource, CryptoProvider, Providers};
use sigstore_policy::SigningPolicy;
use sigstore_tuf::{MetadataStore, Repository, UpdaterConfig};
use sigstore_types::Bundle;
use sigstore_types_parts::{Armor, ArtifactDigest, HashAlgorithm, TypesError};
use sigstore_verify::Anchor;
use std::alloc::Global;

/// What is asked of a list: its bundles, the rules, of which one has to accept, the root's text, and the moment.
#[derive(Drop)]
pub struct ListRequest<'l> {
    pub bundles: &'l [ListedBundle],
    pub rules: &'l [SigningPolicy],
    pub root: &'l [u8],
    pub moment: Timestamp,
}

/// A bundle of a list that every rule refuses, by the number of its line.
#[derive(Drop)]
pub struct BundleRefusal {
    pub line: u64,
    pub why: RulesError,
}

/// The first bundle of a list that a rule accepts, or the refusal of each bundle.
#[derive(Drop)]
pub enum Found<'l> {
    Accepted {
        bundle: &'l ListedBundle,
        judged: JudgedByRule,
    },
    Refused(Sequence<BundleRefusal>),
}

/// What the verification of a list came to.
#[derive(Drop)]
pub enum ListCame<'l> {
    /// There is no trusted root.
    Untrusted(TrustFault),
    /// The trusted root can't be used.
    Unusable { trust: Trust, fault: Error },
    /// What was found of the list under the trusted root.
    Judged { trust: Trust, found: Found<'l> },
}

// What is asked of a list under a trusted root.
#[derive(Drop)]
pub(crate) struct ListAsked<'l> {
    bundles: &'l [ListedBundle],
    rules: &'l [SigningPolicy],
}

// By what each bundle of a list is judged.
#[derive(Drop)]
pub(crate) struct Over<'o> {
    artifact: &'o ReadArtifact,
    rules: &'o [SigningPolicy],
    moment: Timestamp,
}

// Its digests, taken in one reading, by each algorithm that has a hasher; or why it wasn't read.
fn read_once<A: ArtifactSource>(alloc: Global, artifact: &mut A) -> Result<ReadArtifact, NoMemory>
    ensures { IfOk result (IsReadFor (A.seen artifact.old) (A.seen artifact.new) max_artifact (Some hashed)) }
{
    let algorithms = [
        HashAlgorithm::Sha2256,
        HashAlgorithm::Sha2384,
        HashAlgorithm::Sha2512,
    ];
    match read_digests(alloc, artifact, MAX_ARTIFACT, &algorithms) {
        Ok(digests) => Ok(ReadArtifact::Digests(digests)),
        Err(Error::ArtifactRead(fault)) => Ok(ReadArtifact::Unread(fault)),
        Err(_) => Err(NoMemory),
    }
}

// What is had of the artifact: its told digests, or those that are taken.
fn take<A: ArtifactSource>(
    alloc: Global,
    told: Option<Sequence<ArtifactDigest>>,
    artifact: &mut A,
) -> Result<ReadArtifact, NoMemory>
    ensures { IfOk result (IsHad told (A.seen artifact.old) (A.seen artifact.new)) }
{
    match told {
        Some(digests) => Ok(ReadArtifact::Digests(digests)),
        None => read_once(alloc, artifact),
    }
}

fn read_bundle(alloc: Global, text: &[u8]) -> Result<Bundle, Error>
    ensures ok { IfOk result (λ bundle. bundle_of text.now ≡ Ok bundle) }
    ensures err { IfErr result (λ e. e ≢ Error.NoMemory → bundle_of text.now ≡ Err e) }
{
    match Bundle::from_json(alloc, text) {
        Ok(bundle) => Ok(bundle),
        Err(TypesError::NoMemory) => Err(Error::NoMemory),
        Err(_) => Err(Error::InvalidBundle),
    }
}

// One bundle.
fn judge_one<C: CryptoProvider, M: Armor>(
    alloc: Global,
    verifier: &Verifier<'_, C, M>,
    over: &Over<'_>,
    text: &[u8],
) -> Result<JudgedByRule, RulesError>
    ensures { TellsVerdict (verdict_under (grounds_at C.CryptoProvider M.Armor verifier.now over.now.moment) (map meaning_in over.now.rules.now)
        over.now.artifact.now text.now) result }
{
    let bundle = match read_bundle(alloc, text) {
        Ok(bundle) => bundle,
        Err(e) => return Err(RulesError::Shared(e)),
    };
    let judged = verifier.judge_by_rules(
        alloc,
        over.artifact,
        &RulesCase {
            bundle: &bundle,
            rules: over.rules,
            moment: over.moment,
        },
    );
    drop(bundle);
    judged
}

// Adds a bundle's refusal; want of memory is none.
fn add_refusal(
    refusals: &mut Sequence<BundleRefusal>,
    line: u64,
    why: RulesError,
) -> Result<(), NoMemory>
    ensures { OnOk result ((refusals.new ≡ refusals.old ++ refusal_of line why ∷ []) × (why ≢ Shared Wanting)) }
{
    match why {
        RulesError::Shared(Error::NoMemory) => Err(NoMemory),
        why => {
            refusals.push(BundleRefusal { line, why })?;
            Ok(())
        }
    }
}

// One bundle after the other until a rule accepts.
fn judge_each<'l, C: CryptoProvider, M: Armor>(
    alloc: Global,
    verifier: &Verifier<'_, C, M>,
    over: &Over<'_>,
    bundles: &'l [ListedBundle],
) -> Result<Found<'l>, NoMemory>
    ensures { IfOk result (λ found. first_of (verdict_under (grounds_at C.CryptoProvider M.Armor verifier.now over.now.moment)
        (map meaning_in over.now.rules.now) over.now.artifact.now) bundles.now ≡ found_as found) }
{
    let mut refusals = Sequence::new(alloc);
    'bundles: for bundle in bundles {
        match judge_one(alloc, verifier, over, bundle.text.as_bytes()) {
            Ok(judged) => return Ok(Found::Accepted { bundle, judged }),
            Err(why) => add_refusal(&mut refusals, bundle.line, why)?,
        }
    }
    Ok(Found::Refused(refusals))
}

// All bundles, over an artifact that is read once, or told.
fn judge_over<'l, C: CryptoProvider, M: Armor, A: ArtifactSource>(
    alloc: Global,
    verifier: &Verifier<'_, C, M>,
    told: Option<Sequence<ArtifactDigest>>,
    asked: &ListAsked<'l>,
    moment: Timestamp,
    artifact: &mut A,
) -> Result<Found<'l>, NoMemory>
    ensures { IfOk result (λ found. JudgesOver (grounds_at C.CryptoProvider M.Armor verifier.now moment) (map meaning_in asked.now.rules.now)
        asked.now.bundles.now told (A.seen artifact.old) (A.seen artifact.new) (found_as found)) }
{
    let had = take(alloc, told, artifact)?;
    let over = Over {
        artifact: &had,
        rules: asked.rules,
        moment,
    };
    let found = judge_each(alloc, verifier, &over, asked.bundles);
    drop(had);
    found
}

// The same under a trusted root, of which one verifier is made.
fn judge_under<'l, C: CryptoProvider, M: Armor, A: ArtifactSource>(
    alloc: Global,
    anchor: &Anchor<'_, C, M>,
    trust: Trust,
    told: Option<Sequence<ArtifactDigest>>,
    asked: &ListAsked<'l>,
    artifact: &mut A,
) -> Result<ListCame<'l>, NoMemory>
    ensures { IfOk result (JudgesUnder (inputs_with (anchor_with C.CryptoProvider M.Armor anchor.entry.now) asked.now) trust told
        (A.seen artifact.old) (A.seen artifact.new)) }
{
    match verifier_over(alloc, &anchor.providers, trust.file()) {
        Ok(verifier) => {
            let found = judge_over(alloc, &verifier, told, asked, anchor.now, artifact);
            drop(verifier);
            match found {
                Ok(found) => Ok(ListCame::Judged { trust, found }),
                Err(e) => {
                    drop(trust);
                    Err(e)
                }
            }
        }
        Err(fault) => {
            drop(told);
            Ok(ListCame::Unusable { trust, fault })
        }
    }
}

// The trusted root, and then the list under it.
fn verify_by<
    'l,
    R: Repository,
    S: MetadataStore,
    B: ArtifactSource,
    A: ArtifactSource,
    C: CryptoProvider,
    M: Armor,
>(
    alloc: Global,
    anchor: &Anchor<'_, C, M>,
    way: Way,
    asked: &ListAsked<'l>,
    repo: &mut R,
    store: &mut S,
    archive: &mut B,
    artifact: &mut A,
) -> Result<ListCame<'l>, NoMemory>
    ensures { IfOk result (VerifiesList (inputs_with (anchor_with C.CryptoProvider M.Armor anchor.entry.now) asked.now) way
        (outside_by (R.seen repo.old) (S.seen store.old) (B.seen archive.old) (A.seen artifact.old))
        (outside_by (R.seen repo.new) (S.seen store.new) (B.seen archive.new) (A.seen artifact.new))) }
{
    let Way { by, told } = way;
    match establish(alloc, by, anchor, repo, store, archive) {
        Ok(trust) => judge_under(alloc, anchor, trust, told, asked, artifact),
        Err(fault) => {
            drop(told);
            Ok(ListCame::Untrusted(fault))
        }
    }
}

/// Verifies a list of bundles in any way under rules, within the program's limits, in their order until a rule accepts one.
/// The trusted root is established first; where there is none, or it can't be used, the artifact stays unread. Under it the
/// artifact is read once, or where its digests are told nothing of it is read. Errors: `NoMemory`.
pub fn verify_list<
    'l,
    R: Repository,
    S: MetadataStore,
    B: ArtifactSource,
    A: ArtifactSource,
    C: CryptoProvider,
    M: Armor,
>(
    alloc: Global,
    request: &ListRequest<'l>,
    providers: Providers<'_, C, M>,
    way: Way,
    repo: &mut R,
    store: &mut S,
    archive: &mut B,
    artifact: &mut A,
) -> Result<ListCame<'l>, NoMemory>
    ensures { IfOk result (VerifiesList (given_of (crypto_with C.CryptoProvider M.Armor providers.entry) request.now) way
        (outside_by (R.seen repo.old) (S.seen store.old) (B.seen archive.old) (A.seen artifact.old))
        (outside_by (R.seen repo.new) (S.seen store.new) (B.seen archive.new) (A.seen artifact.new))) }
{
    let anchor = Anchor {
        providers,
        root: request.root,
        config: UpdaterConfig::default(),
        now: request.moment,
    };
    let asked = ListAsked {
        bundles: request.bundles,
        rules: request.rules,
    };
    verify_by(alloc, &anchor, way, &asked, repo, store, archive, artifact)
}
