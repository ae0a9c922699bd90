// What is verified, and within which limits.
ghost use Rattle.sigstore_keys.specs.Crypto.{crypto_with};
ghost use Rattle.sigstore_verify.specs.Inputs.{outside_by};
ghost use Rattle.sigstore_verify.specs.ByRules.{PromisesByRules};
ghost use Rattle.command_verify.specs.Run.{given_of};

use jiff::Timestamp;
use sigstore_keys::{ArtifactSource, CryptoProvider, Providers};
use sigstore_policy::SigningPolicy;
use sigstore_tuf::{MetadataStore, Repository, UpdaterConfig};
use sigstore_types_parts::Armor;
use sigstore_verify::{Anchor, RuleAcceptance, RulesAsked, RulesFault, verify_from_root_by_rules};
use std::alloc::Global;

/// The greatest length of an artifact in bytes: 1 TiB.
pub const MAX_ARTIFACT: u64 = 1_099_511_627_776;

/// What is asked of a verification: the rules, of which one has to accept, the pinned root's text, the bundle's text, and
/// the moment.
#[derive(Drop)]
pub struct VerifyRequest<'a> {
    pub rules: &'a [SigningPolicy],
    pub root: &'a [u8],
    pub bundle: &'a [u8],
    pub moment: Timestamp,
}

/// Verifies what is asked for, within the program's limits: the one place where these stand. Errors are those of
/// `verify_from_root_by_rules` of `sigstore_verify`.
pub fn verify_request<
    R: Repository,
    S: MetadataStore,
    A: ArtifactSource,
    C: CryptoProvider,
    M: Armor,
>(
    alloc: Global,
    request: &VerifyRequest<'_>,
    providers: Providers<'_, C, M>,
    repo: &mut R,
    store: &mut S,
    artifact: &mut A,
) -> Result<RuleAcceptance, RulesFault>
    ensures { PromisesByRules (given_of (crypto_with C.CryptoProvider M.Armor providers.entry) request.now)
        (outside_by (R.seen repo.old) (S.seen store.old) (A.seen artifact.old))
        (outside_by (R.seen repo.new) (S.seen store.new) (A.seen artifact.new)) result }
{
    let anchor = Anchor {
        providers,
        root: request.root,
        config: UpdaterConfig::default(),
        now: request.moment,
    };
    let asked = RulesAsked {
        bundle: request.bundle,
        max_artifact: MAX_ARTIFACT,
        rules: request.rules,
    };
    verify_from_root_by_rules(alloc, &anchor, repo, store, artifact, &asked)
}
