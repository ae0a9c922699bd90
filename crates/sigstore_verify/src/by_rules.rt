// The top call under rules, of which one has to accept: from a pinned root down to one artifact.
ghost use Rattle.std.specs.Prelude.{◌≡◌};
ghost use Rattle.sigstore_verify.specs.Inputs.{anchor_with, outside_by};
ghost use Rattle.sigstore_verify.specs.ByRules.{rules_inputs_with, ruled_of, PromisesByRules};

use crate::anchor::Anchor;
use crate::chain::chain_from_root;
use crate::from_root::{Acceptance, RootFault, tuf_fault, verify_fault};
use foundation::Sequence;
use sigstore_judgement::{
    Error, JudgedBundle, JudgedByRule, RulesAsked, RulesError, judge_bundle_by_rules,
};
use sigstore_keys::{ArtifactSource, CryptoProvider};
use sigstore_tuf::{MetadataStore, Repository, TrustChain};
use sigstore_types_parts::Armor;
use std::alloc::Global;

/// An acceptance under rules: the number of the first rule that accepts, from 1 on, and what is shown under it.
#[derive(Drop)]
pub struct RuleAcceptance {
    pub rule: usize,
    pub acceptance: Acceptance,
}

/// A refusal of the top call under rules.
#[derive(Drop)]
pub enum RulesFault {
    /// What all rules share is refused: the chain of documents, the trusted root or the bundle's text; or want of memory.
    Root(RootFault),
    /// No rule accepts under the trusted root of this chain: the first failing check of each, in their order.
    Each {
        faults: Sequence<Error>,
        chain: TrustChain,
    },
}

// What is answered of the judgement under a chain's trusted root.
pub(crate) fn ruled(
    judged: Result<JudgedByRule, RulesError>,
    chain: TrustChain,
) -> Result<RuleAcceptance, RulesFault>
    ensures { result ≡ ruled_of chain judged }
{
    match judged {
        Ok(accepted) => {
            let JudgedByRule { rule, judged } = accepted;
            let JudgedBundle { result, digests } = judged;
            Ok(RuleAcceptance {
                rule,
                acceptance: Acceptance {
                    result,
                    chain,
                    digests,
                },
            })
        }
        Err(RulesError::Shared(fault)) => Err(RulesFault::Root(verify_fault(fault, chain))),
        Err(RulesError::Each(faults)) => Err(RulesFault::Each { faults, chain }),
    }
}

/// Verifies a bundle over an artifact from a pinned TUF root under rules, of which one has to accept, as `verify_from_root`
/// under one policy. The chain, the trusted root, the bundle and the artifact are read once for all. Ok with the number of
/// the first rule that accepts. Errors: `Root` for what all rules share; else `Each`.
pub fn verify_from_root_by_rules<
    R: Repository,
    S: MetadataStore,
    A: ArtifactSource,
    C: CryptoProvider,
    M: Armor,
>(
    alloc: Global,
    anchor: &Anchor<'_, C, M>,
    repo: &mut R,
    store: &mut S,
    artifact: &mut A,
    asked: &RulesAsked<'_>,
) -> Result<RuleAcceptance, RulesFault>
    ensures { PromisesByRules (rules_inputs_with (anchor_with C.CryptoProvider M.Armor anchor.entry.now) asked.now)
        (outside_by (R.seen repo.old) (S.seen store.old) (A.seen artifact.old))
        (outside_by (R.seen repo.new) (S.seen store.new) (A.seen artifact.new)) result }
{
    let chain = match chain_from_root(alloc, anchor, repo, store) {
        Ok(chain) => chain,
        Err(e) => return Err(RulesFault::Root(tuf_fault(e))),
    };
    let judged = judge_bundle_by_rules(
        alloc,
        &anchor.providers,
        chain.file.as_bytes(),
        anchor.now,
        artifact,
        asked,
    );
    ruled(judged, chain)
}
