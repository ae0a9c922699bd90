// The judgement of a bundle under rules, of which one has to accept.
ghost use Rattle.std.specs.Prelude.{◌≡◌, ◌≢◌, [], ◌∷◌, ◌++◌, true, Some, Ok, Err, map, IfOk, IfErr, OnOk};
ghost use Rattle.sigstore_policy.specs.Policy.{meaning_in};
ghost use Rattle.sigstore_judgement.specs.Grounds.{grounds_by, grounds_at};
ghost use Rattle.sigstore_judgement.specs.Judged.{ready_as, bundle_in, prepared_of};
ghost use Rattle.sigstore_judgement.specs.Artifact.{read_kind};
ghost use Rattle.sigstore_judgement.specs.declared.error.Error.TheVariants.{NoMemory as Wanting};
ghost use Rattle.sigstore_judgement.specs.declared.rules.RulesError.TheVariants.{Shared};
ghost use Rattle.sigstore_judgement.specs.Rules.{with_each, or_none, with_needed, needed_by_rules, AreHashed, ReadsFor};
ghost use Rattle.sigstore_judgement.specs.Sharing.{EachComesToNames, HasNeeded};
ghost use Rattle.sigstore_judgement.specs.Rules.{picked_one_of, picked_of, picked_judged_of, ready_answer_of, answer_by, answers_by, RefusesSo, VerifiesByRules};

use crate::artifact::{ArtifactInput, KnownArtifact, taken};
use crate::asked::RulesCase;
use crate::claim::add;
use crate::error::Error;
use crate::grounds::Grounds;
use crate::judge::{Ready, judge, prepare};
use crate::report::JudgedBundle;
use crate::sharing::{EarlierRule, check_shared, remember};
use crate::taking::read_digests;
use crate::verifier::Verifier;
use foundation::{Duplicate, NoMemory, Sequence};
use sigstore_keys::{ArtifactSource, CryptoProvider, ReadError};
use sigstore_policy::{Policy, SigningPolicy};
use sigstore_types::Bundle;
use sigstore_types_parts::{Armor, ArtifactDigest, HashAlgorithm};
use std::alloc::Global;

/// An acceptance under rules: the number of the first that accepts, from 1 on, and what is shown under it.
#[derive(Drop)]
pub struct JudgedByRule {
    pub rule: usize,
    pub judged: JudgedBundle,
}

/// A refusal under rules.
#[derive(Drop)]
pub enum RulesError {
    /// What all rules share is refused: the trusted root or the bundle isn't read, or memory is wanting.
    Shared(Error),
    /// Each rule refuses: the first failing check of each, in their order.
    Each(Sequence<Error>),
}

/// What is had of an artifact that is read: its digests, or why it wasn't read to its end.
#[derive(Drop)]
pub enum ReadArtifact {
    Digests(Sequence<ArtifactDigest>),
    Unread(ReadError),
}

impl From<NoMemory> for RulesError {
    ghost from_gives = { λ _ e. e ≡ Shared Wanting };

    fn from(_: NoMemory) -> RulesError {
        RulesError::Shared(Error::NoMemory)
    }
}

// ---- which digests the rules need

fn add_each(list: &mut Sequence<HashAlgorithm>, others: &[HashAlgorithm]) -> Result<(), NoMemory>
    ensures { OnOk result (list.new ≡ with_each list.old others.now) }
{
    'each: for algorithm in others {
        add(list, Some(*algorithm))?;
    }
    Ok(())
}

fn join(
    alloc: Global,
    found: &mut Option<Sequence<HashAlgorithm>>,
    needed: &[HashAlgorithm],
) -> Result<(), NoMemory>
    ensures { OnOk result (found.new ≡ Some (with_each (or_none found.old) needed.now)) }
{
    match found {
        Some(list) => add_each(list, needed),
        None => {
            let mut list = Sequence::new(alloc);
            add_each(&mut list, needed)?;
            *found = Some(list);
            Ok(())
        }
    }
}

// Those of a rule that gets as far as the artifact, behind those of earlier ones.
fn add_needed(
    alloc: Global,
    bundle: &Bundle,
    policy: &SigningPolicy,
    found: &mut Option<Sequence<HashAlgorithm>>,
) -> Result<(), NoMemory>
    ensures { OnOk result (found.new ≡ with_needed found.old (prepared_of read_kind (meaning_in policy.now) bundle.now)) }
{
    match prepare(alloc, ArtifactInput::Read, policy.kind(), bundle) {
        Ok(ready) => {
            let added = join(alloc, found, ready.needed.as_slice());
            drop(ready);
            added
        }
        Err(Error::NoMemory) => Err(NoMemory),
        Err(_) => Ok(()),
    }
}

fn is_asked(asked: Option<bool>, log: bool) -> bool
    ensures { result ≡ true → asked ≡ Some log }
{
    match asked {
        Some(earlier) => earlier == log,
        None => false,
    }
}

// Those of one rule more, unless an earlier one for certificates asks the same of the log: they need the same.
fn add_once(
    alloc: Global,
    bundle: &Bundle,
    policy: &SigningPolicy,
    found: &mut Option<Sequence<HashAlgorithm>>,
    asked: &mut Option<bool>,
) -> Result<(), NoMemory>
    requires has { HasNeeded bundle.now asked.old found.old }
    ensures found { OnOk result (found.new ≡ with_needed found.old (prepared_of read_kind (meaning_in policy.now) bundle.now)) }
    ensures has { OnOk result (HasNeeded bundle.now asked.new found.new) }
{
    match policy {
        SigningPolicy::Certificate(certificate) => {
            let log = certificate.verify_tlog;
            if is_asked(*asked, log) {
                return Ok(());
            }
            add_needed(alloc, bundle, policy, found)?;
            *asked = Some(log);
            Ok(())
        }
        SigningPolicy::PublicKey(_) => add_needed(alloc, bundle, policy, found),
    }
}

// Those of all rules, in their order.
fn all_needed(
    alloc: Global,
    bundle: &Bundle,
    rules: &[SigningPolicy],
) -> Result<Option<Sequence<HashAlgorithm>>, NoMemory>
    ensures { IfOk result (λ needed. needed ≡ needed_by_rules bundle.now (map meaning_in rules.now)) }
{
    let mut found = None;
    let mut asked = None;
    'rules: for policy in rules {
        add_once(alloc, bundle, policy, &mut found, &mut asked)?;
    }
    Ok(found)
}

/// The digests that some rule needs of the artifact, each once; none where every rule refuses before the artifact, which
/// needn't be read then. Errors: `NoMemory`.
pub fn needed_by_rules(
    alloc: Global,
    bundle: &Bundle,
    rules: &[SigningPolicy],
) -> Result<Option<Sequence<HashAlgorithm>>, NoMemory>
    ensures needed { IfOk result (λ needed. needed ≡ needed_by_rules bundle.now (map meaning_in rules.now)) }
    ensures hashed { IfOk result AreHashed }
{
    all_needed(alloc, bundle, rules)
}

// What is had of the artifact, which is read where some rule gets as far.
fn read_for<A: ArtifactSource>(
    alloc: Global,
    source: &mut A,
    max: u64,
    needed: Option<Sequence<HashAlgorithm>>,
) -> Result<ReadArtifact, NoMemory>
    ensures { AreHashed needed → ReadsFor (A.seen source.old) (A.seen source.new) max needed result }
{
    let Some(needed) = needed else {
        return Ok(ReadArtifact::Digests(Sequence::new(alloc)));
    };
    match read_digests(alloc, source, max, needed.as_slice()) {
        Ok(digests) => Ok(ReadArtifact::Digests(digests)),
        Err(Error::ArtifactRead(fault)) => Ok(ReadArtifact::Unread(fault)),
        Err(_) => Err(NoMemory),
    }
}

// ---- under one rule

// The digest by an algorithm, of those that were taken.
fn pick(
    alloc: Global,
    algorithm: HashAlgorithm,
    digests: &[ArtifactDigest],
) -> Result<ArtifactDigest, Error>
    ensures ok { IfOk result (λ digest. picked_one_of algorithm digests.now ≡ Ok digest) }
    ensures err { IfErr result (λ e. e ≢ Error.NoMemory → picked_one_of algorithm digests.now ≡ Err e) }
{
    match taken(digests, algorithm) {
        Some(digest) => Ok(digest.duplicate(alloc)?),
        None => Err(Error::UnsupportedArtifact),
    }
}

// Those that one rule needs, in its order.
#[tactic(auto, using(crate::proofs::Picking::picked_one, crate::proofs::Picking::picked_none, crate::proofs::Picking::behind_all, crate::proofs::Picking::behind_nothing))]
fn pick_all(
    alloc: Global,
    needed: &[HashAlgorithm],
    digests: &[ArtifactDigest],
) -> Result<Sequence<ArtifactDigest>, Error>
    ensures ok { IfOk result (λ picked. picked_of needed.now digests.now ≡ Ok picked) }
    ensures err { IfErr result (λ e. e ≢ Error.NoMemory → picked_of needed.now digests.now ≡ Err e) }
{
    let mut picked = Sequence::new(alloc);
    'needed: for algorithm in needed {
        let digest = pick(alloc, *algorithm, digests)?;
        picked.push(digest)?;
    }
    Ok(picked)
}

// What was prepared under a rule, by the digests that it needs.
#[tactic(auto, unfolding(crate::specs::Rules::picked_judged_of))]
fn judge_picked<C: CryptoProvider, M: Armor>(
    alloc: Global,
    grounds: &Grounds<'_, C, M>,
    ready: Ready<'_>,
    digests: &[ArtifactDigest],
) -> Result<JudgedBundle, Error>
    ensures ok { IfOk result (λ judged. picked_judged_of (grounds_by C.CryptoProvider M.Armor grounds.now) (ready_as ready.entry) (bundle_in ready.entry)
        digests.now ≡ Ok judged) }
    ensures err { IfErr result (λ e. e ≢ Error.NoMemory →
        picked_judged_of (grounds_by C.CryptoProvider M.Armor grounds.now) (ready_as ready.entry) (bundle_in ready.entry) digests.now ≡ Err e) }
{
    match pick_all(alloc, ready.needed.as_slice(), digests) {
        Ok(digests) => {
            let had = KnownArtifact {
                digests: digests.as_slice(),
                bytes: None,
            };
            match judge(alloc, grounds, ready, &had) {
                Ok(result) => Ok(JudgedBundle { result, digests }),
                Err(e) => Err(e),
            }
        }
        Err(e) => {
            drop(ready);
            Err(e)
        }
    }
}

fn judge_ready<C: CryptoProvider, M: Armor>(
    alloc: Global,
    grounds: &Grounds<'_, C, M>,
    ready: Ready<'_>,
    artifact: &ReadArtifact,
) -> Result<JudgedBundle, Error>
    ensures ok { IfOk result (λ judged. ready_answer_of (grounds_by C.CryptoProvider M.Armor grounds.now) (bundle_in ready.entry) artifact.now
        (ready_as ready.entry) ≡ Ok judged) }
    ensures err { IfErr result (λ e. e ≢ Error.NoMemory →
        ready_answer_of (grounds_by C.CryptoProvider M.Armor grounds.now) (bundle_in ready.entry) artifact.now (ready_as ready.entry) ≡ Err e) }
{
    match artifact {
        ReadArtifact::Digests(digests) => judge_picked(alloc, grounds, ready, digests.as_slice()),
        ReadArtifact::Unread(fault) => {
            drop(ready);
            Err(Error::ArtifactRead(*fault))
        }
    }
}

#[tactic(auto, unfolding(crate::specs::Rules::answer_by))]
fn judge_under<C: CryptoProvider, M: Armor>(
    alloc: Global,
    grounds: &Grounds<'_, C, M>,
    bundle: &Bundle,
    policy: &SigningPolicy,
    artifact: &ReadArtifact,
) -> Result<JudgedBundle, Error>
    ensures ok { IfOk result (λ judged. answer_by (grounds_by C.CryptoProvider M.Armor grounds.now) bundle.now artifact.now (meaning_in policy.now)
        ≡ Ok judged) }
    ensures err { IfErr result (λ e. e ≢ Error.NoMemory →
        answer_by (grounds_by C.CryptoProvider M.Armor grounds.now) bundle.now artifact.now (meaning_in policy.now) ≡ Err e) }
{
    match prepare(alloc, ArtifactInput::Read, policy.kind(), bundle) {
        Ok(ready) => judge_ready(alloc, grounds, ready, artifact),
        Err(e) => Err(e),
    }
}

// ---- under all of them

// Under one rule, behind an earlier one that may have shown how far it comes.
fn judge_next<C: CryptoProvider, M: Armor>(
    alloc: Global,
    grounds: &Grounds<'_, C, M>,
    bundle: &Bundle,
    policy: &SigningPolicy,
    artifact: &ReadArtifact,
    earlier: &[EarlierRule],
) -> Result<JudgedBundle, Error>
    requires comes { EachComesToNames (grounds_by C.CryptoProvider M.Armor grounds.now) bundle.now artifact.now earlier.now }
    ensures ok { IfOk result (λ judged. answer_by (grounds_by C.CryptoProvider M.Armor grounds.now) bundle.now artifact.now (meaning_in policy.now)
        ≡ Ok judged) }
    ensures err { IfErr result (λ e. e ≢ Error.NoMemory →
        answer_by (grounds_by C.CryptoProvider M.Armor grounds.now) bundle.now artifact.now (meaning_in policy.now) ≡ Err e) }
{
    check_shared(alloc, earlier, policy)?;
    judge_under(alloc, grounds, bundle, policy, artifact)
}

// Adds a rule's refusal; want of memory is none.
fn add_refusal(refusals: &mut Sequence<Error>, e: Error) -> Result<(), RulesError>
    ensures ok { OnOk result ((refusals.new ≡ refusals.old ++ e ∷ []) × (e ≢ Error.NoMemory)) }
    ensures err { IfErr result (λ fault. fault ≡ Shared Wanting) }
{
    match e {
        Error::NoMemory => Err(RulesError::Shared(Error::NoMemory)),
        e => {
            refusals.push(e)?;
            Ok(())
        }
    }
}

// Under each until one accepts.
#[tactic(auto, using(crate::proofs::Picking::one_refused, crate::proofs::Picking::one_accepted, crate::proofs::Picking::refused_all, crate::proofs::Picking::refused_nothing, crate::proofs::Picking::none_wants))]
fn judge_each<C: CryptoProvider, M: Armor>(
    alloc: Global,
    grounds: &Grounds<'_, C, M>,
    bundle: &Bundle,
    rules: &[SigningPolicy],
    artifact: &ReadArtifact,
) -> Result<JudgedByRule, RulesError>
    ensures ok { IfOk result (λ accepted. answers_by (grounds_by C.CryptoProvider M.Armor grounds.now) bundle.now artifact.now (map meaning_in rules.now)
        ≡ Ok (accepted.rule, accepted.judged)) }
    ensures err { IfErr result (RefusesSo (answers_by (grounds_by C.CryptoProvider M.Armor grounds.now) bundle.now artifact.now (map meaning_in rules.now))) }
{
    let mut refusals = Sequence::new(alloc);
    let mut earlier = Sequence::new(alloc);
    'rules: for (k, policy) in rules.iter().enumerate() {
        match judge_next(alloc, grounds, bundle, policy, artifact, earlier.as_slice()) {
            Ok(judged) => return Ok(JudgedByRule {
                rule: k + 1,
                judged,
            }),
            Err(e) => {
                remember(alloc, bundle, policy, &e, &mut earlier)?;
                add_refusal(&mut refusals, e)?;
            }
        }
    }
    Err(RulesError::Each(refusals))
}

// An artifact that is read, under each until one accepts.
fn judge_by_rules<C: CryptoProvider, M: Armor, A: ArtifactSource>(
    alloc: Global,
    grounds: &Grounds<'_, C, M>,
    source: &mut A,
    max: u64,
    rules: &[SigningPolicy],
    bundle: &Bundle,
) -> Result<JudgedByRule, RulesError>
    ensures { VerifiesByRules (grounds_by C.CryptoProvider M.Armor grounds.now) (map meaning_in rules.now) bundle.now
        (A.seen source.old) (A.seen source.new) max result }
{
    let needed = needed_by_rules(alloc, bundle, rules)?;
    let artifact = read_for(alloc, source, max, needed)?;
    judge_each(alloc, grounds, bundle, rules, &artifact)
}

impl<'p, C: CryptoProvider, M: Armor> Verifier<'p, C, M> {
    /// Verifies the bundle under rules over what is had of an artifact that is read, and stops at the first that accepts.
    /// Errors: the first failing check of each, as in `verify_reader_kept`; `ArtifactRead` for those that get as far as an
    /// artifact that wasn't read; `UnsupportedArtifact` where a digest that a rule needs is lacking.
    pub fn judge_by_rules(
        &self,
        alloc: Global,
        artifact: &ReadArtifact,
        case: &RulesCase<'_>,
    ) -> Result<JudgedByRule, RulesError>
        ensures ok { IfOk result (λ accepted. answers_by (grounds_at C.CryptoProvider M.Armor self.now case.now.moment) case.now.bundle.now artifact.now
            (map meaning_in case.now.rules.now) ≡ Ok (accepted.rule, accepted.judged)) }
        ensures err { IfErr result (RefusesSo (answers_by (grounds_at C.CryptoProvider M.Armor self.now case.now.moment) case.now.bundle.now artifact.now
            (map meaning_in case.now.rules.now))) }
    {
        judge_each(
            alloc,
            &self.grounds(case.moment),
            case.bundle,
            case.rules,
            artifact,
        )
    }

    /// Reads the artifact to its end, unless every rule refuses before it, and verifies the bundle under the rules. Ok with
    /// the number of the first rule that accepts. Errors: the first failing check of each rule, as in
    /// `verify_reader_kept`.
    pub fn verify_reader_by_rules<A: ArtifactSource>(
        &self,
        alloc: Global,
        source: &mut A,
        max: u64,
        case: &RulesCase<'_>,
    ) -> Result<JudgedByRule, RulesError>
        ensures { VerifiesByRules (grounds_at C.CryptoProvider M.Armor self.now case.now.moment) (map meaning_in case.now.rules.now) case.now.bundle.now
            (A.seen source.old) (A.seen source.new) max result }
    {
        judge_by_rules(
            alloc,
            &self.grounds(case.moment),
            source,
            max,
            case.rules,
            case.bundle,
        )
    }
}
