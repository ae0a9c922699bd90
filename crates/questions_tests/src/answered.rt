// What known answers decide: where a verification asks nothing but questions whose answers are known, it ends as it
// ends under whoever judges signatures so.
ghost use Rattle.std.specs.Prelude.{◌≡◌, List, ℕ, Bool};
ghost use Rattle.sigstore_keys.specs.declared.scheme.SigningScheme.{SigningScheme};
ghost use Rattle.sigstore_keys.specs.Crypto.{Crypto};
ghost use Rattle.sigstore_verify.specs.Inputs.{outside_by};
ghost use Rattle.sigstore_verify.specs.ByRules.{PromisesByRules};
ghost use Rattle.command_verify.specs.Run.{given_of};
ghost use Rattle.questions_tests.specs.Answered.{AreAnswers, by_answers};

use command_files::{Subject, TableProvider};
use command_verify::{VerifyRequest, verify_request};
use sigstore_keys::{ArtifactSource, CryptoProvider, Providers, SigningScheme};
use sigstore_tuf::{MetadataStore, Repository};
use sigstore_types_parts::Armor;
use sigstore_verify::{RuleAcceptance, RulesFault};
use std::alloc::Global;
use std::marker::PhantomData;
use std::process::Abort;

// Whoever judges signatures. No code can ask them: a function that is given such a type does the same for each.
pub(crate) trait AnyJudge {
    ghost judges: { SigningScheme → List ℕ → List ℕ → List ℕ → Bool };
}

// Answers the questions whose answers are known, and ends the process at each other one. So it answers as everyone does
// who agrees with what is known.
#[derive(Drop)]
pub(crate) struct Answered<'a, X: Abort, J: AnyJudge> {
    pub(crate) rt: &'a X,
    pub(crate) good: &'a TableProvider,
    pub(crate) refused: &'a TableProvider,
    pub(crate) judge: PhantomData<J>,
}

impl<X: Abort, J: AnyJudge> Answered<'_, X, J> {
    fn answer(&self, scheme: SigningScheme, key: &[u8], subject: &[u8], signature: &[u8]) -> bool
        ensures { result ≡ by_answers self.now.good.now.rows self.now.refused.now.rows J.judges scheme key.now subject.now signature.now }
    {
        if self.good.accepts(scheme, key, subject, signature) {
            return true;
        }
        if self.refused.accepts(scheme, key, subject, signature) {
            return false;
        }
        panic!(self.rt; "a question whose answer isn't known")
    }
}

impl<X: Abort, J: AnyJudge> CryptoProvider for Answered<'_, X, J> {
    ghost accepts = { λ p. by_answers p.good.now.rows p.refused.now.rows J.judges };

    fn verify_raw(
        &self,
        scheme: SigningScheme,
        key: &[u8],
        message: &[u8],
        signature: &[u8],
    ) -> bool {
        let subject = Subject::new(scheme, message);
        self.answer(scheme, key, subject.as_bytes(), signature)
    }

    fn verify_prehashed(
        &self,
        scheme: SigningScheme,
        key: &[u8],
        digest: &[u8],
        signature: &[u8],
    ) -> bool {
        self.answer(scheme, key, digest, signature)
    }
}

// The verification by answers that are known. It returns only where it asks for no other, and then with what the
// verification answers under every judge who agrees with them: one and the same for all.
pub(crate) fn verify_by_answers<
    X: Abort,
    J: AnyJudge,
    R: Repository,
    S: MetadataStore,
    A: ArtifactSource,
    M: Armor,
>(
    alloc: Global,
    request: &VerifyRequest<'_>,
    answers: Providers<'_, Answered<'_, X, J>, M>,
    repo: &mut R,
    store: &mut S,
    artifact: &mut A,
) -> Result<RuleAcceptance, RulesFault>
    ensures { let armor = answers.entry.armor.now in
        let crypto : Crypto = record {
          accepts = J.judges;
          armored = M.armored armor;
          key_in = M.key_in armor;
          certificate_in = M.certificate_in armor;
        } in
        AreAnswers J.judges answers.entry.provider.now.good.now.rows answers.entry.provider.now.refused.now.rows → PromisesByRules (given_of crypto request.now)
        (outside_by (R.seen repo.old) (S.seen store.old) (A.seen artifact.old))
        (outside_by (R.seen repo.new) (S.seen store.new) (A.seen artifact.new)) result }
{
    verify_request(alloc, request, answers, repo, store, artifact)
}
