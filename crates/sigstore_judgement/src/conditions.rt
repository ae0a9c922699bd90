// What a policy asks of a signature beside who made it.
ghost use Rattle.std.specs.Prelude.{◌≡◌, ◌≢◌, Ok, Err, IfOk, IfErr, option_copied};
ghost use Rattle.sigstore_judgement.specs.Claim.{claim_as};
ghost use Rattle.sigstore_judgement.specs.Conditions.{predicate_in, predicate_judged, sources_judged, authorities_judged, each_within, window_judged, conditions_judged_of};

use crate::claim::Claim;
use crate::error::Error;
use crate::evidence::Evidence;
use foundation::{Duplicate, NoMemory};
use jiff::Timestamp;
use sigstore_keys::Threshold;
use sigstore_policy::{SignatureConditions, TextMatcher};
use sigstore_types_parts::Text;
use std::alloc::Global;

// The type of predicate that the envelope's statement tells.
fn predicate_in<'c>(claim: &'c Claim<'_>) -> Option<&'c str>
    ensures { option_copied result ≡ predicate_in (claim_as claim.now) }
{
    match claim {
        Claim::Digest(_) => None,
        Claim::Statement(statement) => Some(statement.predicate_type.as_str()),
    }
}

fn copied(alloc: Global, told: Option<&str>) -> Result<Option<Text>, NoMemory>
    ensures { IfOk result (λ copy. copy ≡ option_copied told.entry) }
{
    match told {
        Some(text) => Ok(Some(Text::new(alloc, text)?)),
        None => Ok(None),
    }
}

// The refusal, with both texts.
fn other_predicate(
    alloc: Global,
    asked: &TextMatcher,
    told: Option<&str>,
) -> Result<Error, NoMemory>
    ensures { IfOk result (λ e. e ≡ Error.PredicateMismatch asked.now (option_copied told.entry)) }
{
    Ok(Error::PredicateMismatch {
        expected: asked.duplicate(alloc)?,
        actual: copied(alloc, told)?,
    })
}

// Else something else that was said of the artifact would pass.
fn check_predicate(
    alloc: Global,
    asked: &Option<TextMatcher>,
    told: Option<&str>,
) -> Result<(), Error>
    ensures ok { IfOk result (λ x. predicate_judged asked.now (option_copied told.entry) ≡ Ok x) }
    ensures err { IfErr result (λ e. e ≢ Error.NoMemory → predicate_judged asked.now (option_copied told.entry) ≡ Err e) }
{
    let Some(matcher) = asked else {
        return Ok(());
    };
    if matcher.is_matched(alloc, told)? {
        return Ok(());
    }
    Err(other_predicate(alloc, matcher, told)?)
}

// Else fewer parties could agree on a time that isn't so.
fn check_sources(asked: Option<Threshold>, found: u64) -> Result<(), Error>
    ensures { result ≡ sources_judged asked found }
{
    match asked {
        Some(asked) if !asked.is_met_by(found) => Err(Error::TooFewTimes {
            asked: asked.number(),
            found,
        }),
        _ => Ok(()),
    }
}

fn check_authorities(asked: Option<Threshold>, found: u64) -> Result<(), Error>
    ensures { result ≡ authorities_judged asked found }
{
    match asked {
        Some(asked) if !asked.is_met_by(found) => Err(Error::TooFewTokens {
            asked: asked.number(),
            found,
        }),
        _ => Ok(()),
    }
}

// Each time, and not one alone: then no single party's word about the time suffices.
fn check_each(asked: &SignatureConditions, times: &[Timestamp]) -> Result<(), Error>
    ensures { result ≡ each_within asked.now times.now }
{
    'times: for time in times {
        if !asked.is_within(*time) {
            return Err(Error::TimeOutside { time: *time });
        }
    }
    Ok(())
}

// Where it is asked when it was signed, some verified time has to tell.
fn check_window(asked: &SignatureConditions, times: &[Timestamp]) -> Result<(), Error>
    ensures { result ≡ window_judged asked.now times.now }
{
    match times {
        [] => {
            if asked.asks_window() {
                Err(Error::TooFewTimes { asked: 1, found: 0 })
            } else {
                Ok(())
            }
        }
        _ => check_each(asked, times),
    }
}

/// Whether what is asked beside who signed is met. Errors, in order: `PredicateMismatch`, `TooFewTimes`,
/// `TooFewTokens`; where it is asked when it was signed, `TooFewTimes` without a verified time, and `TimeOutside` for the
/// first that isn't one of those that are asked for.
#[tactic(auto, unfolding(crate::specs::Conditions::conditions_judged_of))]
pub(crate) fn check_conditions(
    alloc: Global,
    asked: &SignatureConditions,
    claim: &Claim<'_>,
    evidence: &Evidence,
) -> Result<(), Error>
    ensures ok { IfOk result (λ x. conditions_judged_of asked.now (claim_as claim.now) evidence.now ≡ Ok x) }
    ensures err { IfErr result (λ e. e ≢ Error.NoMemory → conditions_judged_of asked.now (claim_as claim.now) evidence.now ≡ Err e) }
{
    check_predicate(alloc, &asked.predicate, predicate_in(claim))?;
    check_sources(asked.times, evidence.parties.sources)?;
    check_authorities(asked.tokens, evidence.parties.authorities)?;
    check_window(asked, evidence.times.as_slice())?;
    Ok(())
}
