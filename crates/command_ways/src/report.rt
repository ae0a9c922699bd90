// What is said of an acceptance or a refusal.
ghost use Rattle.std.specs.Prelude.{◌≡◌, ◌≢◌, Some, Ok, Err, IfOk, IfErr, OnOk, string_bytes};
ghost use Rattle.command_ways.specs.Report.{head_of, rule_added, read_added, way_text, said_of, untrusted_answer, RefusesSo, Answers};

use crate::judging::Came;
use crate::trust::{Trust, TrustFault};
use command_archive::{refused_archive, unread_archive};
use command_files::{Answer, Status, push_line, push_number_line, push_pair_line};
use command_verify::{
    push_digests, push_result, refused_each, refused_tuf, refused_verify, report_chain,
};
use foundation::NoMemory;
use sigstore_judgement::{Error, JudgedByRule, RulesError};
use sigstore_tuf_parts::Error as TufError;
use sigstore_types_parts::Text;
use std::alloc::Global;

/// How an acceptance is told: whether there are several rules, and whether the artifact was told by digests.
#[derive(Clone, Copy, Debug, PartialEq, Eq, Drop)]
pub struct Telling {
    pub several: bool,
    pub told: bool,
}

// The first lines: that the bundle is accepted, and the lines on the chain, or that there is no pinned root.
fn head(alloc: Global, trust: &Trust) -> Result<String, TufError>
    ensures ok { IfOk result (λ text. head_of trust.now ≡ Ok (string_bytes text)) }
    ensures err { IfErr result (λ e. e ≢ TufError.NoMemory → head_of trust.now ≡ Err e) }
{
    match trust {
        Trust::Chain(chain) => report_chain(alloc, "accepted", chain),
        Trust::File(_) => {
            let mut text = String::new(alloc);
            push_line(&mut text, "accepted")?;
            push_pair_line(&mut text, "root", "none")?;
            Ok(text)
        }
    }
}

// Adds which rule accepts, where there are several, and that nothing was read of an artifact that was told.
fn push_end(text: &mut String, rule: usize, telling: Telling) -> Result<(), NoMemory>
    ensures { OnOk result (string_bytes text.new ≡ read_added telling.told (rule_added telling.several rule (string_bytes text.old))) }
{
    if telling.several {
        push_number_line(text, "rule", rule as u64)?;
    }
    if telling.told {
        push_pair_line(text, "read", "no")?;
    }
    Ok(())
}

// The report of an acceptance. Errors: a document of the chain that isn't read; `NoMemory`.
#[tactic(auto, unfolding(crate::specs::Report::way_text))]
fn report(
    alloc: Global,
    trust: &Trust,
    judged: &JudgedByRule,
    telling: Telling,
) -> Result<String, TufError>
    ensures ok { IfOk result (λ text. way_text trust.now judged.now telling ≡ Ok (string_bytes text)) }
    ensures err { IfErr result (λ e. e ≢ TufError.NoMemory → way_text trust.now judged.now telling ≡ Err e) }
{
    let mut text = head(alloc, trust)?;
    push_digests(alloc, &mut text, judged.judged.digests.as_slice())?;
    push_result(&mut text, &judged.judged.result)?;
    push_end(&mut text, judged.rule, telling)?;
    Ok(text)
}

// What is said of an acceptance: its report, or the refusal of a document of its chain that isn't read.
fn accepted(
    alloc: Global,
    telling: Telling,
    trust: &Trust,
    judged: &JudgedByRule,
) -> Result<Answer, NoMemory>
    ensures { IfOk result (λ said. said_of (way_text trust.now judged.now telling) ≡ Some said) }
{
    match report(alloc, trust, judged, telling) {
        Ok(text) => Ok(Answer {
            status: Status::Accepted,
            text: Text::from_string(text),
        }),
        Err(TufError::NoMemory) => Err(NoMemory),
        Err(e) => {
            let said = refused_tuf(alloc, &e);
            drop(e);
            said
        }
    }
}

// What is said where there is no trusted root.
pub(crate) fn untrusted(alloc: Global, fault: &TrustFault) -> Result<Answer, NoMemory>
    ensures { IfOk result (λ said. untrusted_answer fault.now ≡ Some said) }
{
    match fault {
        TrustFault::Tuf(e) => Ok(refused_tuf(alloc, e)?),
        TrustFault::Archive(e) => Ok(refused_archive(alloc, e)?),
        TrustFault::Unread => Ok(unread_archive(alloc)?),
        TrustFault::NoMemory => Err(NoMemory),
    }
}

// What is said of a refusal under the trusted root.
fn refused(alloc: Global, e: &RulesError) -> Result<Answer, NoMemory>
    ensures { IfOk result (RefusesSo e.now) }
{
    match e {
        RulesError::Shared(Error::NoMemory) => Err(NoMemory),
        RulesError::Shared(e) => Ok(refused_verify(alloc, e)?),
        RulesError::Each(faults) => Ok(refused_each(alloc, faults.as_slice())?),
    }
}

/// What is said of what a verification came to.
pub fn answered(alloc: Global, telling: Telling, came: &Came) -> Result<Answer, NoMemory>
    ensures { IfOk result (Answers telling came.now) }
{
    match came {
        Came::Untrusted(fault) => untrusted(alloc, fault),
        Came::Judged {
            trust,
            judged: Ok(judged),
        } => accepted(alloc, telling, trust, judged),
        Came::Judged { judged: Err(e), .. } => refused(alloc, e),
    }
}
