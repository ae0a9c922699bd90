// What is said of a list of bundles, and what follows where one is accepted.
ghost use Rattle.std.specs.Prelude.{◌≡◌, ◌++◌, Some, Ok, IfOk, OnOk, string_bytes};
ghost use Rattle.command_ways.specs.Report.{refused_answer, Answers};
ghost use Rattle.command_ways.specs.declared.judging.Came.TheVariants.{Judged};
ghost use Rattle.command_outputs.specs.Concluding.{Concludes};
ghost use Rattle.command_bundles.specs.Concluding.{list_answer, refusal_text, refusals_text, refusals_answer, ConcludesFound, ConcludesList, ConcludesCame};
ghost use Rattle.command_bundles.specs.Judging.{found_as};

use crate::judging::{BundleRefusal, Found, ListCame};
use crate::lines::ListFault;
use command_download::Shelf;
use command_files::{Answer, Status, push_number_line, refusal};
use command_outputs::{Inquiry, Outputs, conclude};
use command_verify::{refused_each, refused_verify};
use command_ways::{Came, Telling, Trust, answered};
use foundation::NoMemory;
use sigstore_judgement::{JudgedByRule, RulesError};
use sigstore_types_parts::Text;
use std::alloc::Global;

// What is said of a list whose bundles aren't judged.
pub(crate) fn unlisted(alloc: Global, fault: ListFault) -> Result<Answer, NoMemory>
    ensures { IfOk result (λ said. list_answer fault ≡ Some said) }
{
    match fault {
        ListFault::NoBundle => Ok(refusal(alloc, "bundles", 1, "NoBundle")?),
        ListFault::TooManyBundles => Ok(refusal(alloc, "bundles", 2, "TooManyBundles")?),
        ListFault::NoMemory => Err(NoMemory),
    }
}

// What is said of one bundle that every rule refuses.
fn refused(alloc: Global, why: &RulesError) -> Result<Answer, NoMemory>
    ensures { IfOk result (λ said. said ≡ refused_answer why.now) }
{
    match why {
        RulesError::Shared(e) => refused_verify(alloc, e),
        RulesError::Each(faults) => refused_each(alloc, faults.as_slice()),
    }
}

// Adds the line of a bundle, and its refusal.
fn push_refusal(alloc: Global, text: &mut String, refusal: &BundleRefusal) -> Result<(), NoMemory>
    ensures { OnOk result (string_bytes text.new ≡ string_bytes text.old ++ refusal_text refusal.now) }
{
    push_number_line(text, "bundle", refusal.line)?;
    let said = refused(alloc, &refusal.why)?;
    text.push_str(said.text.as_str())?;
    Ok(())
}

// The same of each.
fn push_refusals(
    alloc: Global,
    text: &mut String,
    refusals: &[BundleRefusal],
) -> Result<(), NoMemory>
    ensures { OnOk result (string_bytes text.new ≡ string_bytes text.old ++ refusals_text refusals.now) }
{
    'refusals: for refusal in refusals {
        push_refusal(alloc, text, refusal)?;
    }
    Ok(())
}

// What is said where every bundle is refused.
fn refusals_said(alloc: Global, refusals: &[BundleRefusal]) -> Result<Answer, NoMemory>
    ensures { IfOk result (λ said. said ≡ refusals_answer refusals.now) }
{
    let mut text = String::new(alloc);
    push_refusals(alloc, &mut text, refusals)?;
    Ok(Answer {
        status: Status::Refused,
        text: Text::from_string(text),
    })
}

// What is said of the bundle that is accepted, and what follows it.
fn conclude_accepted<F: Shelf>(
    alloc: Global,
    asked: &Inquiry<'_>,
    trust: Trust,
    judged: JudgedByRule,
    shelf: &mut F,
) -> Result<Answer, NoMemory>
    ensures { Concludes asked.now.telling asked.now.line asked.now.outputs.now asked.now.bundle.now (Judged trust (Ok judged))
        (F.seen shelf.old) (F.seen shelf.new) result }
{
    let came = Came::Judged {
        trust,
        judged: Ok(judged),
    };
    let said = conclude(alloc, asked, &came, shelf);
    drop(came);
    said
}

// What is said where the bundles aren't judged.
fn unjudged(alloc: Global, telling: Telling, came: Came) -> Result<Answer, NoMemory>
    ensures { IfOk result (Answers telling came) }
{
    let said = answered(alloc, telling, &came);
    drop(came);
    said
}

// What is said of what was found of a list under a trusted root, and what follows it.
fn conclude_found<F: Shelf>(
    alloc: Global,
    telling: Telling,
    outputs: &Outputs,
    trust: Trust,
    found: Found<'_>,
    shelf: &mut F,
) -> Result<Answer, NoMemory>
    ensures { ConcludesFound telling outputs.now trust (found_as found.entry) (F.seen shelf.old) (F.seen shelf.new) result }
{
    match found {
        Found::Accepted { bundle, judged } => {
            let inquiry = Inquiry {
                telling,
                bundle: bundle.text.as_bytes(),
                line: Some(bundle.line),
                outputs,
            };
            conclude_accepted(alloc, &inquiry, trust, judged, shelf)
        }
        Found::Refused(refusals) => {
            let said = refusals_said(alloc, refusals.as_slice());
            drop(refusals);
            drop(trust);
            said
        }
    }
}

// What is said of what a list came to, and what follows it.
fn conclude_list<F: Shelf>(
    alloc: Global,
    telling: Telling,
    outputs: &Outputs,
    came: ListCame<'_>,
    shelf: &mut F,
) -> Result<Answer, NoMemory>
    ensures { ConcludesList telling outputs.now came.entry (F.seen shelf.old) (F.seen shelf.new) result }
{
    match came {
        ListCame::Untrusted(fault) => unjudged(alloc, telling, Came::Untrusted(fault)),
        ListCame::Unusable { trust, fault } => unjudged(
            alloc,
            telling,
            Came::Judged {
                trust,
                judged: Err(RulesError::Shared(fault)),
            },
        ),
        ListCame::Judged { trust, found } => {
            conclude_found(alloc, telling, outputs, trust, found, shelf)
        }
    }
}

// The same where memory may have been wanting before.
pub(crate) fn conclude_came<F: Shelf>(
    alloc: Global,
    telling: Telling,
    outputs: &Outputs,
    came: Result<ListCame<'_>, NoMemory>,
    shelf: &mut F,
) -> Result<Answer, NoMemory>
    ensures { ConcludesCame telling outputs.now came.entry (F.seen shelf.old) (F.seen shelf.new) result }
{
    match came {
        Ok(came) => conclude_list(alloc, telling, outputs, came, shelf),
        Err(e) => Err(e),
    }
}
