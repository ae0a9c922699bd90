// What follows what is said of a verification.
ghost use Rattle.std.specs.Prelude.{◌≡◌, IfOk, OnOk, string_bytes};
ghost use Rattle.command_outputs.specs.Concluding.{no_envelope_answer, unplaced_answer, line_added, details_added, told_answer, Puts, Delivers, Gives, Yields, FollowsJudged, Follows, Concludes};

use crate::layout::Outputs;
use crate::payload::payload_of;
use command_download::{Shelf, ShelfFault};
use command_files::{Answer, Status, pair, push_number_line, refusal};
use command_ways::{Came, Telling, answered};
use foundation::NoMemory;
use sigstore_judgement::{JudgedByRule, RulesError};
use sigstore_types_parts::Text;
use std::alloc::Global;
use verification_details::push_details;

/// How an acceptance is told, the bundle's bytes and its line where it is one of a list, and what is asked for beside the
/// report.
#[derive(Drop)]
pub struct Inquiry<'a> {
    pub telling: Telling,
    pub bundle: &'a [u8],
    pub line: Option<u64>,
    pub outputs: &'a Outputs,
}

// What is said of an accepted bundle that has a message signature.
fn no_envelope(alloc: Global) -> Result<Answer, NoMemory>
    ensures { IfOk result (λ said. said ≡ no_envelope_answer) }
{
    refusal(alloc, "statement", 1, "NoEnvelope")
}

// What is said where the statement can't be put in its place.
fn unplaced(alloc: Global) -> Result<Answer, NoMemory>
    ensures { IfOk result (λ said. said ≡ unplaced_answer) }
{
    pair(alloc, Status::Output, "output", "statement")
}

// Adds which line of a list the bundle is.
fn push_line_number(text: &mut String, line: Option<u64>) -> Result<(), NoMemory>
    ensures { OnOk result (string_bytes text.new ≡ line_added line (string_bytes text.old)) }
{
    match line {
        Some(line) => push_number_line(text, "bundle", line),
        None => Ok(()),
    }
}

// Adds the lines on the bundle, where they are asked for.
fn push_asked(
    alloc: Global,
    text: &mut String,
    asked: bool,
    bundle: &[u8],
    judged: &JudgedByRule,
) -> Result<(), NoMemory>
    ensures { OnOk result (string_bytes text.new ≡ details_added asked bundle.now judged.now (string_bytes text.old)) }
{
    if asked {
        push_details(alloc, text, bundle, judged)
    } else {
        Ok(())
    }
}

// A report with what stands behind it.
fn told(
    alloc: Global,
    asked: &Inquiry<'_>,
    judged: &JudgedByRule,
    report: Answer,
) -> Result<Answer, NoMemory>
    ensures { IfOk result (λ said. said ≡ told_answer asked.now.line asked.now.outputs.now.details asked.now.bundle.now judged.now report) }
{
    let Answer { status, text } = report;
    let mut text = text.into_string();
    push_line_number(&mut text, asked.line)?;
    push_asked(
        alloc,
        &mut text,
        asked.outputs.details,
        asked.bundle,
        judged,
    )?;
    Ok(Answer {
        status,
        text: Text::from_string(text),
    })
}

// The payload is put in its place, and then the report is said.
fn put<F: Shelf>(
    alloc: Global,
    path: &str,
    payload: &[u8],
    report: Answer,
    shelf: &mut F,
) -> Result<Answer, NoMemory>
    ensures { Puts path.now payload.now report (F.seen shelf.old) (F.seen shelf.new) result }
{
    match shelf.place(alloc, path, payload) {
        Ok(()) => Ok(report),
        Err(ShelfFault::Failed) => {
            drop(report);
            unplaced(alloc)
        }
        Err(ShelfFault::NoMemory) => {
            drop(report);
            Err(NoMemory)
        }
    }
}

// The payload of an accepted bundle is put in its place, where it has an envelope. It was read before, so that another
// fault than want of memory doesn't come.
fn deliver<F: Shelf>(
    alloc: Global,
    bundle: &[u8],
    path: &str,
    report: Answer,
    shelf: &mut F,
) -> Result<Answer, NoMemory>
    ensures { Delivers bundle.now path.now report (F.seen shelf.old) (F.seen shelf.new) result }
{
    match payload_of(alloc, bundle) {
        Ok(Some(payload)) => {
            let said = put(alloc, path, payload.as_bytes(), report, shelf);
            drop(payload);
            said
        }
        Ok(None) => {
            drop(report);
            no_envelope(alloc)
        }
        Err(e) => {
            drop(e);
            drop(report);
            Err(NoMemory)
        }
    }
}

// The same where the statement is asked for.
fn give<F: Shelf>(
    alloc: Global,
    asked: &Inquiry<'_>,
    report: Answer,
    shelf: &mut F,
) -> Result<Answer, NoMemory>
    ensures { Gives asked.now.outputs.now.statement asked.now.bundle.now report (F.seen shelf.old) (F.seen shelf.new) result }
{
    match &asked.outputs.statement {
        Some(path) => deliver(alloc, asked.bundle, path.as_str(), report, shelf),
        None => Ok(report),
    }
}

// What is said of a bundle that a rule accepts: the lines stand behind the report before the payload is put in its place.
fn yielded<F: Shelf>(
    alloc: Global,
    asked: &Inquiry<'_>,
    judged: &JudgedByRule,
    said: Answer,
    shelf: &mut F,
) -> Result<Answer, NoMemory>
    ensures { Yields asked.now.line asked.now.outputs.now asked.now.bundle.now judged.now said (F.seen shelf.old) (F.seen shelf.new) result }
{
    match told(alloc, asked, judged, said) {
        Ok(report) => give(alloc, asked, report, shelf),
        Err(e) => Err(e),
    }
}

// What follows what was said of the judgement under a trusted root.
fn followed_judged<F: Shelf>(
    alloc: Global,
    asked: &Inquiry<'_>,
    judged: &Result<JudgedByRule, RulesError>,
    said: Answer,
    shelf: &mut F,
) -> Result<Answer, NoMemory>
    ensures { FollowsJudged asked.now.line asked.now.outputs.now asked.now.bundle.now judged.now said (F.seen shelf.old) (F.seen shelf.new) result }
{
    match judged {
        Ok(judged) => yielded(alloc, asked, judged, said, shelf),
        Err(_) => Ok(said),
    }
}

// What follows what was said of the verification.
fn followed<F: Shelf>(
    alloc: Global,
    asked: &Inquiry<'_>,
    came: &Came,
    said: Answer,
    shelf: &mut F,
) -> Result<Answer, NoMemory>
    ensures { Follows asked.now.line asked.now.outputs.now asked.now.bundle.now came.now said (F.seen shelf.old) (F.seen shelf.new) result }
{
    match came {
        Came::Judged { judged, .. } => followed_judged(alloc, asked, judged, said, shelf),
        Came::Untrusted(_) => Ok(said),
    }
}

/// What is said of what a verification came to. Where a rule accepts, what is asked for beside the report follows: its
/// lines, and then the payload that was signed is put in its place, whole. Errors: `NoMemory`, and then nothing is put.
pub fn conclude<F: Shelf>(
    alloc: Global,
    asked: &Inquiry<'_>,
    came: &Came,
    shelf: &mut F,
) -> Result<Answer, NoMemory>
    ensures { Concludes asked.now.telling asked.now.line asked.now.outputs.now asked.now.bundle.now came.now (F.seen shelf.old) (F.seen shelf.new) result }
{
    match answered(alloc, asked.telling, came) {
        Ok(said) => followed(alloc, asked, came, said, shelf),
        Err(e) => Err(e),
    }
}
