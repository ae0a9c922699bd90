// What is said of a refusal.
ghost use Rattle.std.specs.Prelude.{◌≡◌, ◌++◌, Some, IfOk, OnOk, string_bytes};
ghost use Rattle.command_verify.specs.Run.{other_line, others_text, each_answer, shared_answer, refusal_answer, tuf_answer, verify_answer};

use command_files::{Answer, Status, push_decimal, push_line, push_refused_line, refusal};
use foundation::NoMemory;
use sigstore_types_parts::Text;
use sigstore_verify::{Error, RootFault, RulesFault};
use std::alloc::Global;

/// What is said of a refusal of the chain.
#[tactic(auto, unfolding(crate::specs::Run::tuf_answer))]
pub fn refused_tuf(alloc: Global, e: &sigstore_tuf_parts::Error) -> Result<Answer, NoMemory>
    ensures { IfOk result (λ said. said ≡ tuf_answer e.now) }
{
    Ok(refusal(alloc, "tuf", e.number(), e.name())?)
}

/// What is said of a refusal of the trust file, the bundle or the artifact.
#[tactic(auto, unfolding(crate::specs::Run::verify_answer))]
pub fn refused_verify(alloc: Global, e: &sigstore_verify::Error) -> Result<Answer, NoMemory>
    ensures { IfOk result (λ said. said ≡ verify_answer e.now) }
{
    Ok(refusal(alloc, "verify", e.number(), e.name())?)
}

// What is said of a refusal that all rules share.
fn refused_shared(alloc: Global, fault: &RootFault) -> Result<Answer, NoMemory>
    ensures { IfOk result (λ said. shared_answer fault.now ≡ Some said) }
{
    match fault {
        RootFault::Tuf(e) => Ok(refused_tuf(alloc, e)?),
        RootFault::Verify { fault, .. } => Ok(refused_verify(alloc, fault)?),
        RootFault::NoMemory => Err(NoMemory),
    }
}

// Adds the line of a later rule's refusal.
#[tactic(auto, unfolding(command_files::specs::Printed::line_of, command_files::specs::Printed::pair_line))]
fn push_other(text: &mut String, fault: &Error) -> Result<(), NoMemory>
    ensures { OnOk result (string_bytes text.new ≡ string_bytes text.old ++ other_line fault.now) }
{
    text.push_str("or ")?;
    push_decimal(text, u64::from(fault.number()))?;
    text.push(' ')?;
    push_line(text, fault.name())
}

fn push_others(text: &mut String, faults: &[Error]) -> Result<(), NoMemory>
    ensures { OnOk result (string_bytes text.new ≡ string_bytes text.old ++ others_text faults.now) }
{
    'faults: for fault in faults {
        push_other(text, fault)?;
    }
    Ok(())
}

/// What is said where each rule refuses: the first one's refusal, and a line for each later rule.
#[tactic(auto, unfolding(crate::specs::Run::each_answer))]
pub fn refused_each(alloc: Global, faults: &[Error]) -> Result<Answer, NoMemory>
    ensures { IfOk result (λ said. said ≡ each_answer faults.now) }
{
    let mut text = String::new(alloc);
    if let [first, others @ ..] = faults {
        push_refused_line(&mut text, "verify", first.number(), first.name())?;
        push_others(&mut text, others)?;
    }
    Ok(Answer {
        status: Status::Refused,
        text: Text::from_string(text),
    })
}

/// What is said of a refusal of the verification.
#[tactic(auto, unfolding(crate::specs::Run::refusal_answer))]
pub fn refused(alloc: Global, fault: &RulesFault) -> Result<Answer, NoMemory>
    ensures { IfOk result (λ said. refusal_answer fault.now ≡ Some said) }
{
    match fault {
        RulesFault::Root(fault) => Ok(refused_shared(alloc, fault)?),
        RulesFault::Each { faults, .. } => Ok(refused_each(alloc, faults.as_slice())?),
    }
}
