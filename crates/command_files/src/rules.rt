// The policy file: rules, one behind the other.
ghost use Rattle.std.specs.Prelude.{◌≡◌, ◌≢◌, Ok, Err, IfOk, IfErr, OnOk};
ghost use Rattle.command_files.specs.Rules.{rule_line_of, with_rule, ended, rules_line_of, rules_of};

use crate::lines::{ByLine, take_file};
use crate::policy::{Draft, begin, later_line, purposeful};
use crate::usage_fault::UsageFault;
use foundation::Sequence;
use sigstore_policy::SigningPolicy;
use std::alloc::Global;

/// The most rules that a policy file may have.
pub const MAX_RULES: usize = 64;

/// A policy file as the lines so far mean it: the rules that are whole, and the one that is begun.
#[derive(Drop)]
pub struct RulesDraft {
    pub whole: Sequence<SigningPolicy>,
    pub begun: Option<Draft>,
}

// A line of the begun rule; where none is begun, the first line of one.
#[tactic(auto, unfolding(crate::specs::Rules::rule_line_of))]
fn rule_line(alloc: Global, begun: &mut Option<Draft>, line: &str) -> Result<(), UsageFault>
    ensures ok { OnOk result (rule_line_of begun.old line.now ≡ Ok begun.new) }
    ensures err { IfErr result (λ e. e ≢ UsageFault.NoMemory → rule_line_of begun.old line.now ≡ Err e) }
{
    match begun {
        Some(draft) => match later_line(alloc, draft, line) {
            Ok(()) => Ok(()),
            Err(e) => Err(e),
        },
        None => match begin(alloc, line) {
            Ok(draft) => {
                *begun = Some(draft);
                Ok(())
            }
            Err(e) => Err(e),
        },
    }
}

// A rule behind the whole ones, where there is room for it.
fn add_rule(whole: &mut Sequence<SigningPolicy>, begun: Draft) -> Result<(), UsageFault>
    ensures ok { OnOk result (with_rule whole.old begun ≡ Ok whole.new) }
    ensures err { IfErr result (λ e. e ≢ UsageFault.NoMemory → with_rule whole.old begun ≡ Err e) }
{
    let policy = purposeful(begun.policy)?;
    if whole.len() >= MAX_RULES {
        return Err(UsageFault::Usage);
    }
    whole.push(policy)?;
    Ok(())
}

// The end of a rule, by a line `or` or by the end of the file: there is one that is begun.
#[tactic(auto, unfolding(crate::specs::Rules::ended))]
fn end_rule(draft: &mut RulesDraft) -> Result<(), UsageFault>
    ensures ok { OnOk result (ended draft.old ≡ Ok draft.new) }
    ensures err { IfErr result (λ e. e ≢ UsageFault.NoMemory → ended draft.old ≡ Err e) }
{
    match draft.begun.take() {
        Some(begun) => add_rule(&mut draft.whole, begun),
        None => Err(UsageFault::Usage),
    }
}

impl ByLine for RulesDraft {
    ghost takes = { rules_line_of };

    fn take(&mut self, alloc: Global, line: &str) -> Result<(), UsageFault> {
        if line == "or" {
            return end_rule(self);
        }
        rule_line(alloc, &mut self.begun, line)
    }
}

/// The rules of a policy file, in their order. Errors: `Usage` for a file outside the grammar; `NoMemory`.
#[tactic(auto, unfolding(crate::specs::Rules::rules_of))]
pub fn read_rules(alloc: Global, bytes: &[u8]) -> Result<Sequence<SigningPolicy>, UsageFault>
    ensures ok { IfOk result (λ rules. rules_of bytes.now ≡ Ok rules) }
    ensures err { IfErr result (λ e. e ≢ UsageFault.NoMemory → rules_of bytes.now ≡ Err e) }
{
    let mut draft = RulesDraft {
        whole: Sequence::new(alloc),
        begun: None,
    };
    take_file(alloc, &mut draft, bytes)?;
    end_rule(&mut draft)?;
    Ok(draft.whole)
}
