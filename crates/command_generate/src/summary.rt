// How many of a workload's items are accepted, and how many are refused for what.
ghost use Rattle.std.specs.Prelude.{◌≡◌, ◌++◌, ◌∷◌, ◌<◌, ◌≤◌, ◌+◌, ◌-◌, ◌^◌, count_by, length, option_map, string_bytes, [], IfOk, OnOk};
ghost use Rattle.command_generate.specs.Judged.{has_number, counted_of, first_of, counted_line, line_if, lines_from, summary_of};
ghost use Rattle.command_generate.specs.Generate.{IsSummary};
ghost use Rattle.sigstore_judgement.specs.Error.{number_of};

use crate::generating::generate;
use crate::judged::judge_items;
use command_files::push_number_line;
use foundation::NoMemory;
use sigstore_types_parts::Text;
use sigstore_verify::Error;
use std::alloc::Global;

fn has_number(outcome: &Result<(), Error>, number: u8) -> bool
    ensures { result ≡ has_number number outcome.now }
{
    match outcome {
        Ok(()) => number == 0,
        Err(e) => e.number() == number,
    }
}

// How many outcomes have the number.
fn counted(outcomes: &[Result<(), Error>], number: u8) -> usize
    ensures { result ≡ counted_of number outcomes.now }
{
    let mut count = 0;
    'outcomes: for outcome in outcomes {
        if has_number(outcome, number) {
            count += 1;
        }
    }
    count
}

fn refused_by(outcome: &Result<(), Error>, number: u8) -> Option<&Error>
    ensures { option_map (λ e. e.now) result ≡ first_of number (outcome.now ∷ []) }
{
    match outcome {
        Err(e) if e.number() == number => Some(e),
        _ => None,
    }
}

// The first refusal of the number.
fn first(outcomes: &[Result<(), Error>], number: u8) -> Option<&Error>
    ensures { option_map (λ e. e.now) result ≡ first_of number outcomes.now }
{
    'outcomes: for outcome in outcomes {
        if let Some(e) = refused_by(outcome, number) {
            return Some(e);
        }
    }
    None
}

fn push_counted(text: &mut String, e: &Error, count: usize) -> Result<(), NoMemory>
    ensures { OnOk result (string_bytes text.new ≡ string_bytes text.old ++ counted_line e.now count) }
{
    let number = e.number();
    let name = e.name();
    write!(text, "refused verify {number} {name} {count}\n")?;
    Ok(())
}

// A line where a refusal of the number occurred.
fn push_line(text: &mut String, outcomes: &[Result<(), Error>], number: u8) -> Result<(), NoMemory>
    ensures { OnOk result (string_bytes text.new
        ≡ string_bytes text.old ++ line_if (first_of number outcomes.now) (counted_of number outcomes.now)) }
{
    match first(outcomes, number) {
        Some(e) => push_counted(text, e, counted(outcomes, number)),
        None => Ok(()),
    }
}

fn push_lines(text: &mut String, outcomes: &[Result<(), Error>]) -> Result<(), NoMemory>
    ensures { OnOk result (string_bytes text.new ≡ string_bytes text.old ++ lines_from 1 32 outcomes.now) }
{
    'numbers: for number in 1..33u8 {
        push_line(text, outcomes, number)?;
    }
    Ok(())
}

#[tactic(auto, unfolding(crate::specs::Judged::summary_of))]
fn written(alloc: Global, outcomes: &[Result<(), Error>]) -> Result<Text, NoMemory>
    ensures { IfOk result (λ text. text ≡ summary_of outcomes.now) }
{
    let mut text = String::new(alloc);
    push_number_line(&mut text, "generated", outcomes.len() as u64)?;
    push_number_line(&mut text, "accepted", counted(outcomes, 0) as u64)?;
    push_lines(&mut text, outcomes)?;
    Ok(Text::from_string(text))
}

/// Verifies each item of a workload from its root, and says how many are accepted and how many are refused for
/// what.
pub fn summarise(alloc: Global, number: u32, count: u32) -> Result<Text, NoMemory>
    requires some { 0 < count }
    requires most { count ≤ 4096 }
    ensures { IfOk result (IsSummary number count) }
{
    let workload = generate(alloc, number, count)?;
    let outcomes = judge_items(alloc, &workload);
    drop(workload);
    match outcomes {
        Ok(outcomes) => written(alloc, outcomes.as_slice()),
        Err(e) => Err(e),
    }
}
